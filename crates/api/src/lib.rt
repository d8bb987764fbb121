// What other languages call. include/attachment_h.h and rust/attachment_h declare these functions again.
#![tactic(auto)]

pub mod case;
pub mod exported_answers;
pub mod money;
pub mod smaller_calls;

pub use case::Outcome;
pub use exported_answers::{ExportedAnswer, ExportedTimes};
