// The answers of the smaller public calls: a Result of what is asked for, or of the reason that it is refused.
ghost use Rattle.std.specs.Prelude.{◌≡◌};
ghost use Rattle.calls.specs.Answers.{number_of, refused_if};

use std::error::Error;
use std::fmt;

// Why a call is refused: a number, not a variant for each, since the laws figure_answered and times_answered are of every number.
#[derive(Clone, Copy, Debug, PartialEq, Eq, Hash)]
pub struct Refusal {
    pub number: u8,
}

impl Refusal {
    // A reference level out of its component's range.
    pub const REFERENCE: Refusal = Refusal { number: 7 };

    // Any other argument out of its range.
    pub const ARGUMENT: Refusal = Refusal { number: 10 };

    // An argument of the line out of its range.
    pub const LINE: Refusal = Refusal { number: 16 };
}

// By the number docs/RULES.md and other languages know it.
impl From<Refusal> for u8 {
    ghost from_gives = { λ refusal number. number ≡ number_of refusal };

    fn from(refusal: Refusal) -> u8 {
        refusal.number
    }
}

impl fmt::Display for Refusal {
    fn fmt<W: fmt::Write>(&self, f: &mut fmt::Formatter<W>) -> fmt::Result {
        write!(f, "refused {}", self.number)
    }
}

impl Error for Refusal {}

// Which of start-up, minimum run and minimum down time fail.
#[derive(Clone, Copy, Debug, PartialEq, Eq, Hash)]
pub struct TimesFailed {
    pub start_up: bool,
    pub minimum_run: bool,
    pub minimum_down: bool,
}

// Goes on only where the argument isn't out of its range.
pub fn refuse_if(out_of_range: bool, refusal: Refusal) -> Result<(), Refusal>
    ensures { result ≡ refused_if out_of_range refusal }
{
    if out_of_range {
        return Err(refusal);
    }
    Ok(())
}
