// The answers that cross to other languages, which take no enum.
ghost use Rattle.std.specs.Prelude.{◌≡◌};
ghost use Rattle.calls.specs.Answers.{verdict_answer, figure_answer, time_answer};
ghost use Rattle.api.specs.Exported.{exported, exported_times};

use calls::answers::{Refusal, TimesFailed};

// The refusal's number, or 0 and the figure; a question's figure is 1 for yes.
#[repr(C)]
#[derive(Clone, Copy)]
pub struct ExportedAnswer {
    pub number: u8,
    pub figure: u64,
}

// The refusal's number, or 0 and which of the three times fail.
#[repr(C)]
#[derive(Clone, Copy)]
pub struct ExportedTimes {
    pub number: u8,
    pub start_up: bool,
    pub minimum_run: bool,
    pub minimum_down: bool,
}

pub fn of_verdict(verdict: Result<bool, Refusal>) -> ExportedAnswer
    ensures { result ≡ exported (verdict_answer verdict) }
{
    match verdict {
        Err(refusal) => ExportedAnswer {
            number: u8::from(refusal),
            figure: 0,
        },
        Ok(fails) => ExportedAnswer {
            number: 0,
            figure: u64::from(fails),
        },
    }
}

pub fn of_figure(figure: Result<u64, Refusal>) -> ExportedAnswer
    ensures { result ≡ exported (figure_answer figure) }
{
    match figure {
        Err(refusal) => {
            let number = u8::from(refusal);
            ExportedAnswer { number, figure: 0 }
        }
        Ok(figure) => ExportedAnswer { number: 0, figure },
    }
}

pub fn of_times(times: Result<TimesFailed, Refusal>) -> ExportedTimes
    ensures { result ≡ exported_times (time_answer times) }
{
    match times {
        Err(refusal) => ExportedTimes {
            number: u8::from(refusal),
            start_up: false,
            minimum_run: false,
            minimum_down: false,
        },
        Ok(fails) => ExportedTimes {
            number: 0,
            start_up: fails.start_up,
            minimum_run: fails.minimum_run,
            minimum_down: fails.minimum_down,
        },
    }
}
