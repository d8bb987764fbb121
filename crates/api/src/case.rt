// A whole case, and the working of one of its hours.
ghost use Rattle.std.specs.Prelude.{◌≡◌, ◌≤◌, length, take};
ghost use Rattle.limits.specs.Refusal.{refusal};
ghost use Rattle.settlement.specs.Settled.{answer_of, rows_after};
ghost use Rattle.working.specs.Working.{working_of};
ghost use Rattle.report.specs.Listing.{listed_length, listed_out, listed_rows};
ghost use Rattle.api.specs.Exported.{exported_settlement};

use case_check::check;
use report::case_listing;
use settlement::settle;
use working::figures::Working;
use working::hour::working;

// The refusal's number, or 0 and the row count and both totals in cents.
#[repr(C)]
#[derive(Clone, Copy)]
pub struct Outcome {
    pub number: u8,
    pub rows: usize,
    pub penalties: u64,
    pub make_ups: u64,
}

// The number of the first limit that the case breaks, or 0 where it is accepted.
#[unsafe(no_mangle)]
pub extern "C" fn attachment_h_check<'a>(
    file: &'a [u8],
    correction: &'a [u8],
    rows_length: usize,
) -> u8
    ensures { result ≡ refusal file.now correction.now rows_length }
{
    match check::check(file, correction, rows_length) {
        Ok(()) => 0,
        Err(refusal) => u8::from(refusal),
    }
}

// Settles the case into rows; where it is refused they are as they were.
#[unsafe(no_mangle)]
pub extern "C" fn attachment_h_settle<'a>(
    file: &'a [u8],
    correction: &'a [u8],
    rows: &mut [u8],
) -> Outcome
    ensures value { result ≡ exported_settlement (answer_of file.now correction.now (length rows.old)) }
    ensures rows_after { rows.new ≡ rows_after file.now correction.now rows.old }
{
    match settle::settle(file, correction, rows) {
        Err(refusal) => Outcome {
            number: u8::from(refusal),
            rows: 0,
            penalties: 0,
            make_ups: 0,
        },
        Ok(settled) => Outcome {
            number: 0,
            rows: settled.rows,
            penalties: settled.penalties,
            make_ups: settled.make_ups,
        },
    }
}

// The working of an hour of an event: the refusal's number, 10 where there is no such event or hour, or 0 and the figures.
#[unsafe(no_mangle)]
pub extern "C" fn attachment_h_working<'a>(
    file: &'a [u8],
    correction: &'a [u8],
    event: usize,
    hour: usize,
) -> Working
    ensures { result ≡ working_of file.now correction.now event hour }
{
    working(file, correction, event, hour)
}

// Settles the file with no correction, puts its listing into out and answers the length of that; where out is too short
// for the longest listing it answers 0 and leaves both buffers as they were.
#[unsafe(no_mangle)]
pub extern "C" fn attachment_h_listing(file: &[u8], rows: &mut [u8], out: &mut [u8]) -> usize
    ensures value { result ≡ listed_length file.now rows.old out.old }
    ensures out_after { out.new ≡ listed_out file.now rows.old out.old }
    ensures rows_after { rows.new ≡ listed_rows file.now rows.old out.old }
    ensures within_out { (result ≤ length out.new) × (result ≡ length (take result out.new)) }
{
    case_listing::listing(file, rows, out)
}
