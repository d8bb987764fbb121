// The listing of a case, settled with no correction.
ghost use Rattle.std.specs.Prelude.{◌++◌, ◌≡◌, ◌+◌, ◌*◌, ◌≤◌, length, take};
ghost use Rattle.casefile.specs.Layout.{most_events, row_width};
ghost use Rattle.casefile.specs.Sections.{events_of};
ghost use Rattle.report.specs.StagePut.{Put};
ghost use Rattle.report.specs.Line.{lines_to};
ghost use Rattle.report.specs.Listing.{refusal_text, total_text, listed_length, listed_out, listed_rows};

use crate::lines::put_lines;
use crate::text::{put_bytes, put_field};
use casefile::case::Case;
use settlement::settle::settle;

fn put_refusal(number: u8, out: &mut [u8]) -> usize
    requires { 48 ≤ length out.old }
    ensures { Put out.old 0 (refusal_text number) out.new result × (result ≤ 48) }
{
    let at = put_bytes(out, 0, b"refused ");
    put_field(out, at, number as u64, b'\n')
}

fn put_totals(out: &mut [u8], at: usize, penalties: u64, make_ups: u64) -> usize
    requires { at + 48 ≤ length out.old }
    ensures { Put out.old at (total_text penalties make_ups) out.new result × (result ≤ at + 48) }
{
    let at = put_bytes(out, at, b"total ");
    let at = put_field(out, at, penalties, b' ');
    put_field(out, at, make_ups, b'\n')
}

// The lines of the events, then the totals.
fn put_settlement(
    case: Case,
    rows: &[u8],
    n: usize,
    penalties: u64,
    make_ups: u64,
    out: &mut [u8],
) -> usize
    requires { (n ≤ (events_of case).count) × (row_width case.format * n ≤ length rows.now) × (n ≤ most_events) × (42048 ≤ length out.old) }
    ensures { Put out.old 0 (lines_to case.entry.format n (events_of case.entry) rows.now ++ total_text penalties make_ups) out.new result × (result ≤ 42048) }
{
    let at = put_lines(case, rows, n, out);
    put_totals(out, at, penalties, make_ups)
}

// Settles the file into rows with no correction, puts the listing into out and answers its length; where out is too
// short for the longest listing it answers 0 and leaves both buffers as they were.
pub fn listing(file: &[u8], rows: &mut [u8], out: &mut [u8]) -> usize
    ensures value { result ≡ listed_length file.now rows.old out.old }
    ensures out_after { out.new ≡ listed_out file.now rows.old out.old }
    ensures rows_after { rows.new ≡ listed_rows file.now rows.old out.old }
    ensures within_out { (result ≤ length out.new) × (result ≡ length (take result out.new)) }
{
    if out.len() < 42048 {
        return 0;
    }
    match settle(file, &file[..0], rows) {
        Err(refusal) => put_refusal(u8::from(refusal), out),
        Ok(settled) => put_settlement(
            Case::of(file),
            rows,
            settled.rows,
            settled.penalties,
            settled.make_ups,
            out,
        ),
    }
}
