// The lines of a listing: one for each event, from the event and its row.
ghost use Rattle.std.specs.Prelude.{◌≡◌, ◌+◌, ◌*◌, ◌≤◌, length};
ghost use Rattle.casefile.specs.Layout.{row_width, bids_offset, most_hours};
ghost use Rattle.casefile.specs.Sections.{events_of};
ghost use Rattle.report.specs.StagePut.{Put, event_text};
ghost use Rattle.report.specs.Line.{row_fields, lines_to};

use crate::text::put_field;
use binary::bytes::load;
use casefile::case::Case;
use casefile::events::Event;
use casefile::layout;
use casefile::records::record_at;

// Day, kind, unit, market, component, each with a space after it.
fn put_event(event: Event, out: &mut [u8], at: usize) -> usize
    requires { at + 105 ≤ length out.old }
    ensures { Put out.old at (event_text event) out.new result × (result ≤ at + 105) }
{
    let day = event.day;
    let kind = event.kind;
    let unit = event.unit;
    let market = event.market;
    let component = event.component;
    let at = put_field(out, at, day as u64, b' ');
    let at = put_field(out, at, kind as u64, b' ');
    let at = put_field(out, at, unit as u64, b' ');
    let at = put_field(out, at, market as u64, b' ');
    put_field(out, at, component as u64, b' ')
}

// Flags, mitigated, multiplier, penalty, make-up, with a line feed at the end.
fn put_row(row: &[u8], out: &mut [u8], at: usize) -> usize
    requires { (length row.now ≡ bids_offset + 4 * most_hours) × (at + 105 ≤ length out.old) }
    ensures { Put out.old at (row_fields row.now) out.new result × (result ≤ at + 105) }
{
    let flags = load::<u32>(row, 0);
    let mitigated = load::<u32>(row, 4);
    let multiplier = load::<u8>(row, 24);
    let penalty = load::<u64>(row, 8);
    let make_up = load::<u64>(row, 16);
    let at = put_field(out, at, flags as u64, b' ');
    let at = put_field(out, at, mitigated as u64, b' ');
    let at = put_field(out, at, multiplier as u64, b' ');
    let at = put_field(out, at, penalty, b' ');
    put_field(out, at, make_up, b'\n')
}

// The lines of the first n events, from the start of out.
pub fn put_lines(case: Case, rows: &[u8], n: usize, out: &mut [u8]) -> usize
    requires { (n ≤ (events_of case).count) × (row_width case.format * n ≤ length rows.now) × (210 * n ≤ length out.old) }
    ensures { Put out.old 0 (lines_to case.entry.format n (events_of case.entry) rows.now) out.new result × (result ≤ 210 * n) }
{
    let mut at = 0;
    for i in 0..n {
        let event = case.event_at(i);
        let row = record_at(rows, i, layout::ROW_WIDTH);
        let next = put_event(event, out, at);
        at = put_row(row, out, next);
    }
    at
}
