// Make-up payments.
ghost use Rattle.std.specs.Prelude.{true, ◌≡◌, ◌*◌, ◌≤◌, ◌<◌, length};
ghost use Rattle.binary.specs.Bounded.{sum_to};
ghost use Rattle.tariff.specs.Ranges.{highest_megawatts};
ghost use Rattle.casefile.specs.Layout.{most_hours, cell_width};
ghost use Rattle.limits.specs.Refusal.{events_fine};
ghost use Rattle.casefile.specs.StageRead.{cell_of};
ghost use Rattle.casefile.specs.Sections.{events_of};
ghost use Rattle.default_bids.specs.StageFigures.{MegawattsFine, tenths_at, make_up_by, highest_tenths, highest_make_up};

use binary::bounded::sum_to;
use binary::masks::bit_of;
use binary::numbers::choose;
use casefile::case::Case;
use casefile::cells::cell_at;
use casefile::layout;
use tariff::default_bid_rules::{hour_make_up, make_up};

// One hour, in tenths of a cent.
pub fn hour_tenths(cells: &[u8], h: usize, correct: u32, mitigated: u32) -> u64
    requires { (h < most_hours) × (cell_width * most_hours ≤ length cells.now) × ((cell_of cells.now h).m ≤ highest_megawatts) }
    ensures { (result ≡ tenths_at cells.now correct mitigated h) × (result ≤ highest_tenths) }
{
    let cell = cell_at(cells, h);
    let a = cell.a;
    let b = cell.b;
    let m = cell.m;
    let tenths = hour_make_up(a, b, m, correct);
    choose(bit_of(mitigated, h), tenths, 0)
}

// The mitigated hours' sum, in tenths of a cent.
pub fn sum_tenths(cells: &[u8], correct: u32, mitigated: u32) -> u64
    requires { (cell_width * most_hours ≤ length cells.now) × MegawattsFine cells.now }
    ensures { (result ≡ sum_to most_hours (tenths_at cells.now correct mitigated)) × (result ≤ most_hours * highest_tenths) }
{
    sum_to(layout::HOURS, |h| hour_tenths(cells, h, correct, mitigated))
}

// The make-up of event i in cents; component 0 alone has one.
pub fn event_make_up(case: Case, i: usize, reference: u32, correct: u32, mitigated: u32) -> u64
    requires { (i < (events_of case).count) × (events_fine case.format case.events.now ≡ true) }
    ensures { (result ≡ make_up_by case.entry.format case.entry.events.now i reference correct mitigated) × (result ≤ highest_make_up) }
{
    let event = case.event_at(i);
    let kind = event.kind;
    let component = event.component;
    if (kind == 4) & (component == 0) {
        let tenths = sum_tenths(case.event_cells(i), correct, mitigated);
        return make_up(reference, correct, tenths);
    }
    0
}
