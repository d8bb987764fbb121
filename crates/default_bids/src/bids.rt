// Bids in force.
ghost use Rattle.std.specs.Prelude.{◌≡◌, ◌<◌};
ghost use Rattle.binary.specs.Bounded.{mask_to};
ghost use Rattle.binary.specs.Lists.{list_to};
ghost use Rattle.casefile.specs.Layout.{most_hours};
ghost use Rattle.casefile.specs.Sections.{units_of, events_of};
ghost use Rattle.default_bids.specs.StageFigures.{held_bid, fails_with, bid_by};

use binary::bounded::list_to;
use binary::masks::bit_of;
use casefile::case::Case;
use casefile::cells::cell_at;
use casefile::layout;
use conduct::hour_tests::{ConductTest, bid_of, failing_hours, tight_hours};
use tariff::default_bid_rules::{in_force, restores};

// The bids of event i, held to a level in the hours of a mask.
fn held_bids(case: Case, i: usize, level: u32, held: u32) -> [u32; layout::HOURS]
    requires { i < (events_of case).count }
    ensures { result ≡ list_to most_hours (held_bid case.entry.format case.entry.events.now i level held) }
{
    let event = case.event_at(i);
    let component = event.component;
    let cells = case.event_cells(i);
    list_to(|h| {
        let cell = cell_at(cells, h);
        let a = cell.a;
        in_force(component, a, level, bit_of(held, h))
    })
}

// The hours of a bid, event i, that fail the conduct test with the correct reference.
pub fn failing_with(case: Case, place: usize, correct: u32, i: usize) -> u32
    requires { (i < (events_of case).count) × (place < (units_of case).count) }
    ensures { result ≡ mask_to most_hours (fails_with case.entry.format case.entry.units.now case.entry.events.now place correct i) }
{
    let bid = bid_of(case, place, correct, i);
    let tight = tight_hours(case, place, i);
    let totals = [0u64; layout::HOURS];
    failing_hours(ConductTest::Bid(bid), tight, case.event_cells(i), &totals)
}

// The bids in force of event i, where it is a bid: held to c in the mitigated hours that fail with it where c restores, else to r in all.
pub fn bids_in_force(
    case: Case,
    place: usize,
    level: u32,
    correct: u32,
    mitigated: u32,
    i: usize,
) -> [u32; layout::HOURS]
    requires { (i < (events_of case).count) × (place < (units_of case).count) }
    ensures { result ≡ list_to most_hours (bid_by case.entry.format case.entry.units.now case.entry.events.now place level correct mitigated i) }
{
    let event = case.event_at(i);
    let kind = event.kind;
    if kind != 4 {
        return [0u32; layout::HOURS];
    }
    let component = event.component;
    let restored = restores(component, level, correct);
    if restored & (mitigated != 0) {
        let failing = failing_with(case, place, correct, i);
        return held_bids(case, i, correct, mitigated & failing);
    }
    held_bids(case, i, level, mitigated)
}
