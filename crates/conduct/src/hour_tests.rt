// The hours of an event that fail its conduct test, by its kind.
ghost use Rattle.std.specs.Prelude.{◌≡◌, ◌*◌, ◌≤◌, ◌<◌, length};
ghost use Rattle.binary.specs.Bounded.{mask_to};
ghost use Rattle.binary.specs.Lists.{list_to};
ghost use Rattle.casefile.specs.Layout.{cell_width, most_hours};
ghost use Rattle.casefile.specs.Sections.{units_of, events_of};
ghost use Rattle.conduct.specs.StageMasks.{bid_of, test_of, tight_hours, amount_of, fails_at};

use binary::bounded::list_to;
use binary::numbers::choose;
use casefile::case::Case;
use casefile::cells::cell_at;
use casefile::layout;
use hour_masks::bid_hours::{Bid, bid_hours};
use hour_masks::columns::sums_over;
use hour_masks::megawatt_hours::{dispatch_hours, withheld_hours};

// What the test of a withheld event reads beside its hours.
#[derive(Clone, Copy)]
pub struct Withheld {
    pub capability: u32,
    pub group_capability: u64,
}

// A conduct test with what it reads beside the hours; Dispatch holds the unit's response rate.
#[derive(Clone, Copy)]
pub enum ConductTest {
    Withheld(Withheld),
    Dispatch(u32),
    Fuel,
    Bid(Bid),
    NoTest,
}

// a of every hour, side by side.
fn amounts_of(cells: &[u8]) -> [u32; layout::HOURS]
    requires { cell_width * most_hours ≤ length cells.now }
    ensures { result ≡ list_to most_hours (amount_of cells.now) }
{
    list_to(|h| cell_at(cells, h).a)
}

// The hours that fail; tight are the tight hours. Of sums the test reads S for kinds 1 and 2, the events that have the hour for kind 3, and the
// time totals for kind 4.
pub fn failing_hours(
    test: ConductTest,
    tight: u32,
    cells: &[u8],
    sums: &[u64; layout::HOURS],
) -> u32
    requires { cell_width * most_hours ≤ length cells.now }
    ensures { result ≡ mask_to most_hours (fails_at test tight cells.now sums.now) }
{
    match test {
        ConductTest::Withheld(w) => {
            let capability = w.capability;
            let g = w.group_capability;
            let column = amounts_of(cells);
            withheld_hours(&column, sums, tight, capability, g)
        }
        ConductTest::Dispatch(rate) => {
            let column = amounts_of(cells);
            dispatch_hours(&column, sums, tight, rate)
        }
        ConductTest::Fuel => sums_over(sums, 0),
        ConductTest::Bid(bid) => {
            let column = amounts_of(cells);
            bid_hours(&column, sums, tight, bid)
        }
        ConductTest::NoTest => 0,
    }
}

// The tight hours of event i: P where its unit's area is 1.
pub fn tight_hours(case: Case, place: usize, i: usize) -> u32
    requires { (i < (events_of case).count) × (place < (units_of case).count) }
    ensures { result ≡ tight_hours (units_of case.entry) (events_of case.entry) place i }
{
    let event = case.event_at(i);
    let p = event.p;
    let unit = case.unit_at(place);
    let area = unit.area;
    choose(area == 1, p, 0)
}

// What the test of bid i reads, with a reference level.
pub fn bid_of(case: Case, place: usize, level: u32, i: usize) -> Bid
    requires { (i < (events_of case).count) × (place < (units_of case).count) }
    ensures { result ≡ bid_of (units_of case.entry) (events_of case.entry) place level i }
{
    let event = case.event_at(i);
    let component = event.component;
    let market = event.market;
    let unit = case.unit_at(place);
    let average_price = unit.average_price;
    let constrained_hours = unit.constrained_hours;
    Bid {
        component,
        reference: level,
        market,
        average_price,
        constrained_hours,
    }
}

// The test of event i, by its kind; g is the listed capability of its group where the kind is 1.
pub fn test_of(case: Case, place: usize, level: u32, g: u64, i: usize) -> ConductTest
    requires { (i < (events_of case).count) × (place < (units_of case).count) }
    ensures { result ≡ test_of (units_of case.entry) (events_of case.entry) place level g i }
{
    let event = case.event_at(i);
    let kind = event.kind;
    if kind == 4 {
        return ConductTest::Bid(bid_of(case, place, level, i));
    }
    let unit = case.unit_at(place);
    let capability = unit.capability;
    let rate = unit.rate;
    if kind == 1 {
        return ConductTest::Withheld(Withheld {
            capability,
            group_capability: g,
        });
    }
    if kind == 2 {
        return ConductTest::Dispatch(rate);
    }
    if kind == 3 {
        return ConductTest::Fuel;
    }
    ConductTest::NoTest
}
