// The time increases of a unit's day and market. Bids on its time components stand next to each other, in the order of components.
ghost use Rattle.std.specs.Prelude.{true, [], ◌≡◌, ℕ, ◌+◌, ◌≤◌, ◌<◌, min, length};
ghost use Rattle.binary.specs.Lists.{Holds};
ghost use Rattle.casefile.specs.Layout.{most_hours, most_events};
ghost use Rattle.casefile.specs.Decode.{amounts_in, case_in};
ghost use Rattle.casefile.specs.Sections.{events_of};
ghost use Rattle.conduct.specs.Flags.{time_bid};
ghost use Rattle.conduct.specs.StageMasks.{SmallRow};
ghost use Rattle.conduct.specs.StageFlags.{Added, HasRow, total_read};
ghost use Rattle.conduct.specs.StageTime.{BidsInOrder, component_bid, counted_increase, component_increase, cell, HasIncreases, SmallTable, same_totals, total_before};

use binary::bounded::list_to;
use casefile::case::Case;
use casefile::cells::cell_at;
use casefile::layout;
use casefile::records::place_before;
use tariff::conduct_tests::increase;

// Whether event j is a bid on a time component, of event i's unit, day and market.
fn time_bid(case: Case, i: usize, j: usize) -> bool
    requires { (i < (events_of case).count) × (j < (events_of case).count) }
    ensures { result ≡ time_bid (case_in case.entry.format [] [] [] case.entry.events.now) i j }
{
    let event = case.event_at(i);
    let other = case.event_at(j);
    let kind = other.kind;
    let component = other.component;
    let same_unit = other.unit == event.unit;
    let same_day = other.day == event.day;
    let same_market = other.market == event.market;
    (kind == 4) & same_unit & same_day & same_market & (4 <= component) & (component <= 6)
}

fn component_bid(case: Case, i: usize, component: u8, j: usize) -> bool
    requires { (i < (events_of case).count) × (j < (events_of case).count) }
    ensures { result ≡ component_bid (case_in case.entry.format [] [] [] case.entry.events.now) i component j }
{
    let event = case.event_at(j);
    let own = event.component;
    time_bid(case, i, j) & (own == component)
}

// Adds the positive d of event j in each hour, where it counts.
fn add_increases(case: Case, row: &mut [u64], level: u32, j: usize, counts: bool)
    requires whole_row { (length row.old ≡ most_hours) × (j < (events_of case).count) }
    requires small_row { SmallRow row.old }
    ensures { Added most_hours row.old row.new (counted_increase (amounts_in case.entry.format case.entry.events.now) level j counts) }
{
    if !counts {
        return;
    }
    let cells = case.event_cells(j);
    for h in 0..layout::HOURS {
        let cell = cell_at(cells, h);
        let a = cell.a;
        let d = u64::from(increase(level, a));
        row[h] = row[h] + d;
    }
}

// The third place after i, or the end.
fn third_after(i: usize, n: usize) -> usize
    requires { i < n }
    ensures { result ≡ min (i + 3) n }
{
    if n - i < 3 { n } else { i + 3 }
}

// The positive d of the bids on this component of the unit, day and market of the time bid i, by hour: they stand within two places of it.
fn component_increases(
    case: Case,
    levels: &[u32; layout::MOST_EVENTS],
    i: usize,
    component: u8,
) -> [u64; 24]
    requires in_range { (i < (events_of case).count) × ((events_of case).count ≤ most_events) }
    requires bids_in_order { BidsInOrder (events_of case) × (time_bid (case_in case.format [] [] [] case.events.now) i i ≡ true) }
    ensures { Holds most_hours result (component_increase case.entry.format case.entry.events.now levels.now i component (events_of case.entry).count) }
{
    let n = case.event_count();
    let end = third_after(i, n);
    let mut row = [0u64; 24];
    for j in place_before(place_before(i))..end {
        let counts = component_bid(case, i, component, j);
        add_increases(case, &mut row, levels[j], j, counts);
    }
    row
}

// The increases of the unit, day and market of the time bid i: three time components by twenty-four hours.
pub fn time_increases(case: Case, levels: &[u32; layout::MOST_EVENTS], i: usize) -> [[u64; 24]; 3]
    requires in_range { (i < (events_of case).count) × ((events_of case).count ≤ most_events) }
    requires bids_in_order { BidsInOrder (events_of case) × (time_bid (case_in case.format [] [] [] case.events.now) i i ≡ true) }
    ensures { HasIncreases (λ (k : ℕ). component_increase case.entry.format case.entry.events.now levels.now i (4 + k) (events_of case.entry).count) result }
{
    let start_up = component_increases(case, levels, i, 4);
    let minimum_run = component_increases(case, levels, i, 5);
    let minimum_down = component_increases(case, levels, i, 6);
    [start_up, minimum_run, minimum_down]
}

// The increases of the three components added, by hour.
pub fn hour_totals(increases: [[u64; 24]; 3]) -> [u64; 24]
    requires { SmallTable increases }
    ensures { HasRow (λ (h : ℕ). cell increases 0 h + cell increases 1 h + cell increases 2 h) result }
{
    list_to(|h| increases[0][h] + increases[1][h] + increases[2][h])
}

// The time totals of event i's unit, day and market, where its component reads them.
pub fn time_totals(case: Case, levels: &[u32; layout::MOST_EVENTS], i: usize) -> [u64; 24]
    requires in_range { (i < (events_of case).count) × ((events_of case).count ≤ most_events) }
    requires bids_in_order { BidsInOrder (events_of case) }
    ensures { HasRow (total_read (case_in case.entry.format [] [] [] case.entry.events.now) levels.now i) result }
{
    if time_bid(case, i, i) {
        return hour_totals(time_increases(case, levels, i));
    }
    [0u64; 24]
}

// Whether event i and the event before it are time bids of one unit, day and market.
fn same_totals(case: Case, i: usize) -> bool
    requires { i < (events_of case).count }
    ensures { result ≡ same_totals (case_in case.entry.format [] [] [] case.entry.events.now) i }
{
    let own = time_bid(case, i, i);
    let last = time_bid(case, i, place_before(i));
    (0 < i) & own & last
}

// The same, where `before` are those that the event before it read.
pub fn bid_totals(
    case: Case,
    levels: &[u32; layout::MOST_EVENTS],
    i: usize,
    before: [u64; 24],
) -> [u64; 24]
    requires in_range { (i < (events_of case).count) × ((events_of case).count ≤ most_events) }
    requires bids_in_order { BidsInOrder (events_of case) }
    requires has_row { HasRow (total_before (case_in case.format [] [] [] case.events.now) levels.now i) before }
    ensures { HasRow (total_read (case_in case.entry.format [] [] [] case.entry.events.now) levels.now i) result }
{
    if same_totals(case, i) {
        return before;
    }
    time_totals(case, levels, i)
}
