// Sums over the events of a party, and the listed capability of a group.
ghost use Rattle.std.specs.Prelude.{cond, [], ◌≡◌, ◌*◌, ◌≤◌, ◌<◌, eqb, length};
ghost use Rattle.binary.specs.Bounded.{bit_of};
ghost use Rattle.casefile.specs.Layout.{cell_width, most_hours, most_events, longest_file};
ghost use Rattle.casefile.specs.Decode.{case_in};
ghost use Rattle.casefile.specs.Lookup.{unit_of};
ghost use Rattle.casefile.specs.StageRead.{cell_of};
ghost use Rattle.casefile.specs.Sections.{units_of, events_of};
ghost use Rattle.conduct.specs.StageMasks.{SmallRow};
ghost use Rattle.conduct.specs.StageFlags.{Small, Added, counted, party_figure, led_sum, PartyWithin, HasRow, capability_share, capability_of, listed_capability};

use binary::bounded::sum_to;
use binary::masks::bit_of;
use binary::numbers::choose;
use casefile::case::Case;
use casefile::cells::cell_at;
use casefile::layout;

// What an event adds to its party's sum: a, or for kind 3 its bit of P.
fn party_figure(kind: u8, p: u32, cells: &[u8], h: usize) -> u32
    requires { (h < most_hours) × (cell_width * most_hours ≤ length cells.now) }
    ensures { result ≡ cond (eqb kind 3) (cond (bit_of p h) 1 0) (cell_of cells.now h).a }
{
    let cell = cell_at(cells, h);
    let a = cell.a;
    let bit = choose(bit_of(p, h), 1, 0);
    choose(kind == 3, bit, a)
}

// Adds the figures of event j in each hour, where it counts.
fn add_event(case: Case, sums: &mut [u64; layout::HOURS], j: usize, counts: bool)
    requires in_range { j < (events_of case).count }
    requires small { Small sums.old }
    ensures { Added most_hours sums.old sums.new (counted counts (party_figure (case_in case.entry.format [] [] [] case.entry.events.now) j)) }
{
    if !counts {
        return;
    }
    let event = case.event_at(j);
    let kind = event.kind;
    let p = event.p;
    let cells = case.event_cells(j);
    let row: &mut [u64] = sums;
    for h in 0..layout::HOURS {
        let figure = u64::from(party_figure(kind, p, cells, h));
        row[h] = row[h] + figure;
    }
}

// The sums of the party that event i leads, none of whose events stands from the end on: S for kinds 1 and 2, for kind 3 how many P have the hour's bit.
pub fn party_sums(
    case: Case,
    leaders: &[usize; layout::MOST_EVENTS],
    i: usize,
    end: usize,
) -> [u64; layout::HOURS]
    requires in_range { (i ≤ end) × (end ≤ (events_of case).count) × ((events_of case).count ≤ most_events) }
    requires party_within { PartyWithin leaders.now (events_of case).count i end }
    ensures has_row { HasRow (led_sum (case_in case.entry.format [] [] [] case.entry.events.now) leaders.now (events_of case.entry).count i) result }
    ensures small_row { SmallRow result }
{
    let mut sums = [0u64; layout::HOURS];
    for j in i..end {
        add_event(case, &mut sums, j, leaders[j] == i);
    }
    sums
}

fn capability_share(case: Case, group: u16, u: usize) -> u32
    requires { u < (units_of case).count }
    ensures { result ≡ capability_share (units_of case.entry) group u }
{
    let unit = case.unit_at(u);
    let its_group = unit.group;
    let capability = unit.capability;
    choose(its_group == group, capability, 0)
}

// G, the group's listed capability.
pub fn group_capability(case: Case, group: u16) -> u64
    requires { length case.units.now ≤ longest_file }
    ensures { result ≡ capability_of (units_of case.entry) group }
{
    sum_to(case.unit_count(), |u| {
        capability_share(case, group, u) as u64
    })
}

// G of event i, whose unit stands at that place, where its kind is 1, else 0.
pub fn listed_capability(case: Case, place: usize, i: usize) -> u64
    requires in_range { (i < (events_of case).count) × (place < (units_of case).count) × (length case.units.now ≤ longest_file) }
    requires place_found { place ≡ unit_of (case_in case.format case.units.now [] [] case.events.now) i }
    ensures { result ≡ listed_capability (case_in case.entry.format case.entry.units.now [] [] case.entry.events.now) i }
{
    let event = case.event_at(i);
    let kind = event.kind;
    if kind != 1 {
        return 0;
    }
    let unit = case.unit_at(place);
    let group = unit.group;
    group_capability(case, group)
}
