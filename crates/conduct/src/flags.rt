// The flagged hours of every event of a case.
ghost use Rattle.std.specs.Prelude.{[], ◌≡◌, ◌+◌, ◌<◌, get_or};
ghost use Rattle.binary.specs.Lists.{Holds};
ghost use Rattle.casefile.specs.Decode.{case_in, decode};
ghost use Rattle.casefile.specs.Lookup.{unit_of, group_of, bid_level};
ghost use Rattle.casefile.specs.Sections.{units_of, events_of};
ghost use Rattle.limits.specs.StageChecked.{AcceptedFile};
ghost use Rattle.party_runs.specs.StageParties.{RunsTogether, RunEnd, leader_of};
ghost use Rattle.conduct.specs.Flags.{flag_mask};
ghost use Rattle.conduct.specs.StageFlags.{flag_mask_in, mask_in, member_mask, Led, EndCarried, bid_mask, LeaderFlagged, PartyFlagged};
ghost use Rattle.conduct.specs.StageTime.{BidsInOrder};

use crate::hour_tests::{failing_hours, test_of, tight_hours};
use crate::sums::{listed_capability, party_sums};
use crate::time::bid_totals;
use casefile::case::Case;
use casefile::layout;
use party_runs::parties::{find_parties, run_end};

// The flagged hours of event i, whose unit stands at that place; sums are those that its test reads.
fn event_mask(
    case: Case,
    place: usize,
    level: u32,
    g: u64,
    sums: &[u64; layout::HOURS],
    i: usize,
) -> u32
    requires { (i < (events_of case).count) × (place < (units_of case).count) }
    ensures { result ≡ mask_in case.entry.format case.entry.units.now case.entry.events.now place level g sums.now i }
{
    let test = test_of(case, place, level, g, i);
    let tight = tight_hours(case, place, i);
    failing_hours(test, tight, case.event_cells(i), sums)
}

// The flagged hours of event j of a party: a fuel event has the first's.
fn member_mask(
    case: Case,
    place: usize,
    first: u32,
    g: u64,
    sums: &[u64; layout::HOURS],
    j: usize,
) -> u32
    requires { (j < (events_of case).count) × (place < (units_of case).count) }
    ensures { result ≡ member_mask case.entry.format case.entry.units.now case.entry.events.now place first g sums.now j }
{
    let event = case.event_at(j);
    let kind = event.kind;
    if kind == 3 {
        return first;
    }
    event_mask(case, place, 0, g, sums, j)
}

// The flagged hours of the party that event i leads, whose run ends there: its sums and G are found once.
fn party_flags(
    case: Case,
    places: &[usize; layout::MOST_EVENTS],
    leaders: &[usize; layout::MOST_EVENTS],
    masks: &mut [u32; layout::MOST_EVENTS],
    i: usize,
    end: usize,
)
    requires led { Led case.format case.units.now case.events.now places.now leaders.now }
    requires in_range { (i < (events_of case).count) × (get_or leaders.now i 0 ≡ i) × ((events_of case).kind i ≡ 4 → ⊥) }
    requires run_end { RunEnd (events_of case) i end }
    ensures { PartyFlagged case.entry.format case.entry.units.now case.entry.events.now leaders.now i (events_of case.entry).count masks.old masks.new }
{
    let sums = party_sums(case, leaders, i, end);
    let place = places[i];
    let g = listed_capability(case, place, i);
    let first = event_mask(case, place, 0, g, &sums, i);
    let table: &mut [u32] = masks;
    table[i] = first;
    for j in i + 1..end {
        if leaders[j] == i {
            table[j] = member_mask(case, places[j], first, g, &sums, j);
        }
    }
}

// The flagged hours of event i where it is a bid, from the totals that it reads; else none.
fn bid_mask(case: Case, place: usize, level: u32, totals: &[u64; layout::HOURS], i: usize) -> u32
    requires { (i < (events_of case).count) × (place < (units_of case).count) }
    ensures { result ≡ bid_mask case.entry.format case.entry.units.now case.entry.events.now place level totals.now i }
{
    let event = case.event_at(i);
    let kind = event.kind;
    if kind != 4 {
        return 0;
    }
    event_mask(case, place, level, 0, totals, i)
}

// The flagged hours of the events that event i leads: a bid leads itself alone, with the hours given.
fn leader_flags(
    case: Case,
    places: &[usize; layout::MOST_EVENTS],
    leaders: &[usize; layout::MOST_EVENTS],
    bid: u32,
    masks: &mut [u32; layout::MOST_EVENTS],
    i: usize,
    end: usize,
)
    requires led { Led case.format case.units.now case.events.now places.now leaders.now }
    requires in_range { i < (events_of case).count }
    requires run_end { RunEnd (events_of case) i end }
    ensures { LeaderFlagged case.entry.format case.entry.units.now case.entry.events.now leaders.now bid i masks.old masks.new }
{
    if leaders[i] != i {
        return;
    }
    let event = case.event_at(i);
    let kind = event.kind;
    if kind == 4 {
        let table: &mut [u32] = masks;
        table[i] = bid;
        return;
    }
    party_flags(case, places, leaders, masks, i, end);
}

// Where the run of event i ends: there, where that is not passed.
fn carried_end(case: Case, i: usize, end: usize) -> usize
    requires in_range { i < (events_of case).count }
    requires runs_together { RunsTogether (events_of case) }
    requires end_carried { EndCarried (events_of case) i end }
    ensures { RunEnd (events_of case.entry) i result }
{
    if i < end {
        return end;
    }
    run_end(case, i)
}

// The flagged hours of every event, from what was found of each.
fn flag_masks(
    case: Case,
    places: &[usize; layout::MOST_EVENTS],
    leaders: &[usize; layout::MOST_EVENTS],
    levels: &[u32; layout::MOST_EVENTS],
    masks: &mut [u32; layout::MOST_EVENTS],
)
    requires led { Led case.format case.units.now case.events.now places.now leaders.now }
    requires runs_together { RunsTogether (events_of case) }
    requires bids_in_order { BidsInOrder (events_of case) }
    ensures { Holds (events_of case.entry).count masks.new (flag_mask_in (case_in case.entry.format case.entry.units.now [] [] case.entry.events.now) levels.now) }
{
    let n = case.event_count();
    let mut totals = [0u64; layout::HOURS];
    let mut end = 0;
    for i in 0..n {
        totals = bid_totals(case, levels, i, totals);
        end = carried_end(case, i, end);
        let bid = bid_mask(case, places[i], levels[i], &totals, i);
        leader_flags(case, places, leaders, bid, masks, i, end);
    }
}

// Groups, leaders and flagged hours of every event of an accepted file, from the places and reference levels that its check found.
pub fn find_flags(
    file: &[u8],
    places: &[usize; layout::MOST_EVENTS],
    levels: &[u32; layout::MOST_EVENTS],
    groups: &mut [u16; layout::MOST_EVENTS],
    leaders: &mut [usize; layout::MOST_EVENTS],
    masks: &mut [u32; layout::MOST_EVENTS],
)
    requires accepted_file { AcceptedFile file.now }
    requires places_found { Holds (decode file.now).events.count places.now (unit_of (decode file.now)) }
    requires levels_found { Holds (decode file.now).events.count levels.now (bid_level (decode file.now).references (decode file.now).events) }
    ensures grouped { Holds (decode file.now).events.count groups.new (group_of (decode file.now)) }
    ensures led { Holds (decode file.now).events.count leaders.new (leader_of (decode file.now)) }
    ensures flagged { Holds (decode file.now).events.count masks.new (flag_mask (decode file.now)) }
{
    let case = Case::of(file);
    find_parties(case, places, groups, leaders);
    flag_masks(case, places, leaders, levels, masks);
}
