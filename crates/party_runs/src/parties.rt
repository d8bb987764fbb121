// What the stages find once for each event: where its run begins and ends, its group and the leader of its party.
ghost use Rattle.std.specs.Prelude.{true, [], ◌≡◌, ◌-◌, ◌≤◌, ◌<◌};
ghost use Rattle.binary.specs.Lists.{first_from, Holds};
ghost use Rattle.casefile.specs.Layout.{most_events};
ghost use Rattle.casefile.specs.Decode.{case_in};
ghost use Rattle.casefile.specs.Lookup.{unit_of, group_of};
ghost use Rattle.casefile.specs.Sections.{units_of, events_of};
ghost use Rattle.limits.specs.Refusal.{events_listed};
ghost use Rattle.party_runs.specs.StageParties.{same_run, RunsTogether, RunStart, RunEnd, leader_of, same_group, leader_in};

use binary::numbers::choose;
use casefile::case::Case;
use casefile::layout;
use casefile::records::place_before;

// Whether event j is of event i's day, kind and market.
fn same_run(case: Case, i: usize, j: usize) -> bool
    requires { (i < (events_of case).count) × (j < (events_of case).count) }
    ensures { result ≡ same_run (events_of case.entry) i j }
{
    let event = case.event_at(i);
    let other = case.event_at(j);
    let same_kind = other.kind == event.kind;
    let same_day = other.day == event.day;
    let same_market = other.market == event.market;
    same_kind & same_day & same_market
}

// Where the run of event i ends.
pub fn run_end(case: Case, i: usize) -> usize
    requires in_range { i < (events_of case).count }
    requires runs_together { RunsTogether (events_of case) }
    ensures { RunEnd (events_of case.entry) i result }
{
    let n = case.event_count();
    for end in i + 1..n {
        if !same_run(case, i, end) {
            return end;
        }
    }
    n
}

// Where the run of event i begins, from where that of the event before it does.
fn run_start(case: Case, i: usize, start: usize) -> usize
    requires in_range { i < (events_of case).count }
    requires runs_together { RunsTogether (events_of case) }
    requires run_start { RunStart (events_of case) (i - 1) start }
    ensures { RunStart (events_of case.entry) i result }
{
    let goes_on = same_run(case, i, place_before(i));
    choose(goes_on, start, i)
}

// The group of the unit at a place.
fn group_at(case: Case, place: usize) -> u16
    requires { place < (units_of case).count }
    ensures { result ≡ (units_of case.entry).group place }
{
    case.unit_at(place).group
}

fn party_groups(
    case: Case,
    places: &[usize; layout::MOST_EVENTS],
    groups: &mut [u16; layout::MOST_EVENTS],
)
    requires events_listed { events_listed (units_of case) (events_of case) ≡ true }
    requires few_events { (events_of case).count ≤ most_events }
    requires places_found { Holds (events_of case).count places.now (unit_of (case_in case.format case.units.now [] [] case.events.now)) }
    ensures { Holds (events_of case.entry).count groups.new (group_of (case_in case.entry.format case.entry.units.now [] [] case.entry.events.now)) }
{
    let n = case.event_count();
    let table: &mut [u16] = groups;
    for i in 0..n {
        table[i] = group_at(case, places[i]);
    }
}

// The first event from `start` on with event i's group.
fn leader(groups: &[u16; layout::MOST_EVENTS], start: usize, i: usize) -> usize
    requires { (start ≤ i) × (i < most_events) }
    ensures { result ≡ first_from (i - start) start (same_group groups.now i) }
{
    let group = groups[i];
    for j in start..i {
        if groups[j] == group {
            return j;
        }
    }
    i
}

// The leader of event i, whose run begins at `start`.
fn event_leader(case: Case, groups: &[u16; layout::MOST_EVENTS], start: usize, i: usize) -> usize
    requires in_range { (i < (events_of case).count) × (i < most_events) }
    requires run_start { RunStart (events_of case) i start }
    ensures { result ≡ leader_in (events_of case.entry) groups.now i }
{
    let event = case.event_at(i);
    let kind = event.kind;
    if kind == 4 {
        return i;
    }
    leader(groups, start, i)
}

fn party_leaders(
    case: Case,
    groups: &[u16; layout::MOST_EVENTS],
    leaders: &mut [usize; layout::MOST_EVENTS],
)
    requires few_events { (events_of case).count ≤ most_events }
    requires runs_together { RunsTogether (events_of case) }
    ensures { Holds (events_of case.entry).count leaders.new (leader_in (events_of case.entry) groups.now) }
{
    let n = case.event_count();
    let table: &mut [usize] = leaders;
    let mut start = 0;
    for i in 0..n {
        start = run_start(case, i, start);
        table[i] = event_leader(case, groups, start, i);
    }
}

// The group of every event, and the leader of its party.
pub fn find_parties(
    case: Case,
    places: &[usize; layout::MOST_EVENTS],
    groups: &mut [u16; layout::MOST_EVENTS],
    leaders: &mut [usize; layout::MOST_EVENTS],
)
    requires events_listed { events_listed (units_of case) (events_of case) ≡ true }
    requires few_events { (events_of case).count ≤ most_events }
    requires runs_together { RunsTogether (events_of case) }
    requires places_found { Holds (events_of case).count places.now (unit_of (case_in case.format case.units.now [] [] case.events.now)) }
    ensures grouped { Holds (events_of case.entry).count groups.new (group_of (case_in case.entry.format case.entry.units.now [] [] case.entry.events.now)) }
    ensures led { Holds (events_of case.entry).count leaders.new (leader_of (case_in case.entry.format case.entry.units.now [] [] case.entry.events.now)) }
{
    party_groups(case, places, groups);
    party_leaders(case, groups, leaders);
}
