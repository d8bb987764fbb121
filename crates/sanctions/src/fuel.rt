// The sanction of a party-day with inaccurate fuel data (tariff 23.4.3.3.3), found at its first event.
ghost use Rattle.std.specs.Prelude.{◌≡◌, ◌*◌, ◌≤◌, ◌<◌, length};
ghost use Rattle.binary.specs.Bounded.{any_to};
ghost use Rattle.binary.specs.Word.{positive_part, negative_part};
ghost use Rattle.calendar.specs.Periods.{window_start};
ghost use Rattle.casefile.specs.Layout.{cell_width, most_hours, most_events};
ghost use Rattle.casefile.specs.Sections.{past_of, events_of};
ghost use Rattle.sanctions.specs.Penalties.{fuel_multiplier_after};
ghost use Rattle.sanctions.specs.StageGiven.{SmallAmounts, Sound};
ghost use Rattle.sanctions.specs.StageTables.{hour_energy, energy_of, party_share, party_day, fuel_row_counts, fuel_entry_counts, fuel_row};

use crate::sanction::Sanction;
use binary::masks::bit_of;
use binary::numbers::{choose, product};
use binary::words::Word;
use calendar::periods::{in_window, window_start};
use casefile::case::Case;
use casefile::cells::cell_at;
use casefile::layout;
use party_runs::parties::run_end;
use tariff::sanction_rules::fuel_penalty;

// E is gain less loss.
#[derive(Clone, Copy)]
pub struct Energy {
    pub gain: u64,
    pub loss: u64,
}

// The sums of a party-day: E is gain less loss, and the sum of R is rise less fall.
#[derive(Clone, Copy)]
pub struct PartyDay {
    pub gain: u64,
    pub loss: u64,
    pub rise: u64,
    pub fall: u64,
}

// a × b where the mask has the hour: its gain or its loss.
pub fn hour_energy(cells: &[u8], mask: u32, h: usize) -> Energy
    requires { (h < most_hours) × (cell_width * most_hours ≤ length cells.now) }
    ensures { (result.gain ≡ hour_energy (positive_part 32) cells.now mask h) × (result.loss ≡ hour_energy (negative_part 32) cells.now mask h) }
{
    let cell = cell_at(cells, h);
    let a = cell.a;
    let b = cell.b;
    let flagged = bit_of(mask, h);
    let gain = choose(flagged, product(a, b.positive_part()), 0);
    let loss = choose(flagged, product(a, b.negative_part()), 0);
    Energy { gain, loss }
}

// An event's part of E: 10 × Q, and a × b over the hours of the mask.
pub fn event_energy(q: u32, cells: &[u8], mask: u32) -> Energy
    requires { (cell_width * most_hours ≤ length cells.now) × SmallAmounts cells.now }
    ensures { result ≡ energy_of q cells.now mask }
{
    let mut gain = 10 * u64::from(q.positive_part());
    let mut loss = 10 * u64::from(q.negative_part());
    for h in 0..layout::HOURS {
        let hour = hour_energy(cells, mask, h);
        gain += hour.gain;
        loss += hour.loss;
    }
    Energy { gain, loss }
}

// What event j adds to the party-day that event i leads.
fn party_share(
    case: Case,
    leaders: &[usize; layout::MOST_EVENTS],
    mask: u32,
    i: usize,
    j: usize,
) -> PartyDay
    requires { (j < (events_of case).count) × (j < most_events) × ((events_of case).kind i ≡ 3) × Sound case.format case.events.now leaders.now }
    ensures { result ≡ party_share case.entry.format case.entry.events.now leaders.now mask i j }
{
    if leaders[j] != i {
        return PartyDay {
            gain: 0,
            loss: 0,
            rise: 0,
            fall: 0,
        };
    }
    let event = case.event_at(j);
    let q = event.q;
    let r = event.r;
    let cells = case.event_cells(j);
    let e = event_energy(q, cells, mask);
    let rise = u64::from(r.positive_part());
    let fall = u64::from(r.negative_part());
    PartyDay {
        gain: e.gain,
        loss: e.loss,
        rise,
        fall,
    }
}

// The sums of the party-day that event i leads: no event before it is of that party-day, and none from its run's end on.
pub fn party_day(
    case: Case,
    leaders: &[usize; layout::MOST_EVENTS],
    mask: u32,
    i: usize,
) -> PartyDay
    requires { (i < (events_of case).count) × ((events_of case).count ≤ most_events)
        × ((events_of case).kind i ≡ 3) × Sound case.format case.events.now leaders.now }
    ensures { result ≡ party_day case.entry.format case.entry.events.now leaders.now mask i (events_of case.entry).count }
{
    let end = run_end(case, i);
    let mut gain: u64 = 0;
    let mut loss: u64 = 0;
    let mut rise: u64 = 0;
    let mut fall: u64 = 0;
    for j in i..end {
        let share = party_share(case, leaders, mask, i, j);
        gain += share.gain;
        loss += share.loss;
        rise += share.rise;
        fall += share.fall;
    }
    PartyDay {
        gain,
        loss,
        rise,
        fall,
    }
}

// Whether row j has a fuel penalty above 0 of a group, in the window of a day, which begins on the first.
fn is_prior(
    case: Case,
    groups: &[u16; layout::MOST_EVENTS],
    penalties: &[u64; layout::MOST_EVENTS],
    first: u32,
    day: u32,
    group: u16,
    j: usize,
) -> bool
    requires { (j < (events_of case).count) × (j < most_events) × (first ≡ window_start day) }
    ensures { result ≡ fuel_row_counts case.entry.format case.entry.events.now groups.now penalties.now day group j }
{
    let event = case.event_at(j);
    let kind = event.kind;
    let near = in_window(first, day, event.day);
    (0 < penalties[j]) & (kind == 3) & (groups[j] == group) & near
}

// Whether one of the first i rows has such a penalty.
fn prior_here(
    case: Case,
    groups: &[u16; layout::MOST_EVENTS],
    penalties: &[u64; layout::MOST_EVENTS],
    first: u32,
    day: u32,
    group: u16,
    i: usize,
) -> bool
    requires { (i ≤ (events_of case).count) × (i ≤ most_events) × (first ≡ window_start day) }
    ensures { result ≡ any_to i (fuel_row_counts case.entry.format case.entry.events.now groups.now penalties.now day group) }
{
    (0..i).any(|j| is_prior(case, groups, penalties, first, day, group, j))
}

// Whether past entry j is of kind 3 and of a group, in the window of a day.
fn is_prior_entry(case: Case, first: u32, day: u32, group: u16, j: usize) -> bool
    requires { (j < (past_of case).count) × (first ≡ window_start day) }
    ensures { result ≡ fuel_entry_counts case.entry.past.now day group j }
{
    let entry = case.entry_at(j);
    let its_group = entry.group;
    let kind = entry.kind;
    let near = in_window(first, day, entry.day);
    (kind == 3) & (its_group == group) & near
}

fn prior_past(case: Case, first: u32, day: u32, group: u16) -> bool
    requires { first ≡ window_start day }
    ensures { result ≡ any_to (past_of case.entry).count (fuel_entry_counts case.entry.past.now day group) }
{
    (0..case.entry_count()).any(|j| is_prior_entry(case, first, day, group, j))
}

// M: 3 halves after a penalty or a past entry, else 2.
fn multiplier_after(prior: bool) -> u8
    ensures { result ≡ fuel_multiplier_after prior }
{
    if prior { 3 } else { 2 }
}

// M and the penalty of the party-day that event i leads.
pub fn fuel(
    case: Case,
    groups: &[u16; layout::MOST_EVENTS],
    leaders: &[usize; layout::MOST_EVENTS],
    masks: &[u32; layout::MOST_EVENTS],
    penalties: &[u64; layout::MOST_EVENTS],
    i: usize,
) -> Sanction
    requires { (i < (events_of case).count) × ((events_of case).count ≤ most_events)
        × ((events_of case).kind i ≡ 3) × Sound case.format case.events.now leaders.now }
    ensures { result ≡ fuel_row case.entry.format case.entry.past.now case.entry.events.now groups.now leaders.now masks.now penalties.now i }
{
    let event = case.event_at(i);
    let day = event.day;
    let group = groups[i];
    let first = window_start(day);
    let here = prior_here(case, groups, penalties, first, day, group, i);
    let outside = prior_past(case, first, day, group);
    let multiplier = multiplier_after(here | outside);
    let sums = party_day(case, leaders, masks[i], i);
    let tcc = sums.rise.saturating_sub(sums.fall);
    let penalty = fuel_penalty(multiplier, sums.gain, sums.loss, tcc);
    Sanction {
        multiplier,
        n3: 0,
        n2: 0,
        penalty,
    }
}
