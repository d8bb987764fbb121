// Instances: a withheld event with impact 1 and a flagged hour.
ghost use Rattle.std.specs.Prelude.{◌≡◌, cond, ◌≤◌, ◌<◌};
ghost use Rattle.casefile.specs.Layout.{most_events, most_past};
ghost use Rattle.casefile.specs.Sections.{past_of, events_of};
ghost use Rattle.instance_counts.specs.StageInstances.{with_impact, instance_at, instance_of, entry_of, instances_here, instances_past, instances_at};

use casefile::case::Case;
use casefile::layout;
use casefile::layout::Format;
use tariff::sanction_rules::period_counts;

// Over the own period and the two before, and over the own and the one before.
#[derive(Clone, Copy)]
pub struct Instances {
    pub n3: u16,
    pub n2: u16,
}

fn one_where(counts: bool) -> u16
    ensures { (result ≡ cond counts 1 0) × (result ≤ 1) }
{
    if counts { 1 } else { 0 }
}

// Whether event i has impact 1 and a flagged hour.
pub fn with_impact(case: Case, masks: &[u32; layout::MOST_EVENTS], i: usize) -> bool
    requires { (i < (events_of case).count) × (i < most_events) }
    ensures { result ≡ with_impact case.entry.format case.entry.events.now masks.now i }
{
    let event = case.event_at(i);
    let impact = event.impact;
    (impact == 1) & (0 < masks[i])
}

// Whether event j is an instance.
pub fn is_instance(case: Case, masks: &[u32; layout::MOST_EVENTS], j: usize) -> bool
    requires { (j < (events_of case).count) × (j < most_events) }
    ensures { result ≡ instance_at case.entry.format case.entry.events.now masks.now j }
{
    let event = case.event_at(j);
    let kind = event.kind;
    (kind == 1) & with_impact(case, masks, j)
}

// Whether event j is an instance of a group and market.
pub fn is_instance_of(
    case: Case,
    groups: &[u16; layout::MOST_EVENTS],
    masks: &[u32; layout::MOST_EVENTS],
    group: u16,
    market: u8,
    j: usize,
) -> bool
    requires { (j < (events_of case).count) × (j < most_events) }
    ensures { result ≡ instance_of case.entry.format case.entry.events.now groups.now masks.now group market j }
{
    let event = case.event_at(j);
    let its_market = event.market;
    let instance = is_instance(case, masks, j);
    instance & (groups[j] == group) & (its_market == market)
}

pub fn period_of(case: Case, j: usize) -> u16
    requires { j < (events_of case).count }
    ensures { result ≡ (events_of case.entry).period j }
{
    let event = case.event_at(j);
    event.period
}

// The instances on the first i rows.
fn counted_here(
    case: Case,
    groups: &[u16; layout::MOST_EVENTS],
    masks: &[u32; layout::MOST_EVENTS],
    group: u16,
    market: u8,
    period: u16,
    i: usize,
) -> Instances
    requires { (i ≤ (events_of case).count) × (i ≤ most_events) }
    ensures { result ≡ instances_here case.entry.format case.entry.events.now groups.now masks.now group market period i }
{
    let mut three: u16 = 0;
    let mut two: u16 = 0;
    for j in 0..i {
        let same = is_instance_of(case, groups, masks, group, market, j);
        let its_period = period_of(case, j);
        three += one_where(same & period_counts(2, period, its_period));
        two += one_where(same & period_counts(1, period, its_period));
    }
    Instances { n3: three, n2: two }
}

// The same with a loop for each version, whose records stand a known number of bytes apart.
fn instances_here(
    case: Case,
    groups: &[u16; layout::MOST_EVENTS],
    masks: &[u32; layout::MOST_EVENTS],
    group: u16,
    market: u8,
    period: u16,
    i: usize,
) -> Instances
    requires { (i ≤ (events_of case).count) × (i ≤ most_events) }
    ensures { result ≡ instances_here case.entry.format case.entry.events.now groups.now masks.now group market period i }
{
    let mut same = case;
    if case.format.version == layout::SECOND_VERSION {
        same.format = Format {
            version: layout::SECOND_VERSION,
        };
        return counted_here(same, groups, masks, group, market, period, i);
    }
    same.format = Format {
        version: layout::FIRST_VERSION,
    };
    counted_here(same, groups, masks, group, market, period, i)
}

// Whether past entry j is of kind 1, and of a group and market.
pub fn is_entry(case: Case, group: u16, market: u8, j: usize) -> bool
    requires { j < (past_of case).count }
    ensures { result ≡ entry_of case.entry.past.now group market j }
{
    let entry = case.entry_at(j);
    let its_group = entry.group;
    let kind = entry.kind;
    let its_market = entry.market;
    (kind == 1) & (its_group == group) & (its_market == market)
}

pub fn entry_period(case: Case, j: usize) -> u16
    requires { j < (past_of case).count }
    ensures { result ≡ ((past_of case.entry).entry j).period }
{
    let entry = case.entry_at(j);
    entry.period
}

// The past entries that count as instances.
fn instances_past(case: Case, group: u16, market: u8, period: u16) -> Instances
    requires { (past_of case).count ≤ most_past }
    ensures { result ≡ instances_past case.entry.past.now group market period }
{
    let n = case.entry_count();
    let mut three: u16 = 0;
    let mut two: u16 = 0;
    for j in 0..n {
        let same = is_entry(case, group, market, j);
        let its_period = entry_period(case, j);
        three += one_where(same & period_counts(2, period, its_period));
        two += one_where(same & period_counts(1, period, its_period));
    }
    Instances { n3: three, n2: two }
}

// N3 and N2 of event i: 1 plus the rows before it and the past entries that count; both 0 where it is no instance.
pub fn instances_at(
    case: Case,
    groups: &[u16; layout::MOST_EVENTS],
    masks: &[u32; layout::MOST_EVENTS],
    i: usize,
) -> Instances
    requires { (i < (events_of case).count) × (i < most_events) × ((past_of case).count ≤ most_past) }
    ensures { result ≡ instances_at case.entry.format case.entry.past.now case.entry.events.now groups.now masks.now i }
{
    if !is_instance(case, masks, i) {
        return Instances { n3: 0, n2: 0 };
    }
    let event = case.event_at(i);
    let market = event.market;
    let period = event.period;
    let group = groups[i];
    let here = instances_here(case, groups, masks, group, market, period, i);
    let before = instances_past(case, group, market, period);
    Instances {
        n3: 1 + here.n3 + before.n3,
        n2: 1 + here.n2 + before.n2,
    }
}
