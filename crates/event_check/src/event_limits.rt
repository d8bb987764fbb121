// Events: the reader, limits 10 to 14, and what 18 and 19 ask of events.
ghost use Rattle.std.specs.Prelude.{true, false, ◌≡◌, ◌<◌, ◌≤◌, OnOk};
ghost use Rattle.binary.specs.Lists.{Holds};
ghost use Rattle.tariff.specs.Ranges.{highest_day};
ghost use Rattle.casefile.specs.Layout.{most_hours, most_events, number_limit};
ghost use Rattle.casefile.specs.Decode.{references_in, amounts_in};
ghost use Rattle.casefile.specs.Lookup.{correct_references, reads_correct, bid_level};
ghost use Rattle.casefile.specs.Sections.{units_of, events_of};
ghost use Rattle.limits.specs.StageLookup.{UnitsInOrder, InOrder, level_in, correct_level};
ghost use Rattle.limits.specs.Numbers.{number_in};
ghost use Rattle.limits.specs.Refusal.{event_numbers_fine, quantities_fine, fields_fine, event_fine, events_fine, events_listed, amount_fine, amounts_fine, order_fine, references_found, unless as unless_of};
ghost use Rattle.limits.specs.StageRefusal.{events_in_calendar};
ghost use Rattle.event_check.specs.StageReading.{key_of, number_of, read_event, order_of, order_number};
ghost use Rattle.event_check.specs.StageFound.{event_place, EventLevels};

use crate::cell_limits::{amounts_within, cells_fine};
use binary::words::Word;
use calendar::periods::has_period;
use casefile::case::Case;
use casefile::events::Event;
use casefile::layout;
use casefile::layout::Format;
use casefile::references::correct_references;
use limits::lookup::{level_of, next_place, unit_place};
use limits::refusal::Refusal;
use tariff::ranges;

// The ranges of Q and R, by kind.
fn quantities_fine(kind: u8, market: u8, q: u32, r: u32) -> bool
    ensures { result ≡ quantities_fine most_hours kind market q r }
{
    let guarantee = q.is_within(ranges::HIGHEST_FUEL_MONEY);
    let congestion = r.is_within(ranges::HIGHEST_FUEL_MONEY);
    ((kind != 1) | ((q == 0) & (r == 0)))
        & ((kind != 2) | ((q == 0) & (r == 0)))
        & ((kind != 3) | (guarantee & congestion & ((market == 0) | (r == 0))))
        & ((kind != 4) | ((q < layout::MASK_LIMIT) & (r <= ranges::MOST_RUN_HOURS)))
}

// The ranges of an event's own fields, by kind.
fn fields_fine(
    kind: u8,
    market: u8,
    component: u8,
    impact: u8,
    day: u32,
    p: u32,
    q: u32,
    r: u32,
) -> bool
    ensures { result ≡ fields_fine most_hours kind market component impact day p q r }
{
    let quantities = quantities_fine(kind, market, q, r);
    (ranges::LOWEST_KIND <= kind)
        & (kind <= ranges::HIGHEST_KIND)
        & (market <= ranges::HIGHEST_MARKET)
        & ((kind != 2) | (market == 1))
        & (component <= ranges::HIGHEST_COMPONENT)
        & ((kind == 4) | (component == 0))
        & (impact <= ranges::HIGHEST_IMPACT)
        & ((kind <= 2) | (impact == 0))
        & (day <= ranges::HIGHEST_DAY)
        & (p < layout::MASK_LIMIT)
        & quantities
}

// Event i, where its fields and its cells are in their ranges.
pub fn read_event(case: Case, i: usize) -> Option<Event>
    requires { i < (events_of case).count }
    ensures { (result ≡ read_event case.entry.format case.entry.events.now i) × (number_of result ≡ unless_of (event_fine (events_of case.entry) (amounts_in case.entry.format case.entry.events.now) i) 10 0) }
{
    let e = case.event_at(i);
    let fields = fields_fine(
        e.kind,
        e.market,
        e.component,
        e.impact,
        e.day,
        e.p,
        e.q,
        e.r,
    );
    // The tests of the fields need not be kept while the cells are looked at.
    if !fields {
        return None;
    }
    if !cells_fine(e.kind, e.component, case.event_cells(i)) {
        return None;
    }
    Some(e)
}

// The place of an event in the order: by day, kind, market, unit, component.
fn event_key(e: Event) -> u64
    requires { (e.day ≤ highest_day) × (e.unit < number_limit) }
    ensures { result ≡ key_of e }
{
    17_592_186_044_416 * (e.day as u64)
        + 68_719_476_736 * (e.kind as u64)
        + 268_435_456 * (e.market as u64)
        + 256 * (e.unit as u64)
        + (e.component as u64)
}

// What the limits after 10 ask of events that can be read.
#[derive(Clone, Copy)]
pub struct EventOrder {
    // Whether each day and period is the calendar's.
    pub dated: bool,
    // Whether each event comes after the one before it.
    pub rising: bool,
}

// One look at each event: refused where one can't be read. Its number is 10 there, else 19 where a day or a period is not the calendar's,
// else 11 where one is out of order, else 0.
#[tactic(auto, using(crate::proofs::EventLaws::order_unreadable, crate::proofs::EventLaws::number_unreadable))]
pub fn order_refusal(case: Case) -> Result<EventOrder, Refusal>
    requires { event_numbers_fine case.format case.events.now ≡ true }
    ensures value { result ≡ order_of case.entry.format case.entry.events.now }
    ensures number { order_number result ≡ unless_of (events_fine case.entry.format case.entry.events.now) 10
        (unless_of (events_in_calendar (events_of case.entry)) 19 (unless_of (order_fine (events_of case.entry)) 11 0)) }
{
    let mut dated = true;
    let mut rising = true;
    let mut last = 0;
    for i in 0..case.event_count() {
        let Some(e) = read_event(case, i) else {
            return Err(Refusal::EventFields);
        };
        dated = dated & has_period(e.day, e.period);
        let key = event_key(e);
        rising = rising & ((i == 0) | (last < key));
        last = key;
    }
    Ok(EventOrder { dated, rising })
}

// Whether a is within the capability in each hour of event i, where its kind asks that; its unit is at this place.
fn amount_fine(case: Case, i: usize, place: usize) -> bool
    requires in_range { (i < (events_of case).count) × (place < (units_of case).count) }
    requires place_found { place ≡ event_place (units_of case) (events_of case) i }
    ensures { result ≡ amount_fine (units_of case.entry) (events_of case.entry) (amounts_in case.entry.format case.entry.events.now) i }
{
    let event = case.event_at(i);
    if 2 < event.kind {
        return true;
    }
    let unit = case.unit_at(place);
    amounts_within(unit.capability, case.event_cells(i))
}

// Held to 12 and 13; where nothing is refused the table holds the place of each event's unit.
pub fn unit_refusal(case: Case, places: &mut [usize; layout::MOST_EVENTS]) -> Result<(), Refusal>
    requires { UnitsInOrder case.format case.units.now × ((events_of case).count ≤ most_events) }
    ensures value { number_in result ≡ unless_of (events_listed (units_of case.entry) (events_of case.entry)) 12
        (unless_of (amounts_fine case.entry.format (units_of case.entry) case.entry.events.now) 13 0) }
    ensures places_found { OnOk result (Holds (events_of case.entry).count places.new (event_place (units_of case.entry) (events_of case.entry))) }
{
    // As a slice the table has a length that is known.
    let table: &mut [usize] = places;
    let n = case.event_count();
    if n == 0 {
        return Ok(());
    }
    let first = case.event_at(0);
    let mut last = first.unit;
    let mut place = unit_place(case, last);
    let mut fine = true;
    for i in 0..n {
        let event = case.event_at(i);
        let unit = event.unit;
        place = next_place(case, unit, last, place);
        last = unit;
        let Some(at) = place else {
            return Err(Refusal::UnlistedUnit);
        };
        table[i] = at;
        fine = fine & amount_fine(case, i, at);
    }
    if !fine {
        return Err(Refusal::AboveCapability);
    }
    Ok(())
}

// Whether a component reads the correct reference.
fn reads_correct(component: u8) -> bool
    ensures { result ≡ reads_correct component }
{
    (component <= 1) | (component == 3)
}

// r and c of an event, each where it is read.
#[derive(Clone, Copy)]
pub struct Levels {
    pub level: u32,
    pub correct: u32,
}

// c where it is read; without a correction it is r, which is at hand.
fn correct_level(
    format: Format,
    correct: &[u8],
    corrected: bool,
    own: u32,
    unit: u32,
    component: u8,
) -> Option<u32>
    requires in_order { InOrder format correct.now }
    requires is_own { corrected ≡ false → Some own ≡ level_in (references_in format correct.now) unit component }
    ensures { result ≡ level_in (references_in format correct.now) unit component }
{
    if corrected {
        return level_of(format, correct, unit, component);
    }
    Some(own)
}

// The levels of event i, where all that it reads is there.
fn event_levels(case: Case, correct: &[u8], corrected: bool, i: usize) -> Option<Levels>
    requires { (i < (events_of case).count) × InOrder case.format case.references.now × InOrder case.format correct.now × (corrected ≡ false → correct.now ≡ case.references.now) }
    ensures { EventLevels (references_in case.entry.format case.entry.references.now) (references_in case.entry.format correct.now) (events_of case.entry) i result }
{
    let event = case.event_at(i);
    if event.kind != 4 {
        return Some(Levels {
            level: 0,
            correct: 0,
        });
    }
    let level = level_of(case.format, case.references, event.unit, event.component)?;
    if !reads_correct(event.component) {
        return Some(Levels { level, correct: 0 });
    }
    let correct = correct_level(
        case.format,
        correct,
        corrected,
        level,
        event.unit,
        event.component,
    )?;
    Some(Levels { level, correct })
}

// Whether each event of kind 4 has its reference, and the correct one where it is read; the tables hold their levels.
pub fn references_found<'a>(
    case: Case,
    correction: &'a [u8],
    levels: &mut [u32; layout::MOST_EVENTS],
    corrects: &mut [u32; layout::MOST_EVENTS],
) -> bool
    requires { InOrder case.format case.references.now × InOrder case.format (correct_references correction.now case.references.now) × ((events_of case).count ≤ most_events) }
    ensures value { result ≡ references_found (references_in case.entry.format case.entry.references.now)
        (references_in case.entry.format (correct_references correction.now case.entry.references.now)) (events_of case.entry) }
    ensures levels_found { result ≡ true → Holds (events_of case.entry).count levels.new
        (bid_level (references_in case.entry.format case.entry.references.now) (events_of case.entry)) }
    ensures corrects_found { result ≡ true → Holds (events_of case.entry).count corrects.new
        (correct_level (references_in case.entry.format (correct_references correction.now case.entry.references.now)) (events_of case.entry)) }
{
    let correct = correct_references(correction, case.references);
    let corrected = correction.len() != 0;
    let own: &mut [u32] = levels;
    let other: &mut [u32] = corrects;
    for i in 0..case.event_count() {
        let Some(found) = event_levels(case, correct, corrected, i) else {
            return false;
        };
        own[i] = found.level;
        other[i] = found.correct;
    }
    true
}
