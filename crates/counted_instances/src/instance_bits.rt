// The public call: the events and past entries that N3 and N2 of an event counted, as lists of bits.
ghost use Rattle.std.specs.Prelude.{◌≡◌, ◌≤◌, ◌<◌, length};
ghost use Rattle.binary.specs.Lists.{Holds};
ghost use Rattle.casefile.specs.Layout.{most_events};
ghost use Rattle.casefile.specs.Decode.{decode};
ghost use Rattle.casefile.specs.Lookup.{unit_of, group_of, bid_level};
ghost use Rattle.casefile.specs.Sections.{events_of};
ghost use Rattle.limits.specs.StageChecked.{AcceptedFile};
ghost use Rattle.conduct.specs.Flags.{flag_mask};
ghost use Rattle.counted_instances.specs.CountedInstances.{byte_of, counted_length, with_counted, instances_answer, instances_out};
ghost use Rattle.counted_instances.specs.StageCounted.{event_counted, entry_counted, byte_in};

use binary::bounded::mask_to;
use binary::numbers::choose;
use case_check::check::check_into;
use casefile::case::Case;
use casefile::layout;
use conduct::flags::find_flags;
use instance_counts::instances::{entry_period, is_entry, is_instance, is_instance_of, period_of};
use tariff::sanction_rules::period_counts;

// A bit for each event and one for each past entry, in whole bytes; the lists of N3, then those of N2.
const EVENT_BYTES: usize = 25;

const PAST_BYTES: usize = 32;

const LIST_BYTES: usize = EVENT_BYTES + PAST_BYTES;

const COUNTED_LENGTH: usize = 2 * LIST_BYTES;

// Where the past entries of N2 begin.
const LAST_LIST: usize = LIST_BYTES + EVENT_BYTES;

// Whether event j is one of those before event i that its count over k periods back has.
fn event_counted(
    case: Case,
    groups: &[u16; layout::MOST_EVENTS],
    masks: &[u32; layout::MOST_EVENTS],
    k: u8,
    i: usize,
    j: usize,
) -> bool
    requires { (i < (events_of case).count) × (i < most_events) }
    ensures { result ≡ event_counted case.entry.format case.entry.events.now groups.now masks.now k i j }
{
    if j < i {
        let event = case.event_at(i);
        let market = event.market;
        let period = event.period;
        let own = is_instance(case, masks, i);
        let same = is_instance_of(case, groups, masks, groups[i], market, j);
        let near = period_counts(k, period, period_of(case, j));
        return own & (same & near);
    }
    false
}

// Whether past entry j is one of those.
fn entry_counted(
    case: Case,
    groups: &[u16; layout::MOST_EVENTS],
    masks: &[u32; layout::MOST_EVENTS],
    k: u8,
    i: usize,
    j: usize,
) -> bool
    requires { (i < (events_of case).count) × (i < most_events) }
    ensures { result ≡ entry_counted case.entry.format case.entry.past.now case.entry.events.now groups.now masks.now k i j }
{
    if j < case.entry_count() {
        let event = case.event_at(i);
        let market = event.market;
        let period = event.period;
        let own = is_instance(case, masks, i);
        let same = is_entry(case, groups[i], market, j);
        let near = period_counts(k, period, entry_period(case, j));
        return own & (same & near);
    }
    false
}

// Eight events in a byte.
fn event_byte(
    case: Case,
    groups: &[u16; layout::MOST_EVENTS],
    masks: &[u32; layout::MOST_EVENTS],
    k: u8,
    i: usize,
    b: usize,
) -> u8
    requires { (i < (events_of case).count) × (i < most_events) × (b < counted_length) }
    ensures { result ≡ byte_of (event_counted case.entry.format case.entry.events.now groups.now masks.now k i) b }
{
    mask_to(8, |t| {
        let counted = event_counted(case, groups, masks, k, i, 8 * b + t);
        counted
    }) as u8
}

// Eight past entries in a byte.
fn past_byte(
    case: Case,
    groups: &[u16; layout::MOST_EVENTS],
    masks: &[u32; layout::MOST_EVENTS],
    k: u8,
    i: usize,
    b: usize,
) -> u8
    requires { (i < (events_of case).count) × (i < most_events) × (b < counted_length) }
    ensures { result ≡ byte_of (entry_counted case.entry.format case.entry.past.now case.entry.events.now groups.now masks.now k i) b }
{
    mask_to(8, |t| {
        let counted = entry_counted(case, groups, masks, k, i, 8 * b + t);
        counted
    }) as u8
}

// Byte b of the lists of event i.
fn byte_at(
    case: Case,
    groups: &[u16; layout::MOST_EVENTS],
    masks: &[u32; layout::MOST_EVENTS],
    i: usize,
    b: usize,
) -> u8
    requires { (i < (events_of case).count) × (i < most_events) × (b < counted_length) }
    ensures { result ≡ byte_in case.entry.format case.entry.past.now case.entry.events.now groups.now masks.now i b }
{
    if b < EVENT_BYTES {
        return event_byte(case, groups, masks, 2, i, b);
    }
    if b < LIST_BYTES {
        return past_byte(case, groups, masks, 2, i, b - EVENT_BYTES);
    }
    if b < LAST_LIST {
        return event_byte(case, groups, masks, 1, i, b - LIST_BYTES);
    }
    past_byte(case, groups, masks, 1, i, b - LAST_LIST)
}

// The lists of event i of an accepted case, from the tables of its flags; the bytes beyond them stay.
fn put_counted(
    file: &[u8],
    groups: &[u16; layout::MOST_EVENTS],
    masks: &[u32; layout::MOST_EVENTS],
    i: usize,
    out: &mut [u8],
)
    requires accepted_file { AcceptedFile file.now × (i < (decode file.now).events.count) × (counted_length ≤ length out.old) }
    requires groups_found { Holds (decode file.now).events.count groups.now (group_of (decode file.now)) }
    requires masks_found { Holds (decode file.now).events.count masks.now (flag_mask (decode file.now)) }
    ensures { out.new ≡ with_counted (decode file.now) i out.old }
{
    let case = Case::of(file);
    for b in 0..COUNTED_LENGTH {
        out[b] = byte_at(case, groups, masks, i, b);
    }
}

fn counted_at(
    file: &[u8],
    places: &[usize; layout::MOST_EVENTS],
    levels: &[u32; layout::MOST_EVENTS],
    i: usize,
    out: &mut [u8],
)
    requires accepted_file { AcceptedFile file.now × (i < (decode file.now).events.count) × (counted_length ≤ length out.old) }
    requires places_found { Holds (decode file.now).events.count places.now (unit_of (decode file.now)) }
    requires levels_found { Holds (decode file.now).events.count levels.now (bid_level (decode file.now).references (decode file.now).events) }
    ensures { out.new ≡ with_counted (decode file.now) i out.old }
{
    let mut groups = [0u16; layout::MOST_EVENTS];
    let mut leaders = [0usize; layout::MOST_EVENTS];
    let mut masks = [0u32; layout::MOST_EVENTS];
    find_flags(file, places, levels, &mut groups, &mut leaders, &mut masks);
    put_counted(file, &groups, &masks, i, out);
}

// Puts the lists of an event into out and answers 0; a refused case has its number, else 10 is for an event that is not there and 15 for an
// out that is too short, and out is as it was.
pub fn instances<'a>(file: &'a [u8], correction: &'a [u8], event: usize, out: &mut [u8]) -> u8
    ensures value { result ≡ instances_answer file.now correction.now event (length out.old) }
    ensures out_after { out.new ≡ instances_out file.now correction.now event out.old }
{
    let mut places = [0usize; layout::MOST_EVENTS];
    let mut levels = [0u32; layout::MOST_EVENTS];
    let mut corrects = [0u32; layout::MOST_EVENTS];
    let checked = check_into(
        file,
        correction,
        layout::MOST_ROWS,
        &mut places,
        &mut levels,
        &mut corrects,
    );
    if let Err(refusal) = checked {
        return u8::from(refusal);
    }
    let case = Case::of(file);
    if case.event_count() <= event {
        return 10;
    }
    if out.len() < COUNTED_LENGTH {
        return 15;
    }
    counted_at(file, &places, &levels, event, out);
    0
}
