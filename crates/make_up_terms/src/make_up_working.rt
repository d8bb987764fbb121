// The public call: the working of an event's make-up payment, and of the bids that a correct reference restores.
ghost use Rattle.std.specs.Prelude.{true, ◌≡◌, ◌*◌, ◌≤◌, ◌<◌, length, get_or};
ghost use Rattle.binary.specs.Bounded.{mask_to};
ghost use Rattle.binary.specs.Lists.{list_to, Holds};
ghost use Rattle.casefile.specs.Layout.{cell_width, most_hours};
ghost use Rattle.casefile.specs.Decode.{decode};
ghost use Rattle.casefile.specs.Lookup.{bid_level, unit_of};
ghost use Rattle.casefile.specs.Sections.{units_of, events_of};
ghost use Rattle.limits.specs.Refusal.{events_fine};
ghost use Rattle.limits.specs.StageChecked.{AcceptedFile};
ghost use Rattle.default_bids.specs.StageFigures.{MegawattsFine, tenths_at};
ghost use Rattle.conduct.specs.Flags.{flag_mask};
ghost use Rattle.make_up_terms.specs.MakeUpWorking.{refused_make_up, make_up_working_of};
ghost use Rattle.make_up_terms.specs.StageMakeUp.{restored_in, restored_by, terms_by, make_up_working_in};

use binary::bounded::{list_to, mask_to};
use binary::masks::bit_of;
use binary::numbers::choose;
use case_check::check::check_into;
use casefile::case::Case;
use casefile::layout;
use conduct::flags::find_flags;
use default_bids::bids::failing_with;
use default_bids::make_up::{event_make_up, hour_tenths, sum_tenths};
use default_bids::mitigated::mitigated_mask;
use tariff::default_bid_rules::restores;

// The refusal's number, or 0 and the working, laid out for C; all 0 where the event is no bid.
#[repr(C)]
#[derive(Drop)]
pub struct MakeUpWorking {
    pub number: u8,
    pub reference: u32,
    pub correct: u32,
    pub mitigated: u32,
    pub restored: u32,
    pub tenths: u64,
    pub make_up: u64,
    pub hours: [u64; layout::HOURS],
}

// The mitigated hours' make-ups in tenths of a cent, and their sum.
#[derive(Drop)]
pub struct MakeUpTerms {
    pub sum: u64,
    pub hours: [u64; layout::HOURS],
}

// The hours of one mask that another does not have.
fn passing_hours(mitigated: u32, failing: u32) -> u32
    ensures { result ≡ mask_to most_hours (restored_in mitigated failing) }
{
    mask_to(layout::HOURS, |h| {
        let held = bit_of(mitigated, h);
        let fails = bit_of(failing, h);
        held & !fails
    })
}

// The mitigated hours of event i whose bid is in force again, where c restores bids.
fn restored_mask(
    case: Case,
    place: usize,
    level: u32,
    correct: u32,
    mitigated: u32,
    i: usize,
) -> u32
    requires { (i < (events_of case).count) × (place < (units_of case).count) }
    ensures { result ≡ restored_by case.entry.format case.entry.units.now case.entry.events.now place level correct mitigated i }
{
    let event = case.event_at(i);
    let component = event.component;
    if restores(component, level, correct) {
        let failing = failing_with(case, place, correct, i);
        return passing_hours(mitigated, failing);
    }
    0
}

fn hour_make_ups(cells: &[u8], correct: u32, mitigated: u32) -> [u64; layout::HOURS]
    requires { (cell_width * most_hours ≤ length cells.now) × MegawattsFine cells.now }
    ensures { result ≡ list_to most_hours (tenths_at cells.now correct mitigated) }
{
    list_to(|h| hour_tenths(cells, h, correct, mitigated))
}

// The terms of event i; component 0 alone has some.
fn make_up_terms(case: Case, i: usize, correct: u32, mitigated: u32) -> MakeUpTerms
    requires { (i < (events_of case).count) × (events_fine case.format case.events.now ≡ true) }
    ensures { result ≡ terms_by case.entry.format case.entry.events.now i correct mitigated }
{
    let event = case.event_at(i);
    let kind = event.kind;
    let component = event.component;
    if (kind == 4) & (component == 0) {
        let cells = case.event_cells(i);
        let sum = sum_tenths(cells, correct, mitigated);
        let hours = hour_make_ups(cells, correct, mitigated);
        return MakeUpTerms { sum, hours };
    }
    MakeUpTerms {
        sum: 0,
        hours: [0u64; layout::HOURS],
    }
}

// The working of event i of an accepted case, from its unit's place, r, c and its flag mask.
fn working_by(
    file: &[u8],
    place: usize,
    level: u32,
    correct: u32,
    flags: u32,
    i: usize,
) -> MakeUpWorking
    requires accepted_file { AcceptedFile file.now × (i < (decode file.now).events.count) }
    requires place_found { (place ≡ unit_of (decode file.now) i) × (level ≡ bid_level (decode file.now).references (decode file.now).events i) × (flags ≡ flag_mask (decode file.now) i) }
    ensures { result ≡ make_up_working_in file.now correct i }
{
    let case = Case::of(file);
    let mitigated = mitigated_mask(case, i, flags);
    let restored = restored_mask(case, place, level, correct, mitigated, i);
    let terms = make_up_terms(case, i, correct, mitigated);
    let make_up = event_make_up(case, i, level, correct, mitigated);
    let hours = terms.hours;
    MakeUpWorking {
        number: 0,
        reference: level,
        correct,
        mitigated,
        restored,
        tenths: terms.sum,
        make_up,
        hours,
    }
}

fn working_at(
    file: &[u8],
    places: &[usize; layout::MOST_EVENTS],
    levels: &[u32; layout::MOST_EVENTS],
    corrects: &[u32; layout::MOST_EVENTS],
    i: usize,
) -> MakeUpWorking
    requires accepted_file { AcceptedFile file.now × (i < (decode file.now).events.count) }
    requires places_found { Holds (decode file.now).events.count places.now (unit_of (decode file.now)) }
    requires levels_found { Holds (decode file.now).events.count levels.now (bid_level (decode file.now).references (decode file.now).events) }
    ensures { result ≡ make_up_working_in file.now (get_or corrects.now i 0) i }
{
    let mut groups = [0u16; layout::MOST_EVENTS];
    let mut leaders = [0usize; layout::MOST_EVENTS];
    let mut masks = [0u32; layout::MOST_EVENTS];
    find_flags(file, places, levels, &mut groups, &mut leaders, &mut masks);
    working_by(file, places[i], levels[i], corrects[i], masks[i], i)
}

fn refused_make_up(number: u8) -> MakeUpWorking
    ensures { result ≡ refused_make_up number }
{
    MakeUpWorking {
        number,
        reference: 0,
        correct: 0,
        mitigated: 0,
        restored: 0,
        tenths: 0,
        make_up: 0,
        hours: [0; layout::HOURS],
    }
}

// The working of an event's make-up payment; a refused case has its number, and 10 where there is no such event.
pub fn make_up_working<'a>(file: &'a [u8], correction: &'a [u8], event: usize) -> MakeUpWorking
    ensures { result ≡ make_up_working_of file.now correction.now event }
{
    let mut places = [0usize; layout::MOST_EVENTS];
    let mut levels = [0u32; layout::MOST_EVENTS];
    let mut corrects = [0u32; layout::MOST_EVENTS];
    let checked = check_into(
        file,
        correction,
        layout::MOST_ROWS,
        &mut places,
        &mut levels,
        &mut corrects,
    );
    if let Err(refusal) = checked {
        return refused_make_up(u8::from(refusal));
    }
    let case = Case::of(file);
    if event < case.event_count() {
        return working_at(file, &places, &levels, &corrects, event);
    }
    refused_make_up(10)
}
