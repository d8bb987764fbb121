// The check of a whole case, in the order of the limits.
ghost use Rattle.std.specs.Prelude.{◌≡◌, ◌≤◌, OnOk};
ghost use Rattle.casefile.specs.Layout.{most_events};
ghost use Rattle.casefile.specs.Lookup.{correct_references};
ghost use Rattle.casefile.specs.Sections.{events_of};
ghost use Rattle.limits.specs.StageLookup.{UnitsInOrder, InOrder};
ghost use Rattle.limits.specs.Numbers.{number_in, answered};
ghost use Rattle.limits.specs.Refusal.{refusal};
ghost use Rattle.limits.specs.StageRefusal.{found_refusal};
ghost use Rattle.limits.specs.StageChecked.{HandedOn};
ghost use Rattle.event_check.specs.StageFound.{Found};

use calendar_check::field_limits::fields_refusal;
use casefile::case::Case;
use casefile::layout;
use event_check::event_limits::{references_found, unit_refusal};
use limits::header_limits::header_refusal;
use limits::refusal::Refusal;
use record_check::record_limits::records_refusal;

// Held to the limits of what is found for the events; where nothing is refused the tables hold what was found of each event.
fn found_refusal<'a>(
    case: Case,
    correction: &'a [u8],
    rows_length: usize,
    places: &mut [usize; layout::MOST_EVENTS],
    levels: &mut [u32; layout::MOST_EVENTS],
    corrects: &mut [u32; layout::MOST_EVENTS],
) -> Result<(), Refusal>
    requires { UnitsInOrder case.format case.units.now × InOrder case.format case.references.now × InOrder case.format (correct_references correction.now case.references.now)
        × ((events_of case).count ≤ most_events) }
    ensures value { number_in result ≡ found_refusal case.entry.format case.entry.units.now case.entry.references.now (correct_references correction.now case.entry.references.now)
        case.entry.events.now rows_length }
    ensures found { OnOk result (Found case.entry.format case.entry.units.now case.entry.references.now (correct_references correction.now case.entry.references.now) case.entry.events.now
        places.new levels.new corrects.new) }
{
    unit_refusal(case, places)?;
    let references_good = references_found(case, correction, levels, corrects);
    if !references_good {
        return Err(Refusal::NoReference);
    }
    let rows = layout::ROW_WIDTH * case.event_count();
    if rows_length < rows {
        return Err(Refusal::RowsTooShort);
    }
    Ok(())
}

// Held to every limit; where the case is accepted the tables hold what was found of each event.
pub fn check_into<'a>(
    file: &'a [u8],
    correction: &'a [u8],
    rows_length: usize,
    places: &mut [usize; layout::MOST_EVENTS],
    levels: &mut [u32; layout::MOST_EVENTS],
    corrects: &mut [u32; layout::MOST_EVENTS],
) -> Result<(), Refusal>
    ensures value { number_in result ≡ refusal file.now correction.now rows_length }
    ensures handed_on { OnOk result (HandedOn file.now correction.now places.new levels.new corrects.new) }
{
    header_refusal(file)?;
    let case = Case::of(file);
    records_refusal(case, correction)?;
    fields_refusal(case)?;
    found_refusal(case, correction, rows_length, places, levels, corrects)
}

// Held to every limit: the answer that the refusal's number stands for.
pub fn check<'a>(file: &'a [u8], correction: &'a [u8], rows_length: usize) -> Result<(), Refusal>
    ensures { result ≡ answered (refusal file.now correction.now rows_length) }
{
    let mut places = [0usize; layout::MOST_EVENTS];
    let mut levels = [0u32; layout::MOST_EVENTS];
    let mut corrects = [0u32; layout::MOST_EVENTS];
    check_into(
        file,
        correction,
        rows_length,
        &mut places,
        &mut levels,
        &mut corrects,
    )
}
