// Unit numbers in a field of their own: limit 17, and its part of 8.
ghost use Rattle.std.specs.Prelude.{◌≡◌, ◌+◌, ◌/◌, ◌≤◌, ◌<◌, length};
ghost use Rattle.binary.specs.Bounded.{all_to};
ghost use Rattle.binary.specs.Bytes.{value_at};
ghost use Rattle.casefile.specs.Layout.{number_width};
ghost use Rattle.casefile.specs.Decode.{record_at, old_number};
ghost use Rattle.limits.specs.Refusal.{number_fine, record_numbers_fine, reference_numbers_fine, numbers_fine};

use casefile::case::Case;
use casefile::layout;
use casefile::layout::{Format, old_numbers, widths_of};
use casefile::records::{count_of, number_at, record_at};

// Record i: its number stands at `at`, the two bytes where version 1 has it at `old`.
fn number_fine(records: &[u8], i: usize, width: usize, old: usize, at: usize) -> bool
    requires { (i < length records.now / width) × (old + 2 ≤ width) × (at + 4 ≤ width) }
    ensures { result ≡ number_fine (old_number width old records.now) (λ k. value_at 4 (record_at width records.now k) at) i }
{
    let record = record_at(records, i, width);
    let old_number = number_at(record, old, layout::OLD_NUMBER_WIDTH) as u64;
    let number = number_at(record, at, layout::NUMBER_WIDTH) as u64;
    // One comparison for both: an old field that is not 0 is above the limit by itself.
    layout::NUMBER_LIMIT * old_number + number <= layout::HIGHEST_NUMBER
}

// The records of a section whose numbers have a field of their own.
fn all_numbers_fine(records: &[u8], width: usize, old: usize, at: usize) -> bool
    requires { (0 < width) × (old + 2 ≤ width) × (at + 4 ≤ width) }
    ensures { result ≡ all_to (length records.now / width) (number_fine (old_number width old records.now) (λ k. value_at 4 (record_at width records.now k) at)) }
{
    (0..count_of(records, width)).all(|i| number_fine(records, i, width, old, at))
}

// The records of a section; in version 1 there is nothing to look at.
fn record_numbers_fine(format: Format, records: &[u8], width: usize, old: usize, at: usize) -> bool
    requires { (0 < width) × (old + 2 ≤ width) × (at + number_width format ≤ width) }
    ensures { result ≡ record_numbers_fine format (length records.now / width) (old_number width old records.now)
        (λ k. value_at (number_width format) (record_at width records.now k) at) }
{
    if old_numbers(format) {
        return true;
    }
    all_numbers_fine(records, width, old, at)
}

// The numbers of the references.
pub fn reference_numbers_fine(format: Format, references: &[u8]) -> bool
    ensures { result ≡ reference_numbers_fine format references.now }
{
    let w = widths_of(format);
    record_numbers_fine(
        format,
        references,
        w.reference_width,
        layout::REFERENCE_UNIT,
        w.reference_unit,
    )
}

// The numbers of units, references and events.
pub fn numbers_fine(case: Case) -> bool
    ensures { result ≡ numbers_fine case.entry.format case.entry.units.now case.entry.references.now case.entry.events.now }
{
    let w = widths_of(case.format);
    if !record_numbers_fine(
        case.format,
        case.units,
        w.unit_width,
        layout::UNIT_NUMBER,
        w.unit_number,
    ) {
        return false;
    }
    if !reference_numbers_fine(case.format, case.references) {
        return false;
    }
    record_numbers_fine(
        case.format,
        case.events,
        w.event_width,
        layout::EVENT_UNIT,
        w.event_unit,
    )
}
