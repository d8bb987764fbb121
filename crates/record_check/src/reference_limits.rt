// References and the correction: limits 7 and 8.
ghost use Rattle.std.specs.Prelude.{◌≡◌, ◌<◌};
ghost use Rattle.casefile.specs.Decode.{references_in};
ghost use Rattle.casefile.specs.Sections.{units_of};
ghost use Rattle.limits.specs.StageLookup.{UnitsInOrder, reference_fine_where};
ghost use Rattle.limits.specs.Refusal.{reference_fields_fine, references_fine, correction_fine};

use crate::number_limits::reference_numbers_fine;
use casefile::case::Case;
use casefile::layout;
use casefile::layout::{Format, widths_of};
use casefile::records::place_before;
use casefile::references::{reference_at, reference_count, reference_spare_fine};
use limits::header_limits::size_fine;
use limits::lookup::{next_place, reference_key, unit_place};
use tariff::ranges;

fn reference_fields_fine(component: u8, value: u32) -> bool
    ensures { result ≡ reference_fields_fine component value }
{
    (component <= ranges::HIGHEST_COMPONENT) & ranges::reference_in_range(component, value)
}

// Reference i, where it is known whether its unit is listed.
fn reference_fine(format: Format, references: &[u8], i: usize, listed: bool) -> bool
    requires { i < (references_in format references.now).count }
    ensures { result ≡ reference_fine_where format references.now i listed }
{
    let reference = reference_at(format, references, i);
    let fields = reference_fields_fine(reference.component, reference.value);
    let spare = reference_spare_fine(format, references, i);
    let last = reference_key(format, references, place_before(i));
    let key = reference_key(format, references, i);
    fields & spare & listed & ((i == 0) | (last < key))
}

pub fn references_fine(case: Case, references: &[u8]) -> bool
    requires { UnitsInOrder case.format case.units.now }
    ensures { result ≡ references_fine case.entry.format (units_of case.entry) references.now }
{
    let n = reference_count(case.format, references);
    if n == 0 {
        return true;
    }
    let first = reference_at(case.format, references, 0);
    let mut last = first.unit;
    let mut place = unit_place(case, last);
    let mut fine = true;
    for i in 0..n {
        let reference = reference_at(case.format, references, i);
        let unit = reference.unit;
        place = next_place(case, unit, last, place);
        last = unit;
        let listed = place.is_some();
        fine = fine & reference_fine(case.format, references, i, listed);
    }
    fine
}

// An empty correction has nothing to look at. The size comes before the records, since a correction may be of any length.
pub fn correction_fine(case: Case, correction: &[u8]) -> bool
    requires { UnitsInOrder case.format case.units.now }
    ensures { result ≡ correction_fine case.entry.format (units_of case.entry) correction.now }
{
    if correction.len() == 0 {
        return true;
    }
    let w = widths_of(case.format);
    if size_fine(correction.len(), w.reference_width, layout::MOST_REFERENCES) {
        let numbers = reference_numbers_fine(case.format, correction);
        return numbers & references_fine(case, correction);
    }
    false
}
