// References: the reader, the spare byte, and the correct references.
ghost use Rattle.std.specs.Prelude.{◌≡◌, ◌≤◌, ◌<◌, length};
ghost use Rattle.casefile.specs.Layout.{reference_width, reference_fields};
ghost use Rattle.casefile.specs.Decode.{record_at, references_in, reference_spare_fine};
ghost use Rattle.casefile.specs.Lookup.{correct_references};
ghost use Rattle.casefile.specs.StageRead.{reference_at};

use crate::layout::{Format, widths_of};
use crate::records::{count_of, number_at, record_at};
use binary::bytes::load;

// The correction slice where it isn't empty, otherwise the case's own reference section.
pub fn correct_references<'a>(correction: &'a [u8], own: &'a [u8]) -> &'a [u8]
    ensures { result.now ≡ correct_references correction.now own.now }
{
    if correction.is_empty() {
        own
    } else {
        correction
    }
}

// A reference level: its unit, its component and the level.
#[derive(Clone, Copy)]
pub struct Reference {
    pub unit: u32,
    pub component: u8,
    pub value: u32,
}

pub fn reference_count(format: Format, references: &[u8]) -> usize
    ensures { result ≡ (references_in format references.now).count }
{
    let w = widths_of(format);
    count_of(references, w.reference_width)
}

// The record of reference i.
fn reference_record(format: Format, references: &[u8], i: usize) -> &[u8]
    requires { i < (references_in format references.now).count }
    ensures { (result.now ≡ record_at (reference_width format) references.now i) × (length result.now ≡ reference_width format) × (reference_fields ≤ length result.now) }
{
    let w = widths_of(format);
    record_at(references, i, w.reference_width)
}

// The fields of reference i.
pub fn reference_at(format: Format, references: &[u8], i: usize) -> Reference
    requires { i < (references_in format references.now).count }
    ensures { result ≡ reference_at (references_in format references.now) i }
{
    let w = widths_of(format);
    let reference = reference_record(format, references, i);
    Reference {
        unit: number_at(reference, w.reference_unit, w.number_width),
        component: load::<u8>(reference, 2),
        value: load::<u32>(reference, 4),
    }
}

// Whether the spare byte of reference i is 0.
pub fn reference_spare_fine(format: Format, references: &[u8], i: usize) -> bool
    requires { i < (references_in format references.now).count }
    ensures { result ≡ reference_spare_fine (record_at (reference_width format) references.now i) }
{
    let reference = reference_record(format, references, i);
    let spare = load::<u8>(reference, 3);
    spare == 0
}
