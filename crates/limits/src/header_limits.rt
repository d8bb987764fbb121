// The header: limits 1 to 5.
ghost use Rattle.std.specs.Prelude.{◌≡◌, ◌≤◌, ◌<◌, length};
ghost use Rattle.casefile.specs.Layout.{header_width};
ghost use Rattle.limits.specs.Numbers.{number_in};
ghost use Rattle.limits.specs.Refusal.{pairs_fine, sizes_fine, size_fine};
ghost use Rattle.limits.specs.StageRefusal.{header_refusal};

use crate::refusal::Refusal;
use casefile::header::{format_of, length_of, offset_of, sections_of};
use casefile::layout;
use casefile::layout::widths_of;

// Whether the pairs follow on. The sums are of 64 bits, so that none wraps.
fn pairs_fine(file: &[u8]) -> bool
    requires { header_width ≤ length file.now }
    ensures { result ≡ pairs_fine file.now }
{
    let units = offset_of(file, 0) as usize;
    let units_length = length_of(file, 0) as usize;
    let references = offset_of(file, 1) as usize;
    let references_length = length_of(file, 1) as usize;
    let past = offset_of(file, 2) as usize;
    let past_length = length_of(file, 2) as usize;
    let events = offset_of(file, 3) as usize;
    let events_length = length_of(file, 3) as usize;
    (units == layout::HEADER_WIDTH)
        & (references == units + units_length)
        & (past == references + references_length)
        & (events == past + past_length)
        & (file.len() == events + events_length)
}

// Whether n bytes are records of that width, and not too many.
pub fn size_fine(n: usize, width: usize, most: usize) -> bool
    requires { 0 < width }
    ensures { result ≡ size_fine n width most }
{
    (n % width == 0) & (n / width <= most)
}

fn sizes_fine(file: &[u8]) -> bool
    requires { header_width ≤ length file.now }
    ensures { result ≡ sizes_fine file.now }
{
    let units = length_of(file, 0) as usize;
    let references = length_of(file, 1) as usize;
    let past = length_of(file, 2) as usize;
    let events = length_of(file, 3) as usize;
    let w = widths_of(format_of(file));
    size_fine(units, w.unit_width, layout::MOST_UNITS)
        & size_fine(references, w.reference_width, layout::MOST_REFERENCES)
        & size_fine(past, layout::PAST_WIDTH, layout::MOST_PAST)
        & size_fine(events, w.event_width, layout::MOST_EVENTS)
}

// Held to the limits of the header.
pub fn header_refusal(file: &[u8]) -> Result<(), Refusal>
    ensures { number_in result ≡ header_refusal file.now 0 }
{
    if file.len() < layout::HEADER_WIDTH {
        return Err(Refusal::Length);
    }
    if layout::LONGEST_FILE < file.len() {
        return Err(Refusal::Length);
    }
    let version = format_of(file).version;
    let known = (version == layout::FIRST_VERSION) | (version == layout::SECOND_VERSION);
    if !known {
        return Err(Refusal::Version);
    }
    let sections = sections_of(file);
    if sections != layout::SECTION_COUNT {
        return Err(Refusal::SectionCount);
    }
    if !pairs_fine(file) {
        return Err(Refusal::Offsets);
    }
    if !sizes_fine(file) {
        return Err(Refusal::SectionSizes);
    }
    Ok(())
}
