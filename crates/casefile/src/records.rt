// Records of a section. Units, references, events and past entries each add their width, and what they are to the definitions.
ghost use Rattle.std.specs.Prelude.{◌⊎◌, ◌≡◌, ◌+◌, ◌-◌, ◌/◌, ◌≤◌, ◌<◌, length};
ghost use Rattle.binary.specs.Bytes.{value_at};
ghost use Rattle.casefile.specs.Decode.{record_at};

use crate::layout;
use binary::bytes::load;

// How many records of that width there are.
pub fn count_of(records: &[u8], width: usize) -> usize
    requires { 0 < width }
    ensures { result ≡ length records.now / width }
{
    records.len() / width
}

// Record i: that stretch of the section itself.
pub fn record_at(records: &[u8], i: usize, width: usize) -> &[u8]
    requires { i < length records.now / width }
    ensures { (result.now ≡ record_at width records.now i) × (length result.now ≡ width) }
{
    let at = width * i;
    let end = at + width;
    &records[at..end]
}

// A unit's number, at that place of a record: of two bytes or four.
pub fn number_at(source: &[u8], at: usize, width: usize) -> u32
    requires { (at + width ≤ length source.now) × ((width ≡ 2) ⊎ (width ≡ 4)) }
    ensures { result ≡ value_at width source.now at }
{
    if width == layout::OLD_NUMBER_WIDTH {
        return u32::from(load::<u16>(source, at));
    }
    load::<u32>(source, at)
}

// The place before i; the first has none before it, and is its own.
pub fn place_before(i: usize) -> usize
    ensures { result ≡ i - 1 }
{
    i.saturating_sub(1)
}
