// Units: the reader, and the spare bytes.
ghost use Rattle.std.specs.Prelude.{◌≡◌, ◌≤◌, ◌<◌, length};
ghost use Rattle.casefile.specs.Layout.{unit_width, unit_fields};
ghost use Rattle.casefile.specs.Decode.{record_at, unit_spare_fine};
ghost use Rattle.casefile.specs.StageRead.{unit_at};
ghost use Rattle.casefile.specs.Sections.{units_of};

use crate::case::Case;
use crate::layout::widths_of;
use crate::records::{count_of, number_at, record_at};
use binary::bytes::load;

#[derive(Clone, Copy)]
pub struct Unit {
    pub number: u32,
    pub group: u16,
    pub area: u8,
    pub capability: u32,
    pub rate: u32,
    pub average_price: u32,
    pub constrained_hours: u16,
}

impl<'a> Case<'a> {
    pub fn unit_count(self) -> usize
        ensures { (result ≡ (units_of self.entry).count) × (result ≤ length self.entry.units.now) }
    {
        let w = widths_of(self.format);
        count_of(self.units, w.unit_width)
    }

    // The record of unit i.
    fn unit_record(self, i: usize) -> &'a [u8]
        requires { i < (units_of self).count }
        ensures { (result.now ≡ record_at (unit_width self.entry.format) self.entry.units.now i) × (length result.now ≡ unit_width self.entry.format) × (unit_fields ≤ length result.now) }
    {
        let w = widths_of(self.format);
        record_at(self.units, i, w.unit_width)
    }

    // The fields of unit i.
    pub fn unit_at(self, i: usize) -> Unit
        requires { i < (units_of self).count }
        ensures { result ≡ unit_at (units_of self.entry) i }
    {
        let w = widths_of(self.format);
        let unit = self.unit_record(i);
        Unit {
            number: number_at(unit, w.unit_number, w.number_width),
            group: load::<u16>(unit, 2),
            area: load::<u8>(unit, 4),
            capability: load::<u32>(unit, 8),
            rate: load::<u32>(unit, 12),
            average_price: load::<u32>(unit, 16),
            constrained_hours: load::<u16>(unit, 20),
        }
    }

    // The number of unit i.
    pub fn unit_number(self, i: usize) -> u32
        requires { i < (units_of self).count }
        ensures { result ≡ (units_of self.entry).number i }
    {
        let unit = self.unit_at(i);
        unit.number
    }

    // Whether the spare bytes of unit i are 0.
    pub fn unit_spare_fine(self, i: usize) -> bool
        requires { i < (units_of self).count }
        ensures { result ≡ unit_spare_fine (record_at (unit_width self.entry.format) self.entry.units.now i) }
    {
        let unit = self.unit_record(i);
        let after_area = load::<u8>(unit, 5);
        let before_capability = load::<u16>(unit, 6);
        let last = load::<u16>(unit, 22);
        (after_area == 0) & (before_capability == 0) & (last == 0)
    }
}
