// The numbers of the layout, as specs/Layout has them: what the versions of the file share, and then what a version decides.
ghost use Rattle.std.specs.Prelude.{◌≡◌};
ghost use Rattle.casefile.specs.Layout.{widths_of, old_numbers, Fits};

use tariff::ranges;

pub const FIRST_VERSION: u16 = 1;

pub const SECOND_VERSION: u16 = 2;

pub const SECTION_COUNT: u16 = 4;

pub const HEADER_WIDTH: usize = 36;

pub const LONGEST_FILE: usize = 65000;

pub const PAST_WIDTH: usize = 12;

pub const CELLS_OFFSET: usize = 24;

pub const CELL_WIDTH: usize = 12;

// The most hours of a day: an event has a cell for each.
pub const HOURS: usize = ranges::HOURS;

pub const MASK_LIMIT: u32 = ranges::MASK_LIMIT;

pub const MOST_UNITS: usize = 64;

pub const MOST_REFERENCES: usize = 256;

pub const MOST_PAST: usize = 256;

pub const MOST_EVENTS: usize = 200;

pub const BIDS_OFFSET: usize = 32;

pub const ROW_WIDTH: usize = BIDS_OFFSET + 4 * HOURS;

// Rows for every case, as limits' specs/Refusal has them (most_rows).
pub const MOST_ROWS: usize = ROW_WIDTH * MOST_EVENTS;

// The highest number of a unit in version 2, of six digits.
pub const HIGHEST_NUMBER: u64 = 999_999;

// Above every number of a unit.
pub const NUMBER_LIMIT: u64 = 1_048_576;

// The widths of a unit, a reference and an event in version 1.
pub const UNIT_WIDTH: usize = 24;

pub const REFERENCE_WIDTH: usize = 8;

pub const EVENT_WIDTH: usize = 312;

// Where version 1 has a unit's number in each, and its width.
pub const UNIT_NUMBER: usize = 0;

pub const REFERENCE_UNIT: usize = 0;

pub const EVENT_UNIT: usize = 2;

pub const OLD_NUMBER_WIDTH: usize = 2;

// In version 2 the unit's number follows.
pub const NUMBER_WIDTH: usize = 4;

pub const SECOND_UNIT_WIDTH: usize = UNIT_WIDTH + NUMBER_WIDTH;

pub const SECOND_REFERENCE_WIDTH: usize = REFERENCE_WIDTH + NUMBER_WIDTH;

pub const SECOND_EVENT_WIDTH: usize = EVENT_WIDTH + NUMBER_WIDTH;

// What a file says of its own layout. A number, since widths_of reads each unknown version as the first.
#[derive(Clone, Copy)]
pub struct Format {
    pub version: u16,
}

// The widths of the records, and where a unit's number stands in each, with its width.
#[derive(Clone, Copy)]
pub struct Widths {
    pub unit_width: usize,
    pub unit_number: usize,
    pub reference_width: usize,
    pub reference_unit: usize,
    pub event_width: usize,
    pub event_unit: usize,
    pub number_width: usize,
}

// The widths of a format: an unknown version, which limit 2 refuses, is read as the first.
pub fn widths_of(format: Format) -> Widths
    ensures { (result ≡ widths_of format) × Fits result }
{
    if format.version == SECOND_VERSION {
        return Widths {
            unit_width: SECOND_UNIT_WIDTH,
            unit_number: UNIT_WIDTH,
            reference_width: SECOND_REFERENCE_WIDTH,
            reference_unit: REFERENCE_WIDTH,
            event_width: SECOND_EVENT_WIDTH,
            event_unit: EVENT_WIDTH,
            number_width: NUMBER_WIDTH,
        };
    }
    Widths {
        unit_width: UNIT_WIDTH,
        unit_number: UNIT_NUMBER,
        reference_width: REFERENCE_WIDTH,
        reference_unit: REFERENCE_UNIT,
        event_width: EVENT_WIDTH,
        event_unit: EVENT_UNIT,
        number_width: OLD_NUMBER_WIDTH,
    }
}

// Whether a unit's number stands in the two bytes of version 1.
pub fn old_numbers(format: Format) -> bool
    ensures { result ≡ old_numbers format }
{
    let w = widths_of(format);
    w.number_width == OLD_NUMBER_WIDTH
}
