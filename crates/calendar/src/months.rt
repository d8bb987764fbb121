// The month that a day is in, found by halving the table.
ghost use Rattle.std.specs.Prelude.{◌≡◌, ◌<◌, leb};
ghost use Rattle.calendar.specs.Months.{most_months, calendar_days, month_of};
ghost use Rattle.calendar.specs.StageTable.{HasStarts};

use crate::table::MONTHS;

// The month of a day of the calendar, counted from January 2000.
pub fn month_of(starts: &[u16; MONTHS], day: u32) -> usize
    requires { (day < calendar_days) × HasStarts starts.now }
    ensures { (result ≡ month_of day) × (result < most_months) }
{
    let begun = starts.partition_point(
        |start: &u16| -> bool
            ensures { result ≡ leb start.now day }
        { u32::from(*start) <= day },
    );
    begun - 1
}
