// Six months back from a day, and the capability period that it is in.
ghost use Rattle.std.specs.Prelude.{◌≡◌, ◌+◌, ◌<◌};
ghost use Rattle.calendar.specs.Months.{most_months, calendar_days};
ghost use Rattle.calendar.specs.StageTable.{HasStarts};
ghost use Rattle.calendar.specs.Periods.{day_within, window_start, in_window, period_of, has_period};

use crate::months::month_of;
use crate::table::{DAYS, MONTHS, month_start, month_starts};
use binary::numbers::choose;

// Day x of month k, or the month's last where it has no such day; the first is 0.
fn day_within(starts: &[u16; MONTHS], k: usize, x: u32) -> u32
    requires { (k + 1 < most_months) × HasStarts starts.now }
    ensures { result ≡ day_within k x }
{
    let first = month_start(starts, k);
    let last = month_start(starts, k + 1) - first - 1;
    first + choose(x <= last, x, last)
}

// The same day of the month six months earlier, or day 0 where that is before 2000.
pub fn window_start(day: u32) -> u32
    requires { day < calendar_days }
    ensures { result ≡ window_start day }
{
    let starts = month_starts();
    let month = month_of(&starts, day);
    if month < 6 {
        return 0;
    }
    day_within(&starts, month - 6, day - month_start(&starts, month))
}

// Whether day e is before day d and not before the first day of its window.
pub fn in_window(first: u32, d: u32, e: u32) -> bool
    ensures { result ≡ in_window first d e }
{
    (e < d) & (first <= e)
}

// In quarters of a day: a year, its Summer, and the time from 1 May 1999 to day 0. Four years from May to May have 1,461 days, and the first has
// the leap day, so that year y begins with the first day from y times as many quarters on. The 184 days of Summer come first.
const YEAR: u32 = 1461;

const SUMMER: u32 = 736;

const BEFORE: u32 = 980;

// The half years from 1 May 1999 that have begun by a day of the calendar.
fn half_years(day: u32) -> u32
    requires { day < calendar_days }
    ensures { result ≡ period_of day + 1 }
{
    let quarters = 4 * day + BEFORE;
    let begun = 2 * (quarters / YEAR);
    if quarters % YEAR < SUMMER {
        return begun;
    }
    begun + 1
}

// The capability period of a day of the calendar.
pub fn period_of(day: u32) -> u16
    requires { day < calendar_days }
    ensures { result ≡ period_of day }
{
    (half_years(day) - 1) as u16
}

// Whether a day is in the calendar and its period is this one.
pub fn has_period(day: u32, period: u16) -> bool
    ensures { result ≡ has_period day period }
{
    if DAYS <= day {
        return false;
    }
    half_years(day) == period as u32 + 1
}
