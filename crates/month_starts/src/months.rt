// The lengths of months, and their starts.
ghost use Rattle.std.specs.Prelude.{◌≤◌};

use std::io;

// By fours, not by hundreds, but by four hundreds.
fn is_leap(year: u32) -> bool {
    ((year % 4 == 0) & (year % 100 != 0)) | (year % 400 == 0)
}

// The days of a month; January is 1.
fn days_in(year: u32, month: u32) -> u64
    ensures { result ≤ 31 }
{
    if month == 2 {
        if is_leap(year) {
            return 29;
        }
        return 28;
    }
    if (month == 4) | (month == 6) | (month == 9) | (month == 11) {
        return 30;
    }
    31
}

fn print_line(rt: &impl Print, start: u64) -> io::Result<()> {
    println!(rt; "{start}")
}

pub fn print_starts(rt: &impl Print) -> io::Result<()> {
    let mut start: u64 = 0;
    for month in 0..1200 {
        print_line(rt, start)?;
        start += days_in(2000 + month / 12, month % 12 + 1);
    }
    Ok(())
}
