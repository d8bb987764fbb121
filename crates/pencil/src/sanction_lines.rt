// Pencil lines of multipliers, penalties and windows.
use pencil_lines::call_lines;
use std::io;

pub fn penalties(rt: &impl Print) -> io::Result<()> {
    println!(rt; "Multipliers in halves, penalties in cents")?;
    call_lines::multiplier(rt, 4, 3)?;
    call_lines::multiplier(rt, 4, 4)?;
    call_lines::multiplier(rt, 2, 2)?;
    one_hour(rt)?;
    two_hours(rt)?;
    revenues(rt)?;
    fuel(rt)
}

fn one_hour(rt: &impl Print) -> io::Result<()> {
    call_lines::withheld_penalty(rt, 2, &[501], &[4005])?;
    call_lines::withheld_penalty(rt, 2, &[501], &[4294967196])
}

fn two_hours(rt: &impl Print) -> io::Result<()> {
    call_lines::withheld_penalty(rt, 2, &[501, 501], &[4005, 4294963291])?;
    call_lines::withheld_penalty(rt, 2, &[1, 1], &[5, 5])
}

fn revenues(rt: &impl Print) -> io::Result<()> {
    call_lines::dispatch_penalty(rt, &[1, 1])?;
    call_lines::dispatch_penalty(rt, &[1])
}

fn fuel(rt: &impl Print) -> io::Result<()> {
    call_lines::fuel_penalty(rt, 5000000, 0, 2)?;
    call_lines::fuel_penalty(rt, 4999990, 0, 2)?;
    call_lines::fuel_penalty(rt, 4999990, 0, 3)?;
    call_lines::fuel_penalty(rt, 3333333, 0, 3)?;
    call_lines::fuel_penalty(rt, 18446744073699551616, 2000000, 2)?;
    call_lines::fuel_penalty(rt, 18446744073699551616, 2000000, 3)
}

pub fn windows(rt: &impl Print) -> io::Result<()> {
    println!(rt; "Windows")?;
    // 1 September 2021, and 1 March and the day before
    call_lines::fuel_day_counts(rt, 7914, 7730)?;
    call_lines::fuel_day_counts(rt, 7914, 7729)?;
    // 31 and 28 August 2001, and 28 and 26 February
    call_lines::fuel_day_counts(rt, 608, 424)?;
    call_lines::fuel_day_counts(rt, 605, 424)?;
    call_lines::fuel_day_counts(rt, 605, 422)?;
    // 31 August 2004, and 29 and 28 February
    call_lines::fuel_day_counts(rt, 1704, 1520)?;
    call_lines::fuel_day_counts(rt, 1704, 1519)?;
    // 30 June 2000: the calendar's first day cuts its window
    call_lines::fuel_day_counts(rt, 181, 0)?;
    call_lines::fuel_day_counts(rt, 0, 0)?;
    // 30 April and 1 May 2000, 31 October and 1 November, and 31 December 2099
    call_lines::period_of(rt, 120)?;
    call_lines::period_of(rt, 121)?;
    call_lines::period_of(rt, 304)?;
    call_lines::period_of(rt, 305)?;
    call_lines::period_of(rt, 36524)?;
    call_lines::period_counts(rt, 2, 44, 42)?;
    call_lines::period_counts(rt, 2, 44, 41)?;
    call_lines::period_counts(rt, 1, 44, 43)?;
    call_lines::period_counts(rt, 1, 44, 42)?;
    call_lines::period_counts(rt, 1, 44, 45)
}
