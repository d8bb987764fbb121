// Pencil lines of the conduct tests.
use pencil_lines::call_lines;
use std::io;

pub fn withheld(rt: &impl Print) -> io::Result<()> {
    println!(rt; "Withheld and dispatch")?;
    call_lines::withheld_fails(rt, 500, 5000, 500, 20000, false)?;
    call_lines::withheld_fails(rt, 501, 5000, 501, 20000, false)?;
    call_lines::withheld_fails(rt, 1000, 50000, 1000, 50000, false)?;
    call_lines::withheld_fails(rt, 1000, 50000, 1000, 50000, true)?;
    call_lines::withheld_fails(rt, 0, 5000, 2001, 50000, false)?;
    call_lines::dispatch_fails(rt, 450, 30, 450, false)?;
    call_lines::dispatch_fails(rt, 451, 30, 451, false)?;
    call_lines::dispatch_fails(rt, 0, 30, 1001, true)
}

pub fn bids(rt: &impl Print) -> io::Result<()> {
    println!(rt; "Bids")?;
    call_lines::bid(rt, 0, 625, 2500)?;
    call_lines::bid(rt, 0, 624, 2500)?;
    call_lines::bid(rt, 0, 5000, 15000)?;
    call_lines::bid(rt, 0, 5000, 15001)?;
    call_lines::bid_in_market(rt, 0, 2000, 2876, 1, true, 5000, 1000)?;
    call_lines::bid_in_market(rt, 0, 2000, 2877, 1, true, 5000, 1000)?;
    other_bids(rt)
}

fn other_bids(rt: &impl Print) -> io::Result<()> {
    call_lines::bid(rt, 2, 0, 499)?;
    call_lines::bid(rt, 2, 0, 500)?;
    call_lines::bid(rt, 3, 1000, 3000)?;
    call_lines::bid(rt, 3, 1000, 3001)?;
    call_lines::bid(rt, 5, 60, 240)?;
    call_lines::bid(rt, 5, 60, 241)?;
    call_lines::bid(rt, 7, 100, 200)?;
    call_lines::bid(rt, 7, 100, 201)?;
    call_lines::bid(rt, 8, 100, 50)?;
    call_lines::bid(rt, 8, 100, 49)
}

pub fn times(rt: &impl Print) -> io::Result<()> {
    println!(rt; "Time increases together: start-up, minimum run, minimum down")?;
    call_lines::times_fail(rt, 120, 120, 120)?;
    call_lines::times_fail(rt, 121, 120, 120)?;
    call_lines::times_fail(rt, 181, 0, 4294967236)?;
    call_lines::times_fail(rt, 360, 1, 0)
}
