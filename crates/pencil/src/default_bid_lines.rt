// Pencil lines of mitigated hours, bids in force and make-up.
use pencil_lines::call_lines;
use std::io;

pub fn spans(rt: &impl Print) -> io::Result<()> {
    println!(rt; "Mitigated hours of component 1 Day-Ahead")?;
    call_lines::mitigated_span(rt, 1024, 8)?;
    call_lines::mitigated_span(rt, 1056, 8)?;
    call_lines::mitigated_span(rt, 1048576, 24)?;
    call_lines::mitigated_span(rt, 1, 0)?;
    call_lines::mitigated_span(rt, 0, 8)
}

pub fn in_force(rt: &impl Print) -> io::Result<()> {
    println!(rt; "Bids in force and make-up")?;
    call_lines::bid_in_force(rt, 0, 15001, 5000, false)?;
    call_lines::bid_in_force(rt, 0, 15001, 5000, true)?;
    call_lines::bid_in_force(rt, 0, 4294967196, 5000, true)?;
    call_lines::bid_in_force(rt, 8, 49, 100, true)?;
    call_lines::corrected_bid(rt, 1, 15000, 1000, 5000)?;
    call_lines::corrected_bid(rt, 1, 15001, 1000, 5000)?;
    call_lines::corrected_bid(rt, 0, 15000, 1000, 5000)?;
    call_lines::corrected_bid(rt, 1, 15000, 5000, 5000)?;
    call_lines::make_up(rt, 6000, 5000, 1000, 5500, 7000)?;
    call_lines::make_up(rt, 6000, 5000, 1000, 7000, 7000)?;
    call_lines::make_up(rt, 4000, 5000, 1000, 5500, 7000)
}
