// Arguments on the edge of their range and just past it: first 7, then 10.
use pencil_lines::call_lines;
use std::io;

pub fn reference_refusals(rt: &impl Print) -> io::Result<()> {
    println!(rt; "Refused: 7, a reference out of its component's range")?;
    call_lines::bid(rt, 2, 1000000, 0)?;
    call_lines::bid(rt, 0, 1000001, 0)?;
    call_lines::bid(rt, 1, 1000001, 0)?;
    call_lines::bid(rt, 2, 1000001, 0)?;
    call_lines::bid(rt, 3, 1000000000, 0)?;
    call_lines::bid(rt, 3, 1000000001, 0)?;
    call_lines::bid(rt, 8, 1000000001, 0)?;
    call_lines::bid(rt, 0, 1000001, 1000001)?;
    call_lines::bid(rt, 9, 4000000000, 0)?;
    correct_refusals(rt)
}

fn correct_refusals(rt: &impl Print) -> io::Result<()> {
    call_lines::bid_in_force(rt, 0, 0, 1000001, true)?;
    call_lines::corrected_bid(rt, 3, 0, 1000000001, 0)?;
    call_lines::corrected_bid(rt, 3, 0, 0, 1000000001)?;
    call_lines::make_up(rt, 0, 0, 0, 1000001, 0)?;
    call_lines::make_up(rt, 0, 0, 0, 0, 1000001)
}

pub fn bid_refusals(rt: &impl Print) -> io::Result<()> {
    println!(rt; "Refused: 10, a bid, market, price or hours out of range")?;
    call_lines::bid(rt, 0, 0, 4293967296)?;
    call_lines::bid(rt, 0, 0, 4293967295)?;
    call_lines::bid(rt, 1, 0, 1000001)?;
    call_lines::bid(rt, 2, 0, 4294967295)?;
    call_lines::bid(rt, 2, 0, 1000001)?;
    call_lines::bid(rt, 3, 0, 1000000001)?;
    call_lines::bid(rt, 8, 0, 4294967295)?;
    call_lines::bid(rt, 9, 0, 0)?;
    market_refusals(rt)
}

fn market_refusals(rt: &impl Print) -> io::Result<()> {
    call_lines::bid_in_market(rt, 0, 0, 0, 2, false, 0, 0)?;
    call_lines::bid_in_market(rt, 0, 0, 0, 0, false, 1000001, 0)?;
    call_lines::bid_in_market(rt, 0, 0, 0, 0, false, 0, 8784)?;
    call_lines::bid_in_market(rt, 0, 0, 0, 0, false, 0, 8785)?;
    call_lines::times_fail(rt, 1000000001, 0, 0)?;
    call_lines::times_fail(rt, 0, 1000000001, 0)?;
    call_lines::times_fail(rt, 0, 0, 3294967295)
}

pub fn withheld_refusals(rt: &impl Print) -> io::Result<()> {
    println!(rt; "Refused: 10, withheld and dispatch")?;
    call_lines::withheld_fails(rt, 0, 0, 0, 0, false)?;
    call_lines::withheld_fails(rt, 0, 50001, 0, 0, false)?;
    call_lines::withheld_fails(rt, 5001, 5000, 0, 0, false)?;
    call_lines::withheld_fails(rt, 0, 5000, 3200001, 0, false)?;
    call_lines::withheld_fails(rt, 0, 5000, 0, 3200001, false)?;
    call_lines::dispatch_fails(rt, 50001, 0, 0, false)?;
    call_lines::dispatch_fails(rt, 0, 50001, 0, false)?;
    call_lines::dispatch_fails(rt, 0, 0, 3200001, false)
}

pub fn sanction_refusals(rt: &impl Print) -> io::Result<()> {
    println!(rt; "Refused: 10, sanctions")?;
    call_lines::multiplier(rt, 456, 456)?;
    call_lines::multiplier(rt, 457, 1)?;
    call_lines::multiplier(rt, 0, 0)?;
    call_lines::multiplier(rt, 1, 0)?;
    call_lines::multiplier(rt, 3, 4)?;
    megawatts(rt)?;
    prices(rt)?;
    hours(rt)?;
    revenues(rt)
}

fn megawatts(rt: &impl Print) -> io::Result<()> {
    call_lines::withheld_penalty(rt, 3, &[1], &[1])?;
    call_lines::withheld_penalty(rt, 2, &[50001], &[0])
}

fn prices(rt: &impl Print) -> io::Result<()> {
    call_lines::withheld_penalty(rt, 2, &[1], &[1000001])?;
    call_lines::withheld_penalty(rt, 2, &[1], &[4293967295])
}

fn hours(rt: &impl Print) -> io::Result<()> {
    call_lines::withheld_penalty(rt, 2, &[1, 1], &[1])?;
    call_lines::withheld_penalty(rt, 2, &[0; 25], &[0; 25])
}

fn revenues(rt: &impl Print) -> io::Result<()> {
    call_lines::dispatch_penalty(rt, &[100000001])?;
    call_lines::dispatch_penalty(rt, &[0; 25])
}

pub fn fuel_refusals(rt: &impl Print) -> io::Result<()> {
    println!(rt; "Refused: 10, fuel and windows")?;
    call_lines::fuel_penalty(rt, 100000000000000, 64000000000, 3)?;
    call_lines::fuel_penalty(rt, 100000000000001, 0, 2)?;
    call_lines::fuel_penalty(rt, 18446644073709551615, 0, 2)?;
    call_lines::fuel_penalty(rt, 0, 64000000001, 2)?;
    call_lines::fuel_penalty(rt, 0, 0, 1)?;
    call_lines::fuel_penalty(rt, 0, 0, 4)?;
    call_lines::fuel_day_counts(rt, 36525, 36524)?;
    call_lines::fuel_day_counts(rt, 36524, 36525)?;
    call_lines::period_of(rt, 36525)?;
    call_lines::period_counts(rt, 0, 44, 44)?;
    call_lines::period_counts(rt, 3, 44, 44)
}

pub fn default_bid_refusals(rt: &impl Print) -> io::Result<()> {
    println!(rt; "Refused: 10, mitigated hours, bids in force and make-up")?;
    call_lines::mitigated_span(rt, 16777216, 0)?;
    call_lines::mitigated_span(rt, 1, 25)?;
    call_lines::bid_in_force(rt, 9, 0, 4000000000, true)?;
    call_lines::bid_in_force(rt, 0, 1000001, 0, true)?;
    call_lines::corrected_bid(rt, 9, 0, 4000000000, 4000000000)?;
    call_lines::corrected_bid(rt, 1, 1000001, 0, 0)?;
    call_lines::corrected_bid_in_market(rt, 2, 0, 0)?;
    call_lines::corrected_bid_in_market(rt, 0, 1000001, 0)?;
    call_lines::corrected_bid_in_market(rt, 0, 0, 8785)?;
    call_lines::make_up(rt, 1000001, 0, 0, 0, 0)?;
    call_lines::make_up(rt, 0, 4293967295, 0, 0, 0)?;
    call_lines::make_up(rt, 0, 0, 50001, 0, 0)
}
