// One line of the table for each small public call: the arguments, and the answer.
use crate::print::{Answer, Counts, Fails, Hours, Numbers, Times, Where};
use bid_calls::default_bid_calls;
use penalty_calls::sanction_calls;
use std::io;
use test_calls::conduct_calls;

// A bid, from its word of 64 bits.
fn signed(word: u64) -> i64 {
    i64::from(((word % 4294967296) as u32).cast_signed())
}

// Day-Ahead, not tight.
pub fn bid(rt: &impl Print, component: u8, reference: u32, bid: u32) -> io::Result<()> {
    let fails = conduct_calls::bid_fails(component, reference, bid, 0, false, 0, 0);
    println!(rt;
        "  component {component}, r {reference}, bid {}: {}",
        bid.cast_signed(),
        Answer(fails.map(Fails))
    )
}

pub fn bid_in_market(
    rt: &impl Print,
    component: u8,
    reference: u32,
    bid: u32,
    market: u8,
    tight: bool,
    average_price: u32,
    constrained_hours: u16,
) -> io::Result<()> {
    let fails = conduct_calls::bid_fails(
        component,
        reference,
        bid,
        market,
        tight,
        average_price,
        constrained_hours,
    );
    println!(rt;
        "  component {component}, r {reference}, bid {}, market {market}{}, Average Price {average_price}, H {constrained_hours}: {}",
        bid.cast_signed(),
        Where(tight, "tight"),
        Answer(fails.map(Fails))
    )
}

pub fn times_fail(
    rt: &impl Print,
    start_up: u32,
    minimum_run: u32,
    minimum_down: u32,
) -> io::Result<()> {
    let times = conduct_calls::times_fail(start_up, minimum_run, minimum_down);
    println!(rt;
        "  increases {}, {}, {}: {}",
        start_up.cast_signed(),
        minimum_run.cast_signed(),
        minimum_down.cast_signed(),
        Answer(times.map(Times))
    )
}

pub fn withheld_fails(
    rt: &impl Print,
    a: u32,
    capability: u32,
    s: u32,
    g: u32,
    tight: bool,
) -> io::Result<()> {
    let fails = conduct_calls::withheld_fails(a, capability, s, g, tight);
    println!(rt;
        "  withheld {a} of {capability}, S {s}, G {g}{}: {}",
        Where(tight, "tight"),
        Answer(fails.map(Fails))
    )
}

pub fn dispatch_fails(rt: &impl Print, a: u32, rate: u32, s: u32, tight: bool) -> io::Result<()> {
    let fails = conduct_calls::dispatch_fails(a, rate, s, tight);
    println!(rt;
        "  undelivered {a}, response rate {rate}, S {s}{}: {}",
        Where(tight, "tight"),
        Answer(fails.map(Fails))
    )
}

pub fn multiplier(rt: &impl Print, n3: u32, n2: u32) -> io::Result<()> {
    println!(rt;
        "  N3 {n3}, N2 {n2}: {}",
        Answer(sanction_calls::multiplier(n3, n2))
    )
}

pub fn withheld_penalty(rt: &impl Print, multiplier: u8, a: &[u32], b: &[u32]) -> io::Result<()> {
    println!(rt;
        "  withheld, multiplier {multiplier}, a{}, b{}: {}",
        Numbers(a),
        Numbers(b),
        Answer(sanction_calls::withheld_penalty(multiplier, a, b))
    )
}

pub fn dispatch_penalty(rt: &impl Print, b: &[u32]) -> io::Result<()> {
    println!(rt;
        "  dispatch, b{}: {}",
        Numbers(b),
        Answer(sanction_calls::dispatch_penalty(b))
    )
}

// e is the signed word of E.
pub fn fuel_penalty(rt: &impl Print, e: u64, t: u64, m: u8) -> io::Result<()> {
    println!(rt;
        "  fuel, E {}, T {t}, M {m}: {}",
        e.cast_signed(),
        Answer(sanction_calls::fuel_penalty(e, t, m))
    )
}

pub fn fuel_day_counts(rt: &impl Print, d: u32, e: u32) -> io::Result<()> {
    let counts = sanction_calls::fuel_day_counts(d, e);
    println!(rt;
        "  fuel day {d}, earlier day {e}: {}",
        Answer(counts.map(Counts))
    )
}

pub fn period_of(rt: &impl Print, day: u32) -> io::Result<()> {
    println!(rt;
        "  period of day {day}: {}",
        Answer(sanction_calls::period_of(day))
    )
}

pub fn period_counts(rt: &impl Print, k: u8, own: u16, period: u16) -> io::Result<()> {
    let counts = sanction_calls::period_counts(k, own, period);
    println!(rt;
        "  own period {own} and {k} before, period {period}: {}",
        Answer(counts.map(Counts))
    )
}

pub fn mitigated_span(rt: &impl Print, hits: u32, run: u32) -> io::Result<()> {
    print!(rt; "  hours{}, R {run}:", Hours(hits))?;
    match default_bid_calls::mitigated_span(hits, run) {
        Ok(mask) => println!(rt; "{}", Hours((mask % 4294967296) as u32)),
        Err(refusal) => println!(rt; " {refusal}"),
    }
}

pub fn bid_in_force(
    rt: &impl Print,
    component: u8,
    bid: u32,
    reference: u32,
    mitigated: bool,
) -> io::Result<()> {
    let in_force = default_bid_calls::bid_in_force(component, bid, reference, mitigated);
    println!(rt;
        "  component {component}, bid {}, r {reference}{}: {}",
        bid.cast_signed(),
        Where(mitigated, "mitigated"),
        Answer(in_force.map(signed))
    )
}

// A mitigated hour, Day-Ahead, not tight.
pub fn corrected_bid(
    rt: &impl Print,
    component: u8,
    bid: u32,
    reference: u32,
    correct: u32,
) -> io::Result<()> {
    let in_force = default_bid_calls::corrected_bid_in_force(
        component, bid, reference, correct, 0, false, 0, 0, true,
    );
    println!(rt;
        "  component {component}, bid {}, r {reference}, c {correct}: {}",
        bid.cast_signed(),
        Answer(in_force.map(signed))
    )
}

// Component 1, a mitigated hour of a bid of 0.
pub fn corrected_bid_in_market(
    rt: &impl Print,
    market: u8,
    average_price: u32,
    constrained_hours: u16,
) -> io::Result<()> {
    let in_force = default_bid_calls::corrected_bid_in_force(
        1,
        0,
        0,
        0,
        market,
        false,
        average_price,
        constrained_hours,
        true,
    );
    println!(rt;
        "  corrected, market {market}, Average Price {average_price}, H {constrained_hours}: {}",
        Answer(in_force.map(signed))
    )
}

pub fn make_up(
    rt: &impl Print,
    bid: u32,
    price: u32,
    megawatts: u32,
    reference: u32,
    correct: u32,
) -> io::Result<()> {
    println!(rt;
        "  make-up, bid {}, price {}, m {megawatts}, r {reference}, c {correct}: {}",
        bid.cast_signed(),
        price.cast_signed(),
        Answer(default_bid_calls::make_up(bid, price, megawatts, reference, correct))
    )
}
