// The smaller calls of mitigated hours, bids in force and make-up: first 7 for a reference out of its component's range, then 10
// for any other argument.
ghost use Rattle.std.specs.Prelude.{◌≡◌};
ghost use Rattle.calls.specs.Answers.{figure_of};
ghost use Rattle.bid_calls.specs.DefaultBidCalls.{span_answer, in_force_answer, corrected_in_force_answer, make_up_answer};

use binary::numbers::choose;
use binary::words::Word;
use calls::answers::{Refusal, refuse_if};
use calls::out_of_range::{bad_bid, bad_reference, bad_unit};
use tariff::{conduct_tests, default_bid_rules, ranges};

// The mitigated hours of component 1 Day-Ahead as a mask, from the hours hit and the minimum run.
pub fn mitigated_span(hits: u32, run: u32) -> Result<u64, Refusal>
    ensures { result ≡ figure_of (span_answer hits run) }
{
    let ten = (ranges::MASK_LIMIT <= hits) | (ranges::MOST_RUN_HOURS < run);
    refuse_if(ten, Refusal::ARGUMENT)?;
    let mask = default_bid_rules::span_mask(hits, run, ranges::HOURS);
    Ok(u64::from(mask))
}

// The bid in force, as its word.
pub fn bid_in_force(
    component: u8,
    bid: u32,
    reference: u32,
    mitigated: bool,
) -> Result<u64, Refusal>
    ensures { result ≡ figure_of (in_force_answer component bid reference mitigated) }
{
    refuse_if(bad_reference(component, reference), Refusal::REFERENCE)?;
    refuse_if(bad_bid(component, bid), Refusal::ARGUMENT)?;
    let word = default_bid_rules::in_force(component, bid, reference, mitigated);
    Ok(u64::from(word))
}

// The bid in force where the correct reference is another, as its word.
pub fn corrected_bid_in_force(
    component: u8,
    bid: u32,
    reference: u32,
    correct: u32,
    market: u8,
    tight: bool,
    average_price: u32,
    constrained_hours: u16,
    mitigated: bool,
) -> Result<u64, Refusal>
    ensures { result ≡ figure_of (corrected_in_force_answer component bid reference correct market tight average_price constrained_hours mitigated) }
{
    let own = bad_reference(component, reference);
    let other = bad_reference(component, correct);
    let range = bad_bid(component, bid);
    let unit = bad_unit(market, average_price, constrained_hours);
    refuse_if(own | other, Refusal::REFERENCE)?;
    refuse_if(range | unit, Refusal::ARGUMENT)?;
    let fails = conduct_tests::bid_test(
        component,
        correct,
        bid,
        market,
        tight,
        average_price,
        constrained_hours,
        0,
    );
    let corrected = default_bid_rules::corrected_bid(component, bid, reference, correct, fails);
    let word = choose(mitigated, corrected, bid);
    Ok(u64::from(word))
}

// One mitigated hour's make-up payment of component 0, in cents.
pub fn make_up(
    bid: u32,
    price: u32,
    megawatts: u32,
    reference: u32,
    correct: u32,
) -> Result<u64, Refusal>
    ensures { result ≡ figure_of (make_up_answer bid price megawatts reference correct) }
{
    let own = bad_reference(0, reference);
    let other = bad_reference(0, correct);
    let range = bad_bid(0, bid);
    let priced = price.is_within(ranges::HIGHEST_PRICE);
    let ten = range | !priced | (ranges::HIGHEST_MEGAWATTS < megawatts);
    refuse_if(own | other, Refusal::REFERENCE)?;
    refuse_if(ten, Refusal::ARGUMENT)?;
    let tenths = default_bid_rules::hour_make_up(bid, price, megawatts, correct);
    Ok(default_bid_rules::make_up(reference, correct, tenths))
}
