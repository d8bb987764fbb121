// The smaller calls of the conduct tests: first 7 for a reference out of its component's range, then 10 for any other argument.
ghost use Rattle.std.specs.Prelude.{◌≡◌};
ghost use Rattle.binary.specs.Word.{positive_part};
ghost use Rattle.tariff.specs.Threshold.{threshold_of};
ghost use Rattle.tariff.specs.ConductTests.{time_test};
ghost use Rattle.calls.specs.Answers.{verdict_of, times_of};
ghost use Rattle.test_calls.specs.ConductCalls.{increase_total, bid_answer, times_answer, withheld_answer, dispatch_answer};

use binary::words::Word;
use calls::answers::{Refusal, TimesFailed, refuse_if};
use calls::out_of_range::{bad_bid, bad_reference, bad_unit};
use tariff::threshold::Threshold;
use tariff::{conduct_tests, ranges};

// Whether a bid fails the conduct test of its component (4 to 6: the single test).
pub fn bid_fails(
    component: u8,
    reference: u32,
    bid: u32,
    market: u8,
    tight: bool,
    average_price: u32,
    constrained_hours: u16,
) -> Result<bool, Refusal>
    ensures { result ≡ verdict_of (bid_answer component reference bid market tight average_price constrained_hours) }
{
    let level = bad_reference(component, reference);
    let range = bad_bid(component, bid);
    let unit = bad_unit(market, average_price, constrained_hours);
    refuse_if(level, Refusal::REFERENCE)?;
    refuse_if(range | unit, Refusal::ARGUMENT)?;
    Ok(conduct_tests::bid_test(
        component,
        reference,
        bid,
        market,
        tight,
        average_price,
        constrained_hours,
        0,
    ))
}

// The sum of the positive ones of three increases.
fn time_total(x: u32, y: u32, z: u32) -> u64
    ensures { result ≡ increase_total x y z }
{
    let a = x.positive_part();
    let b = y.positive_part();
    let c = z.positive_part();
    (a as u64) + (b as u64) + (c as u64)
}

// Whether one time increase fails, beside the total of the three.
fn time_fails(component: u8, increase: u32, total: u64) -> bool
    ensures { result ≡ time_test (threshold_of component) (positive_part 32 increase) total }
{
    let d = increase.positive_part();
    conduct_tests::time_test(Threshold::of(component), d, total)
}

// Which of the increases of start-up, minimum run and minimum down time of one hour fail.
pub fn times_fail(
    start_up: u32,
    minimum_run: u32,
    minimum_down: u32,
) -> Result<TimesFailed, Refusal>
    ensures { result ≡ times_of (times_answer start_up minimum_run minimum_down) }
{
    let x = start_up.is_within(ranges::HIGHEST_INCREASE);
    let y = minimum_run.is_within(ranges::HIGHEST_INCREASE);
    let z = minimum_down.is_within(ranges::HIGHEST_INCREASE);
    refuse_if(!x | !y | !z, Refusal::ARGUMENT)?;
    let total = time_total(start_up, minimum_run, minimum_down);
    Ok(TimesFailed {
        start_up: time_fails(4, start_up, total),
        minimum_run: time_fails(5, minimum_run, total),
        minimum_down: time_fails(6, minimum_down, total),
    })
}

// Whether withheld megawatts fail the conduct test; s is the group's sum and g its listed capability.
pub fn withheld_fails(a: u32, capability: u32, s: u32, g: u32, tight: bool) -> Result<bool, Refusal>
    ensures { result ≡ verdict_of (withheld_answer a capability s g tight) }
{
    let ten = (capability < ranges::LOWEST_CAPABILITY)
        | (ranges::HIGHEST_CAPABILITY < capability)
        | (capability < a)
        | (ranges::HIGHEST_GROUP_SUM < s)
        | (ranges::HIGHEST_GROUP_SUM < g);
    refuse_if(ten, Refusal::ARGUMENT)?;
    Ok(conduct_tests::withheld_test(a, capability, s as u64, g as u64, tight))
}

// Whether undelivered megawatts fail the conduct test; rate is the unit's response rate.
#[tactic(auto, using(calls::proofs::AnswerLaws::ok_if, calls::proofs::AnswerLaws::verdict_given), unfolding(crate::specs::ConductCalls::dispatch_answer, calls::specs::Answers::answer, calls::specs::Answers::verdict_of, calls::specs::Answers::bit))]
pub fn dispatch_fails(a: u32, rate: u32, s: u32, tight: bool) -> Result<bool, Refusal>
    ensures { result ≡ verdict_of (dispatch_answer a rate s tight) }
{
    let ten = (ranges::HIGHEST_CAPABILITY < a)
        | (ranges::HIGHEST_RATE < rate)
        | (ranges::HIGHEST_GROUP_SUM < s);
    refuse_if(ten, Refusal::ARGUMENT)?;
    Ok(conduct_tests::dispatch_test(a, rate, s as u64, tight))
}
