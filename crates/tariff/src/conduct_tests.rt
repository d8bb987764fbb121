// The conduct tests (tariff 23.3.1).
ghost use Rattle.std.specs.Prelude.{◌≡◌, ◌≤◌};
ghost use Rattle.tariff.specs.StageSums.{highest_sum};
ghost use Rattle.tariff.specs.Threshold.{threshold_of};
ghost use Rattle.tariff.specs.ConductTests.{increase, lower_test, constrained_test, percent_test, time_test, maximum_test, bid_test, unit_limit, group_limit, withheld_test, dispatch_test};

use crate::threshold::Threshold;
use binary::numbers::{choose, product};
use binary::words::Word;

// The numbers of the tests, as specs/ConductTests has them.
pub const WHOLE: u64 = 100;

pub const HOUR_TENTHS: u64 = 10;

pub const YEAR_SHARE: u64 = 1752;

pub const TIME_LIMIT: u64 = 360;

pub const UNIT_SHARE: u64 = 10;

pub const GROUP_SHARE: u64 = 20;

pub const RESPONSE_MINUTES: u64 = 15;

// d = a - r, or 0 if negative.
pub fn increase(reference: u32, bid: u32) -> u32
    ensures { result ≡ increase reference bid }
{
    bid.positive_part().saturating_sub(reference)
}

// Components 0 to 2.
fn lower_test(t: Threshold, reference: u32, bid: u32) -> bool
    ensures { result ≡ lower_test t reference bid }
{
    let percent = t.percent;
    let step = t.step;
    let floor = t.floor;
    let a = bid.positive_part();
    let d = increase(reference, bid);
    let lower = product(percent, reference).min(WHOLE * (step as u64));
    (floor <= a) & (lower < WHOLE * (d as u64))
}

// Components 0 and 1 in Real-Time.
fn constrained_test(
    d: u32,
    market: u8,
    tight: bool,
    average_price: u32,
    constrained_hours: u16,
) -> bool
    ensures { result ≡ constrained_test d market tight average_price constrained_hours }
{
    let left = HOUR_TENTHS * ((d as u64) * (constrained_hours as u64));
    let right = YEAR_SHARE * (average_price as u64);
    (market == 1) & tight & (1 <= constrained_hours) & (right < left)
}

// Components 3 and 7.
fn percent_test(t: Threshold, reference: u32, d: u32) -> bool
    ensures { result ≡ percent_test t reference d }
{
    let percent = t.percent;
    product(percent, reference) < WHOLE * (d as u64)
}

// Components 4 to 6; total is the sum of the positive increases of the three.
pub fn time_test(t: Threshold, d: u32, total: u64) -> bool
    ensures { result ≡ time_test t d total }
{
    let step = t.step;
    (step < d) | ((0 < d) & (TIME_LIMIT < total))
}

// Component 8.
fn maximum_test(reference: u32, bid: u32) -> bool
    ensures { result ≡ maximum_test (threshold_of 8) reference bid }
{
    let t = Threshold::MAXIMUM_PARAMETER;
    let percent = t.percent;
    let a = bid.positive_part();
    WHOLE * (a as u64) < product(percent, reference)
}

// Whether a bid fails the test of its component; total is the sum of the positive time increases. The component and the market are
// numbers, since bid_test of specs/ConductTests answers on each.
pub fn bid_test(
    component: u8,
    reference: u32,
    bid: u32,
    market: u8,
    tight: bool,
    average_price: u32,
    constrained_hours: u16,
    total: u64,
) -> bool
    ensures { result ≡ bid_test component reference bid market tight average_price constrained_hours total }
{
    let t = Threshold::of(component);
    let d = increase(reference, bid);
    let lower = lower_test(t, reference, bid);
    let constrained = constrained_test(d, market, tight, average_price, constrained_hours);
    let percent = percent_test(t, reference, d);
    let time = time_test(t, d, total);
    let maximum = maximum_test(reference, bid);
    ((component <= 1) & (lower | constrained))
        | ((component == 2) & lower)
        | ((component == 3) & percent)
        | ((4 <= component) & (component <= 6) & time)
        | ((component == 7) & percent)
        | ((component == 8) & maximum)
}

pub fn unit_limit(tight: bool) -> u32
    ensures { result ≡ unit_limit tight }
{
    choose(tight, 500, 1000)
}

pub fn group_limit(tight: bool) -> u64
    ensures { result ≡ group_limit tight }
{
    choose(tight, 1000, 2000)
}

// Whether withheld megawatts fail; s is the group's sum and g its listed capability.
pub fn withheld_test(a: u32, capability: u32, s: u64, g: u64, tight: bool) -> bool
    requires { s ≤ highest_sum }
    ensures { result ≡ withheld_test a capability s g tight }
{
    let unit = unit_limit(tight);
    let group = group_limit(tight);
    ((capability as u64) < UNIT_SHARE * (a as u64))
        | (unit < a)
        | (g < GROUP_SHARE * s)
        | (group < s)
}

// Whether undelivered megawatts fail; rate is the unit's response rate.
pub fn dispatch_test(a: u32, rate: u32, s: u64, tight: bool) -> bool
    ensures { result ≡ dispatch_test a rate s tight }
{
    let unit = unit_limit(tight);
    let group = group_limit(tight);
    (RESPONSE_MINUTES * (rate as u64) < (a as u64)) | (unit < a) | (group < s)
}
