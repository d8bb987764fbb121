// The comparisons of each conduct test, the left against the right.
ghost use Rattle.std.specs.Prelude.{cond, ◌≡◌, ◌≤◌};
ghost use Rattle.tariff.specs.StageSums.{highest_sum};
ghost use Rattle.tariff.specs.Threshold.{threshold_of};
ghost use Rattle.tariff.specs.ConductTests.{compared, exceeds, percent_of, lower_comparison, constrained_comparison, maximum_comparison};
ghost use Rattle.tariff.specs.Comparisons.{no_comparison, first_failed, comparisons_of, first_bid_comparison, second_bid_comparison, bid_comparisons, withheld_comparisons, dispatch_comparisons, fuel_comparisons};

use crate::conduct_tests::{
    GROUP_SHARE, HOUR_TENTHS, RESPONSE_MINUTES, TIME_LIMIT, UNIT_SHARE, WHOLE, YEAR_SHARE,
    group_limit, increase, unit_limit,
};
use crate::threshold::Threshold;
use binary::numbers::product;
use binary::words::Word;

// A comparison; it counts where it is taken. Not an Option of its sides, since comparisons_of gives those of one not taken too.
#[derive(Clone, Copy)]
pub struct Comparison {
    pub taken: bool,
    pub left: u64,
    pub right: u64,
}

// The comparisons of a test: which are taken, as bits, and the number of the first that fails, 0 where none does: bytes of the C
// interface, as comparisons_of has them.
#[derive(Drop)]
pub struct Comparisons {
    pub taken: u8,
    pub failed: u8,
    pub left: [u64; 4],
    pub right: [u64; 4],
}

fn exceeds(c: Comparison) -> bool
    ensures { result ≡ exceeds c }
{
    c.taken & (c.right < c.left)
}

// A comparison that always counts.
fn compared(left: u64, right: u64) -> Comparison
    ensures { result ≡ compared left right }
{
    Comparison {
        taken: true,
        left,
        right,
    }
}

fn no_comparison() -> Comparison
    ensures { result ≡ no_comparison }
{
    Comparison {
        taken: false,
        left: 0,
        right: 0,
    }
}

// The bit of a comparison that is taken. Not choose, since the bound keeps the sum of four within a byte.
fn bit_where(taken: bool, bit: u8) -> u8
    ensures { (result ≡ cond taken bit 0) × (result ≤ bit) }
{
    if taken { bit } else { 0 }
}

fn first_failed(first: Comparison, second: Comparison, third: Comparison, fourth: Comparison) -> u8
    ensures { result ≡ first_failed first second third fourth }
{
    if exceeds(first) {
        return 1;
    }
    if exceeds(second) {
        return 2;
    }
    if exceeds(third) {
        return 3;
    }
    if exceeds(fourth) {
        return 4;
    }
    0
}

fn comparisons_of(
    first: Comparison,
    second: Comparison,
    third: Comparison,
    fourth: Comparison,
) -> Comparisons
    ensures { result ≡ comparisons_of first second third fourth }
{
    let one = bit_where(first.taken, 1);
    let two = bit_where(second.taken, 2);
    let four = bit_where(third.taken, 4);
    let eight = bit_where(fourth.taken, 8);
    Comparisons {
        taken: one + two + four + eight,
        failed: first_failed(first, second, third, fourth),
        left: [first.left, second.left, third.left, fourth.left],
        right: [first.right, second.right, third.right, fourth.right],
    }
}

pub fn no_comparisons() -> Comparisons
    ensures { result ≡ comparisons_of no_comparison no_comparison no_comparison no_comparison }
{
    comparisons_of(
        no_comparison(),
        no_comparison(),
        no_comparison(),
        no_comparison(),
    )
}

fn percent_of(t: Threshold, reference: u32) -> u64
    ensures { (result ≡ percent_of t reference) × (result ≤ 184467440737095516) }
{
    let percent = t.percent;
    product(percent, reference) / WHOLE
}

// Components 0 to 2.
fn lower_comparison(t: Threshold, reference: u32, bid: u32) -> Comparison
    ensures { result ≡ lower_comparison t reference bid }
{
    let step = t.step;
    let floor = t.floor;
    let a = bid.positive_part();
    let d = increase(reference, bid);
    let right = percent_of(t, reference).min(step as u64);
    Comparison {
        taken: floor <= a,
        left: d as u64,
        right,
    }
}

// Components 0 and 1 in Real-Time.
fn constrained_comparison(
    d: u32,
    market: u8,
    tight: bool,
    average_price: u32,
    constrained_hours: u16,
) -> Comparison
    ensures { result ≡ constrained_comparison d market tight average_price constrained_hours }
{
    Comparison {
        taken: (market == 1) & tight & (1 <= constrained_hours),
        left: HOUR_TENTHS * ((d as u64) * (constrained_hours as u64)),
        right: YEAR_SHARE * (average_price as u64),
    }
}

// Component 8.
fn maximum_comparison(reference: u32, bid: u32) -> Comparison
    ensures { result ≡ maximum_comparison (threshold_of 8) reference bid }
{
    let t = Threshold::MAXIMUM_PARAMETER;
    let percent = t.percent;
    let a = bid.positive_part();
    compared(reference as u64, WHOLE * (a as u64) / (percent as u64))
}

fn first_bid_comparison(component: u8, reference: u32, bid: u32) -> Comparison
    ensures { result ≡ first_bid_comparison component reference bid }
{
    let t = Threshold::of(component);
    let step = t.step;
    let a = bid.positive_part();
    let d = increase(reference, bid);
    let percent = percent_of(t, reference);
    if component <= 2 {
        return lower_comparison(t, reference, bid);
    }
    if component == 3 {
        return compared(d as u64, percent);
    }
    if component <= 6 {
        return compared(d as u64, step as u64);
    }
    if component == 7 {
        return compared(a as u64, (reference as u64) + percent);
    }
    if component == 8 {
        return maximum_comparison(reference, bid);
    }
    no_comparison()
}

// Components 0 and 1, and 4 to 6, whose total is the sum of the positive increases of the three.
fn second_bid_comparison(
    component: u8,
    d: u32,
    market: u8,
    tight: bool,
    average_price: u32,
    constrained_hours: u16,
    total: u64,
) -> Comparison
    ensures { result ≡ second_bid_comparison component d market tight average_price constrained_hours total }
{
    if component <= 1 {
        return constrained_comparison(d, market, tight, average_price, constrained_hours);
    }
    if (4 <= component) & (component <= 6) {
        return Comparison {
            taken: 0 < d,
            left: total,
            right: TIME_LIMIT,
        };
    }
    no_comparison()
}

pub fn bid_comparisons(
    component: u8,
    reference: u32,
    bid: u32,
    market: u8,
    tight: bool,
    average_price: u32,
    constrained_hours: u16,
    total: u64,
) -> Comparisons
    ensures { result ≡ bid_comparisons component reference bid market tight average_price constrained_hours total }
{
    let first = first_bid_comparison(component, reference, bid);
    let d = increase(reference, bid);
    let second = second_bid_comparison(
        component,
        d,
        market,
        tight,
        average_price,
        constrained_hours,
        total,
    );
    comparisons_of(first, second, no_comparison(), no_comparison())
}

pub fn withheld_comparisons(a: u32, capability: u32, s: u64, g: u64, tight: bool) -> Comparisons
    requires { s ≤ highest_sum }
    ensures { result ≡ withheld_comparisons a capability s g tight }
{
    let of_capability = compared(UNIT_SHARE * (a as u64), capability as u64);
    let of_unit = compared(a as u64, unit_limit(tight) as u64);
    let of_share = compared(GROUP_SHARE * s, g);
    let of_group = compared(s, group_limit(tight));
    comparisons_of(of_capability, of_unit, of_share, of_group)
}

pub fn dispatch_comparisons(a: u32, rate: u32, s: u64, tight: bool) -> Comparisons
    ensures { result ≡ dispatch_comparisons a rate s tight }
{
    let of_rate = compared(a as u64, RESPONSE_MINUTES * (rate as u64));
    let of_unit = compared(a as u64, unit_limit(tight) as u64);
    let of_group = compared(s, group_limit(tight));
    comparisons_of(of_rate, of_unit, of_group, no_comparison())
}

// events is how many events of the party-day have the hour in their P.
pub fn fuel_comparisons(events: u64) -> Comparisons
    ensures { result ≡ fuel_comparisons events }
{
    comparisons_of(
        compared(events, 0),
        no_comparison(),
        no_comparison(),
        no_comparison(),
    )
}
