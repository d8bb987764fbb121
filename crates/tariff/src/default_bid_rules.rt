// Mitigated hours, bids in force and make-up (tariff 23.4.2).
ghost use Rattle.std.specs.Prelude.{◌≡◌, ◌≤◌, ◌+◌, ◌-◌};
ghost use Rattle.binary.specs.Bounded.{bit_of, first_to, last_to, mask_to};
ghost use Rattle.tariff.specs.DefaultBidRules.{between, span_mask, at_most, lesser, greater, default_bid, in_force, restores, corrected_bid, excess, hour_make_up, make_up};

use crate::sanction_rules::cents;
use binary::bounded::mask_to;
use binary::masks::bit_of;
use binary::numbers::{choose, product};
use binary::words::Word;

// The first of n hours that is hit, or n.
fn first_hour(hits: u32, n: usize) -> usize
    ensures { result ≡ first_to n (bit_of hits) }
{
    let mut first = 0;
    for h in 0..n {
        let hit = bit_of(hits, h);
        first = choose((first < h) | hit, first, h + 1);
    }
    first
}

// The last of n hours that is hit, or 0.
fn last_hour(hits: u32, n: usize) -> usize
    ensures { result ≡ last_to n (bit_of hits) }
{
    let mut last = 0;
    for h in 0..n {
        last = choose(bit_of(hits, h), h, last);
    }
    last
}

// first + run - 1.
fn run_end(first: usize, run: u32) -> usize
    requires { first ≤ 31 }
    ensures { result ≡ first + run - 1 }
{
    (first + (run as usize)).saturating_sub(1)
}

// The hours from first to end, of a day of n hours.
fn hours_between(first: usize, end: usize, n: usize) -> u32
    requires { n ≤ 31 }
    ensures { result ≡ mask_to n (between first end) }
{
    mask_to(n, |h| (first <= h) & (h <= end))
}

// The mitigated hours of component 1 Day-Ahead, of a day of n hours.
pub fn span_mask(hits: u32, run: u32, n: usize) -> u32
    requires { n ≤ 31 }
    ensures { result ≡ span_mask n (bit_of hits) run }
{
    let first = first_hour(hits, n);
    let last = last_hour(hits, n);
    let end = last.max(run_end(first, run));
    hours_between(first, end, n)
}

// Whether a bid is at most a reference.
fn at_most(bid: u32, reference: u32) -> bool
    ensures { result ≡ at_most bid reference }
{
    bid.positive_part() <= reference
}

fn lesser(bid: u32, reference: u32) -> u32
    ensures { result ≡ lesser bid reference }
{
    choose(at_most(bid, reference), bid, reference)
}

fn greater(bid: u32, reference: u32) -> u32
    ensures { result ≡ greater bid reference }
{
    choose(at_most(bid, reference), reference, bid)
}

fn default_bid(component: u8, bid: u32, reference: u32) -> u32
    ensures { result ≡ default_bid component bid reference }
{
    let high = greater(bid, reference);
    let low = lesser(bid, reference);
    choose(component == 8, high, low)
}

pub fn in_force(component: u8, bid: u32, reference: u32, mitigated: bool) -> u32
    ensures { result ≡ in_force component bid reference mitigated }
{
    choose(mitigated, default_bid(component, bid, reference), bid)
}

// Whether the correct reference may restore a bid.
pub fn restores(component: u8, reference: u32, correct: u32) -> bool
    ensures { result ≡ restores component reference correct }
{
    ((component == 1) | (component == 3)) & !(correct == reference)
}

// The bid in force of a mitigated hour; fails is the conduct test with the correct reference.
pub fn corrected_bid(component: u8, bid: u32, reference: u32, correct: u32, fails: bool) -> u32
    ensures { result ≡ corrected_bid component bid reference correct fails }
{
    let low = lesser(bid, correct);
    let restored = choose(fails, low, bid);
    let kept = default_bid(component, bid, reference);
    choose(restores(component, reference, correct), restored, kept)
}

// x - y of two signed words, or 0 if negative.
fn excess(x: u32, y: u32) -> u32
    ensures { result ≡ excess x y }
{
    let up = (x.positive_part() as u64) + (y.negative_part() as u64);
    let down = (y.positive_part() as u64) + (x.negative_part() as u64);
    up.saturating_sub(down) as u32
}

// One mitigated hour's make-up in tenths of a cent.
pub fn hour_make_up(bid: u32, price: u32, megawatts: u32, correct: u32) -> u64
    ensures { (result ≡ hour_make_up bid price megawatts correct) × (result ≤ 18446744065119617025) }
{
    let low = lesser(bid, correct);
    product(megawatts, excess(low, price))
}

// The make-up in cents for the mitigated hours' sum.
pub fn make_up(reference: u32, correct: u32, tenths: u64) -> u64
    requires { tenths ≤ 18446744065119617025 }
    ensures { result ≡ make_up reference correct tenths }
{
    choose(correct == reference, 0, cents(10, tenths))
}
