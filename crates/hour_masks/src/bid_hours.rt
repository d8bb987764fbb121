// The hours of a bid that fail: past its line, or by the sum of the times.
ghost use Rattle.std.specs.Prelude.{◌≡◌};
ghost use Rattle.binary.specs.Bounded.{mask_to};
ghost use Rattle.casefile.specs.Layout.{most_hours};
ghost use Rattle.hour_masks.specs.StageHours.{capped, line_in, sum_hour, bid_hour};

use crate::columns::{hours_above, hours_below, sums_over};
use casefile::layout;
use line::open_line::open_line;
use tariff::{conduct_tests, ranges};

// What the test of a bid reads beside its hours.
#[derive(Clone, Copy)]
pub struct Bid {
    pub component: u8,
    pub reference: u32,
    pub market: u8,
    pub average_price: u32,
    pub constrained_hours: u16,
}

// A line as a word: above 2^31 it stands over every bid.
fn capped(line: u64) -> u32
    ensures { result ≡ capped line }
{
    if line < 2147483648 {
        return line as u32;
    }
    2147483648
}

// The line of a bid, of tight hours or of others.
fn line_in(bid: Bid, tight: bool) -> u32
    ensures { result ≡ capped (line_in bid tight) }
{
    let component = bid.component;
    let reference = bid.reference;
    let market = bid.market;
    let price = bid.average_price;
    let hours = bid.constrained_hours;
    capped(open_line(component, reference, market, tight, price, hours))
}

// The hours that the sum of the three times flags.
fn sum_hours(column: &[u32; layout::HOURS], sums: &[u64; layout::HOURS], bid: Bid) -> u32
    ensures { result ≡ mask_to most_hours (sum_hour column.now sums.now bid) }
{
    let component = bid.component;
    let reference = bid.reference;
    if (4 <= component) & (component <= 6) {
        let longer = hours_above(column, capped(reference as u64));
        let over = sums_over(sums, conduct_tests::TIME_LIMIT);
        return longer & over;
    }
    0
}

// The hours of a bid that fail; sums are the time totals.
pub fn bid_hours(
    column: &[u32; layout::HOURS],
    sums: &[u64; layout::HOURS],
    tight: u32,
    bid: Bid,
) -> u32
    ensures { result ≡ mask_to most_hours (bid_hour column.now sums.now tight bid) }
{
    let component = bid.component;
    if ranges::HIGHEST_COMPONENT < component {
        return 0;
    }
    let far = line_in(bid, false);
    if component == 8 {
        return hours_below(column, far);
    }
    let mask = hours_above(column, far) | sum_hours(column, sums, bid);
    if tight == 0 {
        return mask;
    }
    let near = hours_above(column, line_in(bid, true));
    mask | (near & tight)
}
