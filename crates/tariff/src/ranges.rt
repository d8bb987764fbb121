// The limits of the fields of a case and of the arguments of the smaller calls, as specs/Ranges has them.
ghost use Rattle.std.specs.Prelude.{◌≡◌};
ghost use Rattle.tariff.specs.Ranges.{reference_in_range, bid_in_range};

use binary::numbers::choose;
use binary::words::Word;

pub const HIGHEST_AREA: u8 = 1;

pub const LOWEST_CAPABILITY: u32 = 1;

pub const HIGHEST_CAPABILITY: u32 = 50000;

pub const HIGHEST_RATE: u32 = 50000;

pub const HIGHEST_AVERAGE_PRICE: u32 = 1000000;

pub const MOST_CONSTRAINED_HOURS: u16 = 8784;

pub const HIGHEST_COMPONENT: u8 = 8;

pub const HIGHEST_PRICE_REFERENCE: u32 = 1000000;

pub const HIGHEST_OTHER_REFERENCE: u32 = 1000000000;

pub const HIGHEST_MARKET: u8 = 1;

pub const HIGHEST_DAY: u32 = 1000000;

pub const LOWEST_KIND: u8 = 1;

pub const HIGHEST_KIND: u8 = 4;

pub const HIGHEST_IMPACT: u8 = 1;

pub const HIGHEST_PRICE: u32 = 1000000;

pub const HIGHEST_REVENUE: u32 = 100000000;

pub const HIGHEST_FUEL_MONEY: u32 = 1000000000;

pub const HIGHEST_ENERGY: u32 = 50000;

pub const HIGHEST_PRICE_CHANGE: u32 = 1000000;

pub const MOST_RUN_HOURS: u32 = 24;

pub const HIGHEST_MEGAWATTS: u32 = 50000;

pub const HIGHEST_PRICE_BID: u32 = 1000000;

pub const HIGHEST_OTHER_BID: u32 = 1000000000;

pub const HIGHEST_INCREASE: u32 = HIGHEST_OTHER_BID;

pub const HIGHEST_GROUP_SUM: u32 = 3200000;

pub const FEWEST_INSTANCES: u32 = 1;

pub const MOST_INSTANCES: u32 = 456;

pub const FEWEST_PERIODS_BACK: u8 = 1;

pub const MOST_PERIODS_BACK: u8 = 2;

pub const HIGHEST_E: u64 = 100000000000000;

pub const HIGHEST_T: u64 = 64000000000;

pub const LOWEST_FUEL_MULTIPLIER: u8 = 2;

pub const HIGHEST_FUEL_MULTIPLIER: u8 = 3;

// The hours of a day.
pub const HOURS: usize = 24;
// Masks are below this: a bit for each hour.
pub const MASK_LIMIT: u32 = 16777216;

pub fn reference_in_range(component: u8, reference: u32) -> bool
    ensures { result ≡ reference_in_range component reference }
{
    reference
        <= choose(
            component <= 2,
            HIGHEST_PRICE_REFERENCE,
            HIGHEST_OTHER_REFERENCE,
        )
}

pub fn bid_in_range(component: u8, bid: u32) -> bool
    ensures { result ≡ bid_in_range component bid }
{
    let signed = bid.is_within(HIGHEST_PRICE_BID);
    let unsigned = bid <= choose(component == 2, HIGHEST_PRICE_BID, HIGHEST_OTHER_BID);
    choose(component <= 1, signed, unsigned)
}
