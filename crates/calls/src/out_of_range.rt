// References, bids and units' fields out of their ranges. Each is a bool, since a call joins several of them before it refuses, and
// the line refuses with 16 what other calls refuse with 7 or 10.
ghost use Rattle.std.specs.Prelude.{◌≡◌};
ghost use Rattle.calls.specs.OutOfRange.{bad_reference, bad_bid, bad_unit};

use tariff::ranges;

pub fn bad_reference(component: u8, reference: u32) -> bool
    ensures { result ≡ bad_reference component reference }
{
    (component <= ranges::HIGHEST_COMPONENT) & !ranges::reference_in_range(component, reference)
}

pub fn bad_bid(component: u8, bid: u32) -> bool
    ensures { result ≡ bad_bid component bid }
{
    (ranges::HIGHEST_COMPONENT < component) | !ranges::bid_in_range(component, bid)
}

pub fn bad_unit(market: u8, average_price: u32, constrained_hours: u16) -> bool
    ensures { result ≡ bad_unit market average_price constrained_hours }
{
    (ranges::HIGHEST_MARKET < market)
        | (ranges::HIGHEST_AVERAGE_PRICE < average_price)
        | (ranges::MOST_CONSTRAINED_HOURS < constrained_hours)
}
