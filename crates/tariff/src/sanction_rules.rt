// Multipliers in halves and penalties in cents (tariff 23.4.3).
ghost use Rattle.std.specs.Prelude.{◌≡◌, ◌+◌, ◌≤◌, ◌<◌};
ghost use Rattle.calendar.specs.Months.{calendar_days};
ghost use Rattle.tariff.specs.SanctionRules.{cents, period_counts, ladder, withheld_penalty, dispatch_penalty, fuel_day_counts, fuel_charge, fuel_penalty};

use calendar::periods::{in_window, window_start};

// $5,000 in twentieths of a cent.
pub const LEAST_CHARGE: u64 = 10_000_000;

// x in that many parts of a cent, rounded halves up to the cent.
pub fn cents(parts: u64, x: u64) -> u64
    requires { (0 < parts) × (x + parts < 18446744073709551616) }
    ensures { result ≡ cents parts x }
{
    (x + parts / 2) / parts
}

// Whether a period is the own one or one of the k before it.
pub fn period_counts(k: u8, own: u16, period: u16) -> bool
    ensures { result ≡ period_counts k own period }
{
    (period <= own) & ((own as u32) <= (period as u32) + (k as u32))
}

// The multiplier of an instance; 0 where none of the four cases holds.
pub fn ladder(n3: u32, n2: u32) -> u8
    ensures { result ≡ ladder n3 n2 }
{
    if n3 == 1 {
        return 2; // 23.4.3.4.1
    }
    if n3 == 2 {
        return 2; // 23.4.3.4.2
    }
    if (3 <= n3) & (n2 <= 3) {
        return 4; // 23.4.3.4.3
    }
    if 4 <= n2 {
        return 6; // 23.4.3.4.4
    }
    0
}

// amount is the sum over flagged hours of a × (b, or 0 if negative).
pub fn withheld_penalty(multiplier: u8, amount: u64) -> u64
    requires { amount ≤ 10000000000000000 }
    ensures { result ≡ withheld_penalty multiplier amount }
{
    cents(20, (multiplier as u64) * amount)
}

// revenue is the flagged hours' added revenue.
pub fn dispatch_penalty(revenue: u64) -> u64
    requires { revenue ≤ 1000000000000000000 }
    ensures { result ≡ dispatch_penalty revenue }
{
    cents(2, 3 * revenue)
}

// Whether day e is before day d, and not before the same day of the month six months earlier.
pub fn fuel_day_counts(d: u32, e: u32) -> bool
    requires { d < calendar_days }
    ensures { result ≡ fuel_day_counts d e }
{
    in_window(window_start(d), d, e)
}

// X in twentieths of a cent, or 0 if negative, where E is gain less loss.
pub fn fuel_charge(m: u8, gain: u64, loss: u64, t: u64) -> u64
    requires { (m ≤ 3) × (gain ≤ 1000000000000000000) × (loss ≤ 1000000000000000000) × (t ≤ 100000000000000000) }
    ensures { (result ≡ fuel_charge m gain loss t) × (result ≤ 5000000000000000000) }
{
    ((m as u64) * gain + 20 * t).saturating_sub((m as u64) * loss)
}

// The penalty for inaccurate fuel data: none where X is below $5,000.
pub fn fuel_penalty(m: u8, gain: u64, loss: u64, t: u64) -> u64
    requires { (m ≤ 3) × (gain ≤ 1000000000000000000) × (loss ≤ 1000000000000000000) × (t ≤ 100000000000000000) }
    ensures { result ≡ fuel_penalty m gain loss t }
{
    let x = fuel_charge(m, gain, loss, t);
    if x < LEAST_CHARGE {
        return 0;
    }
    cents(20, x)
}
