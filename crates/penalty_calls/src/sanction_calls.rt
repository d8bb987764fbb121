// The smaller calls of multipliers, penalties and windows: first 10 for an argument out of its range.
ghost use Rattle.std.specs.Prelude.{◌≡◌, false, ◌*◌, ◌≤◌, length};
ghost use Rattle.binary.specs.Bounded.{sum_to};
ghost use Rattle.tariff.specs.Ranges.{highest_capability, highest_price, highest_revenue};
ghost use Rattle.tariff.specs.DefaultBidRules.{day_hours};
ghost use Rattle.calls.specs.Answers.{verdict_of, figure_of};
ghost use Rattle.penalty_calls.specs.SanctionCalls.{bad_hours, amount_at, bad_revenues, revenue_at, multiplier_answer, withheld_penalty_answer, dispatch_penalty_answer, fuel_penalty_answer, fuel_day_answer, period_of_answer, period_answer};

use binary::bounded::{any_to, sum_to};
use binary::numbers::product;
use binary::words::Word;
use calendar::{periods, table};
use calls::answers::{Refusal, refuse_if};
use tariff::{ranges, sanction_rules};

// The multiplier in halves.
pub fn multiplier(n3: u32, n2: u32) -> Result<u64, Refusal>
    ensures { result ≡ figure_of (multiplier_answer n3 n2) }
{
    let ten = (n3 < ranges::FEWEST_INSTANCES)
        | (ranges::MOST_INSTANCES < n3)
        | (n2 < ranges::FEWEST_INSTANCES)
        | (n3 < n2);
    refuse_if(ten, Refusal::ARGUMENT)?;
    Ok(u64::from(sanction_rules::ladder(n3, n2)))
}

// Whether the flagged hours' a and b are not as many, more than a day's, or one of them out of its range.
fn bad_hours(a: &[u32], b: &[u32]) -> bool
    ensures { result ≡ bad_hours a.now b.now }
{
    let n = a.len();
    if n != b.len() {
        return true;
    }
    let any = any_to(n, |h| {
        (ranges::HIGHEST_CAPABILITY < a[h]) | !b[h].is_within(ranges::HIGHEST_PRICE)
    });
    (ranges::HOURS < n) | any
}

// The sum over the flagged hours of a × (b, or 0 if negative).
fn amount_of(a: &[u32], b: &[u32]) -> u64
    requires { bad_hours a.now b.now ≡ false }
    ensures { (result ≡ sum_to (length a.now) (amount_at a.now b.now)) × (result ≤ day_hours * (highest_capability * highest_price)) }
{
    sum_to(a.len(), |h| product(a[h], b[h].positive_part()))
}

// The penalty in cents for the megawatts withheld in the flagged hours, at their prices.
pub fn withheld_penalty(multiplier: u8, a: &[u32], b: &[u32]) -> Result<u64, Refusal>
    ensures { result ≡ figure_of (withheld_penalty_answer multiplier a.now b.now) }
{
    let known = (multiplier == 0) | (multiplier == 2) | (multiplier == 4) | (multiplier == 6);
    let hours = bad_hours(a, b);
    refuse_if(!known | hours, Refusal::ARGUMENT)?;
    Ok(sanction_rules::withheld_penalty(multiplier, amount_of(a, b)))
}

// Whether the flagged hours' b are more than a day's, or one of them out of its range.
fn bad_revenues(b: &[u32]) -> bool
    ensures { result ≡ bad_revenues b.now }
{
    let any = any_to(b.len(), |h| ranges::HIGHEST_REVENUE < b[h]);
    (ranges::HOURS < b.len()) | any
}

// The flagged hours' added revenue.
fn revenue_of(b: &[u32]) -> u64
    requires { bad_revenues b.now ≡ false }
    ensures { (result ≡ sum_to (length b.now) (revenue_at b.now)) × (result ≤ day_hours * highest_revenue) }
{
    sum_to(b.len(), |h| u64::from(b[h]))
}

// The penalty in cents for the megawatts not delivered in the flagged hours, by their added revenue.
pub fn dispatch_penalty(b: &[u32]) -> Result<u64, Refusal>
    ensures { result ≡ figure_of (dispatch_penalty_answer b.now) }
{
    refuse_if(bad_revenues(b), Refusal::ARGUMENT)?;
    Ok(sanction_rules::dispatch_penalty(revenue_of(b)))
}

// The penalty for inaccurate fuel data, in cents; e is a signed word.
pub fn fuel_penalty(e: u64, t: u64, m: u8) -> Result<u64, Refusal>
    ensures { result ≡ figure_of (fuel_penalty_answer e t m) }
{
    let energy = e.is_within(ranges::HIGHEST_E);
    let ten = !energy
        | (ranges::HIGHEST_T < t)
        | (m < ranges::LOWEST_FUEL_MULTIPLIER)
        | (ranges::HIGHEST_FUEL_MULTIPLIER < m);
    refuse_if(ten, Refusal::ARGUMENT)?;
    let gain = e.positive_part();
    let loss = e.negative_part();
    Ok(sanction_rules::fuel_penalty(m, gain, loss, t))
}

// Whether a fuel penalty of day e raises one of day d.
pub fn fuel_day_counts(d: u32, e: u32) -> Result<bool, Refusal>
    ensures { result ≡ verdict_of (fuel_day_answer d e) }
{
    let ten = (table::DAYS <= d) | (table::DAYS <= e);
    refuse_if(ten, Refusal::ARGUMENT)?;
    Ok(sanction_rules::fuel_day_counts(d, e))
}

// The capability period of a day.
pub fn period_of(day: u32) -> Result<u64, Refusal>
    ensures { result ≡ figure_of (period_of_answer day) }
{
    refuse_if(table::DAYS <= day, Refusal::ARGUMENT)?;
    Ok(u64::from(periods::period_of(day)))
}

// Whether a period is the own one or one of the k before it: k is 2 for N3 and 1 for N2.
pub fn period_counts(k: u8, own: u16, period: u16) -> Result<bool, Refusal>
    ensures { result ≡ verdict_of (period_answer k own period) }
{
    let ten = (k < ranges::FEWEST_PERIODS_BACK) | (ranges::MOST_PERIODS_BACK < k);
    refuse_if(ten, Refusal::ARGUMENT)?;
    Ok(sanction_rules::period_counts(k, own, period))
}
