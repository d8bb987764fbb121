// The line of a bid's conduct test before it is cut to the bid's range, of any word.
ghost use Rattle.std.specs.Prelude.{◌≡◌, ◌≤◌};
ghost use Rattle.line.specs.OpenLine.{lower_line, clause_asked, constrained_line, energy_line, percent_line, time_line, maximum_line, open_line};

use binary::numbers::product;
use tariff::conduct_tests;
use tariff::threshold::Threshold;

// Components 0 to 2.
fn lower_line(t: Threshold, reference: u32) -> u64
    ensures { result ≡ lower_line t reference }
{
    let percent = t.percent;
    let step = t.step;
    let floor = t.floor;
    let lower = (product(percent, reference) / conduct_tests::WHOLE).min(step as u64);
    let above = (reference as u64) + lower;
    let below = (floor as u64).saturating_sub(1);
    if below <= above { above } else { below }
}

// Whether components 0 and 1 have the clause of tight hours.
fn clause_asked(market: u8, tight: bool, constrained_hours: u16) -> bool
    ensures { result ≡ clause_asked market tight constrained_hours }
{
    (market == 1) & tight & (1 <= constrained_hours)
}

// The clause of tight hours.
fn constrained_line(reference: u32, average_price: u32, constrained_hours: u16) -> u64
    requires { 1 ≤ constrained_hours }
    ensures { result ≡ constrained_line reference average_price constrained_hours }
{
    let share = conduct_tests::YEAR_SHARE * (average_price as u64);
    let tenths = conduct_tests::HOUR_TENTHS * (constrained_hours as u64);
    (reference as u64) + share / tenths
}

// Components 0 and 1.
fn energy_line(
    t: Threshold,
    reference: u32,
    market: u8,
    tight: bool,
    average_price: u32,
    constrained_hours: u16,
) -> u64
    ensures { result ≡ energy_line t reference market tight average_price constrained_hours }
{
    let lower = lower_line(t, reference);
    if clause_asked(market, tight, constrained_hours) {
        return lower.min(constrained_line(reference, average_price, constrained_hours));
    }
    lower
}

// Components 3 and 7.
fn percent_line(t: Threshold, reference: u32) -> u64
    ensures { result ≡ percent_line t reference }
{
    let percent = t.percent;
    (reference as u64) + product(percent, reference) / conduct_tests::WHOLE
}

// Components 4 to 6, the single test.
fn time_line(t: Threshold, reference: u32) -> u64
    ensures { result ≡ time_line t reference }
{
    let step = t.step;
    (reference as u64) + (step as u64)
}

// Component 8, rounded up.
fn maximum_line(t: Threshold, reference: u32) -> u64
    ensures { result ≡ maximum_line t reference }
{
    let percent = t.percent;
    (product(percent, reference) + (conduct_tests::WHOLE - 1)) / conduct_tests::WHOLE
}

// A bid above it fails, of component 8 a bid below it.
pub fn open_line(
    component: u8,
    reference: u32,
    market: u8,
    tight: bool,
    average_price: u32,
    constrained_hours: u16,
) -> u64
    ensures { result ≡ open_line component reference market tight average_price constrained_hours }
{
    let t = Threshold::of(component);
    if component <= 1 {
        return energy_line(
            t,
            reference,
            market,
            tight,
            average_price,
            constrained_hours,
        );
    }
    if component == 2 {
        return lower_line(t, reference);
    }
    if (4 <= component) & (component <= 6) {
        return time_line(t, reference);
    }
    if component == 8 {
        return maximum_line(t, reference);
    }
    percent_line(t, reference)
}
