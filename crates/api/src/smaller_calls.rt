// The smaller public calls: first 7 for a reference out of its component's range, then 10 for any other argument; the line has 16
// for both.
ghost use Rattle.std.specs.Prelude.{◌≡◌};
ghost use Rattle.test_calls.specs.ConductCalls.{bid_answer, times_answer, withheld_answer, dispatch_answer};
ghost use Rattle.penalty_calls.specs.SanctionCalls.{multiplier_answer, withheld_penalty_answer, dispatch_penalty_answer, fuel_penalty_answer, fuel_day_answer, period_of_answer, period_answer};
ghost use Rattle.bid_calls.specs.DefaultBidCalls.{span_answer, in_force_answer, corrected_in_force_answer, make_up_answer};
ghost use Rattle.line.specs.LineCall.{line_answer};
ghost use Rattle.api.specs.Exported.{exported, exported_times};

use crate::exported_answers::{ExportedAnswer, ExportedTimes, of_figure, of_times, of_verdict};
use bid_calls::default_bid_calls;
use line::line_call;
use penalty_calls::sanction_calls;
use test_calls::conduct_calls;

// Whether a bid fails the conduct test of its component (4 to 6: the single test).
#[unsafe(no_mangle)]
pub extern "C" fn attachment_h_bid_fails(
    component: u8,
    reference: u32,
    bid: u32,
    market: u8,
    tight: bool,
    average_price: u32,
    constrained_hours: u16,
) -> ExportedAnswer
    ensures { result ≡ exported (bid_answer component reference bid market tight average_price constrained_hours) }
{
    of_verdict(conduct_calls::bid_fails(
        component,
        reference,
        bid,
        market,
        tight,
        average_price,
        constrained_hours,
    ))
}

// Where the line of a component runs: the highest bid in range that passes, of component 8 the lowest (4 to 6: the single test).
#[unsafe(no_mangle)]
pub extern "C" fn attachment_h_line(
    component: u8,
    reference: u32,
    market: u8,
    tight: bool,
    average_price: u32,
    constrained_hours: u16,
) -> ExportedAnswer
    ensures { result ≡ exported (line_answer component reference market tight average_price constrained_hours) }
{
    of_figure(line_call::line(
        component,
        reference,
        market,
        tight,
        average_price,
        constrained_hours,
    ))
}

// Which of the increases of start-up, minimum run and minimum down time of one hour fail.
#[unsafe(no_mangle)]
pub extern "C" fn attachment_h_times_fail(
    start_up: u32,
    minimum_run: u32,
    minimum_down: u32,
) -> ExportedTimes
    ensures { result ≡ exported_times (times_answer start_up minimum_run minimum_down) }
{
    of_times(conduct_calls::times_fail(start_up, minimum_run, minimum_down))
}

// Whether withheld megawatts fail the conduct test; s is the group's sum and g its listed capability.
#[unsafe(no_mangle)]
pub extern "C" fn attachment_h_withheld_fails(
    a: u32,
    capability: u32,
    s: u32,
    g: u32,
    tight: bool,
) -> ExportedAnswer
    ensures { result ≡ exported (withheld_answer a capability s g tight) }
{
    of_verdict(conduct_calls::withheld_fails(a, capability, s, g, tight))
}

// Whether undelivered megawatts fail the conduct test; rate is the unit's response rate.
#[unsafe(no_mangle)]
pub extern "C" fn attachment_h_dispatch_fails(
    a: u32,
    rate: u32,
    s: u32,
    tight: bool,
) -> ExportedAnswer
    ensures { result ≡ exported (dispatch_answer a rate s tight) }
{
    of_verdict(conduct_calls::dispatch_fails(a, rate, s, tight))
}

// The multiplier in halves.
#[unsafe(no_mangle)]
pub extern "C" fn attachment_h_multiplier(n3: u32, n2: u32) -> ExportedAnswer
    ensures { result ≡ exported (multiplier_answer n3 n2) }
{
    of_figure(sanction_calls::multiplier(n3, n2))
}

// The penalty in cents for the megawatts withheld in the flagged hours, at their prices.
#[unsafe(no_mangle)]
pub extern "C" fn attachment_h_withheld_penalty(
    multiplier: u8,
    a: &[u32],
    b: &[u32],
) -> ExportedAnswer
    ensures { result ≡ exported (withheld_penalty_answer multiplier a.now b.now) }
{
    of_figure(sanction_calls::withheld_penalty(multiplier, a, b))
}

// The penalty in cents for the megawatts not delivered in the flagged hours, by their added revenue.
#[unsafe(no_mangle)]
pub extern "C" fn attachment_h_dispatch_penalty(b: &[u32]) -> ExportedAnswer
    ensures { result ≡ exported (dispatch_penalty_answer b.now) }
{
    of_figure(sanction_calls::dispatch_penalty(b))
}

// The penalty for inaccurate fuel data, in cents; e is a signed word.
#[unsafe(no_mangle)]
pub extern "C" fn attachment_h_fuel_penalty(e: u64, t: u64, m: u8) -> ExportedAnswer
    ensures { result ≡ exported (fuel_penalty_answer e t m) }
{
    of_figure(sanction_calls::fuel_penalty(e, t, m))
}

// Whether a fuel penalty of day e raises one of day d.
#[unsafe(no_mangle)]
pub extern "C" fn attachment_h_fuel_day_counts(d: u32, e: u32) -> ExportedAnswer
    ensures { result ≡ exported (fuel_day_answer d e) }
{
    of_verdict(sanction_calls::fuel_day_counts(d, e))
}

// The capability period of a day.
#[unsafe(no_mangle)]
pub extern "C" fn attachment_h_period_of(day: u32) -> ExportedAnswer
    ensures { result ≡ exported (period_of_answer day) }
{
    of_figure(sanction_calls::period_of(day))
}

// Whether a period is the own one or one of the k before it: k is 2 for N3 and 1 for N2.
#[unsafe(no_mangle)]
pub extern "C" fn attachment_h_period_counts(k: u8, own: u16, period: u16) -> ExportedAnswer
    ensures { result ≡ exported (period_answer k own period) }
{
    of_verdict(sanction_calls::period_counts(k, own, period))
}

// The mitigated hours of component 1 Day-Ahead as a mask, from the hours hit and the minimum run.
#[unsafe(no_mangle)]
pub extern "C" fn attachment_h_mitigated_span(hits: u32, run: u32) -> ExportedAnswer
    ensures { result ≡ exported (span_answer hits run) }
{
    of_figure(default_bid_calls::mitigated_span(hits, run))
}

// The bid in force, as its word.
#[unsafe(no_mangle)]
pub extern "C" fn attachment_h_bid_in_force(
    component: u8,
    bid: u32,
    reference: u32,
    mitigated: bool,
) -> ExportedAnswer
    ensures { result ≡ exported (in_force_answer component bid reference mitigated) }
{
    of_figure(default_bid_calls::bid_in_force(component, bid, reference, mitigated))
}

// The bid in force where the correct reference is another, as its word.
#[unsafe(no_mangle)]
pub extern "C" fn attachment_h_corrected_bid_in_force(
    component: u8,
    bid: u32,
    reference: u32,
    correct: u32,
    market: u8,
    tight: bool,
    average_price: u32,
    constrained_hours: u16,
    mitigated: bool,
) -> ExportedAnswer
    ensures { result ≡ exported (corrected_in_force_answer component bid reference correct market tight average_price constrained_hours mitigated) }
{
    of_figure(default_bid_calls::corrected_bid_in_force(
        component,
        bid,
        reference,
        correct,
        market,
        tight,
        average_price,
        constrained_hours,
        mitigated,
    ))
}

// One mitigated hour's make-up payment of component 0, in cents.
#[unsafe(no_mangle)]
pub extern "C" fn attachment_h_make_up(
    bid: u32,
    price: u32,
    megawatts: u32,
    reference: u32,
    correct: u32,
) -> ExportedAnswer
    ensures { result ≡ exported (make_up_answer bid price megawatts reference correct) }
{
    of_figure(default_bid_calls::make_up(bid, price, megawatts, reference, correct))
}
