// The line within the bid's range, and the public call, which refuses any argument out of its range with 16.
ghost use Rattle.std.specs.Prelude.{◌≡◌};
ghost use Rattle.calls.specs.Answers.{figure_answer, figure_of};
ghost use Rattle.line.specs.BidLine.{line_of};
ghost use Rattle.line.specs.LineCall.{bad_line, line_answer, Promised};

use crate::open_line::open_line;
use binary::numbers::choose;
use calls::answers::{Refusal, refuse_if};
use calls::out_of_range::{bad_reference, bad_unit};
use tariff::ranges;

// The line, at most the highest bid of its component.
fn cut_line(
    component: u8,
    reference: u32,
    market: u8,
    tight: bool,
    average_price: u32,
    constrained_hours: u16,
) -> u64
    ensures { result ≡ line_of component reference market tight average_price constrained_hours }
{
    let open = open_line(
        component,
        reference,
        market,
        tight,
        average_price,
        constrained_hours,
    );
    let highest = choose(
        component <= 2,
        ranges::HIGHEST_PRICE_BID,
        ranges::HIGHEST_OTHER_BID,
    );
    open.min(highest as u64)
}

// Any argument out of its range: one bool, since the line has one number for all of them.
fn bad_line(
    component: u8,
    reference: u32,
    market: u8,
    average_price: u32,
    constrained_hours: u16,
) -> bool
    ensures { result ≡ bad_line component reference market average_price constrained_hours }
{
    let level = bad_reference(component, reference);
    let unit = bad_unit(market, average_price, constrained_hours);
    (ranges::HIGHEST_COMPONENT < component) | level | unit
}

// Where the line of a component runs: a bid in range passes exactly where it is on the good side of it.
pub fn line(
    component: u8,
    reference: u32,
    market: u8,
    tight: bool,
    average_price: u32,
    constrained_hours: u16,
) -> Result<u64, Refusal>
    ensures value { result ≡ figure_of (line_answer component reference market tight average_price constrained_hours) }
    ensures promised { Promised component reference market tight average_price constrained_hours (figure_answer result) }
{
    let bad = bad_line(
        component,
        reference,
        market,
        average_price,
        constrained_hours,
    );
    refuse_if(bad, Refusal::LINE)?;
    Ok(cut_line(
        component,
        reference,
        market,
        tight,
        average_price,
        constrained_hours,
    ))
}
