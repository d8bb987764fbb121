// Limits 10, 18, 19 and 11, in checking order.
ghost use Rattle.std.specs.Prelude.{true, ◌≡◌};
ghost use Rattle.limits.specs.Numbers.{number_in};
ghost use Rattle.limits.specs.Refusal.{event_numbers_fine};
ghost use Rattle.limits.specs.StageRefusal.{fields_refusal};

use crate::calendar_limits::calendar_refusal;
use casefile::case::Case;
use event_check::event_limits::order_refusal;
use limits::refusal::Refusal;

// Held to these limits, the past and the events.
pub fn fields_refusal(case: Case) -> Result<(), Refusal>
    requires { event_numbers_fine case.format case.events.now ≡ true }
    ensures { number_in result ≡ fields_refusal case.entry.format case.entry.past.now case.entry.events.now 0 }
{
    let order = order_refusal(case)?;
    calendar_refusal(case, order.dated)?;
    if order.rising {
        return Ok(());
    }
    Err(Refusal::EventOrder)
}
