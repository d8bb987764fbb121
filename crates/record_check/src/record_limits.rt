// Limit 17, the numbers of units, references and events; then limits 6 to 9, of units, references, correction and past.
ghost use Rattle.std.specs.Prelude.{◌≡◌};
ghost use Rattle.limits.specs.Numbers.{number_in};
ghost use Rattle.limits.specs.StageRefusal.{records_refusal};

use crate::number_limits::numbers_fine;
use crate::past_limits::past_fine;
use crate::reference_limits::{correction_fine, references_fine};
use crate::unit_limits::units_fine;
use casefile::case::Case;
use limits::refusal::Refusal;

// Held to these limits, in checking order; of the events to that of their numbers alone.
#[tactic(auto, unfolding(limits::specs::StageRefusal::records_refusal))]
pub fn records_refusal(case: Case, correction: &[u8]) -> Result<(), Refusal>
    ensures { number_in result ≡ records_refusal case.entry.format case.entry.units.now case.entry.references.now correction.now case.entry.past.now case.entry.events.now 0 }
{
    if !numbers_fine(case) {
        return Err(Refusal::Numbers);
    }
    // Units are looked up by their order from here on.
    if !units_fine(case) {
        return Err(Refusal::Units);
    }
    if !references_fine(case, case.references) {
        return Err(Refusal::References);
    }
    if !correction_fine(case, correction) {
        return Err(Refusal::Correction);
    }
    if !past_fine(case) {
        return Err(Refusal::Past);
    }
    Ok(())
}
