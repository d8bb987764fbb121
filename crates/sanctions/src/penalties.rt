// The multiplier, N3, N2 and the penalty of one event.
ghost use Rattle.std.specs.Prelude.{◌≡◌, ◌≤◌, ◌<◌};
ghost use Rattle.casefile.specs.Layout.{most_past, most_events};
ghost use Rattle.casefile.specs.Sections.{past_of, events_of};
ghost use Rattle.sanctions.specs.StageGiven.{Sound};
ghost use Rattle.sanctions.specs.StageTables.{row_at};

use crate::dispatch::dispatch;
use crate::fuel::fuel;
use crate::sanction::Sanction;
use crate::withheld::withheld;
use casefile::case::Case;
use casefile::layout;

// The sanction of event i, where the penalties of the events before it stand in penalties.
pub fn sanction_at(
    case: Case,
    groups: &[u16; layout::MOST_EVENTS],
    leaders: &[usize; layout::MOST_EVENTS],
    masks: &[u32; layout::MOST_EVENTS],
    penalties: &[u64; layout::MOST_EVENTS],
    i: usize,
) -> Sanction
    requires in_range { (i < (events_of case).count) × ((events_of case).count ≤ most_events) × ((past_of case).count ≤ most_past) }
    requires sound { Sound case.format case.events.now leaders.now }
    ensures { result ≡ row_at case.entry.format case.entry.past.now case.entry.events.now groups.now leaders.now masks.now penalties.now i }
{
    let event = case.event_at(i);
    let kind = event.kind;
    if kind == 1 {
        return withheld(case, groups, masks, i);
    }
    if kind == 2 {
        return dispatch(case, masks, i);
    }
    if (kind == 3) & (leaders[i] == i) {
        return fuel(case, groups, leaders, masks, penalties, i);
    }
    Sanction::default()
}
