// Limits 18 and 19, over past entries and events together.
ghost use Rattle.std.specs.Prelude.{◌≡◌};
ghost use Rattle.binary.specs.Bounded.{all_to};
ghost use Rattle.calendar.specs.Periods.{has_period, in_calendar};
ghost use Rattle.casefile.specs.Sections.{past_of, events_of};
ghost use Rattle.limits.specs.Numbers.{number_in};
ghost use Rattle.limits.specs.Refusal.{days_fine, periods_fine, unless as unless_of};
ghost use Rattle.limits.specs.StageRefusal.{events_in_calendar};

use calendar::periods::has_period;
use calendar::table;
use casefile::case::Case;
use limits::refusal::Refusal;

// Whether each past entry's day is in the calendar and its period is the day's.
fn past_in_calendar(case: Case) -> bool
    ensures { result ≡ all_to (past_of case.entry).count (λ i. has_period ((past_of case.entry).entry i).day ((past_of case.entry).entry i).period) }
{
    (0..case.entry_count()).all(|i| {
        let entry = case.entry_at(i);
        has_period(entry.day, entry.period)
    })
}

// Whether each past entry's day is in the calendar.
fn past_days_fine(case: Case) -> bool
    ensures { result ≡ all_to (past_of case.entry).count (λ i. in_calendar ((past_of case.entry).entry i).day) }
{
    (0..case.entry_count()).all(|i| case.entry_at(i).day < table::DAYS)
}

// The same of each event.
fn event_days_fine(case: Case) -> bool
    ensures { result ≡ all_to (events_of case.entry).count (λ i. in_calendar ((events_of case.entry).day i)) }
{
    (0..case.event_count()).all(|i| case.event_at(i).day < table::DAYS)
}

// Held to 18 and 19, which one look at each record shows; the events have had theirs.
pub fn calendar_refusal(case: Case, events_dated: bool) -> Result<(), Refusal>
    requires { events_dated ≡ events_in_calendar (events_of case) }
    ensures { number_in result ≡ unless_of (days_fine (past_of case.entry) (events_of case.entry)) 18
        (unless_of (periods_fine (past_of case.entry) (events_of case.entry)) 19 0) }
{
    let past_dated = past_in_calendar(case);
    if past_dated & events_dated {
        return Ok(());
    }
    let past_days = past_days_fine(case);
    let event_days = event_days_fine(case);
    if past_days & event_days {
        return Err(Refusal::Periods);
    }
    Err(Refusal::Days)
}
