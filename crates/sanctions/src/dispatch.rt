// The sanction of a dispatch failure (tariff 23.4.3.3.2).
ghost use Rattle.std.specs.Prelude.{◌≡◌, ◌*◌, ◌≤◌, ◌<◌, length};
ghost use Rattle.binary.specs.Bounded.{sum_to};
ghost use Rattle.casefile.specs.Layout.{most_hours, cell_width, most_events};
ghost use Rattle.casefile.specs.Sections.{events_of};
ghost use Rattle.sanctions.specs.StageTables.{hour_revenue, dispatch_row};

use crate::sanction::Sanction;
use binary::bounded::sum_to;
use binary::masks::bit_of;
use binary::numbers::choose;
use casefile::case::Case;
use casefile::cells::cell_at;
use casefile::layout;
use instance_counts::instances::with_impact;
use tariff::sanction_rules::dispatch_penalty;

// The added revenue, where the mask has the hour.
pub fn hour_revenue(cells: &[u8], mask: u32, h: usize) -> u32
    requires { (h < most_hours) × (cell_width * most_hours ≤ length cells.now) }
    ensures { result ≡ hour_revenue cells.now mask h }
{
    let cell = cell_at(cells, h);
    let b = cell.b;
    let flagged = bit_of(mask, h);
    choose(flagged, b, 0)
}

// The sum over flagged hours.
fn revenue(cells: &[u8], mask: u32) -> u64
    requires { cell_width * most_hours ≤ length cells.now }
    ensures { (result ≡ sum_to most_hours (hour_revenue cells.now mask)) × (result ≤ 1000000000000000000) }
{
    sum_to(layout::HOURS, |h| hour_revenue(cells, mask, h) as u64)
}

// Multiplier 3 and the penalty, with impact 1 and a flag; else both 0.
pub fn dispatch(case: Case, masks: &[u32; layout::MOST_EVENTS], i: usize) -> Sanction
    requires { (i < (events_of case).count) × (i < most_events) }
    ensures { result ≡ dispatch_row case.entry.format case.entry.events.now masks.now i }
{
    if !with_impact(case, masks, i) {
        return Sanction::default();
    }
    let cells = case.event_cells(i);
    let penalty = dispatch_penalty(revenue(cells, masks[i]));
    Sanction {
        multiplier: 3,
        n3: 0,
        n2: 0,
        penalty,
    }
}
