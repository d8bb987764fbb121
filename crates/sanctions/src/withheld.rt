// The sanction of a withheld event (tariff 23.4.3.3.1).
ghost use Rattle.std.specs.Prelude.{◌≡◌, ◌*◌, ◌≤◌, ◌<◌, length};
ghost use Rattle.binary.specs.Bounded.{sum_to};
ghost use Rattle.binary.specs.Word.{positive_part};
ghost use Rattle.casefile.specs.Decode.{cells_from};
ghost use Rattle.casefile.specs.Layout.{most_hours, cell_width, most_past, most_events};
ghost use Rattle.casefile.specs.Sections.{past_of, events_of};
ghost use Rattle.sanctions.specs.StageGiven.{SmallAmounts};
ghost use Rattle.sanctions.specs.StageTables.{hour_energy, withheld_row};

use crate::sanction::Sanction;
use binary::bounded::sum_to;
use binary::masks::bit_of;
use binary::numbers::{choose, product};
use binary::words::Word;
use casefile::case::Case;
use casefile::cells::cell_at;
use casefile::layout;
use instance_counts::instances::instances_at;
use tariff::sanction_rules::{ladder, withheld_penalty};

// a × (b, or 0 if negative), where the mask has the hour.
pub fn hour_amount(cells: &[u8], mask: u32, h: usize) -> u64
    requires { (h < most_hours) × (cell_width * most_hours ≤ length cells.now) }
    ensures { result ≡ hour_energy (positive_part 32) cells.now mask h }
{
    let cell = cell_at(cells, h);
    let a = cell.a;
    let b = cell.b;
    let flagged = bit_of(mask, h);
    choose(flagged, product(a, b.positive_part()), 0)
}

// The sum over flagged hours.
fn amount(cells: &[u8], mask: u32) -> u64
    requires { (cell_width * most_hours ≤ length cells.now) × SmallAmounts cells.now }
    ensures { (result ≡ sum_to most_hours (hour_energy (positive_part 32) cells.now mask)) × (result ≤ 10000000000000000) }
{
    sum_to(layout::HOURS, |h| hour_amount(cells, mask, h))
}

// The multiplier, N3, N2 and the penalty of an instance; all 0 where the event is none.
pub fn withheld(
    case: Case,
    groups: &[u16; layout::MOST_EVENTS],
    masks: &[u32; layout::MOST_EVENTS],
    i: usize,
) -> Sanction
    requires { (i < (events_of case).count) × (i < most_events) × ((past_of case).count ≤ most_past) × SmallAmounts (cells_from case.format case.events.now i) }
    ensures { result ≡ withheld_row case.entry.format case.entry.past.now case.entry.events.now groups.now masks.now i }
{
    let counts = instances_at(case, groups, masks, i);
    let n3 = counts.n3;
    let n2 = counts.n2;
    if n3 == 0 {
        return Sanction::default();
    }
    let multiplier = ladder(n3 as u32, n2 as u32);
    let cells = case.event_cells(i);
    let penalty = withheld_penalty(multiplier, amount(cells, masks[i]));
    Sanction {
        multiplier,
        n3,
        n2,
        penalty,
    }
}
