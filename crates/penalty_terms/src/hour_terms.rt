// The terms of an event's hours.
ghost use Rattle.std.specs.Prelude.{◌≡◌, ℕ, ◌*◌, ◌≤◌, ◌<◌, length, get_or};
ghost use Rattle.binary.specs.Bounded.{sum_to};
ghost use Rattle.binary.specs.Lists.{list_to};
ghost use Rattle.casefile.specs.Layout.{cell_width, most_hours};
ghost use Rattle.sanctions.specs.StageGiven.{SmallAmounts};
ghost use Rattle.penalty_terms.specs.StageTerms.{term_in, loss_in, highest_term, SmallTerms, added_in};

use binary::bounded::{list_to, sum_to};
use casefile::layout;
use sanctions::dispatch::hour_revenue;
use sanctions::fuel::hour_energy;
use sanctions::withheld::hour_amount;

// What hour h adds, where the mask has it; a bid has no such term.
fn term_at(kind: u8, cells: &[u8], mask: u32, h: usize) -> u64
    requires in_range { (h < most_hours) × (cell_width * most_hours ≤ length cells.now) }
    requires small_amounts { (kind ≡ 1 → SmallAmounts cells.now) × (kind ≡ 3 → SmallAmounts cells.now) }
    ensures { (result ≡ term_in kind cells.now mask h) × (result ≤ highest_term) }
{
    if kind == 2 {
        return hour_revenue(cells, mask, h) as u64;
    }
    if (kind == 1) | (kind == 3) {
        return hour_amount(cells, mask, h);
    }
    0
}

pub fn hour_terms(kind: u8, cells: &[u8], mask: u32) -> [u64; layout::HOURS]
    requires cells_there { cell_width * most_hours ≤ length cells.now }
    requires small_amounts { (kind ≡ 1 → SmallAmounts cells.now) × (kind ≡ 3 → SmallAmounts cells.now) }
    ensures { (result ≡ list_to most_hours (term_in kind cells.now mask)) × SmallTerms result }
{
    list_to(|h| term_at(kind, cells, mask, h))
}

// The terms of the hours, added.
fn added(terms: [u64; layout::HOURS]) -> u64
    requires { SmallTerms terms }
    ensures { result ≡ sum_to most_hours (λ (h : ℕ). get_or terms h 0) }
{
    sum_to(layout::HOURS, |h| terms[h])
}

// The same of an event of kind k, else 0.
pub fn added_of(k: u8, kind: u8, terms: [u64; layout::HOURS]) -> u64
    requires { SmallTerms terms }
    ensures { result ≡ added_in k kind terms }
{
    if kind == k {
        return added(terms);
    }
    0
}

// What hour h takes from E; fuel alone has losses.
fn loss_at(kind: u8, cells: &[u8], mask: u32, h: usize) -> u64
    requires { (h < most_hours) × (cell_width * most_hours ≤ length cells.now) }
    ensures { result ≡ loss_in kind cells.now mask h }
{
    if kind == 3 {
        let hour = hour_energy(cells, mask, h);
        return hour.loss;
    }
    0
}

pub fn hour_losses(kind: u8, cells: &[u8], mask: u32) -> [u64; layout::HOURS]
    requires { cell_width * most_hours ≤ length cells.now }
    ensures { result ≡ list_to most_hours (loss_in kind cells.now mask) }
{
    list_to(|h| loss_at(kind, cells, mask, h))
}
