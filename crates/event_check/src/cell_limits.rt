// Hour cells: the part of limits 10 and 13 that looks at each hour.
ghost use Rattle.std.specs.Prelude.{◌≡◌, ◌*◌, ◌≤◌, length};
ghost use Rattle.binary.specs.Bounded.{all_to};
ghost use Rattle.casefile.specs.Layout.{cell_width, most_hours};
ghost use Rattle.event_check.specs.StageReading.{cell_fine_at, amount_within};

use binary::bounded::all_to;
use binary::words::Word;
use casefile::cells::cell_at;
use casefile::layout;
use tariff::ranges;

// The ranges of the cells of kind 1.
fn withheld_cells(cells: &[u8]) -> bool
    requires { cell_width * most_hours ≤ length cells.now }
    ensures { result ≡ all_to most_hours (cell_fine_at 1 0 cells.now) }
{
    all_to(layout::HOURS, |h| {
        let cell = cell_at(cells, h);
        cell.b.is_within(ranges::HIGHEST_PRICE) & (cell.m == 0)
    })
}

// Of kind 2.
fn dispatch_cells(cells: &[u8]) -> bool
    requires { cell_width * most_hours ≤ length cells.now }
    ensures { result ≡ all_to most_hours (cell_fine_at 2 0 cells.now) }
{
    all_to(layout::HOURS, |h| {
        let cell = cell_at(cells, h);
        (cell.b <= ranges::HIGHEST_REVENUE) & (cell.m == 0)
    })
}

// Of kind 3.
fn fuel_cells(cells: &[u8]) -> bool
    requires { cell_width * most_hours ≤ length cells.now }
    ensures { result ≡ all_to most_hours (cell_fine_at 3 0 cells.now) }
{
    all_to(layout::HOURS, |h| {
        let cell = cell_at(cells, h);
        let change = cell.b.is_within(ranges::HIGHEST_PRICE_CHANGE);
        (cell.a <= ranges::HIGHEST_ENERGY) & change & (cell.m == 0)
    })
}

// Of kind 4.
fn bid_cells(component: u8, cells: &[u8]) -> bool
    requires { cell_width * most_hours ≤ length cells.now }
    ensures { result ≡ all_to most_hours (cell_fine_at 4 component cells.now) }
{
    all_to(layout::HOURS, |h| {
        let cell = cell_at(cells, h);
        let bid = ranges::bid_in_range(component, cell.a);
        bid & cell.b.is_within(ranges::HIGHEST_PRICE) & (cell.m <= ranges::HIGHEST_MEGAWATTS)
    })
}

// The ranges of an event's cells: the kind is asked once, and not in each hour.
pub fn cells_fine(kind: u8, component: u8, cells: &[u8]) -> bool
    requires { cell_width * most_hours ≤ length cells.now }
    ensures { result ≡ all_to most_hours (cell_fine_at kind component cells.now) }
{
    if kind == 1 {
        return withheld_cells(cells);
    }
    if kind == 2 {
        return dispatch_cells(cells);
    }
    if kind == 3 {
        return fuel_cells(cells);
    }
    if kind == 4 {
        return bid_cells(component, cells);
    }
    true
}

// Whether no a is above the capability.
pub fn amounts_within(capability: u32, cells: &[u8]) -> bool
    requires { cell_width * most_hours ≤ length cells.now }
    ensures { result ≡ all_to most_hours (amount_within capability cells.now) }
{
    all_to(layout::HOURS, |h| cell_at(cells, h).a <= capability)
}
