// Hour cells: the reader.
ghost use Rattle.std.specs.Prelude.{◌≡◌, ◌*◌, ◌≤◌, ◌<◌, length};
ghost use Rattle.casefile.specs.Layout.{cell_width, most_hours};
ghost use Rattle.casefile.specs.StageRead.{cell_of};

use crate::layout;
use binary::bytes::load;

#[derive(Clone, Copy)]
pub struct Cell {
    pub a: u32,
    pub b: u32,
    pub m: u32,
}

// The cell of hour h, of the part of an event where its cells begin; what follows the last cell is not read.
pub fn cell_at(cells: &[u8], h: usize) -> Cell
    requires { (h < most_hours) × (cell_width * most_hours ≤ length cells.now) }
    ensures { result ≡ cell_of cells.now h }
{
    let at = layout::CELL_WIDTH * h;
    Cell {
        a: load::<u32>(cells, at),
        b: load::<u32>(cells, at + 4),
        m: load::<u32>(cells, at + 8),
    }
}
