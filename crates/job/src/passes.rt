//! Passes over all cells.
ghost use Rattle.std.specs.Prelude.{◌≡◌, ◌≤◌, false, length, nat_eq};
ghost use Rattle.grid.specs.Geometry.{cell_count};
ghost use Rattle.grid.specs.RowDoors.{all_places};
ghost use Rattle.pictures.specs.Numbered.{marks_by_number};
ghost use Rattle.job.specs.Cells.{marks_in, levels_in, painted_cells};
ghost use Rattle.job.specs.Doors.{some_place};

use grid::{Cell, Grid};
use pictures::Picture;

/// Paints every cell unmarked.
pub(crate) fn clear(cells: &mut [Cell])
    requires { length cells.old ≤ 16777216 }
    ensures { cells.new ≡ painted_cells (λ k. false) (length cells.old) }
{
    for (k, cell) in cells.iter_mut().enumerate() {
        *cell = Cell::painted(false, k as u32);
    }
}

/// Paints every cell as it is marked now.
// A loop of its own beside `clear`: one over a closure for the mark would need a clause on what that gave at each cell, longer
// than either.
pub(crate) fn repaint(cells: &mut [Cell])
    requires { length cells.old ≤ 16777216 }
    ensures { cells.new ≡ painted_cells (marks_in cells.old) (length cells.old) }
{
    for (k, cell) in cells.iter_mut().enumerate() {
        *cell = Cell::painted(cell.marked, k as u32);
    }
}

/// Paints every cell as a picture marks it.
pub(crate) fn copy_picture<P: Picture>(grid: Grid, cells: &mut [Cell], picture: &P)
    requires { length cells.old ≡ cell_count grid.sizes }
    ensures { cells.new ≡ painted_cells (marks_by_number grid.sizes (P.marks picture.now)) (cell_count grid.sizes) }
{
    let mut place = (0, 0, 0);
    for (k, cell) in cells.iter_mut().enumerate() {
        *cell = Cell::painted(picture.marked(place), k as u32);
        place = grid.next(place);
    }
}

/// Whether a cell is marked.
// Here and below a loop over the cells, as the two questions of a job are asked cell by cell.
pub(crate) fn any_marked(cells: &[Cell]) -> bool
    ensures { result ≡ some_place (length cells.now) (marks_in cells.now) }
{
    for cell in cells {
        if cell.marked {
            return true;
        }
    }
    false
}

/// Whether all cells stand at a level.
pub(crate) fn all_at(cells: &[Cell], level: u8) -> bool
    ensures { result ≡ all_places (length cells.now) (λ k. nat_eq (levels_in cells.now k) level) }
{
    for cell in cells {
        if cell.level != level {
            return false;
        }
    }
    true
}
