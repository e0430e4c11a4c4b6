ghost use Rattle.pictures.specs.Numbered.{marks_by_number};
ghost use Rattle.exhaustive.specs.Search.{FinishedCell, Searched};
ghost use Rattle.std.specs.Prelude.{◌≡◌, ◌<◌, length};
ghost use Rattle.grid.specs.Geometry.{cell_count};

use crate::nearest::nearest_in;
use grid::{Cell, Grid, Refusal};
use pictures::Picture;
use rules::Rule;

/// Fills the cells with the picture's finished field: each holds a nearest marked cell of the grid and its distance.
///
/// Refused, with the cells as they were, unless exactly one cell for each of the picture's is handed in.
pub fn search_field<R: Rule, P: Picture>(
    rule: &R,
    picture: &P,
    cells: &mut [Cell],
) -> Result<(), Refusal>
    ensures { Searched result (R.near rule.now) (P.extent picture.now) (marks_by_number (P.extent picture.now) (P.marks picture.now)) cells.old cells.new }
{
    let grid = picture.grid();
    if !grid.fits(cells) {
        return Err(Refusal::CellCount);
    }
    for (at, cell) in cells.iter_mut().enumerate() {
        *cell = finished_cell(rule, picture, grid, at as u32);
    }
    Ok(())
}

/// The finished record of one cell.
fn finished_cell<R: Rule, P: Picture>(rule: &R, picture: &P, grid: Grid, at: u32) -> Cell
    requires { at < cell_count grid.sizes }
    ensures { FinishedCell (R.near rule.now) grid.sizes (marks_by_number grid.sizes (P.marks picture.now)) at result }
{
    let (point, value) = match nearest_in(rule, picture, grid, at) {
        Some((from, value)) => (Some(from), value),
        None => (None, 0),
    };
    Cell {
        marked: picture.marked(grid.place(at)),
        level: 3,
        point,
        value,
    }
}
