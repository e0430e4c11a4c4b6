ghost use Rattle.std.specs.Prelude.{◌≡◌, false, length};
ghost use Rattle.grid.specs.Geometry.{cell_count};
ghost use Rattle.grid.specs.Doors.{Admits};
ghost use Rattle.job.specs.Cells.{painted_cells};
ghost use Rattle.job.specs.Doors.{begin_door};
ghost use Rattle.job.specs.Moves.{Moves, Leaves, IsPainting};

use crate::passes::clear;
use crate::questions::check_lent;
use crate::states::{Kept, Painting};
use grid::{Cell, Grid, Refusal, Sizes};
use rules::Rule;

/// The grid of these sizes, if there is one and exactly its cells are lent.
fn grid_for(sizes: Sizes, cells: &[Cell]) -> Result<Grid, Refusal>
    ensures { Admits result (begin_door sizes cells.now) (λ grid. (grid.sizes ≡ sizes) × (length cells.now ≡ cell_count sizes)) }
{
    let grid = Grid::new(sizes)?;
    check_lent(grid, cells)?;
    Ok(grid)
}

/// Begins a job: every cell is unmarked, at level 0, and holds no point.
///
/// Refused where these are no sizes of a grid (1, 2), or not exactly as many cells are lent (3); the rule comes back then.
pub fn begin<R: Rule>(rule: R, sizes: Sizes, cells: &mut [Cell]) -> Result<Painting<R>, Kept<R>>
    ensures moves { Moves result (begin_door sizes cells.old) rule (IsPainting rule sizes) }
    ensures leaves { Leaves result cells.old cells.new (painted_cells (λ k. false) (cell_count sizes)) }
{
    // A match, as the rule goes into both arms.
    match grid_for(sizes, cells) {
        Ok(grid) => {
            clear(cells);
            Ok(Painting { rule, grid })
        }
        Err(refusal) => Err(Kept {
            state: rule,
            refusal,
        }),
    }
}
