//! The questions that the calls of a job ask of lent cells.
ghost use Rattle.std.specs.Prelude.{◌≡◌, ◌<◌, length, None};
ghost use Rattle.grid.specs.Doors.{Admits};
ghost use Rattle.grid.specs.Geometry.{cell_count, cell_number};
ghost use Rattle.job.specs.Cells.{marks_in, levels_in};
ghost use Rattle.job.specs.Moves.{Keeps};
ghost use Rattle.job.specs.Doors.{lent, place_door, start_door, raise_door};

use crate::passes::{all_at, any_marked};
use crate::states::Kept;
use grid::{Axis, Cell, Grid, Refusal};

/// The state, unless a question was answered no: then it comes back with the refusal.
pub(crate) fn keep<S>(state: S, answer: Result<(), Refusal>) -> Result<S, Kept<S>>
    ensures { Keeps result state answer }
{
    match answer {
        Ok(()) => Ok(state),
        Err(refusal) => Err(Kept { state, refusal }),
    }
}

/// Are exactly as many cells lent as the grid has? This is the first question of every call.
pub(crate) fn check_lent(grid: Grid, cells: &[Cell]) -> Result<(), Refusal>
    ensures { Admits result (lent grid.sizes cells.now None) (λ _. length cells.now ≡ cell_count grid.sizes) }
{
    if grid.fits(cells) {
        Ok(())
    } else {
        Err(Refusal::CellCount)
    }
}

/// Then: does the place lie in the grid? The number of its cell.
pub(crate) fn check_place(
    grid: Grid,
    cells: &[Cell],
    place: (u32, u32, u32),
) -> Result<u32, Refusal>
    ensures { Admits result (lent grid.sizes cells.now (place_door grid.sizes place)) (λ number. (number ≡ cell_number grid.sizes place) × (number < length cells.now)) }
{
    check_lent(grid, cells)?;
    if !grid.sizes.contains(place) {
        return Err(Refusal::OutsideGrid);
    }
    Ok(grid.number(place))
}

/// Then: is a cell marked?
pub(crate) fn check_start(grid: Grid, cells: &[Cell]) -> Result<(), Refusal>
    ensures { Admits result (lent grid.sizes cells.now (start_door grid.sizes (marks_in cells.now))) (λ _. Unit {0}) }
{
    check_lent(grid, cells)?;
    if !any_marked(cells) {
        return Err(Refusal::NoMark);
    }
    Ok(())
}

/// Then: do all cells stand at the level of the axis?
pub(crate) fn check_raise(grid: Grid, axis: Axis, cells: &[Cell]) -> Result<(), Refusal>
    ensures { Admits result (lent grid.sizes cells.now (raise_door grid.sizes axis.number (levels_in cells.now))) (λ _. Unit {0}) }
{
    check_lent(grid, cells)?;
    if !all_at(cells, axis.number) {
        return Err(Refusal::RowsLeft);
    }
    Ok(())
}
