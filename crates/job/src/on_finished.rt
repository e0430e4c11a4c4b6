ghost use Rattle.std.specs.Prelude.{length, None};
ghost use Rattle.job.specs.Cells.{marks_in, painted_cells};
ghost use Rattle.job.specs.Changes.{Looks};
ghost use Rattle.job.specs.Doors.{lent};
ghost use Rattle.job.specs.Moves.{Moves, Leaves, IsPainting};

use crate::passes::repaint;
use crate::questions::{check_lent, check_place, keep};
use crate::states::{Finished, Kept, Painting};
use grid::{Cell, Refusal};
use rules::Rule;

impl<R: Rule> Finished<R> {
    /// The point that the cell at a place holds, and its distance; none where no cell is marked. Refused outside the
    /// grid (4).
    pub fn look(
        &self,
        cells: &[Cell],
        place: (u32, u32, u32),
    ) -> Result<Option<(u32, u64)>, Refusal>
        ensures { Looks result self.now.grid.sizes place cells.now }
    {
        let number = check_place(self.grid, cells, place)?;
        let cell = cells[number as usize];
        Ok(cell.point.map(|point| (point, cell.value)))
    }

    /// Leads back to painting: every cell gets its painted record.
    // `Working` has the same: a trait over the two states would be longer than the method.
    pub fn reopen(self, cells: &mut [Cell]) -> Result<Painting<R>, Kept<Finished<R>>>
        ensures moves { Moves result (lent self.grid.sizes cells.old None) self (IsPainting self.rule self.grid.sizes) }
        ensures leaves { Leaves result cells.old cells.new (painted_cells (marks_in cells.old) (length cells.old)) }
    {
        let answer = check_lent(self.grid, cells);
        let Finished { rule, grid } = keep(self, answer)?;
        repaint(cells);
        Ok(Painting { rule, grid })
    }
}
