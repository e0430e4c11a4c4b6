ghost use Rattle.std.specs.Prelude.{◌≡◌, length, None};
ghost use Rattle.grid.specs.RowGeometry.{row_count};
ghost use Rattle.job.specs.Cells.{marks_in, levels_in, painted_cells};
ghost use Rattle.job.specs.Changes.{WorksRow};
ghost use Rattle.job.specs.Doors.{lent, raise_door};
ghost use Rattle.job.specs.Moves.{Moves, Leaves, IsPainting, Rises};

use crate::passes::repaint;
use crate::questions::{check_lent, check_raise, keep};
use crate::states::{Finished, Kept, Painting, Raised, Working};
use grid::{Cell, Refusal};
use rows::{Room, work_row};
use rules::Rule;

impl<R: Rule> Working<R> {
    /// The number of the job's axis: 1, 2 or 3.
    pub fn axis_number(&self) -> u8
        ensures { result ≡ self.now.axis.number }
    {
        self.axis.number
    }

    /// How many rows the job's axis has.
    pub fn row_count(&self) -> u32
        ensures { result ≡ row_count self.now.grid.sizes self.now.axis.number }
    {
        self.grid.row_count(self.axis)
    }

    /// Works the row of a number on the job's axis: each cell of it gets a nearest of the points that the row holds. Marks
    /// and other cells stay.
    ///
    /// Refused where the axis has no such row (7), where a cell of it does not stand at the level below the axis (8), or
    /// where a value in it is above the rule's ceiling (9), which only cells from elsewhere can have.
    pub fn row(&self, cells: &mut [Cell], number: u32) -> Result<(), Refusal>
        ensures { WorksRow result (R.near self.now.rule) (R.ceiling self.now.rule) self.now.grid.sizes self.now.axis.number number cells.old cells.new }
    {
        let mut room = Room::new();
        self.row_in(cells, number, &mut room)
    }

    /// The same with room that is lent: made once for many rows, it need not be cleared for each.
    pub fn row_in(&self, cells: &mut [Cell], number: u32, room: &mut Room) -> Result<(), Refusal>
        ensures { WorksRow result (R.near self.now.rule) (R.ceiling self.now.rule) self.now.grid.sizes self.now.axis.number number cells.old cells.new }
    {
        check_lent(self.grid, cells)?;
        if number >= self.row_count() {
            return Err(Refusal::NoSuchRow);
        }
        let row = self.grid.row(self.axis, number);
        work_row(&self.rule, self.axis, cells, row, room)
    }

    /// Leads to the next axis, and from axis 3 to the end. Refused where a cell does not stand at the axis' level (10).
    pub fn raise(self, cells: &[Cell]) -> Result<Raised<R>, Kept<Working<R>>>
        ensures { Moves result (lent self.grid.sizes cells.now (raise_door self.grid.sizes self.axis.number (levels_in cells.now))) self (Rises self.rule self.grid.sizes self.axis.number) }
    {
        let answer = check_raise(self.grid, self.axis, cells);
        let job = keep(self, answer)?;
        Ok(job.raised())
    }

    /// The job on the next axis, or at its end.
    fn raised(self) -> Raised<R>
        ensures { Rises self.rule self.grid.sizes self.axis.number result }
    {
        let Working { rule, grid, axis } = self;
        match axis.next() {
            Some(axis) => Raised::Next(Working { rule, grid, axis }),
            None => Raised::Last(Finished { rule, grid }),
        }
    }

    /// Leads back to painting: every cell gets its painted record.
    pub fn reopen(self, cells: &mut [Cell]) -> Result<Painting<R>, Kept<Working<R>>>
        ensures moves { Moves result (lent self.grid.sizes cells.old None) self (IsPainting self.rule self.grid.sizes) }
        ensures leaves { Leaves result cells.old cells.new (painted_cells (marks_in cells.old) (length cells.old)) }
    {
        let answer = check_lent(self.grid, cells);
        let job = keep(self, answer)?;
        repaint(cells);
        Ok(Painting {
            rule: job.rule,
            grid: job.grid,
        })
    }
}
