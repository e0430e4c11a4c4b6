ghost use Rattle.std.specs.Prelude.{true, false};
ghost use Rattle.job.specs.Cells.{marks_in};
ghost use Rattle.job.specs.Changes.{Paints, Loads};
ghost use Rattle.job.specs.Doors.{lent, start_door};
ghost use Rattle.job.specs.Moves.{Moves, IsWorking};

use crate::passes::copy_picture;
use crate::questions::{check_lent, check_place, check_start, keep};
use crate::states::{Kept, Painting, Working};
use grid::{Axis, Cell, Refusal};
use pictures::Picture;
use rules::Rule;

impl<R: Rule> Painting<R> {
    /// Marks the cell at a place. Refused where it is outside the grid (4).
    pub fn mark(&self, cells: &mut [Cell], place: (u32, u32, u32)) -> Result<(), Refusal>
        ensures { Paints result self.now.grid.sizes place true cells.old cells.new }
    {
        self.paint(cells, place, true)
    }

    /// Takes the mark of the cell at a place away. Refused where it is outside the grid (4).
    pub fn wipe(&self, cells: &mut [Cell], place: (u32, u32, u32)) -> Result<(), Refusal>
        ensures { Paints result self.now.grid.sizes place false cells.old cells.new }
    {
        self.paint(cells, place, false)
    }

    fn paint(&self, cells: &mut [Cell], place: (u32, u32, u32), marked: bool) -> Result<(), Refusal>
        ensures { Paints result self.now.grid.sizes place marked cells.old cells.new }
    {
        let number = check_place(self.grid, cells, place)?;
        cells[number as usize] = Cell::painted(marked, number);
        Ok(())
    }

    /// Marks all cells as a picture has them. Refused where its sizes are not the job's (5).
    pub fn load<P: Picture>(&self, cells: &mut [Cell], picture: &P) -> Result<(), Refusal>
        ensures { Loads result self.now.grid.sizes (P.extent picture.now) (P.marks picture.now) cells.old cells.new }
    {
        check_lent(self.grid, cells)?;
        if picture.sizes() != self.grid.sizes {
            return Err(Refusal::OtherSizes);
        }
        copy_picture(self.grid, cells, picture);
        Ok(())
    }

    /// Leads to axis 1. Refused where no cell is marked (6).
    pub fn start(self, cells: &[Cell]) -> Result<Working<R>, Kept<Painting<R>>>
        ensures { Moves result (lent self.grid.sizes cells.now (start_door self.grid.sizes (marks_in cells.now))) self (IsWorking self.rule self.grid.sizes 1) }
    {
        let answer = check_start(self.grid, cells);
        let Painting { rule, grid } = keep(self, answer)?;
        let axis = Axis { number: 1 };
        Ok(Working { rule, grid, axis })
    }
}
