ghost use Rattle.std.specs.Prelude.{◌≡◌, ℕ, ◌<◌};
ghost use Rattle.std.specs.Option.{SomeIff};
ghost use Rattle.grid.specs.Geometry.{IsGrid};
ghost use Rattle.grid.specs.RowGeometry.{OnAxis, HasRow, row_count, row_of};

use crate::axis::Axis;
use crate::grids::Grid;
use crate::sizes::Sizes;

/// The cells of one row of a grid: `count` of them, `stride` numbers apart, from the cell `start` on.
#[derive(Clone, Copy, PartialEq, Eq, Debug)]
pub struct Row {
    pub start: usize,
    pub stride: usize,
    pub count: u16,
}

impl Sizes {
    // Here and in the calls of a rule the axis is any number: what is answered for each may not be asked of callers as a type.

    /// How many rows an axis, 1 to 3, has; none on any other axis, and none where these are no grid's sizes.
    pub fn row_count(self, axis: u8) -> Option<u32>
        ensures { SomeIff result (IsGrid self × OnAxis axis) (row_count self axis) }
    {
        let grid = Grid::new(self).ok()?;
        Some(grid.row_count(Axis::new(axis)?))
    }

    /// A row of an axis, 1 to 3, by its number: y + ny * z on axis 1, x + nx * z on axis 2, x + nx * y on axis 3.
    /// There is none with a number past the last, on any other axis, or where these are no grid's sizes.
    pub fn row(self, axis: u8, number: u32) -> Option<Row>
        ensures { SomeIff result (HasRow self axis number) (row_of self axis number) }
    {
        let grid = Grid::new(self).ok()?;
        let axis = Axis::new(axis)?;
        if number < grid.row_count(axis) {
            Some(grid.row(axis, number))
        } else {
            None
        }
    }
}
