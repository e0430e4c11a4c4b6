ghost use Rattle.std.specs.Prelude.{◌≡◌, ◌+◌, ◌<◌, ◌≤◌, true, length, ◌==◌};
ghost use Rattle.grid.specs.Doors.{Admits, sizes_door};
ghost use Rattle.grid.specs.Geometry.{IsGrid, cell_count, inside, cell_number, place_of};
ghost use Rattle.grid.specs.RowGeometry.{row_count, row_of};

use crate::axis::Axis;
use crate::refusal::Refusal;
use crate::row::Row;
use crate::sizes::Sizes;

/// Sizes that are known to be those of a grid, so that its cells and rows can be asked for without a test.
#[derive(Clone, Copy)]
pub struct Grid {
    pub sizes: Sizes,
    pub ghost is: { IsGrid sizes },
}

impl Grid {
    /// The grid of these sizes, or why there is no such grid.
    pub fn new(sizes: Sizes) -> Result<Grid, Refusal>
        ensures { Admits result (sizes_door sizes) (λ grid. grid.sizes ≡ sizes) }
    {
        sizes.count_cells()?;
        Ok(Grid { sizes })
    }

    /// How many cells the grid has.
    pub fn count(self) -> u32
        ensures value { result ≡ cell_count self.sizes }
        ensures bound { result ≤ 16777216 }
    {
        let Sizes { nx, ny, nz } = self.sizes;
        nx * ny * nz
    }

    /// Whether there is exactly one item for each cell.
    pub fn fits<T>(self, items: &[T]) -> bool
        ensures { result ≡ (length items.now == cell_count self.sizes) }
    {
        items.len() == self.count() as usize
    }

    /// The number of the cell at a place of the grid.
    pub fn number(self, place: (u32, u32, u32)) -> u32
        requires { inside self.sizes place ≡ true }
        ensures value { result ≡ cell_number self.sizes place }
        ensures bound { result < cell_count self.sizes }
    {
        place.0 + self.sizes.nx * (place.1 + self.sizes.ny * place.2)
    }

    /// The place that belongs to a number.
    pub fn place(self, number: u32) -> (u32, u32, u32)
        ensures { result ≡ place_of self.sizes number }
    {
        let Sizes { nx, ny, nz: _ } = self.sizes;
        (number % nx, number / nx % ny, number / (nx * ny))
    }

    /// The place of the next cell by number, after the one at a place of the grid; after the last cell, where the next layer
    /// would begin. A loop over all places goes without a division so.
    pub fn next(self, place: (u32, u32, u32)) -> (u32, u32, u32)
        requires { inside self.sizes place ≡ true }
        ensures { result ≡ place_of self.sizes (cell_number self.sizes place + 1) }
    {
        let (x, y, z) = place;
        if x + 1 < self.sizes.nx {
            (x + 1, y, z)
        } else if y + 1 < self.sizes.ny {
            (0, y + 1, z)
        } else {
            (0, 0, z + 1)
        }
    }

    /// How many rows the axis has.
    pub fn row_count(self, axis: Axis) -> u32
        ensures { result ≡ row_count self.sizes axis.number }
    {
        let Sizes { nx, ny, nz } = self.sizes;
        match axis.number {
            1 => ny * nz,
            2 => nx * nz,
            _ => nx * ny,
        }
    }

    /// The row of a number that the axis has.
    pub fn row(self, axis: Axis, number: u32) -> Row
        requires { number < row_count self.sizes axis.number }
        ensures { result ≡ row_of self.sizes axis.number number }
    {
        let (nx, ny) = (self.sizes.nx as usize, self.sizes.ny as usize);
        let number = number as usize;
        match axis.number {
            1 => Row {
                start: nx * number,
                stride: 1,
                count: self.sizes.nx as u16,
            },
            2 => Row {
                start: number % nx + nx * ny * (number / nx),
                stride: nx,
                count: self.sizes.ny as u16,
            },
            _ => Row {
                start: number,
                stride: nx * ny,
                count: self.sizes.nz as u16,
            },
        }
    }
}
