ghost use Rattle.std.specs.Prelude.{◌≡◌, ℕ, ◌+◌, ◌*◌, ◌<◌, ◌≤◌, true};
ghost use Rattle.std.specs.Option.{SomeIff};
ghost use Rattle.grid.specs.Doors.{Admits, sizes_door};
ghost use Rattle.grid.specs.Geometry.{IsGrid, is_size, sizes_fit, is_grid, as_grid, cell_count, inside, cell_number, place_of};

use crate::grids::Grid;
use crate::refusal::Refusal;

/// The largest size on an axis.
pub const MAX_SIZE: u32 = 1023;

/// The largest number of cells.
pub const MAX_CELLS: u32 = 16_777_216;

/// How many places a grid has on each of its three axes. A flat grid has one on the third.
#[derive(Clone, Copy, PartialEq, Eq, Debug)]
pub struct Sizes {
    pub nx: u32,
    pub ny: u32,
    pub nz: u32,
}

/// Whether a grid can have this size on an axis.
fn size_fits(n: u32) -> bool
    ensures { result ≡ is_size n }
{
    1 <= n && n <= MAX_SIZE
}

impl Sizes {
    /// Whether each size is from 1 to 1,023.
    fn fit(self) -> bool
        ensures { result ≡ sizes_fit self }
    {
        size_fits(self.nx) && size_fits(self.ny) && size_fits(self.nz)
    }

    /// Whether these are the sizes of a grid: each from 1 to 1,023, and at most 16,777,216 cells.
    pub fn is_grid(self) -> bool
        ensures { result ≡ is_grid self }
    {
        self.fit() && self.nx * self.ny * self.nz <= MAX_CELLS
    }

    /// These sizes where they are those of a grid, else those of a single cell.
    pub fn as_grid(self) -> Sizes
        ensures { result ≡ as_grid self }
    {
        if self.is_grid() {
            self
        } else {
            Sizes {
                nx: 1,
                ny: 1,
                nz: 1,
            }
        }
    }

    /// How many cells a grid of these sizes has, or why there is no such grid.
    pub fn count_cells(self) -> Result<u32, Refusal>
        ensures { Admits result (sizes_door self) (λ n. n ≡ cell_count self) }
    {
        if !self.fit() {
            return Err(Refusal::SizeRange);
        }
        let n = self.nx * self.ny * self.nz;
        if n > MAX_CELLS {
            return Err(Refusal::TooManyCells);
        }
        Ok(n)
    }

    /// Whether the place lies in the grid.
    pub fn contains(self, place: (u32, u32, u32)) -> bool
        ensures { result ≡ inside self place }
    {
        place.0 < self.nx && place.1 < self.ny && place.2 < self.nz
    }

    /// The number of the cell at a place of the grid; none outside it, and none where these are no grid's sizes.
    pub fn cell_number(self, place: (u32, u32, u32)) -> Option<u32>
        ensures { SomeIff result (IsGrid self × (inside self place ≡ true)) (cell_number self place) }
    {
        if self.is_grid() && self.contains(place) {
            let grid = Grid { sizes: self };
            Some(grid.number(place))
        } else {
            None
        }
    }

    /// The place of the cell with a number; none where the grid has no such cell.
    pub fn place_of(self, number: u32) -> Option<(u32, u32, u32)>
        ensures { SomeIff result (IsGrid self × (number < cell_count self)) (place_of self number) }
    {
        if self.is_grid() && number < self.nx * self.ny * self.nz {
            let grid = Grid { sizes: self };
            Some(grid.place(number))
        } else {
            None
        }
    }
}
