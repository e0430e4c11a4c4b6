//! The cells of a grid, marked by chance and worked axis by axis.
ghost use Rattle.std.specs.Prelude.{◌≡◌, vec_len};
ghost use Rattle.grid.specs.Geometry.{cell_count};

use grid::{Axis, Cell, Grid, Refusal};
use rows::{Room, work_row};
use rules::Rule;
use std::alloc::{AllocError, Global};

/// A grid and its cells, one for each place.
#[derive(Drop)]
pub struct Board {
    grid: Grid,
    cells: Vec<Cell>,
    ghost one_cell_each: { vec_len cells ≡ cell_count grid.sizes },
}

impl Board {
    /// A board without marks.
    pub fn new(heap: Global, grid: Grid) -> Result<Board, AllocError> {
        let cells = vec![in heap; Cell::painted(false, 0); grid.count() as usize]?;
        Ok(Board { grid, cells })
    }

    /// Paints every cell: it is marked for `per_mille` of a thousand numbers of a generator.
    pub fn fill(&mut self, seed: u64, per_mille: u64) {
        let mut x = seed;
        for (k, cell) in self.cells.iter_mut().enumerate() {
            x = x
                .wrapping_mul(6364136223846793005)
                .wrapping_add(1442695040888963407);
            let marked = (x >> 33) % 1000 < per_mille;
            *cell = Cell::painted(marked, k as u32);
        }
    }

    /// Works each row of an axis, up to one that is refused.
    pub fn work_axis<R: Rule + Copy>(
        &mut self,
        rule: &R,
        axis: Axis,
        room: &mut Room,
    ) -> Result<(), Refusal> {
        // No write to a cell can change a copy of its own, which the compiler sees.
        let rule = *rule;
        let (grid, cells) = (self.grid, self.cells.as_mut_slice());
        for number in 0..grid.row_count(axis) {
            let row = grid.row(axis, number);
            work_row(&rule, axis, cells, row, room)?;
        }
        Ok(())
    }

    /// The sum of all values, its lowest 64 bits.
    pub fn sum(&self) -> u64 {
        self.cells
            .iter()
            .fold(0, |sum, cell| sum.wrapping_add(cell.value))
    }
}
