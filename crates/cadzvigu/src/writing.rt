ghost use Rattle.std.specs.Prelude.{◌≡◌, ℕ, ◌<◌, true, length, is_some};
ghost use Rattle.grid.specs.Cells.{cell_at};
ghost use Rattle.cadzvigu.specs.Nearests.{CopiesCells};

use grid::Cell;

/// Copies the values and the points out of cells that all have a point, into two arrays, since C lends them so.
pub(crate) fn write_field(cells: &[Cell], values: &mut [u64], points: &mut [u32])
    requires values { length values.old ≡ length cells.now }
    requires points { length points.old ≡ length cells.now }
    requires reached { (k : ℕ) → k < length cells.now → is_some (cell_at cells.now k).point ≡ true }
    ensures { CopiesCells cells.now values.new points.new }
{
    // by index: of what a zip of two `iter_mut` writes nothing is known to the proof
    for (k, cell) in cells.iter().enumerate() {
        values[k] = cell.value;
        points[k] = cell.point.unwrap();
    }
}
