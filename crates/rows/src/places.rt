//! The records of a row, by their places in it.
//!
//! A row's records stand in the lent slice of all cells, a stride apart, and are read and written there one by one. So the
//! functions take the slice and the row, and count the places.
ghost use Rattle.std.specs.Prelude.{◌≡◌, ◌^◌, ◌<◌, length, slice_set};
ghost use Rattle.grid.specs.RowGeometry.{LiesIn, row_at};
ghost use Rattle.grid.specs.Rows.{records};
ghost use Rattle.rows.specs.Passes.{renewed};

use grid::{Cell, Row};

/// The number of the cell at the place `t`.
fn number_at(row: Row, t: u16) -> usize
    requires { row_at row t < 2 ^ 64 }
    ensures { result ≡ row_at row t }
{
    row.start + row.stride * t as usize
}

/// The record at the place `t`.
pub(crate) fn load(cells: &[Cell], row: Row, t: u16) -> Cell
    requires row { LiesIn row (length cells.now) }
    requires place { t < row.count }
    ensures { result ≡ records cells.now (row_at row) t }
{
    cells[number_at(row, t)]
}

/// The parts of a record, marked, level, point and value, once its row is worked: its mark stays.
// A record's parts go in and out as a tuple, as places and answers of a look do.
fn worked_parts(
    parts: (bool, u8, Option<u32>, u64),
    level: u8,
    point: Option<u32>,
    value: u64,
) -> (bool, u8, Option<u32>, u64)
    ensures { result ≡ (parts.0, level, point, value) }
{
    let (marked, _, _, _) = parts;
    (marked, level, point, value)
}

/// Gives the cell at the place `t` a level, a point and a value; its mark stays.
pub(crate) fn store(cells: &mut [Cell], row: Row, t: u16, level: u8, point: Option<u32>, value: u64)
    requires row { LiesIn row (length cells.old) }
    requires place { t < row.count }
    ensures { cells.new ≡ slice_set cells.old (row_at row t) (renewed (records cells.old (row_at row) t) level point value) }
{
    let cell = load(cells, row, t);
    let parts = (cell.marked, cell.level, cell.point, cell.value);
    let (marked, level, point, value) = worked_parts(parts, level, point, value);
    cells[number_at(row, t)] = Cell {
        marked,
        level,
        point,
        value,
    };
}
