// The bytes of the file that holds a field.
ghost use Rattle.std.specs.Prelude.{◌≡◌, ◌+◌, ◌*◌, ◌<◌, ◌≤◌, length};
ghost use Rattle.std.specs.Fn.{FnReturnsAt};
ghost use Rattle.grid.specs.Cells.{cell_at};
ghost use Rattle.volumes.specs.Files.{point_number, file_byte, Puts, PutsBy, IsByteOf};

use grid::Cell;

/// Why a chunk of the file was not written.
#[derive(Clone, Copy, Debug)]
pub enum ChunkFault {
    /// The chunk does not hold a whole number of cells.
    Uneven,
    /// The cells end before the chunk does.
    PastEnd,
}

/// The number that stands for a point: all ones where there is none.
fn point_number(point: Option<u32>) -> u32
    ensures { result ≡ point_number point }
{
    point.unwrap_or(u32::MAX)
}

/// Fills the bytes with a number of each cell, of the cells from one on, in the `N` lowest bytes of that number.
///
/// Refused, with the bytes as they were, where they are not a multiple of `N`, or where the cells end before.
fn put_each<const N: usize, F: Fn(&Cell) -> u64>(
    cells: &[Cell],
    from: usize,
    bytes: &mut [u8],
    number: F,
) -> Result<(), ChunkFault>
    requires width { (0 < N) × (N ≤ 8) }
    requires callable { F.IsAlwaysCallable number }
    ensures { PutsBy result N (length cells.now) from (IsByteOf (λ k. FnReturnsAt F.Fn number (cell_at cells.now k)) N from) bytes.old bytes.new }
{
    if bytes.len() % N != 0 {
        return Err(ChunkFault::Uneven);
    }
    let count = bytes.len() / N;
    if from > cells.len() || count > cells.len() - from {
        return Err(ChunkFault::PastEnd);
    }
    for (k, cell) in cells[from..from + count].iter().enumerate() {
        bytes[N * k..N * k + N].copy_from_slice(&number(cell).to_le_bytes()[..N]);
    }
    Ok(())
}

/// Fills the bytes with the values of the cells from a number on: those that the file has from eight times that number on.
///
/// Refused, with the bytes as they were, where they are not a multiple of 8, or where the cells end before.
pub fn put_values(cells: &[Cell], from: usize, bytes: &mut [u8]) -> Result<(), ChunkFault>
    ensures { Puts result 8 (length cells.now) from (λ i. file_byte cells.now (8 * from + i)) bytes.old bytes.new }
{
    put_each::<8, _>(cells, from, bytes, |cell| cell.value)
}

/// Fills the bytes with the points of the cells from a number on: those that the file has, after all values, from four
/// times that number on.
///
/// Refused, with the bytes as they were, where they are not a multiple of 4, or where the cells end before.
pub fn put_points(cells: &[Cell], from: usize, bytes: &mut [u8]) -> Result<(), ChunkFault>
    ensures { Puts result 4 (length cells.now) from (λ i. file_byte cells.now (8 * length cells.now + (4 * from + i))) bytes.old bytes.new }
{
    put_each::<4, _>(
        cells,
        from,
        bytes,
        |cell| u64::from(point_number(cell.point)),
    )
}
