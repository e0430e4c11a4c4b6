ghost use Rattle.std.specs.Prelude.{◌≡◌, length};
ghost use Rattle.grid.specs.Geometry.{cell_count};

use crate::picture::Picture;
use grid::{Grid, Refusal, Sizes};

/// A picture over lent bytes, one for each cell in the order of the cell numbers. A byte that reaches the threshold
/// marks its cell; threshold 0 marks them all.
#[derive(Clone, Copy)]
pub struct Grey<'a> {
    grid: Grid,
    threshold: u8,
    bytes: &'a [u8],
    ghost one_byte_each: { length bytes.now ≡ cell_count grid.sizes },
}

impl<'a> Grey<'a> {
    ghost use Rattle.grid.specs.Doors.{Admits};
    ghost use Rattle.pictures.specs.Doors.{grey_door};
    ghost use Rattle.pictures.specs.Greys.{IsGrey};

    /// The picture of these sizes over these bytes.
    ///
    /// Refuses a size that is not from 1 to 1,023, then more than 16,777,216 cells, then another number of bytes than
    /// one for each cell.
    pub fn new(sizes: Sizes, threshold: u8, bytes: &'a [u8]) -> Result<Grey<'a>, Refusal>
        ensures { Admits result (grey_door sizes (length bytes.now)) (λ g. IsGrey g sizes threshold bytes.now) }
    {
        let grid = Grid::new(sizes)?;
        if !grid.fits(bytes) {
            return Err(Refusal::ByteCount);
        }
        Ok(Grey {
            grid,
            threshold,
            bytes,
        })
    }
}

impl<'a> Picture for Grey<'a> {
    ghost use Rattle.pictures.specs.Greys.{grey_extent, grey_marks, grey_lawful};

    ghost extent = { grey_extent };

    ghost marks = { grey_marks };

    ghost lawful = { grey_lawful };

    fn sizes(&self) -> Sizes {
        self.grid.sizes
    }

    fn marked(&self, place: (u32, u32, u32)) -> bool {
        if !self.grid.sizes.contains(place) {
            return false;
        }
        let i = self.grid.number(place) as usize;
        self.bytes[i] >= self.threshold
    }
}
