ghost use Rattle.std.specs.Prelude.{◌≡◌, ◌+◌, ◌*◌, length};
ghost use Rattle.pbm.specs.Form.{raster_bytes};

use crate::faults::StackFault;
use crate::images::row_bytes;
use crate::reading::{bit_is_set, read_stack};
use grid::{Grid, Sizes};
use pictures::Picture;

/// A picture over lent bytes that are a stack of images: layer z is image z, and a set bit is a marked cell.
#[derive(Clone, Copy)]
pub struct Stack<'a> {
    pub(crate) bytes: &'a [u8],
    pub(crate) grid: Grid,
    // how many bytes of an image come before its rows
    pub(crate) skip: usize,
    // from the start of an image to the start of the next
    pub(crate) stride: usize,
    ghost rows_follow: { stride ≡ skip + raster_bytes grid.sizes.nx grid.sizes.ny },
    ghost one_image_a_layer: { length bytes.now ≡ grid.sizes.nz * stride },
}

impl<'a> Stack<'a> {
    ghost use Rattle.std.specs.Prelude.{true, MatchResult};
    ghost use Rattle.grid.specs.Geometry.{inside};
    ghost use Rattle.pbm.specs.Faults.{FaultyBytes};
    ghost use Rattle.pbm.specs.Marks.{bit_at};
    ghost use Rattle.pbm.specs.Promises.{Shows, AcceptsStacks, TellsFault, FaultWithin};

    /// Takes bytes that are one image or more of one size, one after the other, and tells the fault of any others.
    pub fn new(bytes: &'a [u8]) -> Result<Stack<'a>, StackFault>
        ensures cases { MatchResult result (λ s. Shows s bytes.now) (λ f. FaultyBytes bytes.now f) }
        ensures accepts { AcceptsStacks bytes.now result }
        ensures tells { TellsFault bytes.now result }
        ensures within { FaultWithin bytes.now result }
    {
        read_stack(bytes)
    }

    /// Whether the bit of a place of the grid is set.
    fn bit_at(&self, place: (u32, u32, u32)) -> bool
        requires { inside self.now.grid.sizes place ≡ true }
        ensures { result ≡ bit_at self.now place }
    {
        let (x, y, z) = place;
        let in_image = self.skip + (y as usize * row_bytes(self.grid.sizes.nx) + (x / 8) as usize);
        let at = z as usize * self.stride + in_image;
        bit_is_set(self.bytes[at], x)
    }
}

impl<'a> Picture for Stack<'a> {
    ghost use Rattle.pbm.specs.Marks.{stack_extent, stack_marks, stack_lawful};

    ghost extent = { stack_extent };

    ghost marks = { stack_marks };

    ghost lawful = { stack_lawful };

    fn sizes(&self) -> Sizes {
        self.grid.sizes
    }

    fn marked(&self, place: (u32, u32, u32)) -> bool {
        self.grid.sizes.contains(place) && self.bit_at(place)
    }
}
