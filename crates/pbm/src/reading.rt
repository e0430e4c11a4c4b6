//! Reads a stack of images.
ghost use Rattle.std.specs.Prelude.{◌≡◌, ℕ, List, MatchOption, MatchResult};
ghost use Rattle.grid.specs.Geometry.{IsGrid};
ghost use Rattle.pbm.specs.Form.{IsStack, sizes_of};
ghost use Rattle.pbm.specs.Faults.{Opens, FaultyBytes};
ghost use Rattle.pbm.specs.Marks.{bit_is_set};
ghost use Rattle.pbm.specs.Promises.{Shows};

use crate::faults::{Cause, StackFault};
use crate::images::{read_header, read_image, row_bytes};
use crate::stack::Stack;
use grid::{Grid, MAX_SIZE, Sizes};

/// Counts the images, each of the size of the first.
fn count_images(bytes: &[u8], width: u32, height: u32) -> Result<usize, StackFault>
    requires { (rest : List ℕ) × Opens bytes.now width height rest }
    ensures { MatchResult result (λ n. IsStack bytes.now (sizes_of width height n)) (λ f. FaultyBytes bytes.now f) }
{
    // Counted by hand: where an image begins is known only once the one before is read, so there is nothing to enumerate.
    let mut rest = bytes;
    let mut images = 0;
    while !rest.is_empty() {
        let start = bytes.len() - rest.len();
        rest = read_image(rest, width, height).map_err(|fault| fault.in_image(images, start))?;
        images += 1;
    }
    Ok(images)
}

/// The grid of a stack; none where so many cells or images are too many.
fn stack_grid(width: u32, height: u32, images: usize) -> Option<Grid>
    ensures { MatchOption result (IsGrid (sizes_of width height images) → ⊥) (λ grid. grid.sizes ≡ sizes_of width height images) }
{
    if images > MAX_SIZE as usize {
        return None;
    }
    let sizes = Sizes {
        nx: width,
        ny: height,
        nz: images as u32,
    };
    Grid::new(sizes).ok()
}

/// Reads the first header, then every image, and then asks whether there are too many.
pub(crate) fn read_stack(bytes: &[u8]) -> Result<Stack<'_>, StackFault>
    ensures { MatchResult result (λ s. Shows s bytes.now) (λ f. FaultyBytes bytes.now f) }
{
    let header = read_header(bytes).map_err(|fault| fault.in_image(0, 0))?;
    let images = count_images(bytes, header.width, header.height)?;
    let Some(grid) = stack_grid(header.width, header.height, images) else {
        return Err(StackFault {
            cause: Cause::TooLarge,
            image: 0,
            byte: 0,
        });
    };
    let skip = bytes.len() - header.rest.len();
    let stride = skip + row_bytes(header.width) * header.height as usize;
    Ok(Stack {
        bytes,
        grid,
        skip,
        stride,
    })
}

/// Whether the bit of a cell at place x of its row is set in its byte, the highest bit first.
pub(crate) fn bit_is_set(byte: u8, x: u32) -> bool
    ensures { result ≡ bit_is_set byte x }
{
    (byte >> (7 - x % 8)) % 2 == 1
}
