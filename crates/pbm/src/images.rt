// The header and the rows of one image.
ghost use Rattle.std.specs.Prelude.{◌≡◌, ◌+◌, ◌^◌, ◌<◌, MatchOption, MatchResult};
ghost use Rattle.grid.specs.Geometry.{IsSize};
ghost use Rattle.numerals.specs.Prefixes.{Follows, NotPrefix};
ghost use Rattle.pbm.specs.Causes.{fault_in};
ghost use Rattle.pbm.specs.Form.{magic, row_bytes};
ghost use Rattle.pbm.specs.Faults.{Opens, Begins, FaultyHeader, FaultyImage};

use crate::faults::{Cause, StackFault};
use grid::MAX_SIZE;
use numerals::{Ending, read_number};

/// A fault of one image, its byte counted from the image's start.
#[derive(Clone, Copy)]
pub struct ImageFault {
    pub cause: Cause,
    pub byte: usize,
}

impl ImageFault {
    /// The same fault of a whole stack, whose image of this number starts at the byte `start`.
    pub fn in_image(self, image: usize, start: usize) -> StackFault
        requires { start + self.byte < 2 ^ 64 }
        ensures { result ≡ fault_in self.cause image (start + self.byte) }
    {
        StackFault {
            cause: self.cause,
            image,
            byte: start + self.byte,
        }
    }
}

/// What the header of an image says, and what comes after it.
#[derive(Clone, Copy)]
pub struct Header<'a> {
    pub width: u32,
    pub height: u32,
    pub rest: &'a [u8],
}

/// What comes after `P4` and a line feed.
// A slice pattern shows the three bytes where `numerals::after_prefix` would hide them in an argument.
fn after_magic(text: &[u8]) -> Option<&[u8]>
    ensures { MatchOption result (NotPrefix magic text.now) (λ rest. Follows magic rest.now text.now) }
{
    match text {
        [b'P', b'4', b'\n', rest @ ..] => Some(rest),
        _ => None,
    }
}

/// Reads the header at the start of an image.
pub fn read_header(text: &[u8]) -> Result<Header<'_>, ImageFault>
    ensures { MatchResult result (λ h. Opens text.now h.width h.height h.rest.now) (λ f. FaultyHeader text.now f.cause f.byte) }
{
    let Some(sizes) = after_magic(text) else {
        return Err(ImageFault {
            cause: Cause::Magic,
            byte: 0,
        });
    };
    let Some((width, second)) = read_number(sizes, MAX_SIZE as u16, Ending::Space) else {
        return Err(ImageFault {
            cause: Cause::Number,
            byte: 3,
        });
    };
    let Some((height, rest)) = read_number(second, MAX_SIZE as u16, Ending::LineFeed) else {
        return Err(ImageFault {
            cause: Cause::Number,
            byte: text.len() - second.len(),
        });
    };
    Ok(Header {
        width,
        height,
        rest,
    })
}

/// How many bytes a row has: one for eight cells, the last filled up with padding.
pub fn row_bytes(width: u32) -> usize
    ensures { result ≡ row_bytes width }
{
    (width as usize).div_ceil(8)
}

/// Reads an image that is to have this width and height, and answers what comes after it.
pub fn read_image(text: &[u8], width: u32, height: u32) -> Result<&[u8], ImageFault>
    requires width { IsSize width }
    requires height { IsSize height }
    ensures { MatchResult result (λ rest. Begins text.now width height rest.now) (λ f. FaultyImage text.now width height f.cause f.byte) }
{
    let header = read_header(text)?;
    if header.width != width || header.height != height {
        return Err(ImageFault {
            cause: Cause::OtherSize,
            byte: 3,
        });
    }
    let raster = row_bytes(width) * height as usize;
    if header.rest.len() < raster {
        return Err(ImageFault {
            cause: Cause::Short,
            byte: text.len(),
        });
    }
    Ok(&header.rest[raster..])
}
