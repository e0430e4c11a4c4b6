ghost use Rattle.std.specs.Prelude.{◌≡◌};
ghost use Rattle.grid.specs.Doors.{Admits};
ghost use Rattle.pictures.specs.Doors.{fits_doubled, half_grid_door};
ghost use Rattle.pictures.specs.Faces.{AnswersHalfGrid, half_sizes, half_extent, half_marks, differ, mixed_corners};
ghost use Rattle.pictures.specs.Laws.{lawful_as_grid};

use crate::picture::Picture;
use grid::{MAX_CELLS, Refusal, Sizes};

/// The largest size of a picture that has a half-grid.
const MAX_SIZE_BELOW: u32 = 512;

/// The half-grid of a picture: 2n - 1 places where the picture has n, so that the cell at (x, y, z) stands at
/// (2x, 2y, 2z). It marks the face places, those on the faces between a marked and an unmarked cell, with the edges
/// and corners of these faces.
#[derive(Drop)]
pub struct HalfGrid<'a, P> {
    below: &'a P,
}

/// Whether the cell at a place is unlike one that is marked, or not, as `first` says.
fn differs<P: Picture>(below: &P, first: bool, place: (u32, u32, u32)) -> bool
    ensures { result ≡ differ first (P.marks below.now place) }
{
    first != below.marked(place)
}

/// Whether the corners of a place, the cells at half of it, rounded down and up on each axis, are not all alike.
fn has_mixed_corners<P: Picture>(below: &P, place: (u32, u32, u32)) -> bool
    ensures { result ≡ mixed_corners (P.marks below.now) place }
{
    let (x, y, z) = place;
    let (x0, y0, z0) = (x / 2, y / 2, z / 2);
    let (x1, y1, z1) = (x - x0, y - y0, z - z0);
    let first = below.marked((x0, y0, z0));
    differs(below, first, (x1, y0, z0))
        || differs(below, first, (x0, y1, z0))
        || differs(below, first, (x1, y1, z0))
        || differs(below, first, (x0, y0, z1))
        || differs(below, first, (x1, y0, z1))
        || differs(below, first, (x0, y1, z1))
        || differs(below, first, (x1, y1, z1))
}

/// The sizes of the half-grid of a picture, also where there can be no such grid.
fn half_sizes<P: Picture>(below: &P) -> Sizes
    ensures { result ≡ half_sizes (P.extent below.now) }
{
    let sizes = below.sizes();
    Sizes {
        nx: 2 * sizes.nx - 1,
        ny: 2 * sizes.ny - 1,
        nz: 2 * sizes.nz - 1,
    }
}

/// Whether the half-grid of a picture of these sizes has at most 1,023 places on each axis.
fn fits_doubled(sizes: Sizes) -> bool
    ensures { result ≡ fits_doubled sizes }
{
    sizes.nx <= MAX_SIZE_BELOW && sizes.ny <= MAX_SIZE_BELOW && sizes.nz <= MAX_SIZE_BELOW
}

impl<'a, P: Picture> HalfGrid<'a, P> {
    /// The half-grid of this picture.
    ///
    /// Refuses a picture with a size above 512, then a half-grid of more than 16,777,216 places.
    pub fn new(below: &'a P) -> Result<HalfGrid<'a, P>, Refusal>
        ensures { Admits result (half_grid_door (P.extent below.now)) (λ h. (h.below.now ≡ below.now) × AnswersHalfGrid (P.extent below.now) (P.marks below.now)) }
    {
        if !fits_doubled(below.sizes()) {
            return Err(Refusal::HalfGridSize);
        }
        let half = half_sizes(below);
        if half.nx * half.ny * half.nz > MAX_CELLS {
            return Err(Refusal::TooManyCells);
        }
        Ok(HalfGrid { below })
    }
}

// The sizes are worked out from the picture below at each call: they are its own, and kept beside it they would be said twice.
impl<'a, P: Picture> Picture for HalfGrid<'a, P> {
    ghost extent = { λ h. half_extent (P.extent h.below.now) };

    ghost marks = { λ h. half_marks (P.extent h.below.now) (P.marks h.below.now) };

    ghost lawful = { lawful_as_grid (λ h. half_sizes (P.extent h.below.now)) (λ h. mixed_corners (P.marks h.below.now)) };

    fn sizes(&self) -> Sizes {
        half_sizes(self.below).as_grid()
    }

    fn marked(&self, place: (u32, u32, u32)) -> bool {
        self.sizes().contains(place) && has_mixed_corners(self.below, place)
    }
}
