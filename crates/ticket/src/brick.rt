ghost use Rattle.std.specs.Prelude.{◌≡◌};
ghost use Rattle.ticket.specs.Bricks.{reaches, brick_extent, brick_marks, brick_lawful};

use grid::Sizes;
use pictures::Picture;

/// A picture that marks the cells of a grid between two corners, both among them.
#[derive(Clone, Copy)]
pub(crate) struct Brick {
    pub(crate) sizes: Sizes,
    pub(crate) low: (u32, u32, u32),
    pub(crate) high: (u32, u32, u32),
}

/// Whether no place of `p` is below that of the corner `a`.
fn reaches(p: (u32, u32, u32), a: (u32, u32, u32)) -> bool
    ensures { result ≡ reaches p a }
{
    a.0 <= p.0 && a.1 <= p.1 && a.2 <= p.2
}

impl Picture for Brick {
    ghost extent = { brick_extent };

    ghost marks = { brick_marks };

    ghost lawful = { brick_lawful };

    fn sizes(&self) -> Sizes {
        self.sizes.as_grid()
    }

    fn marked(&self, place: (u32, u32, u32)) -> bool {
        self.sizes().contains(place) && reaches(place, self.low) && reaches(self.high, place)
    }
}
