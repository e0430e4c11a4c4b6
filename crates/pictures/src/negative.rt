ghost use Rattle.std.specs.Prelude.{◌≡◌, not, ◌&&◌};
ghost use Rattle.pictures.specs.Laws.{lawful_within};
ghost use Rattle.pictures.specs.Negatives.{MarksTheRest, negative_marks};

use crate::picture::Picture;
use grid::Sizes;

/// The negative of a picture: it has the same grid, and marks the cells of it that the picture does not.
#[derive(Drop)]
pub struct Negative<'a, P> {
    of: &'a P,
}

impl<'a, P: Picture> Negative<'a, P> {
    /// The negative of this picture.
    pub fn new(of: &'a P) -> Negative<'a, P>
        ensures picture { result.of.now ≡ of.now }
        ensures rest { MarksTheRest (P.extent of.now) (P.marks of.now) (negative_marks (P.extent of.now) (P.marks of.now)) }
    {
        Negative { of }
    }
}

impl<'a, P: Picture> Picture for Negative<'a, P> {
    ghost extent = { λ n. P.extent n.of.now };

    ghost marks = { λ n. negative_marks (P.extent n.of.now) (P.marks n.of.now) };

    ghost lawful = { lawful_within (λ n. P.extent n.of.now) (λ n at. not (P.marks n.of.now at)) (λ n. P.Picture.lawful.grid n.of.now) };

    fn sizes(&self) -> Sizes {
        self.of.sizes()
    }

    fn marked(&self, place: (u32, u32, u32)) -> bool {
        self.of.sizes().contains(place) && !self.of.marked(place)
    }
}
