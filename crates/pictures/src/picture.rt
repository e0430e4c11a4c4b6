ghost use Rattle.std.specs.Prelude.{◌≡◌, Bool};
ghost use Rattle.grid.specs.Geometry.{Place};
ghost use Rattle.grid.specs.declared.sizes.Sizes.{Sizes as GridSizes};
ghost use Rattle.pictures.specs.Laws.{Lawful};

use grid::{Grid, Sizes};

/// A picture: the sizes of a grid, and for any place whether the cell there is marked.
///
/// Every value of a picture's type has the sizes of a grid and marks nothing outside it, so nothing is asked of a
/// caller, and no call changes the picture.
pub trait Picture {
    // the sizes of the picture's grid
    ghost extent: { Self → GridSizes };

    // whether the cell at a place is marked
    ghost marks: { Self → Place → Bool };

    // every picture has the sizes of a grid, and marks no place outside it
    ghost lawful: { Lawful extent marks };

    /// The sizes of the picture's grid.
    fn sizes(&self) -> Sizes
        ensures { result ≡ extent self.now };

    /// Whether the cell at a place is marked; outside the grid it is not.
    fn marked(&self, place: (u32, u32, u32)) -> bool
        ensures { result ≡ marks self.now place };

    /// The picture's grid, which has these sizes.
    fn grid(&self) -> Grid
        ensures { result.sizes ≡ extent self.now }
    {
        let sizes = self.sizes();
        Grid { sizes }
    }
}
