ghost use Rattle.std.specs.Prelude.{◌≡◌, ◌+◌, ◌<◌, ◌↔◌, IsSome, IfSome};
ghost use Rattle.grid.specs.RowGeometry.{OnAxis};

/// An axis of a grid, by its number: 1, 2 or 3.
///
/// It stays a number, since the axes are counted: a cell's level is the number of the last axis that was worked.
#[derive(Clone, Copy)]
pub struct Axis {
    pub number: u8,
    pub ghost on: { OnAxis number },
}

impl Axis {
    /// The axis with a number; there is none but 1 to 3.
    pub fn new(number: u8) -> Option<Axis>
        ensures some { IsSome result ↔ OnAxis number }
        ensures number { IfSome result (λ axis. axis.number ≡ number) }
    {
        if 1 <= number && number <= 3 {
            Some(Axis { number })
        } else {
            None
        }
    }

    /// The axis after this one; none after axis 3.
    pub fn next(self) -> Option<Axis>
        ensures some { IsSome result ↔ (self.number < 3) }
        ensures number { IfSome result (λ axis. axis.number ≡ self.number + 1) }
    {
        Axis::new(self.number + 1)
    }
}
