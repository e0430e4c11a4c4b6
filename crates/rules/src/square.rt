ghost use Rattle.std.specs.Prelude.{◌≡◌, ◌*◌, ◌^◌, ◌<◌, ◌≤◌};
ghost use Rattle.grid.specs.Doors.{Admits};
ghost use Rattle.rules.specs.Ranges.{IsSpacing, Crosses};
ghost use Rattle.rules.specs.Doors.{spacing_door};
ghost use Rattle.rules.specs.Formulas.{widest, HasSpacings, square, square_near, square_ceiling, spacing};
ghost use Rattle.rules.specs.Squares.{square_crosses};
ghost use Rattle.rules.specs.Ceilings.{square_bounded, square_ceilings};
ghost use Rattle.std.proofs.Common.{rules};

use crate::point::Point;
use crate::quotient::rounded_up;
use crate::rule::Rule;
use crate::spacings::Spacings;
use grid::Refusal;

// Square, block and chess are three types, and not one with a parameter: each shows the laws for its own cost.

/// The square rule: a point costs what it carries and the square of its gap.
#[derive(Clone, Copy)]
pub struct Square {
    spacings: Spacings,
}

impl Square {
    /// The rule over the spacings of the axes x, y and z, each from 1 to 10,000; refused with `SpacingRange` otherwise.
    pub fn new(sx: u32, sy: u32, sz: u32) -> Result<Square, Refusal>
        ensures { Admits result (spacing_door sx sy sz) (λ q. HasSpacings q.spacings sx sy sz) }
    {
        Ok(Square::from(Spacings::new(sx, sy, sz)?))
    }
}

/// The rule over these spacings.
impl From<Spacings> for Square {
    ghost from_gives = { λ s q. q.spacings ≡ s };

    fn from(spacings: Spacings) -> Square {
        Square { spacings }
    }
}

/// The lowest place at which the later of two points is no farther than the earlier, or 1,023.
#[tactic(auto, using(crate::specs::Squares::square_at))]
fn square_crossing(s: u32, earlier: Point, later: Point) -> u32
    requires allowed { IsSpacing s }
    requires places { (earlier.place < later.place) × (later.place < 1023) }
    requires carried { later.carried ≤ 2 ^ 62 }
    ensures { Crosses (λ t. square s earlier.place t earlier.carried) (λ t. square s later.place t later.carried) result }
{
    let (i, g) = (earlier.place as u64, earlier.carried);
    let (j, h) = (later.place as u64, later.carried);
    let unit = s as u64 * s as u64;
    // At place 0 the later point lacks `needed - g`, and it gains `2 * unit * (j - i)` with each place.
    let needed = unit * (j * j - i * i) + h;
    if needed <= g {
        return 0;
    }
    let place = rounded_up(needed - g, 2 * unit * (j - i));
    place.min(1023) as u32
}

impl Rule for Square {
    ghost near = { λ r. square_near r.spacings };

    ghost ceiling = { λ r. square_ceiling r.spacings };

    ghost order = { Prim.search rules };

    ghost crosses = { λ r d i g j h t pair _ le. square_crosses (spacing r.spacings d) i g j h t pair.ahead le };

    ghost bounded = { λ r. square_bounded r.spacings };

    ghost ceilings = { λ r. square_ceilings r.spacings };

    fn ceiling(&self, axis: u8) -> Option<u64> {
        let (x, y, z) = self.spacings.widest();
        match axis {
            1 => Some(x * x),
            2 => Some(x * x + y * y),
            3 => Some(x * x + y * y + z * z),
            _ => None,
        }
    }

    fn near_in(&self, axis: u8, point: Point, at: u32) -> u64 {
        let gap = self.spacings.gap(axis, point.place, at);
        point.carried + gap * gap
    }

    fn crossing_in(&self, axis: u8, earlier: Point, later: Point) -> u32 {
        square_crossing(self.spacings.on(axis), earlier, later)
    }
}
