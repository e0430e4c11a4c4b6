ghost use Rattle.std.specs.Prelude.{◌≡◌, ◌^◌, ◌<◌, ◌≤◌};
ghost use Rattle.grid.specs.Doors.{Admits};
ghost use Rattle.rules.specs.Ranges.{IsSpacing, Crosses};
ghost use Rattle.rules.specs.Doors.{spacing_door};
ghost use Rattle.rules.specs.Formulas.{HasSpacings, chess, chess_near, chess_ceiling, spacing};
ghost use Rattle.rules.specs.Chesses.{chess_crosses};
ghost use Rattle.rules.specs.Ceilings.{chess_bounded, chess_ceilings};
ghost use Rattle.std.proofs.Common.{rules};

use crate::point::Point;
use crate::quotient::rounded_up;
use crate::rule::Rule;
use crate::spacings::Spacings;
use grid::Refusal;

/// The chess rule: a point costs what it carries or its gap, whichever is larger.
#[derive(Clone, Copy)]
pub struct Chess {
    spacings: Spacings,
}

impl Chess {
    /// The rule over the spacings of the axes x, y and z, each from 1 to 10,000; refused with `SpacingRange` otherwise.
    pub fn new(sx: u32, sy: u32, sz: u32) -> Result<Chess, Refusal>
        ensures { Admits result (spacing_door sx sy sz) (λ c. HasSpacings c.spacings sx sy sz) }
    {
        Ok(Chess::from(Spacings::new(sx, sy, sz)?))
    }
}

/// The rule over these spacings.
impl From<Spacings> for Chess {
    ghost from_gives = { λ s c. c.spacings ≡ s };

    fn from(spacings: Spacings) -> Chess {
        Chess { spacings }
    }
}

/// The lowest place at which the later of two points is no farther than the earlier, or 1,023.
#[tactic(auto, using(crate::specs::Chesses::chess_low, crate::specs::Chesses::chess_at))]
fn chess_crossing(s: u32, earlier: Point, later: Point) -> u32
    requires allowed { IsSpacing s }
    requires places { (earlier.place < later.place) × (later.place < 1023) }
    requires carried { later.carried ≤ 2 ^ 62 }
    ensures { Crosses (λ t. chess s earlier.place t earlier.carried) (λ t. chess s later.place t later.carried) result }
{
    let s = s as u64;
    let (i, g) = (earlier.place as u64, earlier.carried);
    let (j, h) = (later.place as u64, later.carried);
    // From `reach` on the later point's gap is covered, by the earlier point's gap or by what that carries.
    let reach = rounded_up(i + j, 2).min(j.saturating_sub(g / s));
    if h <= g {
        return reach as u32;
    }
    // And what the later carries is covered from where the earlier point's gap is as wide.
    let place = reach.max(i + rounded_up(h, s));
    place.min(1023) as u32
}

impl Rule for Chess {
    ghost near = { λ r. chess_near r.spacings };

    ghost ceiling = { λ r. chess_ceiling r.spacings };

    ghost order = { Prim.search rules };

    ghost crosses = { λ r d i g j h t pair _ le. chess_crosses (spacing r.spacings d) i g j h t pair.ahead le };

    ghost bounded = { λ r. chess_bounded r.spacings };

    ghost ceilings = { λ r. chess_ceilings r.spacings };

    fn ceiling(&self, axis: u8) -> Option<u64> {
        let (x, y, z) = self.spacings.widest();
        match axis {
            1 => Some(x),
            2 => Some(x.max(y)),
            3 => Some(x.max(y).max(z)),
            _ => None,
        }
    }

    fn near_in(&self, axis: u8, point: Point, at: u32) -> u64 {
        let gap = self.spacings.gap(axis, point.place, at);
        point.carried.max(gap)
    }

    fn crossing_in(&self, axis: u8, earlier: Point, later: Point) -> u32 {
        chess_crossing(self.spacings.on(axis), earlier, later)
    }
}
