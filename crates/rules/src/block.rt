ghost use Rattle.std.specs.Prelude.{◌≡◌, ◌^◌, ◌<◌, ◌≤◌};
ghost use Rattle.grid.specs.Doors.{Admits};
ghost use Rattle.rules.specs.Ranges.{IsSpacing, Crosses};
ghost use Rattle.rules.specs.Doors.{spacing_door};
ghost use Rattle.rules.specs.Formulas.{HasSpacings, block, block_near, block_ceiling, spacing};
ghost use Rattle.rules.specs.Blocks.{block_crosses};
ghost use Rattle.rules.specs.Ceilings.{block_bounded, block_ceilings};
ghost use Rattle.std.proofs.Common.{rules};

use crate::point::Point;
use crate::quotient::rounded_up;
use crate::rule::Rule;
use crate::spacings::Spacings;
use grid::Refusal;

/// The block rule: a point costs what it carries and its gap.
#[derive(Clone, Copy)]
pub struct Block {
    spacings: Spacings,
}

impl Block {
    /// The rule over the spacings of the axes x, y and z, each from 1 to 10,000; refused with `SpacingRange` otherwise.
    pub fn new(sx: u32, sy: u32, sz: u32) -> Result<Block, Refusal>
        ensures { Admits result (spacing_door sx sy sz) (λ b. HasSpacings b.spacings sx sy sz) }
    {
        Ok(Block::from(Spacings::new(sx, sy, sz)?))
    }
}

/// The rule over these spacings.
impl From<Spacings> for Block {
    ghost from_gives = { λ s b. b.spacings ≡ s };

    fn from(spacings: Spacings) -> Block {
        Block { spacings }
    }
}

/// The lowest place at which the later of two points is no farther than the earlier, or 1,023.
#[tactic(auto, using(crate::specs::Blocks::block_at))]
fn block_crossing(s: u32, earlier: Point, later: Point) -> u32
    requires allowed { IsSpacing s }
    requires places { (earlier.place < later.place) × (later.place < 1023) }
    requires carried { (earlier.carried ≤ 2 ^ 62) × (later.carried ≤ 2 ^ 62) }
    ensures { Crosses (λ t. block s earlier.place t earlier.carried) (λ t. block s later.place t later.carried) result }
{
    let s = s as u64;
    let (i, g) = (earlier.place as u64, earlier.carried);
    let (j, h) = (later.place as u64, later.carried);
    let apart = s * (j - i);
    if h + apart <= g {
        return 0;
    }
    if g + apart < h {
        return 1023;
    }
    // Between the two points the later one gains `2 * s` with each place.
    let place = rounded_up(h + s * (i + j) - g, 2 * s);
    place as u32
}

impl Rule for Block {
    ghost near = { λ r. block_near r.spacings };

    ghost ceiling = { λ r. block_ceiling r.spacings };

    ghost order = { Prim.search rules };

    ghost crosses = { λ r d i g j h t pair _ le. block_crosses (spacing r.spacings d) i g j h t pair.ahead le };

    ghost bounded = { λ r. block_bounded r.spacings };

    ghost ceilings = { λ r. block_ceilings r.spacings };

    fn ceiling(&self, axis: u8) -> Option<u64> {
        let (x, y, z) = self.spacings.widest();
        match axis {
            1 => Some(x),
            2 => Some(x + y),
            3 => Some(x + y + z),
            _ => None,
        }
    }

    fn near_in(&self, axis: u8, point: Point, at: u32) -> u64 {
        let gap = self.spacings.gap(axis, point.place, at);
        point.carried + gap
    }

    fn crossing_in(&self, axis: u8, earlier: Point, later: Point) -> u32 {
        block_crossing(self.spacings.on(axis), earlier, later)
    }
}
