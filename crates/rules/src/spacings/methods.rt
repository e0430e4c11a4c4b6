ghost use Rattle.std.specs.Prelude.{◌≡◌, ◌≤◌};
ghost use Rattle.grid.specs.Doors.{Admits};
ghost use Rattle.rules.specs.Doors.{is_spacing, spacing_door};
ghost use Rattle.rules.specs.Formulas.{spacing, gap, widest, HasSpacings};

use crate::spacings::{MAX_SPACING, Spacings};
use grid::{MAX_SIZE, Refusal};

impl Spacings {
    /// The spacings of the axes x, y and z, each from 1 to 10,000; refused with `SpacingRange` otherwise.
    pub fn new(sx: u32, sy: u32, sz: u32) -> Result<Spacings, Refusal>
        ensures { Admits result (spacing_door sx sy sz) (λ s. HasSpacings s sx sy sz) }
    {
        if is_spacing(sx) && is_spacing(sy) && is_spacing(sz) {
            Ok(Spacings { sx, sy, sz })
        } else {
            Err(Refusal::SpacingRange)
        }
    }

    /// The spacing of an axis, 1 to 3. Below 1 the first axis stands in, above 3 the third.
    pub fn on(&self, axis: u8) -> u32
        ensures { result ≡ spacing self.now axis }
    {
        if axis <= 1 {
            self.sx
        } else if axis <= 2 {
            self.sy
        } else {
            self.sz
        }
    }

    /// How far apart two places of the axis are.
    pub(crate) fn gap(&self, axis: u8, from: u32, at: u32) -> u64
        ensures { result ≡ gap (spacing self.now axis) from at }
    {
        self.on(axis) as u64 * from.abs_diff(at) as u64
    }

    /// The widest gaps on the axes x, y and z.
    pub(crate) fn widest(&self) -> (u64, u64, u64)
        ensures x { (result.0 ≡ widest self.now 1) × (result.0 ≤ 10220000) }
        ensures y { (result.1 ≡ widest self.now 2) × (result.1 ≤ 10220000) }
        ensures z { (result.2 ≡ widest self.now 3) × (result.2 ≤ 10220000) }
    {
        let Spacings { sx, sy, sz } = *self;
        let furthest = MAX_SIZE as u64 - 1;
        (
            furthest * sx as u64,
            furthest * sy as u64,
            furthest * sz as u64,
        )
    }
}

/// Whether an axis can have this spacing.
fn is_spacing(s: u32) -> bool
    ensures { result ≡ is_spacing s }
{
    1 <= s && s <= MAX_SPACING
}
