ghost use Rattle.std.specs.Prelude.{◌≡◌};
ghost use Rattle.grid.specs.Doors.{Admits};
ghost use Rattle.rules.specs.Doors.{spacing_door};
ghost use Rattle.rules.specs.Formulas.{HasSpacings};
ghost use Rattle.rules.specs.Named.{named_near, named_ceiling, named_order, named_crosses, named_bounded, named_ceilings};

use crate::block::Block;
use crate::chess::Chess;
use crate::name::RuleName;
use crate::point::Point;
use crate::rule::Rule;
use crate::spacings::Spacings;
use crate::square::Square;
use grid::Refusal;

/// A rule that is known by its name only when the program runs, over the spacings of the axes.
#[derive(Clone, Copy)]
pub struct NamedRule {
    name: RuleName,
    spacings: Spacings,
}

impl NamedRule {
    /// The rule of the name over the spacings of the axes x, y and z, each from 1 to 10,000; refused with `SpacingRange`
    /// otherwise.
    pub fn new(name: RuleName, sx: u32, sy: u32, sz: u32) -> Result<NamedRule, Refusal>
        ensures { Admits result (spacing_door sx sy sz) (λ r. (r.name ≡ name) × HasSpacings r.spacings sx sy sz) }
    {
        let spacings = Spacings::new(sx, sy, sz)?;
        Ok(NamedRule { name, spacings })
    }
}

// Three switches and no table of functions: the trait has three calls to answer.
impl Rule for NamedRule {
    ghost near = { λ r. named_near r.name r.spacings };

    ghost ceiling = { λ r. named_ceiling r.name r.spacings };

    ghost order = { λ r. named_order r.name r.spacings };

    ghost crosses = { λ r. named_crosses r.name r.spacings };

    ghost bounded = { λ r. named_bounded r.name r.spacings };

    ghost ceilings = { λ r. named_ceilings r.name r.spacings };

    fn ceiling(&self, axis: u8) -> Option<u64> {
        match self.name {
            RuleName::Square => Square::from(self.spacings).ceiling(axis),
            RuleName::Block => Block::from(self.spacings).ceiling(axis),
            RuleName::Chess => Chess::from(self.spacings).ceiling(axis),
        }
    }

    fn near_in(&self, axis: u8, point: Point, at: u32) -> u64 {
        match self.name {
            RuleName::Square => Square::from(self.spacings).near_in(axis, point, at),
            RuleName::Block => Block::from(self.spacings).near_in(axis, point, at),
            RuleName::Chess => Chess::from(self.spacings).near_in(axis, point, at),
        }
    }

    fn crossing_in(&self, axis: u8, earlier: Point, later: Point) -> u32 {
        match self.name {
            RuleName::Square => Square::from(self.spacings).crossing_in(axis, earlier, later),
            RuleName::Block => Block::from(self.spacings).crossing_in(axis, earlier, later),
            RuleName::Chess => Chess::from(self.spacings).crossing_in(axis, earlier, later),
        }
    }
}
