ghost use Rattle.std.specs.Prelude.{◌≡◌, ◌-◌, ◌<◌};
ghost use Rattle.rows.specs.Stacks.{Within, Overtakes, cost_of};

use grid::Axis;
use rules::{Point, Rule};

/// A point of a row that may be nearest from the place `start` on. It stands at `place` and carries `value`.
#[derive(Clone, Copy, Default)]
pub(crate) struct Candidate {
    pub(crate) place: u16,
    pub(crate) start: u16,
    pub(crate) point: u32,
    pub(crate) value: u64,
}

impl Candidate {
    /// The point that the candidate is, where it stands.
    fn stands(self) -> Point
        ensures place { result.place ≡ self.place }
        ensures carried { result.carried ≡ self.value }
    {
        Point {
            place: self.place as u32,
            carried: self.value,
        }
    }
}

// The functions of this crate take the rule and the axis side by side. They were tried as one struct, which borrows the rule:
// each clause then says `along.entry.rule.now` and `along.entry.axis.number` for `rule.now` and `axis.number`.

/// The lowest place at which `new` is no farther than `old`, or 1023 where there is none.
pub(crate) fn overtaking<R: Rule>(rule: &R, axis: Axis, old: Candidate, new: Candidate) -> u16
    requires old { Within (R.ceiling rule.now (axis.number - 1)) new.place old }
    requires new { Within (R.ceiling rule.now (axis.number - 1)) 1023 new }
    ensures { Overtakes (R.near rule.now axis.number) old new result }
{
    let place = rule.crossing_in(axis.number, old.stands(), new.stands());
    place as u16
}

/// What a candidate costs at the place `t`.
pub(crate) fn cost<R: Rule>(rule: &R, axis: Axis, candidate: Candidate, t: u16) -> u64
    requires candidate { Within (R.ceiling rule.now (axis.number - 1)) 1023 candidate }
    requires place { t < 1023 }
    ensures { result ≡ cost_of (R.near rule.now axis.number) candidate t }
{
    rule.near_in(axis.number, candidate.stands(), t as u32)
}
