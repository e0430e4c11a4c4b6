ghost use Rattle.rules.specs.Ranges.{Paired, IsCrossing, Answered};

use crate::point::Point;
use crate::rule::Rule;

/// The crossing of two points under any rule, found by halving from the rule's costs alone: the same answer as the
/// rule's own `crossing`, for a rule that has no closed form and to check one that has.
pub fn crossing_by_halving<R: Rule>(rule: &R, axis: u8, earlier: Point, later: Point) -> Option<u32>
    ensures { Answered result (Paired (R.ceiling rule.now) axis earlier.place earlier.carried later.place later.carried) (IsCrossing (R.near rule.now) axis earlier.place earlier.carried later.place later.carried) }
{
    if !rule.pairs(axis, earlier, later) {
        return None;
    }
    Some(rule.halved(axis, earlier, later))
}
