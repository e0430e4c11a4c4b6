//! The stack of candidates: the points that are nearest somewhere in the row so far, by rising starts.
ghost use Rattle.std.specs.Prelude.{◌-◌, ◌<◌, ◌≤◌, length, reverse};
ghost use Rattle.std.specs.List.{AllByRecursion};
ghost use Rattle.rows.specs.Stacks.{LinedUp, Within, Settled, Added};

use crate::candidate::{Candidate, overtaking};
use crate::room::Stack;
use grid::Axis;
use rules::Rule;

/// Takes off the candidates on top that `new` has overtaken by the place where they start. Gives the place from which `new`
/// is no farther than the one that is on top then, or 0 where none is left.
fn settle<R: Rule>(rule: &R, axis: Axis, stack: &mut Stack, new: Candidate) -> u16
    requires new { Within (R.ceiling rule.now (axis.number - 1)) 1023 new }
    requires lined { LinedUp (R.near rule.now axis.number) (reverse stack.old) }
    requires below { AllByRecursion (Within (R.ceiling rule.now (axis.number - 1)) new.place) (reverse stack.old) }
    ensures { Settled (R.near rule.now axis.number) stack.old new stack.new result }
{
    while let Some(&top) = stack.as_slice().last() {
        let start = overtaking(rule, axis, top, new);
        if start > top.start {
            return start;
        }
        stack.pop();
    }
    0
}

/// Puts a later candidate onto the stack, unless another is nearer at every place of the row.
pub(crate) fn add<R: Rule>(rule: &R, axis: Axis, count: u16, stack: &mut Stack, new: Candidate)
    requires room { length stack.old < 1023 }
    requires count { (count ≤ 1023) × (1 ≤ count) }
    requires new { Within (R.ceiling rule.now (axis.number - 1)) 1023 new }
    requires lined { LinedUp (R.near rule.now axis.number) (reverse stack.old) }
    requires below { AllByRecursion (Within (R.ceiling rule.now (axis.number - 1)) new.place) (reverse stack.old) }
    ensures { Added (R.near rule.now axis.number) count stack.old new stack.new }
{
    let start = settle(rule, axis, stack, new);
    if start < count {
        stack.push(Candidate { start, ..new });
    }
}
