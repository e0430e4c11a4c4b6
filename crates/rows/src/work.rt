ghost use Rattle.std.specs.Prelude.{length};
ghost use Rattle.grid.specs.RowGeometry.{LiesIn};
ghost use Rattle.rows.specs.Passes.{Worked};

use crate::gather::gather;
use crate::room::Room;
use crate::serve::serve;
use grid::{Axis, Cell, Refusal, Row};
use rules::Rule;

/// Works one row of an axis: each cell of it gets the level `axis`, a point of the row that is nearest to it, and what that
/// point costs there; with no point in the row they keep none, at the value 0. Marks and other cells stay.
///
/// A row with a cell that is not at the level below is refused, and else one with a value that the rule does not carry to
/// the axis. Nothing is written then.
///
/// For the loops of the library, which know their rows: the row lies in the cells.
pub fn work_row<R: Rule>(
    rule: &R,
    axis: Axis,
    cells: &mut [Cell],
    row: Row,
    room: &mut Room,
) -> Result<(), Refusal>
    requires row { LiesIn row (length cells.old) }
    ensures { Worked result (R.near rule.now) (R.ceiling rule.now) axis.number row cells.old cells.new }
{
    gather(rule, axis, cells, row, &mut room.candidates)?;
    serve(rule, axis, cells, row, room.candidates.as_slice());
    Ok(())
}
