//! Writes what the candidates give into the records of the row.
ghost use Rattle.std.specs.Prelude.{◌-◌, length};
ghost use Rattle.grid.specs.RowGeometry.{LiesIn, row_at};
ghost use Rattle.grid.specs.Rows.{RowBelow, SliceRowDone, records};
ghost use Rattle.rows.specs.Passes.{Cleared};
ghost use Rattle.rows.specs.Stacks.{Gathered};

use crate::candidate::{Candidate, cost};
use crate::places::store;
use grid::{Axis, Cell, Row};
use rules::Rule;

/// The row offers nothing: its cells have no point at the new level.
fn clear(axis: Axis, cells: &mut [Cell], row: Row)
    requires row { LiesIn row (length cells.old) }
    ensures { Cleared axis.number row cells.old cells.new }
{
    for t in 0..row.count {
        store(cells, row, t, axis.number, None, 0);
    }
}

/// Each cell of the row gets the point of the candidate that serves it, and what that costs, or none where there is no candidate.
pub(crate) fn serve<R: Rule>(
    rule: &R,
    axis: Axis,
    cells: &mut [Cell],
    row: Row,
    stack: &[Candidate],
)
    requires row { LiesIn row (length cells.old) }
    requires values { RowBelow row.count (records cells.old (row_at row)) (R.ceiling rule.now (axis.number - 1)) }
    requires gathered { Gathered (R.near rule.now axis.number) row.count (records cells.old (row_at row)) row.count stack.now }
    ensures { SliceRowDone (R.near rule.now) axis.number row cells.old cells.new }
{
    let Some((lowest, mut later)) = stack.split_first() else {
        return clear(axis, cells, row);
    };
    let mut candidate = *lowest;
    for t in 0..row.count {
        if let Some((next, rest)) = later.split_first()
            && next.start <= t
        {
            candidate = *next;
            later = rest;
        }
        let value = cost(rule, axis, candidate, t);
        store(cells, row, t, axis.number, Some(candidate.point), value);
    }
}
