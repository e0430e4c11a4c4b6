//! Reads a row: tests its records, and gathers the candidates.
ghost use Rattle.std.specs.Prelude.{◌≡◌, ◌-◌, ◌≤◌, length};
ghost use Rattle.grid.specs.Doors.{Admits};
ghost use Rattle.grid.specs.RowGeometry.{LiesIn, row_at};
ghost use Rattle.grid.specs.Rows.{RowAt, records};
ghost use Rattle.rows.specs.Passes.{pass_door, late_refusal};
ghost use Rattle.rows.specs.Stacks.{Gathered};

use crate::candidate::Candidate;
use crate::places::load;
use crate::room::Stack;
use crate::stack::add;
use grid::{Axis, Cell, Refusal, Row};
use rules::Rule;

/// The most that a point on the axis can carry.
fn most_on<R: Rule>(rule: &R, axis: Axis) -> u64
    ensures { result ≡ R.ceiling rule.now (axis.number - 1) }
{
    rule.most_carried(axis.number).unwrap()
}

/// Why a row that has too large a value is refused, where the places before `first` are known to stand at the level:
/// for its levels if one of them is wrong, else for the value.
fn refusal_past(cells: &[Cell], row: Row, level: u8, first: u16) -> Refusal
    requires row { LiesIn row (length cells.now) }
    requires first { first ≤ row.count }
    requires before { RowAt first (records cells.now (row_at row)) level }
    ensures { result ≡ late_refusal row.count (records cells.now (row_at row)) level }
{
    if (first..row.count).any(|i| load(cells, row, i).level != level) {
        Refusal::RowLevel
    } else {
        Refusal::RowValue
    }
}

/// Gathers the candidates of a row onto the stack, which is emptied first, or says why the row is refused.
pub(crate) fn gather<R: Rule>(
    rule: &R,
    axis: Axis,
    cells: &[Cell],
    row: Row,
    stack: &mut Stack,
) -> Result<(), Refusal>
    requires row { LiesIn row (length cells.now) }
    ensures { Admits result (pass_door (R.ceiling rule.now) axis.number row cells.now) (λ _. Gathered (R.near rule.now axis.number) row.count (records cells.now (row_at row)) row.count stack.new) }
{
    let most = most_on(rule, axis);
    stack.clear();
    for j in 0..row.count {
        let cell = load(cells, row, j);
        if cell.level != axis.number - 1 {
            return Err(Refusal::RowLevel);
        }
        if cell.value > most {
            return Err(refusal_past(cells, row, axis.number - 1, j + 1));
        }
        if let Some(point) = cell.point {
            let new = Candidate {
                place: j,
                start: 0,
                point,
                value: cell.value,
            };
            add(rule, axis, row.count, stack, new);
        }
    }
    Ok(())
}
