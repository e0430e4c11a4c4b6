ghost use Rattle.std.specs.Prelude.{◌≡◌, length};
ghost use Rattle.grid.specs.Geometry.{cell_count};
ghost use Rattle.grid.specs.Cells.{FinishedField};
ghost use Rattle.pictures.specs.Kinds.{SomeMarked};
ghost use Rattle.pictures.specs.Negatives.{negative_marks};
ghost use Rattle.pictures.specs.Numbered.{marks_by_number};
ghost use Rattle.signed.specs.Fields.{SignedField, TurnedField, Fills};

use crate::numbers::write_numbers;
use crate::room::check_room;
use grid::{Cell, Refusal};
use pictures::{HalfGrid, Negative, Picture};
use replay::find_field;
use rules::Rule;

/// Finds the field of a picture that has a mark, in one cell for each of the picture's.
fn find_whole<R: Rule + Drop, P: Picture>(rule: R, picture: &P, cells: &mut [Cell])
    requires room { length cells.old ≡ cell_count (P.extent picture.now) }
    requires mark { SomeMarked (P.extent picture.now) (P.marks picture.now) }
    ensures { FinishedField (R.near rule) (P.extent picture.now) (marks_by_number (P.extent picture.now) (P.marks picture.now)) cells.new }
{
    let _ = find_field(rule, picture, cells).unwrap();
}

/// Fills the output with the signed distances of a picture's cells: each is the distance from the cell to the nearest
/// face between a marked and an unmarked cell, negated where the cell is marked. A spacing of the rule is that of one
/// half step.
///
/// The cells end as the finished field of the picture's half-grid. Refused, with cells and output as they were, where a
/// size of the picture is above 512 (13), the half-grid has more than 16,777,216 places (2), there is not one cell for
/// each of its places (3), there is not one number for each cell of the picture (14), or the picture has not both marked
/// and unmarked cells (15).
pub fn signed<P: Picture, R: Rule + Drop>(
    picture: &P,
    rule: R,
    cells: &mut [Cell],
    output: &mut [i64],
) -> Result<(), Refusal>
    ensures { Fills result (P.extent picture.now) (P.marks picture.now) cells.old cells.new output.old output.new (SignedField (R.near rule) (P.extent picture.now) (P.marks picture.now) cells.new output.new) }
{
    let half = HalfGrid::new(picture)?;
    check_room(picture, half.grid(), cells, output)?;
    find_whole(rule, &half, cells);
    write_numbers(picture, half.grid(), cells, output);
    Ok(())
}

/// Fills the output with the signed distances of the negative of a picture. It is accepted exactly where `signed` is for
/// the picture itself with as much room, and leaves the same numbers with the sign turned.
pub fn signed_of_negative<P: Picture, R: Rule + Drop>(
    picture: &P,
    rule: R,
    cells: &mut [Cell],
    output: &mut [i64],
) -> Result<(), Refusal>
    ensures turned { Fills result (P.extent picture.now) (P.marks picture.now) cells.old cells.new output.old output.new (TurnedField (R.near rule) (P.extent picture.now) (P.marks picture.now) cells.new output.new) }
    ensures own { Fills result (P.extent picture.now) (negative_marks (P.extent picture.now) (P.marks picture.now)) cells.old cells.new output.old output.new (SignedField (R.near rule) (P.extent picture.now) (negative_marks (P.extent picture.now) (P.marks picture.now)) cells.new output.new) }
{
    let negative = Negative::new(picture);
    signed(&negative, rule, cells, output)
}
