// The nearest marked cell of each cell.
ghost use Rattle.std.specs.Prelude.{◌≡◌, length};
ghost use Rattle.grid.specs.Doors.{Admits};
ghost use Rattle.pictures.specs.Kinds.{SomeMarked};
ghost use Rattle.pictures.specs.Numbered.{marks_by_number};
ghost use Rattle.rules.specs.Named.{named_near};
ghost use Rattle.cadzvigu.specs.Doors.{refused_by, field_questions, nearest_questions, nearest_door};
ghost use Rattle.cadzvigu.specs.Statuses.{Ends};
ghost use Rattle.cadzvigu.specs.Nearests.{HoldsNearest, NearestOfBytes, NearestBy};

use crate::fault::Fault;
use crate::writing::write_field;
use grid::{Refusal, Sizes};
use pictures::{Grey, Picture, has_mark};
use replay::{Unwatched, find_named_field};
use rules::{RuleName, Spacings};
use std::alloc::Global;

/// Whether there is one value and one point for each cell of a picture, and a cell is marked.
fn check_outputs<P: Picture>(picture: &P, values: &[u64], points: &[u32]) -> Result<(), Refusal>
    ensures { Admits result (field_questions (P.extent picture.now) (marks_by_number (P.extent picture.now) (P.marks picture.now)) (length values.now) (length points.now)) (λ _. SomeMarked (P.extent picture.now) (P.marks picture.now)) }
{
    let grid = picture.grid();
    if !grid.fits(values) || !grid.fits(points) {
        return Err(Refusal::OutputCount);
    }
    if !has_mark(picture) {
        return Err(Refusal::NoMark);
    }
    Ok(())
}

/// Finds the field of a picture under the rule of a name. Refused where there is not one value and one point for each cell
/// (14), then where no cell is marked (6).
fn nearest_in<P: Picture>(
    heap: Global,
    name: RuleName,
    spacings: Spacings,
    picture: &P,
    values: &mut [u64],
    points: &mut [u32],
) -> Result<(), Fault>
    ensures { Ends result (refused_by (field_questions (P.extent picture.now) (marks_by_number (P.extent picture.now) (P.marks picture.now)) (length values.old) (length points.old))) ((values.new ≡ values.old) × (points.new ≡ points.old)) (HoldsNearest (named_near name spacings) (P.extent picture.now) (marks_by_number (P.extent picture.now) (P.marks picture.now)) values.new points.new) }
{
    // asked before the cells are taken: want of memory is told only where every question is answered
    check_outputs(picture, values, points)?;
    let cells = find_named_field(heap, name, spacings, picture, &mut Unwatched)?;
    write_field(&cells, values, points);
    Ok(())
}

/// Finds the field of the cells whose byte is not 0, under the rule of a name.
fn nearest_of_bytes(
    heap: Global,
    name: RuleName,
    spacings: Spacings,
    sizes: Sizes,
    bytes: &[u8],
    values: &mut [u64],
    points: &mut [u32],
) -> Result<(), Fault>
    ensures { Ends result (refused_by (nearest_questions sizes bytes.now (length values.old) (length points.old))) ((values.new ≡ values.old) × (points.new ≡ points.old)) (NearestOfBytes (named_near name spacings) sizes bytes.now values.new points.new) }
{
    let picture = Grey::new(sizes, 1, bytes)?;
    nearest_in(heap, name, spacings, &picture, values, points)
}

/// The same under the rule with a number and three spacings.
pub fn nearest(
    heap: Global,
    rule: u32,
    spacings: (u32, u32, u32),
    sizes: Sizes,
    bytes: &[u8],
    values: &mut [u64],
    points: &mut [u32],
) -> Result<(), Fault>
    ensures { Ends result (nearest_door rule spacings sizes bytes.now (length values.old) (length points.old)) ((values.new ≡ values.old) × (points.new ≡ points.old)) (NearestBy rule spacings sizes bytes.now values.new points.new) }
{
    let name = RuleName::try_from(rule)?;
    let (sx, sy, sz) = spacings;
    let over = Spacings::new(sx, sy, sz)?;
    nearest_of_bytes(heap, name, over, sizes, bytes, values, points)
}
