// The signed distance of each cell from the skin between marked and unmarked cells.
ghost use Rattle.std.specs.Prelude.{◌≡◌, length};
ghost use Rattle.grid.specs.Doors.{Admits};
ghost use Rattle.cadzvigu.specs.Doors.{refused_by, numbers_door, skin_questions, signed_questions, signed_call_door};
ghost use Rattle.cadzvigu.specs.Statuses.{Ends};
ghost use Rattle.cadzvigu.specs.Skins.{HoldsSigned, SignedOfBytes, SignedBy};

use crate::fault::Fault;
use grid::{Cell, Refusal, Sizes};
use pictures::{Grey, HalfGrid, Picture, has_both_kinds};
use rules::{Block, Chess, Rule, RuleName, Spacings, Square};
use signed::signed;
use std::alloc::Global;

/// Whether there is one number for each cell of a picture, and the picture has both kinds of cell.
fn check_numbers<P: Picture>(picture: &P, numbers: &[i64]) -> Result<(), Refusal>
    ensures { Admits result (numbers_door (P.extent picture.now) (P.marks picture.now) (length numbers.now)) (λ _. Unit {0}) }
{
    if !picture.grid().fits(numbers) {
        return Err(Refusal::OutputCount);
    }
    if !has_both_kinds(picture) {
        return Err(Refusal::OneKind);
    }
    Ok(())
}

/// Finds the signed distances of a picture under a rule. Refused where a size is above 512 (13), the half-grid has more than
/// 16,777,216 places (2), there is not one number for each cell (14), or not both kinds of cell (15).
fn signed_in<R: Rule + Drop, P: Picture>(
    heap: Global,
    rule: R,
    picture: &P,
    numbers: &mut [i64],
) -> Result<(), Fault>
    ensures { Ends result (refused_by (skin_questions (P.extent picture.now) (P.marks picture.now) (length numbers.old))) (numbers.new ≡ numbers.old) (HoldsSigned (R.near rule) (P.extent picture.now) (P.marks picture.now) numbers.new) }
{
    let half = HalfGrid::new(picture)?.grid();
    check_numbers(picture, numbers)?;
    let mut cells = vec![in heap; Cell::painted(false, 0); half.count() as usize]?;
    signed(picture, rule, &mut cells, numbers).unwrap();
    Ok(())
}

/// Finds the signed distances of the cells whose byte is not 0, under a rule.
fn signed_of_bytes<R: Rule + Drop>(
    heap: Global,
    rule: R,
    sizes: Sizes,
    bytes: &[u8],
    numbers: &mut [i64],
) -> Result<(), Fault>
    ensures { Ends result (refused_by (signed_questions sizes bytes.now (length numbers.old))) (numbers.new ≡ numbers.old) (SignedOfBytes (R.near rule) sizes bytes.now numbers.new) }
{
    let picture = Grey::new(sizes, 1, bytes)?;
    signed_in(heap, rule, &picture, numbers)
}

/// The same under the rule with a number and three spacings.
pub fn signed_distances(
    heap: Global,
    rule: u32,
    spacings: (u32, u32, u32),
    sizes: Sizes,
    bytes: &[u8],
    numbers: &mut [i64],
) -> Result<(), Fault>
    ensures { Ends result (signed_call_door rule spacings sizes bytes.now (length numbers.old)) (numbers.new ≡ numbers.old) (SignedBy rule spacings sizes bytes.now numbers.new) }
{
    let name = RuleName::try_from(rule)?;
    let (sx, sy, sz) = spacings;
    let spacings = Spacings::new(sx, sy, sz)?;
    // a call for each rule: with one `NamedRule`, which matches its name at each point, it took 2 to 11 percent longer
    match name {
        RuleName::Square => signed_of_bytes(heap, Square::from(spacings), sizes, bytes, numbers),
        RuleName::Block => signed_of_bytes(heap, Block::from(spacings), sizes, bytes, numbers),
        RuleName::Chess => signed_of_bytes(heap, Chess::from(spacings), sizes, bytes, numbers),
    }
}
