//! Signed fields against an exhaustive search over the face places, and against those of the negative.
use crate::dice::Dice;
use crate::rounds::{Comparison, compare_picture};
use anyhow::anyhow;
use exhaustive::search_field;
use grid::{Cell, Sizes};
use pictures::{HalfGrid, Picture, has_both_kinds};
use rules::Rule;
use signed::{signed, signed_of_negative};
use std::alloc::Global;

/// What the signed field should have at a place, read off the searched field of the half-grid.
fn expected<P: Picture>(
    picture: &P,
    half: Sizes,
    searched: &[Cell],
    place: (u32, u32, u32),
) -> Option<i64> {
    let (x, y, z) = place;
    let doubled = (x.wrapping_mul(2), y.wrapping_mul(2), z.wrapping_mul(2));
    let cell = searched.get(half.cell_number(doubled)? as usize)?;
    let value = i64::try_from(cell.value).ok()?;
    if picture.marked(place) {
        value.checked_neg()
    } else {
        Some(value)
    }
}

/// Whether each number is the expected one, and the number of the negative its opposite.
fn all_right<P: Picture>(
    picture: &P,
    half: Sizes,
    searched: &[Cell],
    numbers: &[i64],
    turned: &[i64],
) -> bool {
    let grid = picture.grid();
    (0..grid.count()).zip(numbers.iter().zip(turned.iter())).all(|(k, (a, b))| {
        expected(picture, half, searched, grid.place(k)) == Some(*a) && a.checked_neg() == Some(*b)
    })
}

/// The signed field of a picture against a search, and the one of its negative.
struct SignedFields;

impl Comparison for SignedFields {
    fn compare<R: Rule + Copy + Drop, P: Picture>(
        heap: Global,
        rule: R,
        picture: &P,
    ) -> anyhow::Result<u64> {
        let half = HalfGrid::new(picture).map_err(|_| anyhow!("a half-grid was refused"))?;
        let (count, places) = (picture.grid().count(), half.grid().count());
        let blank = Cell::painted(false, 0);
        let mut cells = vec![in heap; blank; places as usize]?;
        let mut searched = vec![in heap; blank; places as usize]?;
        let mut numbers = vec![in heap; 0i64; count as usize]?;
        let mut turned = vec![in heap; 0i64; count as usize]?;
        let first = signed(picture, rule, &mut cells, &mut numbers);
        let second = signed_of_negative(picture, rule, &mut cells, &mut turned);
        if !has_both_kinds(picture) {
            if first.is_err() && second.is_err() {
                return Ok(0);
            }
            return Err(anyhow!("a picture of one kind was accepted"));
        }
        search_field(&rule, &half, &mut searched).map_err(|_| anyhow!("a search was refused"))?;
        if first.is_err()
            || second.is_err()
            || !all_right(picture, half.sizes(), &searched, &numbers, &turned)
        {
            return Err(anyhow!("a signed field differs from the exhaustive search"));
        }
        Ok(count as u64)
    }
}

/// A picture by chance under each rule; how many numbers were compared.
pub fn compare_round(heap: Global, dice: &mut Dice) -> anyhow::Result<u64> {
    let sizes = Sizes {
        nx: 1 + dice.up_to(4),
        ny: 1 + dice.up_to(4),
        nz: 1 + dice.up_to(2),
    };
    let percent = dice.up_to(99);
    compare_picture::<SignedFields>(heap, dice, sizes, percent)
}
