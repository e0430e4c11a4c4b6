//! Finished fields against the exhaustive search.
use crate::dice::Dice;
use crate::rounds::{Comparison, compare_picture};
use anyhow::anyhow;
use exhaustive::search_field;
use grid::{Cell, Refusal};
use pictures::{Picture, has_mark};
use replay::find_field;
use rules::{Point, Rule};
use std::alloc::Global;

/// The distance at a place from another, by the rule's public answers.
fn distance<R: Rule>(rule: &R, at: (u32, u32, u32), from: (u32, u32, u32)) -> Option<u64> {
    let stands = |place, carried| Point { place, carried };
    let one = rule.near(1, stands(from.0, 0), at.0)?;
    let two = rule.near(2, stands(from.1, one), at.1)?;
    rule.near(3, stands(from.2, two), at.2)
}

/// Whether the record of a cell is within its limits: level 3, a marked point, at exactly the distance of its value.
fn is_right<R: Rule, P: Picture>(rule: &R, picture: &P, number: u32, cell: Cell) -> bool {
    let sizes = picture.sizes();
    let (Some(at), Some(point)) = (sizes.place_of(number), cell.point) else {
        return false;
    };
    let Some(from) = sizes.place_of(point) else {
        return false;
    };
    let Some(far) = distance(rule, at, from) else {
        return false;
    };
    cell.level == 3
        && picture.marked(from)
        && far == cell.value
        && cell.marked == picture.marked(at)
}

/// The field of a picture against the exhaustive search, cell by cell.
struct WholeFields;

impl Comparison for WholeFields {
    fn compare<R: Rule + Copy + Drop, P: Picture>(
        heap: Global,
        rule: R,
        picture: &P,
    ) -> anyhow::Result<u64> {
        let count = picture.grid().count();
        let blank = Cell::painted(false, 0);
        let mut found = vec![in heap; blank; count as usize]?;
        let mut searched = vec![in heap; blank; count as usize]?;
        if let Err(kept) = find_field(rule, picture, &mut found) {
            if kept.refusal == Refusal::NoMark && !has_mark(picture) {
                return Ok(0);
            }
            return Err(anyhow!("a field was refused"));
        }
        search_field(&rule, picture, &mut searched).map_err(|_| anyhow!("a search was refused"))?;
        for (number, (a, b)) in (0..count).zip(found.iter().zip(searched.iter())) {
            if a.value != b.value || !is_right(&rule, picture, number, *a) {
                return Err(anyhow!("a field differs from the exhaustive search"));
            }
        }
        Ok(count as u64)
    }
}

/// A picture by chance under each rule; how many cells were compared.
pub fn compare_round(heap: Global, dice: &mut Dice) -> anyhow::Result<u64> {
    let sizes = dice.sizes();
    let percent = dice.up_to(40);
    compare_picture::<WholeFields>(heap, dice, sizes, percent)
}
