//! Rounds by chance, and what they compare in all.
use crate::dice::Dice;
use anyhow::anyhow;
use grid::Sizes;
use pictures::{Grey, Picture};
use rules::Rule;
use std::alloc::Global;

/// Makes so many rounds, each of which answers how much it compared; how much that was in all.
pub fn compare<F: FnMut(&mut Dice) -> anyhow::Result<u64>>(
    dice: &mut Dice,
    rounds: u32,
    mut round: F,
) -> anyhow::Result<u64>
    requires { F.IsAlwaysCallable round }
{
    let mut compared = 0u64;
    for _ in 0..rounds {
        compared = compared.wrapping_add(round(dice)?);
    }
    Ok(compared)
}

/// A way to compare what the library makes of a picture under a rule with a plain search.
pub trait Comparison {
    /// How much was compared.
    fn compare<R: Rule + Copy + Drop, P: Picture>(
        heap: Global,
        rule: R,
        picture: &P,
    ) -> anyhow::Result<u64>;
}

/// Compares under each rule, with spacings by chance, a picture of which some `percent` of a hundred cells are marked.
pub fn compare_picture<C: Comparison>(
    heap: Global,
    dice: &mut Dice,
    sizes: Sizes,
    percent: u32,
) -> anyhow::Result<u64> {
    let count = sizes
        .count_cells()
        .map_err(|_| anyhow!("sizes of no grid"))?;
    let bytes = dice.bytes(heap, count as usize, percent)?;
    let picture = Grey::new(sizes, 1, &bytes).map_err(|_| anyhow!("a grey picture was refused"))?;
    let (square, block, chess) = dice.rules()?;
    let one = C::compare(heap, square, &picture)?;
    let two = C::compare(heap, block, &picture)?;
    let three = C::compare(heap, chess, &picture)?;
    Ok(one.wrapping_add(two).wrapping_add(three))
}
