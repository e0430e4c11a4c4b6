//! Crossings against a scan of all places, and against the crossing by halving.
use crate::dice::Dice;
use anyhow::{Context, anyhow};
use rules::{Point, Rule, crossing_by_halving};

/// The lowest place at which the later point is no farther, by a look at every place; 1,023 if there is none.
fn scanned<R: Rule>(rule: &R, axis: u8, earlier: Point, later: Point) -> Option<u32> {
    for t in 0..1023u32 {
        if rule.near(axis, later, t)? <= rule.near(axis, earlier, t)? {
            return Some(t);
        }
    }
    Some(1023)
}

/// Compares the crossings of two points by chance.
fn compare_pair<R: Rule>(rule: &R, dice: &mut Dice) -> anyhow::Result<()> {
    let axis = 1 + dice.up_to(2) as u8;
    let most = rule
        .most_carried(axis)
        .context("an axis without a ceiling")?;
    let most = u32::try_from(most).unwrap_or(u32::MAX);
    let (g, h) = (dice.up_to(most) as u64, dice.up_to(most) as u64);
    let place = 1 + dice.up_to(1021);
    let earlier = Point {
        place: dice.up_to(place - 1),
        carried: g,
    };
    let later = Point { place, carried: h };
    let told = rule.crossing(axis, earlier, later);
    if told.is_none() || told != scanned(rule, axis, earlier, later) {
        return Err(anyhow!("a crossing differs from the scan"));
    }
    if told != crossing_by_halving(rule, axis, earlier, later) {
        return Err(anyhow!("a crossing differs from the halving"));
    }
    Ok(())
}

/// A pair of points by chance under each rule; how many pairs were compared.
pub fn compare_round(dice: &mut Dice) -> anyhow::Result<u64> {
    let (square, block, chess) = dice.rules()?;
    compare_pair(&square, dice)?;
    compare_pair(&block, dice)?;
    compare_pair(&chess, dice)?;
    Ok(3)
}
