// A rule and three spacings, each in a word of its own.
ghost use Rattle.std.specs.Prelude.{MatchOption, MatchResult};
ghost use Rattle.volumes.specs.Words.{WritesSpacing, NoSpacing, WritesSettings, FaultyWord};

use job_text::{Column, RuleName, Settings};
use numerals::read_digits;
use rules::MAX_SPACING;

/// The spacing whose decimal digits a word is, with no zero in front.
fn read_spacing(word: &[u8]) -> Option<u32>
    ensures { MatchOption result (NoSpacing word.now) (λ n. WritesSpacing word.now n) }
{
    match read_digits(word, MAX_SPACING as u16)? {
        (spacing, []) => Some(spacing),
        _ => None,
    }
}

/// The settings that four words give: a rule's name, and the spacings of the three axes in decimal digits.
///
/// Refused with the first column whose word is no value of it.
pub fn read_settings(rule: &str, sx: &str, sy: &str, sz: &str) -> Result<Settings, Column>
    ensures { MatchResult result (λ s. WritesSettings rule.now sx.now sy.now sz.now s) (λ c. FaultyWord rule.now sx.now sy.now sz.now c) }
{
    let rule = rule.parse::<RuleName>().map_err(|_| Column::Rule)?;
    let sx = read_spacing(sx.as_bytes()).ok_or(Column::Sx)?;
    let sy = read_spacing(sy.as_bytes()).ok_or(Column::Sy)?;
    let sz = read_spacing(sz.as_bytes()).ok_or(Column::Sz)?;
    Ok(Settings { rule, sx, sy, sz })
}
