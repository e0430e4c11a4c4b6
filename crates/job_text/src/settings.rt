// The second line of a job text: the values of the columns.
ghost use Rattle.std.specs.Prelude.{◌≡◌, ℕ, List, MatchOption};
ghost use Rattle.numerals.specs.Numerals.{Reads, Unread, ending_byte};
ghost use Rattle.rules.specs.Names.{rule_word};
ghost use Rattle.job_text.specs.Jobs.{EachOnce, NoWord, ReadsWord, ReadsSetting, NoSetting, Values};

use crate::columns::{Column, Order};
use crate::names::{Named, read_name};
use numerals::{Ending, read_number};
use rules::RuleName;

/// What a job text asks for: a rule, and the spacings of the three axes.
#[derive(Clone, Copy)]
pub struct Settings {
    pub rule: RuleName,
    pub sx: u32,
    pub sy: u32,
    pub sz: u32,
}

impl Named for RuleName {
    ghost word_of = { rule_word };

    fn word(self) -> &'static [u8] {
        RuleName::word(self).as_bytes()
    }
}

/// The rule whose name the text begins with, and what comes after the name's ending.
fn read_rule(text: &[u8], ending: Ending) -> Option<(RuleName, &[u8])>
    ensures { MatchOption result ((n : RuleName) → NoWord text.now (rule_word n) (ending_byte ending)) (λ p. ReadsWord text.now (rule_word p.0) (ending_byte ending) p.1.now) }
{
    let rules = [RuleName::Square, RuleName::Block, RuleName::Chess];
    read_name(text, &rules, ending)
}

/// The spacing that the text begins with, and what comes after its ending.
fn read_spacing(text: &[u8], ending: Ending) -> Option<(u32, &[u8])>
    ensures { MatchOption result (Unread text.now (ending_byte ending) 10000) (λ p. Reads text.now (ending_byte ending) 10000 p.0 p.1.now) }
{
    read_number(text, 10_000, ending)
}

/// Reads the value of one column into the settings; the others stay as they are.
fn read_setting(
    before: Settings,
    column: Column,
    text: &[u8],
    ending: Ending,
) -> Option<(Settings, &[u8])>
    ensures { MatchOption result (NoSetting text.now column (ending_byte ending)) (λ p. ReadsSetting before column text.now (ending_byte ending) p.0 p.1.now) }
{
    let mut after = before;
    let rest;
    match column {
        Column::Rule => (after.rule, rest) = read_rule(text, ending)?,
        Column::Sx => (after.sx, rest) = read_spacing(text, ending)?,
        Column::Sy => (after.sy, rest) = read_spacing(text, ending)?,
        Column::Sz => (after.sz, rest) = read_spacing(text, ending)?,
    }
    Some((after, rest))
}

/// The settings that the second line gives, its columns in the order of the first, and what comes after the line.
pub fn read_values(text: &[u8], order: Order) -> Option<(Settings, &[u8])>
    requires { EachOnce order }
    ensures { MatchOption result ((s : Settings) (rest : List ℕ) → Values text.now order s rest → ⊥) (λ p. Values text.now order p.0 p.1.now) }
{
    let blank = Settings {
        rule: RuleName::Square,
        sx: 1,
        sy: 1,
        sz: 1,
    };
    let (one, text) = read_setting(blank, order.first, text, Ending::Space)?;
    let (two, text) = read_setting(one, order.second, text, Ending::Space)?;
    let (three, text) = read_setting(two, order.third, text, Ending::Space)?;
    read_setting(three, order.fourth, text, Ending::LineFeed)
}
