ghost use Rattle.std.specs.Prelude.{◌≡◌, Some};
ghost use Rattle.rules.specs.Names.{rule_word, ReadsRule, NumbersRule, unknown_rule_text};

use std::error::Error;
use std::fmt;
use std::str::FromStr;

/// A distance rule by its name.
#[derive(Clone, Copy, PartialEq, Eq, Debug)]
pub enum RuleName {
    Square,
    Block,
    Chess,
}

/// A word or a number that is that of no rule.
#[derive(Clone, Copy, PartialEq, Eq, Debug)]
pub struct UnknownRule;

impl RuleName {
    /// The word for the rule: square, block or chess.
    pub fn word(self) -> &'static str
        ensures { result.now ≡ rule_word self }
    {
        match self {
            RuleName::Square => "square",
            RuleName::Block => "block",
            RuleName::Chess => "chess",
        }
    }
}

/// Writes the rule's word.
impl fmt::Display for RuleName {
    ghost output = { λ name. Some (rule_word name) };

    fn fmt<W: fmt::Write>(&self, f: &mut fmt::Formatter<W>) -> fmt::Result {
        f.write_str(self.word())
    }
}

/// Reads the whole text as a rule's word.
impl FromStr for RuleName {
    type Err = UnknownRule;

    ghost from_str_gives = { ReadsRule };

    fn from_str(word: &str) -> Result<RuleName, UnknownRule> {
        match word {
            "square" => Ok(RuleName::Square),
            "block" => Ok(RuleName::Block),
            "chess" => Ok(RuleName::Chess),
            _ => Err(UnknownRule),
        }
    }
}

/// The rule with a number: 1 is square, 2 block and 3 chess.
impl TryFrom<u32> for RuleName {
    type Error = UnknownRule;

    ghost try_from_gives = { NumbersRule };

    fn try_from(number: u32) -> Result<RuleName, UnknownRule> {
        match number {
            1 => Ok(RuleName::Square),
            2 => Ok(RuleName::Block),
            3 => Ok(RuleName::Chess),
            _ => Err(UnknownRule),
        }
    }
}

/// Says which words there are.
impl fmt::Display for UnknownRule {
    ghost output = { λ _. Some unknown_rule_text };

    fn fmt<W: fmt::Write>(&self, f: &mut fmt::Formatter<W>) -> fmt::Result {
        f.write_str("the rule is square, block or chess")
    }
}

impl Error for UnknownRule {}
