// The first line of a job text: the names of the columns.
ghost use Rattle.std.specs.Prelude.{◌≡◌, ℕ, List, Decides, MatchOption};
ghost use Rattle.numerals.specs.Numerals.{ending_byte};
ghost use Rattle.job_text.specs.Jobs.{EachOnce, Names, column_name, ReadsWord, NoWord};

use crate::names::{Named, read_name};
use numerals::Ending;

/// A column of a job text.
#[derive(Clone, Copy, PartialEq, Eq, Debug)]
pub enum Column {
    Rule,
    Sx,
    Sy,
    Sz,
}

/// The columns of a job text from left to right: four fields and no array, as each has a place of its own in the definitions.
#[derive(Clone, Copy)]
pub struct Order {
    pub first: Column,
    pub second: Column,
    pub third: Column,
    pub fourth: Column,
}

impl Named for Column {
    ghost word_of = { column_name };

    fn word(self) -> &'static [u8] {
        match self {
            Column::Rule => b"rule",
            Column::Sx => b"sx",
            Column::Sy => b"sy",
            Column::Sz => b"sz",
        }
    }
}

/// The column whose name the text begins with, and what comes after the name's ending.
fn read_column(text: &[u8], ending: Ending) -> Option<(Column, &[u8])>
    ensures { MatchOption result ((c : Column) → NoWord text.now (column_name c) (ending_byte ending)) (λ p. ReadsWord text.now (column_name p.0) (ending_byte ending) p.1.now) }
{
    let columns = [Column::Rule, Column::Sx, Column::Sy, Column::Sz];
    read_name(text, &columns, ending)
}

/// Whether each column stands in the order once.
fn each_once(order: Order) -> bool
    ensures { Decides result (EachOnce order) }
{
    let Order {
        first,
        second,
        third,
        fourth,
    } = order;
    ![second, third, fourth].contains(&first)
        && ![third, fourth].contains(&second)
        && third != fourth
}

/// The order of the columns that the first line names, and what comes after that line.
pub fn read_names(text: &[u8]) -> Option<(Order, &[u8])>
    ensures { MatchOption result ((order : Order) (rest : List ℕ) → Names text.now order rest → ⊥) (λ p. Names text.now p.0 p.1.now) }
{
    let (first, text) = read_column(text, Ending::Space)?;
    let (second, text) = read_column(text, Ending::Space)?;
    let (third, text) = read_column(text, Ending::Space)?;
    let (fourth, text) = read_column(text, Ending::LineFeed)?;
    let order = Order {
        first,
        second,
        third,
        fourth,
    };
    if each_once(order) {
        Some((order, text))
    } else {
        None
    }
}
