ghost use Rattle.std.specs.Prelude.{◌≡◌, Some};
ghost use Rattle.grid.specs.Refusals.{refusal_number, refusal_words};

use std::error::Error;
use std::fmt;

/// Why a call was refused. A call asks its questions in a fixed order, and the first one answered no is the refusal.
#[derive(Clone, Copy, PartialEq, Eq, Debug)]
pub enum Refusal {
    /// A size of the grid is not from 1 to 1,023.
    SizeRange,
    /// The grid has more than 16,777,216 cells.
    TooManyCells,
    /// Not exactly as many cells were handed in as the grid has.
    CellCount,
    /// The place is outside the grid.
    OutsideGrid,
    /// The picture's sizes are not the job's.
    OtherSizes,
    /// No cell is marked.
    NoMark,
    /// The axis has no row of that number.
    NoSuchRow,
    /// A cell of the row does not stand at the level below the axis.
    RowLevel,
    /// A value in the row is above the rule's ceiling.
    RowValue,
    /// A cell does not stand at the level of the axis yet.
    RowsLeft,
    /// A spacing is not from 1 to 10,000.
    SpacingRange,
    /// There is not one byte for each cell.
    ByteCount,
    /// A size of the picture is above 512, so its half-grid is too wide.
    HalfGridSize,
    /// The output has not one number for each cell.
    OutputCount,
    /// The picture has not both marked and unmarked cells.
    OneKind,
}

impl Refusal {
    /// The number under which the refusal is documented.
    pub fn number(self) -> u8
        ensures { result ≡ refusal_number self }
    {
        match self {
            Refusal::SizeRange => 1,
            Refusal::TooManyCells => 2,
            Refusal::CellCount => 3,
            Refusal::OutsideGrid => 4,
            Refusal::OtherSizes => 5,
            Refusal::NoMark => 6,
            Refusal::NoSuchRow => 7,
            Refusal::RowLevel => 8,
            Refusal::RowValue => 9,
            Refusal::RowsLeft => 10,
            Refusal::SpacingRange => 11,
            Refusal::ByteCount => 12,
            Refusal::HalfGridSize => 13,
            Refusal::OutputCount => 14,
            Refusal::OneKind => 15,
        }
    }
}

/// Says what was wrong, in words.
impl fmt::Display for Refusal {
    ghost output = { λ refusal. Some (refusal_words refusal) };

    fn fmt<W: fmt::Write>(&self, f: &mut fmt::Formatter<W>) -> fmt::Result {
        f.write_str(match self {
            Refusal::SizeRange => "a size is not from 1 to 1023",
            Refusal::TooManyCells => "there are more than 16777216 cells",
            Refusal::CellCount => "there is not one cell for each place of the grid",
            Refusal::OutsideGrid => "the place is outside the grid",
            Refusal::OtherSizes => "the picture has other sizes than the job",
            Refusal::NoMark => "no cell is marked",
            Refusal::NoSuchRow => "the axis has no row of that number",
            Refusal::RowLevel => "a cell of the row does not stand at the level below the axis",
            Refusal::RowValue => "a value in the row is above the ceiling of the rule",
            Refusal::RowsLeft => "a cell does not stand at the level of the axis yet",
            Refusal::SpacingRange => "a spacing is not from 1 to 10000",
            Refusal::ByteCount => "there is not one byte for each cell",
            Refusal::HalfGridSize => "a size of the picture is above 512",
            Refusal::OutputCount => "the output has not one number for each cell",
            Refusal::OneKind => "the picture has not both marked and unmarked cells",
        })
    }
}

impl Error for Refusal {}
