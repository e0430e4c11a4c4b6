// What is told of a field.
ghost use Rattle.std.specs.Prelude.{◌≡◌, ◌<◌, length};
ghost use Rattle.pictures.specs.Kinds.{count_below};
ghost use Rattle.job.specs.Cells.{marks_in};
ghost use Rattle.volumes.specs.Summaries.{beaten, FarthestBelow, Summarises};

use grid::Cell;

/// A cell that is as far from its point as any: the lowest such number, and the value.
#[derive(Clone, Copy)]
pub struct Farthest {
    pub number: usize,
    pub value: u64,
}

/// What is told of a field: how many cells are marked, and which has the largest value, of those that have a point.
#[derive(Clone, Copy)]
pub struct Summary {
    pub marked: usize,
    pub farthest: Option<Farthest>,
}

/// How many cells are marked.
fn count_marked(cells: &[Cell]) -> usize
    ensures { result ≡ count_below (marks_in cells.now) (length cells.now) }
{
    cells.iter().filter(|cell| cell.marked).count()
}

/// Whether a value is above that of the farthest cell so far.
fn beats(best: Option<Farthest>, value: u64) -> bool
    ensures { result ≡ beaten best value }
{
    best.is_none_or(|farthest| farthest.value < value)
}

/// The lowest number of a cell that has the largest value, of those that have a point; none where no cell has one.
fn find_farthest(cells: &[Cell]) -> Option<Farthest>
    ensures { FarthestBelow cells.now (length cells.now) result }
{
    let mut best = None;
    for (number, cell) in cells.iter().enumerate() {
        if cell.point.is_some() && beats(best, cell.value) {
            let value = cell.value;
            best = Some(Farthest { number, value });
        }
    }
    best
}

/// What is told of a field.
pub fn summarise(cells: &[Cell]) -> Summary
    ensures { Summarises cells.now result }
{
    Summary {
        marked: count_marked(cells),
        farthest: find_farthest(cells),
    }
}
