ghost use Rattle.std.specs.Prelude.{◌≡◌, ℕ, ◌<◌, ◌≤◌};
ghost use Rattle.grid.specs.Geometry.{cell_count};
ghost use Rattle.grid.specs.Distance.{distance};
ghost use Rattle.pictures.specs.Numbered.{marks_by_number};
ghost use Rattle.exhaustive.specs.Search.{NearestBelow, nearer_of};

use grid::Grid;
use pictures::Picture;
use rules::{Point, Rule};

/// The distance at the cell `at` from the cell `from`: the rule's cost on each axis, carried to the next.
fn distance_in<R: Rule>(rule: &R, grid: Grid, at: u32, from: u32) -> u64
    requires { (at < cell_count grid.sizes) × (from < cell_count grid.sizes) }
    ensures { result ≡ distance (R.near rule.now) grid.sizes 3 at from }
{
    let (x, y, z) = grid.place(at);
    let (i, j, k) = grid.place(from);
    let along_x = rule.near_in(
        1,
        Point {
            place: i,
            carried: 0,
        },
        x,
    );
    let along_y = rule.near_in(
        2,
        Point {
            place: j,
            carried: along_x,
        },
        y,
    );
    rule.near_in(
        3,
        Point {
            place: k,
            carried: along_y,
        },
        z,
    )
}

/// A nearest marked cell of the whole grid and its distance, or none where no cell is marked.
pub fn nearest_in<R: Rule, P: Picture>(
    rule: &R,
    picture: &P,
    grid: Grid,
    at: u32,
) -> Option<(u32, u64)>
    requires { at < cell_count grid.sizes }
    ensures { NearestBelow (R.near rule.now) grid.sizes (marks_by_number grid.sizes (P.marks picture.now)) at (cell_count grid.sizes) result }
{
    let mut best = None;
    for from in 0..grid.count() {
        if picture.marked(grid.place(from)) {
            let value = distance_in(rule, grid, at, from);
            best = nearer(best, from, value);
        }
    }
    best
}

/// The nearer of the best so far and another marked cell; the best so far where they are as near.
fn nearer(best: Option<(u32, u64)>, from: u32, value: u64) -> Option<(u32, u64)>
    ensures { result ≡ nearer_of best from value }
{
    match best {
        Some((_, least)) if least <= value => best,
        _ => Some((from, value)),
    }
}
