ghost use Rattle.std.specs.Prelude.{◌≡◌, true, length};
ghost use Rattle.grid.specs.Geometry.{cell_count, cell_number, inside};
ghost use Rattle.grid.specs.Cells.{cell_at};
ghost use Rattle.pictures.specs.Faces.{doubled};
ghost use Rattle.signed.specs.Distances.{with_sign};
ghost use Rattle.signed.specs.Fields.{CanRead, ReadsField};

use grid::{Cell, Grid};
use pictures::Picture;

/// The number of the cell at a place: the value at its doubled place, negated where the cell is marked.
fn number_at<P: Picture>(picture: &P, half: Grid, cells: &[Cell], place: (u32, u32, u32)) -> i64
    requires field { CanRead (P.extent picture.now) half.sizes cells.now }
    requires place { inside (P.extent picture.now) place ≡ true }
    ensures { result ≡ with_sign (P.marks picture.now place) (cell_at cells.now (cell_number half.sizes (doubled place))).value }
{
    let (x, y, z) = place;
    let at = half.number((2 * x, 2 * y, 2 * z));
    let value = cells[at as usize].value as i64;
    if picture.marked(place) { -value } else { value }
}

/// Writes the number of each cell of a picture, from a finished field of its half-grid.
pub(crate) fn write_numbers<P: Picture>(picture: &P, half: Grid, cells: &[Cell], output: &mut [i64])
    requires field { CanRead (P.extent picture.now) half.sizes cells.now }
    requires room { length output.old ≡ cell_count (P.extent picture.now) }
    ensures { ReadsField (P.extent picture.now) (P.marks picture.now) cells.now output.new }
{
    let grid = picture.grid();
    let mut place = (0, 0, 0);
    for number in output.iter_mut() {
        *number = number_at(picture, half, cells, place);
        place = grid.next(place);
    }
}
