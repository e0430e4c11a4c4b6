ghost use Rattle.std.specs.Prelude.{◌≡◌, length};
ghost use Rattle.grid.specs.Doors.{Admits};
ghost use Rattle.pictures.specs.Faces.{half_sizes};
ghost use Rattle.pictures.specs.Kinds.{BothKinds};
ghost use Rattle.signed.specs.Doors.{room_door};

use grid::{Cell, Grid, Refusal};
use pictures::{Picture, has_both_kinds};

/// Whether there is one of the cells for each place of a picture's half-grid, and one of the numbers for each of its cells,
/// and the picture has both kinds of cell.
pub(crate) fn check_room<P: Picture>(
    picture: &P,
    half: Grid,
    cells: &[Cell],
    output: &[i64],
) -> Result<(), Refusal>
    requires { half.sizes ≡ half_sizes (P.extent picture.now) }
    ensures { Admits result (room_door (P.extent picture.now) (P.marks picture.now) (length cells.now) (length output.now)) (λ _. BothKinds (P.extent picture.now) (P.marks picture.now)) }
{
    if !half.fits(cells) {
        return Err(Refusal::CellCount);
    }
    if !picture.grid().fits(output) {
        return Err(Refusal::OutputCount);
    }
    if !has_both_kinds(picture) {
        return Err(Refusal::OneKind);
    }
    Ok(())
}
