ghost use Rattle.std.specs.Prelude.{◌≡◌, Decides};
ghost use Rattle.pictures.specs.Kinds.{count_marks, SomeMarked, BothKinds};

use crate::negative::Negative;
use crate::picture::Picture;

/// How many cells of a picture are marked.
pub fn count_marked<P: Picture>(picture: &P) -> u32
    ensures { result ≡ count_marks (P.extent picture.now) (P.marks picture.now) }
{
    let grid = picture.grid();
    (0..grid.count())
        .filter(|k| picture.marked(grid.place(*k)))
        .count() as u32
}

/// Whether a picture has a marked cell.
pub fn has_mark<P: Picture>(picture: &P) -> bool
    ensures { Decides result (SomeMarked (P.extent picture.now) (P.marks picture.now)) }
{
    let grid = picture.grid();
    (0..grid.count()).any(|k| picture.marked(grid.place(k)))
}

/// Whether a picture has a marked cell and an unmarked one.
pub fn has_both_kinds<P: Picture>(picture: &P) -> bool
    ensures { Decides result (BothKinds (P.extent picture.now) (P.marks picture.now)) }
{
    has_mark(picture) && has_mark(&Negative::new(picture))
}
