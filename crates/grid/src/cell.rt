ghost use Rattle.std.specs.Prelude.{◌≡◌};
ghost use Rattle.grid.specs.Cells.{painted};

/// What is known of one cell of a grid.
///
/// Its level, 0 to 3, says how many axes have been worked. Its point is the number of a nearest marked cell of its
/// slab at that level (the cells with the same places on every axis above it), and its value that cell's distance;
/// with no mark in the slab the point is none and the value 0.
// Point and value stand side by side: as one option of a pair they would make a record of 32 bytes out of one of 24, and a
// value above the ceiling is refused whether there is a point or not.
#[derive(Clone, Copy, PartialEq, Eq, Debug)]
pub struct Cell {
    pub marked: bool,
    pub level: u8,
    pub point: Option<u32>,
    pub value: u64,
}

impl Cell {
    /// The record of a cell before any row is worked: a marked cell holds itself, an unmarked one nothing.
    pub fn painted(marked: bool, number: u32) -> Cell
        ensures { result ≡ painted marked number }
    {
        let point = if marked { Some(number) } else { None };
        Cell {
            marked,
            level: 0,
            point,
            value: 0,
        }
    }
}
