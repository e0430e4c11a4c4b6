ghost use Rattle.pictures.specs.Theorems.{NegativeHasSameFaces, NegativeHasSameKinds, BothKindsHaveAFace, CellsLieOffTheFaces};

/// A picture and its negative have the same face places.
pub fn negative_has_same_faces()
    ensures { NegativeHasSameFaces }
{}

/// The negative has marked and unmarked cells exactly where the picture has both.
pub fn negative_has_same_kinds()
    ensures { NegativeHasSameKinds }
{}

/// A picture with marked and unmarked cells has a face place.
pub fn both_kinds_have_a_face()
    ensures { BothKindsHaveAFace }
{}

/// The doubled place of a cell lies in the half-grid, and is no face place.
pub fn cells_lie_off_the_faces()
    ensures { CellsLieOffTheFaces }
{}
