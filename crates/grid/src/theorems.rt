ghost use Rattle.grid.specs.Places.{PlacesInvert};
ghost use Rattle.grid.specs.RowGeometry.{RowsPart};

/// A cell's number and its three places say the same: each gives the other back.
pub fn places_invert()
    ensures { PlacesInvert }
{}

/// Each cell is in one row of an axis, at its place on that axis, and a row's cells stand one stride apart.
pub fn rows_part()
    ensures { RowsPart }
{}
