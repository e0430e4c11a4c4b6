//! Pictures: what counts as marked on a grid, whatever it is read from.
#![tactic(auto)]

mod counts;
mod grey;
mod half_grid;
mod negative;
mod picture;
#[cfg(test)]
mod tests;
mod theorems;

pub use counts::{count_marked, has_both_kinds, has_mark};
pub use grey::Grey;
pub use half_grid::HalfGrid;
pub use negative::Negative;
pub use picture::Picture;
pub use theorems::{
    both_kinds_have_a_face, cells_lie_off_the_faces, negative_has_same_faces,
    negative_has_same_kinds,
};
