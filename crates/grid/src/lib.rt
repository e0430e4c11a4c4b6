//! Grids of cells on three axes: sizes, places and cell numbers, the record that is kept of a cell,
//! and the refusals that every call of the library answers with.
#![tactic(auto)]

mod axis;
mod cell;
mod grids;
mod refusal;
mod row;
mod sizes;
mod theorems;

pub use axis::Axis;
pub use cell::Cell;
pub use grids::Grid;
pub use refusal::Refusal;
pub use row::Row;
pub use sizes::{MAX_CELLS, MAX_SIZE, Sizes};
pub use theorems::{places_invert, rows_part};
