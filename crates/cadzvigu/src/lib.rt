//! The library over plain arrays: two functions that take the sizes of a grid, a byte for each cell and arrays for the answers.
//! The memory for the cells is taken and given back inside. The crate `cadzvigu_c` exports them to C, C++ and Python.
#![tactic(auto)]

mod fault;
mod nearest_points;
mod skin;
#[cfg(test)]
mod tests;
mod theorems;
mod writing;

pub use fault::{Fault, status};
pub use nearest_points::nearest;
pub use skin::signed_distances;
pub use theorems::statuses_differ;
