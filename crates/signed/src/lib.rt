//! The signed field of a picture: how far each cell is from the faces between marked and unmarked cells, negative on
//! marked cells.
#![tactic(auto)]

mod field;
mod numbers;
mod room;
#[cfg(test)]
mod tests;
mod theorems;

pub use field::{signed, signed_of_negative};
pub use theorems::{negative_turns_sign, worked_examples};
