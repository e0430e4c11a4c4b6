//! A job on a grid: cells are marked, worked row by row and axis by axis, and then looked at.
//!
//! The states `Painting`, `Working` and `Finished` are moved from one to the next, so a call that a stage does not have
//! does not compile. They hold the rule and numbers only, and each call is lent the cells.
#![tactic(auto)]

mod beginning;
mod on_finished;
mod on_painting;
mod on_working;
mod passes;
mod questions;
mod states;

pub use beginning::begin;
pub use states::{Finished, Kept, Painting, Raised, Working};
