//! Stacks of raw bit images (PBM), one image a layer, read as a picture.
#![tactic(auto)]

mod faults;
mod images;
mod reading;
mod stack;

pub use faults::{Cause, StackFault};
pub use stack::Stack;
