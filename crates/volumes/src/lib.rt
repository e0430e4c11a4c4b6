//! Whole volumes: the field of a stack of images of any size that a grid can have, what is told of it, and the bytes of
//! the file that holds it. Everything that matters of the program `volume` is here, as functions on values.
#![tactic(auto)]

mod bytes;
mod fault_words;
mod field;
mod summary;
mod words;

pub use bytes::{ChunkFault, put_points, put_values};
pub use field::{Volume, VolumeFault, find_volume};
pub use summary::{Farthest, Summary, summarise};
pub use words::read_settings;
