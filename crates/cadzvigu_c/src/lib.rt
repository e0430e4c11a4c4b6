//! The two functions that C, C++ and Python call: each takes plain arrays, calls the library `cadzvigu`, and answers a status.
#![tactic(auto)]

mod exports;

pub use exports::{cadzvigu_nearest, cadzvigu_signed};
