//! The distance field by an exhaustive search over all pairs of cells: slow, short and plain, so it serves as the
//! measure for everything faster.
#![tactic(auto)]

mod field;
mod nearest;

pub use field::search_field;
