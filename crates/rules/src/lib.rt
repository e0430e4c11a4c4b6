//! Distance rules: what it costs, axis by axis, to reach a place of a grid from a point.
//!
//! `Rule` is what a distance transform asks of a rule, with the laws that it rests on; `Square`, `Block` and `Chess`
//! are three rules over the spacings of the axes, and `NamedRule` is one of the three that is named when the program runs.
#![tactic(auto)]

mod block;
mod chess;
mod halving;
mod name;
mod named;
mod point;
mod quotient;
mod rule;
mod spacings;
mod square;
mod theorems;

pub use block::Block;
pub use chess::Chess;
pub use halving::crossing_by_halving;
pub use name::{RuleName, UnknownRule};
pub use named::NamedRule;
pub use point::Point;
pub use rule::Rule;
pub use spacings::{MAX_SPACING, Spacings};
pub use square::Square;
pub use theorems::{answers_are_pinned, shortcuts_spoil, worked_examples};
