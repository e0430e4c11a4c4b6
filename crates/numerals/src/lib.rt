//! Decimal numbers at the front of lent bytes, alone or closed by a byte of its own.
#![tactic(auto)]

mod numbers;

pub use numbers::{Ending, after_prefix, read_digits, read_number};
