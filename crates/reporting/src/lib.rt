//! The report on a job text: a line of names, a line of values and a stack of images in, one line for each cell out.
//! Everything that the program `report` prints is made here, as a function on bytes.
#![tactic(auto)]

mod faults;
mod field;
mod text;

pub use faults::{Part, ReportError, ReportFault};
pub use field::{MOST_CELLS, report};
pub use text::{fault_text, shown_distance};
