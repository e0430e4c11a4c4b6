//! The two lines that stand before a stack of images in a job text: a line of column names, and a line of their values.
#![tactic(auto)]

mod columns;
mod job;
mod names;
mod settings;

pub use columns::{Column, Order};
pub use job::{Job, JobFault, MOST_BYTES, read_job};
pub use rules::RuleName;
pub use settings::Settings;
