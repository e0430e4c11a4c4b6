// The two lines before the stack.
ghost use Rattle.std.specs.Result.{MatchResult};
ghost use Rattle.job_text.specs.Jobs.{IsJob, FaultyJob};

use crate::columns::read_names;
use crate::settings::{Settings, read_values};

/// The longest input, in bytes.
pub const MOST_BYTES: usize = 8192;

/// What is wrong with the two lines before the stack.
#[derive(Clone, Copy, PartialEq, Eq, Debug)]
pub enum JobFault {
    /// The input is longer than 8,192 bytes.
    TooLong,
    /// The first line does not name each column once.
    Names,
    /// The second line has no right value for each column; it starts at this byte.
    Values(usize),
}

/// What an input asks for, and the bytes of its stack.
#[derive(Clone, Copy)]
pub struct Job<'a> {
    pub settings: Settings,
    pub stack: &'a [u8],
}

/// Reads the line of names and the line of values; what comes after them is the stack.
pub fn read_job(input: &[u8]) -> Result<Job<'_>, JobFault>
    ensures { MatchResult result (λ j. IsJob input.now j.settings j.stack.now) (λ f. FaultyJob input.now f) }
{
    if input.len() > MOST_BYTES {
        return Err(JobFault::TooLong);
    }
    let (order, values) = read_names(input).ok_or(JobFault::Names)?;
    let start = input.len() - values.len();
    let (settings, stack) = read_values(values, order).ok_or(JobFault::Values(start))?;
    Ok(Job { settings, stack })
}
