//! Reads a job text from standard input, and prints its report or its fault.
#![tactic(auto)]

use anyhow::anyhow;
use job_text::MOST_BYTES;
use reporting::{ReportError, fault_text, report};
use std::io::Read;
use std::process::ExitCode;

/// Reads standard input, one byte past the longest at most: more need not be known to tell that it is too long.
fn read_input(rt: &HostRuntime) -> anyhow::Result<Vec<u8>> {
    let mut input = Vec::new(rt.alloc());
    let mut stdin = rt.stdin().take(MOST_BYTES as u64 + 1);
    stdin.read_to_end(&mut input)?;
    Ok(input)
}

/// Prints the report on the input, or its fault and nothing else.
///
/// Without a report the status is 1; an error that is no fault of the input is told on standard error.
fn main(rt: HostRuntime) -> anyhow::Result<ExitCode> {
    let input = read_input(&rt)?;
    match report(rt.alloc(), &input) {
        Ok(text) => {
            rt.print(text)?;
            Ok(ExitCode::SUCCESS)
        }
        Err(ReportError::Fault(fault)) => {
            rt.print(fault_text(rt.alloc(), fault)?)?;
            Ok(ExitCode::FAILURE)
        }
        Err(ReportError::NoMemory) => Err(anyhow!("there is not enough memory for the report")),
    }
}
