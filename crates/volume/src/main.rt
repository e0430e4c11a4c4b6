//! Finds the field of a stack of images, up to a whole casting, and writes it to a file.
//!
//! What is told of the field goes to standard output, the seconds and the progress to standard error.
#![tactic(auto)]

mod asked;
mod clock;
mod file;
mod told;

use asked::{Asked, USAGE, asks_for_help, read_words};
use clock::{Progress, Stopwatch};
use file::{read_input, write_field};
use std::env;
use std::process::ExitCode;
use told::tell;
use volumes::{Volume, find_volume};

/// Finds the field of the input's bytes.
fn find(rt: &HostRuntime, asked: &Asked, input: &[u8]) -> anyhow::Result<Volume> {
    let mut progress = Progress::new(rt);
    Ok(find_volume(rt.alloc(), asked.settings, input, &mut progress)?)
}

/// Reads the input, finds its field, writes it and tells of it.
fn work(rt: &HostRuntime, asked: &Asked) -> anyhow::Result<()> {
    let mut watch = Stopwatch::new(rt);
    let input = read_input(rt, asked.input)?;
    watch.lap("reading");
    let volume = find(rt, asked, &input)?;
    watch.restart();
    write_field(rt, asked.output, &volume.cells)?;
    watch.lap("writing");
    tell(rt, asked.settings.rule, volume.sizes, &volume.cells)
}

fn run(rt: &HostRuntime) -> anyhow::Result<()> {
    let words: Vec<String> = env::args(rt)?.skip(1).collect(rt.alloc())?;
    if asks_for_help(&words) {
        rt.print(USAGE)?;
        return Ok(());
    }
    let asked = read_words(&words)?;
    work(rt, &asked)
}

/// Any failure ends the program with status 1, after a message on standard error.
fn main(rt: HostRuntime) -> ExitCode {
    match run(&rt) {
        Ok(()) => ExitCode::SUCCESS,
        Err(error) => {
            let _ = eprintln!(rt; "volume: {error:#}");
            ExitCode::FAILURE
        }
    }
}
