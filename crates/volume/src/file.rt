//! The input's bytes, and the file of a field.
ghost use Rattle.std.specs.Prelude.{◌*◌, ◌≤◌, length};

use anyhow::Context;
use grid::Cell;
use std::fs::File;
use std::io::Write;
use std::{fs, io};
use volumes::{ChunkFault, put_points, put_values};

/// How many cells are written at a time.
const CHUNK: usize = 8192;

pub fn read_input(rt: &HostRuntime, path: &str) -> anyhow::Result<Vec<u8>> {
    fs::read(rt, path).context("the input cannot be read")
}

fn unfit() -> io::Error {
    io::Error::new(io::ErrorKind::InvalidInput, "a chunk does not fit")
}

/// Writes the bytes that `put` makes of the cells, `width` for each, a chunk of cells at a time.
fn write_part<F: Fn(&[Cell], usize, &mut [u8]) -> Result<(), ChunkFault>>(
    file: &mut File,
    cells: &[Cell],
    width: usize,
    buffer: &mut [u8],
    put: F,
) -> io::Result<()>
    requires room { width * 8192 ≤ length buffer.old }
    requires callable { F.IsAlwaysCallable put }
{
    for from in (0..cells.len()).step_by(CHUNK) {
        let count = (cells.len() - from).min(CHUNK);
        let chunk = &mut buffer[..width * count];
        put(cells, from, chunk).map_err(|_| unfit())?;
        file.write_all(chunk)?;
    }
    Ok(())
}

/// Fills the part file, and gives it the output's name.
fn fill_file(
    rt: &HostRuntime,
    mut file: File,
    part: &str,
    path: &str,
    cells: &[Cell],
) -> io::Result<()> {
    let mut buffer = [0u8; 65536];
    // by closures, since a function of another crate is not proved where its bare name is passed
    write_part(
        &mut file,
        cells,
        8,
        &mut buffer,
        |all, from, chunk| put_values(all, from, chunk),
    )?;
    write_part(
        &mut file,
        cells,
        4,
        &mut buffer,
        |all, from, chunk| put_points(all, from, chunk),
    )?;
    file.sync_all()?;
    fs::rename(rt, part, path)
}

/// Writes the field. It has the output's name only once it is whole: until then it stands beside it, with `.part` added.
fn write_whole(rt: &HostRuntime, part: &str, path: &str, cells: &[Cell]) -> io::Result<()> {
    let file = fs::create(rt, part)?;
    let outcome = fill_file(rt, file, part, path, cells);
    if outcome.is_err() {
        let _ = fs::remove_file(rt, part);
    }
    outcome
}

pub fn write_field(rt: &HostRuntime, path: &str, cells: &[Cell]) -> anyhow::Result<()> {
    let part = format!(in rt.alloc(); "{path}.part")?;
    write_whole(rt, &part, path, cells).context("the output cannot be written")
}
