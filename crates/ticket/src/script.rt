//! Reads the lines of a script.
use crate::brick::Brick;
use anyhow::{Context, anyhow};
use grid::Sizes;
use replay::Call;
use rules::RuleName;

/// The first line: a rule and its spacings.
#[derive(Clone, Copy)]
pub(crate) struct Ruled {
    pub(crate) rule: RuleName,
    pub(crate) spacings: (u32, u32, u32),
}

/// A script: its rule, the sizes of its job and its calls. `replay` takes a slice of calls, so the line of each stands
/// beside it in a list of its own.
#[derive(Drop)]
pub(crate) struct Script {
    pub(crate) ruled: Ruled,
    pub(crate) sizes: Sizes,
    pub(crate) lines: Vec<String>,
    pub(crate) calls: Vec<Call<Brick>>,
}

/// The numbers of a line, after its first word.
fn numbers(rt: &HostRuntime, line: &str) -> anyhow::Result<Vec<u32>> {
    let mut found = Vec::new(rt.alloc());
    for word in line.split_whitespace().skip(1) {
        found.push(word.parse::<u32>()?)?;
    }
    Ok(found)
}

fn place(numbers: &[u32], from: usize) -> anyhow::Result<(u32, u32, u32)> {
    match numbers.get(from..) {
        Some([x, y, z, ..]) => Ok((*x, *y, *z)),
        _ => Err(anyhow!("a place is three numbers")),
    }
}

fn sizes_of((nx, ny, nz): (u32, u32, u32)) -> Sizes {
    Sizes { nx, ny, nz }
}

/// `square`, `block` or `chess`, and three spacings.
fn rule_line(rt: &HostRuntime, line: &str) -> anyhow::Result<Ruled> {
    let word = line.split_whitespace().next().unwrap_or("");
    let rule = word.parse::<RuleName>()?;
    let spacings = place(&numbers(rt, line)?, 0)?;
    Ok(Ruled { rule, spacings })
}

/// `begin` and three sizes.
fn begin_line(rt: &HostRuntime, line: &str) -> anyhow::Result<Sizes> {
    match line.split_whitespace().next() {
        Some("begin") => Ok(sizes_of(place(&numbers(rt, line)?, 0)?)),
        _ => Err(anyhow!("the second line is begin and three sizes")),
    }
}

/// A call and its arguments; `load` has the sizes of a picture and two corners, between which it marks all cells.
fn call_line(rt: &HostRuntime, line: &str) -> anyhow::Result<Call<Brick>> {
    let given = numbers(rt, line)?;
    match line.split_whitespace().next() {
        Some("mark") => Ok(Call::Mark(place(&given, 0)?)),
        Some("wipe") => Ok(Call::Wipe(place(&given, 0)?)),
        Some("load") => {
            let sizes = sizes_of(place(&given, 0)?);
            let low = place(&given, 3)?;
            let high = place(&given, 6)?;
            Ok(Call::Load(Brick { sizes, low, high }))
        }
        Some("start") => Ok(Call::Start),
        Some("row") => Ok(Call::Row(*given.first().context("a row has a number")?)),
        Some("raise") => Ok(Call::Raise),
        Some("look") => Ok(Call::Look(place(&given, 0)?)),
        Some("reopen") => Ok(Call::Reopen),
        _ => Err(anyhow!("a call is mark, wipe, load, start, row, raise, look or reopen")),
    }
}

/// Reads standard input.
pub(crate) fn read_script(rt: &HostRuntime) -> anyhow::Result<Script> {
    let mut input = rt.lines(rt.alloc());
    let first = input.next().context("the first line is a rule")?;
    let ruled = rule_line(rt, &first?)?;
    let second = input
        .next()
        .context("the second line is begin and three sizes")?;
    let sizes = begin_line(rt, &second?)?;
    let mut lines = Vec::new(rt.alloc());
    let mut calls = Vec::new(rt.alloc());
    for line in input {
        let line = line?;
        calls.push(call_line(rt, &line)?)?;
        lines.push(line)?;
    }
    Ok(Script {
        ruled,
        sizes,
        lines,
        calls,
    })
}
