//! Takes the time of the pass over all rows of a grid whose marks are made by chance.
//! The sum of all values goes to standard output, and the seconds of the three axes to standard error.
#![tactic(auto)]

mod asked;
mod board;

use anyhow::anyhow;
use asked::{Asked, arguments};
use board::Board;
use grid::{Axis, Grid};
use rows::Room;
use rules::{Block, Chess, Rule, RuleName, Spacings, Square};
use std::time::Instant;

/// The seconds that it takes to work all rows of an axis.
fn time_axis<R: Rule + Copy>(
    rt: &HostRuntime,
    rule: &R,
    axis: Axis,
    board: &mut Board,
    room: &mut Room,
) -> anyhow::Result<f64> {
    let start = Instant::now(rt)?;
    let answer = board.work_axis(rule, axis, room);
    let taken = start.elapsed(rt)?.as_secs_f64();
    answer.map_err(|_| anyhow!("a row was refused"))?;
    Ok(taken)
}

/// Paints the cells and works all rows of the three axes, as often as asked.
fn time_grid<R: Rule + Copy>(
    rt: &HostRuntime,
    rule: &R,
    asked: &Asked,
    board: &mut Board,
) -> anyhow::Result<()> {
    let mut room = Room::new();
    for _ in 0..asked.repeats {
        board.fill(asked.seed, asked.per_mille);
        let first = time_axis(rt, rule, Axis { number: 1 }, board, &mut room)?;
        let second = time_axis(rt, rule, Axis { number: 2 }, board, &mut room)?;
        let third = time_axis(rt, rule, Axis { number: 3 }, board, &mut room)?;
        let all = first + second + third;
        eprintln!(rt; "{first:.5} {second:.5} {third:.5} {all:.5}")?;
    }
    Ok(())
}

/// The same under the rule that is asked for. It is one of three types, since `NamedRule`, which chooses for each cell, would
/// take 5 to 13 percent longer and miss the aim of docs/PERFORMANCE.md.
fn time_rule(rt: &HostRuntime, asked: &Asked, board: &mut Board) -> anyhow::Result<()> {
    let (sx, sy, sz) = asked.spacings;
    let spacings = Spacings::new(sx, sy, sz).map_err(|_| anyhow!(
        "a spacing is not from 1 to 10000"
    ))?;
    match asked.rule {
        RuleName::Square => time_grid(rt, &Square::from(spacings), asked, board),
        RuleName::Block => time_grid(rt, &Block::from(spacings), asked, board),
        RuleName::Chess => time_grid(rt, &Chess::from(spacings), asked, board),
    }
}

fn run(rt: &HostRuntime) -> anyhow::Result<()> {
    let asked = arguments(rt)?;
    let grid = Grid::new(asked.sizes).map_err(|_| anyhow!("these are not the sizes of a grid"))?;
    let mut board = Board::new(rt.alloc(), grid)?;
    time_rule(rt, &asked, &mut board)?;
    let sum = board.sum();
    println!(rt; "{sum}")?;
    Ok(())
}

fn main(rt: HostRuntime) -> anyhow::Result<()> {
    run(&rt)
}
