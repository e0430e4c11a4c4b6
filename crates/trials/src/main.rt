//! Compares the library with plain searches on random grids. Standard input is a seed and a number of rounds, as `7 40`.
#![tactic(auto)]

mod crossings;
mod dice;
mod images;
mod rounds;
mod signs;
mod whole_fields;

use anyhow::anyhow;
use dice::Dice;
use rounds::compare;
use std::io::Read;

/// The two numbers of the input: the seed and the rounds.
fn read_numbers(rt: &HostRuntime) -> anyhow::Result<(u64, u32)> {
    let mut input = String::new(rt.alloc());
    rt.stdin().take(64).read_to_string(&mut input)?;
    let mut words = input.split_whitespace();
    let (Some(seed), Some(rounds)) = (words.next(), words.next()) else {
        return Err(anyhow!("a seed and a number of rounds are wanted"));
    };
    Ok((seed.parse::<u64>()?, rounds.parse::<u32>()?))
}

fn run(rt: &HostRuntime) -> anyhow::Result<()> {
    let (seed, rounds) = read_numbers(rt)?;
    let mut dice = Dice::new(seed);
    let heap = rt.alloc();
    let cells = compare(
        &mut dice,
        rounds,
        |dice| whole_fields::compare_round(heap, dice),
    )?;
    println!(rt; "fields: {rounds} pictures under each rule, {cells} cells, all agree")?;
    let numbers = compare(&mut dice, rounds, |dice| signs::compare_round(heap, dice))?;
    println!(rt; "signed fields: {rounds} pictures under each rule, {numbers} numbers, all agree")?;
    let crossings = compare(&mut dice, rounds, crossings::compare_round)?;
    println!(rt; "crossings: {crossings} pairs of points, all agree")?;
    let bits = compare(&mut dice, rounds, |dice| images::compare_round(heap, dice))?;
    println!(rt; "stacks: {rounds} stacks, {bits} cells, all agree")?;
    Ok(())
}

fn main(rt: HostRuntime) -> anyhow::Result<()> {
    run(&rt)
}
