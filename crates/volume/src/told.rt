//! What is told of a field, one fact a line.
use grid::{Cell, Sizes};
use job_text::RuleName;
use reporting::shown_distance;
use volumes::{Farthest, summarise};

fn tell_farthest(
    rt: &HostRuntime,
    rule: RuleName,
    sizes: Sizes,
    farthest: Farthest,
) -> anyhow::Result<()> {
    let value = farthest.value;
    let dist = shown_distance(rule, value);
    println!(rt; "largest {value}")?;
    println!(rt; "dist {dist}")?;
    if let Some((x, y, z)) = sizes.place_of(u32::try_from(farthest.number)?) {
        println!(rt; "at {x} {y} {z}")?;
    }
    Ok(())
}

pub fn tell(rt: &HostRuntime, rule: RuleName, sizes: Sizes, cells: &[Cell]) -> anyhow::Result<()> {
    let Sizes { nx, ny, nz } = sizes;
    println!(rt; "sizes {nx} {ny} {nz}")?;
    let summary = summarise(cells);
    let marked = summary.marked;
    println!(rt; "marked {marked}")?;
    if let Some(farthest) = summary.farthest {
        tell_farthest(rt, rule, sizes, farthest)?;
    }
    Ok(())
}
