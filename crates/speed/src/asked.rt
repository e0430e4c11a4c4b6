//! What the program is asked for: a rule, sizes, spacings, how cells are marked, how often.
use anyhow::{Context, anyhow};
use grid::Sizes;
use rules::RuleName;
use std::env;

#[derive(Clone, Copy)]
pub struct Asked {
    pub rule: RuleName,
    pub sizes: Sizes,
    pub spacings: (u32, u32, u32),
    pub seed: u64,
    pub per_mille: u64,
    pub repeats: u64,
}

fn small(n: u64) -> anyhow::Result<u32> {
    Ok(u32::try_from(n)?)
}

/// The arguments: RULE NX NY NZ SX SY SZ SEED PER_MILLE REPEATS.
pub fn arguments(rt: &HostRuntime) -> anyhow::Result<Asked> {
    let mut words = env::args(rt)?.skip(1);
    let name = words
        .next()
        .context("RULE NX NY NZ SX SY SZ SEED PER_MILLE REPEATS")?;
    let rule = name.parse::<RuleName>()?;
    let mut numbers = Vec::new(rt.alloc());
    for word in words {
        numbers.push(word.parse::<u64>()?)?;
    }
    read(rule, &numbers)
}

fn read(rule: RuleName, numbers: &[u64]) -> anyhow::Result<Asked> {
    let [nx, ny, nz, sx, sy, sz, seed, per_mille, repeats] = *numbers else {
        return Err(anyhow!("RULE NX NY NZ SX SY SZ SEED PER_MILLE REPEATS"));
    };
    Ok(Asked {
        rule,
        sizes: Sizes {
            nx: small(nx)?,
            ny: small(ny)?,
            nz: small(nz)?,
        },
        spacings: (small(sx)?, small(sy)?, small(sz)?),
        seed,
        per_mille,
        repeats,
    })
}
