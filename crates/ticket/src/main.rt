//! Replays a script of calls on one job, and prints every answer.
//!
//! The first line of standard input is a rule with its spacings, the second `begin` with the sizes, and each line after it
//! a call. The same lines go to standard output, each call with its answer.
#![tactic(auto)]

mod brick;
mod script;

use anyhow::anyhow;
use grid::Cell;
use replay::{Answer, Job, Unplayed, replay};
use rules::{NamedRule, Rule};
use script::{Script, read_script};
use std::fmt;

/// An answer, as it is printed.
#[derive(Clone, Copy)]
struct Told(Answer);

impl fmt::Display for Told {
    fn fmt<W: fmt::Write>(&self, f: &mut fmt::Formatter<W>) -> fmt::Result {
        match self.0 {
            Answer::Done => f.write_str("done"),
            Answer::Held(Some((point, value))) => write!(f, "cell {point} at {value}"),
            Answer::Held(None) => f.write_str("none"),
            Answer::Refused(refusal) => write!(f, "refused {}", refusal.number()),
            Answer::Absent => f.write_str("no such call at this stage"),
        }
    }
}

/// The name of the stage that a job is in.
fn stage_name<R>(job: &Job<R>) -> &'static str {
    match job {
        Job::Painting(_) => "painting",
        Job::Working(_) => "working",
        Job::Finished(_) => "finished",
    }
}

/// Makes the calls of a script under a rule, and prints their answers and the stage at the end.
fn play<R: Rule + Drop>(rt: &HostRuntime, rule: R, script: &Script) -> anyhow::Result<()> {
    let count = script.sizes.count_cells().unwrap_or(0);
    let mut cells = vec![in rt.alloc(); Cell::painted(false, 0); count as usize]?;
    let mut answers = vec![in rt.alloc(); Answer::Absent; script.calls.len()]?;
    let stage = match replay(rule, script.sizes, &mut cells, &script.calls, &mut answers) {
        Ok(job) => stage_name(&job),
        Err(Unplayed::Begin(kept)) => {
            let number = kept.refusal.number();
            println!(rt; "begin: refused {number}")?;
            return Ok(());
        }
        Err(Unplayed::AnswerCount(_)) => return Err(anyhow!(
            "there is not one slot for each answer"
        )),
    };
    println!(rt; "begin: done")?;
    for (line, answer) in script.lines.iter().zip(answers.iter()) {
        let told = Told(*answer);
        println!(rt; "{line}: {told}")?;
    }
    println!(rt; "the job is {stage}")?;
    Ok(())
}

/// The same under the rule that the script names.
fn play_ruled(rt: &HostRuntime, script: &Script) -> anyhow::Result<()> {
    let (sx, sy, sz) = script.ruled.spacings;
    let rule = NamedRule::new(script.ruled.rule, sx, sy, sz).map_err(|_| anyhow!(
        "a spacing is not from 1 to 10000"
    ))?;
    play(rt, rule, script)
}

fn run(rt: &HostRuntime) -> anyhow::Result<()> {
    play_ruled(rt, &read_script(rt)?)
}

fn main(rt: HostRuntime) -> anyhow::Result<()> {
    run(&rt)
}
