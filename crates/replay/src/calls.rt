ghost use Rattle.std.specs.Prelude.{◌≡◌, MatchResult};
ghost use Rattle.replay.specs.declared.calls.Answer.TheVariants.{Done, Refused};

use grid::Refusal;

/// A call on a job, with its arguments. Calls are data, which a script can hold, and no closures.
#[derive(Drop)]
pub enum Call<P> {
    Mark((u32, u32, u32)),
    Wipe((u32, u32, u32)),
    Load(P),
    Start,
    Row(u32),
    Raise,
    Look((u32, u32, u32)),
    Reopen,
}

/// What a call answers.
#[derive(Clone, Copy)]
pub enum Answer {
    /// The call was accepted.
    Done,
    /// A look was accepted: the point that the cell holds and its value, or none.
    Held(Option<(u32, u64)>),
    /// The call was refused.
    Refused(Refusal),
    /// The job's stage has no such call.
    Absent,
}

/// The answer of a call that keeps its state.
impl From<Result<(), Refusal>> for Answer {
    ghost from_gives = { λ r answer. MatchResult r (λ _. answer ≡ Done) (λ refusal. answer ≡ Refused refusal) };

    fn from(outcome: Result<(), Refusal>) -> Answer {
        match outcome {
            Ok(()) => Answer::Done,
            Err(refusal) => Answer::Refused(refusal),
        }
    }
}
