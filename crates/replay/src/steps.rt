//! One call on a job at any stage.
ghost use Rattle.std.specs.Prelude.{◌≡◌};
ghost use Rattle.replay.specs.Book.{step};
ghost use Rattle.replay.specs.Jobs.{raised_job, rule_of, shown, Sound};
ghost use Rattle.replay.specs.Runs.{Called};

use crate::calls::{Answer, Call};
use crate::jobs::Job;
use grid::Cell;
use job::{Finished, Painting, Raised, Working};
use pictures::Picture;
use rows::Room;
use rules::Rule;

fn call_painting<R: Rule, P: Picture>(
    job: Painting<R>,
    cells: &mut [Cell],
    call: &Call<P>,
) -> (Job<R>, Answer)
    requires { Sound (R.near job.rule) (Job.Painting job) cells.old }
    ensures { Called P.extent P.marks (R.near job.rule) (step P.extent P.marks (shown (Job.Painting job) cells.old) call.now) (Job.Painting job) call.now result.0 result.1 cells.old cells.new }
{
    match call {
        Call::Mark(place) => {
            let answer = Answer::from(job.mark(cells, *place));
            (Job::Painting(job), answer)
        }
        Call::Wipe(place) => {
            let answer = Answer::from(job.wipe(cells, *place));
            (Job::Painting(job), answer)
        }
        Call::Load(picture) => {
            let answer = Answer::from(job.load(cells, picture));
            (Job::Painting(job), answer)
        }
        Call::Start => match job.start(cells) {
            Ok(next) => (Job::Working(next), Answer::Done),
            Err(kept) => (Job::Painting(kept.state), Answer::Refused(kept.refusal)),
        },
        Call::Row(_) | Call::Raise | Call::Look(_) | Call::Reopen => (
            Job::Painting(job),
            Answer::Absent,
        ),
    }
}

/// The job to which a raise has led.
impl<R> From<Raised<R>> for Job<R> {
    ghost from_gives = { λ raised job. job ≡ raised_job raised };

    fn from(raised: Raised<R>) -> Job<R> {
        match raised {
            Raised::Next(next) => Job::Working(next),
            Raised::Last(last) => Job::Finished(last),
        }
    }
}

fn call_working<R: Rule, P: Picture>(
    job: Working<R>,
    cells: &mut [Cell],
    call: &Call<P>,
    room: &mut Room,
) -> (Job<R>, Answer)
    requires { Sound (R.near job.rule) (Job.Working job) cells.old }
    ensures { Called P.extent P.marks (R.near job.rule) (step P.extent P.marks (shown (Job.Working job) cells.old) call.now) (Job.Working job) call.now result.0 result.1 cells.old cells.new }
{
    match call {
        Call::Row(number) => {
            let answer = Answer::from(job.row_in(cells, *number, room));
            (Job::Working(job), answer)
        }
        Call::Raise => match job.raise(cells) {
            Ok(raised) => (Job::from(raised), Answer::Done),
            Err(kept) => (Job::Working(kept.state), Answer::Refused(kept.refusal)),
        },
        Call::Reopen => match job.reopen(cells) {
            Ok(next) => (Job::Painting(next), Answer::Done),
            Err(kept) => (Job::Working(kept.state), Answer::Refused(kept.refusal)),
        },
        Call::Mark(_) | Call::Wipe(_) | Call::Load(_) | Call::Start | Call::Look(_) => (
            Job::Working(job),
            Answer::Absent,
        ),
    }
}

fn call_finished<R: Rule, P: Picture>(
    job: Finished<R>,
    cells: &mut [Cell],
    call: &Call<P>,
) -> (Job<R>, Answer)
    requires { Sound (R.near job.rule) (Job.Finished job) cells.old }
    ensures { Called P.extent P.marks (R.near job.rule) (step P.extent P.marks (shown (Job.Finished job) cells.old) call.now) (Job.Finished job) call.now result.0 result.1 cells.old cells.new }
{
    match call {
        Call::Look(place) => match job.look(cells, *place) {
            Ok(held) => (Job::Finished(job), Answer::Held(held)),
            Err(refusal) => (Job::Finished(job), Answer::Refused(refusal)),
        },
        Call::Reopen => match job.reopen(cells) {
            Ok(next) => (Job::Painting(next), Answer::Done),
            Err(kept) => (Job::Finished(kept.state), Answer::Refused(kept.refusal)),
        },
        Call::Mark(_) | Call::Wipe(_) | Call::Load(_) | Call::Start | Call::Row(_) | Call::Raise =>
            (Job::Finished(job), Answer::Absent),
    }
}

impl<R: Rule> Job<R> {
    /// Makes one call, with room for a row that it may work.
    pub(crate) fn call<P: Picture>(
        self,
        cells: &mut [Cell],
        call: &Call<P>,
        room: &mut Room,
    ) -> (Job<R>, Answer)
        requires { Sound (R.near (rule_of self)) self cells.old }
        ensures { Called P.extent P.marks (R.near (rule_of self)) (step P.extent P.marks (shown self cells.old) call.now) self call.now result.0 result.1 cells.old cells.new }
    {
        match self {
            Job::Painting(job) => call_painting(job, cells, call),
            Job::Working(job) => call_working(job, cells, call, room),
            Job::Finished(job) => call_finished(job, cells, call),
        }
    }
}
