ghost use Rattle.replay.specs.Runs.{Replays, OneOutcome};
ghost use Rattle.replay.specs.Book.{book_after};

use crate::calls::{Answer, Call};
use crate::jobs::{Job, Unplayed};
use grid::{Cell, Sizes};
use job::begin;
use pictures::Picture;
use rows::Room;
use rules::Rule;

// Calls and answers are two lists, as the answers go into a slice that the caller lends.

/// Begins a job, makes the calls in their order, and writes down the answer of each.
///
/// After any list of calls, refused ones among them: the answers, the stage, the marks and the levels are those of a book
/// that is kept from the calls alone, an accepted look answered what its cell held then, and every cell holds a nearest
/// mark of its slab and its distance, or none where the slab has no mark.
///
/// A call that the job's stage does not have is answered `Absent` and changes nothing. Nothing at all changes where there
/// is not one slot for each answer, or where the job is refused at its beginning.
pub fn replay<R: Rule, P: Picture>(
    rule: R,
    sizes: Sizes,
    cells: &mut [Cell],
    calls: &[Call<P>],
    answers: &mut [Answer],
) -> Result<Job<R>, Unplayed<R>>
    ensures { Replays P.extent P.marks (R.near rule) rule sizes calls.now result answers.old answers.new cells.old cells.new }
{
    if answers.len() != calls.len() {
        return Err(Unplayed::AnswerCount(rule));
    }
    let painting = begin(rule, sizes, cells).map_err(Unplayed::Begin)?;
    let mut job = Job::Painting(painting);
    let mut room = Room::new();
    for (i, call) in calls.iter().enumerate() {
        let (next, answer) = job.call(cells, call, &mut room);
        job = next;
        answers[i] = answer;
    }
    Ok(job)
}

/// Replays two lists of calls, each on cells of its own, under one rule and on one grid.
///
/// Whatever the lists are: where both jobs end finished with the same marks, every cell has the same value in both.
pub fn replay_both<R: Rule + Copy, P: Picture, Q: Picture>(
    rule: R,
    sizes: Sizes,
    cells: &mut [Cell],
    calls: &[Call<P>],
    answers: &mut [Answer],
    other_cells: &mut [Cell],
    other_calls: &[Call<Q>],
    other_answers: &mut [Answer],
) -> (Result<Job<R>, Unplayed<R>>, Result<Job<R>, Unplayed<R>>)
    ensures first { Replays P.extent P.marks (R.near rule) rule sizes calls.now result.0 answers.old answers.new cells.old cells.new }
    ensures second { Replays Q.extent Q.marks (R.near rule) rule sizes other_calls.now result.1 other_answers.old other_answers.new other_cells.old other_cells.new }
    ensures outcome { OneOutcome result.0 result.1 sizes (book_after P.extent P.marks sizes calls.now) (book_after Q.extent Q.marks sizes other_calls.now) cells.new other_cells.new }
{
    let first = replay(rule, sizes, cells, calls, answers);
    let second = replay(rule, sizes, other_cells, other_calls, other_answers);
    (first, second)
}
