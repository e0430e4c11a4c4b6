//! The whole field of a picture.
ghost use Rattle.std.specs.Prelude.{◌≡◌, ◌-◌, length, None};
ghost use Rattle.grid.specs.Geometry.{cell_count};
ghost use Rattle.pictures.specs.Numbered.{marks_by_number};
ghost use Rattle.fields.specs.Painting.{FieldAt};
ghost use Rattle.job.specs.Cells.{marks_in, painted_cells};
ghost use Rattle.job.specs.Doors.{start_door};
ghost use Rattle.job.specs.Moves.{IsPainting, IsWorking, Rises};
ghost use Rattle.replay.specs.Whole.{AllDone, AxisDone, FindsField};

use crate::watch::{Unwatched, Watch};
use grid::{Cell, Refusal};
use job::{Finished, Kept, Painting, Raised, Working, begin};
use pictures::{Picture, has_mark};
use rows::Room;
use rules::Rule;

/// Begins a job for a picture and loads it.
fn paint_picture<R: Rule, P: Picture>(rule: R, picture: &P, cells: &mut [Cell]) -> Painting<R>
    requires { length cells.old ≡ cell_count (P.extent picture.now) }
    ensures job { IsPainting rule (P.extent picture.now) result }
    ensures cells { cells.new ≡ painted_cells (marks_by_number (P.extent picture.now) (P.marks picture.now)) (cell_count (P.extent picture.now)) }
{
    let painting = begin(rule, picture.sizes(), cells).unwrap();
    painting.load(cells, picture).unwrap();
    painting
}

/// Leads a job with a mark to axis 1.
fn started<R: Rule>(job: Painting<R>, cells: &[Cell]) -> Working<R>
    requires cells { length cells.now ≡ cell_count job.grid.sizes }
    requires mark { start_door job.grid.sizes (marks_in cells.now) ≡ None }
    ensures { IsWorking job.rule job.grid.sizes 1 result }
{
    job.start(cells).unwrap()
}

/// Works all rows of the job's axis.
fn work_axis<R: Rule, W: Watch>(
    job: &Working<R>,
    cells: &mut [Cell],
    room: &mut Room,
    watch: &mut W,
)
    requires { FieldAt (R.near job.now.rule) job.now.grid.sizes (marks_in cells.old) (job.now.axis.number - 1) cells.old }
    ensures { AxisDone (R.near job.now.rule) job.now.grid.sizes job.now.axis.number cells.old cells.new }
{
    let axis = job.axis_number();
    let count = job.row_count();
    watch.rows_worked(axis, 0, count);
    for number in 0..count {
        job.row_in(cells, number, room).unwrap();
        watch.rows_worked(axis, number + 1, count);
    }
}

/// Leads a job whose rows are all worked to the next axis, or to the end.
fn raised<R: Rule>(job: Working<R>, cells: &[Cell]) -> Raised<R>
    requires { FieldAt (R.near job.rule) job.grid.sizes (marks_in cells.now) job.axis.number cells.now }
    ensures { Rises job.rule job.grid.sizes job.axis.number result }
{
    job.raise(cells).unwrap()
}

/// Works all rows of the job's axis and of those after it.
fn finish<R: Rule, W: Watch>(
    job: Working<R>,
    cells: &mut [Cell],
    room: &mut Room,
    watch: &mut W,
) -> Finished<R>
    requires { FieldAt (R.near job.rule) job.grid.sizes (marks_in cells.old) (job.axis.number - 1) cells.old }
    ensures { AllDone (R.near job.rule) job.rule job.grid.sizes result cells.old cells.new }
{
    let mut working = job;
    loop {
        work_axis(&working, cells, room, watch);
        match raised(working, cells) {
            Raised::Next(next) => working = next,
            Raised::Last(last) => return last,
        }
    }
}

/// Finds the field of a picture: every cell ends with a nearest marked cell of the grid and its distance under the rule.
///
/// Refused where not exactly as many cells are lent as the picture has (3), or where the picture marks none (6); the rule
/// comes back then, and no cell has changed.
pub fn find_field<R: Rule, P: Picture>(
    rule: R,
    picture: &P,
    cells: &mut [Cell],
) -> Result<Finished<R>, Kept<R>>
    ensures { FindsField result (R.near rule) rule (P.extent picture.now) (marks_by_number (P.extent picture.now) (P.marks picture.now)) cells.old cells.new }
{
    find_field_watched(rule, picture, cells, &mut Unwatched)
}

/// The same, and a watcher is told how far the work has come.
pub fn find_field_watched<R: Rule, P: Picture, W: Watch>(
    rule: R,
    picture: &P,
    cells: &mut [Cell],
    watch: &mut W,
) -> Result<Finished<R>, Kept<R>>
    ensures { FindsField result (R.near rule) rule (P.extent picture.now) (marks_by_number (P.extent picture.now) (P.marks picture.now)) cells.old cells.new }
{
    if !picture.grid().fits(cells) {
        return Err(Kept {
            state: rule,
            refusal: Refusal::CellCount,
        });
    }
    if !has_mark(picture) {
        return Err(Kept {
            state: rule,
            refusal: Refusal::NoMark,
        });
    }
    let painting = paint_picture(rule, picture, cells);
    let mut room = Room::new();
    Ok(finish(started(painting, cells), cells, &mut room, watch))
}
