// The report on a whole input.
ghost use Rattle.std.specs.Prelude.{string_bytes, MatchResult};
ghost use Rattle.pictures.specs.Numbered.{marks_by_number};
ghost use Rattle.pbm.specs.Marks.{stack_extent, stack_marks};
ghost use Rattle.reporting.specs.Reports.{SettingsFit, NoField, ReportsStack, ReportsInput, Refuses};

use crate::faults::{ReportError, ReportFault};
use crate::text::field_text;
use job_text::{Settings, read_job};
use pbm::Stack;
use pictures::Picture;
use replay::{Unwatched, find_new_field};
use rules::NamedRule;
use std::alloc::Global;

/// The largest number of cells of a stack that is reported on.
pub const MOST_CELLS: u32 = 2048;

/// Reports on a stack under the rule that the settings name.
fn report_stack(heap: Global, settings: Settings, stack: &Stack) -> Result<String, ReportError>
    requires { SettingsFit settings }
    ensures { MatchResult result (λ t. ReportsStack settings (stack_extent stack.now) (stack_marks stack.now) (string_bytes t)) (λ e. NoField (stack_extent stack.now) (marks_by_number (stack_extent stack.now) (stack_marks stack.now)) e) }
{
    let Settings { rule, sx, sy, sz } = settings;
    let named = NamedRule::new(rule, sx, sy, sz).unwrap();
    let cells = find_new_field(heap, named, stack, &mut Unwatched)?;
    field_text(heap, rule, stack.grid(), &cells)
}

/// The report on an input: for each cell of its stack a nearest marked cell and its distance, or the input's fault.
pub fn report(heap: Global, input: &[u8]) -> Result<String, ReportError>
    ensures { MatchResult result (λ t. ReportsInput input.now (string_bytes t)) (λ e. Refuses input.now e) }
{
    let job = read_job(input)?;
    let start = input.len() - job.stack.len();
    let stack = Stack::new(job.stack).map_err(|fault| ReportFault::Stack(fault.moved_by(start)))?;
    if stack.grid().count() > MOST_CELLS {
        return Err(ReportFault::LargeStack(start).into());
    }
    report_stack(heap, job.settings, &stack)
}
