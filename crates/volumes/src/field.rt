// The field of a whole input.
ghost use Rattle.std.specs.Prelude.{◌≡◌, MatchResult};
ghost use Rattle.pbm.specs.Marks.{stack_extent, stack_marks};
ghost use Rattle.volumes.specs.declared.field.VolumeFault.TheVariants.{Stack, Refused, NoMemory};
ghost use Rattle.volumes.specs.Volumes.{field_fault, SetField, NoSetField, FindsVolume, FaultyVolume};

use grid::{Cell, Refusal, Sizes};
use job_text::Settings;
use pbm::{Stack, StackFault};
use pictures::Picture;
use replay::{FieldError, Watch, find_named_field};
use rules::Spacings;
use std::alloc::{AllocError, Global};

/// The field of a stack: its sizes, and for each cell by its number the nearest marked cell and its distance.
#[derive(Drop)]
pub struct Volume {
    pub sizes: Sizes,
    pub cells: Vec<Cell>,
}

/// Why there is no field.
#[derive(Clone, Copy, Debug)]
pub enum VolumeFault {
    /// The stack is faulty.
    Stack(StackFault),
    /// A spacing is out of range, or no cell is marked.
    Refused(Refusal),
    /// There is not enough memory for the cells of a sound stack.
    NoMemory,
}

impl From<AllocError> for VolumeFault {
    ghost from_gives = { λ _ r. r ≡ NoMemory };

    fn from(_e: AllocError) -> VolumeFault {
        VolumeFault::NoMemory
    }
}

impl From<StackFault> for VolumeFault {
    ghost from_gives = { λ e r. r ≡ Stack e };

    fn from(fault: StackFault) -> VolumeFault {
        VolumeFault::Stack(fault)
    }
}

impl From<Refusal> for VolumeFault {
    ghost from_gives = { λ e r. r ≡ Refused e };

    fn from(refusal: Refusal) -> VolumeFault {
        VolumeFault::Refused(refusal)
    }
}

impl From<FieldError> for VolumeFault {
    ghost from_gives = { λ e r. r ≡ field_fault e };

    fn from(error: FieldError) -> VolumeFault {
        match error {
            FieldError::Refused(refusal) => VolumeFault::Refused(refusal),
            FieldError::NoMemory => VolumeFault::NoMemory,
        }
    }
}

/// Finds the field of a stack under the rule and the spacings of the settings, which fit.
fn set_field<W: Watch>(
    heap: Global,
    settings: Settings,
    stack: &Stack,
    watch: &mut W,
) -> Result<Vec<Cell>, VolumeFault>
    ensures { MatchResult result (λ v. SetField settings (stack_extent stack.now) (stack_marks stack.now) v.items) (λ e. NoSetField settings (stack_extent stack.now) (stack_marks stack.now) e) }
{
    let Settings { rule, sx, sy, sz } = settings;
    let spacings = Spacings::new(sx, sy, sz)?;
    let cells = find_named_field(heap, rule, spacings, stack, watch)?;
    Ok(cells)
}

/// Finds the field of an input, which is a stack of images, under the rule and the spacings of the settings: every cell
/// holds a nearest marked cell and its distance. A watcher is told how far the work has come.
///
/// The questions, in this order: is the stack sound, is each spacing from 1 to 10,000 (11), is there memory for the
/// cells, is a cell marked (6)?
pub fn find_volume<W: Watch>(
    heap: Global,
    settings: Settings,
    input: &[u8],
    watch: &mut W,
) -> Result<Volume, VolumeFault>
    ensures { MatchResult result (λ v. FindsVolume settings input.now v.sizes v.cells.items) (λ e. FaultyVolume settings input.now e) }
{
    let stack = Stack::new(input)?;
    let cells = set_field(heap, settings, &stack, watch)?;
    Ok(Volume {
        sizes: stack.sizes(),
        cells,
    })
}
