//! The whole field of a picture, in cells that are made for it.
ghost use Rattle.std.specs.Prelude.{◌≡◌, MatchResult};
ghost use Rattle.pictures.specs.Numbered.{marks_by_number};
ghost use Rattle.rules.specs.Named.{named_near};
ghost use Rattle.replay.specs.declared.new_cells.FieldError.TheVariants.{Refused, NoMemory};
ghost use Rattle.replay.specs.Whole.{FieldFound, FieldFails};

use crate::watch::Watch;
use crate::whole::find_field_watched;
use grid::{Cell, Refusal};
use pictures::Picture;
use rules::{Block, Chess, Rule, RuleName, Spacings, Square};
use std::alloc::{AllocError, Global};

/// Why there is no field.
#[derive(Clone, Copy, PartialEq, Eq, Debug)]
pub enum FieldError {
    /// No cell is marked.
    Refused(Refusal),
    /// There is not enough memory for the cells.
    NoMemory,
}

impl From<Refusal> for FieldError {
    ghost from_gives = { λ refusal r. r ≡ Refused refusal };

    fn from(refusal: Refusal) -> FieldError {
        FieldError::Refused(refusal)
    }
}

impl From<AllocError> for FieldError {
    ghost from_gives = { λ _ r. r ≡ NoMemory };

    fn from(_error: AllocError) -> FieldError {
        FieldError::NoMemory
    }
}

/// Finds the field of a picture under a rule, in new cells: each holds a nearest marked cell and its distance. A watcher is
/// told how far the work has come.
///
/// Refused where no cell is marked (6). There may not be enough memory for the cells.
pub fn find_new_field<R: Rule + Drop, P: Picture, W: Watch>(
    heap: Global,
    rule: R,
    picture: &P,
    watch: &mut W,
) -> Result<Vec<Cell>, FieldError>
    ensures { MatchResult result (λ v. FieldFound (R.near rule) (P.extent picture.now) (marks_by_number (P.extent picture.now) (P.marks picture.now)) v.items) (λ e. FieldFails (P.extent picture.now) (marks_by_number (P.extent picture.now) (P.marks picture.now)) e) }
{
    let count = picture.grid().count() as usize;
    let mut cells = vec![in heap; Cell::painted(false, 0); count]?;
    find_field_watched(rule, picture, &mut cells, watch).map_err(|kept| kept.refusal)?;
    Ok(cells)
}

/// The same under the rule of a name.
///
/// The choice is made once, among three types: `NamedRule`, which makes it for each cell, takes 5 to 13 percent longer, too long for
/// the aim of docs/PERFORMANCE.md.
pub fn find_named_field<P: Picture, W: Watch>(
    heap: Global,
    name: RuleName,
    spacings: Spacings,
    picture: &P,
    watch: &mut W,
) -> Result<Vec<Cell>, FieldError>
    ensures { MatchResult result (λ v. FieldFound (named_near name spacings) (P.extent picture.now) (marks_by_number (P.extent picture.now) (P.marks picture.now)) v.items) (λ e. FieldFails (P.extent picture.now) (marks_by_number (P.extent picture.now) (P.marks picture.now)) e) }
{
    match name {
        RuleName::Square => find_new_field(heap, Square::from(spacings), picture, watch),
        RuleName::Block => find_new_field(heap, Block::from(spacings), picture, watch),
        RuleName::Chess => find_new_field(heap, Chess::from(spacings), picture, watch),
    }
}
