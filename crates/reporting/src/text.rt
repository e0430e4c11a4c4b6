// What is printed: the line of a cell, the report on a field, and a fault.
ghost use Rattle.std.specs.Prelude.{◌≡◌, ◌++◌, length, IfOk, string_bytes, MatchResult, OnOk};
ghost use Rattle.grid.specs.Geometry.{cell_count};
ghost use Rattle.reporting.specs.Faults.{fault_text_of};
ghost use Rattle.reporting.specs.Texts.{shown_distance, cell_line, PrintsField, LacksPoint};

use crate::faults::{ReportError, ReportFault};
use grid::{Cell, Grid, Refusal};
use job_text::RuleName;
use std::alloc::{AllocError, Global};

/// The distance that is shown beside a value: of a square its whole root.
pub fn shown_distance(rule: RuleName, value: u64) -> u64
    ensures { result ≡ shown_distance rule value }
{
    match rule {
        RuleName::Square => value.isqrt(),
        RuleName::Block | RuleName::Chess => value,
    }
}

/// Adds the line of a cell.
fn push_cell(
    text: &mut String,
    rule: RuleName,
    at: (u32, u32, u32),
    from: (u32, u32, u32),
    value: u64,
) -> Result<(), AllocError>
    ensures { OnOk result (string_bytes text.new ≡ string_bytes text.old ++ cell_line rule at from value) }
{
    let (x, y, z) = at;
    let (px, py, pz) = from;
    let dist = shown_distance(rule, value);
    writeln!(text, "{x} {y} {z} {px} {py} {pz} {value} {dist}")
}

/// What is printed of a field: a line of names, and a line for each cell. Refused where a cell has no point.
pub fn field_text(
    heap: Global,
    rule: RuleName,
    grid: Grid,
    cells: &[Cell],
) -> Result<String, ReportError>
    requires { length cells.now ≡ cell_count grid.sizes }
    ensures { MatchResult result (λ t. PrintsField rule grid.sizes cells.now (string_bytes t)) (λ e. LacksPoint cells.now e) }
{
    let mut text = String::from_str(heap, "x y z px py pz value dist\n")?;
    for (number, cell) in cells.iter().enumerate() {
        let point = cell.point.ok_or(ReportFault::Field(Refusal::NoMark))?;
        let at = grid.place(number as u32);
        push_cell(&mut text, rule, at, grid.place(point), cell.value)?;
    }
    Ok(text)
}

/// What is printed of a fault.
pub fn fault_text(heap: Global, fault: ReportFault) -> Result<String, AllocError>
    ensures { IfOk result (λ t. string_bytes t ≡ fault_text_of fault) }
{
    let part = fault.part();
    let (cause, image, byte) = fault.numbers();
    format!(in heap; "part cause image byte\n{part} {cause} {image} {byte}\n")
}
