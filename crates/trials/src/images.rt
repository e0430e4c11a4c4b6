//! Stacks of images against the cells that they were written from.
ghost use Rattle.std.specs.Prelude.{◌<◌};

use crate::dice::Dice;
use anyhow::{Context, anyhow};
use grid::Sizes;
use pbm::Stack;
use pictures::Picture;
use std::alloc::{AllocError, Global};

/// Adds a row of cells, eight to a byte, the highest bit first; the padding is set, since it does not matter.
fn push_row(bytes: &mut Vec<u8>, row: &[u8]) -> Result<(), AllocError> {
    for eight in row.chunks(8) {
        let mut byte = 0xffu8;
        for (i, cell) in eight.iter().enumerate() {
            if *cell == 0 {
                byte &= !(0x80u8.wrapping_shr((i & 7) as u32));
            }
        }
        bytes.push(byte)?;
    }
    Ok(())
}

/// The stack of images of these cells, in the order of the cell numbers.
fn write_stack(heap: Global, sizes: Sizes, cells: &[u8]) -> Result<Vec<u8>, AllocError>
    requires { (0 < sizes.nx) × (0 < sizes.ny) }
{
    let mut bytes = Vec::new(heap);
    let (nx, ny) = (sizes.nx, sizes.ny);
    let header = format!(in heap; "P4\n{nx} {ny}\n")?;
    for layer in cells.chunks(nx as usize * ny as usize) {
        bytes.extend_from_slice(header.as_bytes())?;
        for row in layer.chunks(nx as usize) {
            push_row(&mut bytes, row)?;
        }
    }
    Ok(bytes)
}

/// Writes a stack by chance and reads it again; how many cells were compared.
pub fn compare_round(heap: Global, dice: &mut Dice) -> anyhow::Result<u64> {
    let sizes = Sizes {
        nx: 1 + dice.up_to(19),
        ny: 1 + dice.up_to(5),
        nz: 1 + dice.up_to(3),
    };
    let count = sizes
        .count_cells()
        .map_err(|_| anyhow!("sizes of no grid"))?;
    let cells = dice.bytes(heap, count as usize, 40)?;
    let bytes = write_stack(heap, sizes, &cells)?;
    let stack = Stack::new(&bytes).map_err(|_| anyhow!("a stack was refused"))?;
    for (number, cell) in (0..count).zip(cells.iter()) {
        let place = stack
            .sizes()
            .place_of(number)
            .context("a stack has too few cells")?;
        if stack.marked(place) != (*cell == 1) {
            return Err(anyhow!("a stack differs from its cells"));
        }
    }
    Ok(count as u64)
}
