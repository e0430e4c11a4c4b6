// What C calls. Values and points are two arrays, as C passes them.
ghost use Rattle.std.specs.Prelude.{◌≡◌, length};
ghost use Rattle.cadzvigu.specs.Doors.{sizes_of, nearest_door, signed_call_door};
ghost use Rattle.cadzvigu.specs.Nearests.{NearestBy};
ghost use Rattle.cadzvigu.specs.Skins.{SignedBy};
ghost use Rattle.cadzvigu.specs.Statuses.{Tells};

use cadzvigu::{nearest, signed_distances, status};
use grid::Sizes;
use std::alloc::Global;

/// Writes for each cell the number of a nearest marked cell and its distance. Marked are the cells whose byte is not 0.
///
/// Answers 0, or the number of the first question answered no, with both arrays as they were: has a rule that number (100),
/// is each spacing from 1 to 10,000 (11), is each size from 1 to 1,023 (1), are there at most 16,777,216 cells (2), one byte for
/// each (12), one value and one point for each (14), is a cell marked (6), and is there memory for the cells (101)?
#[unsafe(no_mangle)]
pub extern "C" fn cadzvigu_nearest(
    heap: Global,
    rule: u32,
    sx: u32,
    sy: u32,
    sz: u32,
    nx: u32,
    ny: u32,
    nz: u32,
    bytes: &[u8],
    values: &mut [u64],
    points: &mut [u32],
) -> u32
    ensures { Tells result (nearest_door rule (sx, sy, sz) (sizes_of nx ny nz) bytes.now (length values.old) (length points.old)) ((values.new ≡ values.old) × (points.new ≡ points.old)) (NearestBy rule (sx, sy, sz) (sizes_of nx ny nz) bytes.now values.new points.new) }
{
    let sizes = Sizes { nx, ny, nz };
    status(nearest(heap, rule, (sx, sy, sz), sizes, bytes, values, points))
}

/// Writes for each cell its distance from the nearest face between a marked and an unmarked cell, negated where the cell is
/// marked. Marked are the cells whose byte is not 0; a spacing is that of one half step.
///
/// Answers 0, or the number of the first question answered no, with the numbers as they were: has a rule that number (100), is
/// each spacing from 1 to 10,000 (11), is each size from 1 to 1,023 (1), are there at most 16,777,216 cells (2), one byte for each
/// (12), is each size at most 512 (13), has the half-grid at most 16,777,216 places (2), is there one number for each cell (14),
/// are there both marked and unmarked cells (15), and is there memory for the half-grid's cells (101)?
#[unsafe(no_mangle)]
pub extern "C" fn cadzvigu_signed(
    heap: Global,
    rule: u32,
    sx: u32,
    sy: u32,
    sz: u32,
    nx: u32,
    ny: u32,
    nz: u32,
    bytes: &[u8],
    numbers: &mut [i64],
) -> u32
    ensures { Tells result (signed_call_door rule (sx, sy, sz) (sizes_of nx ny nz) bytes.now (length numbers.old)) (numbers.new ≡ numbers.old) (SignedBy rule (sx, sy, sz) (sizes_of nx ny nz) bytes.now numbers.new) }
{
    let sizes = Sizes { nx, ny, nz };
    status(signed_distances(heap, rule, (sx, sy, sz), sizes, bytes, numbers))
}
