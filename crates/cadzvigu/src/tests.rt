// The contracts allow want of memory as an answer to any sound call: here the calls are seen to be done.
use crate::{nearest, signed_distances, status};
use grid::Sizes;

/// The status, the values and the points of six cells in two rows, of which the first is marked, with spacings of 2.
fn six_cells(rt: &HostRuntime, rule: u32) -> (u32, [u64; 6], [u32; 6]) {
    let sizes = Sizes {
        nx: 3,
        ny: 2,
        nz: 1,
    };
    let mut values = [9; 6];
    let mut points = [9; 6];
    let done = nearest(
        rt.alloc(),
        rule,
        (2, 2, 2),
        sizes,
        &[1, 0, 0, 0, 0, 0],
        &mut values,
        &mut points,
    );
    (status(done), values, points)
}

/// The status and the signed distances of four cells in a square, of which the first is marked.
fn four_cells(rt: &HostRuntime, rule: u32) -> (u32, [i64; 4]) {
    let sizes = Sizes {
        nx: 2,
        ny: 2,
        nz: 1,
    };
    let mut numbers = [9; 4];
    let done = signed_distances(
        rt.alloc(),
        rule,
        (1, 1, 1),
        sizes,
        &[1, 0, 0, 0],
        &mut numbers,
    );
    (status(done), numbers)
}

#[test]
fn nearest_by_each_rule(rt: HostRuntime) {
    assert!(rt; six_cells(&rt, 1) == (0, [0, 4, 16, 4, 8, 20], [0; 6]));
    assert!(rt; six_cells(&rt, 2) == (0, [0, 2, 4, 2, 4, 6], [0; 6]));
    assert!(rt; six_cells(&rt, 3) == (0, [0, 2, 4, 2, 2, 4], [0; 6]));
    assert!(rt; six_cells(&rt, 4) == (100, [9; 6], [9; 6]));
}

#[test]
fn signed_by_each_rule(rt: HostRuntime) {
    assert!(rt; four_cells(&rt, 1) == (0, [-1, 1, 1, 2]));
    assert!(rt; four_cells(&rt, 2) == (0, [-1, 1, 1, 2]));
    assert!(rt; four_cells(&rt, 3) == (0, [-1, 1, 1, 1]));
    assert!(rt; four_cells(&rt, 4) == (100, [9; 4]));
}
