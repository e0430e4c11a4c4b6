use crate::{Grey, HalfGrid, Negative, Picture, count_marked, has_both_kinds};
use grid::{Refusal, Sizes};
use std::test::Fail;

fn cube(n: u32) -> Sizes {
    Sizes {
        nx: n,
        ny: n,
        nz: n,
    }
}

/// The half-grid of the half-grid of the half-grid of a grey picture: how that is answered, a refusal by its number.
fn halved_thrice(sizes: Sizes, bytes: &[u8]) -> Result<(), u8> {
    halve_thrice(sizes, bytes).map_err(Refusal::number)
}

fn halve_thrice(sizes: Sizes, bytes: &[u8]) -> Result<(), Refusal> {
    let grey = Grey::new(sizes, 1, bytes)?;
    let half = HalfGrid::new(&grey)?;
    let quarter = HalfGrid::new(&half)?;
    let _eighth = HalfGrid::new(&quarter)?;
    Ok(())
}

/// Four cells in a square of which the first is marked: its two faces and their common corner are the face places.
#[test]
fn one_marked_cell(rt: HostRuntime) -> Result<(), Fail> {
    let sizes = Sizes {
        nx: 2,
        ny: 2,
        nz: 1,
    };
    let Ok(grey) = Grey::new(sizes, 128, &[128, 127, 0, 0]) else {
        return Err(Fail::new("a square of four cells"));
    };
    let Ok(half) = HalfGrid::new(&grey) else {
        return Err(Fail::new("its half-grid"));
    };
    assert!(rt; half.marked((1, 0, 0)) && half.marked((0, 1, 0)) && half.marked((1, 1, 0)));
    assert_eq!(rt; count_marked(&half), 3);
    assert_eq!(rt; count_marked(&Negative::new(&half)), 6);
    assert!(rt; !Negative::new(&grey).marked((2, 0, 0)) && has_both_kinds(&grey));
    Ok(())
}

#[test]
fn refusals(rt: HostRuntime) {
    let bytes = [0; 35_937];
    let row = Sizes {
        nx: 513,
        ny: 1,
        nz: 1,
    };
    assert_eq!(rt; halved_thrice(cube(0), &bytes), Err(1));
    assert_eq!(rt; halved_thrice(cube(1023), &bytes), Err(2));
    assert_eq!(rt; halved_thrice(cube(32), &bytes), Err(12));
    assert_eq!(rt; halved_thrice(row, &bytes[0..513]), Err(13));
    // 33, 65, 129 and then 257 places on each axis
    assert_eq!(rt; halved_thrice(cube(33), &bytes), Err(2));
    assert_eq!(rt; halved_thrice(cube(32), &bytes[0..32_768]), Ok(()));
}
