// Pictures over a stack.
use pbm::Stack;
use pictures::{HalfGrid, Negative, Picture, count_marked};
use std::test::Fail;

// the negative of the half-grid of a stack of two layers of 2 x 1 cells, of which one is marked
#[test]
fn a_pile_is_a_picture(rt: HostRuntime) -> Result<(), Fail> {
    let stack = Stack::new(b"P4\n2 1\n\x80P4\n2 1\n\x00")?;
    let Ok(half) = HalfGrid::new(&stack) else {
        return Err(Fail::new("its half-grid"));
    };
    let negative = Negative::new(&half);
    assert_eq!(rt; count_marked(&stack), 1);
    assert_eq!(rt; count_marked(&half), 3);
    assert_eq!(rt; count_marked(&negative), 6);
    assert!(rt; half.marked((1, 0, 0)) && half.marked((0, 0, 1)) && half.marked((1, 0, 1)));
    assert!(rt;
        negative.marked((0, 0, 0)) && !negative.marked((1, 0, 1)) && !negative.marked((3, 0, 0))
    );
    Ok(())
}
