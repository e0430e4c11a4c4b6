// Images made by netpbm 11.1; the digits are what its pnmtoplainpnm makes of them.
use crate::support::{shows, sizes_of};
use pbm::Stack;
use pictures::Picture;
use std::test::Fail;

// pbmmake -gray 1 3, and so on
#[test]
fn widths_around_a_byte(rt: HostRuntime) -> Result<(), Fail> {
    shows(&rt, b"P4\n1 3\n\x00\x80\x00", sizes_of(1, 3, 1), b"010")?;
    shows(
        &rt,
        b"P4\n7 3\n\x54\xaa\x54",
        sizes_of(7, 3, 1),
        b"010101010101010101010",
    )?;
    shows(
        &rt,
        b"P4\n8 3\n\x55\xaa\x55",
        sizes_of(8, 3, 1),
        b"010101011010101001010101",
    )?;
    shows(
        &rt,
        b"P4\n9 3\n\x55\x00\xaa\x80\x55\x00",
        sizes_of(9, 3, 1),
        b"010101010101010101010101010",
    )
}

// pnmcat -lr of a black, a white and a grey image, pnmcat -tb of three such, pbmtext -nomargins -builtin fixed R
#[test]
fn joined_images_and_a_letter(rt: HostRuntime) -> Result<(), Fail> {
    shows(
        &rt,
        b"P4\n9 2\n\x82\x80\x85\x00",
        sizes_of(9, 2, 1),
        b"100000101100001010",
    )?;
    shows(
        &rt,
        b"P4\n7 3\n\xfe\x00\x54",
        sizes_of(7, 3, 1),
        b"111111100000000101010",
    )?;
    shows(
        &rt,
        b"P4\n7 12\n\x00\xf8\x44\x44\x78\x48\x44\x44\xe6\x00\x00\x00",
        sizes_of(7, 12, 1),
        b"000000011111000100010010001001111000100100010001001000101110011000000000000000000000",
    )
}

// pbmmake -black 9 2, the first of the joined images and pbmmake -white 9 2, one after the other
#[test]
fn three_layers(rt: HostRuntime) -> Result<(), Fail> {
    shows(
        &rt,
        b"P4\n9 2\n\xff\x80\xff\x80P4\n9 2\n\x82\x80\x85\x00P4\n9 2\n\x00\x00\x00\x00",
        sizes_of(9, 2, 3),
        b"111111111111111111100000101100001010000000000000000000",
    )
}

#[test]
fn padding_bits_are_ignored(rt: HostRuntime) -> Result<(), Fail> {
    shows(
        &rt,
        b"P4\n9 2\n\x82\xff\x85\x7f",
        sizes_of(9, 2, 1),
        b"100000101100001010",
    )?;
    let stack = Stack::new(b"P4\n9 2\n\x82\xff\x85\x7f")?;
    for x in 9..16 {
        assert!(rt; !stack.marked((x, 0, 0)));
        assert!(rt; !stack.marked((x, 1, 0)));
    }
    Ok(())
}

#[test]
fn nothing_is_marked_outside(rt: HostRuntime) -> Result<(), Fail> {
    let stack = Stack::new(b"P4\n8 1\n\xffP4\n8 1\n\xff")?;
    assert_eq!(rt; stack.sizes(), sizes_of(8, 1, 2));
    assert!(rt; stack.marked((7, 0, 1)));
    assert!(rt; !stack.marked((8, 0, 0)));
    assert!(rt; !stack.marked((0, 1, 0)));
    assert!(rt; !stack.marked((0, 0, 2)));
    assert!(rt; !stack.marked((u32::MAX, u32::MAX, u32::MAX)));
    Ok(())
}
