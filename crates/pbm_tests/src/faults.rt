use crate::support::{all_refused, refused};
use pbm::Stack;
use std::test::Fail;

#[test]
fn no_magic(rt: HostRuntime) -> Result<(), Fail> {
    let first: [&[u8]; 8] = [
        b"",
        b"P",
        b"P4",
        b"P5\n1 1\n\x00",
        b"p4\n1 1\n\x00",
        b"P4 1 1\n\x00",
        b"P4\r\n1 1\n\x00",
        b" P4\n1 1\n\x00",
    ];
    all_refused(&rt, &first, (20, 0, 0))?;
    let second: [&[u8]; 3] = [
        b"P4\n3 2\n\x80\x00\n",
        b"P4\n3 2\n\x80\x00P4",
        b"P4\n3 2\n\x80\x00\x00P4\n3 2\n\x80\x00",
    ];
    all_refused(&rt, &second, (20, 1, 9))
}

#[test]
fn no_width(rt: HostRuntime) -> Result<(), Fail> {
    let first: [&[u8]; 10] = [
        b"P4\n",
        b"P4\n7",
        b"P4\n 7 1\n\x00",
        b"P4\n0 1\n\x00",
        b"P4\n07 1\n\x00",
        b"P4\n+7 1\n\x00",
        b"P4\n7\n1\n\x00",
        b"P4\n1024 1\n\x00",
        b"P4\n4294967297 1\n\x00",
        b"P4\n# made by hand\n7 1\n\x00",
    ];
    all_refused(&rt, &first, (21, 0, 3))?;
    let second: [&[u8]; 3] = [
        b"P4\n3 2\n\x80\x00P4\n",
        b"P4\n3 2\n\x80\x00P4\n03 2\n\x00\x00",
        b"P4\n3 2\n\x80\x00P4\n1024 2\n",
    ];
    all_refused(&rt, &second, (21, 1, 12))
}

#[test]
fn no_height(rt: HostRuntime) -> Result<(), Fail> {
    let first: [&[u8]; 9] = [
        b"P4\n12 ",
        b"P4\n12 1",
        b"P4\n12  1\n\x00\x00",
        b"P4\n12 0\n",
        b"P4\n12 01\n\x00\x00",
        b"P4\n12 1 \n\x00\x00",
        b"P4\n12 1\r\n\x00\x00",
        b"P4\n12 1024\n",
        b"P4\n12 -1\n",
    ];
    all_refused(&rt, &first, (21, 0, 6))?;
    // a number is asked for before the size
    let second: [&[u8]; 3] = [
        b"P4\n3 2\n\x80\x00P4\n3 02\n\x00\x00",
        b"P4\n3 2\n\x80\x00P4\n4 0\n",
        b"P4\n3 2\n\x80\x00P4\n3 ",
    ];
    all_refused(&rt, &second, (21, 1, 14))?;
    refused(&rt, b"P4\n1023 x", (21, 0, 8))
}

#[test]
fn missing_rows(rt: HostRuntime) -> Result<(), Fail> {
    refused(&rt, b"P4\n3 2\n", (22, 0, 7))?;
    refused(&rt, b"P4\n3 2\n\x80", (22, 0, 8))?;
    refused(&rt, b"P4\n9 2\n\x80\x00\x80", (22, 0, 10))?;
    refused(&rt, b"P4\n3 2\n\x80\x00P4\n3 2\n", (22, 1, 16))?;
    refused(
        &rt,
        b"P4\n3 2\n\x80\x00P4\n3 2\n\x80\x00P4\n3 2\n\x80",
        (22, 2, 26),
    )
}

#[test]
fn two_sizes(rt: HostRuntime) -> Result<(), Fail> {
    // the size is asked for before the rows
    let second: [&[u8]; 3] = [
        b"P4\n3 2\n\x80\x00P4\n4 2\n\x00\x00",
        b"P4\n3 2\n\x80\x00P4\n3 1\n\x00",
        b"P4\n3 2\n\x80\x00P4\n2 3\n",
    ];
    all_refused(&rt, &second, (23, 1, 12))?;
    refused(
        &rt,
        b"P4\n3 2\n\x80\x00P4\n3 2\n\x00\x00P4\n3 3\n",
        (23, 2, 21),
    )
}

// a stack that starts 27 bytes into a longer input
#[test]
fn byte_of_the_whole_input(rt: HostRuntime) -> Result<(), Fail> {
    match Stack::new(b"P4\n3 2\n\x80") {
        Ok(_) => Err(Fail::new("accepted")),
        Err(fault) => {
            assert_eq!(rt; fault.moved_by(27).numbers(), (22, 0, 35));
            assert_eq!(rt; fault.moved_by(usize::MAX).numbers(), (22, 0, usize::MAX));
            Ok(())
        }
    }
}
