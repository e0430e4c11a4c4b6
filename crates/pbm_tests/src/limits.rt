use crate::support::{refused, sizes_of};
use grid::Sizes;
use pbm::Stack;
use pictures::Picture;
use std::alloc::{AllocError, Global};
use std::process::Abort;
use std::test::Fail;

/// A stack of so many images, each a header and then a raster of equal bytes.
fn stack_of(
    heap: Global,
    images: u32,
    header: &[u8],
    raster: usize,
    byte: u8,
) -> Result<Vec<u8>, AllocError> {
    let mut image = header.to_vec(heap)?;
    image.resize(header.len().saturating_add(raster), byte)?;
    let mut bytes = Vec::new(heap);
    for _ in 0..images {
        bytes.extend_from_slice(&image)?;
    }
    Ok(bytes)
}

/// The bytes are a stack of these sizes, and the last cell of its first row is marked.
fn last_marked(rt: &impl Abort, bytes: &[u8], sizes: Sizes) -> Result<(), Fail> {
    let stack = Stack::new(bytes)?;
    assert_eq!(rt; stack.sizes(), sizes);
    assert!(rt; stack.marked((sizes.nx.saturating_sub(1), 0, 0)));
    assert!(rt; !stack.marked((sizes.nx, 0, 0)));
    Ok(())
}

// what pbmmake -black 1023 1 makes, but with the padding bit set, and its neighbours
#[test]
fn sizes_of_1023(rt: HostRuntime) -> Result<(), Fail> {
    let heap = rt.alloc();
    last_marked(
        &rt,
        &stack_of(heap, 1, b"P4\n1023 1\n", 128, 255)?,
        sizes_of(1023, 1, 1),
    )?;
    last_marked(
        &rt,
        &stack_of(heap, 1, b"P4\n1 1023\n", 1023, 255)?,
        sizes_of(1, 1023, 1),
    )?;
    refused(
        &rt,
        &stack_of(heap, 1, b"P4\n1024 1\n", 128, 255)?,
        (21, 0, 3),
    )?;
    refused(
        &rt,
        &stack_of(heap, 1, b"P4\n1 1024\n", 1024, 255)?,
        (21, 0, 5),
    )?;
    refused(
        &rt,
        &stack_of(heap, 1, b"P4\n1023 1\n", 127, 255)?,
        (22, 0, 137),
    )
}

#[test]
fn images_and_cells(rt: HostRuntime) -> Result<(), Fail> {
    let heap = rt.alloc();
    last_marked(
        &rt,
        &stack_of(heap, 1023, b"P4\n1 1\n", 1, 128)?,
        sizes_of(1, 1, 1023),
    )?;
    refused(
        &rt,
        &stack_of(heap, 1024, b"P4\n1 1\n", 1, 128)?,
        (24, 0, 0),
    )?;
    last_marked(
        &rt,
        &stack_of(heap, 16, b"P4\n1023 1023\n", 130944, 255)?,
        sizes_of(1023, 1023, 16),
    )?;
    refused(
        &rt,
        &stack_of(heap, 17, b"P4\n1023 1023\n", 130944, 255)?,
        (24, 0, 0),
    )
}
