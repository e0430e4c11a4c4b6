use grid::Sizes;
use pbm::Stack;
use pictures::Picture;
use std::process::Abort;
use std::test::Fail;

/// A width, a height and a number of layers.
pub fn sizes_of(nx: u32, ny: u32, nz: u32) -> Sizes {
    Sizes { nx, ny, nz }
}

/// The bytes are a stack of these sizes, and of its cells, by their numbers, those are marked whose digit is 1.
pub fn shows(rt: &impl Abort, bytes: &[u8], sizes: Sizes, digits: &[u8]) -> Result<(), Fail> {
    let stack = Stack::new(bytes)?;
    assert_eq!(rt; stack.sizes(), sizes);
    let count = sizes.count_cells()?;
    assert_eq!(rt; digits.len(), count as usize);
    for (number, digit) in (0..count).zip(digits.iter()) {
        let place = sizes.place_of(number).ok_or("more digits than cells")?;
        assert_eq!(rt; stack.marked(place), *digit == b'1');
    }
    Ok(())
}

/// The bytes are no stack: the number of the cause, the image and the byte.
pub fn refused(rt: &impl Abort, bytes: &[u8], numbers: (u8, usize, usize)) -> Result<(), Fail> {
    match Stack::new(bytes) {
        Ok(_) => Err(Fail::new("accepted")),
        Err(fault) => {
            assert_eq!(rt; fault.numbers(), numbers);
            Ok(())
        },
    }
}

/// Each of the inputs is refused with these numbers.
pub fn all_refused(
    rt: &impl Abort,
    inputs: &[&[u8]],
    numbers: (u8, usize, usize),
) -> Result<(), Fail> {
    for input in inputs {
        refused(rt, input, numbers)?;
    }
    Ok(())
}
