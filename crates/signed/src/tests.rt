use crate::{signed, signed_of_negative};
use grid::{Cell, Refusal, Sizes};
use pictures::Grey;
use rules::Square;

/// Four cells in a square, of which those are marked whose byte is not 0.
fn square_of(bytes: &[u8]) -> Result<Grey<'_>, Refusal> {
    let sizes = Sizes {
        nx: 2,
        ny: 2,
        nz: 1,
    };
    Grey::new(sizes, 1, bytes)
}

/// The signed field of such a square.
fn fill(bytes: &[u8], cells: &mut [Cell], output: &mut [i64]) -> Result<(), Refusal> {
    signed(&square_of(bytes)?, Square::new(1, 1, 1)?, cells, output)
}

/// The signed field of its negative.
fn fill_negative(bytes: &[u8], cells: &mut [Cell], output: &mut [i64]) -> Result<(), Refusal> {
    signed_of_negative(&square_of(bytes)?, Square::new(1, 1, 1)?, cells, output)
}

/// The numbers of the four cells as `fill` leaves them; 9 each where they are refused.
fn numbers<F>(bytes: &[u8], fill: F) -> [i64; 4]
where
    F: FnOnce(&[u8], &mut [Cell], &mut [i64]) -> Result<(), Refusal>,
    requires { F.IsAlwaysCallable fill }
{
    let mut cells = [Cell::painted(false, 0); 9];
    let mut output = [9; 4];
    let _ = fill(bytes, &mut cells, &mut output);
    output
}

/// How the signed field is answered in so much room, a refusal by its number.
fn answered(bytes: &[u8], cells: &mut [Cell], output: &mut [i64]) -> Result<(), u8> {
    fill(bytes, cells, output).map_err(Refusal::number)
}

#[test]
fn four_cells(rt: HostRuntime) {
    assert!(rt; numbers(&[1, 0, 0, 0], fill) == [-1, 1, 1, 2]);
    assert!(rt; numbers(&[1, 0, 0, 0], fill_negative) == [1, -1, -1, -2]);
    assert!(rt; numbers(&[0, 0, 0, 0], fill_negative) == [9, 9, 9, 9]);
    let blank = Cell::painted(false, 0);
    assert_eq!(rt; answered(&[0; 4], &mut [blank; 8], &mut [0; 3]), Err(3));
    assert_eq!(rt; answered(&[0; 4], &mut [blank; 9], &mut [0; 3]), Err(14));
    assert_eq!(rt; answered(&[0; 4], &mut [blank; 9], &mut [0; 4]), Err(15));
}
