ghost use Rattle.std.specs.Prelude.{◌≡◌, Some};
ghost use Rattle.pbm.specs.Causes.{cause_number, fault_numbers, counted_from, cause_words};

use std::fmt;

/// What is wrong with a stack: the first question answered no.
#[derive(Clone, Copy, PartialEq, Eq, Debug)]
pub enum Cause {
    /// An image does not start with `P4` and a line feed.
    Magic,
    /// A width or a height is not a number from 1 to 1,023 without leading zero, followed by its separator.
    Number,
    /// The input ends before the last row of an image.
    Short,
    /// An image has another size than the first.
    OtherSize,
    /// There are more than 1,023 images, or more than 16,777,216 cells.
    TooLarge,
}

/// A fault of the bytes of a stack: its cause, the image that has it and the byte where it stands, both counted from 0.
#[derive(Clone, Copy, PartialEq, Eq, Debug)]
pub struct StackFault {
    pub cause: Cause,
    pub image: usize,
    pub byte: usize,
}

impl Cause {
    /// The number under which the cause is documented.
    pub fn number(self) -> u8
        ensures { result ≡ cause_number self }
    {
        match self {
            Cause::Magic => 20,
            Cause::Number => 21,
            Cause::Short => 22,
            Cause::OtherSize => 23,
            Cause::TooLarge => 24,
        }
    }
}

/// Says what is wrong, in words.
impl fmt::Display for Cause {
    ghost output = { λ cause. Some (cause_words cause) };

    fn fmt<W: fmt::Write>(&self, f: &mut fmt::Formatter<W>) -> fmt::Result {
        f.write_str(match self {
            Cause::Magic => "an image does not start with P4 and a line feed",
            Cause::Number => "a width or height is not a plain number from 1 to 1023",
            Cause::Short => "the input ends before the last row of an image",
            Cause::OtherSize => "an image has another size than the first",
            Cause::TooLarge => "there are more than 1023 images or 16777216 cells",
        })
    }
}

impl StackFault {
    /// The numbers of the cause, the image and the byte.
    pub fn numbers(self) -> (u8, usize, usize)
        ensures { result ≡ fault_numbers self }
    {
        (self.cause.number(), self.image, self.byte)
    }

    /// The same fault, its byte counted from a place that stands `start` bytes before the stack, and held at the
    /// largest number.
    pub fn moved_by(self, start: usize) -> StackFault
        ensures { result ≡ counted_from start self }
    {
        StackFault {
            cause: self.cause,
            image: self.image,
            byte: self.byte.saturating_add(start),
        }
    }
}
