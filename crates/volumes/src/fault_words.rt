// Why there is no field, in words.
use crate::field::VolumeFault;
use std::error::Error;
use std::fmt;

/// The part, the cause, the image and the byte of a fault, and what they mean.
impl fmt::Display for VolumeFault {
    fn fmt<W: fmt::Write>(&self, f: &mut fmt::Formatter<W>) -> fmt::Result {
        match self {
            VolumeFault::Stack(fault) => {
                let (cause, image, byte) = fault.numbers();
                write!(
                    f,
                    "stack: cause {cause}, image {image}, byte {byte}: {}",
                    fault.cause
                )
            }
            VolumeFault::Refused(refusal) => {
                let cause = refusal.number();
                write!(f, "field: cause {cause}: {refusal}")
            }
            VolumeFault::NoMemory => write!(f, "there is not enough memory for the cells"),
        }
    }
}

impl Error for VolumeFault {}
