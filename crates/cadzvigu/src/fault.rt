ghost use Rattle.std.specs.Prelude.{◌≡◌};
ghost use Rattle.cadzvigu.specs.Statuses.{fault_number, status_number, field_fault};
ghost use Rattle.cadzvigu.specs.declared.fault.Fault.TheVariants.{Refused, NoMemory, UnknownRule};

use grid::Refusal;
use replay::FieldError;
use rules::UnknownRule;
use std::alloc::AllocError;

/// Why a call has no answer.
#[derive(Clone, Copy, PartialEq, Eq, Debug)]
pub enum Fault {
    /// A question about the arguments is answered no.
    Refused(Refusal),
    /// No rule has that number.
    UnknownRule,
    /// There is not enough memory for the cells.
    NoMemory,
}

impl From<Refusal> for Fault {
    ghost from_gives = { λ e r. r ≡ Refused e };

    fn from(refusal: Refusal) -> Fault {
        Fault::Refused(refusal)
    }
}

impl From<AllocError> for Fault {
    ghost from_gives = { λ _ r. r ≡ NoMemory };

    fn from(_e: AllocError) -> Fault {
        Fault::NoMemory
    }
}

impl From<UnknownRule> for Fault {
    ghost from_gives = { λ _ r. r ≡ UnknownRule };

    fn from(_unknown: UnknownRule) -> Fault {
        Fault::UnknownRule
    }
}

impl From<FieldError> for Fault {
    ghost from_gives = { λ e r. r ≡ field_fault e };

    fn from(error: FieldError) -> Fault {
        match error {
            FieldError::Refused(refusal) => Fault::Refused(refusal),
            FieldError::NoMemory => Fault::NoMemory,
        }
    }
}

impl Fault {
    /// The status of a call with this fault.
    pub fn number(self) -> u32
        ensures { result ≡ fault_number self }
    {
        match self {
            Fault::Refused(refusal) => refusal.number() as u32,
            Fault::UnknownRule => 100,
            Fault::NoMemory => 101,
        }
    }
}

/// The status of a call: 0, or the number of its fault.
pub fn status(outcome: Result<(), Fault>) -> u32
    ensures { result ≡ status_number outcome }
{
    match outcome {
        Ok(()) => 0,
        Err(fault) => fault.number(),
    }
}
