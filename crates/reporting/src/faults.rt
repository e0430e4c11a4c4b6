// What is wrong with an input, and how it is told.
ghost use Rattle.std.specs.Prelude.{◌≡◌, Some};
ghost use Rattle.reporting.specs.Faults.{field_fault, part_name, fault_part, fault_numbers};
ghost use Rattle.reporting.specs.declared.faults.ReportError.TheVariants.{Fault, NoMemory};
ghost use Rattle.reporting.specs.declared.faults.ReportFault.TheVariants.{Job};

use grid::Refusal;
use job_text::JobFault;
use pbm::StackFault;
use replay::FieldError;
use std::alloc::AllocError;
use std::fmt;

/// What is wrong with an input. Bytes count from the input's start.
#[derive(Clone, Copy, Debug)]
pub enum ReportFault {
    /// The job's two lines are faulty, or the input is too long.
    Job(JobFault),
    /// The stack is faulty.
    Stack(StackFault),
    /// The stack, which starts at this byte, has more than 2,048 cells.
    LargeStack(usize),
    /// The field is refused.
    Field(Refusal),
}

/// Why there is no report.
#[derive(Clone, Copy, Debug)]
pub enum ReportError {
    /// The input is faulty.
    Fault(ReportFault),
    /// There is not enough memory for the report on a sound input.
    NoMemory,
}

/// The part of the input or of the work that a fault belongs to.
#[derive(Clone, Copy, PartialEq, Eq, Debug)]
pub enum Part {
    Job,
    Stack,
    Field,
}

impl From<AllocError> for ReportError {
    ghost from_gives = { λ _ r. r ≡ NoMemory };

    fn from(_e: AllocError) -> ReportError {
        ReportError::NoMemory
    }
}

impl From<JobFault> for ReportError {
    ghost from_gives = { λ f r. r ≡ Fault (Job f) };

    fn from(fault: JobFault) -> ReportError {
        ReportError::Fault(ReportFault::Job(fault))
    }
}

impl From<ReportFault> for ReportError {
    ghost from_gives = { λ f r. r ≡ Fault f };

    fn from(fault: ReportFault) -> ReportError {
        ReportError::Fault(fault)
    }
}

impl From<FieldError> for ReportError {
    ghost from_gives = { λ e r. r ≡ field_fault e };

    fn from(error: FieldError) -> ReportError {
        match error {
            FieldError::Refused(refusal) => ReportError::Fault(ReportFault::Field(refusal)),
            FieldError::NoMemory => ReportError::NoMemory,
        }
    }
}

impl Part {
    /// The part's name in the printed fault.
    pub fn name(self) -> &'static str
        ensures { result.now ≡ part_name self }
    {
        match self {
            Part::Job => "job",
            Part::Stack => "stack",
            Part::Field => "field",
        }
    }
}

/// Prints the part's name.
impl fmt::Display for Part {
    ghost output = { λ p. Some (part_name p) };

    fn fmt<W: fmt::Write>(&self, f: &mut fmt::Formatter<W>) -> fmt::Result {
        f.write_str(self.name())
    }
}

impl ReportFault {
    /// The part that the fault belongs to.
    pub fn part(self) -> Part
        ensures { result ≡ fault_part self }
    {
        match self {
            ReportFault::Job(_) => Part::Job,
            ReportFault::Stack(_) | ReportFault::LargeStack(_) => Part::Stack,
            ReportFault::Field(_) => Part::Field,
        }
    }

    /// The cause, the image and the byte.
    pub fn numbers(self) -> (u8, usize, usize)
        ensures { result ≡ fault_numbers self }
    {
        match self {
            ReportFault::Job(JobFault::TooLong) => (26, 0, 8192),
            ReportFault::Job(JobFault::Names) => (30, 0, 0),
            ReportFault::Job(JobFault::Values(start)) => (31, 0, start),
            ReportFault::Stack(fault) => fault.numbers(),
            ReportFault::LargeStack(start) => (25, 0, start),
            ReportFault::Field(refusal) => (refusal.number(), 0, 0),
        }
    }
}
