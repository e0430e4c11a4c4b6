ghost use Rattle.std.specs.Prelude.{◌≡◌, ◌+◌, ◌-◌, ◌<◌, ◌≤◌, List, [], ◌∷◌, ◌++◌, length, take};
ghost use Rattle.rows.specs.declared.candidate.Candidate.{Candidate as Waiting};

use crate::candidate::Candidate;
use std::marker::Model;

/// The candidates of a row as far as it is read, the latest last. A row has at most 1,023 places.
///
/// A vector of the kit with as fixed a capacity writes over what it gives up, which takes longer in rows of few places.
#[derive(Drop)]
pub(crate) struct Stack {
    places: [Candidate; 1023],
    len: usize,
}

// seen as the list of the candidates; what lies above them is left as it is, and never read
impl Model for Stack {
    ghost Value = { List Waiting };

    ghost view = { λ s. take s.len s.places };

    ghost invariant = { λ s. s.len ≤ 1023 };
}

impl Stack {
    /// A stack without candidates.
    fn new() -> Stack
        ensures { result ≡ [] }
    {
        Stack {
            places: [Candidate::default(); 1023],
            len: 0,
        }
    }

    /// Leaves no candidate.
    pub(crate) fn clear(&mut self)
        ensures { self.new ≡ [] }
    {
        self.len = 0;
    }

    /// The candidates.
    pub(crate) fn as_slice(&self) -> &[Candidate]
        ensures { result.now ≡ self.now }
    {
        &self.places[..self.len]
    }

    /// Puts a candidate on top.
    pub(crate) fn push(&mut self, candidate: Candidate)
        requires { length self.old < 1023 }
        ensures { self.new ≡ self.old ++ candidate ∷ [] }
    {
        self.places[self.len] = candidate;
        self.len += 1;
    }

    /// Takes the top one off.
    pub(crate) fn pop(&mut self)
        requires { 0 < length self.old }
        ensures { self.new ≡ take (length self.old - 1) self.old }
    {
        self.len -= 1;
    }
}

/// Room for the candidates of the longest row, 16 KiB: made once and lent to one row after another.
#[derive(Drop)]
pub struct Room {
    pub(crate) candidates: Stack,
}

impl Room {
    /// Room that is not in use. What it holds from an earlier row does not matter to a later one.
    pub fn new() -> Room {
        Room {
            candidates: Stack::new(),
        }
    }
}
