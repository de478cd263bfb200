//! How long a search may go on, and why one has no result.
#![tactic(auto)]

ghost use Rattle.std.specs.Prelude.{◌≡◌, ◌≤◌, ◌+◌, OnOk, IfErr};
ghost use Rattle.turns.specs.Counts.{IsSpentUp};

mod stepping;

use declaration::DeclarationFault;
use std::marker::Model;
pub use stepping::{StepVerdict, take_step};
use thiserror::Error;
use word12::Word;

/// Why no certificate is found.
#[derive(Clone, Copy, PartialEq, Eq, Debug, Error)]
pub enum GuessFault {
    /// All turns are spent.
    #[error("TurnsSpent")]
    TurnsSpent,
    /// At this address an instruction was met that the judge would refuse, or the judge refuses there
    /// what was found. Of the calls that go round in a circle it is the least.
    #[error("Stuck {0}")]
    Stuck(Word),
    /// A growth of the table was refused.
    #[error("NoMemory")]
    NoMemory,
}

/// Why nothing is proposed.
#[derive(Clone, Copy, PartialEq, Eq, Debug, Error)]
pub enum ProposeFault {
    /// What was found cannot be declared, as where there are more than 64 routines.
    #[error("Undeclarable {0}")]
    Undeclarable(DeclarationFault),
    /// What was found has another start, is for another machine than was asked, or lists other cells; or
    /// the judge refuses the certificate once the cells are listed.
    #[error("Mismatch")]
    Mismatch,
    /// A growth was refused.
    #[error("NoMemory")]
    NoMemory,
}

/// Turns: so many were taken, of so many at most. A search takes one for each `post`.
#[derive(Drop)]
pub struct Turns {
    spent: u32,
    limit: u32,
}

impl Model for Turns {
    ghost use Rattle.std.specs.Prelude.{◌≤◌};
    ghost use Rattle.turns.specs.Counts.{Count};

    ghost Value = { Count };

    ghost view = { λ t. record { spent = t.spent; limit = t.limit } };

    ghost invariant = { λ t. t.spent ≤ t.limit };
}

impl Turns {
    /// None was taken yet of at most so many.
    pub fn new(limit: u32) -> Turns
        ensures spent { result.spent ≡ 0 }
        ensures limit { result.limit ≡ limit }
    {
        Turns { spent: 0, limit }
    }

    /// How many were taken.
    pub fn spent(&self) -> u32
        ensures same { result ≡ self.now.spent }
        ensures within { result ≤ self.now.limit }
    {
        let _limit = self.limit;
        self.spent
    }

    /// How many there are at most.
    pub fn limit(&self) -> u32
        ensures { result ≡ self.now.limit }
    {
        self.limit
    }

    /// There are never more taken than there are.
    pub fn are_within(&self)
        ensures { self.now.spent ≤ self.now.limit }
    {
        let _limit = self.limit;
    }

    /// Takes one more, if one is left.
    pub fn take(&mut self) -> Result<(), GuessFault>
        ensures limit { self.new.limit ≡ self.old.limit }
        ensures within { self.new.spent ≤ self.new.limit }
        ensures rises { self.old.spent ≤ self.new.spent }
        ensures taken { OnOk result (self.new.spent ≡ self.old.spent + 1) }
        ensures spent { IfErr result (IsSpentUp self.new) }
    {
        if self.spent >= self.limit {
            return Err(GuessFault::TurnsSpent);
        }
        self.spent += 1;
        Ok(())
    }
}
