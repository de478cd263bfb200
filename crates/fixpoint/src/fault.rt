//! Why a search comes to a halt though turns are left.

ghost use Rattle.std.specs.Prelude.{◌≢◌};
ghost use Rattle.turns.specs.declared.GuessFault.TheVariants.{TurnsSpent};

use turns::GuessFault;
use word12::Word;

/// Why no guess is made, though turns are left.
#[derive(Clone, Copy)]
pub enum SearchFault {
    /// At this address an instruction was met that the judge would refuse.
    Stuck(Word),
    /// A growth of the table was refused.
    NoMemory,
}

impl SearchFault {
    /// The fault that is told.
    pub fn fault(&self) -> GuessFault
        ensures { result ≢ TurnsSpent }
    {
        match self {
            SearchFault::Stuck(at) => GuessFault::Stuck(*at),
            SearchFault::NoMemory => GuessFault::NoMemory,
        }
    }
}
