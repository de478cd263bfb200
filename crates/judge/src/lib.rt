//! The conditions on a certificate, and the theorem that they make a program safe.
#![tactic(auto)]

ghost use Rattle.judge.specs.Headline.{ProgramsAreSafe, UnassertedIsFree, UnlistedReadsAreFree};

mod body;
mod cache;
mod calls;
mod case;
mod claims;
mod judging;
mod landing;
pub mod laws;
mod point;
mod sited;
mod sources;
mod verdict;
mod words;

pub use body::Body;
pub use cache::FactCache;
pub use case::{Case, JudgeWorkspace, put_asked};
pub use certificate_lines::RoutineClaim;
pub use claims::Claims;
pub use facts::Condition;
pub use judging::{Refusal, judge};
pub use point::{ComparisonWorkspace, NarrowedPoint, Point, place_of};
pub use sited::put_sites;
pub use sources::{AddressFacts, OffsetExits};
pub use verdict::{Certified, CertifyFault, certify};

/// The headline. Whenever `certify` answers yes for a tape, a declaration and a certificate, then in
/// every run from the declared start, whatever unset memory holds and however keys, tape frames,
/// completions and switches interleave with instructions, control stays in the current routine's
/// body, writes hit only declared cells, fixed code words never change, each return reaches a
/// declared place after its own call, or all calls are abandoned for a declared place, halts are
/// declared, listed reads are kept, and what is declared to hold, holds.
///
/// `certify` answers yes only if every condition holds; that this is enough is said here, over the
/// definitions alone. The accumulator, the link and MQ are free too. Its premises are that the machine
/// follows the instruction table of the declared profile in one field with interrupts off, that memory
/// holds the tape's words at the start, and that the operator starts at the declared start, presses
/// CONTINUE at pauses alone, sets the switches freely and deposits nothing. It does not say that a run
/// ends, that a program computes what its author meant, or that a declaration is wise; and it says
/// nothing of reads where none are listed.
pub fn headline()
    ensures safe { ProgramsAreSafe }
    // Without a list of reads, the rule on reads and its condition ask nothing.
    ensures reads { UnlistedReadsAreFree }
    // If nothing is asserted, the rule on assertions and its condition ask nothing.
    ensures assertions { UnassertedIsFree }
{}
