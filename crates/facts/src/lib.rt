//! Facts about a running program, and what each instruction makes of them.
#![tactic(auto)]

ghost use Rattle.facts.specs.Access.{CallsAreForeseen, ReadsAreForeseen, WordsAreForeseen, WritesAreForeseen};
ghost use Rattle.facts.specs.Laws.{EntailedFactsHold, IdleNeverHolds, JoinedHolds, OneLandedHolds, StepLaw};
ghost use Rattle.transfer.specs.Shaped.{NarrowingKeepsShape};
ghost use Rattle.facts.specs.Starts.{StartFactHolds, StartsAreExact, StartsLand};

mod assertions;
mod conditions;
mod dispatch;
mod entailment;
mod fact_parts;
mod fact_sizes;
mod instructions;
mod known_fact;
mod landing;
mod memory;
mod place;
mod queries;
mod references;
mod registers;
mod source;
mod start_fact;
mod starts;

pub use domain::{
    BriefSet, CellSet, CellSets, Chain, Location, Relation, Relations, ReturnOffsets, Rules, Step,
    Sum, SumFact, Summand, Term,
};
pub use entailment::AllowedValues;
pub use fact_parts::{FactPart, LinkPart};
pub use fact_sizes::{ChosenFact, Fact, MetFact, NarrowedFact, PartFact};
pub use known_fact::KnownFact;
pub use landing::{LandingWorkspace, cells_told};
pub use place::Place;
pub use source::FactSource;
pub use start_fact::StartFact;
pub use starts::{StartPart, start_part};

/// The conditions that a certificate must meet.
#[derive(Clone, Copy, PartialEq, Eq, Debug)]
pub enum Condition {
    /// There is a fact at the start, and it holds of every start.
    V1,
    /// A fact is in main's body, without offsets, or in the body of a routine that has a line, with at
    /// least one; routine and exit lines are at entries.
    V2,
    /// At most 64 words are possible, and each is supported.
    V3,
    /// Each outcome entails the fact at each next address, in the same body; or, by a JMP in a
    /// routine to a place for which calls may be abandoned, the fact there as main's.
    V4,
    /// Each cell that may be written, a JMS's own apart, is a variable or an entry.
    V5,
    /// In a routine it is in the routine's written set, or its own entry.
    V6,
    /// A JMS goes to listed entries of lower rank, and not through an auto-index cell.
    V7,
    /// In a routine the callee's written set and entry are in the routine's, whose entry is not in
    /// the callee's.
    V8,
    /// The address is a listed site of the callee, and at most 7767.
    V9,
    /// What the caller knows entails the fact at the callee's first address.
    V10,
    /// What the caller and an exit know entails the fact at the return address.
    V11,
    /// A JMP I through an entry is its own routine's, at declared offsets, and entails the exits.
    V12,
    /// A HLT is at a declared halt.
    V13,
    /// No entry may be written, a JMS's own cell apart, except that ISZ may count the routine's own
    /// as its only target where 7 is none of the offsets, and that DCA may store in it by its name,
    /// where the declaration lets the routine do so and the word lies 0 to 77 past each return
    /// address.
    V14,
    /// Each cell that may be read is on the list of reads, where there is one, or the routine's own
    /// entry.
    V15,
    /// What is declared to hold at the address holds by each fact there; what is declared of returns
    /// holds by the routine's exits.
    V16,
}

/// The step law: from a state of a fact, a step by the word at the program counter lands in one of the
/// outcomes of the word, of the same call stack. It is asked of words whose writes are declared and
/// keep the entries. It does not speak of a JMS, of a JMP I through an entry, or of a HLT that is not
/// at a pause. By the rules of sums the fact may be the narrowed one.
pub fn step_law()
    ensures { StepLaw }
{}

/// The access law: whatever the step at a state of a fact reads, writes or calls is among what the
/// fact says that its word may, and a cell that is not an entry holds a word that is possible
/// there. It is asked of words whose writes are declared, since one of them may be a pointer that
/// is stepped.
pub fn access_law()
    ensures reads { ReadsAreForeseen }
    ensures writes { WritesAreForeseen }
    ensures calls { CallsAreForeseen }
    ensures words { WordsAreForeseen }
{}

/// A fact holds wherever one holds that entails it.
pub fn entail_law()
    ensures { EntailedFactsHold }
{}

/// One of the facts among which a fact lands holds wherever that fact holds. A fact of which nothing
/// need be asked holds nowhere.
pub fn landing_law()
    ensures landed { OneLandedHolds }
    ensures idle { IdleNeverHolds }
{}

/// What is joined of a fact at a JMS and of an exit of the routine holds when the routine has returned.
pub fn return_law()
    ensures { JoinedHolds }
{}

/// The fact of all starts holds of each start, whatever the accumulator, the link, MQ and the cells
/// that are not on the tape hold; and so does one of the facts among which it lands. By the rules of
/// equations it entails a fact of equations if and only if that fact holds of every start.
pub fn start_law()
    ensures fact { StartFactHolds }
    ensures landed { StartsLand }
    ensures exact { StartsAreExact }
{}

/// A narrowed fact keeps what the outcomes of a word ask of a fact: relations of few terms, and chains
/// with room for one step more.
pub fn narrowing_law()
    ensures { NarrowingKeepsShape }
{}
