//! The eight rules that a declaration lays down for each step.

ghost use Rattle.std.specs.Prelude.{◌≡◌};
ghost use Rattle.policy.specs.Watching.{number_of};

/// A rule for the steps of a program. If a step breaks several, the one with the least number is
/// told.
#[derive(Clone, Copy, PartialEq, Eq, Debug)]
pub enum Rule {
    /// The program counter is in the running routine's body, at a word that is supported.
    StaysInBody,
    /// Each cell that is written is a variable, or the running routine's own entry under ISZ, or under
    /// a DCA that names it directly, if the declaration lets the routine store there.
    WritesDeclared,
    /// A JMS goes to an entry.
    CallsEntries,
    /// A JMP I through an entry returns from its routine's last call, to a declared place after it.
    ReturnsToItsCall,
    /// A HLT stands at a declared halt.
    HaltsDeclared,
    /// Each cell of a body that is on the tape and is not a variable holds the tape's word.
    KeepsCode,
    /// Each cell that is read is on the list of reads, if there is one, or is the running routine's
    /// own entry.
    ReadsListed,
    /// What is declared to hold at the program counter holds, and so does what is declared of a
    /// return.
    AssertionsHold,
}

impl Rule {
    /// The number of the rule, from 1 to 8.
    pub fn number(self) -> u8
        ensures { result ≡ number_of self }
    {
        match self {
            Rule::StaysInBody => 1,
            Rule::WritesDeclared => 2,
            Rule::CallsEntries => 3,
            Rule::ReturnsToItsCall => 4,
            Rule::HaltsDeclared => 5,
            Rule::KeepsCode => 6,
            Rule::ReadsListed => 7,
            Rule::AssertionsHold => 8,
        }
    }
}
