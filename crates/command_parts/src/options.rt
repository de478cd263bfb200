//! What commands are asked to do, apart from the files that they work on.

use instruct::Profile;
use word12::Word;
use wordset::WordSet;

/// How a tape is run.
#[derive(Clone, Copy, PartialEq, Eq, Debug)]
pub struct RunOptions {
    /// The address of the first instruction.
    pub start: Word,
    /// How many rounds are made at most.
    pub rounds: u32,
    /// A line is written for each instruction.
    pub trace: bool,
    /// Whose instructions the machine has.
    pub profile: Profile,
    /// The cells whose words are shown when the run is over.
    pub show: WordSet,
}

/// Where a run is stopped: before the first step that one of these asks for.
#[derive(Clone, Copy, PartialEq, Eq, Debug)]
pub struct Stops {
    /// The address of an instruction, if the run is stopped at one.
    pub place: Option<Word>,
    /// How many steps come to that address, with the one before which the run is stopped.
    pub times: u32,
    /// The run is stopped before a step that writes one of these cells.
    pub written: WordSet,
    /// The run is stopped before a step that reads one of these cells.
    pub read: WordSet,
}

/// What the summary of a run with an operator tells, and where it begins.
#[derive(Clone, Copy, PartialEq, Eq, Debug)]
pub struct SummaryForm<'n> {
    /// It begins on a line of its own, also behind characters that leave a line open.
    pub apart: bool,
    /// What was printed was seen, and is not told again.
    pub seen: bool,
    /// The file that what was punched goes to, if it goes to one: then the summary names it, and tells the number of
    /// frames in place of the frames.
    pub saved_in: Option<&'n str>,
}

impl SummaryForm<'_> {
    /// All is told, where the summary comes.
    pub const WHOLE: SummaryForm<'static> = SummaryForm {
        apart: false,
        seen: false,
        saved_in: None,
    };
}

/// How a tape is run with an operator.
#[derive(Clone, Copy, PartialEq, Eq, Debug)]
pub struct SessionOptions {
    /// How the tape is run.
    pub run: RunOptions,
    /// What the switches are set to first, if they are.
    pub switches: Option<Word>,
    /// Each key has channel 8 set.
    pub mark: bool,
}

/// What a declaration is proposed for.
#[derive(Clone, Copy, PartialEq, Eq, Debug)]
pub struct DeclareOptions {
    /// Where the program starts.
    pub start: Word,
    /// The machine that it is for.
    pub profile: Profile,
    /// Whether the cells that may be read are listed.
    pub reads: bool,
}

/// What is made of a declaration for which a certificate is found.
#[derive(Clone, Copy, PartialEq, Eq, Debug)]
pub struct Refinements {
    /// What the certificate shows to be needless is left out.
    pub tight: bool,
    /// It is added with what each routine returns.
    pub exits: bool,
}

/// How a run that violates a declaration is looked for.
#[derive(Clone, Copy, PartialEq, Eq, Debug)]
pub struct RefuteOptions {
    /// How many steps the search makes at most.
    pub steps: u32,
    /// Where the random numbers begin: the same seed gives the same answer.
    pub seed: u32,
    /// It is said what the step is about to do that violates a rule.
    pub explained: bool,
}

/// How it is found out whether a program keeps its declaration.
#[derive(Clone, Copy, PartialEq, Eq, Debug)]
pub struct VerifyOptions {
    /// Where the program starts, if no declaration says it.
    pub start: Word,
    /// The machine that it is for, if no declaration says it.
    pub profile: Profile,
    /// How a run that violates the declaration is looked for.
    pub search: RefuteOptions,
}

/// How the bytes of keys are struck at the teletype.
#[derive(Clone, Copy, PartialEq, Eq, Debug)]
pub struct KeyOptions {
    /// They are struck as they come. Else a carriage return is struck for a line feed, and each key has
    /// channel 8 set, as people type at a terminal.
    pub raw: bool,
    /// Each key has channel 8 set, even if the bytes are struck as they come.
    pub mark: bool,
}

/// How a session at the teletype is held.
#[derive(Clone, Copy, PartialEq, Eq, Debug)]
pub struct TeletypeOptions {
    /// The address of the first instruction.
    pub start: Word,
    /// Whose instructions the machine has.
    pub profile: Profile,
    /// What the switches are set to first, if they are.
    pub switches: Option<Word>,
    /// How the bytes of keys are struck.
    pub manner: KeyOptions,
    /// The cells whose words are shown when the session is over.
    pub show: WordSet,
}
