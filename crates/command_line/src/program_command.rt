//! The commands on a program and its declaration.

ghost use Rattle.std.specs.Prelude.{◌≡◌};
ghost use Rattle.command_line.specs.Outputs.{is_search};
ghost use Rattle.command_line.specs.ProgramCommands.{command_of};

/// A command on a program and its declaration.
#[derive(Clone, Copy, PartialEq, Eq)]
pub enum ProgramCommand {
    /// `verify`.
    Verify,
    /// `watch`.
    Watch,
    /// `guess`.
    Guess,
    /// `refute`.
    Refute,
    /// `declare`.
    Declare,
    /// `report`.
    Report,
    /// `check`.
    Check,
}

/// The command of a name; any other name is taken for `check`.
pub(crate) fn command_of(command: &str) -> ProgramCommand
    ensures { result ≡ command_of command.now }
{
    match command {
        "verify" => ProgramCommand::Verify,
        "watch" => ProgramCommand::Watch,
        "guess" => ProgramCommand::Guess,
        "refute" => ProgramCommand::Refute,
        "declare" => ProgramCommand::Declare,
        "report" => ProgramCommand::Report,
        _ => ProgramCommand::Check,
    }
}

/// Whether a command searches for its result: for a certificate, for a run, or for a declaration.
pub(crate) fn is_search(called: ProgramCommand) -> bool
    ensures { result ≡ is_search called }
{
    match called {
        ProgramCommand::Guess | ProgramCommand::Refute | ProgramCommand::Declare => true,
        _ => false,
    }
}
