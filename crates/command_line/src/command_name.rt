//! The commands, by their names.

ghost use Rattle.std.specs.Prelude.{◌≡◌};
ghost use Rattle.command_line.specs.CommandNames.{called_of};

use crate::program_command::{ProgramCommand, command_of};

/// A command on a machine without a declaration.
#[derive(Clone, Copy, PartialEq, Eq)]
pub enum MachineCommand {
    /// `run`.
    Run,
    /// `teletype`.
    Teletype,
    /// `dump`.
    Dump,
}

/// A command.
#[derive(Clone, Copy, PartialEq, Eq)]
pub enum CommandName {
    /// `run`, `teletype` or `dump`.
    Machine(MachineCommand),
    /// `assemble`.
    Assemble,
    /// `list`.
    List,
    /// `source`.
    Source,
    /// `migrate`.
    Migrate,
    /// `place`.
    Place,
    /// `explain`.
    Explain,
    /// A command on a program and its declaration.
    Program(ProgramCommand),
}

/// The command of a name. Any other name is taken for a command on a program and its declaration.
pub(crate) fn called_of(name: &str) -> CommandName
    ensures { result ≡ called_of name.now }
{
    match name {
        "run" => CommandName::Machine(MachineCommand::Run),
        "teletype" => CommandName::Machine(MachineCommand::Teletype),
        "dump" => CommandName::Machine(MachineCommand::Dump),
        "assemble" => CommandName::Assemble,
        "list" => CommandName::List,
        "source" => CommandName::Source,
        "migrate" => CommandName::Migrate,
        "place" => CommandName::Place,
        "explain" => CommandName::Explain,
        _ => CommandName::Program(command_of(name)),
    }
}
