//! What the command line asks for.

ghost use Rattle.std.specs.Prelude.{MatchResult, map};
ghost use Rattle.command_line.specs.CommandLines.{IsExplainGiven, IsLineGiven, IsRequestGiven};
ghost use Rattle.command_line.specs.Refusals.{IsLineRefused, IsRefused};

use crate::command_name::{CommandName, called_of};
use crate::commands::command;
use crate::fault::CommandLineFault;
use crate::programs::{ProgramRequest, place_request, program_request};
use crate::source_programs::{MachineTask, SourceProgramRequest, machine_request};
use crate::sources::{AssembleRequest, ListRequest, assemble_request, list_request};
use crate::tapes::{MigrateRequest, SourceRequest, migrate_request, source_request};
use crate::values::is_given;
use clap::ArgMatches;
use std::alloc::Global;
use std::convert::AsStr;

/// What is requested.
#[derive(Drop)]
pub enum Request<'a> {
    /// To run a tape, or to list its words.
    Tape(MachineTask<'a>),
    /// To do one of these with the program of a source.
    Sourced(SourceProgramRequest<'a>),
    /// To assemble a source.
    Assemble(AssembleRequest<'a>),
    /// To write a source of a tape.
    Source(SourceRequest<'a>),
    /// To list a source.
    List(ListRequest<'a>),
    /// To migrate a certificate.
    Migrate(MigrateRequest<'a>),
    /// To say what a condition, a rule or a fault means.
    Explain {
        /// Its code; without one the codes are listed.
        code: Option<&'a str>,
        /// What stands after it as a word of its own, as the number in `rule 2`.
        number: Option<&'a str>,
    },
    /// To work on a program and its declaration.
    Program(ProgramRequest<'a>),
}

/// A command line that can be carried out.
#[derive(Drop)]
pub struct CommandLine<'a> {
    /// What is requested.
    pub request: Request<'a>,
    /// Whether `--why` is given.
    pub explained: bool,
}

/// What `explain` asks for.
fn explain_request<'a>(found: &ArgMatches<'a>) -> Request<'a>
    ensures { IsExplainGiven found.now result }
{
    let code = found.get_str("CODE");
    let number = found.get_str("NUMBER");
    Request::Explain { code, number }
}

/// What a command asks for, with what was found after it.
fn request_of<'a>(
    alloc: Global,
    called: CommandName,
    found: &ArgMatches<'a>,
) -> Result<Request<'a>, CommandLineFault>
    ensures { MatchResult result (IsRequestGiven called found.now) (IsRefused called found.now) }
{
    match called {
        CommandName::Machine(command) => machine_request(alloc, command, found),
        CommandName::Assemble => Ok(Request::Assemble(assemble_request(alloc, found)?)),
        CommandName::List => Ok(Request::List(list_request(alloc, found)?)),
        CommandName::Source => Ok(Request::Source(source_request(alloc, found)?)),
        CommandName::Migrate => Ok(Request::Migrate(migrate_request(alloc, found)?)),
        CommandName::Place => Ok(Request::Program(place_request(alloc, found)?)),
        CommandName::Explain => Ok(explain_request(found)),
        CommandName::Program(command) => {
            Ok(Request::Program(program_request(alloc, command, found)?))
        }
    }
}

/// Reads the program's arguments, its own name before them.
#[inline(never)]
pub fn parse_arguments<'a, S: AsStr>(
    alloc: Global,
    arguments: &'a [S],
) -> Result<CommandLine<'a>, CommandLineFault>
    ensures { MatchResult result (IsLineGiven (map S.text arguments.now))
        (IsLineRefused (map S.text arguments.now)) }
{
    let table = command(alloc)?;
    let matches = table.try_get_matches_from(arguments)?;
    let Some((name, found)) = matches.subcommand() else {
        // clap refuses a line without a command, so this is not reached.
        return Err(CommandLineFault::Memory);
    };
    let request = request_of(alloc, called_of(name), found)?;
    let explained = is_given(found, "why");
    Ok(CommandLine { request, explained })
}
