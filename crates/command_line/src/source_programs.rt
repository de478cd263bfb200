//! What may be requested with a source in place of a tape, without a declaration.

ghost use Rattle.std.specs.Prelude.{◌≡◌, ◌&&◌, IfErr, IfOk, MatchResult, codes, false, is_some, option_map};
ghost use Rattle.command_line.specs.Machines.{tape_given};
ghost use Rattle.command_line.specs.Options.{ArePlacesGiven, has_value, sources_given};
ghost use Rattle.command_line.specs.Refusals.{IsRefused};
ghost use Rattle.command_line.specs.Sources.{IsMachineGiven, IsMachineTaskGiven, machine_of, machine_task_command};
ghost use Rattle.command_line.specs.declared.command_name.CommandName.TheVariants.{Machine};
ghost use Rattle.command_line.specs.declared.command_name.MachineCommand.TheVariants.{Run};

use crate::command_name::MachineCommand;
use crate::fault::{CommandLineFault, Misuse};
use crate::names::FileNames;
use crate::operator::{Session, TeletypeSession, has_operator, session_of, teletype_of};
use crate::place_options::{PlaceOptions, places_of};
use crate::requests::Request;
use crate::tapes::{DumpRequest, RunRequest, dump_request, run_request, tape_of};
use crate::values::{copied, has_value, is_given, is_sourced};
use clap::ArgMatches;
use instruct::Profile;
use std::alloc::Global;

/// To run the program of a source, or to list its words.
#[derive(Drop)]
pub struct SourceProgramRequest<'a> {
    /// The names of the files of the source's parts, in order.
    pub parts: Vec<&'a str>,
    /// The cells and places that options name, by words that may have the symbols of the source.
    pub places: PlaceOptions<'a>,
    /// What is done with the program.
    pub task: MachineTask<'a>,
    /// Whether more is said than the line of a fault.
    pub explained: bool,
}

/// What is done with a program without its declaration.
#[derive(Clone, Copy)]
pub enum MachineTask<'a> {
    /// It is run.
    Run(RunRequest<'a>),
    /// It is run with an operator.
    Session(Session<'a>),
    /// A session at the teletype is held.
    Teletype(TeletypeSession<'a>),
    /// Its words are listed.
    Dump(DumpRequest<'a>),
}

impl<'a> MachineTask<'a> {
    /// The command that asks for it.
    pub fn command(&self) -> MachineCommand
        ensures { result ≡ machine_task_command self.now }
    {
        match self {
            MachineTask::Run(_) | MachineTask::Session(_) => MachineCommand::Run,
            MachineTask::Teletype(_) => MachineCommand::Teletype,
            MachineTask::Dump(_) => MachineCommand::Dump,
        }
    }

    /// The names of its files.
    pub fn names(&self) -> FileNames<'a> {
        match self {
            MachineTask::Run(run) => run.names(),
            MachineTask::Session(session) => session.names(),
            MachineTask::Teletype(session) => session.names(),
            MachineTask::Dump(dump) => dump.names(),
        }
    }

    /// The machine that it is for.
    pub fn profile(&self) -> Profile
        ensures { result ≡ machine_of self.now }
    {
        match self {
            MachineTask::Run(run) => run.options.profile,
            MachineTask::Session(session) => session.options.run.profile,
            MachineTask::Teletype(session) => session.options.profile,
            MachineTask::Dump(dump) => dump.profile,
        }
    }
}

/// What `run` asks for: a run with an operator or without one.
fn run_task<'a>(
    alloc: Global,
    found: &ArgMatches<'a>,
    tape: Option<&'a str>,
    places: &PlaceOptions<'a>,
) -> Result<MachineTask<'a>, CommandLineFault>
    requires tape { option_map (λ name. name.now) tape ≡ tape_given found.now }
    requires places { ArePlacesGiven found.now places.now }
    ensures { MatchResult result (IsMachineTaskGiven Run found.now places.now)
        (IsRefused (Machine Run) found.now) }
{
    if has_operator(found) {
        let session = session_of(alloc, found, tape, places)?;
        return Ok(MachineTask::Session(session));
    }
    let run = run_request(alloc, found, tape, places)?;
    Ok(MachineTask::Run(run))
}

/// What `run`, `teletype` or `dump` asks for with a program.
fn task_of<'a>(
    alloc: Global,
    called: MachineCommand,
    found: &ArgMatches<'a>,
    tape: Option<&'a str>,
    places: &PlaceOptions<'a>,
) -> Result<MachineTask<'a>, CommandLineFault>
    requires tape { option_map (λ name. name.now) tape ≡ tape_given found.now }
    requires places { ArePlacesGiven found.now places.now }
    ensures { MatchResult result (IsMachineTaskGiven called found.now places.now)
        (IsRefused (Machine called) found.now) }
{
    match called {
        MachineCommand::Run => run_task(alloc, found, tape, places),
        MachineCommand::Teletype => {
            Ok(MachineTask::Teletype(teletype_of(alloc, found, tape, places)?))
        }
        MachineCommand::Dump => Ok(MachineTask::Dump(dump_request(alloc, found, tape)?)),
    }
}

/// Ensures that a program is not given by both its tape and its source.
fn tape_or_source(called: MachineCommand, found: &ArgMatches<'_>) -> Result<(), CommandLineFault>
    ensures alone { IfOk result (λ _.
        (is_some (sources_given found.now) && has_value found.now (codes "TAPE")) ≡ false) }
    ensures refused { IfErr result (IsRefused (Machine called) found.now) }
{
    if is_sourced(found) && has_value(found, "TAPE") {
        return Err(CommandLineFault::Misuse(Misuse::TapeAndSource));
    }
    Ok(())
}

/// The request of `run`, `teletype` or `dump`.
pub(crate) fn machine_request<'a>(
    alloc: Global,
    called: MachineCommand,
    found: &ArgMatches<'a>,
) -> Result<Request<'a>, CommandLineFault>
    ensures { MatchResult result (IsMachineGiven called found.now)
        (IsRefused (Machine called) found.now) }
{
    let places = places_of(alloc, found)?;
    tape_or_source(called, found)?;
    let task = task_of(alloc, called, found, tape_of(found), &places)?;
    match found.get_strs("source") {
        None => Ok(Request::Tape(task)),
        Some(names) => {
            let parts = copied(alloc, names)?;
            Ok(Request::Sourced(SourceProgramRequest {
                parts,
                places,
                task,
                explained: is_given(found, "why"),
            }))
        }
    }
}
