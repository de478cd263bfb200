//! What may be requested with a program and its declaration: the program is given by its tape, or with `--source` by
//! its source. It is proved that the files of a program are those that were given.

ghost use Rattle.std.specs.Prelude.{◌≡◌, IfErr, IfOk, MatchResult, None, codes, false, is_some, map, option_map, unwrap_or, true};
ghost use Rattle.std.specs.Option.{ForSome};
ghost use Rattle.command_line.specs.Inputs.{AreReadAtMost};
ghost use Rattle.command_line.specs.Options.{ArePlacesGiven, IsStartOnce, IsVersionNamed, IsWatchedWithOperator, named, sources_given, value, version_named};
ghost use Rattle.command_line.specs.Outputs.{is_taken};
ghost use Rattle.command_line.specs.Refusals.{AreInputsBeside, IsRefused, IsRefusedByAny};
ghost use Rattle.command_line.specs.Requests.{IsDeclareGiven, IsFollowedOn, IsGuessGiven, IsOperated, IsWatchedRunGiven, IsProgramRequestGiven, IsRefuteGiven, IsReportGiven, IsTaskGiven, IsVerifyGiven, inputs_given, is_tape, last_of, part_names, saved_by, task_command, watched_declaration, watched_tape};
ghost use Rattle.command_line.specs.Sources.{IsPlaceGiven};
ghost use Rattle.command_line.specs.declared.command_name.CommandName.TheVariants.{Place, Program};
ghost use Rattle.command_line.specs.declared.program_command.ProgramCommand.TheVariants.{Declare, Guess, Refute, Report, Verify, Watch};

use crate::command_name::CommandName;
use crate::fault::{CommandLineFault, Misuse};
use crate::names::FileNames;
use crate::operands::{Operands, input_names, operands_of};
use crate::operator::{WatchedSession, is_watched_with_operator, session_options};
use crate::outputs::{Destination, SaveOptions, is_taken, report_of, result_of, save_of};
use crate::place_options::{PlaceOptions, StopOptions, places_of, shown_on, stopping_on};
use crate::program_command::ProgramCommand;
use crate::sources::{placed_operands, source_names};
use crate::values::{
    continues_of, declare_options, has_value, is_given, is_sourced, is_start_named, read_once,
    refinements_of, refute_options, start_once, verify_options,
};
use certificate_lines::Version;
use clap::ArgMatches;
use command_parts::options::{DeclareOptions, Refinements, RefuteOptions, VerifyOptions};
use std::alloc::Global;
use wordset::WordSet;

/// To work on a program and its declaration.
#[derive(Drop)]
pub struct ProgramRequest<'a> {
    /// The files of the program.
    pub program: ProgramNames<'a>,
    /// The name of the declaration's file. Without one the lines within a source are the declaration, and otherwise
    /// one is proposed.
    pub declaration: Option<&'a str>,
    /// What is done.
    pub task: Task<'a>,
    /// The cells that are shown of a run and where it is stopped, which may have the symbols of a source.
    pub places: PlaceOptions<'a>,
    /// Whether a start or a machine is named.
    pub asked: bool,
    /// Whether more is said than the line of an answer or of a fault.
    pub explained: bool,
}

/// The files of a program.
#[derive(Drop)]
pub enum ProgramNames<'a> {
    /// The name of the tape's file.
    Tape(&'a str),
    /// The names of the files of a source's parts, in order.
    Source(Vec<&'a str>),
}

/// What is done with a program and its declaration.
#[derive(Clone, Copy)]
pub enum Task<'a> {
    /// To say whether the program complies with its declaration.
    Verify {
        /// The files for what is found, if it is saved.
        save: Option<SaveOptions<'a>>,
        /// How the answer is searched for.
        options: VerifyOptions,
    },
    /// To check a certificate.
    Check {
        /// The name of the certificate's file.
        certificate: &'a str,
    },
    /// To write what a certificate says.
    Report {
        /// The name of the certificate's file.
        certificate: &'a str,
        /// Where the report goes.
        out: Destination<'a>,
        /// Whether it is plain text.
        text: bool,
    },
    /// To watch a run by a list of events.
    Watch {
        /// The name of the file of events.
        events: &'a str,
        /// The cells whose words are shown when the run of a tape is over.
        show: WordSet,
        /// How the run of a tape is followed, if it may be stopped or its last instructions are requested.
        stopping: Option<StopOptions>,
    },
    /// To watch a run with an operator.
    WatchSession(WatchedSession<'a>),
    /// To search for a certificate.
    Guess {
        /// Where the certificate goes.
        out: Destination<'a>,
        /// Where the report of a search that is stuck goes.
        report: Option<&'a str>,
        /// The version of the certificate, if one is requested.
        version: Option<Version>,
    },
    /// To search for a run that violates the declaration.
    Refute {
        /// Where the events go.
        out: Destination<'a>,
        /// How the search is made.
        options: RefuteOptions,
    },
    /// To propose a declaration, or to complete the one that is given.
    Declare {
        /// Where it goes.
        out: Destination<'a>,
        /// What it is proposed for.
        options: DeclareOptions,
        /// What is made of it if a certificate is found.
        refinements: Refinements,
    },
    /// To write the declaration in numbers.
    Place {
        /// Where it goes.
        out: Destination<'a>,
    },
}

impl<'a> ProgramNames<'a> {
    /// The name of the tape's file, if the program is given by its tape.
    pub(crate) fn tape(&self) -> Option<&'a str>
        ensures { is_some result ≡ is_tape self.now }
    {
        match self {
            ProgramNames::Tape(name) => Some(name),
            ProgramNames::Source(_) => None,
        }
    }

    /// The names of the files of a source's parts, if the program is given by its source.
    pub fn parts(&self) -> &[&'a str]
        ensures { result.now ≡ part_names self.now }
    {
        match self {
            ProgramNames::Tape(_) => &[],
            ProgramNames::Source(names) => names,
        }
    }
}

impl<'a> ProgramRequest<'a> {
    /// The names of the files, apart from the parts of a source.
    pub fn names(&self) -> FileNames<'a> {
        FileNames {
            tape: self.program.tape(),
            declaration: self.declaration,
            certificate: self.task.certificate(),
            events: self.task.events(),
            reader: self.task.reader(),
            keys: self.task.keys(),
            output: Some(self.task.output()),
            second_output: self.task.second_output(),
        }
    }
}

impl<'a> Task<'a> {
    /// The command that asks for it.
    pub fn command(&self) -> CommandName
        ensures { result ≡ task_command self.now }
    {
        let command = match self {
            Task::Verify { .. } => ProgramCommand::Verify,
            Task::Check { .. } => ProgramCommand::Check,
            Task::Report { .. } => ProgramCommand::Report,
            Task::Watch { .. } | Task::WatchSession(_) => ProgramCommand::Watch,
            Task::Guess { .. } => ProgramCommand::Guess,
            Task::Refute { .. } => ProgramCommand::Refute,
            Task::Declare { .. } => ProgramCommand::Declare,
            Task::Place { .. } => return CommandName::Place,
        };
        CommandName::Program(command)
    }

    /// The files for what is found, if it is saved.
    pub fn save(&self) -> Option<SaveOptions<'a>>
        ensures { result ≡ saved_by self.now }
    {
        match self {
            Task::Verify { save, .. } => *save,
            _ => None,
        }
    }

    /// The name of the certificate's file, if there is one.
    fn certificate(&self) -> Option<&'a str> {
        match self {
            Task::Check { certificate } | Task::Report { certificate, .. } => Some(certificate),
            _ => None,
        }
    }

    /// The name of the file of events, if there is one.
    fn events(&self) -> Option<&'a str> {
        match self {
            Task::Watch { events, .. } => Some(events),
            _ => None,
        }
    }

    /// The name of the file whose frames are in the reader, if there is one.
    fn reader(&self) -> Option<&'a str> {
        match self {
            Task::WatchSession(session) => session.reader,
            _ => None,
        }
    }

    /// The name of the file of the keys, if there is one.
    fn keys(&self) -> Option<&'a str> {
        match self {
            Task::WatchSession(session) => session.keys,
            _ => None,
        }
    }

    /// The name of the result's file.
    fn output(&self) -> &'a str {
        match self {
            Task::Report { out, .. }
            | Task::Guess { out, .. }
            | Task::Refute { out, .. }
            | Task::Declare { out, .. }
            | Task::Place { out } => out.name(),
            _ => "-",
        }
    }

    /// The name of another output's file, if there is one.
    fn second_output(&self) -> Option<&'a str> {
        match self {
            Task::Guess { report, .. } => *report,
            Task::Refute { .. } => Some("-"),
            _ => None,
        }
    }
}

/// The tape of a run that is watched with an operator. Of a source, its name is empty.
fn watched_tape<'a>(program: &ProgramNames<'a>) -> &'a str
    ensures { result.now ≡ watched_tape program.now }
{
    match program {
        ProgramNames::Tape(name) => name,
        ProgramNames::Source(_) => "",
    }
}

/// The declaration of a run that is watched with an operator. Of a source, its name is empty.
fn watched_declaration<'a>(operands: &Operands<'a>) -> &'a str
    ensures { result.now ≡ watched_declaration operands.now.program
        (option_map (λ name. name.now) operands.now.declaration) }
{
    match &operands.program {
        ProgramNames::Tape(_) => name_or_input(&operands.declaration),
        ProgramNames::Source(_) => "",
    }
}

/// The watched run with an operator that is requested.
fn watched_session_of<'a>(
    found: &ArgMatches<'a>,
    operands: &Operands<'a>,
    followed: WatchedRunOptions,
) -> Result<WatchedSession<'a>, CommandLineFault>
    requires operated { IsWatchedWithOperator found.now true }
    ensures { MatchResult result (IsWatchedRunGiven found.now operands.now followed)
        (IsRefused (Program Watch) found.now) }
{
    if has_value(found, "EVENTS") {
        return Err(CommandLineFault::Misuse(Misuse::ListAndOperator));
    }
    let options = session_options(found, followed.show)?;
    let continues = continues_of(found)?;
    Ok(WatchedSession {
        tape: watched_tape(&operands.program),
        declaration: watched_declaration(operands),
        reader: found.get_str("reader"),
        keys: found.get_str("keys"),
        options,
        continues,
        stopping: followed.stopping,
        explained: is_given(found, "why"),
    })
}

/// The version of a certificate that is named.
fn version_named(name: &str) -> Option<Version>
    ensures { result ≡ version_named name.now }
{
    match name {
        "1" => Some(Version::One),
        "2" => Some(Version::Two),
        "3" => Some(Version::Three),
        _ => None,
    }
}

/// The version of the certificate for which a search is asked, if one is.
fn guessed_version(found: &ArgMatches<'_>) -> Result<Option<Version>, CommandLineFault>
    ensures { MatchResult result (IsVersionNamed (value found.now (codes "certificate")))
        (IsRefusedByAny found.now) }
{
    match found.get_str("certificate") {
        None => Ok(None),
        Some(name) => match version_named(name) {
            Some(version) => Ok(Some(version)),
            None => Err(CommandLineFault::Misuse(Misuse::GuessedVersion)),
        },
    }
}

/// Whether an output, if there is one, is one of these inputs, as far as the names tell.
fn is_any_taken(output: &Option<&str>, inputs: &[&str]) -> bool
    ensures none { result ≡ false →
        ForSome output.now (λ name. is_taken name.now (map (λ input. input.now) inputs.now) ≡ false) }
    ensures some { result ≡ true → is_some output.now ≡ true }
{
    match output {
        Some(name) => is_taken(name, inputs),
        None => false,
    }
}

/// The search for a certificate that is requested. Of a search on a tape with a report each input must be a file,
/// since it is read twice.
fn guess_task<'a>(
    found: &ArgMatches<'a>,
    operands: &Operands<'a>,
    inputs: &[&'a str],
) -> Result<Task<'a>, CommandLineFault>
    requires inputs { AreInputsBeside (Program Guess) found.now (map (λ input. input.now) inputs.now) }
    requires given { map (λ input. input.now) inputs.now ≡ named found.now (inputs_given Guess found.now) }
    ensures { MatchResult result (IsGuessGiven found.now)
        (IsRefused (Program Guess) found.now) }
{
    let is_tape = operands.program.tape().is_some();
    let out = result_of(CommandName::Program(ProgramCommand::Guess), found, inputs)?;
    let named = if is_tape {
        inputs
    } else {
        operands.declaration.as_slice()
    };
    let report = report_of(found, named, &out)?;
    if is_any_taken(&report, inputs) {
        return Err(CommandLineFault::Misuse(Misuse::ReportIsTaken));
    }
    if is_tape && report.is_some() && inputs.iter().any(|input| **input == *"-") {
        return Err(CommandLineFault::Misuse(Misuse::ReportOfStandardInput));
    }
    let version = guessed_version(found)?;
    Ok(Task::Guess {
        out,
        report,
        version,
    })
}

/// To find out whether a program complies with its declaration.
fn verify_task<'a>(
    found: &ArgMatches<'a>,
    operands: &Operands<'a>,
    inputs: &[&'a str],
) -> Result<Task<'a>, CommandLineFault>
    requires { map (λ input. input.now) inputs.now ≡ named found.now (inputs_given Verify found.now) }
    ensures { MatchResult result (IsVerifyGiven found.now operands.now)
        (IsRefused (Program Verify) found.now) }
{
    let save = save_of(found, inputs, operands.declaration.is_none())?;
    let options = verify_options(found)?;
    Ok(Task::Verify { save, options })
}

/// To search for a run that violates the declaration.
fn refute_task<'a>(found: &ArgMatches<'a>, inputs: &[&'a str]) -> Result<Task<'a>, CommandLineFault>
    requires inputs { AreInputsBeside (Program Refute) found.now (map (λ input. input.now) inputs.now) }
    requires given { map (λ input. input.now) inputs.now ≡ named found.now (inputs_given Refute found.now) }
    ensures { MatchResult result (IsRefuteGiven found.now)
        (IsRefused (Program Refute) found.now) }
{
    let out = result_of(CommandName::Program(ProgramCommand::Refute), found, inputs)?;
    let options = refute_options(found)?;
    Ok(Task::Refute { out, options })
}

/// To propose a declaration, or to complete one.
fn declare_task<'a>(
    found: &ArgMatches<'a>,
    inputs: &[&'a str],
) -> Result<Task<'a>, CommandLineFault>
    requires inputs { AreInputsBeside (Program Declare) found.now (map (λ input. input.now) inputs.now) }
    requires given { map (λ input. input.now) inputs.now ≡ named found.now (inputs_given Declare found.now) }
    ensures { MatchResult result (IsDeclareGiven found.now)
        (IsRefused (Program Declare) found.now) }
{
    let out = result_of(CommandName::Program(ProgramCommand::Declare), found, inputs)?;
    let options = declare_options(found)?;
    let refinements = refinements_of(found);
    Ok(Task::Declare {
        out,
        options,
        refinements,
    })
}

/// To write what a certificate says.
fn report_task<'a>(
    found: &ArgMatches<'a>,
    operands: &Operands<'a>,
    inputs: &[&'a str],
) -> Result<Task<'a>, CommandLineFault>
    requires inputs { AreInputsBeside (Program Report) found.now (map (λ input. input.now) inputs.now) }
    requires given { map (λ input. input.now) inputs.now ≡ named found.now (inputs_given Report found.now) }
    ensures { MatchResult result (IsReportGiven found.now (last_of operands.now))
        (IsRefused (Program Report) found.now) }
{
    let out = result_of(CommandName::Program(ProgramCommand::Report), found, inputs)?;
    let certificate = name_or_input(&operands.last);
    Ok(Task::Report {
        certificate,
        out,
        text: is_given(found, "text"),
    })
}

/// The name of a file; standard input without one.
fn name_or_input<'a>(name: &Option<&'a str>) -> &'a str
    ensures { result.now ≡ unwrap_or (option_map (λ it. it.now) name.now) (codes "-") }
{
    match name {
        Some(it) => it,
        None => "-",
    }
}

/// What a command asks for whose operands are these, with these inputs and without an operator.
fn task_of<'a>(
    called: ProgramCommand,
    found: &ArgMatches<'a>,
    operands: &Operands<'a>,
    inputs: &[&'a str],
    followed: WatchedRunOptions,
) -> Result<Task<'a>, CommandLineFault>
    requires inputs { AreInputsBeside (Program called) found.now (map (λ input. input.now) inputs.now) }
    requires given { map (λ input. input.now) inputs.now ≡ named found.now (inputs_given called found.now) }
    requires operated { IsOperated called found.now false }
    ensures { MatchResult result (IsTaskGiven called found.now operands.now followed)
        (IsRefused (Program called) found.now) }
{
    match called {
        ProgramCommand::Verify => verify_task(found, operands, inputs),
        ProgramCommand::Watch => Ok(Task::Watch {
            events: name_or_input(&operands.last),
            show: followed.show,
            stopping: followed.stopping,
        }),
        ProgramCommand::Guess => guess_task(found, operands, inputs),
        ProgramCommand::Refute => refute_task(found, inputs),
        ProgramCommand::Declare => declare_task(found, inputs),
        ProgramCommand::Report => report_task(found, operands, inputs),
        ProgramCommand::Check => Ok(Task::Check {
            certificate: name_or_input(&operands.last),
        }),
    }
}

/// What is shown of a watched run, and where it is stopped.
#[derive(Clone, Copy)]
struct WatchedRunOptions {
    show: WordSet,
    stopping: Option<StopOptions>,
}

/// What is shown of a watched run of a tape, and where it is stopped. Of a source that is not known yet.
fn followed_on(
    found: &ArgMatches<'_>,
    operands: &Operands<'_>,
    places: &PlaceOptions<'_>,
) -> Result<WatchedRunOptions, CommandLineFault>
    requires places { ArePlacesGiven found.now places.now }
    requires tape { is_tape operands.now.program ≡ true → sources_given found.now ≡ None }
    ensures { MatchResult result (IsFollowedOn operands.now.program places.now)
        (IsRefusedByAny found.now) }
{
    let tape = operands.program.tape();
    let show = shown_on(found, tape, places)?;
    let stopping = stopping_on(found, tape, places)?;
    Ok(WatchedRunOptions { show, stopping })
}

/// Whether a command is `watch` with an operator.
fn is_operated(called: ProgramCommand, found: &ArgMatches<'_>) -> bool
    ensures { IsOperated called found.now result }
{
    match called {
        ProgramCommand::Watch => is_watched_with_operator(found),
        _ => false,
    }
}

/// What a command asks for whose operands are these.
fn task_on<'a>(
    alloc: Global,
    called: ProgramCommand,
    found: &ArgMatches<'a>,
    operands: &Operands<'a>,
    followed: WatchedRunOptions,
) -> Result<Task<'a>, CommandLineFault>
    ensures given { IfOk result (IsTaskGiven called found.now operands.now followed) }
    ensures once { IfOk result (λ task. AreReadAtMost 1 found.now (inputs_given called found.now)) }
    ensures start { IfOk result (λ task. IsStartOnce found.now) }
    ensures refused { IfErr result (IsRefused (Program called) found.now) }
{
    let inputs = read_once(alloc, found, input_names(called, is_sourced(found)))?;
    start_once(found)?;
    if is_operated(called, found) {
        let session = watched_session_of(found, operands, followed)?;
        return Ok(Task::WatchSession(session));
    }
    task_of(called, found, operands, &inputs, followed)
}

/// The request of a command on a program and its declaration.
pub(crate) fn program_request<'a>(
    alloc: Global,
    called: ProgramCommand,
    found: &ArgMatches<'a>,
) -> Result<ProgramRequest<'a>, CommandLineFault>
    ensures { MatchResult result (IsProgramRequestGiven called found.now)
        (IsRefused (Program called) found.now) }
{
    let operands = operands_of(alloc, called, found)?;
    let places = places_of(alloc, found)?;
    let followed = followed_on(found, &operands, &places)?;
    let task = task_on(alloc, called, found, &operands, followed)?;
    let Operands {
        program,
        declaration,
        ..
    } = operands;
    Ok(ProgramRequest {
        program,
        declaration,
        task,
        places,
        asked: is_start_named(found),
        explained: is_given(found, "why"),
    })
}

/// The request for the declaration of a source in numbers.
pub(crate) fn place_request<'a>(
    alloc: Global,
    found: &ArgMatches<'a>,
) -> Result<ProgramRequest<'a>, CommandLineFault>
    ensures { MatchResult result (IsPlaceGiven found.now) (IsRefused Place found.now) }
{
    let inputs = read_once(alloc, found, placed_operands(found))?;
    let names = source_names(alloc, found)?;
    let out = result_of(CommandName::Place, found, &inputs)?;
    let places = places_of(alloc, found)?;
    Ok(ProgramRequest {
        program: ProgramNames::Source(names),
        declaration: found.get_str("declaration"),
        task: Task::Place { out },
        places,
        asked: false,
        explained: is_given(found, "why"),
    })
}
