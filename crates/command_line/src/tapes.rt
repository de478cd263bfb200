//! What may be requested with a tape alone, or with a certificate alone.

ghost use Rattle.std.specs.Prelude.{◌≡◌, IfErr, IfOk, MatchResult, Some, codes, is_some, option_map};
ghost use Rattle.command_line.specs.Machines.{IsDumpGiven, IsMigrateGiven, IsRunGiven, IsSourceGiven, migrated_version, tape_given, version_with};
ghost use Rattle.command_line.specs.Refusals.{IsRefused, IsRefusedByAny};
ghost use Rattle.command_line.specs.Options.{ArePlacesGiven, value, value_or};
ghost use Rattle.command_line.specs.declared.command_name.CommandName.TheVariants.{Machine, Migrate, Source};
ghost use Rattle.command_line.specs.declared.command_name.MachineCommand.TheVariants.{Run};

use crate::command_name::CommandName;
use crate::fault::{CommandLineFault, Misuse};
use crate::names::FileNames;
use crate::outputs::{Destination, result_of};
use crate::place_options::{PlaceOptions, StopOptions, shown_on, stopping_on};
use crate::values::{
    is_given, operand_of, profile_of, read_once, run_options, start_of, start_once, value_or,
};
use clap::ArgMatches;
use command_parts::options::RunOptions;
use instruct::Profile;
use std::alloc::Global;
use word12::Word;
use wordset::WordSet;

/// To run a tape.
#[derive(Clone, Copy)]
pub struct RunRequest<'a> {
    /// The name of the tape's file, unless a source takes its place.
    pub tape: Option<&'a str>,
    /// The name of the file of events that stand in place of rounds.
    pub events: Option<&'a str>,
    /// How it is run.
    pub options: RunOptions,
    /// How it is followed, if it may be stopped or its last instructions are requested.
    pub stopping: Option<StopOptions>,
    /// Whether a long line is written for each instruction.
    pub long: bool,
}

impl<'a> RunRequest<'a> {
    pub(crate) fn names(&self) -> FileNames<'a> {
        FileNames {
            tape: self.tape,
            events: self.events,
            output: Some("-"),
            ..FileNames::NONE
        }
    }
}

/// The name of the tape's file, unless a source takes its place.
pub(crate) fn tape_of<'a>(found: &ArgMatches<'a>) -> Option<&'a str>
    ensures { option_map (λ name. name.now) result ≡ tape_given found.now }
{
    match found.get_strs("source") {
        None => Some(operand_of(found, "TAPE")),
        Some(_) => None,
    }
}

/// The run of a tape without an operator. Of a source the cells that are shown and the stops are not known yet.
pub(crate) fn run_request<'a>(
    alloc: Global,
    found: &ArgMatches<'a>,
    tape: Option<&'a str>,
    places: &PlaceOptions<'a>,
) -> Result<RunRequest<'a>, CommandLineFault>
    requires tape { option_map (λ name. name.now) tape ≡ tape_given found.now }
    requires places { ArePlacesGiven found.now places.now }
    ensures { MatchResult result (IsRunGiven found.now places.now) (IsRefused (Machine Run) found.now) }
{
    read_once(alloc, found, &["source", "TAPE", "events"])?;
    let long = is_given(found, "trace-long");
    if long && is_given(found, "trace") {
        return Err(CommandLineFault::Misuse(Misuse::LongTrace));
    }
    let show = shown_on(found, tape, places)?;
    let options = run_options(found, show)?;
    let stopping = stopping_on(found, tape, places)?;
    Ok(RunRequest {
        tape,
        events: found.get_str("events"),
        options,
        stopping,
        long,
    })
}

/// To list the words of a tape.
#[derive(Clone, Copy)]
pub struct DumpRequest<'a> {
    /// The name of the tape's file, unless a source takes its place.
    pub tape: Option<&'a str>,
    /// Whose names the words have.
    pub profile: Profile,
    /// Whether memory references are written with their whole addresses; those of a source are in any case.
    pub full: bool,
}

impl<'a> DumpRequest<'a> {
    pub(crate) fn names(&self) -> FileNames<'a> {
        FileNames {
            tape: self.tape,
            output: Some("-"),
            ..FileNames::NONE
        }
    }
}

/// The list of words that is requested.
pub(crate) fn dump_request<'a>(
    alloc: Global,
    found: &ArgMatches<'a>,
    tape: Option<&'a str>,
) -> Result<DumpRequest<'a>, CommandLineFault>
    requires tape { option_map (λ name. name.now) tape ≡ tape_given found.now }
    ensures { MatchResult result (IsDumpGiven found.now) (IsRefusedByAny found.now) }
{
    read_once(alloc, found, &["source", "TAPE"])?;
    let profile = profile_of(found)?;
    let full = is_given(found, "full");
    Ok(DumpRequest {
        tape,
        profile,
        full,
    })
}

/// To write a source of a tape.
#[derive(Clone, Copy)]
pub struct SourceRequest<'a> {
    /// The name of the tape's file.
    pub tape: &'a str,
    /// Where the source goes.
    pub out: Destination<'a>,
    /// Whether a file is replaced even if it was not written by the command.
    pub forced: bool,
    /// The name of the declaration's file, if there is one.
    pub declaration: Option<&'a str>,
    /// Where the program starts, without a declaration.
    pub start: Word,
    /// For which machine it is, without a declaration.
    pub profile: Profile,
}

impl<'a> SourceRequest<'a> {
    pub(crate) fn names(&self) -> FileNames<'a> {
        FileNames {
            tape: Some(self.tape),
            declaration: self.declaration,
            output: Some(self.out.name()),
            ..FileNames::NONE
        }
    }
}

/// The source that is requested.
pub(crate) fn source_request<'a>(
    alloc: Global,
    found: &ArgMatches<'a>,
) -> Result<SourceRequest<'a>, CommandLineFault>
    ensures { MatchResult result (IsSourceGiven found.now) (IsRefused Source found.now) }
{
    let inputs = read_once(alloc, found, &["TAPE", "declaration"])?;
    start_once(found)?;
    let out = result_of(CommandName::Source, found, &inputs)?;
    let start = start_of(found)?;
    let profile = profile_of(found)?;
    Ok(SourceRequest {
        tape: operand_of(found, "TAPE"),
        out,
        forced: is_given(found, "force"),
        declaration: found.get_str("declaration"),
        start,
        profile,
    })
}

/// To migrate a certificate.
#[derive(Clone, Copy)]
pub struct MigrateRequest<'a> {
    /// The name of the certificate's file.
    pub certificate: &'a str,
    /// The name of the declaration's file, if the certificate is to be of version 3; else it is to be of version 2.
    pub declaration: Option<&'a str>,
    /// Where the migrated certificate goes.
    pub out: Destination<'a>,
}

impl<'a> MigrateRequest<'a> {
    pub(crate) fn names(&self) -> FileNames<'a> {
        FileNames {
            declaration: self.declaration,
            certificate: Some(self.certificate),
            output: Some(self.out.name()),
            ..FileNames::NONE
        }
    }
}

/// Whether this text asks for version 3 of a certificate, and not for version 2.
fn is_third_named(text: &str) -> Option<bool>
    ensures { option_map version_with result ≡ migrated_version text.now }
{
    match text {
        "2" => Some(false),
        "3" => Some(true),
        _ => None,
    }
}

/// The name of the declaration's file, which is given if version 3 is requested, and only then.
fn declaration_of_sites<'a>(found: &ArgMatches<'a>) -> Result<Option<&'a str>, CommandLineFault>
    ensures named { IfOk result (λ name. option_map (λ it. it.now) name ≡
        value found.now (codes "declaration")) }
    ensures version { IfOk result (λ name.
        migrated_version (value_or found.now (codes "certificate") (codes "2")) ≡
        Some (version_with (is_some name))) }
    ensures refused { IfErr result (IsRefused Migrate found.now) }
{
    let declaration = found.get_str("declaration");
    let Some(is_third) = is_third_named(value_or(found, "certificate", "2")) else {
        return Err(CommandLineFault::Misuse(Misuse::Version));
    };
    if declaration.is_some() != is_third {
        return Err(CommandLineFault::Misuse(Misuse::VersionAndDeclaration));
    }
    Ok(declaration)
}

/// The certificate in another version that is requested.
pub(crate) fn migrate_request<'a>(
    alloc: Global,
    found: &ArgMatches<'a>,
) -> Result<MigrateRequest<'a>, CommandLineFault>
    ensures { MatchResult result (IsMigrateGiven found.now) (IsRefused Migrate found.now) }
{
    let declaration = declaration_of_sites(found)?;
    let inputs = read_once(alloc, found, &["CERTIFICATE", "declaration"])?;
    let out = result_of(CommandName::Migrate, found, &inputs)?;
    Ok(MigrateRequest {
        certificate: operand_of(found, "CERTIFICATE"),
        declaration,
        out,
    })
}
