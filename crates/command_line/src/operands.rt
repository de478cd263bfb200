//! The operands of commands on a program and its declaration: those of a tape, or those that stand after a source. It is
//! proved that they are the words that were given.

ghost use Rattle.std.specs.Prelude.{◌≡◌, ◌++◌, IfErr, IfOk, MatchResult, None, Some, codes, false, is_some, map, option_map, true};
ghost use Rattle.std.specs.List.{list_any};
ghost use Rattle.std.specs.Str.{bytes_eq};
ghost use Rattle.command_line.specs.Options.{IsWatchedWithOperator, has_value, sources_given, value};
ghost use Rattle.command_line.specs.Refusals.{IsRefused, are_distinct, has_result_behind, needs_output, result_options};
ghost use Rattle.command_line.specs.Requests.{AreOperandsGiven, declaration_behind, declaration_given, declaration_of_source, has_more_operands, input_names, last_behind, last_name, last_with_tape, takes_declaration, takes_second};
ghost use Rattle.command_line.specs.declared.command_name.CommandName.TheVariants.{Program};

use crate::fault::{CommandLineFault, Misuse};
use crate::operator::is_watched_with_operator;
use crate::program_command::{ProgramCommand, is_search};
use crate::programs::ProgramNames;
use crate::values::{copied, has_any, has_value, operand_of, start_once};
use clap::ArgMatches;
use std::alloc::Global;

/// The operands of a command that are inputs: the program's, that of its declaration, and the last one that the command
/// needs, if there is one.
#[derive(Drop)]
pub(crate) struct Operands<'a> {
    pub(crate) program: ProgramNames<'a>,
    pub(crate) declaration: Option<&'a str>,
    pub(crate) last: Option<&'a str>,
}

/// The operands that stand after a source: a declaration, if there is one, and the last one, if the command
/// needs it.
#[derive(Clone, Copy)]
struct OperandsAfterSource<'a> {
    declaration: Option<&'a str>,
    last: Option<&'a str>,
}

/// The name of the input that a command needs after the declaration, if it needs one. A run that is watched with an
/// operator needs none.
fn last_name(called: ProgramCommand, operated: bool) -> Option<&'static str>
    ensures { option_map (λ name. name.now) result ≡ last_name operated called }
{
    match called {
        ProgramCommand::Check => Some("CERTIFICATE"),
        ProgramCommand::Report => Some("CERTIFICATE"),
        ProgramCommand::Watch if !operated => Some("EVENTS"),
        _ => None,
    }
}

/// The names of the operands and options that give the inputs of a command, with a source or with a tape.
pub(crate) fn input_names(called: ProgramCommand, is_sourced: bool) -> &'static [&'static str]
    ensures given { map (λ name. name.now) result.now ≡ input_names called is_sourced }
    ensures distinct { are_distinct (result_options ++ map (λ name. name.now) result.now) ≡ true }
    ensures no_result { list_any (bytes_eq (codes "OUT")) (map (λ name. name.now) result.now) ≡ false }
{
    match called {
        ProgramCommand::Declare if is_sourced => &["source", "from"],
        ProgramCommand::Declare => &["TAPE", "from"],
        ProgramCommand::Watch if is_sourced => &["source", "TAPE", "DECLARATION", "reader", "keys"],
        ProgramCommand::Watch => &["TAPE", "DECLARATION", "EVENTS", "reader", "keys"],
        ProgramCommand::Check | ProgramCommand::Report if is_sourced => {
            &["source", "TAPE", "DECLARATION"]
        }
        ProgramCommand::Check | ProgramCommand::Report => &["TAPE", "DECLARATION", "CERTIFICATE"],
        _ if is_sourced => &["source", "TAPE"],
        _ => &["TAPE", "DECLARATION"],
    }
}

/// The operands that stand after a source, where these two are given and the last one is needed or not.
fn operands_behind<'a>(
    is_needed: bool,
    first: Option<&'a str>,
    second: Option<&'a str>,
) -> OperandsAfterSource<'a>
    ensures declaration { option_map (λ name. name.now) result.declaration ≡
        declaration_behind is_needed (option_map (λ name. name.now) first.entry)
        (option_map (λ name. name.now) second.entry) }
    ensures last { option_map (λ name. name.now) result.last ≡
        last_behind is_needed (option_map (λ name. name.now) first.entry)
        (option_map (λ name. name.now) second.entry) }
{
    if !is_needed {
        return OperandsAfterSource {
            declaration: first,
            last: None,
        };
    }
    match second {
        None => OperandsAfterSource {
            declaration: None,
            last: first,
        },
        Some(last) => OperandsAfterSource {
            declaration: first,
            last: Some(last),
        },
    }
}

/// Whether the result of a command with a source has no place to go: that is the value of `-o`, or of a search the second
/// of two operands. A single operand might be meant for the declaration.
fn lacks_output(called: ProgramCommand, found: &ArgMatches<'_>) -> bool
    ensures { result ≡ true → (needs_output called ≡ true)
        × (has_value found.now (codes "output") ≡ false)
        × (has_result_behind called found.now ≡ false) }
{
    if has_value(found, "output") {
        return false;
    }
    match called {
        ProgramCommand::Report => true,
        ProgramCommand::Guess | ProgramCommand::Refute | ProgramCommand::Declare => {
            let second = has_any(found, &["DECLARATION", "CERTIFICATE", "EVENTS", "OUT"]);
            !(has_value(found, "TAPE") && second)
        }
        _ => false,
    }
}

/// Whether a command takes a declaration after a source.
fn takes_declaration(called: ProgramCommand) -> bool
    ensures { result ≡ takes_declaration called }
{
    match called {
        ProgramCommand::Declare => false,
        _ => true,
    }
}

/// Whether a command takes two operands after a source: the second one is the last input that it needs, or the result of
/// a search without `-o`.
fn takes_second(called: ProgramCommand, operated: bool, found: &ArgMatches<'_>) -> bool
    ensures { result ≡ takes_second called operated found.now }
{
    let has_result = is_search(called) && !has_value(found, "output");
    has_result || last_name(called, operated).is_some()
}

/// Whether there are more operands after a source than a command takes, with a second one or without. clap has taken
/// them for those of a tape.
fn has_more_operands(called: ProgramCommand, second: bool, found: &ArgMatches<'_>) -> bool
    ensures { result ≡ has_more_operands called second found.now }
{
    let third = has_any(found, &["CERTIFICATE", "EVENTS", "OUT"]);
    let is_second_more = !second && has_value(found, "DECLARATION");
    let is_first_more = !takes_declaration(called) && has_value(found, "TAPE");
    third || is_second_more || is_first_more
}

/// Ensures that the words after a source are operands that a command takes, and that the last input is there, if the
/// command needs one.
fn check_operands(
    called: ProgramCommand,
    operated: bool,
    found: &ArgMatches<'_>,
) -> Result<(), CommandLineFault>
    requires sourced { is_some (sources_given found.now) ≡ true }
    requires operated { IsWatchedWithOperator found.now operated }
    ensures others { IfOk result (λ _.
        has_more_operands called (takes_second called operated found.now) found.now ≡ false) }
    ensures refused { IfErr result (IsRefused (Program called) found.now) }
{
    if lacks_output(called, found) {
        return Err(CommandLineFault::Misuse(Misuse::NoOutput));
    }
    if has_more_operands(called, takes_second(called, operated, found), found) {
        return Err(CommandLineFault::Misuse(Misuse::TapeAndSource));
    }
    match last_name(called, operated) {
        Some(name) if !has_value(found, "TAPE") => Err(CommandLineFault::NoOperand(name)),
        _ => Ok(()),
    }
}

/// The declaration of a command with a source, of which this one stands after the source.
fn source_declaration<'a>(
    called: ProgramCommand,
    found: &ArgMatches<'a>,
    behind: Option<&'a str>,
) -> Option<&'a str>
    ensures { option_map (λ name. name.now) result ≡ declaration_of_source called found.now
        (option_map (λ name. name.now) behind.entry) }
{
    match called {
        ProgramCommand::Declare => found.get_str("from"),
        _ => behind,
    }
}

/// The operands of a command with `--source`, which gives these parts.
fn source_operands<'a>(
    alloc: Global,
    called: ProgramCommand,
    found: &ArgMatches<'a>,
    parts: &[&'a str],
) -> Result<Operands<'a>, CommandLineFault>
    requires { sources_given found.now ≡ Some (map (λ name. name.now) parts.now) }
    ensures { MatchResult result (AreOperandsGiven called found.now)
        (IsRefused (Program called) found.now) }
{
    let operated = is_watched_with_operator(found);
    let needed = last_name(called, operated);
    check_operands(called, operated, found)?;
    let first = found.get_str("TAPE");
    let second = found.get_str("DECLARATION");
    let behind = operands_behind(needed.is_some(), first, second);
    let declaration = source_declaration(called, found, behind.declaration);
    start_once(found)?;
    Ok(Operands {
        program: ProgramNames::Source(copied(alloc, parts)?),
        declaration,
        last: behind.last,
    })
}

/// The declaration of a command with a tape.
fn tape_declaration<'a>(called: ProgramCommand, found: &ArgMatches<'a>) -> Option<&'a str>
    ensures { option_map (λ name. name.now) result ≡ declaration_given called found.now }
{
    match called {
        ProgramCommand::Verify => found.get_str("DECLARATION"),
        ProgramCommand::Declare => found.get_str("from"),
        _ => Some(operand_of(found, "DECLARATION")),
    }
}

/// The last operand of a command with a tape, if the command needs one.
fn tape_last<'a>(called: ProgramCommand, found: &ArgMatches<'a>) -> Option<&'a str>
    ensures { option_map (λ name. name.now) result ≡ last_with_tape called found.now }
{
    match called {
        ProgramCommand::Check => found.get_str("CERTIFICATE"),
        ProgramCommand::Report => found.get_str("CERTIFICATE"),
        ProgramCommand::Watch => found.get_str("EVENTS"),
        _ => None,
    }
}

/// Ensures that a run of a tape that is watched has a list of events, or an operator.
fn check_events(called: ProgramCommand, found: &ArgMatches<'_>) -> Result<(), CommandLineFault>
    requires { sources_given found.now ≡ None }
    ensures { IfErr result (IsRefused (Program called) found.now) }
{
    match called {
        ProgramCommand::Watch if !has_value(found, "EVENTS") => {
            if is_watched_with_operator(found) {
                return Ok(());
            }
            Err(CommandLineFault::Misuse(Misuse::NoEvents))
        }
        _ => Ok(()),
    }
}

/// The operands of a command with a tape.
fn tape_operands<'a>(
    called: ProgramCommand,
    found: &ArgMatches<'a>,
) -> Result<Operands<'a>, CommandLineFault>
    requires { sources_given found.now ≡ None }
    ensures { MatchResult result (AreOperandsGiven called found.now)
        (IsRefused (Program called) found.now) }
{
    check_events(called, found)?;
    Ok(Operands {
        program: ProgramNames::Tape(operand_of(found, "TAPE")),
        declaration: tape_declaration(called, found),
        last: tape_last(called, found),
    })
}

/// The operands of a command on a program and its declaration.
pub(crate) fn operands_of<'a>(
    alloc: Global,
    called: ProgramCommand,
    found: &ArgMatches<'a>,
) -> Result<Operands<'a>, CommandLineFault>
    ensures { MatchResult result (AreOperandsGiven called found.now)
        (IsRefused (Program called) found.now) }
{
    match found.get_strs("source") {
        Some(parts) => source_operands(alloc, called, found, parts),
        None => tape_operands(called, found),
    }
}
