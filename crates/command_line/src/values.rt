//! The values of options and operands that several commands have.

ghost use Rattle.std.specs.Prelude.{◌≡◌, ◌≤◌, ◌||◌, IfErr, IfOk, MatchResult, Ok, Some, is_some, map, codes};
ghost use Rattle.std.specs.List.{count_by, list_any};
ghost use Rattle.command_line.specs.Inputs.{AreReadAtMost};
ghost use Rattle.command_line.specs.Outputs.{is_standard_input};
ghost use Rattle.command_line.specs.Refusals.{AreInputs, AreOfInputs, IsRefused, IsRefusedByAny, IsRefusedWithin};
ghost use Rattle.command_line.specs.declared.command_name.CommandName.TheVariants.{Machine};
ghost use Rattle.command_line.specs.declared.command_name.MachineCommand.TheVariants.{Teletype};
ghost use Rattle.command_line.specs.Options.{AreDeclareOptions, AreRefinements, AreRefuteOptions, AreRunOptions, AreVerifyOptions, IsFlagGiven, IsNumberNamed, IsStartOnce, has_value, is_declared, is_start_named, machine_given, machine_named, named, number_or, operand, sources_given, start_given, value, value_or, values};

use crate::fault::{CommandLineFault, Misuse};
use clap::ArgMatches;
use command_parts::options::{
    DeclareOptions, Refinements, RefuteOptions, RunOptions, VerifyOptions,
};
use instruct::Profile;
use std::alloc::{AllocError, Global};
use streams::text::decimal_between;
use word12::Word;
use wordset::WordSet;

/// How many rounds are made without `--steps`.
const ROUNDS: u32 = 100_000;

/// The most rounds that may be requested.
const MOST_ROUNDS: u32 = 1_000_000;

/// How often CONTINUE may be pressed at most.
const MOST_CONTINUES: u32 = 1_000_000;

/// How many steps a search for a run makes without `--steps`.
const SEARCH_STEPS: u32 = 20_000_000;

/// The most steps that may be requested of a search.
const MOST_SEARCH_STEPS: u32 = 100_000_000;

/// The seed of a search without `--seed`.
const SEED: u32 = 1;

/// The greatest seed.
const MOST_SEED: u32 = 99_999_999;

/// The value of an option, and another text where it is left out.
pub(crate) fn value_or<'a>(found: &ArgMatches<'a>, name: &str, otherwise: &'a str) -> &'a str
    ensures { result.now ≡ value_or found.now name.now otherwise.now }
{
    match found.get_str(name) {
        Some(value) => value,
        None => otherwise,
    }
}

/// The value of an operand; one that is left out is `-`, which stands for standard input.
pub(crate) fn operand_of<'a>(found: &ArgMatches<'a>, name: &str) -> &'a str
    ensures { result.now ≡ operand found.now name.now }
{
    value_or(found, name, "-")
}

/// Whether an option or an operand has a value.
pub(crate) fn has_value(found: &ArgMatches<'_>, name: &str) -> bool
    ensures { result ≡ is_some (value found.now name.now) }
{
    match found.get_str(name) {
        Some(_) => true,
        None => false,
    }
}

/// Whether an option without a value is given.
pub(crate) fn is_given(found: &ArgMatches<'_>, name: &str) -> bool
    ensures { IsFlagGiven found.now name.now result }
{
    found.get_flag(name)
}

/// Whether one of these options or operands has a value.
pub(crate) fn has_any(found: &ArgMatches<'_>, names: &[&str]) -> bool
    ensures { result ≡ list_any (λ name. has_value found.now name.now) names.now }
{
    names.iter().any(|name| has_value(found, name))
}

/// The values of an option or an operand that may have several.
pub(crate) fn values_of<'a>(
    alloc: Global,
    found: &ArgMatches<'a>,
    name: &str,
) -> Result<Vec<&'a str>, AllocError>
    ensures { IfOk result (λ texts. map (λ text. text.now) texts.items ≡
        values found.now name.now) }
{
    match found.get_strs(name) {
        Some(texts) => copied(alloc, texts),
        None => Ok(Vec::new(alloc)),
    }
}

/// These names in a list of its own.
pub(crate) fn copied<'a>(alloc: Global, names: &[&'a str]) -> Result<Vec<&'a str>, AllocError>
    ensures { IfOk result (λ copy. copy.items ≡ names.now) }
{
    let mut copy = Vec::new(alloc);
    copy.extend_from_slice(names)?;
    Ok(copy)
}

/// The names of the files that these operands and options give, in this order.
pub(crate) fn inputs_of<'a>(
    alloc: Global,
    found: &ArgMatches<'a>,
    names: &[&str],
) -> Result<Vec<&'a str>, AllocError>
    ensures { IfOk result (λ inputs. map (λ input. input.now) inputs.items ≡
        named found.now (map (λ name. name.now) names.now)) }
{
    let mut inputs = Vec::new(alloc);
    for name in names {
        inputs.extend_from_slice(&values_of(alloc, found, name)?)?;
    }
    Ok(inputs)
}

/// The machine of a name.
fn machine_named(name: &str) -> Option<Profile>
    ensures { result ≡ machine_named name.now }
{
    match name {
        "8i" => Some(Profile::Pdp8I),
        "8e" => Some(Profile::Pdp8E),
        _ => None,
    }
}

/// The machine that is meant.
pub(crate) fn profile_of(found: &ArgMatches<'_>) -> Result<Profile, CommandLineFault>
    ensures { MatchResult result (λ machine. machine_given found.now ≡ Some machine) (IsRefusedByAny found.now) }
{
    match machine_named(value_or(found, "profile", "8i")) {
        Some(machine) => Ok(machine),
        None => Err(CommandLineFault::Misuse(Misuse::Profile)),
    }
}

/// The address of the first instruction.
pub(crate) fn start_of(found: &ArgMatches<'_>) -> Result<Word, CommandLineFault>
    ensures { MatchResult result (λ start. start_given found.now ≡ Ok start) (IsRefusedByAny found.now) }
{
    match Word::from_octal(value_or(found, "start", "0200").as_bytes()) {
        Ok(start) => Ok(start),
        Err(fault) => Err(CommandLineFault::Start(fault)),
    }
}

/// Whether a start or a machine is named.
pub(crate) fn is_start_named(found: &ArgMatches<'_>) -> bool
    ensures { result ≡ is_start_named found.now }
{
    has_value(found, "start") || has_value(found, "profile")
}

/// The number between two others that an option spells; another number where it is left out.
fn number_or(
    found: &ArgMatches<'_>,
    name: &str,
    least: u32,
    most: u32,
    otherwise: u32,
) -> Option<u32>
    requires { most ≤ 100000000 }
    ensures { result ≡ number_or least most otherwise (value found.now name.now) }
{
    match found.get_str(name) {
        None => Some(otherwise),
        Some(text) => decimal_between(least, most, text.as_bytes()),
    }
}

/// How often CONTINUE is pressed at declared pauses at most, if it may be.
pub(crate) fn continues_of(found: &ArgMatches<'_>) -> Result<Option<u32>, CommandLineFault>
    ensures { MatchResult result (IsNumberNamed 1 1000000 (value found.now (codes "continue"))) (IsRefusedByAny found.now) }
{
    match found.get_str("continue") {
        None => Ok(None),
        Some(text) => match decimal_between(1, MOST_CONTINUES, text.as_bytes()) {
            Some(times) => Ok(Some(times)),
            None => Err(CommandLineFault::Misuse(Misuse::Continue)),
        },
    }
}

/// How a tape is run whose run shows these cells.
pub(crate) fn run_options(
    found: &ArgMatches<'_>,
    show: WordSet,
) -> Result<RunOptions, CommandLineFault>
    ensures options { IfOk result (AreRunOptions found.now) }
    ensures shown { IfOk result (λ options. options.show ≡ show) }
    ensures refused { IfErr result (IsRefusedWithin 1000000 found.now) }
{
    let start = start_of(found)?;
    let Some(rounds) = number_or(found, "steps", 1, MOST_ROUNDS, ROUNDS) else {
        return Err(CommandLineFault::Steps(MOST_ROUNDS));
    };
    let profile = profile_of(found)?;
    Ok(RunOptions {
        start,
        rounds,
        trace: is_given(found, "trace"),
        profile,
        show,
    })
}

/// What a declaration is proposed for.
pub(crate) fn declare_options(found: &ArgMatches<'_>) -> Result<DeclareOptions, CommandLineFault>
    ensures { MatchResult result (AreDeclareOptions found.now) (IsRefusedByAny found.now) }
{
    let start = start_of(found)?;
    let profile = profile_of(found)?;
    Ok(DeclareOptions {
        start,
        profile,
        reads: is_given(found, "reads"),
    })
}

/// What is made of a declaration for which a certificate is found.
pub(crate) fn refinements_of(found: &ArgMatches<'_>) -> Refinements
    ensures { AreRefinements found.now result }
{
    Refinements {
        tight: is_given(found, "tight"),
        exits: is_given(found, "exits"),
    }
}

/// How a run that violates a declaration is searched for.
pub(crate) fn refute_options(found: &ArgMatches<'_>) -> Result<RefuteOptions, CommandLineFault>
    ensures { MatchResult result (AreRefuteOptions found.now) (IsRefusedWithin 100000000 found.now) }
{
    let Some(steps) = number_or(found, "steps", 1, MOST_SEARCH_STEPS, SEARCH_STEPS) else {
        return Err(CommandLineFault::Steps(MOST_SEARCH_STEPS));
    };
    let Some(seed) = number_or(found, "seed", 0, MOST_SEED, SEED) else {
        return Err(CommandLineFault::Misuse(Misuse::Seed));
    };
    Ok(RefuteOptions {
        steps,
        seed,
        explained: is_given(found, "why"),
    })
}

/// How it is found out whether a program complies with its declaration.
pub(crate) fn verify_options(found: &ArgMatches<'_>) -> Result<VerifyOptions, CommandLineFault>
    ensures { MatchResult result (AreVerifyOptions found.now) (IsRefusedWithin 100000000 found.now) }
{
    let start = start_of(found)?;
    let profile = profile_of(found)?;
    let search = refute_options(found)?;
    Ok(VerifyOptions {
        start,
        profile,
        search,
    })
}

/// Whether an input of this name is standard input.
fn is_standard_input(name: &str) -> bool
    ensures { result ≡ is_standard_input name.now }
{
    name == "-" || name == "/dev/stdin"
}

/// How many of these inputs are standard input.
fn standard_inputs(names: &[&str]) -> usize
    ensures { result ≡ count_by is_standard_input (map (λ name. name.now) names.now) }
{
    names.iter().filter(|name| is_standard_input(name)).count()
}

/// The names of the files that these operands and options give, of which one may be standard input.
pub(crate) fn read_once<'a>(
    alloc: Global,
    found: &ArgMatches<'a>,
    names: &[&str],
) -> Result<Vec<&'a str>, CommandLineFault>
    requires names { AreOfInputs found.now (map (λ name. name.now) names.now) }
    ensures given { IfOk result (λ inputs. map (λ input. input.now) inputs.items ≡
        named found.now (map (λ name. name.now) names.now)) }
    ensures are { IfOk result (λ inputs.
        AreInputs found.now (map (λ input. input.now) inputs.items)) }
    ensures once { IfOk result (λ inputs.
        AreReadAtMost 1 found.now (map (λ name. name.now) names.now)) }
    ensures refused { IfErr result (IsRefusedByAny found.now) }
{
    let inputs = inputs_of(alloc, found, names)?;
    if standard_inputs(&inputs) > 1 {
        return Err(CommandLineFault::Misuse(Misuse::BothStandardInput));
    }
    Ok(inputs)
}

/// The same beside the keys of a session at the teletype, which are standard input.
pub(crate) fn read_beside_keys<'a>(
    alloc: Global,
    found: &ArgMatches<'a>,
    names: &[&str],
) -> Result<Vec<&'a str>, CommandLineFault>
    requires names { AreOfInputs found.now (map (λ name. name.now) names.now) }
    ensures given { IfOk result (λ inputs. map (λ input. input.now) inputs.items ≡
        named found.now (map (λ name. name.now) names.now)) }
    ensures are { IfOk result (λ inputs.
        AreInputs found.now (map (λ input. input.now) inputs.items)) }
    ensures none { IfOk result (λ inputs.
        AreReadAtMost 0 found.now (map (λ name. name.now) names.now)) }
    ensures refused { IfErr result (IsRefused (Machine Teletype) found.now) }
{
    let inputs = inputs_of(alloc, found, names)?;
    if standard_inputs(&inputs) > 0 {
        return Err(CommandLineFault::Misuse(Misuse::BothStandardInput));
    }
    Ok(inputs)
}

/// Whether the program is given by its source.
pub(crate) fn is_sourced(found: &ArgMatches<'_>) -> bool
    ensures { result ≡ is_some (sources_given found.now) }
{
    match found.get_strs("source") {
        Some(_) => true,
        None => false,
    }
}

/// Whether a declaration is given.
fn is_declared(found: &ArgMatches<'_>) -> bool
    ensures { result ≡ is_declared found.now }
{
    let named = has_any(found, &["DECLARATION", "declaration", "from"]);
    let sourced = is_sourced(found);
    let first = has_value(found, "TAPE");
    named || (sourced && first)
}

/// Ensures that a declaration which is given determines the start and the machine.
pub(crate) fn start_once(found: &ArgMatches<'_>) -> Result<(), CommandLineFault>
    ensures once { IfOk result (λ _. IsStartOnce found.now) }
    ensures refused { IfErr result (IsRefusedByAny found.now) }
{
    if is_declared(found) && is_start_named(found) {
        return Err(CommandLineFault::Misuse(Misuse::DeclarationAndStart));
    }
    Ok(())
}
