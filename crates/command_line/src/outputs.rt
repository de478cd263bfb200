//! Where the result of a command goes.

ghost use Rattle.std.specs.Prelude.{◌≡◌, IfErr, IfOk, not, codes, false, map, option_map};
ghost use Rattle.std.specs.Option.{ForSome};
ghost use Rattle.std.specs.List.{list_any};
ghost use Rattle.command_line.specs.Options.{value};
ghost use Rattle.command_line.specs.Outputs.{IsResultGiven, IsSaveGiven, IsSent, ends_in, file_of, is_emptied, is_result_file, is_same_file, is_saved_as, is_saved_over, is_source_name, is_taken, result_file, result_operand, saved_endings, without_here};
ghost use Rattle.command_line.specs.Refusals.{AreInputs, AreInputsBeside, IsRefused, IsRefusedByAny};

use crate::command_name::CommandName;
use crate::fault::{CommandLineFault, Misuse};
use crate::program_command::{ProgramCommand, is_search};
use crate::values::{is_given, is_sourced, operand_of};
use clap::ArgMatches;

/// Where a result goes: the name of a file, or `-` for standard output.
#[derive(Clone, Copy)]
pub enum Destination<'a> {
    /// The operand OUT of `assemble`, `guess` and `migrate`: the file is emptied before an input is read.
    EmptiedFirst(&'a str),
    /// The operand OUT of another command: it is checked before an input is read that the file can be created or
    /// written, and it stays as it was if there is nothing to write.
    CheckedFirst(&'a str),
    /// The value of `-o`: the file is created when there is something to write, and stays as it was if there is
    /// nothing.
    MadeLast(&'a str),
}

impl<'a> Destination<'a> {
    /// The name of the file, or `-`.
    pub fn name(&self) -> &'a str
        ensures { result.now ≡ file_of self.now }
    {
        match self {
            Destination::EmptiedFirst(name)
            | Destination::CheckedFirst(name)
            | Destination::MadeLast(name) => name,
        }
    }
}

/// A name without `./` at its front.
fn without_here(name: &[u8]) -> &[u8]
    ensures { result.now ≡ without_here name.now }
{
    match name.strip_prefix(b"./") {
        Some(rest) => rest,
        None => name,
    }
}

/// Whether two names are those of one file, as far as the names tell: a leading `./` does not matter.
pub fn is_same_file(left: &str, right: &str) -> bool
    ensures { result ≡ is_same_file left.now right.now }
{
    without_here(left.as_bytes()) == without_here(right.as_bytes())
}

/// Whether a file is one of these, as far as the names tell.
fn is_one_of(name: &str, others: &[&str]) -> bool
    ensures { result ≡ list_any (λ other. is_same_file other.now name.now) others.now }
{
    others.iter().any(|other| is_same_file(other, name))
}

/// Whether the file that an output goes to is one of these; standard output is none.
pub fn is_taken(name: &str, others: &[&str]) -> bool
    ensures { result ≡ is_taken name.now (map (λ other. other.now) others.now) }
{
    if name == "-" {
        return false;
    }
    is_one_of(name, others)
}

/// Whether a file is the one that a result goes to, as far as the names tell; standard output is none.
fn is_result_file(name: &str, out: &Destination<'_>) -> bool
    ensures { result ≡ is_result_file out.now name.now }
{
    name != "-" && is_same_file(out.name(), name)
}

/// What the name of a source ends in.
const SOURCE_ENDINGS: [&str; 10] = [
    ".pal", ".PAL", ".pa", ".PA", ".pal8", ".PAL8", ".asm", ".ASM", ".src", ".SRC",
];

/// Whether a name ends in this.
fn ends_in(name: &str, ending: &str) -> bool
    ensures { result ≡ ends_in name.now ending.now }
{
    name.as_bytes().ends_with(ending.as_bytes())
}

/// Whether a name ends in one of these.
fn ends_in_any(name: &str, endings: &[&str]) -> bool
    ensures { result ≡ list_any (λ ending. ends_in name.now ending.now) endings.now }
{
    endings.iter().any(|ending| ends_in(name, ending))
}

/// Whether a name ends as that of a source does.
fn is_source_name(name: &str) -> bool
    ensures { result ≡ is_source_name name.now }
{
    ends_in_any(name, &SOURCE_ENDINGS)
}

/// Where the report of a search that is stuck goes, if it is requested: it is neither an input nor the
/// result.
pub fn report_of<'a>(
    found: &ArgMatches<'a>,
    others: &[&str],
    out: &Destination<'_>,
) -> Result<Option<&'a str>, CommandLineFault>
    ensures named { IfOk result (λ name. option_map (λ it. it.now) name ≡
        value found.now (codes "report")) }
    ensures free { IfOk result (λ name.
        ForSome name (λ it. is_taken it.now (map (λ other. other.now) others.now) ≡ false)) }
    ensures another { IfOk result (λ name.
        ForSome name (λ it. is_result_file out.now it.now ≡ false)) }
    ensures unlike { IfOk result (λ name.
        ForSome name (λ it. is_source_name it.now ≡ false)) }
    ensures refused { IfErr result (IsRefusedByAny found.now) }
{
    let Some(name) = found.get_str("report") else {
        return Ok(None);
    };
    if is_taken(name, others) || is_result_file(name, out) {
        return Err(CommandLineFault::Misuse(Misuse::ReportIsTaken));
    }
    if is_source_name(name) {
        return Err(CommandLineFault::Misuse(Misuse::ReportIsSource));
    }
    Ok(Some(name))
}

/// Where the punched bytes go, if they go to a file: it is none of these inputs, and is not named like a source.
pub fn punch_of<'a>(
    found: &ArgMatches<'a>,
    inputs: &[&str],
) -> Result<Option<&'a str>, CommandLineFault>
    requires { AreInputs found.now (map (λ input. input.now) inputs.now) }
    ensures refused { IfErr result (IsRefusedByAny found.now) }
    ensures named { IfOk result (λ name. option_map (λ it. it.now) name ≡
        value found.now (codes "punch")) }
    ensures free { IfOk result (λ name.
        ForSome name (λ it. is_taken it.now (map (λ input. input.now) inputs.now) ≡ false)) }
    ensures unlike { IfOk result (λ name.
        ForSome name (λ it. is_source_name it.now ≡ false)) }
{
    let Some(name) = found.get_str("punch") else {
        return Ok(None);
    };
    if name == "-" {
        return Err(CommandLineFault::Misuse(Misuse::PunchToOutput));
    }
    if is_taken(name, inputs) {
        return Err(CommandLineFault::Misuse(Misuse::PunchIsTaken));
    }
    if is_source_name(name) {
        return Err(CommandLineFault::Misuse(Misuse::PunchIsSource));
    }
    Ok(Some(name))
}

/// The operand that the result of a command goes to without `-o`: OUT, or the second operand of a search after a source.
fn result_operand(called: CommandName, found: &ArgMatches<'_>) -> &'static str
    ensures { result.now ≡ result_operand called found.now }
{
    match called {
        CommandName::Program(command) if is_search(command) && is_sourced(found) => "DECLARATION",
        _ => "OUT",
    }
}

/// Where the result of a command goes: to the value of `-o`, and without it to the operand.
fn destination_of<'a>(called: CommandName, found: &ArgMatches<'a>) -> Destination<'a>
    ensures sent { IsSent called found.now result }
    ensures file { file_of result ≡ result_file called found.now }
{
    let operand = operand_of(found, result_operand(called, found));
    match found.get_str("output") {
        Some(file) => Destination::MadeLast(file),
        None if is_emptied(called) => Destination::EmptiedFirst(operand),
        None => Destination::CheckedFirst(operand),
    }
}

/// Whether the operand for the result of a command is emptied before an input is read.
fn is_emptied(called: CommandName) -> bool
    ensures { result ≡ is_emptied called }
{
    match called {
        CommandName::Assemble | CommandName::Migrate => true,
        CommandName::Program(ProgramCommand::Guess) => true,
        _ => false,
    }
}

/// Where the result of a command goes. It is none of these inputs, and only the result of `source` has the name of a
/// source; the operands of `assemble` and `place` may stand in the wrong order.
pub(crate) fn result_of<'a>(
    called: CommandName,
    found: &ArgMatches<'a>,
    inputs: &[&str],
) -> Result<Destination<'a>, CommandLineFault>
    requires { AreInputsBeside called found.now (map (λ input. input.now) inputs.now) }
    ensures given { IfOk result (IsResultGiven called found.now) }
    ensures free { IfOk result (λ out. is_taken (file_of out) (map (λ input. input.now) inputs.now) ≡ false) }
    ensures refused { IfErr result (IsRefused called found.now) }
{
    let out = destination_of(called, found);
    if is_taken(out.name(), inputs) {
        return Err(CommandLineFault::Misuse(Misuse::OutputIsInput));
    }
    if !is_source_name(out.name()) {
        return Ok(out);
    }
    match called {
        CommandName::Source => Ok(out),
        CommandName::Assemble => Err(CommandLineFault::Misuse(Misuse::OutputIsSource)),
        CommandName::Place => Err(CommandLineFault::Misuse(Misuse::PlacedIsSource)),
        _ => Err(CommandLineFault::Misuse(Misuse::ResultIsSource)),
    }
}

/// What the names of the files that `verify` writes begin with, and which of them it may replace.
#[derive(Clone, Copy)]
pub struct SaveOptions<'a> {
    /// What their names begin with.
    pub name: &'a str,
    /// Whether the declaration may be one of them, since none is given.
    pub proposed: bool,
    /// Whether a file that was not written by the command is replaced too.
    pub forced: bool,
}

/// The ending of a declaration's name, as `verify --save` gives it.
pub const DECLARATION_ENDING: &str = ".declaration";

/// The ending of a certificate's name, as `verify --save` gives it.
pub const CERTIFICATE_ENDING: &str = ".certificate";

/// The ending of the name of a list of events, as `verify --save` gives it.
pub const EVENTS_ENDING: &str = ".events";

impl<'a> SaveOptions<'a> {
    /// The endings of the files that may be written.
    pub fn endings(&self) -> &'static [&'static str]
        ensures { map (λ ending. ending.now) result.now ≡ saved_endings self.now.proposed }
    {
        if self.proposed {
            &[DECLARATION_ENDING, CERTIFICATE_ENDING, EVENTS_ENDING]
        } else {
            &[CERTIFICATE_ENDING, EVENTS_ENDING]
        }
    }

    /// Whether the file with this ending is one of these inputs, as far as the names tell.
    fn takes_one(&self, ending: &str, inputs: &[&str]) -> bool
        ensures { result ≡ list_any (λ input. is_saved_as self.now.name.now ending.now input.now)
            inputs.now }
    {
        inputs
            .iter()
            .any(|input| is_saved_as(self.name, ending, input))
    }

    /// Whether a file with one of these endings is one of these inputs, as far as the names tell.
    fn takes_any(&self, endings: &[&str], inputs: &[&str]) -> bool
        ensures { result ≡ list_any (λ ending. list_any (λ input.
            is_saved_as self.now.name.now ending.now input.now) inputs.now) endings.now }
    {
        endings.iter().any(|ending| self.takes_one(ending, inputs))
    }

    /// Whether one of these inputs, as far as the names tell, may be replaced.
    fn takes(&self, inputs: &[&str]) -> bool
        ensures { result ≡ is_saved_over self.now (map (λ input. input.now) inputs.now) }
    {
        self.takes_any(self.endings(), inputs)
    }
}

/// Whether an input is the file that this name and ending make, as far as the names tell.
fn is_saved_as(name: &str, ending: &str, input: &str) -> bool
    ensures { result ≡ is_saved_as name.now ending.now input.now }
{
    let input = input.as_bytes();
    match input.strip_suffix(ending.as_bytes()) {
        Some(front) => without_here(front) == without_here(name.as_bytes()),
        None => false,
    }
}

/// Whether a name is that of a folder, or of nothing.
fn is_folder_name(name: &str) -> bool {
    name.is_empty() || name.ends_with('/')
}

/// What the names of the files for the results of `verify` begin with, if they are requested. None of these inputs is
/// one of them.
pub fn save_of<'a>(
    found: &ArgMatches<'a>,
    inputs: &[&str],
    proposed: bool,
) -> Result<Option<SaveOptions<'a>>, CommandLineFault>
    ensures given { IfOk result (IsSaveGiven found.now (not proposed)) }
    ensures free { IfOk result (λ save.
        ForSome save (λ it. is_saved_over it (map (λ input. input.now) inputs.now) ≡ false)) }
    ensures refused { IfErr result (IsRefusedByAny found.now) }
{
    let Some(name) = found.get_str("save") else {
        return Ok(None);
    };
    if is_folder_name(name) {
        return Err(CommandLineFault::Misuse(Misuse::SaveIsFolder));
    }
    let save = SaveOptions {
        name,
        proposed,
        forced: is_given(found, "force"),
    };
    if save.takes(inputs) {
        return Err(CommandLineFault::Misuse(Misuse::SaveIsTaken));
    }
    Ok(Some(save))
}
