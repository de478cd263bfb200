//! What may be requested with a source that is assembled.

ghost use Rattle.std.specs.Prelude.{◌≡◌, IfErr, IfOk, MatchResult, map};
ghost use Rattle.command_line.specs.Inputs.{AreReadAtMost};
ghost use Rattle.command_line.specs.Refusals.{AreInputs, AreOfInputs, ArePartsRefused, IsRefused};
ghost use Rattle.command_line.specs.Sources.{IsAssembleGiven, IsListGiven, part_operands, placed_operands, source_operands};
ghost use Rattle.command_line.specs.declared.command_name.CommandName.TheVariants.{Assemble, List as ListSource};

use crate::command_name::CommandName;
use crate::fault::CommandLineFault;
use crate::names::FileNames;
use crate::outputs::{Destination, result_of};
use crate::values::{has_value, is_given, profile_of, read_once};
use clap::ArgMatches;
use instruct::Profile;
use std::alloc::Global;

/// To assemble a source.
#[derive(Drop)]
pub struct AssembleRequest<'a> {
    /// Where the tape goes.
    pub out: Destination<'a>,
    /// The names of the files of the parts, in order.
    pub sources: Vec<&'a str>,
    /// Whose permanent symbols there are.
    pub profile: Profile,
    /// Whether it is said what is wrong with a source that is refused.
    pub explained: bool,
}

impl<'a> AssembleRequest<'a> {
    pub(crate) fn names(&self) -> FileNames<'a> {
        FileNames {
            output: Some(self.out.name()),
            ..FileNames::NONE
        }
    }
}

/// To list a source.
#[derive(Drop)]
pub struct ListRequest<'a> {
    /// The names of the files of the parts, in order.
    pub sources: Vec<&'a str>,
    /// Whose permanent symbols there are.
    pub profile: Profile,
    /// Whether it is said what is wrong with a source that is refused.
    pub explained: bool,
    /// Whether a table of the symbols is written below the listing.
    pub crossed: bool,
}

/// The operands that are parts of a source: with `-o` the first operand is one of them too.
fn part_operands(found: &ArgMatches<'_>) -> &'static [&'static str]
    ensures given { map (λ name. name.now) result.now ≡ part_operands found.now }
    ensures inputs { AreOfInputs found.now (map (λ name. name.now) result.now) }
{
    if has_value(found, "output") {
        &["OUT", "SOURCE"]
    } else {
        &["SOURCE"]
    }
}

/// The operands and the option that give the inputs of `place`.
pub(crate) fn placed_operands(found: &ArgMatches<'_>) -> &'static [&'static str]
    ensures given { map (λ name. name.now) result.now ≡ placed_operands found.now }
    ensures inputs { AreOfInputs found.now (map (λ name. name.now) result.now) }
{
    if has_value(found, "output") {
        &["OUT", "SOURCE", "declaration"]
    } else {
        &["SOURCE", "declaration"]
    }
}

/// The names of a source's parts, of which there is one at least.
pub(crate) fn source_names<'a>(
    alloc: Global,
    found: &ArgMatches<'a>,
) -> Result<Vec<&'a str>, CommandLineFault>
    ensures given { IfOk result (λ names. map (λ name. name.now) names.items ≡
        source_operands found.now) }
    ensures are { IfOk result (λ names.
        AreInputs found.now (map (λ name. name.now) names.items)) }
    ensures once { IfOk result (λ names. AreReadAtMost 1 found.now (part_operands found.now)) }
    ensures refused { IfErr result (ArePartsRefused found.now) }
{
    let names = read_once(alloc, found, part_operands(found))?;
    if names.is_empty() {
        return Err(CommandLineFault::NoOperand("SOURCE"));
    }
    Ok(names)
}

/// The tape that is requested. It does not go to a file that is named like a source: the operands may stand in the
/// wrong order.
pub(crate) fn assemble_request<'a>(
    alloc: Global,
    found: &ArgMatches<'a>,
) -> Result<AssembleRequest<'a>, CommandLineFault>
    ensures { MatchResult result (IsAssembleGiven found.now) (IsRefused Assemble found.now) }
{
    let sources = source_names(alloc, found)?;
    let out = result_of(CommandName::Assemble, found, &sources)?;
    let profile = profile_of(found)?;
    Ok(AssembleRequest {
        out,
        sources,
        profile,
        explained: is_given(found, "why"),
    })
}

/// The listing that is requested.
pub(crate) fn list_request<'a>(
    alloc: Global,
    found: &ArgMatches<'a>,
) -> Result<ListRequest<'a>, CommandLineFault>
    ensures { MatchResult result (IsListGiven found.now) (IsRefused ListSource found.now) }
{
    let sources = source_names(alloc, found)?;
    let profile = profile_of(found)?;
    let explained = is_given(found, "why");
    let crossed = is_given(found, "cross");
    Ok(ListRequest {
        sources,
        profile,
        explained,
        crossed,
    })
}
