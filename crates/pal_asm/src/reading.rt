//! What the parts of a source do.

ghost use Rattle.std.specs.Prelude.{◌≡◌, ◌≤◌, [], IfOk, OnOk, IfErr, length, None};
ghost use Rattle.pal_asm.specs.declared.number.Radix.TheVariants.{Octal};
ghost use Rattle.pal_asm.specs.Sources.{Reads, size_fault, texts};
ghost use Rattle.pal_asm.specs.SourceInCode.{lines_of_fronts, IsRead, StopsPart, Turns};

use crate::number::Radix;
use crate::part_text::PartText;
use crate::statement::{NumberedPart, keep_statement};
use pal_acts::{Act, Acts, FaultCode, SignedTerm, SourcePlace};
use pal_text::{Ending, PartEnd, PartItem, StatementFault, StatementReader};
use std::alloc::{AllocError, Allocator};

/// What comes after a part: the next one, with numbers written so, or nothing.
#[derive(Clone, Copy)]
pub(crate) enum Continuation {
    NextPart(Radix),
    NoPart,
}

/// How a part was read: how numbers are written after it, and where it ended.
#[derive(Clone, Copy)]
pub(crate) struct ReadingState {
    pub(crate) radix: Radix,
    pub(crate) close: PartEnd,
}

/// Keeps what the statements do that a reader at the front of a part reads, one after another. The
/// terms of an expression are laid in `joins` first.
fn keep_read<A: Allocator + Copy>(
    before: Radix,
    part: &NumberedPart<'_>,
    reader: &mut StatementReader<'_, A>,
    joins: &mut Vec<SignedTerm, A>,
    acts: &mut Acts<A>,
) -> Result<ReadingState, StatementFault>
    requires source { reader.old.source ≡ part.now.source.now }
    requires front { (reader.old.count ≡ 0) × (reader.old.close ≡ None) }
    ensures read { IfOk result (IsRead part.now before acts.old acts.new) }
    ensures stops { IfErr result (StopsPart part.now.source.now acts.old acts.new) }
{
    let mut radix = before;
    loop {
        match reader.read_next()? {
            PartItem::Statement(found) => {
                let statement = found.statement;
                let kept = keep_statement(part, radix, reader.tokens(), statement, joins, acts);
                let Ok(()) = kept else {
                    return Err(StatementFault::NoMemory);
                };
                radix = radix.after(statement.form);
            }
            PartItem::End(close) => return Ok(ReadingState { radix, close }),
        }
    }
}

/// Keeps what the statements of a part do.
fn keep_statements<A: Allocator + Copy>(
    alloc: A,
    before: Radix,
    part: &NumberedPart<'_>,
    acts: &mut Acts<A>,
) -> Result<ReadingState, StatementFault>
    requires { length part.now.source.now ≤ 65536 }
    ensures read { IfOk result (IsRead part.now before acts.old acts.new) }
    ensures stops { IfErr result (StopsPart part.now.source.now acts.old acts.new) }
{
    let mut reader = StatementReader::new(alloc, part.source);
    let mut joins = Vec::new(alloc);
    keep_read(before, part, &mut reader, &mut joins, acts)
}

/// Keeps what a part does, and its bytes up to where it ended. Of a part with a statement that has
/// no form nothing is kept but that fault.
fn read_part<'s, A: Allocator + Copy>(
    alloc: A,
    radix: Radix,
    part: &NumberedPart<'s>,
    acts: &mut Acts<A>,
    fronts: &mut Vec<PartText<'s>, A>,
) -> Result<Continuation, AllocError>
    requires { length part.now.source.now ≤ 65536 }
    ensures { IfOk result (Turns part.now.number radix part.now.last part.now.source.now acts.old
        acts.new (lines_of_fronts fronts.old.items) (lines_of_fronts fronts.new.items)) }
{
    let count = acts.len();
    match keep_statements(alloc, radix, part, acts) {
        Ok(reached) => {
            fronts.push(PartText {
                number: part.number,
                bytes: &part.source[..reached.close.stop],
            })?;
            match reached.close.ending {
                Ending::Dollar => Ok(Continuation::NoPart),
                Ending::Pause | Ending::Bytes => Ok(Continuation::NextPart(reached.radix)),
            }
        }
        Err(StatementFault::Illegal(line)) => {
            acts.truncate(count);
            let place = SourcePlace {
                part: part.number,
                line,
            };
            acts.keep(place, Act::Wrong(FaultCode::IllegalCharacter), &[])?;
            Ok(Continuation::NoPart)
        }
        Err(StatementFault::NoMemory) => Err(AllocError),
    }
}

/// What a source does, and the bytes of each part that was read.
#[derive(Drop)]
pub(crate) struct Reading<'s, A: Allocator> {
    pub(crate) acts: Acts<A>,
    pub(crate) fronts: Vec<PartText<'s>, A>,
}

/// Reads the parts of a source that are not too many or too long, one after another.
fn read_parts<'s, A: Allocator + Copy>(
    alloc: A,
    parts: &[&'s [u8]],
    acts: &mut Acts<A>,
    fronts: &mut Vec<PartText<'s>, A>,
) -> Result<(), AllocError>
    requires sizes { size_fault (texts parts.now) ≡ None }
    requires none { (acts.old ≡ []) × (fronts.old.items ≡ []) }
    ensures { OnOk result (Reads 1 Octal (texts parts.now) acts.new
        (lines_of_fronts fronts.new.items)) }
{
    let mut radix = Radix::Octal;
    for (at, source) in parts.iter().enumerate() {
        let part = NumberedPart {
            number: at + 1,
            last: at + 1 == parts.len(),
            source,
        };
        match read_part(alloc, radix, &part, acts, fronts)? {
            Continuation::NextPart(next) => radix = next,
            Continuation::NoPart => return Ok(()),
        }
    }
    Ok(())
}

/// Reads a source whose parts are not too many or too long.
pub(crate) fn read_source<'s, A: Allocator + Copy>(
    alloc: A,
    parts: &[&'s [u8]],
) -> Result<Reading<'s, A>, AllocError>
    requires { size_fault (texts parts.now) ≡ None }
    ensures { IfOk result (λ reading. Reads 1 Octal (texts parts.now) reading.acts
        (lines_of_fronts reading.fronts.items)) }
{
    let mut acts = Acts::new(alloc);
    let mut fronts = Vec::new(alloc);
    read_parts(alloc, parts, &mut acts, &mut fronts)?;
    Ok(Reading { acts, fronts })
}
