//! What a declaration leaves out, as far as that is seen by the tape and the declaration alone: no certificate can fix it, if a run comes
//! there. What is found is proved to be so; which of the remedies is advised, and how that reads, is tested.

ghost use Rattle.std.specs.Prelude.{◌≡◌, ℕ, List, Option, Some, IfSome, IfNone, false, true};
ghost use Rattle.instruct.specs.Bits.{is_indirect};
ghost use Rattle.instruct.specs.Instructions.{Dca, Jms, Jmp, instruction_of, kind_of, meaning_of, reference};
ghost use Rattle.instruct.specs.declared.Instruction.TheVariants.{Memory, Unsupported};
ghost use Rattle.bin_tape.specs.Image.{word_at};
ghost use Rattle.declaration.specs.Declaration.{Declaration as Promise, Routine};
ghost use Rattle.declaration.specs.DeclarationInCode.{meaning, routine_of};
ghost use Rattle.diagnostics.specs.Omissions.{IsHalt, IsOmitted, IsOnTape, IsViolation, Means, Stores};

use bin_tape::Image;
use command_parts::message::{MessageWriter, Written};
use command_parts::sentence::Argument::{Address, Advised};
use command_parts::sentence::push_sentence;
use declaration::{Declaration, Owner};
use instruct::{
    Instruction, Operation, Profile, SkipCondition, decode, halts, refers_indirectly, target,
};
use processor::is_auto_index;
use std::alloc::Allocator;
use word12::Word;

/// The most instructions that are named.
const MOST: usize = 8;

/// What an instruction would violate.
#[derive(Clone, Copy, PartialEq, Eq)]
enum Omission {
    /// Nothing stands there on the tape.
    NoWord,
    /// The word is not one of the declared machine.
    Unsupported,
    /// It is one of the PDP-8/E alone.
    OfThe8e,
    /// It stores into this cell, which is neither a variable nor an entry.
    Stores(Word),
    /// It stores into this entry, and is not an ISZ of the routine itself.
    StoresInEntry(Word),
    /// It is a DCA into this entry, its routine's own, in which the routine is not declared to store.
    StoresInOwn(Word),
    /// It increments this pointer, which is not a variable.
    Steps(Word),
    /// It calls this address, which is not an entry, in no body and no variable.
    Calls(Word),
    /// It calls this address, which is in a body or a variable.
    CallsIntoBody(Word),
    /// It calls this address, which is from 0010 to 0017.
    CallsAutoIndex(Word),
    /// It jumps to this address, which is in no body, and no entry.
    Jumps(Word),
    /// It jumps to this address, which is in another body, or an entry.
    JumpsAcross(Word),
    /// It jumps from a routine's body to this address of main's, for which no calls are abandoned.
    JumpsToMain(Word),
    /// It halts, and no halt is declared there.
    Halts,
    /// It halts at a pause, and this address, at which the operator goes on, is in no body, and no entry.
    GoesOn(Word),
    /// It halts at a pause, and this address, at which the operator goes on, is in another body, or an entry.
    GoesAcross(Word),
}

/// What a memory reference that stores into the cell which it names would violate, where that is not its routine's own entry.
fn omitted_by_store<D: Allocator>(declaration: &Declaration<D>, cell: Word) -> Option<Omission>
    ensures { (image : List (Option ℕ)) (r : Routine) (at : ℕ) →
        Stores image (meaning declaration.now) at cell →
        (meaning declaration.now).body (Some cell) at ≡ false →
        IfSome result (IsViolation image (meaning declaration.now) r at) }
{
    if declaration.is_variable(cell) {
        None
    } else if declaration.is_entry(cell) {
        Some(Omission::StoresInEntry(cell))
    } else {
        Some(Omission::Stores(cell))
    }
}

/// What a DCA into its routine's own entry would violate.
fn omitted_by_move<D: Allocator>(declaration: &Declaration<D>, entry: Word) -> Option<Omission>
    ensures { (image : List (Option ℕ)) (r : Routine) (at : ℕ) →
        Means image (meaning declaration.now) at (Dca false entry) →
        (meaning declaration.now).body (Some entry) at ≡ true →
        IfSome result (IsViolation image (meaning declaration.now) r at) }
{
    if declaration.may_move(entry) {
        None
    } else {
        Some(Omission::StoresInOwn(entry))
    }
}

/// What a call of the address that it names would violate.
fn omitted_by_call<D: Allocator>(declaration: &Declaration<D>, place: Word) -> Option<Omission>
    ensures { (image : List (Option ℕ)) (r : Routine) (at : ℕ) →
        Means image (meaning declaration.now) at (Jms false place) →
        IfSome result (IsViolation image (meaning declaration.now) r at) }
{
    if declaration.is_entry(place) {
        None
    } else if is_auto_index(place) {
        Some(Omission::CallsAutoIndex(place))
    } else if declaration.owner_of(place).is_some() || declaration.is_variable(place) {
        Some(Omission::CallsIntoBody(place))
    } else {
        Some(Omission::Calls(place))
    }
}

/// Whether an address that is not in the same body belongs to another one, or is an entry.
fn is_elsewhere<D: Allocator>(declaration: &Declaration<D>, place: Word) -> bool {
    declaration.is_entry(place) || declaration.owner_of(place).is_some()
}

/// Whether an address is in a body.
pub(crate) fn is_in_body<D: Allocator>(declaration: &Declaration<D>, owner: Owner, at: Word) -> bool
    ensures { result ≡ (meaning declaration.now).body (routine_of owner) at }
{
    match owner {
        Owner::Main => declaration.in_main(at),
        Owner::Routine(entry) => declaration.in_body(entry, at),
    }
}

/// What a jump of a body to the address that it names would violate.
fn omitted_by_jump<D: Allocator>(
    declaration: &Declaration<D>,
    owner: Owner,
    place: Word,
) -> Option<Omission>
    ensures { (image : List (Option ℕ)) (at : ℕ) →
        Means image (meaning declaration.now) at (Jmp false place) →
        IfSome result (IsViolation image (meaning declaration.now) (routine_of owner) at) }
{
    if is_in_body(declaration, owner, place) || declaration.is_abandon(place) {
        None
    } else if declaration.in_main(place) {
        Some(Omission::JumpsToMain(place))
    } else if is_elsewhere(declaration, place) {
        Some(Omission::JumpsAcross(place))
    } else {
        Some(Omission::Jumps(place))
    }
}

/// What a memory reference that is indirect would violate: that the pointer which it increments is a variable.
fn omitted_by_pointer<D: Allocator>(
    declaration: &Declaration<D>,
    at: Word,
    word: Word,
) -> Option<Omission>
    ensures { (image : List (Option ℕ)) (r : Routine) → word_at image at ≡ Some word →
        kind_of (meaning_of (meaning declaration.now).profile at word) ≡ Memory →
        is_indirect word ≡ true →
        IfSome result (IsViolation image (meaning declaration.now) r at) }
{
    let named = target(word, at);
    if is_auto_index(named) && !declaration.is_variable(named) {
        return Some(Omission::Steps(named));
    }
    None
}

/// What a memory reference that is direct would violate, by its operation and the cell that it names.
fn omitted_by_direct<D: Allocator>(
    declaration: &Declaration<D>,
    owner: Owner,
    at: Word,
    operation: Operation,
    named: Word,
) -> Option<Omission>
    ensures { (image : List (Option ℕ)) →
        Means image (meaning declaration.now) at (reference operation false named) →
        IfSome result (IsViolation image (meaning declaration.now) (routine_of owner) at) }
{
    let is_own = declaration.in_body(named, at);
    match operation {
        Operation::Dca if is_own => omitted_by_move(declaration, named),
        Operation::Isz if is_own => None,
        Operation::Dca | Operation::Isz => omitted_by_store(declaration, named),
        Operation::Jms => omitted_by_call(declaration, named),
        Operation::Jmp => omitted_by_jump(declaration, owner, named),
        Operation::And | Operation::Tad => None,
    }
}

/// What a memory reference of a body would violate.
fn omitted_by_reference<D: Allocator>(
    declaration: &Declaration<D>,
    owner: Owner,
    at: Word,
    word: Word,
) -> Option<Omission>
    ensures { (image : List (Option ℕ)) → word_at image at ≡ Some word →
        kind_of (meaning_of (meaning declaration.now).profile at word) ≡ Memory →
        IfSome result (IsViolation image (meaning declaration.now) (routine_of owner) at) }
{
    if refers_indirectly(word) {
        return omitted_by_pointer(declaration, at, word);
    }
    omitted_by_direct(
        declaration,
        owner,
        at,
        Operation::of(word),
        target(word, at),
    )
}

/// What a HLT of a body at a pause would violate. A HLT that never skips goes on at the next address.
fn omitted_by_pause<D: Allocator>(
    declaration: &Declaration<D>,
    owner: Owner,
    at: Word,
    word: Word,
) -> Option<Omission>
    ensures { (image : List (Option ℕ)) →
        (halt : IsHalt image (meaning declaration.now) at) → halt.word ≡ word →
        (meaning declaration.now).pause at ≡ true →
        IfSome result (IsViolation image (meaning declaration.now) (routine_of owner) at) }
{
    if SkipCondition::of_tests(word).may_skip() {
        return None;
    }
    let next = at.increment();
    if is_in_body(declaration, owner, next) {
        None
    } else if is_elsewhere(declaration, next) {
        Some(Omission::GoesAcross(next))
    } else {
        Some(Omission::GoesOn(next))
    }
}

/// What a HLT of a body would violate.
fn omitted_by_halt<D: Allocator>(
    declaration: &Declaration<D>,
    owner: Owner,
    at: Word,
    word: Word,
) -> Option<Omission>
    ensures { (image : List (Option ℕ)) →
        (halt : IsHalt image (meaning declaration.now) at) → halt.word ≡ word →
        IfSome result (IsViolation image (meaning declaration.now) (routine_of owner) at) }
{
    if declaration.is_stop(at) {
        None
    } else if declaration.is_pause(at) {
        omitted_by_pause(declaration, owner, at, word)
    } else {
        Some(Omission::Halts)
    }
}

/// What a word that the declared machine does not have would violate.
fn unsupported(word: Word) -> Omission
    ensures { (image : List (Option ℕ)) (d : Promise) (r : Routine) (at : ℕ) →
        word_at image at ≡ Some word → instruction_of d.profile word ≡ Unsupported →
        IsViolation image d r at result }
{
    if decode(word, Profile::Pdp8E) == Instruction::Unsupported {
        Omission::Unsupported
    } else {
        Omission::OfThe8e
    }
}

/// What a word of a body would violate.
fn omitted_by_word<D: Allocator>(
    declaration: &Declaration<D>,
    owner: Owner,
    at: Word,
    word: Word,
) -> Option<Omission>
    ensures { (image : List (Option ℕ)) → word_at image at ≡ Some word →
        IfSome result (IsViolation image (meaning declaration.now) (routine_of owner) at) }
{
    match decode(word, declaration.profile()) {
        Instruction::Memory => omitted_by_reference(declaration, owner, at, word),
        Instruction::Unsupported => Some(unsupported(word)),
        Instruction::Operate2 if halts(word) => omitted_by_halt(declaration, owner, at, word),
        _ => None,
    }
}

/// What the word at an address of a body would violate, or that none stands there.
fn omitted_in_body<D: Allocator>(
    image: &Image,
    declaration: &Declaration<D>,
    owner: Owner,
    at: Word,
) -> Option<Omission>
    ensures found { IfSome result
        (IsViolation image.now (meaning declaration.now) (routine_of owner) at) }
    ensures none { IfNone result (word_at image.now at ≡ None → ⊥) }
{
    match image.get(at) {
        None => Some(Omission::NoWord),
        Some(word) => omitted_by_word(declaration, owner, at, word),
    }
}

/// What the instruction at an address would violate.
fn omitted_at<D: Allocator>(
    image: &Image,
    declaration: &Declaration<D>,
    at: Word,
) -> Option<Omission>
    ensures found { IfSome result (IsOmitted image.now (meaning declaration.now) at) }
    ensures none { IfNone result (IsOnTape image.now (meaning declaration.now) at) }
{
    let Some(owner) = declaration.owner_of(at) else {
        return None;
    };
    if declaration.is_variable(at) {
        return None;
    }
    omitted_in_body(image, declaration, owner, at)
}

/// The address of which an omission speaks: the one that the instruction names, or else its own.
fn place_of(at: Word, omission: &Omission) -> Word {
    match omission {
        Omission::NoWord | Omission::Unsupported | Omission::OfThe8e | Omission::Halts => at,
        Omission::Stores(place)
        | Omission::StoresInEntry(place)
        | Omission::StoresInOwn(place)
        | Omission::Steps(place)
        | Omission::Calls(place)
        | Omission::CallsIntoBody(place)
        | Omission::CallsAutoIndex(place)
        | Omission::Jumps(place)
        | Omission::JumpsAcross(place)
        | Omission::JumpsToMain(place)
        | Omission::GoesOn(place)
        | Omission::GoesAcross(place) => *place,
    }
}

/// What the instruction at an address does, and what is not declared of the address of which the omission speaks.
fn act_of(omission: &Omission) -> &'static str {
    match omission {
        Omission::NoWord => "{} is in a body, but the tape has no word there",
        Omission::Unsupported => "the machine does not implement this word",
        Omission::OfThe8e => "of the two machines modelled, only the PDP-8/E implements this word",
        Omission::Halts => "it halts, and no halt is declared there",
        Omission::Stores(_) => "it stores into {}, which is not a variable",
        Omission::StoresInEntry(_) => "it stores into {}, which is an entry",
        Omission::StoresInOwn(_) => "it stores into {}, which is the routine's own entry",
        Omission::Steps(_) => "it increments the pointer {}, which is not a variable",
        Omission::Calls(_) | Omission::CallsIntoBody(_) | Omission::CallsAutoIndex(_) =>
            "it calls {}, which is not an entry",
        Omission::Jumps(_) | Omission::JumpsAcross(_) | Omission::JumpsToMain(_) =>
            "it jumps to {}, which is not in the same body",
        Omission::GoesOn(_) | Omission::GoesAcross(_) =>
            "the operator may continue at {}, which is not in the same body",
    }
}

/// What to do about what is omitted: with a line of a declaration about the address of which the omission speaks or, at a
/// pause, about its own.
fn remedy_of(omission: &Omission) -> &'static str {
    match omission {
        Omission::NoWord => "remove it from the body, or end the program before it",
        Omission::Unsupported => "if this word is data, remove it from the body",
        Omission::OfThe8e => "add `profile 8e` if the program is for a PDP-8/E",
        Omission::Stores(_) | Omission::Steps(_) => "add `var {}`",
        Omission::StoresInEntry(_) =>
            "only a JMS that calls the routine, an ISZ in the routine and, with a `moves` line, a DCA in the routine may write there",
        Omission::StoresInOwn(_) => "add `moves {}`",
        Omission::Calls(_) => "add `sub {} body .. returns ..`",
        Omission::CallsIntoBody(_) =>
            "add `sub {} body .. returns ..`, and remove the entry from the body and the variables",
        Omission::CallsAutoIndex(_) => "no routine can begin at 0010 to 0017",
        Omission::Jumps(_) => "add that address to the body",
        Omission::JumpsAcross(_) => "call a routine with a JMS, and leave it with a return",
        Omission::JumpsToMain(_) => "leave the routine with a return, or add `abandon {}`",
        Omission::Halts => "add `stop {}`, or `pause {}` if the operator may continue",
        Omission::GoesOn(_) =>
            "add that address to the body, or declare `stop {}` in place of `pause {}`",
        Omission::GoesAcross(_) => "declare `stop {}` in place of `pause {}`",
    }
}

/// Adds the line of what to do about what is omitted at an address.
fn push_remedy_line<L: MessageWriter>(text: &mut L, at: Word, omission: &Omission) -> Written {
    let place = match omission {
        Omission::GoesOn(_) | Omission::GoesAcross(_) => at,
        _ => place_of(at, omission),
    };
    push_sentence(text, remedy_of(omission), &[Advised(place), Advised(place)])?;
    text.push_text(b"\n")
}

/// Adds the line of what the instruction at an address would violate, and what to do about it.
fn push_omission<L: MessageWriter>(text: &mut L, at: Word, omission: &Omission) -> Written {
    push_sentence(text, act_of(omission), &[Address(place_of(at, omission))])?;
    text.push_text(b": ")?;
    push_remedy_line(text, at, omission)
}

/// Adds what is said of the instruction at which a search is stuck, where this is omitted. Where the reason already names a line
/// that would allow the instruction, nothing is added.
fn push_stuck<L: MessageWriter>(text: &mut L, at: Word, omission: &Omission) -> Written {
    match omission {
        Omission::NoWord | Omission::OfThe8e => push_omission(text, at, omission),
        Omission::StoresInOwn(_) | Omission::JumpsToMain(_) => Ok(()),
        Omission::Unsupported
        | Omission::StoresInEntry(_)
        | Omission::CallsAutoIndex(_)
        | Omission::JumpsAcross(_)
        | Omission::GoesAcross(_) => push_remedy_line(text, at, omission),
        Omission::Stores(_)
        | Omission::Steps(_)
        | Omission::Calls(_)
        | Omission::CallsIntoBody(_)
        | Omission::Jumps(_)
        | Omission::GoesOn(_)
        | Omission::Halts => {
            text.push_text(b"if this is intended, ")?;
            push_remedy_line(text, at, omission)
        }
    }
}

/// Adds the line of what to do about the instruction at which a search is stuck, after those on what a condition asks of it, if
/// the tape and the declaration show by themselves what it violates. If the reason already names a line that would allow the
/// instruction, nothing is added.
///
/// # Errors
///
/// Memory was refused.
pub fn push_stuck_remedy<L: MessageWriter, D: Allocator>(
    text: &mut L,
    image: &Image,
    declaration: &Declaration<D>,
    at: Word,
) -> Written {
    match omitted_at(image, declaration, at) {
        Some(omission) => push_stuck(text, at, &omission),
        None => Ok(()),
    }
}

/// Adds what the tape and the declaration show by themselves, of at most eight instructions in the order of their
/// addresses: each instruction, what it would violate if a run came there, and what to add. One address is left out,
/// for which [`push_stuck_remedy`] says it.
///
/// # Errors
///
/// Memory was refused.
pub fn push_omissions<L: MessageWriter, D: Allocator>(
    text: &mut L,
    image: &Image,
    declaration: &Declaration<D>,
    left_out: Option<Word>,
) -> Written {
    let mut found = 0usize;
    for index in 0..4096usize {
        let at = Word::from_index(index);
        if left_out == Some(at) {
            continue;
        }
        let Some(omission) = omitted_at(image, declaration, at) else {
            continue;
        };
        if found == MOST {
            return text.push_text(b"and other instructions\n");
        }
        if found == 0 {
            text.push_text(
                b"with this declaration, no certificate is possible if a run reaches any of these:\n",
            )?;
        }
        text.push_instruction(at, image.get(at), declaration.profile())?;
        push_omission(text, at, &omission)?;
        found = found.saturating_add(1);
    }
    Ok(())
}
