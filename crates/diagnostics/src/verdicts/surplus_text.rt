//! What is said below a yes: what of the declaration is wider than the certificate needs, and what routines return with.

ghost use Rattle.std.specs.Prelude.{◌<◌};

use bin_tape::Image;
use certificate::Certificate;
use command_parts::message::{Message, MessageWriter, Written};
use command_parts::sentence::Argument::{Address, Offset, Text, Words};
use command_parts::sentence::push_sentence;
use declaration::Declaration;
use std::alloc::{AllocError, Allocator};
use usage::{Register, Surplus, returned, surplus_of};
use word12::Word;
use wordset::WordSet;

/// How many offsets there are by which a routine may be declared to return.
pub const OFFSETS: usize = 64;

/// The offsets by which a routine is declared to return.
pub fn declared_offsets<D: Allocator>(declaration: &Declaration<D>, entry: Word) -> WordSet {
    let mut offsets = WordSet::empty();
    for index in 0..OFFSETS {
        let offset = Word::from_index(index);
        if declaration.has_offset(entry, offset) {
            offsets.insert(offset);
        }
    }
    offsets
}

/// A program with its declaration, and a certificate which shows that it complies with it.
#[derive(Drop)]
pub struct Shown<'a, D: Allocator, C: Allocator> {
    /// The words of the program's tape.
    pub image: &'a Image,
    /// What is declared of it.
    pub declaration: &'a Declaration<D>,
    /// The certificate.
    pub certificate: &'a Certificate<C>,
}

impl<D: Allocator, C: Allocator> Shown<'_, D, C> {
    /// The words that a register may hold when a routine returns by an offset.
    pub fn returned(&self, register: Register, entry: Word, offset: usize) -> WordSet
        requires { offset < 64 }
    {
        returned(
            register,
            self.image,
            self.declaration,
            self.certificate,
            entry,
            offset,
        )
    }

    /// The offsets by which a routine returns.
    fn offsets_of(&self, entry: Word) -> WordSet {
        let mut offsets = WordSet::empty();
        for offset in 0..OFFSETS {
            if !self
                .returned(Register::Accumulator, entry, offset)
                .is_empty()
            {
                offsets.insert(Word::from_index(offset));
            }
        }
        offsets
    }

    /// The places at which something is declared to hold.
    fn asserted_places(&self) -> WordSet {
        let mut places = WordSet::empty();
        for assertion in self.declaration.holds() {
            places = places.union(assertion.places());
        }
        places
    }

    /// The routines of which a `returns` line speaks and that never return.
    fn asserted_in_vain(&self) -> WordSet {
        let mut entries = WordSet::empty();
        for assertion in self.declaration.returns() {
            if self.offsets_of(assertion.entry()).is_empty() {
                entries.insert(assertion.entry());
            }
        }
        entries
    }

    /// The offsets that `returns` lines name for a routine, without those lines that speak of all.
    fn asserted_offsets(&self, entry: Word) -> WordSet {
        let mut offsets = WordSet::empty();
        for assertion in self.declaration.returns() {
            if assertion.entry() == entry && assertion.offsets().count() < OFFSETS {
                offsets = offsets.union(assertion.offsets());
            }
        }
        offsets
    }
}

/// Adds the ranges of some offsets or addresses, as a declaration has them.
fn push_ranges<L: MessageWriter>(text: &mut L, set: &WordSet, are_offsets: bool) -> Written {
    for (first, last) in set.ranges() {
        let template = if first == last { " {}" } else { " {}-{}" };
        let ends = if are_offsets {
            [Offset(first.index()), Offset(last.index())]
        } else {
            [Address(first), Address(last)]
        };
        push_sentence(text, template, &ends)?;
    }
    text.push_text(b"\n")
}

/// Adds a line for each of some sets of cells that has any, with what these are.
pub fn push_cells<L: MessageWriter>(text: &mut L, sets: &[(&str, WordSet)]) -> Written {
    for (name, cells) in sets {
        if !cells.is_empty() {
            push_sentence(text, "{}:", &[Text(*name)])?;
            push_ranges(text, cells, false)?;
        }
    }
    Ok(())
}

/// Adds a line that names some offsets of a routine, if there are any.
pub fn push_routine_offsets<L: MessageWriter>(
    text: &mut L,
    name: &str,
    entry: Word,
    offsets: &WordSet,
) -> Written {
    if offsets.is_empty() {
        return Ok(());
    }
    push_sentence(text, "{} {} never returns:", &[Text(name), Address(entry)])?;
    push_ranges(text, offsets, true)
}

/// The cells for which a tape has a word.
fn cells_of(image: &Image) -> WordSet {
    let mut cells = WordSet::empty();
    for index in 0..4096usize {
        let at = Word::from_index(index);
        if image.get(at).is_some() {
            cells.insert(at);
        }
    }
    cells
}

/// Adds the cells that are declared for a use which no run makes of them.
fn push_unused<L: MessageWriter, D: Allocator, C: Allocator>(
    text: &mut L,
    shown: &Shown<'_, D, C>,
    surplus: &Surplus,
) -> Written {
    let on_tape = cells_of(shown.image);
    let rows: [(&str, WordSet); 9] = [
        (
            "Body cells that no run reaches",
            surplus.unexecuted.meet(&on_tape),
        ),
        (
            "Body cells that no run reaches, and for which the tape has no word",
            surplus.unexecuted.minus(&on_tape),
        ),
        ("Variables that no instruction writes", surplus.unwritten),
        ("Listed reads that are not needed", surplus.unread),
        ("Stops and pauses at which no run halts", surplus.unhalted),
        ("Routines that are never called", surplus.uncalled),
        (
            "Addresses in `abandon` lines at which no call is abandoned",
            surplus.unabandoned,
        ),
        (
            "Routines that `moves` lines name but that do not store their return word",
            surplus.unmoved,
        ),
        (
            "Addresses in `holds` lines that no run reaches",
            shown.asserted_places().meet(&surplus.unexecuted),
        ),
    ];
    push_cells(text, &rows)
}

/// Adds the offsets by which routines are declared to return and never do, and those of which a `returns` line speaks in vain. Of a
/// routine that is never called this is not told.
fn push_idle_offsets<L: MessageWriter, D: Allocator, C: Allocator>(
    text: &mut L,
    shown: &Shown<'_, D, C>,
    surplus: &Surplus,
) -> Written {
    for routine in shown.declaration.routines() {
        let entry = routine.entry();
        if surplus.uncalled.contains(entry) {
            continue;
        }
        let found = shown.offsets_of(entry);
        push_routine_offsets(
            text,
            "Declared offsets by which the routine",
            entry,
            &declared_offsets(shown.declaration, entry).minus(&found),
        )?;
        if !found.is_empty() {
            push_routine_offsets(
                text,
                "Offsets that `returns` lines name but by which the routine",
                entry,
                &shown.asserted_offsets(entry).minus(&found),
            )?;
        }
    }
    Ok(())
}

/// How it is said what the accumulator may hold.
fn said_of_accumulator(set: &WordSet) -> &'static str {
    if set.is_all() {
        "AC may be any word"
    } else if set.only().is_some() {
        "AC is {}"
    } else {
        "AC may be {}"
    }
}

/// What is said of what the link may be.
fn said_of_link(set: &WordSet) -> &'static str {
    match (
        set.contains(Word::from_index(0)),
        set.contains(Word::from_index(1)),
    ) {
        (true, true) => "may be 0 or 1",
        (false, true) => "is 1",
        (_, false) => "is 0",
    }
}

/// Adds which routine returns, and by which offset.
fn push_place_of_return<L: MessageWriter>(text: &mut L, entry: Word, offset: usize) -> Written {
    push_sentence(
        text,
        "The routine {} returns with offset {}; ",
        &[Address(entry), Offset(offset)],
    )
}

/// Adds what AC may be.
fn push_accumulator<L: MessageWriter>(text: &mut L, set: &WordSet) -> Written {
    let said = said_of_accumulator(set);
    push_sentence(text, said, &[Words(set)])
}

/// Adds with what the routine of an entry returns by an offset, if it does.
fn push_returned<L: MessageWriter, D: Allocator, C: Allocator>(
    text: &mut L,
    shown: &Shown<'_, D, C>,
    entry: Word,
    offset: usize,
) -> Written
    requires { offset < 64 }
{
    let accumulator = shown.returned(Register::Accumulator, entry, offset);
    if accumulator.is_empty() {
        return Ok(());
    }
    push_place_of_return(text, entry, offset)?;
    push_accumulator(text, &accumulator)?;
    let link = said_of_link(&shown.returned(Register::Link, entry, offset));
    push_sentence(text, ", and the link {}\n", &[Text(link)])
}

/// Adds with what the routine of an entry returns.
fn push_returns<L: MessageWriter, D: Allocator, C: Allocator>(
    text: &mut L,
    shown: &Shown<'_, D, C>,
    entry: Word,
) -> Written {
    for offset in 0..OFFSETS {
        push_returned(text, shown, entry, offset)?;
    }
    Ok(())
}

/// Adds what the declaration lists and the certificate does not need, or that it needs all.
fn push_unneeded<A: Allocator + Copy, D: Allocator, C: Allocator>(
    text: &mut Message<A>,
    shown: &Shown<'_, D, C>,
) -> Written {
    let surplus = surplus_of(shown.image, shown.declaration, shown.certificate);
    push_unused(text, shown, &surplus)?;
    push_idle_offsets(text, shown, &surplus)?;
    let in_vain = (
        "Routines in `returns` lines that never return",
        shown.asserted_in_vain(),
    );
    push_cells(text, &[in_vain])?;
    if text.is_empty() {
        text.push_text(b"The certificate needs all that the declaration lists.\n")?;
    }
    Ok(())
}

/// What is said below a yes: what the declaration lists and the certificate does not need, or that it needs all; and with what
/// routines return. All of this is tested, not proved.
///
/// # Errors
///
/// Memory was refused.
#[inline(never)]
pub fn surplus_message<A: Allocator + Copy, D: Allocator, C: Allocator>(
    alloc: A,
    image: &Image,
    declaration: &Declaration<D>,
    certificate: &Certificate<C>,
) -> Result<Message<A>, AllocError> {
    let shown = Shown {
        image,
        declaration,
        certificate,
    };
    let mut text = Message::new(alloc);
    push_unneeded(&mut text, &shown)?;
    for routine in declaration.routines() {
        push_returns(&mut text, &shown, routine.entry())?;
    }
    Ok(text)
}
