//! The listing: a line for each address at which something stands, with what is known there.

ghost use Rattle.std.specs.Prelude.{◌≡◌, [], length};
ghost use Rattle.certificate_lines.specs.CertificateInCode.{claims};
ghost use Rattle.reports.specs.Findings.{absence_of};

use crate::cases::FactDifferences;
use crate::fact_context::{ShownFact, write_apart};
use crate::known_fact::KnownFact;
use crate::report::{CellKind, Finding, Report, before, claimed_in};
use crate::source_notes::SourceNote;
use crate::writer::ReportWriter;
use certificate_lines::RoutineClaim;
use command_parts::sentence::Argument::{Bytes, Number, Octal, Text, Words};
use instruct::{Instruction, decode, name, refers_indirectly, target};
use judge::Claims;
use std::alloc::{AllocError, Allocator};
use word12::Word;
use wordset::WordSet;

/// How many blanks stand in plain text between an address with its word, or a row of addresses, and the items.
const SHORT: usize = 16;

/// How many stand after an address alone.
const ALONE: usize = 21;

/// How many stand where no address is.
const WITHOUT: usize = 25;

/// What is said about a cell of a body without a fact.
#[derive(Clone, Copy)]
pub(crate) enum FactAbsence {
    /// No run comes there.
    NeverReached,
    /// There is not a fact.
    NoFact,
}

/// Whether an address is even.
fn is_even(at: Word) -> bool {
    at.index() % 2 == 0
}

/// Facts to read what is claimed into: those at even and those at odd addresses, so that the one above
/// an address mostly stands here already.
#[derive(Drop)]
pub(crate) struct ClaimCache {
    even: KnownFact,
    odd: KnownFact,
    /// An exit.
    exit: KnownFact,
    /// The address of the fact that was read last, if it is the only one there.
    last: Option<Word>,
}

impl ClaimCache {
    /// A cache with nothing in it, on the heap, since it is large.
    ///
    /// # Errors
    ///
    /// Memory was refused.
    pub(crate) fn boxed<A: Allocator>(alloc: A) -> Result<Box<ClaimCache, A>, AllocError> {
        Ok(Box::new(alloc, ClaimCache::new())?)
    }

    /// A cache with nothing in it.
    fn new() -> ClaimCache {
        ClaimCache {
            even: KnownFact::new(),
            odd: KnownFact::new(),
            exit: KnownFact::new(),
            last: None,
        }
    }

    /// Reads the only fact at an address, which has these sites if it has none of its own.
    fn read<B: Allocator, D: Allocator, C: Allocator>(
        &mut self,
        report: &Report<'_, B, D, C>,
        sites: &WordSet,
        at: Word,
    )
        requires { length ((claims report.now.certificate.now).facts at) ≡ 1 }
    {
        let image = report.image;
        let certificate = report.certificate;
        self.last = Some(at);
        if is_even(at) {
            self.even.read(image, certificate, sites, at, 0);
        } else {
            self.odd.read(image, certificate, sites, at, 0);
        }
    }

    /// The fact of an even or an odd address that was read last.
    fn fact(&self, is_even: bool) -> &KnownFact {
        if is_even { &self.even } else { &self.odd }
    }
}

/// Writes what tells a case apart from the others: its number, if nothing else does.
fn write_case_head<A: Allocator>(
    writer: &mut ReportWriter<'_, A>,
    known: &KnownFact,
    apart: &FactDifferences,
    index: usize,
) {
    writer.mark(b"<tr><td colspan=3><td><b>");
    writer.begin_items(WITHOUT);
    writer.separate();
    if apart.is_told() {
        write_apart(writer, known, apart);
    } else {
        writer.fill("case {}", &[Number(index.saturating_add(1))]);
    }
    writer.put(b": ");
    writer.mark(b"</b>");
    writer.begin_items(0);
}

/// Writes what the source says about an address, if it says something: in a page in a further column.
fn write_note<A: Allocator>(writer: &mut ReportWriter<'_, A>, note: Option<SourceNote<'_>>) {
    let Some(note) = note else {
        return;
    };
    writer.mark(b"<td>");
    writer.begin_note(note.label);
    let template = if note.is_first {
        "line {}: {}"
    } else {
        "line {}"
    };
    writer.fill(template, &[Number(note.line), Bytes(note.text)]);
}

impl<A: Allocator, D: Allocator, C: Allocator> Report<'_, A, D, C> {
    /// Writes the name of a word; that of a direct memory reference leads to the line of its cell.
    fn write_word_name(&self, writer: &mut ReportWriter<'_, A>, at: Word, word: Word) {
        let profile = self.declaration.profile();
        let found = name(word, profile);
        let length = found.as_str().len();
        let is_memory = matches!(decode(word, profile), Instruction::Memory);
        let linked = is_memory && !refers_indirectly(word) && writer.has_line(target(word, at));
        if linked {
            writer.link(target(word, at));
        }
        writer.say(found.as_str().as_bytes());
        writer.begin_items(15usize.saturating_sub(length).max(2));
        if linked {
            writer.mark(b"</a>");
        }
    }

    /// Writes address and word, and the name of an instruction.
    fn write_word(&self, writer: &mut ReportWriter<'_, A>, at: Word) {
        writer.mark(if self.is_marked(at) {
            b"<tr class=bad id=a"
        } else {
            b"<tr id=a"
        });
        writer.mark(&at.to_octal());
        writer.mark(b"><td>");
        writer.named(at);
        writer.put(b" ");
        writer.mark(b"<td>");
        writer.begin_items(SHORT);
        let Some(word) = self.image.get(at) else {
            writer.put(b"----");
            return writer.mark(b"<td>");
        };
        writer.fill("{}", &[Octal(word)]);
        writer.mark(b"<td class=c>");
        if self.is_code(at) {
            writer.put(b" ");
            self.write_word_name(writer, at, word);
        }
    }

    /// Writes what is declared of an address.
    fn write_declared(&self, writer: &mut ReportWriter<'_, A>, at: Word) {
        let declaration = self.declaration;
        writer.item_if(self.is_start(at), "start");
        writer.item_if(declaration.is_stop(at), "stop");
        writer.item_if(declaration.is_pause(at), "pause");
        writer.item_if(declaration.is_entry(at), "entry");
    }

    /// Writes which words a variable may hold, and where nothing is known about it.
    pub(crate) fn write_variable(&self, writer: &mut ReportWriter<'_, A>, cell: Word) {
        let Some(held) = self.held_in(cell) else {
            return writer.item("any word", &[]);
        };
        let is_any = held.words.is_all();
        let template = if is_any { "holds any word" } else { "holds {}" };
        writer.item(template, &[Words(&held.words)]);
        if !self.facts.is_subset(&held.known_at) {
            writer.put(b" where it is known");
        }
    }

    /// What is said about a cell of a body without a fact.
    fn absence(&self) -> FactAbsence
        ensures { result ≡ absence_of self.now.finding }
    {
        match self.finding {
            Finding::Shown => FactAbsence::NeverReached,
            Finding::Refused(_) | Finding::Stuck(_) => FactAbsence::NoFact,
        }
    }

    /// Writes what is said about an address without a fact. It is said of no other address that it is never reached.
    fn write_absence(&self, writer: &mut ReportWriter<'_, A>, kind: &CellKind, at: Word)
        requires fact { (claims self.now.certificate.now).facts at ≡ [] }
    {
        match kind {
            CellKind::Main | CellKind::Routine(_) => match self.absence() {
                FactAbsence::NeverReached => writer.item("never reached", &[]),
                FactAbsence::NoFact => writer.item("no fact", &[]),
            },
            CellKind::Variable => self.write_variable(writer, at),
            CellKind::Entry | CellKind::Other | CellKind::Unset => {}
        }
    }

    /// Writes the mark of the address at which the verdict is no or the search is stuck.
    fn write_mark(&self, writer: &mut ReportWriter<'_, A>, at: Word) {
        if !self.is_marked(at) {
            return;
        }
        writer.mark(b"<b>");
        if self.failing.is_empty() {
            writer.item("STUCK HERE", &[]);
        } else {
            writer.item("HERE {} FAILS", &[Text(self.failing)]);
        }
        writer.mark(b"</b>");
    }

    /// Whether the fact on the line above was read last, and is that of the address before this one, which is of the same kind.
    fn is_near(&self, cache: &ClaimCache, kind: &CellKind, at: Word) -> bool {
        let above = before(at);
        at != Word::ZERO && cache.last == Some(above) && self.kind_of(above) == *kind
    }

    /// Writes what is known and done at an address of this kind with one fact.
    fn write_only_fact(
        &self,
        writer: &mut ReportWriter<'_, A>,
        cache: &mut ClaimCache,
        kind: &CellKind,
        at: Word,
    )
        requires { length ((claims self.now.certificate.now).facts at) ≡ 1 }
    {
        let near = self.is_near(cache, kind, at);
        let claimed = claimed_in(self.certificate, kind);
        cache.read(self, &claimed.sites, at);
        let known = cache.fact(is_even(at));
        let shown = ShownFact {
            setting: self.setting_of(&claimed),
            known,
            above: near.then_some(cache.fact(!is_even(at))),
            apart: FactDifferences::by_nothing(),
        };
        shown.write(writer);
        writer.end_same();
        self.write_access(writer, kind, known, at);
        self.write_direct(writer, at);
    }

    /// Writes what is known and done at an address, or how many facts there are if there are several.
    #[tactic(auto, using(crate::proofs::AbsenceLemmas::no_facts))]
    fn write_known(
        &self,
        writer: &mut ReportWriter<'_, A>,
        cache: &mut ClaimCache,
        at: Word,
        count: usize,
    )
        requires { count ≡ length ((claims self.now.certificate.now).facts at) }
    {
        let kind = self.kind_of(at);
        if count == 0 {
            return self.write_absence(writer, &kind, at);
        }
        if count == 1 {
            return self.write_only_fact(writer, cache, &kind, at);
        }
        cache.last = None;
        writer.item("one of {} cases", &[Number(count)]);
        self.write_direct(writer, at);
    }

    /// Writes the line of one of several facts at an address.
    fn write_case(
        &self,
        writer: &mut ReportWriter<'_, A>,
        claimed: &RoutineClaim,
        known: &KnownFact,
        apart: &FactDifferences,
        at: Word,
        index: usize,
    ) {
        write_case_head(writer, known, apart, index);
        if known.is_possible {
            let shown = ShownFact {
                setting: self.setting_of(claimed),
                known,
                above: None,
                apart: *apart,
            };
            shown.write(writer);
            self.write_access(writer, &self.kind_of(at), known, at);
        } else {
            writer.item("never", &[]);
        }
        writer.put(b"\n");
    }

    /// Writes a line for each of several facts at an address.
    fn write_cases(
        &self,
        writer: &mut ReportWriter<'_, A>,
        cache: &mut ClaimCache,
        at: Word,
        count: usize,
    )
        requires { count ≡ length ((claims self.now.certificate.now).facts at) }
    {
        let image = self.image;
        let certificate = self.certificate;
        let claimed = claimed_in(certificate, &self.kind_of(at));
        let apart = FactDifferences::of(
            image,
            certificate,
            &claimed.sites,
            at,
            count,
            &mut cache.even,
            &mut cache.odd,
        );
        for index in 0..count {
            cache
                .even
                .read(image, certificate, &claimed.sites, at, index);
            self.write_case(writer, &claimed, &cache.even, &apart, at, index);
        }
    }

    /// Writes the line of an address.
    fn write_line(&self, writer: &mut ReportWriter<'_, A>, cache: &mut ClaimCache, at: Word) {
        self.write_word(writer, at);
        writer.mark(b"<td>");
        self.write_declared(writer, at);
        let count = self.certificate.count_facts(at, 0);
        self.write_known(writer, cache, at, count);
        self.write_mark(writer, at);
        write_note(writer, self.note_at(at));
        writer.put(b"\n");
        if count > 1 {
            self.write_cases(writer, cache, at, count);
        }
    }

    /// The last address of the row of variables that begins at one, of which nothing is said.
    fn last_quiet(&self, first: Word) -> Word {
        let mut last = first;
        for index in first.index()..4096 {
            let at = Word::from_index(index);
            if !self.is_quiet(at) {
                return last;
            }
            last = at;
        }
        last
    }

    /// Writes the line of a row of variables of which nothing is said.
    fn write_quiet(&self, writer: &mut ReportWriter<'_, A>, first: Word) {
        writer.mark(b"<tr id=a");
        writer.mark(&first.to_octal());
        writer.mark(b"><td colspan=3>");
        let last = self.last_quiet(first);
        writer.named(first);
        if first != last {
            writer.put(b"-");
            writer.named(last);
        }
        writer.mark(b"<td>");
        writer.begin_items(if first == last { ALONE } else { SHORT });
        writer.item("any word\n", &[]);
    }

    /// Writes the heading of lines of a kind; that of a routine with what is claimed about it.
    fn write_heading(&self, writer: &mut ReportWriter<'_, A>, cache: &mut ClaimCache, at: Word) {
        writer.put(b"\n");
        writer.mark(b"<tr><th colspan=4>");
        match self.kind_of(at) {
            CellKind::Main => writer.put(b"main\n"),
            CellKind::Variable => writer.put(b"variables\n"),
            CellKind::Other => writer.put(b"other words of the tape\n"),
            CellKind::Unset => writer.put(b"nothing is declared here\n"),
            CellKind::Routine(entry) => {
                writer.put(b"body of routine ");
                writer.named(entry);
                writer.put(b"\n");
            }
            CellKind::Entry => {
                for routine in self.declaration.routines() {
                    if routine.entry() == at {
                        self.write_routine(writer, routine);
                    }
                }
                writer.put(b"\n");
                self.write_exits(writer, at, &mut cache.exit);
            }
        }
    }

    /// Whether the line of an address needs a heading, where the line before is that of another address or
    /// of none: where it is of another kind. The lines of a routine's body need none below its entry.
    fn needs_heading(&self, at: Word, last: &Option<Word>) -> bool {
        let Some(last) = last else {
            return true;
        };
        let (above, kind) = (self.kind_of(*last), self.kind_of(at));
        match kind {
            CellKind::Entry => true,
            CellKind::Routine(entry) => above != kind && *last != entry,
            _ => above != kind,
        }
    }

    /// Writes the listing.
    pub(crate) fn push_listing(&self, writer: &mut ReportWriter<'_, A>, cache: &mut ClaimCache) {
        let mut last = None;
        for index in 0..4096 {
            let at = Word::from_index(index);
            if writer.has_line(at) {
                if self.needs_heading(at, &last) {
                    self.write_heading(writer, cache, at);
                }
                if self.is_quiet(at) {
                    self.write_quiet(writer, at);
                } else {
                    self.write_line(writer, cache, at);
                }
                last = Some(at);
            }
        }
    }
}
