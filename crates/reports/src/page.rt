//! The page: what the verdict means, memory, routines, variables, and the listing.

ghost use Rattle.reports.specs.Findings.{IsFindingTrue};

use crate::listing::ClaimCache;
use crate::promises::{write_assertions, write_moves, write_returns};
use crate::report::{Finding, Report};
use crate::writer::{ReportForm, ReportWriter};
use command_parts::sentence::Argument::{Address, Addresses, Bytes, Octal, Text};
use declaration::Declaration;
use domain::Rules;
use instruct::Profile;
use judge::Claims;
use std::alloc::{AllocError, Allocator};
use word12::Word;
use wordset::WordSet;

/// Which run a yes is about, after its start.
const RUN: &[u8] =
    b" with these words in memory, whatever all other cells, AC, the link and MQ hold, and whenever keys and tape \
frames come, devices complete and switches change:</p>\n<ul>\n";

/// What a yes does not show.
const NOT_SHOWN: &[u8] =
    b"</ul>\n<p>It is not proved that the program ends, that it prints or computes what was intended, or that the \
declaration is a sensible one: if all cells may be written, a yes says little.</p>\n";

/// What a no says after its address.
const REFUSED: &[u8] =
    b", which is marked below. The program may comply with its declaration all the same. Everything below is what \
the certificate claims, and it may be wrong.</p>\n<pre>";

/// What is said after the address of a search that is stuck.
const STUCK: &[u8] =
    b", which is marked below. The program may comply with its declaration all the same. Everything below is the \
draft of the search: what it had found until then, which may be wrong; it had not reached the addresses without a \
fact.</p>\n<pre>";

/// What a declaration and a certificate are, and the links to the parts of a page.
const PARTS: &[u8] =
    b"<p>A declaration says where the program starts and may halt, which cells are its instructions, which it may \
write, and which routines it has. A certificate says what holds before each instruction, so that compliance with the \
declaration can be checked.</p>\n\
<p>On this page: <a href=#memory>memory</a>, <a href=#routines>routines</a>, \
<a href=#variables>variables</a>, <a href=#listing>listing</a>.</p>\n";

/// What comes after the declared variables, above the table of those of which something is known.
const VARIABLES: &[u8] =
    b". According to the certificate, each of the variables below holds one of the words beside it at every address \
where something is said about it; all others may hold any word:</p>\n<table>\n\
<tr><th>cell<th>on the tape<th>what it may hold\n";

/// How the items of the listing are read.
const ITEMS: &[u8] =
    b"; what is the same as on the line above is grey, and if there are more than eight such items, only the number \
of the others is shown.\n\
<code>AC in 0305,0310</code>: the accumulator holds one of these words. \
<code>0010 in 0224-0230</code>: the cell 0010 holds one of these words. <code>any</code>: nothing is claimed. ";

/// How equations are read.
const EQUATIONS: &[u8] =
    b"<code>[0010] = [0224] + 0231, so 0224-0230</code>: the word in the cell 0010 is the word in the cell 0224 plus 0231, \
modulo 10000; with what is known about both, the cell 0010 holds one of the words after <code>so</code>. If a \
pointer and a count are incremented together, the pointer ends where the count does.";

/// How relations, chains and cases are read.
const RELATIONS: &[u8] =
    b"<code>[0010] is 0002 to 0005 more than [0224]</code>: the word in the cell 0010 is the word in the cell 0224 plus one \
of these numbers, modulo 10000. <code>[0010] + 0012 * [0224] in 0000-0077</code>: this sum is one of these words, \
modulo 10000. <code>the word at [0010]-0001</code>: the word that stood, when the run began, in the cell whose address \
is the word in the cell 0010 less 1. <code>AC comes from [0010] by AND 0370, RTR</code>: AC is what these instructions \
make of the word in the cell 0010; the words of AND and TAD are the operands themselves. <code>AC and L come from [0010] \
and L 0 by</code>: so are AC and the link, where the link was 0 before. <code>unrelated</code>, <code>no longer</code>: \
this is not claimed any more.\n\
<code>one of 2 cases</code>: whenever a run is here, one of the cases below holds. Each has its own line: what tells it \
apart from the others, and then all that is known in it. <code>called from 0202</code>: the running routine was called \
from this address. <code>return word up by 1</code>: its return word has been incremented so often.";

/// What a larger count would do, where an instruction writes through a pointer.
const LARGER: &[u8] =
    b" If the count were larger, the pointer would go further; if the program could then write \
outside its variables, the verdict would be no (V5).";

/// How the rest of the listing is read.
const NAMES: &[u8] = b"\n\
<code>reads</code>, <code>writes</code>: the cells that the instruction may read through a pointer (the pointer \
is one of them), and those that it may write.\n\
All numbers are octal, except the numbers of omitted items, which are decimal. <code>TAD Z010</code> names \
the cell 0010, and \
<code>TAD C024</code> the cell 024 of the page of the instruction; after <code>I</code> comes the cell that \
holds the address, and a cell from 0010 to 0017 is incremented first. <code>ISZ</code> increments a word, and skips \
if it is then 0000. <code>JMS</code> stores the address after it in the cell that it names, the entry of a routine, \
and continues after that cell; <code>JMP I</code> through the entry continues at the address that is stored there: \
it returns.</p>\n<table>\n";

/// Writes a point of a list: a text and cells.
fn write_point<A: Allocator>(writer: &mut ReportWriter<'_, A>, text: &str, cells: &WordSet) {
    if cells.is_empty() {
        writer.fill("<li>{}: none\n", &[Text(text)]);
    } else {
        writer.fill("<li>{}: {}\n", &[Text(text), Addresses(cells)]);
    }
}

/// Writes the parts of what a yes says.
fn write_points<A: Allocator, D: Allocator>(
    writer: &mut ReportWriter<'_, A>,
    declaration: &Declaration<D>,
) {
    write_point(
        writer,
        "only these cells are executed",
        &declaration.bodies(),
    );
    write_point(
        writer,
        "only these cells, the variables, are written",
        declaration.variables(),
    );
    write_point(
        writer,
        "and these entries, by the JMS that calls the routine or by an ISZ of the routine that skips an argument",
        &declaration.entries(),
    );
    write_moves(writer, declaration);
    match declaration.reads() {
        None => writer.put(b"<li>any cell may be read: the declaration has no list of reads\n"),
        Some(cells) => write_point(
            writer,
            "only these cells and the entry of the running routine are read",
            cells,
        ),
    }
    write_returns(writer, declaration);
    write_point(
        writer,
        "if it halts, it halts only at",
        &declaration.stops().union(declaration.pauses()),
    );
    write_point(
        writer,
        "of these, CONTINUE may be pressed only at",
        declaration.pauses(),
    );
    write_assertions(writer, declaration);
}

/// Writes the rest of what a yes says, and what it does not.
fn write_yes<A: Allocator, D: Allocator>(
    writer: &mut ReportWriter<'_, A>,
    declaration: &Declaration<D>,
) {
    let machine = match declaration.profile() {
        Profile::Pdp8I => "PDP-8/I",
        Profile::Pdp8E => "PDP-8/E",
    };
    writer.fill(
        " This holds for <b>every</b> run on a {} that starts at {}",
        &[Text(machine), Address(declaration.start())],
    );
    writer.put(RUN);
    write_points(writer, declaration);
    writer.put(NOT_SHOWN);
}

/// Writes why nothing is shown: what fails, at which address, what that means, and the reason as it is told.
fn write_reason<A: Allocator>(
    writer: &mut ReportWriter<'_, A>,
    fails: &str,
    at: Word,
    means: &[u8],
    why: &[u8],
) {
    writer.fill(fails, &[Address(at)]);
    writer.put(means);
    writer.say(why);
    writer.put(b"</pre>\n");
}

/// Writes from which files the program was read, if they have names.
fn write_files<A: Allocator>(writer: &mut ReportWriter<'_, A>, files: &[u8]) {
    if !files.is_empty() {
        writer.fill("<p>{}</p>\n", &[Bytes(files)]);
    }
}

/// What stands beside an instruction; after a no it is only claimed.
fn listed_text(finding: Finding) -> &'static [u8] {
    match finding {
        Finding::Shown => b"what is known in every run <b>before</b> it is executed",
        Finding::Refused(_) => {
            b"what the certificate claims <b>before</b> it is executed, which is not proved"
        }
        Finding::Stuck(_) => {
            b"what the search had found <b>before</b> it is executed, which is not proved"
        }
    }
}

/// The page after the verdict and what `opening` or `stuck_opening` says about it. `why` is what is said about a no,
/// or of a search that is stuck.
///
/// # Errors
///
/// Memory was refused.
pub fn page_below<A: Allocator + Copy, D: Allocator, C: Allocator>(
    alloc: A,
    report: &Report<'_, A, D, C>,
    why: &[u8],
) -> Result<Vec<u8, A>, AllocError>
    requires { IsFindingTrue report.now }
{
    let mut writer = ReportWriter::new(alloc, ReportForm::Page, &report.lines(), report.notes);
    report.write_verdict(&mut writer, why);
    report.write_map(&mut writer);
    report.write_graph(&mut writer, alloc)?;
    report.write_variables(&mut writer);
    writer.put(b"<h2 id=listing>Listing, in octal</h2>\n<p>Beside each instruction is ");
    writer.put(listed_text(report.finding));
    report.write_reading(&mut writer);
    writer.put(NAMES);
    let mut cache = ClaimCache::boxed(alloc)?;
    report.push_listing(&mut writer, &mut cache);
    writer.put(b"</table>\n</body>\n</html>\n");
    writer.into_bytes()
}

impl<A: Allocator, D: Allocator, C: Allocator> Report<'_, A, D, C> {
    /// Writes the verdict's meaning, after what it opens with, and the files of the program.
    fn write_verdict(&self, writer: &mut ReportWriter<'_, A>, why: &[u8]) {
        match self.finding {
            Finding::Shown => write_yes(writer, self.declaration),
            Finding::Refused(at) => {
                write_reason(writer, " A condition on it fails at {}", at, REFUSED, why);
            }
            Finding::Stuck(at) => write_reason(
                writer,
                " The search for a certificate is stuck at {}",
                at,
                STUCK,
                why,
            ),
        }
        write_files(writer, self.files);
        writer.put(PARTS);
    }

    /// Writes the row of a variable.
    fn write_variable_row(&self, writer: &mut ReportWriter<'_, A>, cell: Word) {
        let word = match self.image.get(cell) {
            Some(word) => Octal(word),
            None => Text("----"),
        };
        writer.fill("<tr><td>{}<td>{}<td>", &[Address(cell), word]);
        writer.begin_items(0);
        self.write_variable(writer, cell);
        writer.put(b"\n");
    }

    /// Writes the variables of which something is known, each with the words that it may hold anywhere.
    fn write_variables(&self, writer: &mut ReportWriter<'_, A>) {
        writer.fill(
            "<h2 id=variables>Variables, in octal</h2>\n<p>The declared variables: {}",
            &[Addresses(self.declaration.variables())],
        );
        writer.put(VARIABLES);
        for index in 0..4096 {
            let cell = Word::from_index(index);
            if self.held_in(cell).is_some() {
                self.write_variable_row(writer, cell);
            }
        }
        writer.put(b"</table>\n");
    }

    /// Writes how the items of the listing are read.
    fn write_reading(&self, writer: &mut ReportWriter<'_, A>) {
        writer.put(ITEMS);
        match self.certificate.rules() {
            Rules::OfSums => writer.put(RELATIONS),
            Rules::OfEquations => {
                writer.put(EQUATIONS);
                if self.writes_through() {
                    writer.put(LARGER);
                }
            }
        }
    }
}
