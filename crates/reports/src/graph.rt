//! The routines as a graph: one below the other, main first and each routine below those that call it, with an arc for each call.

use crate::map::colour_of;
use crate::report::{Finding, Report, claimed_of};
use crate::writer::ReportWriter;
use command_parts::message::MessageWriter;
use command_parts::sentence::Argument::{Number, Offsets, Text};
use declaration::Routine;
use diagnostics::verdicts::surplus_text::declared_offsets;
use std::alloc::{AllocError, Allocator};
use word12::Word;

/// How far it is from the upper edge of one box to that of the next.
const DOWN: usize = 60;

/// How much farther a line goes to the side for each box that it passes.
const ASIDE: usize = 24;

/// What stands between what ranks show and the rows of the table.
const COLUMNS: &[u8] =
    b"</p>\n<table>\n<tr><th>entry<th>rank<th>called from<th>the routine and what it calls may write\
<th>words skipped after the call when it returns\n";

/// The place of the box of main, which is the first.
const MAIN: usize = 0;

/// The upper edge of the box at a place.
fn top(place: usize) -> usize {
    place.saturating_mul(DOWN).saturating_add(5)
}

/// Writes a line from a caller's box to a callee's: it leaves the one box below its middle, and comes to the other above its
/// middle, in an arc that goes the farther to the side the more boxes it passes.
fn write_line<A: Allocator>(writer: &mut ReportWriter<'_, A>, caller: usize, callee: usize) {
    let from = top(caller).saturating_add(28);
    let to = top(callee).saturating_add(12);
    let aside = caller
        .abs_diff(callee)
        .saturating_mul(ASIDE)
        .saturating_add(130);
    writer.fill(
        "<path class=l d=\"M130 {}C{} {} {} {} 130 {}\" />",
        &[
            Number(from),
            Number(aside),
            Number(from),
            Number(aside),
            Number(to),
            Number(to),
        ],
    );
}

/// Writes a box: that of the routine with this entry, with its label, or that of main.
fn write_box<A: Allocator>(
    writer: &mut ReportWriter<'_, A>,
    place: usize,
    class: &str,
    entry: Option<Word>,
) {
    let top = top(place);
    writer.fill(
        "<rect class=b width=120 height=40 x=10 y={} /><rect width=10 height=40 class={} x=10 y={} /><text class=n x=28 y={}>",
        &[
            Number(top),
            Text(class),
            Number(top),
            Number(top.saturating_add(24)),
        ],
    );
    match entry {
        None => writer.put(b"main"),
        Some(entry) => writer.named(entry),
    }
    writer.put(b"</text>\n");
}

/// The place of the box of the routine that is at this place of the declaration: below main, by falling ranks.
fn place_of(ranks: &[usize], at: usize) -> usize {
    let own = ranks.get(at).copied().unwrap_or(0);
    let mut place = 1usize;
    for (other, rank) in ranks.iter().enumerate() {
        if *rank > own || (*rank == own && other < at) {
            place = place.saturating_add(1);
        }
    }
    place
}

/// What the ranks show; after a no it is only claimed.
fn ranks_text(finding: Finding) -> &'static [u8] {
    match finding {
        Finding::Shown => {
            b"Ranks fall from caller to callee, so no routine is called again before it has returned."
        }
        Finding::Refused(_) => {
            b"Ranks should fall from caller to callee; this certificate does not show that they do."
        }
        Finding::Stuck(_) => {
            b"Ranks should fall from caller to callee; in a draft there are ranks only as far as the search got."
        }
    }
}

impl<A: Allocator, D: Allocator, C: Allocator> Report<'_, A, D, C> {
    /// The ranks of the routines, in the order of the declaration.
    fn ranks_of(&self, alloc: A) -> Result<Vec<usize, A>, AllocError> {
        let mut ranks = Vec::new(alloc);
        for routine in self.declaration.routines() {
            ranks.push(claimed_of(self.certificate, routine.entry()).rank)?;
        }
        Ok(ranks)
    }

    /// Writes the lines to a routine from those that have one of its sites in their bodies.
    fn write_call_lines(
        &self,
        writer: &mut ReportWriter<'_, A>,
        ranks: &[usize],
        at: usize,
        routine: &Routine,
    ) {
        let callee = place_of(ranks, at);
        let sites = claimed_of(self.certificate, routine.entry()).sites;
        if !sites.meet(self.declaration.main()).is_empty() {
            write_line(writer, MAIN, callee);
        }
        for (other, caller) in self.declaration.routines().iter().enumerate() {
            if !sites.meet(caller.body()).is_empty() {
                write_line(writer, place_of(ranks, other), callee);
            }
        }
    }

    /// Writes the row of a routine in the table.
    fn write_routine_row(&self, writer: &mut ReportWriter<'_, A>, routine: &Routine) {
        let entry = routine.entry();
        writer.put(b"<tr><td>");
        let _ = writer.push_address(entry);
        self.write_claimed_columns(writer, entry);
        let offsets = declared_offsets(self.declaration, entry);
        writer.fill("<td>{}\n", &[Offsets(&offsets)]);
    }

    /// Writes the drawing: the lines, and above them the boxes.
    fn write_drawing(&self, writer: &mut ReportWriter<'_, A>, ranks: &[usize]) {
        let width = ranks.len().saturating_mul(ASIDE).saturating_add(150);
        let height = top(ranks.len()).saturating_add(45);
        writer.fill(
            "<svg role=img aria-label=\"graph of calls\" width={} viewBox=\"0 0 {} {}\">\n",
            &[Number(width), Number(width), Number(height)],
        );
        for (at, routine) in self.declaration.routines().iter().enumerate() {
            self.write_call_lines(writer, ranks, at, routine);
        }
        write_box(writer, MAIN, "m", None);
        self.write_boxes(writer, ranks);
        writer.put(b"</svg>\n");
    }

    /// Writes the boxes of the routines, which lead to their lines.
    fn write_boxes(&self, writer: &mut ReportWriter<'_, A>, ranks: &[usize]) {
        for (at, routine) in self.declaration.routines().iter().enumerate() {
            let entry = routine.entry();
            writer.link(entry);
            write_box(writer, place_of(ranks, at), colour_of(at), Some(entry));
            writer.put(b"</a>");
        }
    }

    /// Writes the routines: a drawing of who calls whom, and a table.
    pub(crate) fn write_graph(
        &self,
        writer: &mut ReportWriter<'_, A>,
        alloc: A,
    ) -> Result<(), AllocError> {
        writer.put(b"<h2 id=routines>Routines, addresses in octal and ranks in decimal</h2>\n");
        if self.declaration.routines().is_empty() {
            writer.put(b"<p>There are none: everything is main.</p>\n");
            return Ok(());
        }
        let ranks = self.ranks_of(alloc)?;
        self.write_drawing(writer, &ranks);
        writer.put(b"<p>An arc leads from a caller down to what it calls. ");
        writer.put(ranks_text(self.finding));
        writer.put(COLUMNS);
        for routine in self.declaration.routines() {
            self.write_routine_row(writer, routine);
        }
        writer.put(b"</table>\n");
        Ok(())
    }
}
