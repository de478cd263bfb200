//! What is declared and claimed about a routine.

use crate::cases::FactDifferences;
use crate::fact_context::ShownFact;
use crate::known_fact::KnownFact;
use crate::report::{Report, claimed_of};
use crate::writer::ReportWriter;
use certificate_lines::RoutineClaim;
use command_parts::sentence::Argument::{Addresses, Number, Offset, Offsets};
use declaration::Routine;
use diagnostics::verdicts::surplus_text::declared_offsets;
use judge::Claims;
use std::alloc::Allocator;
use word12::Word;
use wordset::WordSet;

/// How the cells are told that a routine may write.
fn said_of_written(cells: &WordSet) -> &'static str {
    if cells.is_empty() {
        "nothing"
    } else if cells.is_all() {
        "any cell"
    } else {
        "{}"
    }
}

impl<A: Allocator, D: Allocator, C: Allocator> Report<'_, A, D, C> {
    /// Writes as items what the certificate claims about a routine, if it is listed.
    fn write_claimed_items(&self, writer: &mut ReportWriter<'_, A>, entry: Word) {
        let Some(claimed) = self.certificate.routine(entry) else {
            return writer.item("nothing is claimed about it", &[]);
        };
        writer.item("rank {}", &[Number(claimed.rank)]);
        writer.item("called from {}", &[Addresses(&claimed.sites)]);
        writer.item("may write ", &[]);
        writer.fill(
            said_of_written(&claimed.writes),
            &[Addresses(&claimed.writes)],
        );
    }

    /// Writes as columns of a table what the certificate claims about a routine, if it is listed.
    pub(crate) fn write_claimed_columns(&self, writer: &mut ReportWriter<'_, A>, entry: Word) {
        let Some(claimed) = self.certificate.routine(entry) else {
            return writer.fill("<td colspan=3>nothing is claimed about it", &[]);
        };
        let (rank, sites) = (Number(claimed.rank), Addresses(&claimed.sites));
        writer.fill("<td>{}<td>{}<td>", &[rank, sites]);
        writer.fill(
            said_of_written(&claimed.writes),
            &[Addresses(&claimed.writes)],
        );
    }

    /// Writes a routine in a line: its entry, its rank, from where it is called, what it may write, and how it returns.
    pub(crate) fn write_routine(&self, writer: &mut ReportWriter<'_, A>, routine: &Routine) {
        let entry = routine.entry();
        writer.begin_items(0);
        writer.item("routine ", &[]);
        writer.named(entry);
        self.write_claimed_items(writer, entry);
        let offsets = declared_offsets(self.declaration, entry);
        writer.item("returns by {}", &[Offsets(&offsets)]);
    }

    /// Writes the line of an exit: what holds when the routine returns by that offset.
    fn write_exit_line(
        &self,
        writer: &mut ReportWriter<'_, A>,
        claimed: &RoutineClaim,
        offset: usize,
        exit: &KnownFact,
    ) {
        writer.mark(b"<tr><td colspan=3>");
        writer.fill("return by {}", &[Offset(offset)]);
        writer.mark(b"<td>");
        writer.begin_items(if offset < 8 { 14 } else { 13 });
        let shown = ShownFact {
            setting: self.setting_of(claimed),
            known: exit,
            above: None,
            apart: FactDifferences::by_nothing(),
        };
        shown.write_exit(writer);
        writer.put(b"\n");
    }

    /// Writes a line for each exit of a routine that is claimed. One fact is lent.
    pub(crate) fn write_exits(
        &self,
        writer: &mut ReportWriter<'_, A>,
        entry: Word,
        exit: &mut KnownFact,
    ) {
        let certificate = self.certificate;
        let claimed = claimed_of(certificate, entry);
        for offset in 0..64usize {
            for index in 0..certificate.count_exits(entry, offset) {
                exit.read_exit(certificate, &claimed.sites, entry, offset, index);
                self.write_exit_line(writer, &claimed, offset, exit);
            }
        }
    }
}
