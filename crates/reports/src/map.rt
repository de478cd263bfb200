//! Memory as a map: rows of 64 cells, two for each page of memory in which something stands.

use crate::report::{CellKind, Report, before};
use crate::writer::ReportWriter;
use command_parts::sentence::Argument::{Address, Cell, Name, Number, Octal, Text};
use declaration::Declaration;
use std::alloc::Allocator;
use word12::Word;
use wordset::WordSet;

/// How many colours there are for routines.
const COLOURS: usize = 6;

/// Where the first cell stands, and how far it is from one cell to the next.
const LEFT: usize = 34;

const TOP: usize = 14;

const STEP: usize = 10;

/// How many pages of memory there are, and how many words each has.
const PAGES: usize = 32;

const PAGE_WORDS: usize = 128;

/// What the map begins with.
const MAP: &str =
    "<h2 id=memory>Memory, addresses in octal</h2>\n<svg viewBox=\"0 0 680 {}\" width=680 role=img aria-label=\"map of memory\">\n\
<rect class=u x=34 y=14 width=640 height={} />\n";

/// What colours and marks mean that are not those of a body.
const LEGEND: &[u8] = b"<span class=\"k e\"></span>entry of a routine\n\
<span class=\"k v\"></span>variable\n\
<span class=\"k o\"></span>other word of the tape\n\
<br>A red ring is a declared halt, a black frame the start, a yellow dot a variable among instructions, a red frame \
the place of a no. Each row has 0100 cells; consecutive pages of memory in which nothing stands are one row. A cell leads to its line of the listing.</p>\n";

/// Where a cell stands from the left.
fn left_of(at: Word) -> usize {
    LEFT + STEP * usize::from(at.low_half())
}

/// Where the rows of the map stand.
#[derive(Drop)]
struct MapRows {
    /// The cells of the pages in which nothing stands.
    empty: WordSet,
    /// The upper edge of the first row of each page.
    tops: [usize; PAGES],
    /// The lower edge of the last row.
    bottom: usize,
}

/// How high the rows are that the page which begins at an address adds: two rows, or one for the first of several in
/// which nothing stands.
fn height_of(empty: &WordSet, first: Word) -> usize {
    if !empty.contains(first) {
        2 * STEP
    } else if first == Word::ZERO || !empty.contains(before(first)) {
        STEP
    } else {
        0
    }
}

impl MapRows {
    /// The rows for a report.
    fn of<B: Allocator, D: Allocator, C: Allocator>(report: &Report<'_, B, D, C>) -> MapRows {
        let empty = report.empty_cells();
        let mut tops = [TOP; PAGES];
        let mut bottom = TOP;
        for (page, top) in tops.iter_mut().enumerate() {
            *top = bottom;
            let height = height_of(&empty, Word::from_index(PAGE_WORDS.saturating_mul(page)));
            bottom = bottom.saturating_add(height);
        }
        MapRows {
            empty,
            tops,
            bottom,
        }
    }

    /// Where a cell stands from above.
    fn top_of(&self, at: Word) -> usize {
        let row = usize::from(at.high_half());
        self.tops[row / 2].saturating_add(STEP * (row % 2))
    }
}

/// The class of a colour for a routine.
pub(crate) fn colour_of(place: usize) -> &'static str {
    match place % COLOURS {
        0 => "r0",
        1 => "r1",
        2 => "r2",
        3 => "r3",
        4 => "r4",
        _ => "r5",
    }
}

/// The class of a cell's colour.
fn class_of<D: Allocator>(declaration: &Declaration<D>, kind: &CellKind) -> &'static str {
    match kind {
        CellKind::Entry => "e",
        CellKind::Main => "m",
        CellKind::Routine(entry) => {
            let mut routines = declaration.routines().iter();
            colour_of(
                routines
                    .position(|routine| routine.entry() == *entry)
                    .unwrap_or(0),
            )
        }
        CellKind::Variable => "v",
        CellKind::Other => "o",
        CellKind::Unset => "u",
    }
}

/// Writes a text beside the row that begins at an address.
fn begin_row_text<A: Allocator>(writer: &mut ReportWriter<'_, A>, rows: &MapRows, first: Word) {
    let base = rows.top_of(first).saturating_add(8);
    writer.fill("<text x=4 y={}>{}", &[Number(base), Octal(first)]);
}

/// Writes the numbers at the side.
fn write_row_numbers<A: Allocator>(writer: &mut ReportWriter<'_, A>, rows: &MapRows) {
    for row in 0..64usize {
        let first = Word::from_index(64 * row);
        if !rows.empty.contains(first) {
            begin_row_text(writer, rows, first);
            writer.put(b"</text>");
        }
    }
}

/// Writes beside each row of pages in which nothing stands which these are.
fn write_empty_rows<A: Allocator>(writer: &mut ReportWriter<'_, A>, rows: &MapRows) {
    for (first, last) in rows.empty.ranges() {
        begin_row_text(writer, rows, first);
        writer.fill("-{}: nothing</text>", &[Octal(last)]);
    }
}

/// Writes the numbers above.
fn write_column_numbers<A: Allocator>(writer: &mut ReportWriter<'_, A>) {
    for column in 0..8usize {
        writer.fill(
            "<text x={} y=10>+{}</text>",
            &[Number(LEFT + 8 * STEP * column), Number(10 * column)],
        );
    }
}

/// Writes a circle or a dot in the middle of a cell.
fn write_dot<A: Allocator>(
    writer: &mut ReportWriter<'_, A>,
    rows: &MapRows,
    at: Word,
    class: &'static str,
    size: &'static str,
) {
    let left = Number(left_of(at).saturating_add(STEP / 2));
    let top = Number(rows.top_of(at).saturating_add(STEP / 2));
    writer.fill(
        "<circle class={} cx={} cy={} r={} />",
        &[Text(class), left, top, Text(size)],
    );
}

/// Writes the square of a cell, or a frame around it.
fn write_square<A: Allocator>(
    writer: &mut ReportWriter<'_, A>,
    rows: &MapRows,
    at: Word,
    class: &str,
) {
    let (left, top) = (Number(left_of(at)), Number(rows.top_of(at)));
    writer.put(b"<rect class=");
    writer.put(class.as_bytes());
    writer.fill(" x={} y={} width=9 height=9 />", &[left, top]);
}

impl<A: Allocator, D: Allocator, C: Allocator> Report<'_, A, D, C> {
    /// Whether nothing stands in the page that begins at an address.
    fn is_empty_page(&self, first: Word) -> bool {
        for offset in 0..PAGE_WORDS {
            let at = first.add(Word::from_index(offset));
            if self.kind_of(at) != CellKind::Unset || self.is_marked(at) {
                return false;
            }
        }
        true
    }

    /// The cells of the pages in which nothing stands.
    fn empty_cells(&self) -> WordSet {
        let mut empty = WordSet::empty();
        for page in 0..PAGES {
            let first = Word::from_index(PAGE_WORDS * page);
            if self.is_empty_page(first) {
                let last = first.add(Word::from_index(PAGE_WORDS - 1));
                empty = empty.union(&WordSet::range(first, last));
            }
        }
        empty
    }

    /// Writes the marks of a cell: a variable in a body, a halt, the start, the place of a no.
    fn write_marks(
        &self,
        writer: &mut ReportWriter<'_, A>,
        rows: &MapRows,
        at: Word,
        kind: &CellKind,
    ) {
        let declaration = self.declaration;
        if declaration.is_variable(at) && *kind != CellKind::Variable {
            write_dot(writer, rows, at, "w", "2.5");
        }
        if declaration.is_stop(at) || declaration.is_pause(at) {
            write_dot(writer, rows, at, "h", "3");
        }
        if self.is_start(at) {
            write_square(writer, rows, at, "s");
        }
        if self.is_marked(at) {
            write_square(writer, rows, at, "\"s bad\"");
        }
    }

    /// Writes what is shown where a pointer rests on a cell: what stands there, and the word that the tape has for it.
    fn write_cell_title(&self, writer: &mut ReportWriter<'_, A>, at: Word, kind: &CellKind) {
        writer.put(b"<title>");
        writer.named(at);
        match kind {
            CellKind::Entry => writer.put(b" entry"),
            CellKind::Main => writer.put(b" main"),
            CellKind::Routine(entry) => writer.fill(" routine {}", &[Cell(*entry)]),
            CellKind::Variable => writer.put(b" variable"),
            CellKind::Other => writer.put(b" other word"),
            CellKind::Unset => writer.put(b" unset"),
        }
        if let Some(word) = self.image.get(at) {
            let template = if self.is_code(at) { ": {} {}" } else { ": {}" };
            let name = Name(word, self.declaration.profile());
            writer.fill(template, &[Octal(word), name]);
        }
        writer.put(b"</title>");
    }

    /// Writes a cell, which leads to its line.
    fn write_map_cell(
        &self,
        writer: &mut ReportWriter<'_, A>,
        rows: &MapRows,
        at: Word,
        line: Word,
    ) {
        let kind = self.kind_of(at);
        writer.link(line);
        self.write_cell_title(writer, at, &kind);
        write_square(writer, rows, at, class_of(self.declaration, &kind));
        self.write_marks(writer, rows, at, &kind);
        writer.put(b"</a>\n");
    }

    /// Writes the cells at which something stands.
    fn write_map_cells(&self, writer: &mut ReportWriter<'_, A>, rows: &MapRows) {
        let mut line = Word::ZERO;
        for index in 0..4096 {
            let at = Word::from_index(index);
            if writer.has_line(at) {
                line = at;
            }
            if self.kind_of(at) != CellKind::Unset || self.is_marked(at) {
                self.write_map_cell(writer, rows, at, line);
            }
        }
    }

    /// Writes what the colours and marks mean.
    fn write_legend(&self, writer: &mut ReportWriter<'_, A>) {
        writer.put(b"<p><span class=\"k m\"></span>main\n");
        for (place, routine) in self.declaration.routines().iter().enumerate() {
            writer.fill(
                "<span class=\"k {}\"></span>routine {}\n",
                &[Text(colour_of(place)), Address(routine.entry())],
            );
        }
        writer.put(LEGEND);
    }

    /// Writes memory as a map.
    pub(crate) fn write_map(&self, writer: &mut ReportWriter<'_, A>) {
        let rows = MapRows::of(self);
        let height = Number(rows.bottom.saturating_add(6));
        writer.fill(MAP, &[height, Number(rows.bottom.saturating_sub(TOP))]);
        write_row_numbers(writer, &rows);
        write_empty_rows(writer, &rows);
        write_column_numbers(writer);
        writer.put(b"\n");
        self.write_map_cells(writer, &rows);
        writer.put(b"</svg>\n");
        self.write_legend(writer);
    }
}
