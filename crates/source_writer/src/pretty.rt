//! A source as a reader wants to see it.

use crate::outline::{Outline, previous};
use bin_tape::Image;
use instruct::{Instruction, Operation, Profile, decode, halts};
use processor::is_auto_index;
use std::alloc::{AllocError, Allocator};
use word12::Word;

/// Whether control may come to the next cell from those before it, and whether the last one was code.
#[derive(Clone, Copy)]
struct Flow {
    is_open: bool,
    was_code: bool,
}

/// Adds a comment in its column behind a statement of so many columns.
fn push_comment<A: Allocator>(
    text: &mut Vec<u8, A>,
    width: usize,
    remark: &[u8],
) -> Result<(), AllocError> {
    if remark.is_empty() {
        return Ok(());
    }
    if width < 8 {
        text.extend_from_slice(b"\t")?;
    }
    if width < 16 {
        text.extend_from_slice(b"\t/")?;
    } else {
        text.extend_from_slice(b" /")?;
    }
    text.extend_from_slice(remark)
}

impl Outline {
    /// Adds the first line.
    fn push_title<A: Allocator>(&self, text: &mut Vec<u8, A>) -> Result<(), AllocError> {
        text.extend_from_slice(b"/From a tape, for the ")?;
        match self.profile {
            Profile::Pdp8I => text.extend_from_slice(b"PDP-8/I")?,
            Profile::Pdp8E => text.extend_from_slice(b"PDP-8/E")?,
        }
        text.extend_from_slice(b". Start: ")?;
        text.extend_from_slice(&self.start.to_octal())?;
        text.extend_from_slice(b"\n")
    }

    /// Adds an assignment for a cell that has a symbol and no word.
    fn push_assignment<A: Allocator>(
        &self,
        text: &mut Vec<u8, A>,
        cell: Word,
    ) -> Result<(), AllocError> {
        self.push_symbol(text, cell)?;
        text.extend_from_slice(b"=")?;
        text.extend_from_slice(&cell.to_octal())?;
        if is_auto_index(cell) {
            text.extend_from_slice(b"\t\t/auto-index")?;
        }
        text.extend_from_slice(b"\n")
    }

    /// Adds assignments for the cells that have a symbol and no word.
    fn push_assignments<A: Allocator>(
        &self,
        text: &mut Vec<u8, A>,
        image: &Image,
    ) -> Result<(), AllocError> {
        for index in 0..4096usize {
            let cell = Word::from_index(index);
            if self.tagged.contains(cell) && image.get(cell).is_none() {
                self.push_assignment(text, cell)?;
            }
        }
        Ok(())
    }

    /// Adds the heading of a body that begins at a cell, where there is a declaration.
    fn push_heading<A: Allocator>(
        &self,
        text: &mut Vec<u8, A>,
        at: Word,
    ) -> Result<(), AllocError> {
        let Some(declared) = &self.declared else {
            return Ok(());
        };
        if self.entries.contains(at) {
            text.extend_from_slice(b"/Routine ")?;
            self.push_symbol(text, at)?;
            return text.extend_from_slice(b"\n");
        }
        match declared.main.least() {
            Some(first) if first == at => text.extend_from_slice(b"/Main program\n"),
            _ => Ok(()),
        }
    }

    /// Adds what comes before the line of a cell: an empty line where something new begins, a heading,
    /// and an origin where a run of words begins.
    fn push_before<A: Allocator>(
        &self,
        text: &mut Vec<u8, A>,
        image: &Image,
        at: Word,
        flow: &Flow,
    ) -> Result<(), AllocError> {
        let begins_run = at.index() == 0 || image.get(previous(at)).is_none();
        let is_new = self.entries.contains(at)
            || !flow.is_open && self.code.contains(at) != flow.was_code;
        if begins_run || is_new {
            text.extend_from_slice(b"\n")?;
        }
        self.push_heading(text, at)?;
        if begins_run {
            text.extend_from_slice(b"*")?;
            text.extend_from_slice(&at.to_octal())?;
            text.extend_from_slice(b"\n")?;
        }
        Ok(())
    }

    /// Adds the line of a cell.
    fn push_line<A: Allocator>(
        &self,
        text: &mut Vec<u8, A>,
        image: &Image,
        at: Word,
        word: Word,
        remark: &[u8],
    ) -> Result<(), AllocError> {
        if self.tagged.contains(at) {
            self.push_symbol(text, at)?;
            text.extend_from_slice(b",")?;
        }
        text.extend_from_slice(b"\t")?;
        let before = text.len();
        self.push_statement(text, image, at, word)?;
        let width = text.len().saturating_sub(before);
        push_comment(text, width, remark)?;
        text.extend_from_slice(b"\n")
    }

    /// How control goes on behind a cell with this word. Through data it goes as it went before: behind a
    /// call they are arguments.
    fn flow_after(&self, at: Word, word: Word, flow: &Flow) -> Flow {
        if self.entries.contains(at) {
            return Flow {
                is_open: true,
                was_code: true,
            };
        }
        if !self.code.contains(at) {
            return Flow {
                is_open: flow.is_open,
                was_code: false,
            };
        }
        let jumps = decode(word, self.profile) == Instruction::Memory
            && Operation::of(word) == Operation::Jmp;
        let stops = decode(word, self.profile) == Instruction::Operate2 && halts(word);
        Flow {
            is_open: !jumps && !stops || stops && self.code.contains(at.increment()),
            was_code: true,
        }
    }
}

/// The source of an image as this outline shows it, with comments or without them. Those of the whole program are given.
pub(crate) fn pretty_source<A: Allocator + Copy>(
    alloc: A,
    image: &Image,
    outline: &Outline,
    comments: Option<&[u8]>,
) -> Result<Vec<u8, A>, AllocError> {
    let mut text = Vec::new(alloc);
    let mut remark = Vec::new(alloc);
    outline.push_title(&mut text)?;
    text.extend_from_slice(comments.unwrap_or(b""))?;
    outline.push_assignments(&mut text, image)?;
    let mut flow = Flow {
        is_open: false,
        was_code: false,
    };
    for index in 0..4096usize {
        let at = Word::from_index(index);
        let Some(word) = image.get(at) else {
            continue;
        };
        remark.clear();
        if comments.is_some() {
            outline.push_remark(&mut remark, image, at, word)?;
        }
        outline.push_before(&mut text, image, at, &flow)?;
        outline.push_line(&mut text, image, at, word, &remark)?;
        flow = outline.flow_after(at, word, &flow);
    }
    text.extend_from_slice(b"$\n")?;
    Ok(text)
}
