//! Finds all faults of a source that can be found, one after another.

use crate::copies::{copies_of, first_fault, replace};
use crate::examination::{Examination, Source};
use crate::findings::{Finding, has_order_mark};
use crate::lines::{Written, bytes_between, count_characters, line_at, push_marked};
use crate::meanings::{NOWHERE, meanings_before};
use crate::statement::{Act, FaultyStatement, faulty_of};
use instruct::Profile;
use pal_acts::{FaultCode, SourcePlace, permanent_table};
use pal_asm::PalFault;
use pal_text::TokenKind;
use std::alloc::{AllocError, Allocator};

/// How many faults are reported before the search for more ends.
const MOST_FAULTS: usize = 20;

/// The maximum number of statements that are left out.
const MOST_STATEMENTS: usize = 60;

/// The findings about a fault.
fn findings_of<A: Allocator + Copy>(
    alloc: A,
    source: &Source<'_>,
    copies: &[Vec<u8, A>],
    faulty: &FaultyStatement<A>,
) -> Result<Vec<Finding<A>, A>, AllocError> {
    let permanent = permanent_table(alloc, source.profile)?;
    let before = meanings_before(alloc, &permanent, copies, faulty.place)?;
    let known = meanings_before(alloc, &permanent, copies, NOWHERE)?;
    let examination = Examination {
        alloc,
        source,
        before: &before,
        known: &known,
        faulty,
    };
    examination.findings()
}

/// Adds a finding about a fault, with its place, the marked line and the advice.
fn push_finding<A: Allocator + Copy>(
    alloc: A,
    text: &mut String<A>,
    source: &Source<'_>,
    faulty: &FaultyStatement<A>,
    finding: &Finding<A>,
) -> Written {
    let bytes = source.bytes(faulty.part);
    let found = line_at(alloc, bytes, finding.start)?;
    let before = count_characters(bytes_between(bytes, found.line.start, finding.start));
    let name = source.name(faulty.part);
    let number = found.number;
    let column = before.saturating_add(1);
    let code = faulty.code;
    write!(text, "{name}:{number}:{column}: {code}: ")?;
    text.push_str(finding.wrong.as_str())?;
    text.push('\n')?;
    push_marked(text, bytes, found.line, finding.start, finding.end)?;
    text.push_str(finding.advice.as_str())?;
    text.push('\n')
}

/// Where the tag that begins at this place ends.
fn end_of_tag<A: Allocator>(faulty: &FaultyStatement<A>, start: usize) -> usize {
    for token in faulty.tags() {
        if token.kind == TokenKind::Comma && token.start > start {
            return token.end;
        }
    }
    faulty.end
}

/// The byte that replaces the body of a statement that is left out.
fn placeholder_of<A: Allocator>(bytes: &[u8], faulty: &FaultyStatement<A>) -> u8 {
    match faulty.code {
        FaultCode::PauseInLastPart => b'$',
        FaultCode::Redefined => b' ',
        _ if faulty.loses_location(bytes) => b' ',
        _ => b'0',
    }
}

/// Leaves a fault out of a part: the tag at this place, or the body of the statement, where the word or the value 0 is
/// put in its place. A body that was left out before becomes blank, and so does a byte order mark.
fn leave_out<A: Allocator>(
    bytes: &mut [u8],
    faulty: &FaultyStatement<A>,
    marked: usize,
    is_again: bool,
) {
    if faulty.code == FaultCode::DuplicateTag {
        let end = end_of_tag(faulty, marked);
        return replace(bytes, marked, end, b' ');
    }
    if faulty.start == 0 && has_order_mark(bytes) {
        replace(bytes, 0, 1, b' ');
        return replace(bytes, 2, 3, b' ');
    }
    let filler = if is_again {
        b' '
    } else {
        placeholder_of(bytes, faulty)
    };
    match faulty.body() {
        [] => replace(bytes, faulty.start, faulty.end, b' '),
        [_, equals, ..] if faulty.act() == Act::Assigns && filler == b'0' => {
            replace(bytes, equals.end, faulty.end, filler);
        }
        [first, ..] => replace(bytes, first.start, faulty.end, filler),
    }
}

/// How far the search for faults has come: how many findings were reported, which statements had a fault, and whether
/// an origin was left out, so that locations are no longer known.
#[derive(Drop)]
struct FaultProgress<A: Allocator> {
    told: usize,
    places: Vec<SourcePlace, A>,
    is_astray: bool,
}

/// Whether the fault of a statement is reported. A statement that had a fault before is reported again only for a tag,
/// and a reference to another page only while locations are known.
fn is_told<A: Allocator>(
    course: &FaultProgress<A>,
    faulty: &FaultyStatement<A>,
    is_again: bool,
) -> bool {
    match faulty.code {
        FaultCode::DuplicateTag => true,
        FaultCode::IllegalReference => !is_again && !course.is_astray,
        _ => !is_again,
    }
}

/// Adds the findings about the first fault of the copies, and leaves that fault out of them.
fn push_next<A: Allocator + Copy>(
    alloc: A,
    text: &mut String<A>,
    source: &Source<'_>,
    copies: &mut [Vec<u8, A>],
    fault: PalFault,
    course: &mut FaultProgress<A>,
) -> Written {
    let part = fault.part.saturating_sub(1);
    let Some(copy) = copies.get(part) else {
        return Ok(());
    };
    let faulty = faulty_of(alloc, copy, fault)?;
    let is_again = course.places.contains(&faulty.place);
    let findings = findings_of(alloc, source, copies, &faulty)?;
    if is_told(course, &faulty, is_again) {
        for finding in &findings {
            push_finding(alloc, text, source, &faulty, finding)?;
        }
        course.told = course.told.saturating_add(findings.len());
    }
    let marked = findings
        .first()
        .map_or(faulty.start, |finding| finding.start);
    if let Some(copy) = copies.get_mut(part) {
        course.is_astray = course.is_astray || faulty.loses_location(copy);
        course.places.push(faulty.place)?;
        leave_out(copy, &faulty, marked, is_again);
    }
    Ok(())
}

/// Adds everything that can be said about the faults of a source that is not too long, beginning with the first fault.
/// After each fault, the source is assembled again without it. This ends once 20 faults are reported, 60 statements are
/// left out, or the table of symbols is full.
///
/// # Errors
///
/// `AllocError` if memory was refused.
pub fn push_faults<A: Allocator + Copy>(
    alloc: A,
    text: &mut String<A>,
    names: &[&str],
    parts: &[&[u8]],
    profile: Profile,
) -> Written {
    let source = Source {
        names,
        parts,
        profile,
    };
    let mut copies = copies_of(alloc, parts)?;
    let mut course = FaultProgress {
        told: 0,
        places: Vec::new(alloc),
        is_astray: false,
    };
    for _ in 0..MOST_STATEMENTS {
        let Some(fault) = first_fault(alloc, &copies, profile)? else {
            return Ok(());
        };
        if course.told >= MOST_FAULTS {
            break;
        }
        push_next(alloc, text, &source, &mut copies, fault, &mut course)?;
        if fault.code == FaultCode::TableFull {
            break;
        }
    }
    text.push_str("there may be more faults: fix these first\n")
}
