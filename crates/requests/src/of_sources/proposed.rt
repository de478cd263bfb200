//! Messages about a declaration that is proposed for a source.

/// Whether a line of a source has a comment in which blanks come before a colon, so that it declares nothing.
fn is_blanked_declaration(line: &[u8]) -> bool {
    match line.splitn(2, |byte| *byte == b'/').nth(1) {
        Some(comment) => !comment.starts_with(b":") && comment.trim_ascii().starts_with(b":"),
        None => false,
    }
}

/// Whether a part of a source has such a line.
fn has_blanked_declaration(part: &[u8]) -> bool {
    part.split(|byte| matches!(*byte, b'\n' | b'\r'))
        .any(is_blanked_declaration)
}

/// Says on standard error that an answer is about a proposed declaration, and why.
pub(crate) fn report_proposed_declaration<R: Eprint>(rt: &R, parts: &[Vec<u8>]) {
    let _ = if parts.iter().any(|part| has_blanked_declaration(part)) {
        eprintln!(rt;
            "no declaration is given, and the source has no /: line, although it has comments that begin with `/ :`, with a space: the answer is about a proposed declaration"
        )
    } else {
        eprintln!(rt;
            "no declaration is given, and the source has no /: line: the answer is about a proposed declaration"
        )
    };
}
