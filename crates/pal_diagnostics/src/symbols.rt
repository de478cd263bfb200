//! Messages about symbols.

use crate::examination::Examination;
use crate::lines::{Written, line_at, push_characters};
use crate::meanings::Occurrence;
use crate::pieces::bytes_of;
use instruct::Profile;
use pal_acts::{Name, SymbolTable, permanent_table};
use std::alloc::{AllocError, Allocator};
use strsim::osa_distance;

/// The significant characters of a name.
pub(crate) fn letters_of(name: &Name) -> &str {
    str::from_utf8(name.letters.trim_ascii_end()).unwrap_or("")
}

/// What to do about a word that only other assemblers have.
fn about_other_word(name: &Name) -> Option<&'static str> {
    match letters_of(name) {
        "PAGE" => Some("this assembler has no PAGE: write the address, as in *400"),
        "TEXT" => Some("this assembler has no TEXT: write the code of each character as a word"),
        "ZBLOCK" => Some(
            "this assembler has no ZBLOCK: write the zeros, or skip the cells, as in *.+10",
        ),
        "FIELD" | "CDF" | "CIF" | "RDF" | "RIF" | "RIB" | "RMF" => {
            Some("there is no extended memory: remove the statement")
        }
        "EXPUNG" | "FIXTAB" | "FIXMRI" | "XLIST" | "EJECT" => {
            Some("only other assemblers have it: remove the statement")
        }
        _ => None,
    }
}

/// Whether a word of this name sets the location in other assemblers.
pub(crate) fn moves_location(name: &Name) -> bool {
    matches!(letters_of(name), "PAGE" | "TEXT" | "ZBLOCK" | "FIELD")
}

/// The maximum number of edits by which a symbol may differ from this one and still be near it.
fn most_edits(wanted: &str) -> usize {
    match wanted.len() {
        0..=2 => 0,
        3..=4 => 1,
        _ => 2,
    }
}

/// The symbol of a table that is nearest to this one, if one is near: they differ by one or two characters that are
/// added, missing, replaced or exchanged.
fn nearest<A: Allocator + Copy>(
    alloc: A,
    table: &SymbolTable<A>,
    wanted: &str,
) -> Result<Option<Name>, AllocError> {
    let mut found = None;
    let mut least = most_edits(wanted).saturating_add(1);
    for at in 0..table.len() {
        if let Some((name, _)) = table.get_index(at) {
            let edits = osa_distance(alloc, wanted, letters_of(name))?;
            if edits < least {
                found = Some(*name);
                least = edits;
            }
        }
    }
    Ok(found)
}

impl<A: Allocator + Copy> Examination<'_, A> {
    /// The bytes of a symbol as it is written.
    pub(crate) fn written(&self, occurrence: Occurrence) -> &[u8] {
        bytes_of(self.source.bytes(occurrence.part), occurrence.token)
    }

    /// Adds the line that a symbol is on, and the name of its file if that is another one.
    pub(crate) fn push_line_of(&self, text: &mut String<A>, occurrence: Occurrence) -> Written {
        let bytes = self.source.bytes(occurrence.part);
        let number = line_at(self.alloc, bytes, occurrence.token.start)?.number;
        write!(text, "line {number}")?;
        if occurrence.part != self.faulty.part {
            let name = self.source.name(occurrence.part);
            write!(text, " of {name}")?;
        }
        Ok(())
    }

    /// Adds a symbol of the source's own, as it is written and where it is defined.
    pub(crate) fn push_defined(&self, text: &mut String<A>, occurrence: Occurrence) -> Written {
        push_characters(text, self.written(occurrence))?;
        text.push_str(", defined on ")?;
        self.push_line_of(text, occurrence)
    }

    /// Adds the question whether another symbol is meant, if one is near to this one: one of the source's own or, if none
    /// of those is near, a permanent symbol.
    fn push_nearest(&self, text: &mut String<A>, wanted: &str) -> Written {
        let symbols = &self.known.symbols;
        if let Some(own) = nearest(self.alloc, &symbols.own, wanted)? {
            if let Some(occurrence) = self.known.occurrence(&own) {
                text.push_str("did you mean ")?;
                self.push_defined(text, occurrence)?;
                text.push_str("? Otherwise ")?;
            }
        } else if let Some(permanent) = nearest(self.alloc, symbols.permanent, wanted)? {
            let letters = letters_of(&permanent);
            write!(text, "did you mean {letters}? Otherwise ")?;
        }
        Ok(())
    }

    /// Adds what to do about a symbol that has no value anywhere in the source.
    pub(crate) fn push_undefined_advice(&self, text: &mut String<A>, name: &Name) -> Written {
        if let Some(words) = about_other_word(name) {
            return text.push_str(words);
        }
        if permanent_table(self.alloc, Profile::Pdp8E)?
            .get(name)
            .is_some()
        {
            return text.push_str(
                "it is a symbol of the PDP-8/E: use --profile 8e, or the line profile 8e in a declaration",
            );
        }
        let letters = letters_of(name);
        self.push_nearest(text, letters)?;
        write!(text, "give {letters} a value, with a tag or an assignment")
    }
}
