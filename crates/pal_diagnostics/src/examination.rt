//! A statement with a fault, and what is known about its source.

use crate::findings::Finding;
use crate::lines::push_characters;
use crate::meanings::{Meanings, Occurrence};
use crate::pieces::bytes_of;
use crate::statement::FaultyStatement;
use instruct::Profile;
use pal_acts::FaultCode;
use pal_text::Token;
use std::alloc::{AllocError, Allocator};

/// A source whose faults are reported: the names of the files of its parts, their bytes, and the machine whose
/// permanent symbols it uses.
#[derive(Clone, Copy)]
pub(crate) struct Source<'s> {
    pub(crate) names: &'s [&'s str],
    pub(crate) parts: &'s [&'s [u8]],
    pub(crate) profile: Profile,
}

impl<'s> Source<'s> {
    /// The name of the file of a part; parts are counted from 0.
    pub(crate) fn name(&self, part: usize) -> &'s str {
        self.names.get(part).copied().unwrap_or("")
    }

    /// The bytes of a part; parts are counted from 0.
    pub(crate) fn bytes(&self, part: usize) -> &'s [u8] {
        self.parts.get(part).copied().unwrap_or(b"")
    }
}

/// A statement with a fault, its source, and the values that symbols have before it and after the whole source.
#[derive(Drop)]
pub(crate) struct Examination<'x, A: Allocator + Copy> {
    pub(crate) alloc: A,
    pub(crate) source: &'x Source<'x>,
    pub(crate) before: &'x Meanings<'x, A>,
    pub(crate) known: &'x Meanings<'x, A>,
    pub(crate) faulty: &'x FaultyStatement<A>,
}

impl<A: Allocator + Copy> Examination<'_, A> {
    /// The bytes of the part that the statement is in.
    pub(crate) fn bytes(&self) -> &[u8] {
        self.source.bytes(self.faulty.part)
    }

    /// Where a token of the statement occurs.
    pub(crate) fn occurrence(&self, token: Token) -> Occurrence {
        Occurrence {
            part: self.faulty.part,
            token,
        }
    }

    /// A finding about a token of the statement, which says of this token what is wrong, and what to change.
    pub(crate) fn finding(
        &self,
        token: Token,
        wrong: &str,
        advice: &str,
    ) -> Result<Finding<A>, AllocError> {
        let mut finding = Finding::new(self.alloc, token.start, token.end, "", advice)?;
        push_characters(&mut finding.wrong, bytes_of(self.bytes(), token))?;
        finding.wrong.push_str(wrong)?;
        Ok(finding)
    }

    /// The finding about a fault that has at most one.
    fn only_finding(&self) -> Result<Option<Finding<A>>, AllocError> {
        match self.faulty.code {
            FaultCode::IllegalCharacter | FaultCode::NumberTooLarge => self.about_text(),
            FaultCode::DuplicateTag => self.about_tags(),
            FaultCode::Redefined => self.about_assignment(),
            FaultCode::IllegalReference => self.about_reference(),
            FaultCode::TableFull => self.about_room(),
            FaultCode::PauseInLastPart => self.about_pause(),
            FaultCode::Undefined | FaultCode::TooLong => Ok(None),
        }
    }

    /// The findings about the fault.
    pub(crate) fn findings(&self) -> Result<Vec<Finding<A>, A>, AllocError> {
        let mut findings = Vec::new(self.alloc);
        if self.faulty.code == FaultCode::Undefined {
            self.put_undefined(&mut findings)?;
        } else if let Some(finding) = self.only_finding()? {
            findings.push(finding)?;
        }
        Ok(findings)
    }
}
