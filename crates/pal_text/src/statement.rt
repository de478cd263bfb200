//! The statements of a part.

ghost use Rattle.std.specs.Prelude.{◌≡◌};
ghost use Rattle.pal_text.specs.Statements.{is_dollar, last_end, closing};

use crate::grammar::Form;
use crate::tokens::{Token, TokenKind};

/// A statement: its line, its tags and what it does. Its tokens are those of the part from `first`
/// up to the one before `last`, where the token that ends it stands: each of its tags and a comma,
/// and then what it does.
#[derive(Clone, Copy)]
pub struct Statement {
    pub line: usize,
    pub first: usize,
    pub last: usize,
    pub tags: usize,
    pub form: Form,
}

/// What ends a part.
#[derive(Clone, Copy, PartialEq, Eq, Debug)]
pub enum Ending {
    /// `$`, which ends the program.
    Dollar,
    /// The statement PAUSE.
    Pause,
    /// The last byte.
    Bytes,
}

/// Where a part ends: by what, and after how many of its bytes.
#[derive(Clone, Copy)]
pub struct PartEnd {
    pub ending: Ending,
    pub stop: usize,
}

fn is_dollar_sign(kind: TokenKind) -> bool
    ensures { result ≡ is_dollar kind }
{
    matches!(kind, TokenKind::Dollar)
}

/// Where the last of some tokens ends; with none, at this place.
fn end_of(otherwise: usize, tokens: &[Token]) -> usize
    ensures { result ≡ last_end otherwise tokens.now }
{
    let mut end = otherwise;
    for token in tokens {
        end = token.end;
    }
    end
}

/// Whether and where a part of so many bytes ends by a statement with these tokens and the one that
/// ends it.
pub(crate) fn close_of(size: usize, own: &[Token], mark: Token, form: Form) -> Option<PartEnd>
    ensures { result ≡ closing size own.now mark form }
{
    if form == Form::Pause {
        Some(PartEnd {
            ending: Ending::Pause,
            stop: end_of(mark.start, own),
        })
    } else if is_dollar_sign(mark.kind) {
        Some(PartEnd {
            ending: Ending::Dollar,
            stop: mark.end,
        })
    } else if mark.start == size {
        Some(PartEnd {
            ending: Ending::Bytes,
            stop: size,
        })
    } else {
        None
    }
}
