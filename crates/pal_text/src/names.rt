//! Symbols by their first six characters.

ghost use Rattle.std.specs.Prelude.{◌≡◌, length, map};
ghost use Rattle.std.specs.List.{AllByRecursion};
ghost use Rattle.pal_text.specs.Names.{name, named_kind, with_name, begins_none, named, IsWithin};

use crate::characters::is_character_code;
use crate::tokens::{Token, TokenKind};
use std::hash::{Hash, Hasher};

/// A symbol as it counts: its first six characters, with spaces after a shorter one.
#[derive(Clone, Copy, PartialEq, Eq)]
pub struct Name {
    pub letters: [u8; 6],
}

impl Hash for Name {
    ghost use Rattle.std.specs.Prelude.{[], ◌∷◌};
    ghost use Rattle.std.specs.Cmp.Lexicographic.{same_text};
    ghost use Rattle.std.proofs.Common.{ap, sym};

    ghost hash_input = { λ name. name.letters ∷ [] };

    ghost respects_eq = { λ x y same.
        ap (λ letters. letters ∷ []) (same_text x.letters y.letters (sym same)) };

    fn hash<H: Hasher>(&self, state: &mut H) {
        state.write(&self.letters);
    }
}

const DECIMAL: Name = Name {
    letters: *b"DECIMA",
};

const OCTAL: Name = Name {
    letters: *b"OCTAL ",
};

const PAUSE: Name = Name {
    letters: *b"PAUSE ",
};

impl Name {
    /// The name of the symbol whose slice of the source this is.
    pub fn new(bytes: &[u8]) -> Name
        ensures { result.letters ≡ name bytes.now }
    {
        let mut letters = [b' '; 6];
        let mut count = 0;
        for byte in bytes {
            let code = *byte % 0o200;
            if count < 6 && is_character_code(code) {
                letters[count] = code;
                count += 1;
            }
        }
        Name { letters }
    }

    /// What a symbol of this name is: one of the three that give directions, or an ordinary one.
    pub fn kind(self) -> TokenKind
        ensures { result ≡ named_kind self.letters }
    {
        if self == DECIMAL {
            TokenKind::Decimal
        } else if self == OCTAL {
            TokenKind::Octal
        } else if self == PAUSE {
            TokenKind::Pause
        } else {
            TokenKind::Symbol
        }
    }
}

/// Whether this is a letter that begins the name of no direction.
fn begins_no_direction(code: u8) -> bool
    ensures { result ≡ begins_none code }
{
    matches!(code, b'A'..=b'C' | b'E'..=b'N' | b'Q'..=b'Z')
}

/// What a symbol with these bytes is. Its name is made only if it may be a direction's.
fn symbol_kind(bytes: &[u8]) -> TokenKind
    ensures { result ≡ named_kind (name bytes.now) }
{
    match bytes {
        [first, ..] if begins_no_direction(*first % 0o200) => TokenKind::Symbol,
        _ => Name::new(bytes).kind(),
    }
}

/// What a token is, a symbol told by its name.
fn told_kind(source: &[u8], token: Token) -> TokenKind
    requires { IsWithin (length source.now) token }
    ensures { result ≡ with_name source.now token token.kind }
{
    match token.kind {
        TokenKind::Symbol => symbol_kind(&source[token.start..token.end]),
        kind => kind,
    }
}

/// Tells the symbols among the tokens by their names.
pub(crate) fn name_tokens(source: &[u8], tokens: &mut [Token])
    requires { AllByRecursion (IsWithin (length source.now)) tokens.old }
    ensures { tokens.new ≡ map (named source.now) tokens.old }
{
    for token in tokens.iter_mut() {
        token.kind = told_kind(source, *token);
    }
}
