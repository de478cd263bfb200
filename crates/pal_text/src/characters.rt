//! What each byte of a part is: nothing, the end of a line, or a character.

ghost use Rattle.std.specs.Prelude.{◌≡◌};
ghost use Rattle.pal_text.specs.Characters.{meaning, is_character};
ghost use Rattle.pal_text.specs.Scan.{returned_by};

/// The ignored codes that have no sign of their own.
pub(crate) const NULL: u8 = 0;

pub(crate) const FORM_FEED: u8 = 0o14;

pub(crate) const RUBOUT: u8 = 0o177;

/// What a byte is, after those before it.
#[derive(Clone, Copy)]
pub enum Meaning {
    /// The byte is ignored.
    Ignored,
    /// The byte ends a line.
    LineEnd,
    /// The byte is this character, without channel 8.
    Character(u8),
}

/// What a byte is; `returned` says whether only ignored bytes and line feeds stand between it and
/// a carriage return before it.
pub(crate) fn meaning_of(returned: bool, byte: u8) -> Meaning
    ensures { result ≡ meaning returned byte }
{
    match byte % 0o200 {
        NULL | FORM_FEED | RUBOUT => Meaning::Ignored,
        b'\r' => Meaning::LineEnd,
        b'\n' => if returned {
            Meaning::Ignored
        } else {
            Meaning::LineEnd
        },
        b'\t' => Meaning::Character(b' '),
        code => Meaning::Character(code),
    }
}

/// Whether only ignored bytes and line feeds stand between the place after this byte and a
/// carriage return.
pub(crate) fn returned_after(returned: bool, byte: u8) -> bool
    ensures { result ≡ returned_by returned byte }
{
    match byte % 0o200 {
        b'\r' => true,
        NULL | b'\n' | FORM_FEED | RUBOUT => returned,
        _ => false,
    }
}

/// Whether a code within a token or a line is one of its characters.
pub fn is_character_code(code: u8) -> bool
    ensures { result ≡ is_character code }
{
    !matches!(code, NULL | b'\n' | FORM_FEED | b'\r' | RUBOUT)
}
