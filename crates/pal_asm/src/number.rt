//! Numbers as they are written.

ghost use Rattle.std.specs.Prelude.{◌≡◌, ◌≤◌, ◌<◌, ◌+◌, ◌-◌, ◌*◌, if◌then◌else◌, nat_lt, Some, None, IfSome};
ghost use Rattle.pal_text.specs.Characters.{char, characters};
ghost use Rattle.pal_asm.specs.Numbers.{base, radix_after, is_digit_of, number};

use pal_acts::FaultCode;
use pal_text::Form;
use pal_text::characters::is_character_code;
use word12::Word;

/// How numbers are written.
#[derive(Clone, Copy, PartialEq, Eq)]
pub enum Radix {
    /// In base eight, as at first and after OCTAL.
    Octal,
    /// In base ten, as after DECIMAL.
    Decimal,
}

impl Radix {
    fn base(self) -> u16
        ensures is { result ≡ base self }
        ensures least { 1 ≤ result }
        ensures most { result ≤ 10 }
    {
        match self {
            Radix::Octal => 8,
            Radix::Decimal => 10,
        }
    }

    /// How numbers are written after a statement of this form.
    pub(crate) fn after(self, form: Form) -> Radix
        ensures { result ≡ radix_after self form }
    {
        match form {
            Form::Decimal => Radix::Decimal,
            Form::Octal => Radix::Octal,
            _ => self,
        }
    }
}

/// A number with one digit more; from 4096 on it is 4096.
fn with_digit(base: u16, value: u16, digit: u16) -> u16
    requires base { base ≤ 10 }
    requires value { value ≤ 4096 }
    requires digit { digit < base }
    ensures grown { result ≡ (if nat_lt (value * base + digit) 4096 then value * base + digit else
        4096) }
    ensures most { result ≤ 4096 }
{
    let next = value * base + digit;
    if next < 4096 { next } else { 4096 }
}

/// What a character is worth as a digit of this base; nothing if it is none.
fn digit_of(base: u16, code: u8) -> Option<u16>
    ensures digit { result ≡ (if is_digit_of base code then Some (code - char "0") else None) }
    ensures small { IfSome result (λ digit. digit < base) }
{
    if code < b'0' {
        return None;
    }
    let digit = u16::from(code - b'0');
    if digit < base { Some(digit) } else { None }
}

/// The number that the bytes of a token spell.
///
/// # Errors
///
/// `IllegalCharacter` where a character is not a digit in this radix, and else `NumberTooLarge`
/// where the number is above 4095.
pub(crate) fn number_of(radix: Radix, bytes: &[u8]) -> Result<Word, FaultCode>
    ensures { result ≡ number (base radix) (characters bytes.now) }
{
    let base = radix.base();
    let mut value = 0;
    for byte in bytes {
        let code = *byte % 0o200;
        if is_character_code(code) {
            match digit_of(base, code) {
                Some(digit) => value = with_digit(base, value, digit),
                None => return Err(FaultCode::IllegalCharacter),
            }
        }
    }
    match Word::new(value) {
        Some(word) => Ok(word),
        None => Err(FaultCode::NumberTooLarge),
    }
}
