//! The lines of a text taken one by one, up to the first that is refused.

ghost use Rattle.std.specs.Prelude.{ℕ, ◌<◌, ◌^◌, List, length, OnOk, IfErr};
ghost use Rattle.streams.specs.Text.{text_lines};
ghost use Rattle.streams.specs.Taking.{TakesAll, RefusesFirst};

use crate::text::Lines;

/// What takes lines one by one, and refuses a line that is not good.
pub trait LineTaker {
    /// Why a line is refused.
    type Fault;

    /// How a line that is taken changes the taker.
    ghost takes: { Self → List ℕ → Self → Type 0 };

    /// Why a line of some number may be refused, and how the taker is changed then.
    ghost refuses: { Self → ℕ → List ℕ → Self.Fault → Self → Type 0 };

    /// Takes a line, whose number counts from 1.
    ///
    /// # Errors
    ///
    /// Why the line is refused.
    fn take(&mut self, number: usize, line: &[u8]) -> Result<(), Self::Fault>
        ensures taken { OnOk result (takes self.old line.now self.new) }
        ensures refused { IfErr result
            (λ fault. refuses self.old number line.now fault self.new) };
}

/// Gives the lines of a text to a taker, in order, up to the first that is refused: each of them
/// once, and none after that one.
///
/// # Errors
///
/// Why the first line that is not good is refused, as a taker that took those before it refuses it.
pub fn take_lines<T: LineTaker>(taker: &mut T, text: &[u8]) -> Result<(), T::Fault>
    requires { length text.now < 2 ^ 63 }
    ensures taken { OnOk result (TakesAll T.takes taker.old (text_lines text.now) taker.new) }
    ensures refused { IfErr result (λ fault.
        RefusesFirst T.takes T.refuses taker.old (text_lines text.now) fault taker.new) }
{
    for (index, line) in Lines::of(text).enumerate() {
        if let Err(fault) = taker.take(index + 1, line) {
            return Err(fault);
        }
    }
    Ok(())
}
