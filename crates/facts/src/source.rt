//! Facts that are given one after another.

ghost use Rattle.std.specs.Prelude.{◌≡◌, ◌<◌, List, length};
ghost use Rattle.domain.specs.Facts as said;
ghost use Rattle.domain.specs.FactInCode.{fact_in_code};
ghost use Rattle.facts.specs.Landing.{fact_at};

use crate::fact_sizes::Fact;

/// Some facts of a certificate, among which another one may land: those at an address, or the exits of a routine for an
/// offset.
pub trait FactSource {
    /// The facts that are meant.
    ghost facts: { Self → List said.Fact };

    /// How many they are.
    fn len(&self) -> usize
        ensures { result ≡ length (facts self.now) };

    /// Lets the lent fact say what one of them says.
    fn put(&self, at: usize, fact: &mut Fact)
        requires { at < length (facts self.now) }
        ensures { fact_in_code fact.new ≡ fact_at (facts self.now) at };
}
