//! The bits of operate words and of memory references, each with its written table.

ghost use Rattle.std.specs.Prelude.{⊤, [], ◌∷◌, codes};

use bitflags::{Flag, Flags, bitflag_items};

/// The bits of an operate word of group 1.
#[derive(Clone, Copy, PartialEq, Eq, Debug)]
pub struct Group1(pub u16);

bitflag_items! {
    impl Group1: u16 {
        const CLA = 128;
        const CLL = 64;
        const CMA = 32;
        const CML = 16;
        const RAR = 8;
        const RAL = 4;
        const TWICE = 2;
        const IAC = 1;
    }
}

impl Flags for Group1 {
    type Bits = u16;

    ghost exact = { ⊤ };

    ghost table = { (codes "CLA", 128) ∷
        (codes "CLL", 64) ∷
        (codes "CMA", 32) ∷
        (codes "CML", 16) ∷
        (codes "RAR", 8) ∷
        (codes "RAL", 4) ∷
        (codes "TWICE", 2) ∷
        (codes "IAC", 1) ∷ [] };

    ghost set_of = { λ p. p.0 };

    fn flags<'a>() -> &'a [Flag<Group1>] {
        Group1::FLAGS
    }

    fn bits(&self) -> u16 {
        self.0
    }

    fn from_bits_retain(bits: u16) -> Group1 {
        Group1(bits)
    }
}

/// The bits of an operate word of group 2, and the two that tell the groups apart.
#[derive(Clone, Copy, PartialEq, Eq, Debug)]
pub struct Group2(pub u16);

bitflag_items! {
    impl Group2: u16 {
        const NOT_GROUP1 = 256;
        const CLA = 128;
        const SMA = 64;
        const SZA = 32;
        const SNL = 16;
        const REVERSE = 8;
        const OSR = 4;
        const HLT = 2;
        const GROUP3 = 1;
    }
}

impl Flags for Group2 {
    type Bits = u16;

    ghost exact = { ⊤ };

    ghost table = { (codes "NOT_GROUP1", 256) ∷
        (codes "CLA", 128) ∷
        (codes "SMA", 64) ∷
        (codes "SZA", 32) ∷
        (codes "SNL", 16) ∷
        (codes "REVERSE", 8) ∷
        (codes "OSR", 4) ∷
        (codes "HLT", 2) ∷
        (codes "GROUP3", 1) ∷ [] };

    ghost set_of = { λ p. p.0 };

    fn flags<'a>() -> &'a [Flag<Group2>] {
        Group2::FLAGS
    }

    fn bits(&self) -> u16 {
        self.0
    }

    fn from_bits_retain(bits: u16) -> Group2 {
        Group2(bits)
    }
}

/// The bits of a memory reference beside its operation and its place.
#[derive(Clone, Copy, PartialEq, Eq, Debug)]
pub struct ReferenceBits(pub u16);

bitflag_items! {
    impl ReferenceBits: u16 {
        const INDIRECT = 256;
        const CURRENT_PAGE = 128;
    }
}

impl Flags for ReferenceBits {
    type Bits = u16;

    ghost exact = { ⊤ };

    ghost table = { (codes "INDIRECT", 256) ∷
        (codes "CURRENT_PAGE", 128) ∷ [] };

    ghost set_of = { λ p. p.0 };

    fn flags<'a>() -> &'a [Flag<ReferenceBits>] {
        ReferenceBits::FLAGS
    }

    fn bits(&self) -> u16 {
        self.0
    }

    fn from_bits_retain(bits: u16) -> ReferenceBits {
        ReferenceBits(bits)
    }
}
