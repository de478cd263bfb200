//! The bytes of a part that were read.

ghost use Rattle.std.specs.Prelude.{◌≤◌, length};

/// The bytes of a part with this number up to where the part ended.
#[derive(Clone, Copy)]
pub(crate) struct PartText<'s> {
    pub(crate) number: usize,
    pub(crate) bytes: &'s [u8],
    ghost is_short: { length bytes.now ≤ 65536 },
}
