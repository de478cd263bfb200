//! Which reasons are looked for.

/// Which reasons are looked for.
#[derive(Clone, Copy)]
pub(crate) enum ReasonFilter {
    /// All.
    Any,
    /// Those that no line mends, whether it is added or made wider.
    NotOfLines,
}

impl ReasonFilter {
    /// Whether a line that is missing or too narrow counts among the reasons.
    pub(crate) fn counts_lines(self) -> bool {
        match self {
            ReasonFilter::Any => true,
            ReasonFilter::NotOfLines => false,
        }
    }
}
