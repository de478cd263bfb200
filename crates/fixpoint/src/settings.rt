//! The settings of both searches, in one table. What a search finds is judged, so none of them matters for a yes: they decide for
//! which programs one is found, and how long that takes.

/// How a set that grows is widened, by how often it grew.
#[derive(Clone, Copy)]
pub(crate) struct Pace {
    /// From so many growths on the negative words of a count go up to 7777,
    pub(crate) count: u32,
    /// but no longer from so many on.
    pub(crate) end_of_count: u32,
    /// From so many growths on a set goes on to the next landmarks,
    pub(crate) landmarks: u32,
    /// and from so many on it has all words.
    pub(crate) all: u32,
}

/// Of which cells the facts of the first search speak.
#[derive(Clone, Copy, PartialEq, Eq)]
pub(crate) enum SpokenCells {
    /// Of those that are needed at an address.
    Needed,
    /// Of those that instructions name.
    Named,
    /// Of all that are tracked.
    Tracked,
}

/// One run of the first search: of which cells facts speak, how sets are widened on the way back to a lower address and
/// elsewhere, and whether the run begins with what the one before found of routines.
#[derive(Clone, Copy)]
pub struct Patience {
    pub(crate) cells: SpokenCells,
    pub(crate) back: Pace,
    pub(crate) ahead: Pace,
    pub(crate) goes_on: bool,
}

/// After so many growths nothing is done.
const NEVER: u32 = u32::MAX;

/// On the way back in the first run.
const SOON_BACK: Pace = Pace {
    count: 4,
    end_of_count: NEVER,
    landmarks: 4,
    all: 10,
};

/// Elsewhere in the first run.
const SOON: Pace = Pace {
    count: 5,
    end_of_count: 8,
    landmarks: NEVER,
    all: 8,
};

/// On the way back in the second run.
const QUICK_BACK: Pace = Pace {
    count: 8,
    end_of_count: NEVER,
    landmarks: 8,
    all: 20,
};

/// Everywhere else.
const PATIENT: Pace = Pace {
    count: 40,
    end_of_count: 300,
    landmarks: NEVER,
    all: 300,
};

/// The runs of the first search, each slower and more exact than the one before it.
pub const PATIENCES: [Patience; 4] = [
    Patience {
        cells: SpokenCells::Needed,
        back: SOON_BACK,
        ahead: SOON,
        goes_on: false,
    },
    Patience {
        cells: SpokenCells::Named,
        back: QUICK_BACK,
        ahead: PATIENT,
        goes_on: false,
    },
    Patience {
        cells: SpokenCells::Named,
        back: PATIENT,
        ahead: PATIENT,
        goes_on: true,
    },
    Patience {
        cells: SpokenCells::Tracked,
        back: PATIENT,
        ahead: PATIENT,
        goes_on: true,
    },
];

/// What the searches may take, and from when on they widen.
#[derive(Clone, Copy)]
pub struct Settings {
    /// A set in more runs is filled.
    pub most_runs: usize,
    /// Where a certificate is too long, a set in more runs than this is.
    pub fewest_runs: usize,
    /// The most cells that are tracked.
    pub(crate) most_tracked: usize,
    /// The most words that may be possible at one address.
    pub(crate) most_words: usize,
    /// How often the words of a program are gone through at most to see what they need.
    pub(crate) most_rounds: usize,
    /// So often the set of a counted cell grows in the second search before it goes on to the next thresholds,
    pub(crate) counted_delay: u32,
    /// so often that of another name,
    pub(crate) name_delay: u32,
    /// and so often that of a sum.
    pub(crate) sum_delay: u32,
    /// So often a fact may be joined with another before a try is given up.
    pub(crate) most_joins: u32,
    /// So many facts at an address are distinguished by words.
    pub(crate) most_facts: usize,
    /// The most words of a cell by which facts are distinguished.
    pub(crate) most_values: usize,
    /// The most cells that are told of everywhere since pointers that never change lead to them.
    pub(crate) most_reached: usize,
    /// The most words of a cell for which each chain on it is kept.
    pub(crate) most_chained_words: usize,
    /// How often a try keeps a chain on a cell that may hold more words: each costs a millisecond or two.
    pub(crate) most_wide_chains: usize,
    /// The most words of a cell that are tried to see whether a chain is true of them.
    pub(crate) most_tried_words: usize,
    /// If more cells changed, only sums of pointers and counters are looked at.
    pub(crate) most_changed: usize,
    /// The greatest factor of a cell in a sum that is looked at.
    pub(crate) most_factor: usize,
    /// How many sweeps go back at most.
    pub(crate) most_sweeps: usize,
    /// The most turns of one try of the second search,
    pub turns_of_try: u32,
    /// of all of its tries together,
    pub turns_of_tries: u32,
    /// and of the last one, whose facts speak of all variables.
    pub turns_of_last_try: u32,
    /// The last try is made if there are at most so many variables.
    pub most_variables: usize,
}

/// The table.
pub const SETTINGS: Settings = Settings {
    most_runs: 48,
    fewest_runs: 1,
    most_tracked: 64,
    most_words: 64,
    most_rounds: 64,
    counted_delay: 10,
    name_delay: 16,
    sum_delay: 8,
    most_joins: 400,
    most_facts: 40,
    most_values: 16,
    most_reached: 16,
    most_chained_words: 256,
    most_wide_chains: 300,
    most_tried_words: 64,
    most_changed: 10,
    most_factor: 64,
    most_sweeps: 4,
    turns_of_try: 15_000,
    turns_of_tries: 40_000,
    turns_of_last_try: 6_000,
    most_variables: 60,
};
