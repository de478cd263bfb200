//! Sets of links and of carries.

ghost use Rattle.std.specs.Prelude.{◌≡◌, ◌<◌, ◌==◌, ◌||◌, ◌↔◌, ℕ, IsTrue, not};
ghost use Rattle.wordset.specs.Words.{IsLinkWithin, nothing, all_links, one, has_link, toggled, union, with_word};

use word12::Link;

/// A set of links.
#[derive(Clone, Copy, PartialEq, Eq, Debug)]
pub struct Links {
    /// Whether the link 0 is in the set.
    pub clear: bool,
    /// Whether the link 1 is in the set.
    pub set: bool,
}

impl Links {
    ghost use Rattle.wordset.specs.Links.{links_of, carries_of};

    /// The set with no link.
    pub fn none() -> Links
        ensures { links_of result ≡ nothing }
    {
        Links {
            clear: false,
            set: false,
        }
    }

    /// The set of both links.
    pub fn both() -> Links
        ensures { links_of result ≡ all_links }
    {
        Links {
            clear: true,
            set: true,
        }
    }

    /// The set of one link.
    pub fn one(link: Link) -> Links
        ensures { links_of result ≡ one link }
    {
        Links {
            clear: !link.is_set(),
            set: link.is_set(),
        }
    }

    /// Whether the link is in the set.
    pub fn contains(self, link: Link) -> bool
        ensures { result ≡ links_of self link }
    {
        if link.is_set() { self.set } else { self.clear }
    }

    /// Whether there is no link.
    pub fn is_empty(self) -> bool
        ensures { result ≡ not (has_link (links_of self)) }
    {
        !self.clear && !self.set
    }

    /// Whether each link is in the other set.
    pub fn is_subset(self, other: Links) -> bool
        ensures { IsTrue result ↔ IsLinkWithin (links_of self) (links_of other) }
    {
        (other.clear || !self.clear) && (other.set || !self.set)
    }

    /// The set with a link more.
    pub fn with(self, link: Link) -> Links
        ensures { links_of result ≡ with_word link (links_of self) }
    {
        self.union(Links::one(link))
    }

    /// The links of either set.
    pub fn union(self, other: Links) -> Links
        ensures { links_of result ≡ union (links_of self) (links_of other) }
    {
        Links {
            clear: self.clear || other.clear,
            set: self.set || other.set,
        }
    }

    /// The links after sums with these carries: a carry complements the link, and without one it
    /// stays.
    pub fn toggled(self, carries: Carries) -> Links
        ensures { links_of result ≡ toggled (links_of self) (carries_of carries) }
    {
        Links {
            clear: carries.absent && self.clear || carries.present && self.set,
            set: carries.absent && self.set || carries.present && self.clear,
        }
    }
}

/// A set of carries: whether sums of words come without a carry out of the twelve bits, with one,
/// or both.
#[derive(Clone, Copy, PartialEq, Eq, Debug)]
pub struct Carries {
    /// Whether there is a sum without a carry.
    pub absent: bool,
    /// Whether there is a sum with a carry.
    pub present: bool,
}
