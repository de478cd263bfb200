//! The images of sets under the operate words of group 1.

ghost use Rattle.std.specs.Prelude.{◌≡◌, ◌==◌, ◌&&◌, ℕ};
ghost use Rattle.instruct.specs.declared.Profile.TheVariants.{Pdp8E};
ghost use Rattle.instruct.specs.declared.Instruction.TheVariants.{Operate1};
ghost use Rattle.instruct.specs.Instructions.{instruction_of};
ghost use Rattle.wordset.specs.Words.{images, images_at};
ghost use Rattle.wordset.specs.Lanes.{words};
ghost use Rattle.wordset.specs.Links.{links_of};
ghost use Rattle.wordset.specs.Operate.{accumulator_after, link_after};

use crate::{Links, WordSet};
use instruct::{clears, operate1};
use word12::{Link, Word};

impl WordSet {
    /// What a word of group 1, with a rotate or BSW or none, makes of each accumulator in the set
    /// with each link of `links`: the accumulators and the links afterwards.
    pub fn map_operate(&self, word: Word, links: Links) -> (WordSet, Links)
        requires { instruction_of Pdp8E word ≡ Operate1 }
        ensures words { words result.0 ≡
            images (accumulator_after word) (words self.now) (links_of links) }
        ensures links { links_of result.1 ≡
            images (link_after word) (words self.now) (links_of links) }
    {
        // With CLA it makes the same of each accumulator.
        if clears(word) && !self.is_empty() {
            return WordSet::one(Word::ZERO).map_each(word, links);
        }
        self.map_each(word, links)
    }

    /// The same, word by word.
    fn map_each(&self, word: Word, links: Links) -> (WordSet, Links)
        requires { instruction_of Pdp8E word ≡ Operate1 }
        ensures words { words result.0 ≡
            images (accumulator_after word) (words self.now) (links_of links) }
        ensures links { links_of result.1 ≡
            images (link_after word) (words self.now) (links_of links) }
    {
        let (low, low_links) = self.operate_if(links.clear, word, Link::CLEAR);
        let (high, high_links) = self.operate_if(links.set, word, Link::SET);
        (low.union(&high), low_links.union(high_links))
    }

    /// The images with one link where it is chosen, and else none.
    fn operate_if(&self, chosen: bool, word: Word, link: Link) -> (WordSet, Links)
        requires { instruction_of Pdp8E word ≡ Operate1 }
        ensures words { (v : ℕ) → words result.0 v ≡
            (chosen && images_at (λ ac. accumulator_after word ac link) (words self.now) v) }
        ensures links { (k : ℕ) → links_of result.1 k ≡
            (chosen && images_at (λ ac. link_after word ac link) (words self.now) k) }
    {
        if chosen {
            self.operate_at(word, link)
        } else {
            (WordSet::empty(), Links::none())
        }
    }

    /// The images with one link.
    fn operate_at(&self, word: Word, link: Link) -> (WordSet, Links)
        requires { instruction_of Pdp8E word ≡ Operate1 }
        ensures words { (v : ℕ) → words result.0 v ≡
            images_at (λ ac. accumulator_after word ac link) (words self.now) v }
        ensures links { (k : ℕ) → links_of result.1 k ≡
            images_at (λ ac. link_after word ac link) (words self.now) k }
    {
        let mut found = WordSet::empty();
        let mut links = Links::none();
        for ac in self.iter() {
            let (image, after) = operate1(word, ac, link);
            found.insert(image);
            links = links.with(after);
        }
        (found, links)
    }
}
