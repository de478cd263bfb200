//! Operations on sets, with values that were worked out by hand.

use word12::Word;
use wordset::{Carries, WordSet};

/// The word of a number, modulo 4096.
fn word(value: u32) -> Word {
    Word::from_index((value % 4096) as usize)
}

fn set_of(words: &[u32]) -> WordSet {
    let mut set = WordSet::empty();
    for value in words {
        set.insert(word(*value));
    }
    set
}

#[test]
fn sets_have_the_words_that_they_show(rt: HostRuntime) {
    let mut set = WordSet::range(word(0o277), word(0o303));
    assert!(rt; set == set_of(&[0o277, 0o300, 0o301, 0o302, 0o303]));
    assert_eq!(rt; set.words()[2], 1 << 63);
    assert_eq!(rt; set.words()[3], 0b1111);
    assert!(rt; set.contains(word(0o300)) && set.count() == 5);
    assert!(rt; set.least() == Some(word(0o277)) && set.greatest() == Some(word(0o303)));
    assert!(rt; set.first_from(0o301) == Some(word(0o301)) && set.first_from(0o304).is_none());
    set.remove(word(0o300));
    assert!(rt; !set.contains(word(0o300)) && set.only().is_none());
    assert_eq!(rt; WordSet::one(word(0o7777)).only(), Some(word(0o7777)));
    assert!(rt; WordSet::empty().is_empty() && WordSet::all().is_all());
    assert!(rt; WordSet::range(word(5), word(4)).is_empty());
    assert!(rt; set_of(&[0, 0o1234]).complements() == set_of(&[0o7777, 0o6543]));
}

#[test]
fn images_are_those_worked_by_hand(rt: HostRuntime) {
    let (sums, carries) = set_of(&[0o7777, 0]).sums(&set_of(&[1]));
    let both = Carries {
        absent: true,
        present: true,
    };
    assert!(rt; sums == set_of(&[0, 1]));
    assert_eq!(rt; carries, both);
    assert!(rt; set_of(&[0o7777]).shift(word(1)) == set_of(&[0]));
    assert!(rt; set_of(&[3]).ands(&set_of(&[5, 6])) == set_of(&[1, 2]));
    assert!(rt; set_of(&[3]).ors(&set_of(&[5, 6])) == set_of(&[7]));
    assert!(rt; set_of(&[1]).or_any(word(6)) == set_of(&[1, 3, 5, 7]));
}

#[test]
fn all_words_stay_all_words(rt: HostRuntime) {
    let all = WordSet::all();
    let both = Carries {
        absent: true,
        present: true,
    };
    assert!(rt; all.sums(&all) == (all, both));
    assert!(rt; all.ors(&all) == all);
    assert!(rt; all.ands(&all) == all);
    assert!(rt; all.or_any(word(0o1234)) == all);
    assert!(rt; all.shift(word(0o1234)) == all);
    assert_eq!(rt; all.count(), 4096);
}
