//! A world that prints and punches, where a request for memory is refused: it stays as it was, and the same step goes
//! through when it is tried again.

use crate::fixtures::{image, word};
use instruct::Profile;
use peripherals::{Event, Seen, Start, World};
use std::alloc::Allocator;
use testing::Refusing;

/// The words of a program that increments the accumulator, prints it and punches it, again and
/// again.
static COUNTING: [u16; 4] = [0o7001, 0o6046, 0o6026, 0o5200];

/// Whether a step that was refused left the machine and what it put out as they were, and goes
/// through when it is tried again.
fn step_goes_through<A: Allocator>(world: &mut World<A>) -> bool {
    let (at, ac) = (world.cpu().pc, world.cpu().ac);
    let (printed, punched) = (world.printed().len(), world.punched().len());
    if world.apply(Event::Step).is_ok() {
        return true;
    }
    let same = world.cpu().pc == at
        && world.cpu().ac == ac
        && world.printed().len() == printed
        && world.punched().len() == punched;
    same && world.apply(Event::Step) == Ok(Seen::Ran)
}

/// Whether both devices were given the bytes 1 to 100, and nothing else.
fn has_counted<A: Allocator>(world: &World<A>) -> bool {
    let mut next = 1;
    for (printed, punched) in world.printed().iter().zip(world.punched()) {
        if *printed != next || *punched != next {
            return false;
        }
        next = next.saturating_add(1);
    }
    next == 101 && world.printed().len() == 100 && world.punched().len() == 100
}

/// A hundred turns of the counting program where the request of this number is refused: whether all
/// went well, and whether one was refused.
fn counts_refused_at<A: Allocator + Copy>(alloc: A, count: u64) -> (bool, bool) {
    let heap = Refusing::new(alloc, count);
    let tape = image(&COUNTING);
    let mut world = World::load(&heap, &tape, word(0o200), &Start::zero(), Profile::Pdp8I);
    let mut fine = true;
    for _step in 0..400 {
        fine = fine && step_goes_through(&mut world);
    }
    let counted = has_counted(&world);
    (fine && counted, heap.has_refused())
}

#[test]
fn a_refused_byte_is_put_out_by_the_same_step(rt: HostRuntime) {
    for count in 0..100u64 {
        let (fine, refused) = counts_refused_at(rt.alloc(), count);
        assert!(rt; fine, "{count}");
        if !refused {
            assert!(rt; count > 2);
            return;
        }
    }
    panic!(rt; "there is always a refusal");
}
