//! Inputs to be tried, at which failed tests hint.

use crate::bits::Bits;
use crate::random::Random;
use circular_buffer::HeapCircularBuffer;
use peripherals::NoMemory;
use std::alloc::Allocator;
use word12::Word;

/// The most hints that wait in one queue.
const MOST_WAITING: usize = 512;

/// The most hints that wait because they came nearer.
const MOST_NEARER: usize = 256;

/// The most queues.
const MOST_QUEUES: usize = 1000;

/// Words of 64 bits for the hints that were made.
const MADE: usize = 1 << 18;

/// A test that a hint is to bring nearer to 0, and how far it was.
#[derive(Clone, Copy)]
pub(crate) struct Goal {
    pub(crate) at: Word,
    pub(crate) distance: u16,
}

/// Inputs that are to be tried from a kept state on.
#[derive(Drop)]
pub(crate) struct Hint<A: Allocator> {
    pub(crate) base: usize,
    pub(crate) inputs: Vec<u16, A>,
    pub(crate) goal: Goal,
    /// Whether it is about the one input behind the kept state.
    pub(crate) is_direct: bool,
}

/// The hints of one test that are direct, or that are not.
#[derive(Drop)]
struct Queue<A: Allocator> {
    is_direct: bool,
    hints: HeapCircularBuffer<Hint<A>, A>,
}

/// The hints that wait.
#[derive(Drop)]
pub(crate) struct Hints<A: Allocator> {
    alloc: A,
    queues: Vec<Queue<A>, A>,
    /// The queues of each address: of hints that are not direct, and of those that are.
    queue_of: Vec<Option<usize>, A>,
    /// Those of runs that came nearer to their own goal.
    nearer: HeapCircularBuffer<Hint<A>, A>,
    made: Bits<A>,
}

impl<A: Allocator + Copy> Hints<A> {
    /// No hints.
    pub(crate) fn none(alloc: A) -> Result<Hints<A>, NoMemory> {
        Ok(Hints {
            alloc,
            queues: Vec::new(alloc),
            queue_of: Vec::from_elem(alloc, None, 8192)?,
            nearer: HeapCircularBuffer::with_capacity(alloc, MOST_NEARER)?,
            made: Bits::new(alloc, MADE)?,
        })
    }

    /// Notes that a hint is made, by what it is known by. True if it is new.
    pub(crate) fn is_new(&mut self, mark: u64) -> bool {
        self.made.insert((mark >> 40) as usize)
    }

    /// A hint waits that came nearer.
    pub(crate) fn push_nearer(&mut self, hint: Hint<A>) {
        let _oldest = self.nearer.push_back(hint);
    }

    /// A hint waits.
    pub(crate) fn push(&mut self, hint: Hint<A>) -> Result<(), NoMemory> {
        let Some(number) = self.queue_of_hint(&hint)? else {
            return Ok(());
        };
        if let Some(queue) = self.queues.get_mut(number) {
            let _oldest = queue.hints.push_back(hint);
        }
        Ok(())
    }

    /// The number of the queue in which a hint waits, if there is room for it.
    fn queue_of_hint(&mut self, hint: &Hint<A>) -> Result<Option<usize>, NoMemory> {
        let place = hint.goal.at.index() * 2 + (hint.is_direct as usize);
        self.queue_at(place, hint.is_direct)
    }

    /// The number of the queue of a place, which is made where there is room for one more.
    fn queue_at(&mut self, place: usize, is_direct: bool) -> Result<Option<usize>, NoMemory> {
        if let Some(Some(number)) = self.queue_of.get(place) {
            return Ok(Some(*number));
        }
        let number = self.queues.len();
        if number >= MOST_QUEUES {
            return Ok(None);
        }
        let hints = HeapCircularBuffer::with_capacity(self.alloc, MOST_WAITING)?;
        self.queues
            .push(Queue { is_direct, hints })
            .map_err(|_| NoMemory)?;
        if let Some(queue) = self.queue_of.get_mut(place) {
            *queue = Some(number);
        }
        Ok(Some(number))
    }

    /// The latest of the hints that came nearer.
    pub(crate) fn pop_nearer(&mut self) -> Option<Hint<A>> {
        self.nearer.pop_back()
    }

    /// A hint of a queue by chance: its latest or its oldest.
    pub(crate) fn pop(&mut self, random: &mut Random) -> Option<Hint<A>> {
        let number = self.pick_queue(random);
        let Some(queue) = self.queues.get_mut(number) else {
            return None;
        };
        if random.once_in(2) {
            queue.hints.pop_back()
        } else {
            queue.hints.pop_front()
        }
    }

    /// A queue by chance: of the first five that come up the first that is not empty and is direct, or
    /// is not, as chance has it; else the last one.
    fn pick_queue(&self, random: &mut Random) -> usize {
        let wants_direct = random.once_in(2);
        let mut number = random.below(self.queues.len());
        for _ in 0..4 {
            if let Some(queue) = self.queues.get(number) {
                if queue.is_direct == wants_direct && !queue.hints.is_empty() {
                    return number;
                }
            }
            number = random.below(self.queues.len());
        }
        number
    }
}
