//! How long the devices and the operator take.

use crate::random::Random;

/// A time that never comes.
const NEVER: u32 = u32::MAX;

/// How long the devices and the operator take in one run.
#[derive(Drop)]
pub(crate) struct Timing {
    /// For how many steps a device is busy; 0 where it mostly gets done at once.
    wait: u32,
    /// Whether a completion that should come at once is late now and then.
    jitter: bool,
    /// Whether the operator is slow.
    slow: bool,
    /// How often the program still looks before the operator gives the next input.
    looks: u32,
    printing: u32,
    punching: u32,
}

impl Timing {
    /// All comes at once.
    pub(crate) fn prompt() -> Timing {
        Timing {
            wait: 0,
            jitter: false,
            slow: false,
            looks: 0,
            printing: 0,
            punching: 0,
        }
    }

    /// A pace by chance: in one of eight runs the devices take their time, and half of those never get
    /// done; and in half of them the operator is slow.
    pub(crate) fn by_chance(random: &mut Random, jitter: bool) -> Timing {
        let mut timing = Timing::prompt();
        timing.jitter = jitter;
        if random.once_in(8) {
            timing.wait = wait_by_chance(random);
            timing.slow = random.once_in(2);
        }
        if timing.slow {
            timing.looks = (random.below(1000) & 0x3ff) as u32;
        }
        timing
    }

    /// Whether devices get done some time.
    pub(crate) fn gets_done(&self) -> bool {
        self.wait != NEVER
    }

    /// Whether a key or a frame that is wanted comes now.
    pub(crate) fn gives_input(&mut self) -> bool {
        if self.looks == 0 {
            return true;
        }
        self.looks -= 1;
        false
    }

    /// An input was given.
    pub(crate) fn gave_input(&mut self, random: &mut Random) {
        if self.slow {
            let most = 1usize << (random.below(12) & 0xf);
            self.looks = (random.below(most) & 0xfff) as u32;
        }
    }

    /// Whether the printer, which is busy, gets done now.
    pub(crate) fn ends_printing(&mut self, random: &mut Random) -> bool {
        self.printing = self.printing.saturating_add(1);
        let ends = self.ends(random, self.printing);
        if ends {
            self.printing = 0;
        }
        ends
    }

    /// Whether the punch, which is busy, gets done now.
    pub(crate) fn ends_punching(&mut self, random: &mut Random) -> bool {
        self.punching = self.punching.saturating_add(1);
        let ends = self.ends(random, self.punching);
        if ends {
            self.punching = 0;
        }
        ends
    }

    /// Whether a device that has been busy for so many steps gets done.
    fn ends(&self, random: &mut Random, busy: u32) -> bool {
        if self.wait == 0 {
            return !(self.jitter && random.once_in(8));
        }
        busy > self.wait
    }
}

/// 8 to 4095 steps, or never.
fn wait_by_chance(random: &mut Random) -> u32 {
    if random.once_in(2) {
        return NEVER;
    }
    let least = 8u32 << (random.below(9) & 0xf);
    least.saturating_add((random.below(least as usize) & 0xfff) as u32)
}
