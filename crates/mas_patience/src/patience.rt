//! How a worker waits for what another one has in hand.

use std::sync::Wait;
use std::thread::Parker;
use std::time::Duration;

/// So often it looks again at once.
const LOOKS: u32 = 100;

/// So often a sleep is twice as long as the one before.
const DOUBLINGS: u32 = 4;

/// How long a worker sleeps at first, in nanoseconds, and how often in a row it has looked in vain.
#[derive(Drop)]
pub struct Patience {
    first_sleep: u64,
    looks: u32,
}

impl Patience {
    /// It has not looked in vain yet.
    pub fn new(first_sleep: u64) -> Patience {
        Patience {
            first_sleep,
            looks: 0,
        }
    }

    /// It has looked in vain once more. After the first looks it sleeps a while, so that whoever has what it wants gets the processor.
    pub fn wait<R: Wait>(&mut self, rt: &R) {
        if self.looks < LOOKS {
            self.looks += 1;
            return;
        }
        let doubled = (self.looks - LOOKS).min(DOUBLINGS);
        Parker::new().park_timeout(rt, Duration::from_nanos(self.first_sleep << doubled));
        self.looks = LOOKS + (doubled + 1).min(DOUBLINGS);
    }

    /// It has found what it looked for.
    pub fn found(&mut self) {
        self.looks = 0;
    }
}
