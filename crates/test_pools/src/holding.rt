//! A gate that holds an agent, and sees who thinks in the meantime.

use mas_pool_task::gate::Gate;
use std::sync::atomic::{AtomicU64, Ordering};
use std::thread;

/// Waits until the flag is set, for so many turns at most. Whether it was set.
pub fn comes(flag: &AtomicU64) -> bool {
    for _ in 0..1_000_000_000u64 {
        if flag.load(Ordering::SeqCst) != 0 {
            return true;
        }
        thread::yield_now();
    }
    false
}

/// Holds the first thinking of agent 1 until agent 2 has thought, and notes what came before what.
#[derive(Drop)]
pub struct Holding {
    /// Agent 3 began to think.
    third: AtomicU64,
    /// Agent 2 has thought.
    second: AtomicU64,
    /// Agent 3 had begun before that.
    second_is_late: AtomicU64,
    /// Agent 1 did not wait in vain.
    met: AtomicU64,
}

impl Holding {
    /// Nobody has thought so far.
    pub fn new() -> Holding {
        Holding {
            third: AtomicU64::new(0),
            second: AtomicU64::new(0),
            second_is_late: AtomicU64::new(0),
            met: AtomicU64::new(0),
        }
    }

    /// Whether agent 2 thought while agent 1 was held.
    pub fn is_met(&self) -> bool {
        self.met.load(Ordering::SeqCst) != 0
    }

    /// Whether, besides, agent 3 began before agent 2 had thought. Where the workers share a queue agent 2 comes first.
    pub fn is_stolen(&self) -> bool {
        self.is_met() && self.second_is_late.load(Ordering::SeqCst) != 0
    }
}

impl Gate for Holding {
    fn thinking(&self, agent: u32, cycle: u64) {
        if agent == 3 {
            self.third.store(1, Ordering::SeqCst);
        }
        if agent == 1 && cycle == 1 && comes(&self.second) {
            self.met.store(1, Ordering::SeqCst);
        }
    }

    fn done(&self, agent: u32, cycle: u64) {
        if agent == 2 && cycle == 1 {
            let third = self.third.load(Ordering::SeqCst);
            self.second_is_late.store(third, Ordering::SeqCst);
            self.second.store(1, Ordering::SeqCst);
        }
    }
}
