//! A mind that does nothing, and watches how often a disk was synced.

use asl_term::sequence::{Seq, Starved};
use asl_term::syntax::Text;
use mas_mind::mind::{Feedback, Input, Outs, Thought};
use mas_mind::thinking::Mind;
use std::alloc::Global;
use std::sync::atomic::{AtomicU64, Ordering};

/// How often a disk was synced, so far, and when a mind last began its first and its second cycle.
#[derive(Drop)]
pub struct Marks {
    pub syncs: AtomicU64,
    pub first: AtomicU64,
    pub second: AtomicU64,
}

impl Marks {
    /// No sync and no cycle so far.
    pub fn new() -> Marks {
        Marks {
            syncs: AtomicU64::new(0),
            first: AtomicU64::new(0),
            second: AtomicU64::new(0),
        }
    }
}

/// A mind that is never quiet and asks for no action.
#[derive(Drop)]
pub struct Watching<'a> {
    pub me: u32,
    pub made: u64,
    pub waits: bool,
    pub text: Text,
    pub marks: &'a Marks,
}

impl<'a> Mind for Watching<'a> {
    ghost use Rattle.std.specs.Prelude.{refl};
    ghost use Rattle.test_records.specs.Watchers.{watcher_kind};
    ghost use Rattle.test_records.specs.Watchers as spec;

    ghost kind = { watcher_kind };

    ghost quiet_sends_nothing = { spec.quiet_sends_nothing };

    ghost quiet_again = { spec.quiet_again };

    ghost awaits_after = { λ m i. refl };

    ghost awaits_no_more = { λ m f. refl };

    ghost goes_on = { spec.goes_on };

    ghost is_told = { spec.is_told };

    fn think(&mut self, alloc: Global, input: Input) -> Result<Thought, Starved> {
        drop(input);
        let syncs = self.marks.syncs.load(Ordering::SeqCst);
        if self.made == 0 {
            self.marks.first.store(syncs, Ordering::SeqCst);
        } else if self.made == 1 {
            self.marks.second.store(syncs, Ordering::SeqCst);
        }
        self.made += 1;
        self.waits = false;
        Ok(Thought::Outs(Outs {
            action: None,
            messages: Seq::new(alloc),
            stop: false,
            quiet: false,
        }))
    }

    fn took(&mut self, _feedback: Feedback) {
        self.waits = false;
    }

    fn lines(&self) -> &Text {
        &self.text
    }
}
