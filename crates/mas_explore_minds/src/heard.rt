//! What befalls minds, and what comes of it, by numbers.

use mas_explore_tables::mixing::stirred;
use mas_explore_tables::table::Known;
use mas_mind::mind::Feedback;

/// What befalls a mind: a cycle on percepts and the oldest message of a box, or it is told what became of its action.
#[derive(Clone, Copy, PartialEq, Eq, Drop)]
pub enum Heard {
    Given { sight: u64, front: u64 },
    Told(Feedback),
}

impl Known for Heard {
    fn same(&self, other: &Heard) -> bool {
        *self == *other
    }

    fn mix(&self) -> u64 {
        match self {
            Heard::Given { sight, front } => stirred(*sight, *front),
            Heard::Told(Feedback::Done) => 1,
            Heard::Told(Feedback::Failed) => 2,
        }
    }
}

/// A cycle of a mind, on percepts and the oldest message of a box.
#[derive(Clone, Copy, PartialEq, Eq, Drop)]
pub struct Cycle {
    pub mind: u64,
    pub sight: u64,
    pub front: u64,
}

impl Known for Cycle {
    fn same(&self, other: &Cycle) -> bool {
        *self == *other
    }

    fn mix(&self) -> u64 {
        stirred(self.mind, stirred(self.sight, self.front))
    }
}

/// What comes of a cycle: nothing, where it was quiet and there was no message; else a mind and a thought.
#[derive(Clone, Copy, Drop)]
pub enum Thinking {
    Nothing,
    Led { mind: u64, thought: u64 },
}
