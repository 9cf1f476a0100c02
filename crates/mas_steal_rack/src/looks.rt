//! Where a worker looks for an agent, and what tells that a deque had none.
ghost use Rattle.std.specs.Prelude.{◌≡◌, ◌<◌, ◌+◌, IfErr, length};
ghost use Rattle.mas_steal_rack.specs.Hands.{IsHandOf, Took, agent_of};
ghost use Rattle.mas_steal_rack.specs.Looks.{behind, IsDryAt, OwnStays};

use crate::agent::ReadyAgent;
use crate::deque::{pop, steal};
use crate::hand::{Hand, Rack};
use std::sync::Wait;

/// Tells that the deque at a place had no agent at a step. `steal_at` and `take_own` alone make one.
#[derive(Drop)]
pub struct Dry {
    place: usize,
}

/// Tells that deques had no agent, each at a step: so many of them, one behind the other from the first place on and round.
#[derive(Drop)]
pub struct Round {
    first: usize,
    doors: usize,
    last: usize,
    found: usize,
}

/// What a look found: an agent or none, and which deques had none.
#[derive(Drop)]
pub struct Look<T> {
    pub agent: Option<T>,
    pub own: Option<Dry>,
    pub others: Option<Round>,
}

impl Round {
    /// No deque yet, of so many, behind this place.
    pub fn begin(place: usize, doors: usize) -> Round
        ensures first { result.first ≡ place }
        ensures doors { result.doors ≡ doors }
        ensures last { result.last ≡ place }
        ensures found { result.found ≡ 0 }
    {
        Round {
            first: place,
            doors,
            last: place,
            found: 0,
        }
    }

    /// The next place.
    pub fn next(&self) -> usize
        requires { self.now.last < self.now.doors }
        ensures { result ≡ behind self.now.last self.now.doors }
    {
        if self.last + 1 < self.doors {
            self.last + 1
        } else {
            0
        }
    }

    /// One deque more, at the next place.
    pub fn and(self, dry: Dry) -> Round
        requires next { IsDryAt (behind self.last self.doors) dry }
        requires few { self.found < self.doors }
        ensures first { result.first ≡ self.first }
        ensures doors { result.doors ≡ self.doors }
        ensures last { result.last ≡ behind self.last self.doors }
        ensures found { result.found ≡ self.found + 1 }
    {
        let Round {
            first,
            doors,
            last: _,
            found,
        } = self;
        let Dry { place } = dry;
        Round {
            first,
            doors,
            last: place,
            found: found + 1,
        }
    }
}

impl<T: ReadyAgent> Hand<T> {
    // Steals one at this place.
    fn stolen_at<R: Wait>(&mut self, rt: &R, rack: &Rack<T>, place: usize) -> Option<T>
        requires hand { IsHandOf T.number T.home T.ready rack.now self.old }
        requires place { place < length rack.now.doors.items }
        ensures hand { IsHandOf T.number T.home T.ready rack.now self.new }
        ensures took { Took T.number T.home T.ready result self.old self.new }
        ensures stays { OwnStays self.old self.new }
    {
        steal(rt, &rack.doors[place], &mut self.keys[place])
    }

    /// Steals one at this place.
    pub fn steal_at<R: Wait>(&mut self, rt: &R, rack: &Rack<T>, place: usize) -> Result<T, Dry>
        requires hand { IsHandOf T.number T.home T.ready rack.now self.old }
        requires place { place < length rack.now.doors.items }
        ensures hand { IsHandOf T.number T.home T.ready rack.now self.new }
        ensures took { Took T.number T.home T.ready (agent_of result) self.old self.new }
        ensures dry { IfErr result (IsDryAt place) }
        ensures stays { OwnStays self.old self.new }
    {
        match self.stolen_at(rt, rack, place) {
            Some(agent) => Ok(agent),
            None => Err(Dry { place }),
        }
    }

    // The first of its own deque.
    fn popped(&mut self, rack: &Rack<T>) -> Option<T>
        requires hand { IsHandOf T.number T.home T.ready rack.now self.old }
        ensures hand { IsHandOf T.number T.home T.ready rack.now self.new }
        ensures took { Took T.number T.home T.ready result self.old self.new }
        ensures list { self.new.list ≡ self.old.list }
        ensures keys { self.new.keys ≡ self.old.keys }
        ensures turn { self.new.list_is_next ≡ self.old.list_is_next }
    {
        let _ = rack;
        pop(&mut self.own)
    }

    /// The first of its own deque.
    pub fn take_own(&mut self, rack: &Rack<T>) -> Result<T, Dry>
        requires hand { IsHandOf T.number T.home T.ready rack.now self.old }
        ensures hand { IsHandOf T.number T.home T.ready rack.now self.new }
        ensures took { Took T.number T.home T.ready (agent_of result) self.old self.new }
        ensures dry { IfErr result (IsDryAt self.old.place) }
        ensures list { self.new.list ≡ self.old.list }
        ensures keys { self.new.keys ≡ self.old.keys }
        ensures turn { self.new.list_is_next ≡ self.old.list_is_next }
    {
        let place = self.place;
        match self.popped(rack) {
            Some(agent) => Ok(agent),
            None => Err(Dry { place }),
        }
    }
}
