//! The deques of all workers, and what one worker has of them.
ghost use Rattle.std.specs.Prelude.{◌≡◌, ◌<◌, ◌+◌, ◌↔◌, [], ◌∷◌, None, drop, MatchOption, IfSome, IfNone, IfErr, IsSomeAnd, IsTrue, IsNone, ⊤, length};
ghost use Rattle.std.specs.VecDeque.{deque_len, deque_capacity};
ghost use Rattle.mas_steal_rack.specs.Rule.{Waits};
ghost use Rattle.mas_steal_rack.specs.Turns.{MatchTurned, IsAhead};
ghost use Rattle.mas_steal_rack.specs.Hands.{IsHandOf, Took, Moved, Settled, Worked, agent_of, hand_home};
ghost use Rattle.mas_steal_rack.specs.Looks.{CanKeep, HasRoom, IsOver, IsDryAt, AllDry, Tells, TellsOfOthers};
ghost use Rattle.mas_steal_rack.specs.Looks.{OwnStays, TakesInTurn, OwnFirst, OthersFirst, LooksInOrder};

use crate::agent::ReadyAgent;
use crate::deque::{Door, Key, Owner, push};
use crate::looks::{Look, Round};
use crate::turns::{AgentTurned, Turns};
use mas_patience::patience::Patience;
use std::collections::VecDeque;
use std::sync::Wait;
use std::thread::Threads;

/// A worker whose agents are all ahead of another one sleeps so many nanoseconds at first.
const FIRST_SLEEP: u64 = 50_000;

/// The deques of all workers, as thieves see them.
#[derive(Drop)]
pub struct Rack<T: ReadyAgent> {
    pub doors: Vec<Door<T>>,
}

/// A worker's own deque and its keys to all, a list of agents that its deque refused, and those that it keeps. It knows
/// whether its list is next, and whether its last agent was ahead.
#[derive(Drop)]
pub struct Hand<T: ReadyAgent> {
    pub place: usize,
    pub own: Owner<T>,
    pub keys: Vec<Key<T>>,
    pub list: VecDeque<T>,
    pub list_is_next: bool,
    pub ahead: bool,
    pub kept: Vec<T>,
}

impl<T: ReadyAgent> Hand<T> {
    // Whether one more agent can be taken. A hand that holds as many as were dealt has no room, and needs none.
    fn has_room(&self) -> bool
        ensures { IsTrue result ↔ HasRoom self.now }
    {
        let most = self.kept.capacity() - self.kept.len();
        self.list.len() < self.list.capacity() && self.list.len() < most
    }

    #[tactic(auto, using(crate::proofs::Hands::then_took, crate::proofs::Hands::moved_more))]
    // Steals one, of the first worker behind this one and round that has one.
    fn steal_any<R: Wait>(&mut self, rt: &R, rack: &Rack<T>) -> Result<T, Round>
        requires hand { IsHandOf T.number T.home T.ready rack.now self.old }
        ensures hand { IsHandOf T.number T.home T.ready rack.now self.new }
        ensures took { Took T.number T.home T.ready (agent_of result) self.old self.new }
        ensures dry { IfErr result (TellsOfOthers self.old.place (length rack.now.doors.items)) }
        ensures stays { OwnStays self.old self.new }
    {
        let doors = rack.doors.len();
        let mut round = Round::begin(self.place, doors);
        for asked in 1..doors {
            let _ = asked;
            let place = round.next();
            match self.steal_at(rt, rack, place) {
                Ok(agent) => return Ok(agent),
                Err(dry) => round = round.and(dry),
            }
        }
        Err(round)
    }

    // The first of its list.
    fn take_listed(&mut self, rack: &Rack<T>) -> Option<T>
        requires hand { IsHandOf T.number T.home T.ready rack.now self.old }
        ensures hand { IsHandOf T.number T.home T.ready rack.now self.new }
        ensures took { Took T.number T.home T.ready result self.old self.new }
        ensures none { IfNone result (self.old.list.items ≡ []) }
        ensures rest { self.new.list.items ≡ drop 1 self.old.list.items }
        ensures length { MatchOption result (deque_len self.new.list ≡ deque_len self.old.list) (λ _. deque_len self.new.list + 1 ≡ deque_len self.old.list) }
        ensures capacity { deque_capacity self.new.list ≡ deque_capacity self.old.list }
        ensures own { (self.new.own ≡ self.old.own) × (self.new.keys ≡ self.old.keys) × (self.new.list_is_next ≡ self.old.list_is_next) }
    {
        let _ = rack;
        self.list.pop_front()
    }

    #[tactic(auto, using(crate::proofs::Hands::then_took, crate::proofs::Hands::moved_more, crate::proofs::Rooms::room_same, crate::proofs::Rooms::room_less))]
    // The first of its list, or else of its own deque.
    fn take_list_first(&mut self, rack: &Rack<T>) -> Look<T>
        requires hand { IsHandOf T.number T.home T.ready rack.now self.old }
        requires room { HasRoom self.old }
        ensures hand { IsHandOf T.number T.home T.ready rack.now self.new }
        ensures room { HasRoom self.new }
        ensures took { Took T.number T.home T.ready result.agent self.old self.new }
        ensures none { IfNone result.agent ((self.old.list.items ≡ []) × (self.new.list.items ≡ []) × IsSomeAnd result.own (IsDryAt self.old.place)) }
        ensures tells { IfSome result.own (IsDryAt self.old.place) }
        ensures list { 0 < deque_len self.old.list → (self.new.own ≡ self.old.own) × (self.new.list.items ≡ drop 1 self.old.list.items) }
        ensures others { (result.others ≡ None) × (self.new.keys ≡ self.old.keys) × (self.new.list_is_next ≡ self.old.list_is_next) }
    {
        if let Some(agent) = self.take_listed(rack) {
            return Look {
                agent: Some(agent),
                own: None,
                others: None,
            };
        }
        match self.take_own(rack) {
            Ok(agent) => Look {
                agent: Some(agent),
                own: None,
                others: None,
            },
            Err(dry) => Look {
                agent: None,
                own: Some(dry),
                others: None,
            },
        }
    }

    #[tactic(auto, using(crate::proofs::Hands::then_took, crate::proofs::Hands::moved_more, crate::proofs::Rooms::room_same, crate::proofs::Rooms::room_less))]
    // The first of its own deque, or else of its list.
    fn take_deque_first(&mut self, rack: &Rack<T>) -> Look<T>
        requires hand { IsHandOf T.number T.home T.ready rack.now self.old }
        requires room { HasRoom self.old }
        ensures hand { IsHandOf T.number T.home T.ready rack.now self.new }
        ensures room { HasRoom self.new }
        ensures took { Took T.number T.home T.ready result.agent self.old self.new }
        ensures none { IfNone result.agent ((self.old.list.items ≡ []) × (self.new.list.items ≡ []) × IsSomeAnd result.own (IsDryAt self.old.place)) }
        ensures tells { IfSome result.own (IsDryAt self.old.place) }
        ensures deque { IsNone result.own → self.new.list ≡ self.old.list }
        ensures others { (result.others ≡ None) × (self.new.keys ≡ self.old.keys) × (self.new.list_is_next ≡ self.old.list_is_next) }
    {
        match self.take_own(rack) {
            Ok(agent) => Look {
                agent: Some(agent),
                own: None,
                others: None,
            },
            Err(dry) => {
                let agent = self.take_listed(rack);
                Look {
                    agent,
                    own: Some(dry),
                    others: None,
                }
            }
        }
    }

    // By turns the first of its list and the first of its own deque, or of the other one where that has none.
    fn take(&mut self, rack: &Rack<T>) -> Look<T>
        requires hand { IsHandOf T.number T.home T.ready rack.now self.old }
        requires room { HasRoom self.old }
        ensures hand { IsHandOf T.number T.home T.ready rack.now self.new }
        ensures room { HasRoom self.new }
        ensures took { Took T.number T.home T.ready result.agent self.old self.new }
        ensures none { IfNone result.agent ((self.old.list.items ≡ []) × (self.new.list.items ≡ []) × IsSomeAnd result.own (IsDryAt self.old.place)) }
        ensures tells { IfSome result.own (IsDryAt self.old.place) }
        ensures turns { TakesInTurn self.old self.new result.own }
        ensures others { (result.others ≡ None) × (self.new.keys ≡ self.old.keys) }
    {
        let list_first = self.list_is_next;
        self.list_is_next = !list_first;
        if list_first {
            self.take_list_first(rack)
        } else {
            self.take_deque_first(rack)
        }
    }

    #[tactic(auto, using(crate::proofs::Hands::then_took, crate::proofs::Hands::moved_more, crate::proofs::Rooms::room_same, crate::proofs::Rooms::room_less))]
    // What is its own, or else one that it steals.
    fn own_first<R: Wait>(&mut self, rt: &R, rack: &Rack<T>) -> Look<T>
        requires hand { IsHandOf T.number T.home T.ready rack.now self.old }
        requires room { HasRoom self.old }
        ensures hand { IsHandOf T.number T.home T.ready rack.now self.new }
        ensures room { HasRoom self.new }
        ensures took { Took T.number T.home T.ready result.agent self.old self.new }
        ensures none { IfNone result.agent ((self.new.list.items ≡ []) × AllDry self.old.place (length rack.now.doors.items) result) }
        ensures tells { Tells self.old.place (length rack.now.doors.items) result }
        ensures order { OwnFirst self.old self.new result }
    {
        let Look {
            agent,
            own,
            others: _,
        } = self.take(rack);
        if let Some(agent) = agent {
            return Look {
                agent: Some(agent),
                own,
                others: None,
            };
        }
        match self.steal_any(rt, rack) {
            Ok(agent) => Look {
                agent: Some(agent),
                own,
                others: None,
            },
            Err(round) => Look {
                agent: None,
                own,
                others: Some(round),
            },
        }
    }

    #[tactic(auto, using(crate::proofs::Hands::then_took, crate::proofs::Hands::moved_more, crate::proofs::Rooms::room_same, crate::proofs::Rooms::room_less))]
    // One that it steals, or else what is its own.
    fn others_first<R: Wait>(&mut self, rt: &R, rack: &Rack<T>) -> Look<T>
        requires hand { IsHandOf T.number T.home T.ready rack.now self.old }
        requires room { HasRoom self.old }
        ensures hand { IsHandOf T.number T.home T.ready rack.now self.new }
        ensures room { HasRoom self.new }
        ensures took { Took T.number T.home T.ready result.agent self.old self.new }
        ensures none { IfNone result.agent ((self.new.list.items ≡ []) × AllDry self.old.place (length rack.now.doors.items) result) }
        ensures tells { Tells self.old.place (length rack.now.doors.items) result }
        ensures order { OthersFirst self.old self.new result }
    {
        match self.steal_any(rt, rack) {
            Ok(agent) => Look {
                agent: Some(agent),
                own: None,
                others: None,
            },
            Err(round) => {
                let Look {
                    agent,
                    own,
                    others: _,
                } = self.own_first(rt, rack);
                Look {
                    agent,
                    own,
                    others: Some(round),
                }
            }
        }
    }

    #[tactic(auto, using(crate::proofs::Hands::then_took, crate::proofs::Hands::moved_more, crate::proofs::Rooms::room_same, crate::proofs::Rooms::room_less))]
    // The next agent for this worker. A hand with no room for one more takes the first of its list alone.
    fn next<R: Wait>(&mut self, rt: &R, rack: &Rack<T>) -> Look<T>
        requires hand { IsHandOf T.number T.home T.ready rack.now self.old }
        requires keeps { CanKeep self.old }
        ensures hand { IsHandOf T.number T.home T.ready rack.now self.new }
        ensures room { MatchOption result.agent (CanKeep self.new) (λ _. HasRoom self.new) }
        ensures took { Took T.number T.home T.ready result.agent self.old self.new }
        ensures none { IfNone result.agent (IsOver self.old.place (length rack.now.doors.items) self.new result) }
        ensures tells { Tells self.old.place (length rack.now.doors.items) result }
        ensures order { HasRoom self.old → LooksInOrder self.old self.new result }
    {
        if !self.has_room() {
            return Look {
                agent: self.take_listed(rack),
                own: None,
                others: None,
            };
        }
        if self.ahead {
            self.others_first(rt, rack)
        } else {
            self.own_first(rt, rack)
        }
    }

    // Puts an agent last onto its own deque, or into its list where the deque refuses it.
    fn give(&mut self, rack: &Rack<T>, agent: T)
        requires hand { IsHandOf T.number T.home T.ready rack.now self.old }
        requires room { HasRoom self.old }
        requires waits { Waits T.number T.home T.ready (hand_home self.old) agent }
        ensures hand { IsHandOf T.number T.home T.ready rack.now self.new }
        ensures keeps { CanKeep self.new }
        ensures moved { Moved T.number self.old self.new (T.number agent ∷ []) [] }
        ensures ahead { self.new.ahead ≡ self.old.ahead }
    {
        let _ = rack;
        match push(&mut self.own, agent) {
            Ok(()) => {}
            Err(back) => self.list.push_back_reserved(back),
        }
    }

    // Puts back an agent that goes on, keeps one that has ended, and notes whether it was ahead.
    fn settle(&mut self, rack: &Rack<T>, turned: AgentTurned<T>)
        requires hand { IsHandOf T.number T.home T.ready rack.now self.old }
        requires room { HasRoom self.old }
        requires waits { MatchTurned turned (Waits T.number T.home T.ready (hand_home self.old)) (Waits T.number T.home T.ready (hand_home self.old)) (λ _. ⊤) }
        ensures hand { IsHandOf T.number T.home T.ready rack.now self.new }
        ensures keeps { CanKeep self.new }
        ensures settled { Settled T.number turned self.old self.new }
        ensures ahead { IsTrue self.new.ahead ↔ IsAhead turned }
    {
        match turned {
            AgentTurned::Again(agent) => {
                self.ahead = false;
                self.give(rack, agent);
            }
            AgentTurned::Ahead(agent) => {
                self.ahead = true;
                self.give(rack, agent);
            }
            AgentTurned::Ended(agent) => {
                self.ahead = false;
                self.kept.push_reserved(agent);
            }
        }
    }
}

// Waits a while where the last agents of a worker were all ahead of another one, which somebody else has in hand.
fn give_way<R: Wait>(rt: &R, patience: &mut Patience, ahead: bool) {
    if ahead {
        patience.wait(rt);
    } else {
        patience.found();
    }
}

/// Works until it finds no agent: its list is empty, and its own deque and each other one had none, each at a step of its
/// last look, or it has kept as many as it has room for. Each agent that has ended is kept.
pub fn steal_worker<T: ReadyAgent, W: Turns<T>, R: Threads + Wait + Sync>(
    rt: &R,
    rack: &Rack<T>,
    hand: &mut Hand<T>,
    work: &W,
) -> Look<T>
    requires hand { IsHandOf T.number T.home T.ready rack.now hand.old }
    requires home { hand_home hand.old ≡ W.serves work.now }
    requires empty { (hand.old.list.items ≡ []) × (hand.old.kept.items ≡ []) }
    ensures hand { IsHandOf T.number T.home T.ready rack.now hand.new }
    ensures worked { Worked T.number (W.ended work.now) hand.old hand.new }
    ensures over { IsOver hand.old.place (length rack.now.doors.items) hand.new result }
{
    let mut patience = Patience::new(FIRST_SLEEP);
    for _ in rt.forever() {
        let Look { agent, own, others } = hand.next(rt, rack);
        let Some(agent) = agent else {
            return Look {
                agent: None,
                own,
                others,
            };
        };
        let turned = work.turn(rt, agent);
        hand.settle(rack, turned);
        give_way(rt, &mut patience, hand.ahead);
    }
    unreachable!()
}
