//! Events, running stacks, the stack that waits for its action, and those that wait for an answer.

ghost use Rattle.std.specs.Prelude.{◌≡◌, ◌+◌, [], ◌∷◌, ◌++◌, None, Some, OnOk, OnErr, IfOk, drop, slice_get};
ghost use Rattle.asl_intend.specs.Agendas as spec;

use crate::dropping::{drop_named, drop_named_events, drop_named_stacks, drop_wanted_events};
use crate::event_trigger::EventTrigger;
use crate::stack::Stack;
use asl_term::sequence::{Seq, Starved};
use asl_term::syntax::{Literal, Term};
use asl_term_queue::queue::Queue;
use std::alloc::Global;

/// Why a goal failed.
#[derive(Clone, Copy, PartialEq, Eq, Drop)]
pub enum Error {
    NoRelevant,
    NoApplicable,
    ActionFailed,
    IaFailed,
    TestFailed,
    Arith,
    TermLimit,
    NotGround,
}

/// What happened, and the stack that waits for its treatment. Where the stack is empty the event is external.
#[derive(Drop)]
pub struct Event {
    pub trigger: EventTrigger,
    pub stack: Stack,
    pub error: Option<Error>,
}

/// A stack that waits for an answer, and the term that takes it.
#[derive(Drop)]
pub struct Ask {
    pub number: u64,
    pub answer: Term,
    pub stack: Stack,
}

/// A stack that waits for its action.
#[derive(Drop)]
pub struct Acting {
    pub stack: Stack,
    pub action: Literal,
}

pub type Events = Queue<Event>;

pub type Stacks = Seq<Stack>;

/// Stacks from whose front one is taken.
pub type Running = Queue<Stack>;

pub type Asks = Seq<Ask>;

/// All stacks but the current one, and the events, the oldest first.
pub struct Agenda {
    pub events: Events,
    pub running: Running,
    pub acting: Option<Acting>,
    pub asks: Asks,
}

/// By hand, so that a crate above that lets one go proves nothing of its parts.
impl Drop for Agenda {
    fn drop(self) {
        let Agenda {
            events: _,
            running: _,
            acting: _,
            asks: _,
        } = self;
    }
}

impl Agenda {
    /// Puts an event last.
    pub fn post(&mut self, e: Event) -> Result<(), Starved>
        ensures ok { OnOk result (self.new ≡ record self.old { events = self.old.events ++ e ∷ [] }) }
        ensures err { OnErr result (self.new ≡ self.old) }
    {
        self.events.push(e)
    }

    /// Takes the oldest event.
    pub fn take_event(&mut self) -> Option<Event>
        ensures value { result ≡ slice_get self.old.events 0 }
        ensures rest { self.new ≡ record self.old { events = drop 1 self.old.events } }
    {
        self.events.take_first()
    }

    /// Puts a stack last among those that run.
    pub fn ready(&mut self, s: Stack) -> Result<(), Starved>
        ensures ok { OnOk result (self.new ≡ record self.old { running = self.old.running ++ s ∷ [] }) }
        ensures err { OnErr result (self.new ≡ self.old) }
    {
        self.running.push(s)
    }

    /// Takes the first stack that runs.
    pub fn take_ready(&mut self) -> Option<Stack>
        ensures value { result ≡ slice_get self.old.running 0 }
        ensures rest { self.new ≡ record self.old { running = drop 1 self.old.running } }
    {
        self.running.take_first()
    }

    /// Keeps a stack that waits for its action.
    pub fn hold_action(&mut self, a: Acting)
        requires { self.old.acting ≡ None }
        ensures { self.new ≡ record self.old { acting = Some a } }
    {
        self.acting = Some(a);
    }

    /// Takes the stack that waits for its action.
    pub fn take_action(&mut self) -> Option<Acting>
        ensures value { result ≡ self.old.acting }
        ensures rest { self.new ≡ record self.old { acting = None } }
    {
        self.acting.take()
    }

    /// Puts an ask last.
    pub fn hold_ask(&mut self, a: Ask) -> Result<(), Starved>
        ensures ok { OnOk result (self.new ≡ record self.old { asks = self.old.asks ++ a ∷ [] }) }
        ensures err { OnErr result (self.new ≡ self.old) }
    {
        self.asks.push(a)
    }

    /// Takes the first ask of a number.
    pub fn take_ask(&mut self, number: u64) -> Option<Ask>
        ensures value { result ≡ spec.ask_of number self.old.asks }
        ensures rest { self.new ≡ record self.old { asks = spec.without_ask number self.old.asks } }
    {
        let k = ask_place(self.asks.as_slice(), number);
        self.asks.remove(k)
    }

    /// Drops every stack that has a goal which the literal names, with its event or ask. The answer says how many.
    pub fn drop_intention(&mut self, alloc: Global, g: &Literal) -> Result<u64, Starved>
        ensures count { IfOk result (λ n. n ≡ spec.intentions g.now self.old) }
        ensures rest { OnOk result (self.new ≡ spec.without_intentions g.now self.old) }
    {
        let events = drop_named_events(alloc, &mut self.events, g)?;
        let running = drop_named_stacks(alloc, &mut self.running, g)?;
        let asks = drop_named(alloc, &mut self.asks, g)?;
        let held = both(events, running)?;
        both(held, asks)
    }

    /// Drops every event of a goal that the literal names, with its stack, and then as `drop_intention`.
    pub fn drop_desire(&mut self, alloc: Global, g: &Literal) -> Result<u64, Starved>
        ensures count { IfOk result (λ n. n ≡ spec.desires g.now self.old) }
        ensures rest { OnOk result (self.new ≡ spec.without_desires g.now self.old) }
    {
        let events = drop_wanted_events(alloc, &mut self.events, g)?;
        let others = self.drop_intention(alloc, g)?;
        both(events, others)
    }
}

/// The sum. No memory holds what a number of 64 bits can't count.
fn both(a: u64, b: u64) -> Result<u64, Starved>
    ensures { IfOk result (λ n. n ≡ a + b) }
{
    a.checked_add(b).ok_or(Starved)
}

/// The place of the first ask of a number, or the number of asks.
fn ask_place(asks: &[Ask], number: u64) -> u64
    ensures { result ≡ spec.ask_place number asks.now }
{
    for k in 0..asks.len() {
        if asks[k].number == number {
            return k as u64;
        }
    }
    asks.len() as u64
}
