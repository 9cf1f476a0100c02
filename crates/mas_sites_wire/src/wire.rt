//! A wire, its ends, and its calls.

ghost use Rattle.std.specs.Prelude.{◌≡◌, [], true, IfOk, OnOk, OnErr};
ghost use Rattle.mas_mind.specs.Minds.{IsFrom};
ghost use Rattle.mas_sites_wire.specs.Ends.{IsEndOf, log_of};
ghost use Rattle.mas_sites_wire.specs.Wires as spec;

use asl_term::sequence::Starved;
use crossbeam_queue::protocol::{Join, Lesson, Outcome, Protocol, Split};
use crossbeam_queue::{RuledSegQueue, SegPass};
use mas_mind::mind::Message;
use std::alloc::Global;
use std::collections::LinkedList;
use std::marker::{Brand, PhantomData};
use std::sync::Wait;

/// What an end of a wire knows: whose messages it carries and how many agents there are; whether this end may put, and
/// whether it may get; and what was put and got by it. No value of it is made.
pub struct Log {
    pub sender: u32,
    pub agents: u32,
    pub puts: bool,
    pub gets: bool,
    pub put: LinkedList<Message>,
    pub got: LinkedList<Message>,
}

/// The rule of a wire.
pub struct InOrder;

impl Protocol<Message, Log> for InOrder {
    ghost use Rattle.mas_sites_wire.specs.Wires.{IsWire, blank};

    ghost holds = { IsWire };

    ghost first = { blank };
}

/// Whose messages a wire carries. The opening of a wire picks it.
pub trait Address {
    ghost use Rattle.std.specs.Prelude.{ℕ};

    ghost sender: { ℕ };

    ghost agents: { ℕ };
}

impl Address for Brand {
    ghost sender = { 0 };

    ghost agents = { 0 };
}

/// A new wire is told whose messages it carries.
struct Addressed<K> {
    of: PhantomData<K>,
}

impl<K: Address> Split<Log> for Addressed<K> {
    ghost use Rattle.std.specs.Prelude.{[]};
    ghost use Rattle.mas_sites_wire.specs.Wires.{whole, idle};

    ghost left = { λ v. whole K.sender K.agents [] [] };

    ghost right = { λ v. idle };
}

/// The two ends of a wire, and the whole wire again.
struct Ends;

impl Split<Log> for Ends {
    ghost use Rattle.mas_sites_wire.specs.Wires.{putting, getting};

    ghost left = { λ v. putting v.sender v.agents v.put };

    ghost right = { λ v. getting v.sender v.agents v.got };
}

impl Join<Log> for Ends {
    ghost use Rattle.mas_sites_wire.specs.Wires.{whole, idle};

    ghost both = { λ v w. whole v.sender v.agents v.put w.got };

    ghost spent = { idle };
}

/// A message was put.
struct Put;

impl Outcome<Message, Log> for Put {
    ghost use Rattle.std.specs.Prelude.{◌≡◌};
    ghost use Rattle.mas_sites_wire.specs.Wires.{with_put};

    ghost then = { λ v m w. w ≡ with_put v m };
}

/// The oldest message was got, or none was there.
struct Got;

impl Outcome<Message, Log> for Got {
    ghost use Rattle.mas_sites_wire.specs.Wires.{HasGot};

    ghost then = { HasGot };
}

impl Lesson<Message, Log> for Got {
    ghost use Rattle.mas_sites_wire.specs.Wires.{IsLeft};

    ghost fact = { IsLeft };
}

/// A wire for the messages of one agent, which threads share.
pub struct Wire {
    queue: RuledSegQueue<Message, Log, InOrder>,
}

/// By hand, since a queue is not let go by itself.
impl Drop for Wire {
    fn drop(self) {
        let Wire { queue } = self;
        queue.destroy();
    }
}

/// An end of a wire. It has no bytes.
#[derive(Drop)]
pub struct WireEnd {
    pass: SegPass<Message, Log>,
}

impl Wire {
    fn address<K: Address>(&self, end: &mut WireEnd, sender: u32, agents: u32)
        requires end { IsEndOf self.now end.old }
        requires blank { log_of end.old ≡ spec.blank }
        requires picked { (K.sender ≡ sender) × (K.agents ≡ agents) }
        ensures end { IsEndOf self.now end.new }
        ensures log { log_of end.new ≡ spec.whole sender agents [] [] }
    {
        let _spare = self.queue.another::<Addressed<K>>(&mut end.pass);
    }

    /// The wire is told whose messages it carries, and how many agents there are.
    fn address_to(&self, end: &mut WireEnd, sender: u32, agents: u32)
        requires end { IsEndOf self.now end.old }
        requires blank { log_of end.old ≡ spec.blank }
        ensures end { IsEndOf self.now end.new }
        ensures log { log_of end.new ≡ spec.whole sender agents [] [] }
    {
        self.address::<Brand>(end, sender, agents);
    }

    /// A wire with nothing on it, for the messages of this agent to one of so many.
    pub fn open(alloc: Global, sender: u32, agents: u32) -> Result<(Wire, WireEnd), Starved>
        ensures end { IfOk result (λ w. IsEndOf w.0 w.1) }
        ensures log { IfOk result (λ w. log_of w.1 ≡ spec.whole sender agents [] []) }
    {
        let (queue, pass) = RuledSegQueue::with_rule(alloc)?;
        let wire = Wire { queue };
        let mut end = WireEnd { pass };
        wire.address_to(&mut end, sender, agents);
        Ok((wire, end))
    }

    /// Puts a message of its sender on the wire.
    pub fn put<R: Wait>(&self, rt: &R, end: &mut WireEnd, m: Message) -> Result<(), Starved>
        requires end { IsEndOf self.now end.old }
        requires may { (log_of end.old).puts ≡ true }
        requires from { IsFrom (log_of end.old).sender (log_of end.old).agents m }
        ensures end { IsEndOf self.now end.new }
        ensures ok { OnOk result (log_of end.new ≡ spec.with_put (log_of end.old) m) }
        ensures err { OnErr result (log_of end.new ≡ log_of end.old) }
    {
        match self.queue.push_as::<Put, R>(rt, &mut end.pass, m) {
            Ok(()) => Ok(()),
            Err(_) => Err(Starved),
        }
    }

    /// Takes the oldest message that is on the way, or none where none was. An end that also puts knows which it is.
    pub fn get<R: Wait>(&self, rt: &R, end: &mut WireEnd) -> Option<Message>
        requires end { IsEndOf self.now end.old }
        requires may { (log_of end.old).gets ≡ true }
        ensures end { IsEndOf self.now end.new }
        ensures got { spec.HasAnswered (log_of end.old) result (log_of end.new) }
    {
        self.queue.pop_as::<Got, R>(rt, &mut end.pass)
    }

    /// Parts a whole end: it may put from now on, and the other may get.
    pub fn split(&self, end: &mut WireEnd) -> WireEnd
        requires end { IsEndOf self.now end.old }
        requires whole { ((log_of end.old).puts ≡ true) × ((log_of end.old).gets ≡ true) }
        ensures ends { IsEndOf self.now end.new × IsEndOf self.now result }
        ensures puts { log_of end.new ≡ spec.putting (log_of end.old).sender (log_of end.old).agents (log_of end.old).put }
        ensures gets { log_of result ≡ spec.getting (log_of end.old).sender (log_of end.old).agents (log_of end.old).got }
    {
        let pass = self.queue.another::<Ends>(&mut end.pass);
        WireEnd { pass }
    }

    /// Makes two ends one again.
    pub fn join(&self, end: &mut WireEnd, other: WireEnd)
        requires ends { IsEndOf self.now end.old × IsEndOf self.now other }
        requires parts { ((log_of end.old).puts ≡ true) × ((log_of other).gets ≡ true) }
        ensures end { IsEndOf self.now end.new }
        ensures log { log_of end.new ≡ spec.whole (log_of end.old).sender (log_of end.old).agents (log_of end.old).put (log_of other).got }
    {
        let WireEnd { pass } = other;
        self.queue.absorb::<Ends>(&mut end.pass, pass);
    }
}
