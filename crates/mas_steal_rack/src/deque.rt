//! One deque of agents: the calls of its owner and of thieves.
ghost use Rattle.std.specs.Prelude.{◌≡◌, ◌<◌, ◌≤◌, ◌+◌, [], ◌∷◌, IfErr, IsSome};
ghost use Rattle.crossbeam_deque.specs.Handles.{view, IsPassOf, stealer_deque, stealer_flavor};
ghost use Rattle.crossbeam_deque.specs.Handles.{worker_deque, worker_flavor, worker_view, worker_index, worker_capacity, SameWorker};
ghost use Rattle.mas_steal_rack.specs.Rule.{whole, blank, less, one_part, both_of, IsOpen, Waits, Found, with_put};
ghost use Rattle.mas_steal_rack.specs.Hands.{Pushed};

use crate::agent::ReadyAgent;
use crate::rule::{DequePuts, DequeRule, DequeSplit, DequeView, Gets};
use crossbeam_deque::{Pass, Steal, Stealer, Worker};
use std::alloc::Global;
use std::sync::Wait;

/// The owner's end of a deque.
pub type Owner<T> = Worker<T, Global, DequeView<<T as ReadyAgent>::Home>, DequeRule<T>>;

/// The end at which others steal.
pub type Door<T> = Stealer<T, Global, DequeView<<T as ReadyAgent>::Home>, DequeRule<T>>;

/// What a hand needs to steal at a door.
pub type Key<T> = Pass<T, DequeView<<T as ReadyAgent>::Home>>;

/// The first put, of a deque that has room for it.
pub fn open<T: ReadyAgent>(own: &mut Owner<T>, agent: T)
    requires blank { (worker_view own.old ≡ blank) × (worker_flavor own.old ≡ 0) }
    requires room { worker_index own.old < worker_capacity own.old }
    requires ready { T.ready agent }
    ensures same { SameWorker own.old own.new × (worker_index own.new ≡ worker_index own.old + 1) }
    ensures put { worker_view own.new ≡ with_put T.number T.home blank (agent ∷ []) }
{
    match own.push_as::<DequePuts<T>>(agent) {
        Ok(()) => {}
        Err(_) => unreachable!(),
    }
}

/// Puts an agent last. A refused one comes back, and then nothing has changed.
pub fn push<T: ReadyAgent>(own: &mut Owner<T>, agent: T) -> Result<(), T>
    requires open { IsOpen (worker_view own.old) }
    requires waits { Waits T.number T.home T.ready (worker_view own.old).home agent }
    ensures same { SameWorker own.old own.new }
    ensures rule { Pushed T.number T.home result agent own.old own.new }
    ensures refused { IfErr result (λ _. worker_capacity own.old ≤ worker_index own.old) }
{
    own.push_as::<DequePuts<T>>(agent)
}

/// Takes the first agent. None only where the deque was empty at a step of this call.
pub fn pop<T: ReadyAgent>(own: &mut Owner<T>) -> Option<T>
    requires open { IsOpen (worker_view own.old) × (worker_flavor own.old ≡ 0) }
    ensures same { SameWorker own.old own.new × (worker_index own.new ≤ worker_index own.old) }
    ensures rule { Found T.number T.home T.ready result (worker_view own.old) (worker_view own.new) }
{
    own.pop_as::<Gets<T>>()
}

/// Takes the first agent from another worker's deque. None only where it was empty at a step of this call.
pub fn steal<T: ReadyAgent, R: Wait>(rt: &R, door: &Door<T>, key: &mut Key<T>) -> Option<T>
    requires door { IsPassOf (stealer_deque door.now) key.old × (stealer_flavor door.now ≡ 0) }
    requires open { IsOpen (view key.old) }
    ensures door { IsPassOf (stealer_deque door.now) key.new }
    ensures rule { Found T.number T.home T.ready result (view key.old) (view key.new) }
{
    for _ in rt.forever() {
        match door.steal_as::<Gets<T>>(key) {
            Steal::Success(agent) => return Some(agent),
            Steal::Empty => return None,
            Steal::Retry => {}
        }
    }
    unreachable!()
}

/// A key to this deque.
pub fn another<T: ReadyAgent>(own: &mut Owner<T>) -> Key<T>
    requires open { IsSome (worker_view own.old).home }
    requires parts { 1 < (worker_view own.old).parts }
    ensures same { SameWorker own.old own.new × (worker_index own.new ≡ worker_index own.old) × IsPassOf (worker_deque own.old) result }
    ensures rule { (worker_view own.new ≡ less (worker_view own.old)) × (view result ≡ one_part (worker_view own.old)) }
{
    own.another::<DequeSplit>()
}

/// Takes back a key.
pub fn absorb<T: ReadyAgent>(own: &mut Owner<T>, key: Key<T>)
    requires open { IsOpen (worker_view own.old) }
    requires door { IsPassOf (worker_deque own.old) key }
    ensures same { SameWorker own.old own.new × (worker_index own.new ≡ worker_index own.old) }
    ensures rule { worker_view own.new ≡ both_of (worker_view own.old) (view key) }
{
    own.absorb::<DequeSplit>(key)
}

/// The owner has at most all parts.
pub fn bound<T: ReadyAgent>(own: &mut Owner<T>)
    ensures same { SameWorker own.old own.new × (worker_index own.new ≡ worker_index own.old) × (worker_view own.new ≡ worker_view own.old) }
    ensures parts { (worker_view own.old).parts ≤ whole }
{
    own.len_as::<DequeSplit>();
}
