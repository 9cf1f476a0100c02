//! All workers, each in a thread of its own.
ghost use Rattle.std.specs.Prelude.{◌≡◌, ◌<◌, All, length};
ghost use Rattle.std.specs.Thread.{IsSync};
ghost use Rattle.mas_steal_rack.specs.Racks.{IsFresh, Done, AllWorked};

use mas_steal_rack::agent::ReadyAgent;
use mas_steal_rack::hand::{Hand, Rack, steal_worker};
use mas_steal_rack::turns::Turns;
use std::sync::Wait;
use std::thread;
use std::thread::Threads;

/// One worker, at a hand that is fresh.
fn shift<T: ReadyAgent, W: Turns<T>, R: Threads + Wait + Sync>(
    rt: &R,
    rack: &Rack<T>,
    hand: &mut Hand<T>,
    work: &W,
)
    requires { IsFresh T.number T.home T.ready (W.serves work.now) rack.now hand.old }
    ensures { Done T.number T.home T.ready (W.ended work.now) rack.now hand.old hand.new }
{
    let found_none = steal_worker(rt, rack, hand, work);
    drop(found_none);
}

/// A worker for each hand, in a thread of its own where one can be made.
fn work_all<T: ReadyAgent + Send, W: Turns<T> + Sync, R: Threads + Wait + Sync>(
    rt: &R,
    rack: &Rack<T>,
    hands: &mut [Hand<T>],
    work: &W,
)
    requires some { 0 < length hands.old }
    requires fresh { All (λ h. IsFresh T.number T.home T.ready (W.serves work.now) rack.now h) hands.old }
    ensures { AllWorked T.number T.home T.ready (W.ended work.now) rack.now hands.old hands.new }
{
    let workers = hands.len();
    let each = |_: usize, hand: &mut Hand<T>|
        requires { IsSync R.row × IsFresh T.number T.home T.ready (W.serves work.now) rack.now hand.now }
        ensures { Done T.number T.home T.ready (W.ended work.entry.now) rack.entry.now hand.entry.now hand.exit.now }
    { shift(rt, rack, hand, work) };
    thread::for_each_mut(rt, hands, workers, &each);
}

/// The same of a list of hands.
pub fn worked<T: ReadyAgent + Send, W: Turns<T> + Sync, R: Threads + Wait + Sync>(
    rt: &R,
    rack: &Rack<T>,
    mut hands: Vec<Hand<T>>,
    work: &W,
) -> Vec<Hand<T>>
    requires some { 0 < length hands.items }
    requires fresh { All (λ h. IsFresh T.number T.home T.ready (W.serves work.now) rack.now h) hands.items }
    ensures number { length result.items ≡ length hands.items }
    ensures worked { AllWorked T.number T.home T.ready (W.ended work.now) rack.now hands.items result.items }
{
    work_all(rt, rack, hands.as_mut_slice(), work);
    hands
}
