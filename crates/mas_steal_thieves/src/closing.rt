//! Closing the deques of all workers.
ghost use Rattle.std.specs.Prelude.{◌≡◌, ◌++◌, ◌≤◌, IfOk, OnOk, map};
ghost use Rattle.crossbeam_deque.specs.Handles.{view, IsPassOf, worker_view, worker_deque, SameWorker};
ghost use Rattle.mas_board_lists.specs.Lists.{Each};
ghost use Rattle.mas_steal_rack.specs.Rule.{whole, both_of, Waits};
ghost use Rattle.mas_steal_rack.specs.Racks.{all_kept, IsWorked, Closed};
ghost use Rattle.mas_steal_thieves.specs.Closing.{IsOpenOwner, IsWhole, Fit, AllFit, Joins, JoinsAll, Drains, DrainsAll};

use mas_steal_rack::agent::ReadyAgent;
use mas_steal_rack::deque::{Key, Owner, absorb, bound, pop};
use mas_steal_rack::hand::{Hand, Rack};
use mas_steal_rack::turns::Turns;
use std::alloc::{AllocError, Global};
use std::collections::VecDeque;
use std::sync::Wait;

fn keep_all<T: Drop>(mut kept: Vec<T>, more: Vec<T>) -> Result<Vec<T>, AllocError>
    ensures { IfOk result (λ v. v.items ≡ kept.items ++ more.items) }
{
    for agent in more {
        kept.push(agent)?;
    }
    Ok(kept)
}

// The deques of these hands, their keys, and the agents that they kept.
fn split_hands<T: ReadyAgent>(
    alloc: Global,
    hands: Vec<Hand<T>>,
) -> Result<(Vec<Owner<T>>, Vec<Vec<Key<T>>>, Vec<T>), AllocError>
    ensures owners { IfOk result (λ r. r.0.items ≡ map (λ h. h.own) hands.items) }
    ensures rows { IfOk result (λ r. r.1.items ≡ map (λ h. h.keys) hands.items) }
    ensures kept { IfOk result (λ r. r.2.items ≡ all_kept hands.items) }
{
    let mut owners = Vec::new(alloc);
    let mut rows = Vec::new(alloc);
    let mut all = Vec::new(alloc);
    for hand in hands {
        let Hand {
            place: _,
            own,
            keys,
            list: _,
            list_is_next: _,
            ahead: _,
            kept,
        } = hand;
        owners.push(own)?;
        rows.push(keys)?;
        all = keep_all(all, kept)?;
    }
    Ok((owners, rows, all))
}

// Takes back a key.
fn take_key<T: ReadyAgent>(own: &mut Owner<T>, key: Key<T>)
    requires open { IsOpenOwner own.old }
    requires door { IsPassOf (worker_deque own.old) key }
    ensures same { SameWorker own.old own.new }
    ensures rule { worker_view own.new ≡ both_of (worker_view own.old) (view key) }
    ensures most { (worker_view own.new).parts ≤ whole }
{
    absorb(own, key);
    bound(own);
}

// Takes back the keys of one hand.
#[tactic(auto, using(crate::proofs::Closings::joins))]
fn take_keys<T: ReadyAgent>(owners: &mut Vec<Owner<T>>, mut keys: Vec<Key<T>>)
    requires open { Each (λ own. IsOpenOwner own) owners.old.items }
    requires fit { Fit owners.old.items keys.items }
    ensures { Joins owners.old.items keys.items owners.new.items }
{
    while let Some(key) = keys.pop() {
        let place = keys.len();
        take_key(&mut owners[place], key);
    }
}

// Takes back the keys of all hands.
#[tactic(auto, using(crate::proofs::Closings::joins_all))]
fn take_rows<T: ReadyAgent>(owners: &mut Vec<Owner<T>>, mut rows: Vec<Vec<Key<T>>>)
    requires open { Each (λ own. IsOpenOwner own) owners.old.items }
    requires fit { AllFit owners.old.items rows.items }
    ensures { JoinsAll owners.old.items rows.items owners.new.items }
{
    while let Some(keys) = rows.pop() {
        take_keys(owners, keys);
    }
}

// All agents that are left in this deque.
fn drain_one<T: ReadyAgent, R: Wait>(
    rt: &R,
    mut own: Owner<T>,
    left: &mut VecDeque<T>,
) -> Result<(), AllocError>
    requires whole { IsWhole (worker_view own).home own }
    requires wait { Each (Waits T.number T.home T.ready (worker_view own).home) left.old.items }
    ensures wait { OnOk result (Each (Waits T.number T.home T.ready (worker_view own).home) left.new.items) }
    ensures drains { OnOk result (Drains T.number (worker_view own) left.old.items left.new.items) }
{
    for _ in rt.forever() {
        let Some(agent) = pop(&mut own) else {
            return Ok(());
        };
        left.push_back(agent)?;
    }
    unreachable!()
}

// All agents that are left in these deques.
fn drain_all<T: ReadyAgent, W: Turns<T>, R: Wait>(
    rt: &R,
    alloc: Global,
    mut owners: Vec<Owner<T>>,
    work: &W,
) -> Result<VecDeque<T>, AllocError>
    requires whole { Each (λ own. IsWhole (W.serves work.now) own) owners.items }
    ensures wait { IfOk result (λ v. Each (Waits T.number T.home T.ready (W.serves work.now)) v.items) }
    ensures drains { IfOk result (λ v. DrainsAll T.number owners.items v.items) }
{
    let _ = work;
    let mut left = VecDeque::new(alloc);
    while let Some(own) = owners.pop() {
        drain_one(rt, own, &mut left)?;
    }
    Ok(left)
}

/// The agents that the workers kept, and those that are left in the deques.
#[tactic(auto, using(crate::proofs::Runs::close_open, crate::proofs::Runs::close_fit, crate::proofs::Whole::all_whole, crate::proofs::Whole::all_closed))]
pub fn close_rack<T: ReadyAgent, W: Turns<T>, R: Wait>(
    rt: &R,
    alloc: Global,
    rack: &Rack<T>,
    hands: Vec<Hand<T>>,
    work: &W,
) -> Result<(Vec<T>, VecDeque<T>), AllocError>
    requires worked { IsWorked T.number T.home T.ready (W.serves work.now) rack.now hands.items }
    ensures closed { IfOk result (λ r. Closed T.number hands.items r.0.items r.1.items) }
    ensures wait { IfOk result (λ r. Each (Waits T.number T.home T.ready (W.serves work.now)) r.1.items) }
{
    let _ = rack;
    let (mut owners, rows, kept) = split_hands(alloc, hands)?;
    take_rows(&mut owners, rows);
    let left = drain_all(rt, alloc, owners, work)?;
    Ok((kept, left))
}
