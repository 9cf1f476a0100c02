//! Opening the deques of all workers.
ghost use Rattle.std.specs.Prelude.{◌≡◌, ◌<◌, ◌≤◌, ◌+◌, ◌^◌, [], Some, IfOk, OnOk, length};
ghost use Rattle.crossbeam_deque.specs.Handles.{worker_view, worker_flavor, worker_index, worker_capacity, SameWorker};
ghost use Rattle.mas_board_lists.specs.Lists.{Each};
ghost use Rattle.mas_steal_rack.specs.Rule.{whole, Waits, blank};
ghost use Rattle.mas_steal_rack.specs.Turns.{Went};
ghost use Rattle.mas_steal_rack.specs.Racks.{first_home, AllWait, Dealt};
ghost use Rattle.mas_steal_rack.specs.Hands.{Both};
ghost use Rattle.mas_steal_rack.specs.Looks.{HasRoomFor};
ghost use Rattle.mas_steal_thieves.specs.Opening.{IsStarted, Has, HasRoom, Opens, Deals, DealsAll, AreDealt, IsDoorOf, CanCut, HasCut, IsRow, IsHandFor};

use mas_steal_rack::agent::ReadyAgent;
use mas_steal_rack::deque::{Door, Key, Owner, another, open, pop, push};
use mas_steal_rack::hand::{Hand, Rack};
use std::alloc::{AllocError, Global};
use std::collections::VecDeque;

// Opens a new deque with this agent, which comes back.
fn open_with<T: ReadyAgent>(own: &mut Owner<T>, agent: T) -> T
    requires new { (worker_view own.old ≡ blank) × (worker_flavor own.old ≡ 0) }
    requires room { worker_index own.old < worker_capacity own.old }
    requires ready { T.ready agent }
    ensures same { SameWorker own.old own.new × (worker_index own.new ≤ worker_index own.old + 1) }
    ensures started { IsStarted (Some (T.home agent)) (worker_view own.new) }
    ensures agent { Went T.number T.home T.ready agent result }
{
    open(own, agent);
    match pop(own) {
        Some(agent) => agent,
        None => unreachable!(),
    }
}

// Deals a block of agents, or all that are left.
fn deal_block<T: ReadyAgent>(own: &mut Owner<T>, rest: &mut VecDeque<T>, block: usize)
    requires has { Has whole (worker_view own.old).home own.old }
    requires room { HasRoom block own.old }
    requires wait { Each (Waits T.number T.home T.ready (worker_view own.old).home) rest.old.items }
    ensures has { Has whole (worker_view own.old).home own.new }
    ensures wait { Each (Waits T.number T.home T.ready (worker_view own.old).home) rest.new.items }
    ensures deals { Deals T.number block own.old own.new rest.old.items rest.new.items }
{
    for dealt in 0..block {
        let _ = dealt;
        let Some(agent) = rest.pop_front() else {
            return;
        };
        match push(own, agent) {
            Ok(()) => {}
            Err(_) => unreachable!(),
        }
    }
}

// Deals a block of agents to each deque, in order, as long as there are any.
fn deal_all<T: ReadyAgent>(owners: &mut Vec<Owner<T>>, rest: &mut VecDeque<T>, block: usize)
    requires has { Each (λ own. Has whole (first_home T.home rest.old.items) own) owners.old.items }
    requires room { Each (λ own. HasRoom block own) owners.old.items }
    requires wait { AllWait T.number T.home T.ready rest.old.items }
    ensures has { Each (λ own. Has whole (first_home T.home rest.old.items) own) owners.new.items }
    ensures deals { DealsAll T.number block owners.old.items owners.new.items rest.old.items rest.new.items }
{
    for place in 0..owners.len() {
        deal_block(&mut owners[place], rest, block);
    }
}

// As many deques with room for a block, each opened with the first agent, which comes back.
fn open_owners<T: ReadyAgent>(
    alloc: Global,
    first: T,
    workers: usize,
    block: usize,
) -> Result<(Vec<Owner<T>>, T), AllocError>
    requires ready { T.ready first }
    requires few { block < 2 ^ 63 }
    ensures owners { IfOk result (λ r. Opens (Some (T.home first)) workers block r.0.items) }
    ensures first { IfOk result (λ r. Went T.number T.home T.ready first r.1) }
{
    let mut owners = Vec::new(alloc);
    let mut agent = first;
    for opened in 0..workers {
        let _ = opened;
        let mut own = Owner::fifo_as(alloc, block + 1)?;
        agent = open_with(&mut own, agent);
        owners.push(own)?;
    }
    Ok((owners, agent))
}

// The agents in a queue.
fn queue_of<T: Drop>(alloc: Global, agents: Vec<T>) -> Result<VecDeque<T>, AllocError>
    ensures { IfOk result (λ v. v.items ≡ agents.items) }
{
    let mut queue = VecDeque::with_capacity(alloc, agents.len())?;
    for agent in agents {
        queue.push_back(agent)?;
    }
    Ok(queue)
}

// The doors of these deques.
fn doors_of<T: ReadyAgent>(
    alloc: Global,
    owners: &Vec<Owner<T>>,
) -> Result<Vec<Door<T>>, AllocError>
    ensures { IfOk result (λ v. Both (λ own door. IsDoorOf own door) owners.now.items v.items) }
{
    let mut doors = Vec::new(alloc);
    for own in owners {
        doors.push(own.stealer()?)?;
    }
    Ok(doors)
}

// A key to each deque, for one hand.
fn cut_row<T: ReadyAgent>(
    alloc: Global,
    owners: &mut Vec<Owner<T>>,
) -> Result<Vec<Key<T>>, AllocError>
    requires { Each (λ own. CanCut 1 own) owners.old.items }
    ensures cut { OnOk result (Both (λ old new. HasCut 1 old new) owners.old.items owners.new.items) }
    ensures row { IfOk result (λ v. IsRow owners.new.items v) }
{
    let mut keys = Vec::new(alloc);
    for place in 0..owners.len() {
        let key = another(&mut owners[place]);
        keys.push(key)?;
    }
    Ok(keys)
}

// The same for so many hands.
fn cut_rows<T: ReadyAgent>(
    alloc: Global,
    owners: &mut Vec<Owner<T>>,
    hands: usize,
) -> Result<Vec<Vec<Key<T>>>, AllocError>
    requires { Each (λ own. CanCut hands own) owners.old.items }
    ensures cut { OnOk result (Both (λ old new. HasCut hands old new) owners.old.items owners.new.items) }
    ensures number { IfOk result (λ v. length v.items ≡ hands) }
    ensures rows { IfOk result (λ v. Each (λ row. IsRow owners.new.items row) v.items) }
{
    let mut rows = Vec::new(alloc);
    for cut in 0..hands {
        let _ = cut;
        let row = cut_row(alloc, owners)?;
        rows.push(row)?;
    }
    Ok(rows)
}

// The hand at this place, with room for so many agents.
fn new_hand<T: ReadyAgent>(
    alloc: Global,
    place: usize,
    own: Owner<T>,
    keys: Vec<Key<T>>,
    agents: usize,
) -> Result<Hand<T>, AllocError>
    ensures place { IfOk result (λ h. h.place ≡ place) }
    ensures own { IfOk result (λ h. h.own ≡ own) }
    ensures keys { IfOk result (λ h. h.keys ≡ keys) }
    ensures list { IfOk result (λ h. h.list.items ≡ []) }
    ensures kept { IfOk result (λ h. h.kept.items ≡ []) }
    ensures room { IfOk result (HasRoomFor agents) }
{
    Ok(Hand {
        place,
        own,
        keys,
        list: VecDeque::with_capacity(alloc, agents)?,
        list_is_next: false,
        ahead: false,
        kept: Vec::with_capacity(alloc, agents)?,
    })
}

// A hand for each deque, with its keys, and with room for so many agents.
fn hands_of<T: ReadyAgent>(
    alloc: Global,
    mut owners: VecDeque<Owner<T>>,
    mut rows: Vec<Vec<Key<T>>>,
    agents: usize,
) -> Result<Vec<Hand<T>>, AllocError>
    requires number { length rows.items ≡ length owners.items }
    requires rows { Each (λ row. IsRow owners.items row) rows.items }
    ensures hands { IfOk result (λ v. Both (IsHandFor owners.items) owners.items v.items) }
    ensures room { IfOk result (λ v. Each (HasRoomFor agents) v.items) }
{
    let mut hands = Vec::new(alloc);
    while let Some(own) = owners.pop_front() {
        let Some(keys) = rows.pop() else {
            unreachable!()
        };
        let hand = new_hand(alloc, hands.len(), own, keys, agents)?;
        hands.push(hand)?;
    }
    Ok(hands)
}

// A deque for each worker, in which the agents are dealt in blocks.
fn open_dealt<T: ReadyAgent>(
    alloc: Global,
    agents: Vec<T>,
    workers: usize,
) -> Result<Vec<Owner<T>>, AllocError>
    requires workers { (0 < workers) × (workers ≤ 64) }
    requires some { 0 < length agents.items }
    requires wait { AllWait T.number T.home T.ready agents.items }
    ensures { IfOk result (λ v. AreDealt T.number T.home agents.items workers v.items) }
{
    let block = agents.len().div_ceil(workers);
    let mut rest = queue_of(alloc, agents)?;
    let Some(first) = rest.pop_front() else {
        unreachable!()
    };
    let (mut owners, first) = open_owners(alloc, first, workers, block)?;
    rest.push_front(first)?;
    deal_all(&mut owners, &mut rest, block);
    Ok(owners)
}

/// A deque for each worker, in which the agents are dealt in blocks, and a hand for each worker.
pub fn open_rack<T: ReadyAgent>(
    alloc: Global,
    agents: Vec<T>,
    workers: usize,
) -> Result<(Rack<T>, Vec<Hand<T>>), AllocError>
    requires workers { (0 < workers) × (workers ≤ 64) }
    requires some { 0 < length agents.items }
    requires wait { AllWait T.number T.home T.ready agents.items }
    ensures { IfOk result (λ r. Dealt T.number T.home T.ready agents.items r.0 r.1.items) }
{
    let number = agents.len();
    let mut owners = open_dealt(alloc, agents, workers)?;
    let rows = cut_rows(alloc, &mut owners, workers)?;
    let doors = doors_of(alloc, &owners)?;
    let hands = hands_of(alloc, queue_of(alloc, owners)?, rows, number)?;
    Ok((Rack { doors }, hands))
}
