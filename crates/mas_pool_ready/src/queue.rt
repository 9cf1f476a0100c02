//! The queue: opened with all items, each of which any pass may take, and put back.
ghost use Rattle.std.specs.Prelude.{◌≡◌, ◌<◌, ◌≤◌, ◌+◌, [], length, MatchOption, IfOk};
ghost use Rattle.crossbeam_queue.specs.Passes.{view, IsPassOf};
ghost use Rattle.mas_pool_ready.specs.Rule.{numbers, blank, grown, gave, both_of, CameOf, Taken, IsDry, HasLast};
ghost use Rattle.mas_board_lists.specs.Lists.{Each, numbers_from};
ghost use Rattle.mas_pool_ready.specs.Passes as spec;

use crate::rule::{Grows, Numbered, ReadyPuts, ReadyRule, ReadySplit, ReadyTakes, ReadyView};
use asl_term::room::Roomy;
use asl_term::sequence::{Seq, Starved};
use crossbeam_queue::RuledArrayQueue;
use std::alloc::Global;
use std::sync::Wait;
use std::thread;

/// The queue of items.
#[derive(Drop)]
pub struct Ready<T: Numbered> {
    pub line: RuledArrayQueue<T, ReadyView<T>, ReadyRule<T>>,
}

/// What takes items from a queue and puts them back.
pub type ReadyPass<T> = crossbeam_queue::Pass<T, ReadyView<T>>;

/// What a worker works with: its pass to the queue, and the items that it keeps.
#[derive(Drop)]
pub struct Pass<T> {
    pub ticket: ReadyPass<T>,
    pub kept: Roomy<T>,
}

/// A pass with room for so many items.
fn with_room<T: Drop>(alloc: Global, ticket: ReadyPass<T>, items: u64) -> Result<Pass<T>, Starved>
    ensures ticket { IfOk result (λ p. p.ticket ≡ ticket) }
    ensures kept { IfOk result (λ p. p.kept.list ≡ []) }
    ensures room { IfOk result (λ p. items ≤ p.kept.spare) }
{
    let mut kept = Roomy::new(alloc);
    kept.reserve(items)?;
    Ok(Pass { ticket, kept })
}

/// Opens a queue with these items, and a pass for each worker.
pub fn open_ready<T: Numbered + Drop, R: Wait>(
    rt: &R,
    alloc: Global,
    items: Seq<T>,
    workers: u32,
) -> Result<(Ready<T>, Seq<Pass<T>>), Starved>
    requires some { 0 < length items }
    requires workers { (1 ≤ workers) × (workers ≤ 64) }
    requires numbers { numbers T.number_of items ≡ numbers_from 1 (length items) }
    requires became { Each (λ x. T.became x x) items }
    ensures count { IfOk result (λ r. length r.1 ≡ workers) }
    ensures fresh { IfOk result (λ r. Each (spec.IsFresh r.0 items) r.1) }
    ensures parts { IfOk result (λ r. spec.parts_of r.1 ≡ 64) }
{
    let count = items.len();
    let (line, mut ticket) = RuledArrayQueue::ruled(alloc, count as usize)?;
    let ready = Ready { line };
    ready.grow_all(rt, &mut ticket, items);
    let passes = ready.split(alloc, ticket, count, workers)?;
    Ok((ready, passes))
}

impl<T: Numbered + Drop> Ready<T> {
    /// Puts an item behind those that were put at the opening.
    fn grow<R: Wait>(&self, rt: &R, ticket: &mut ReadyPass<T>, mut item: T)
        requires ticket { IsPassOf self.now.line ticket.old }
        requires whole { (view ticket.old).parts ≡ 64 }
        requires number { T.number_of item ≡ length (view ticket.old).first + 1 }
        requires became { T.became item item }
        ensures ticket { IsPassOf self.now.line ticket.new }
        ensures grown { view ticket.new ≡ grown (view ticket.old) item }
    {
        for _ in rt.forever() {
            match self.line.try_push_as::<Grows<T>>(ticket, item) {
                Ok(()) => return,
                Err(back) => item = back,
            }
            thread::yield_now();
        }
    }

    /// Puts all items, which no pass has taken yet.
    fn grow_all<R: Wait>(&self, rt: &R, ticket: &mut ReadyPass<T>, items: Seq<T>)
        requires ticket { IsPassOf self.now.line ticket.old }
        requires blank { view ticket.old ≡ blank }
        requires numbers { numbers T.number_of items ≡ numbers_from 1 (length items) }
        requires became { Each (λ x. T.became x x) items }
        ensures ticket { IsPassOf self.now.line ticket.new }
        ensures first { (view ticket.new).first ≡ items }
        ensures parts { (view ticket.new).parts ≡ 64 }
        ensures holds { (view ticket.new).holds ≡ [] }
    {
        for item in items.into_vec() {
            self.grow(rt, ticket, item);
        }
    }

    /// A pass for each worker, all that are to be in use.
    fn split(
        &self,
        alloc: Global,
        mut ticket: ReadyPass<T>,
        items: u64,
        workers: u32,
    ) -> Result<Seq<Pass<T>>, Starved>
        requires ticket { IsPassOf self.now.line ticket }
        requires parts { (view ticket).parts ≡ 64 }
        requires holds { (view ticket).holds ≡ [] }
        requires items { items ≡ length (view ticket).first }
        requires workers { (1 ≤ workers) × (workers ≤ 64) }
        ensures count { IfOk result (λ passes. length passes ≡ workers) }
        ensures fresh { IfOk result (λ passes. Each (spec.IsFresh self.now (view ticket).first) passes) }
        ensures parts { IfOk result (λ passes. spec.parts_of passes ≡ 64) }
    {
        let mut passes = Seq::new(alloc);
        for made in 0..workers - 1 {
            prove!(made < workers - 1);
            let other = self.line.another::<ReadySplit>(&mut ticket);
            let pass = with_room(alloc, other, items)?;
            passes.push(pass)?;
        }
        let pass = with_room(alloc, ticket, items)?;
        passes.push(pass)?;
        Ok(passes)
    }

    /// The first item. None only where the queue was empty at a step of this call.
    pub fn take<R: Wait>(&self, rt: &R, pass: &mut Pass<T>) -> Option<T>
        requires pass { spec.IsOf self.now pass.old }
        ensures pass { spec.IsOf self.now pass.new }
        ensures kept { pass.new.kept ≡ pass.old.kept }
        ensures taken { let was = spec.known pass.old in
            let is = spec.known pass.new in
            MatchOption result ((is ≡ was) × IsDry was) (λ x. Taken T.number_of T.became was x is) }
    {
        self.line.pop_as::<ReadyTakes<T>, R>(rt, &mut pass.ticket)
    }

    /// Puts the item back that was taken last. There is room for it.
    pub fn put<R: Wait>(&self, rt: &R, pass: &mut Pass<T>, mut item: T)
        requires pass { spec.IsOf self.now pass.old }
        requires held { HasLast (spec.known pass.old) (T.number_of item) }
        requires came { CameOf T.number_of T.became (spec.known pass.old).first item }
        ensures pass { spec.IsOf self.now pass.new }
        ensures kept { pass.new.kept ≡ pass.old.kept }
        ensures gave { spec.known pass.new ≡ gave (spec.known pass.old) }
    {
        for _ in rt.forever() {
            match self
                .line
                .try_push_as::<ReadyPuts<T>>(&mut pass.ticket, item)
            {
                Ok(()) => return,
                Err(refused) => item = refused,
            }
            thread::yield_now();
        }
    }

    /// Takes what another pass knows into this one.
    pub fn join(&self, pass: &mut Pass<T>, other: ReadyPass<T>)
        requires pass { spec.IsOf self.now pass.old }
        requires other { IsPassOf self.now.line other }
        ensures pass { spec.IsOf self.now pass.new }
        ensures kept { pass.new.kept ≡ pass.old.kept }
        ensures both { spec.known pass.new ≡ both_of (spec.known pass.old) (view other) }
    {
        self.line.absorb::<ReadySplit>(&mut pass.ticket, other);
    }
}
