//! What is done with passes and items once all workers have ended.
ghost use Rattle.std.specs.Prelude.{ℕ, ◌≡◌, replicate, None, IfOk, OnOk};
ghost use Rattle.mas_board_lists.specs.Lists.{Each, numbers_from, times};
ghost use Rattle.mas_pool_ready.specs.Rule.{numbers};
ghost use Rattle.mas_pool_ready.specs.Orders.{AreShelved, AreInOrder};
ghost use Rattle.mas_pool_ready.specs.Passes as spec;

use crate::queue::{Pass, Ready};
use crate::rule::Numbered;
use asl_term::sequence::{Seq, Starved};
use std::alloc::Global;

impl<T: Numbered + Drop> Ready<T> {
    /// Takes all these passes into one, and puts what they kept behind the items.
    pub fn gather(
        &self,
        pass: &mut Pass<T>,
        others: Seq<Pass<T>>,
        items: &mut Seq<T>,
    ) -> Result<(), Starved>
        requires pass { spec.IsOf self.now pass.old }
        requires others { Each (spec.IsOf self.now) others }
        ensures { OnOk result (spec.Gathered self.now others pass.old pass.new items.old items.new) }
    {
        for other in others.into_vec() {
            let Pass { ticket, kept } = other;
            self.join(pass, ticket);
            items.append_all(kept.into_seq())?;
        }
        Ok(())
    }
}

/// So many empty places.
fn no_items<T: Drop>(alloc: Global, count: u64) -> Result<Seq<Option<T>>, Starved>
    ensures { IfOk result (λ shelf. shelf ≡ replicate count None) }
{
    let mut shelf = Seq::new(alloc);
    for i in 0..count {
        prove!(i < count);
        shelf.push(None)?;
    }
    Ok(shelf)
}

/// Each item at the place of its number.
fn shelved<T: Numbered + Drop>(
    alloc: Global,
    count: u64,
    items: Seq<T>,
) -> Result<Seq<Option<T>>, Starved>
    requires { (a : ℕ) → times a (numbers T.number_of items) ≡ times a (numbers_from 1 count) }
    ensures { IfOk result (AreShelved T.number_of count items) }
{
    let mut shelf = no_items(alloc, count)?;
    for item in items.into_vec() {
        let place = item.number() as u64 - 1;
        *shelf.at_mut(place) = Some(item);
    }
    Ok(shelf)
}

/// The items in the order of their numbers, each of which is there once.
pub fn in_order<T: Numbered + Drop>(
    alloc: Global,
    count: u64,
    items: Seq<T>,
) -> Result<Seq<T>, Starved>
    requires { (a : ℕ) → times a (numbers T.number_of items) ≡ times a (numbers_from 1 count) }
    ensures { IfOk result (AreInOrder T.number_of count items) }
{
    let shelf = shelved(alloc, count, items)?;
    let mut row = Seq::new(alloc);
    for place in shelf.into_vec() {
        match place {
            None => {}
            Some(item) => row.push(item)?,
        }
    }
    Ok(row)
}
