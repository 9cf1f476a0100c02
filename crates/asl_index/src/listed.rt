//! The beliefs of slots as a list.

ghost use Rattle.std.specs.Prelude.{◌≡◌, ◌++◌, option_to_list, IfOk, OnOk};
ghost use Rattle.asl_index_tables.specs.Slots.{at_slot, kept};

use crate::store::Store;
use asl_term::copying::copy_literal;
use asl_term::sequence::{Seq, Starved};
use asl_term::syntax::Literals;
use std::alloc::Global;

/// Puts an equal belief last, where the slot has one.
fn put_slot(alloc: Global, store: &Store, k: u64, all: &mut Literals) -> Result<(), Starved>
    ensures { OnOk result (all.new ≡ all.old ++ option_to_list (at_slot store.now k)) }
{
    match store.at(k) {
        None => Ok(()),
        Some(b) => {
            let copy = copy_literal(alloc, b)?;
            all.push(copy)
        }
    }
}

/// Equal beliefs, in order.
#[tactic(auto, using(crate::proofs::Kept::kept_end))]
pub fn copy_kept(alloc: Global, store: &Store) -> Result<Literals, Starved>
    ensures { IfOk result (λ r. r ≡ kept store.now) }
{
    let mut all = Seq::new(alloc);
    'slots: for k in 0..store.len() {
        put_slot(alloc, store, k, &mut all)?;
    }
    Ok(all)
}
