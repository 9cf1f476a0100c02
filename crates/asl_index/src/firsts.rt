//! The numbers of first arguments, noted by slot, by which beliefs that can't match a goal are passed over.

ghost use Rattle.std.specs.Prelude.{◌≡◌, ◌+◌, length, map, slice_get, take, Some, IfOk, OnOk};
ghost use Rattle.asl_index_tables.specs.Firsts as spec;
ghost use Rattle.asl_index_tables.specs.Slots.{kept, packed};
ghost use Rattle.asl_index.specs.Store.{AreFirsts};

use crate::slots::held;
use asl_index_tables::firsts::first_print;
use asl_term::sequence::{Seq, Starved};
use asl_term::syntax::{Literal, Numbers};
use std::alloc::Global;

/// Notes the number of a belief for the slot behind the last one. Where memory is wanting none is noted.
pub fn note_behind(
    firsts: &mut Numbers,
    slots: &[Option<Literal>],
    b: &Literal,
) -> Result<(), Starved>
    requires { AreFirsts slots.now firsts.old }
    ensures still { AreFirsts slots.now firsts.new }
    ensures behind { OnOk result (slice_get firsts.new (length slots.now) ≡ Some (spec.first_print b.now)) }
{
    firsts.truncate(slots.len() as u64);
    firsts.push(first_print(b))?;
    Ok(())
}

/// Puts the number of the belief of a slot, where it has one, behind those of the slots before.
fn note_next(firsts: &mut Numbers, slots: &[Option<Literal>], k: u64) -> Result<(), Starved>
    requires { firsts.old ≡ map spec.first_print (kept (take k slots.now)) }
    ensures { OnOk result (firsts.new ≡ map spec.first_print (kept (take (k + 1) slots.now))) }
{
    match held(slots, k) {
        Some(b) => {
            firsts.push(first_print(b))?;
            Ok(())
        }
        None => Ok(()),
    }
}

/// The numbers of the beliefs of slots, as they stand without the empty ones.
pub fn noted_again(alloc: Global, slots: &[Option<Literal>]) -> Result<Numbers, Starved>
    ensures { IfOk result (λ r. AreFirsts (packed slots.now) r) }
{
    let mut firsts = Seq::new(alloc);
    for k in 0..slots.len() {
        note_next(&mut firsts, slots, k as u64)?;
    }
    Ok(firsts)
}
