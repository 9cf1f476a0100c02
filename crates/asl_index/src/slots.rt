//! Slots, each with a belief or empty since its belief went.

ghost use Rattle.std.specs.Prelude.{◌≡◌, ◌<◌, ◌+◌, ◌-◌, ◌^◌, IfOk};
ghost use Rattle.std.specs.Option.{option_copied};
ghost use Rattle.asl_index_tables.specs.Slots.{at_slot, packed};
ghost use Rattle.asl_index.specs.Packing.{AreFiledFirst};
ghost use Rattle.asl_index.specs.Store.{AreFiled, AreListed};

use asl_index_tables::frames::Frames;
use asl_index_tables::keys::Keys;
use asl_index_tables::prints::literal_print;
use asl_term::sequence::{Seq, Starved};
use asl_term::syntax::Literal;
use std::alloc::Global;
use std::mem;

pub type BeliefSlots = Seq<Option<Literal>>;

/// The belief of a slot.
pub fn held(slots: &[Option<Literal>], k: u64) -> Option<&Literal>
    ensures { option_copied result ≡ at_slot slots.now k }
{
    match slots.get(k as usize) {
        Some(slot) => slot.as_ref(),
        None => None,
    }
}

/// Files and lists the belief of a slot, where it has one, as the n-th. Answers how many there are then.
fn file_next(
    alloc: Global,
    slots: &[Option<Literal>],
    k: u64,
    n: u64,
    frames: &mut Frames,
    keys: &mut Keys,
) -> Result<u64, Starved>
    requires few { k < 2 ^ 64 - 1 }
    requires before { AreFiledFirst slots.now k n frames.old keys.old }
    ensures { IfOk result (λ r. AreFiledFirst slots.now (k + 1) r frames.new keys.new) }
{
    let Some(b) = held(slots, k) else {
        return Ok(n);
    };
    frames.put(alloc, b, n)?;
    keys.put(alloc, literal_print(b), n)?;
    Ok(n + 1)
}

/// The beliefs of slots, filed and listed as they stand without the empty ones.
pub fn filed_again(alloc: Global, slots: &[Option<Literal>]) -> Result<(Frames, Keys), Starved>
    ensures filed { IfOk result (λ r. AreFiled (packed slots.now) r.0) }
    ensures listed { IfOk result (λ r. AreListed (packed slots.now) r.1) }
{
    let mut frames = Frames::new(alloc);
    let mut keys = Keys::new(alloc);
    let mut n = 0u64;
    for k in 0..slots.len() {
        n = file_next(alloc, slots, k as u64, n, &mut frames, &mut keys)?;
    }
    Ok((frames, keys))
}

/// Takes the empty slots out.
pub fn pack(alloc: Global, slots: &mut BeliefSlots)
    ensures { slots.new ≡ packed slots.old }
{
    let mut all = mem::replace(slots, Seq::new(alloc)).into_vec();
    all.retain(|slot| slot.is_some());
    drop(mem::replace(slots, Seq::from_vec(all)));
}
