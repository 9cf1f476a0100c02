//! Boxes by their numbers.

ghost use Rattle.std.specs.Prelude.{◌≡◌, drop, slice_get, Some, IfOk};
ghost use Rattle.mas_explore_space.specs.Held.{start_of, Fits, HasGrown};
ghost use Rattle.mas_explore_space.specs.Rows as spec;

use crate::held::Held;
use asl_term::sequence::{Seq, Starved};
use mas_explore_minds::fresh::Fresh;
use mas_explore_minds::minds::{Minds, number_box};
use mas_explore_worlds::fresh::FreshWorld;
use mas_mind::copying::{copy_message, copy_messages};
use mas_mind::mind::{Message, Messages};
use mas_mind::thinking::Mind;
use mas_world::artifact::Artifact;
use std::alloc::Global;

/// The number of a box with these messages.
#[tactic(auto, using(crate::proofs::Helds::grown_minds))]
pub fn keep_box<M: Mind, A: Artifact, F: Fresh<M> + FreshWorld<A>>(
    alloc: Global,
    fresh: &F,
    held: &mut Held,
    messages: Messages,
) -> Result<u64, Starved>
    requires { Fits M.kind (start_of (F.agents fresh.now) (F.start fresh.now) (F.first fresh.now)) held.old }
    ensures grown { IfOk result (λ n. HasGrown M.kind (start_of (F.agents fresh.now) (F.start fresh.now) (F.first fresh.now)) held.old held.new) }
    ensures at { IfOk result (λ n. slice_get held.new.minds.boxes n ≡ Some messages) }
{
    let _names = fresh.names();
    let n = number_box::<M, F>(alloc, fresh, &mut held.minds, messages)?;
    Ok(n)
}

/// The messages of a box.
fn box_of(alloc: Global, minds: &Minds, mail: u64) -> Result<Messages, Starved>
    requires { spec.HasBox minds.now.boxes mail }
    ensures { IfOk result (λ r. slice_get minds.now.boxes mail ≡ Some r) }
{
    let Some(messages) = minds.boxes.at(mail) else {
        unreachable!()
    };
    copy_messages(alloc, messages.as_slice())
}

/// The oldest message alone.
fn front_of(alloc: Global, messages: &[Message]) -> Result<Messages, Starved>
    ensures { IfOk result (λ r. slice_get r 0 ≡ slice_get messages.now 0) }
{
    let mut front = Seq::new(alloc);
    if let Some(m) = messages.first() {
        front.push(copy_message(alloc, m)?)?;
    }
    Ok(front)
}

/// All but the oldest message.
fn rest_of(alloc: Global, messages: &[Message]) -> Result<Messages, Starved>
    ensures { IfOk result (λ r. r ≡ drop 1 messages.now) }
{
    match messages.split_first() {
        None => Ok(Seq::new(alloc)),
        Some((_, rest)) => copy_messages(alloc, rest),
    }
}

/// The number of a box with the oldest message of this one.
pub fn keep_front<M: Mind, A: Artifact, F: Fresh<M> + FreshWorld<A>>(
    alloc: Global,
    fresh: &F,
    held: &mut Held,
    mail: u64,
) -> Result<u64, Starved>
    requires fits { Fits M.kind (start_of (F.agents fresh.now) (F.start fresh.now) (F.first fresh.now)) held.old }
    requires there { spec.HasBox held.old.minds.boxes mail }
    ensures grown { IfOk result (λ n. HasGrown M.kind (start_of (F.agents fresh.now) (F.start fresh.now) (F.first fresh.now)) held.old held.new) }
    ensures front { IfOk result (spec.IsFront held.new.minds.boxes mail) }
{
    let messages = box_of(alloc, &held.minds, mail)?;
    let front = front_of(alloc, messages.as_slice())?;
    let n = keep_box::<M, A, F>(alloc, fresh, held, front)?;
    Ok(n)
}

/// The number of a box with the other messages of this one.
pub fn keep_rest<M: Mind, A: Artifact, F: Fresh<M> + FreshWorld<A>>(
    alloc: Global,
    fresh: &F,
    held: &mut Held,
    mail: u64,
) -> Result<u64, Starved>
    requires fits { Fits M.kind (start_of (F.agents fresh.now) (F.start fresh.now) (F.first fresh.now)) held.old }
    requires there { spec.HasBox held.old.minds.boxes mail }
    ensures grown { IfOk result (λ n. HasGrown M.kind (start_of (F.agents fresh.now) (F.start fresh.now) (F.first fresh.now)) held.old held.new) }
    ensures rest { IfOk result (spec.IsRest held.new.minds.boxes mail) }
{
    let messages = box_of(alloc, &held.minds, mail)?;
    let rest = rest_of(alloc, messages.as_slice())?;
    let n = keep_box::<M, A, F>(alloc, fresh, held, rest)?;
    Ok(n)
}

/// The number of this box with a message put last.
pub fn keep_with<M: Mind, A: Artifact, F: Fresh<M> + FreshWorld<A>>(
    alloc: Global,
    fresh: &F,
    held: &mut Held,
    mail: u64,
    m: Message,
) -> Result<u64, Starved>
    requires fits { Fits M.kind (start_of (F.agents fresh.now) (F.start fresh.now) (F.first fresh.now)) held.old }
    requires there { spec.HasBox held.old.minds.boxes mail }
    ensures grown { IfOk result (λ n. HasGrown M.kind (start_of (F.agents fresh.now) (F.start fresh.now) (F.first fresh.now)) held.old held.new) }
    ensures more { IfOk result (spec.IsWith held.new.minds.boxes mail m) }
{
    let mut messages = box_of(alloc, &held.minds, mail)?;
    messages.push(m)?;
    let n = keep_box::<M, A, F>(alloc, fresh, held, messages)?;
    Ok(n)
}
