//! A world at the opening.

ghost use Rattle.std.specs.Prelude.{◌≡◌, ◌++◌, map, IfOk, OnOk};
ghost use Rattle.std.specs.Option.{option_to_list};
ghost use Rattle.mas_world.specs.Facts.{AreFacts};
ghost use Rattle.mas_world.specs.inner.Artifacts.{without_named};
ghost use Rattle.mas_world.specs.Worlds as spec;

use crate::acts::WorldText;
use crate::artifact::{Artifact, HeldArtifact};
use crate::segment::Segment;
use crate::world::{Artifacts, World};
use asl_term::names::Names;
use asl_term::sequence::{Seq, Starved};
use asl_term::syntax::Text;
use std::alloc::Global;

/// Each artifact as a segment with a name, in their order.
fn keep_all<A: Artifact>(alloc: Global, artifacts: Vec<A>) -> Result<Artifacts<A>, Starved>
    ensures { IfOk result (λ r. r ≡ map (λ a. spec.used (A.named a) (A.table a) (A.facts a)) artifacts.items) }
{
    let mut kept = Artifacts::new(alloc);
    for artifact in artifacts {
        kept.push(HeldArtifact::new(artifact))?;
    }
    Ok(kept)
}

/// Moves the first of this name, where there is one.
fn take_one<A: Artifact>(
    left: &mut Artifacts<A>,
    name: &Text,
    used: &mut Artifacts<A>,
) -> Result<(), Starved>
    ensures left { OnOk result (left.new ≡ without_named left.old name.now) }
    ensures used { OnOk result (used.new ≡ used.old ++ option_to_list (spec.named left.old name.now)) }
{
    match left.take_first(name) {
        None => Ok(()),
        Some(a) => used.push(a),
    }
}

/// Those of these names, in the order of the names.
fn take_used<A: Artifact>(
    alloc: Global,
    uses: &Names,
    artifacts: Artifacts<A>,
) -> Result<Artifacts<A>, Starved>
    ensures { IfOk result (λ r. r ≡ spec.taken uses.now artifacts) }
{
    let mut left = artifacts;
    let mut used = Artifacts::new(alloc);
    for k in 0..uses.len() {
        let Some(name) = uses.at(k + 1) else {
            unreachable!()
        };
        take_one(&mut left, name, &mut used)?;
    }
    Ok(used)
}

/// The world of a text. It keeps the artifacts that the text uses, in the order in which it names them, and of two
/// with one name the first. The others are dropped.
pub fn open_world<A: Artifact>(
    alloc: Global,
    text: WorldText,
    artifacts: Vec<A>,
) -> Result<World<A>, Starved>
    requires facts { AreFacts text.facts }
    requires known { spec.AreNamed text.uses (map (λ a. spec.used (A.named a) (A.table a) (A.facts a)) artifacts.items) }
    ensures { IfOk result (λ w. w ≡ spec.opened text (map (λ a. spec.used (A.named a) (A.table a) (A.facts a)) artifacts.items)) }
{
    let WorldText {
        facts,
        hidden,
        uses,
        acts,
    } = text;
    let used = match keep_all(alloc, artifacts) {
        Ok(all) => take_used(alloc, &uses, all),
        Err(starved) => Err(starved),
    };
    drop(uses);
    match used {
        Ok(used) => Ok(World::of(Segment::new(acts, facts), hidden, used)),
        Err(starved) => {
            drop(acts);
            drop(facts);
            drop(hidden);
            Err(starved)
        }
    }
}
