//! The artifacts that worlds take out of those that are handed in.

ghost use Rattle.std.specs.Prelude.{◌≡◌, ◌++◌, position, option_copied, IfOk, OnOk};
ghost use Rattle.std.specs.Option.{option_to_list};
ghost use Rattle.std.specs.Str.{bytes_eq};
ghost use Rattle.mas_top_opening.specs.Opening.{objects_of};
ghost use Rattle.mas_world.specs.inner.Artifacts.{without_named};
ghost use Rattle.mas_world.specs.Worlds.{named, taken, used};
ghost use Rattle.mas_top_sites.specs.Artifacts as spec;

use asl_term::compare::same_text;
use asl_term::names::Names;
use asl_term::sequence::Starved;
use asl_term::syntax::Text;
use mas_world::acts::WorldText;
use mas_world::artifact::{Artifact, HeldArtifact};
use mas_world::world::Artifacts;
use std::alloc::Global;

/// The place of the first of this name.
fn find_name<A: Artifact>(artifacts: &[A], name: &Text) -> Option<usize>
    ensures { result ≡ position (λ a. bytes_eq (A.named a) name.now) artifacts.now }
{
    artifacts.iter().position(|a| same_text(a.name(), name))
}

/// Moves the first of this name, where there is one.
fn take_one<A: Artifact>(
    left: &mut Vec<A>,
    name: &Text,
    used: &mut Artifacts<A>,
) -> Result<(), Starved>
    ensures left { let objects = objects_of A.named A.table A.facts in
        OnOk result (objects left.new.items ≡ without_named (objects left.old.items) name.now) }
    ensures used { let objects = objects_of A.named A.table A.facts in
        OnOk result (used.new ≡ used.old ++ option_to_list (named (objects left.old.items) name.now)) }
{
    match find_name(left.as_slice(), name) {
        None => Ok(()),
        Some(k) => {
            let artifact = HeldArtifact::new(left.remove(k));
            used.push(artifact)?;
            Ok(())
        }
    }
}

/// Moves the first of each of these names, in the order of the names.
fn take_all<A: Artifact>(
    alloc: Global,
    uses: &Names,
    left: &mut Vec<A>,
) -> Result<Artifacts<A>, Starved>
    ensures used { let objects = objects_of A.named A.table A.facts in
        IfOk result (λ r. r ≡ taken uses.now (objects left.old.items)) }
    ensures left { let objects = objects_of A.named A.table A.facts in
        OnOk result (objects left.new.items ≡ spec.without_all uses.now (objects left.old.items)) }
{
    let mut used = Artifacts::new(alloc);
    for k in 0..uses.len() {
        let Some(name) = uses.at(k + 1) else {
            unreachable!()
        };
        take_one(left, name, &mut used)?;
    }
    Ok(used)
}

/// The artifacts that a world uses, which go.
pub fn take_used<A: Artifact>(
    alloc: Global,
    world: Option<&WorldText>,
    left: &mut Vec<A>,
) -> Result<Artifacts<A>, Starved>
    ensures used { let objects = objects_of A.named A.table A.facts in
        IfOk result (λ r. r ≡ taken (spec.uses_of (option_copied world.entry)) (objects left.old.items)) }
    ensures left { let objects = objects_of A.named A.table A.facts in
        OnOk result (objects left.new.items ≡ spec.left_by (option_copied world.entry) (objects left.old.items)) }
{
    match world {
        None => Ok(Artifacts::new(alloc)),
        Some(text) => take_all(alloc, &text.uses, left),
    }
}
