//! Artifacts, as often as they are asked for.

ghost use Rattle.std.specs.Prelude.{◌≡◌, List, IfOk};
ghost use Rattle.mas_world.specs.Worlds.{Used};
ghost use Rattle.mas_top_opening.specs.Opening.{objects_of};

use asl_term::sequence::Starved;
use mas_world::artifact::Artifact;
use std::alloc::Global;

/// Makes the artifacts that a world may use, in their first states, as often as they are asked for.
pub trait Kinds<A: Artifact>: Drop {
    ghost objects: { Self → List Used };

    /// Artifacts in their first states, the same ones each time.
    fn make(&self, alloc: Global) -> Result<Vec<A>, Starved>
        ensures { IfOk result (λ v. objects_of A.named A.table A.facts v.items ≡ objects self.now) };
}
