//! The names that a world may use.

ghost use Rattle.std.specs.Prelude.{◌≡◌, map, IfOk};
ghost use Rattle.mas_top_files.specs.Known as spec;
ghost use Rattle.mas_world.specs.Worlds.{used};

use asl_term::names::Names;
use asl_term::sequence::Starved;
use env_file::taking::put_name;
use mas_world::artifact::Artifact;
use std::alloc::Global;

/// The names of the artifacts.
pub fn known_names<A: Artifact>(alloc: Global, artifacts: &[A]) -> Result<Names, Starved>
    ensures { IfOk result (λ n. n ≡ spec.known (map (λ a. used (A.named a) (A.table a) (A.facts a)) artifacts.now)) }
{
    let mut names = Names::new(alloc)?;
    for artifact in artifacts {
        put_name(&mut names, artifact.name())?;
    }
    Ok(names)
}
