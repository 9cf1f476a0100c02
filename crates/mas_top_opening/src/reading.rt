//! What the files describe that a word asks for.

ghost use Rattle.std.specs.Prelude.{◌≡◌, ◌≤◌, MatchResult};
ghost use Rattle.mas_mind.specs.Limits.{most_cycles};
ghost use Rattle.mas_top_files.specs.Known.{known};
ghost use Rattle.mas_top_files.specs.Sources.{AreRefused, HasSource};
ghost use Rattle.mas_top_opening.specs.Opening.{objects_of};

use asl_term::syntax::Text;
use mas_io::shelf::Shelf;
use mas_top_files::known::known_names;
use mas_top_files::sources::{Source, sources};
use mas_top_status::status::Status;
use mas_world::artifact::Artifact;
use std::alloc::Global;

/// What the files describe that a word asks for, where there are these artifacts, or why one of them is refused.
pub fn read_source<S: Shelf, A: Artifact>(
    alloc: Global,
    cycles: u64,
    word: &Text,
    artifacts: &Vec<A>,
    shelf: &mut S,
) -> Result<Source, Status>
    requires { cycles ≤ most_cycles }
    ensures same { S.holds shelf.new ≡ S.holds shelf.old }
    ensures later { S.faults shelf.old ≤ S.faults shelf.new }
    ensures answer { let held = S.holds shelf.old in
        let names = known (objects_of A.named A.table A.facts artifacts.now.items) in
        MatchResult result
        (HasSource names cycles held word.now)
        (AreRefused names cycles held word.now (S.faults shelf.old) (S.faults shelf.new)) }
{
    let known = known_names(alloc, artifacts.as_slice())?;
    sources(alloc, &known, cycles, word, shelf)
}
