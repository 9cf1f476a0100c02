//! From the word of a project to the start of its runs.

ghost use Rattle.std.specs.Prelude.{◌≡◌, ◌≤◌, false, MatchResult};
ghost use Rattle.asl_cycle.specs.Trace.{shows_rules};
ghost use Rattle.mas_report.specs.Limits.{IsWithin};
ghost use Rattle.mas_top_files.specs.Known.{known};
ghost use Rattle.mas_top_files.specs.Sources.{AreRefused};
ghost use Rattle.mas_explore_top.specs.Starting.{IsStartIn};

use asl_term::sequence::Starved;
use asl_term::syntax::Text;
use mas_explore_files::kinds::Kinds;
use mas_explore_files::origin::SourceOrigin;
use mas_io::shelf::Shelf;
use mas_report::options::Options;
use mas_top_opening::reading::read_source;
use mas_top_status::status::Status;
use mas_world::artifact::Artifact;
use std::alloc::Global;

/// The start of the runs of the project of this word, where the world may use artifacts of these kinds; or why a file of it is refused. The options are
/// those of all runs, but for the limits of cycles and lead.
#[tactic(auto, using(mas_top_opening::proofs::Able::can_run, crate::proofs::Started::is_start_in))]
pub fn start_in<S: Shelf, A: Artifact, K: Kinds<A>>(
    alloc: Global,
    o: Options,
    project: &Text,
    kinds: K,
    shelf: &mut S,
) -> Result<SourceOrigin<A, K>, Status>
    requires within { IsWithin o }
    requires plain { shows_rules o.level ≡ false }
    ensures same { S.holds shelf.new ≡ S.holds shelf.old }
    ensures later { S.faults shelf.old ≤ S.faults shelf.new }
    ensures answer { let held = S.holds shelf.old in
        let objects = K.objects kinds in
        MatchResult result
        (λ r. IsStartIn objects o held project.now r)
        (AreRefused (known objects) o.cycles held project.now (S.faults shelf.old) (S.faults shelf.new)) }
{
    let artifacts = match kinds.make(alloc) {
        Ok(artifacts) => artifacts,
        Err(Starved) => {
            drop(kinds);
            return Err(Status::Memory);
        }
    };
    let read = read_source(alloc, o.cycles, project, &artifacts, shelf);
    drop(artifacts);
    match read {
        Ok(source) => match SourceOrigin::of(alloc, o, source, kinds) {
            Ok(origin) => Ok(origin),
            Err(Starved) => Err(Status::Memory),
        },
        Err(status) => {
            drop(kinds);
            Err(status)
        }
    }
}
