//! Whether each goal of a project has a plan that covers it.

ghost use Rattle.mas_io.specs.Told.{told_of, IsKept};
ghost use Rattle.mas_top_lint.specs.Linting.{LintCaused};
ghost use Rattle.mas_top_files.specs.Known.{known};
ghost use Rattle.mas_top_opening.specs.Opening.{objects_of};

use mas_io::shelf::Shelf;
use mas_io::sink::Sink;
use mas_top_files::known::known_names;
use mas_top_lint::linting::print_verdict;
use mas_top_status::status::Status;
use mas_world::artifact::Artifact;
use std::alloc::Global;

/// Writes `yes` where each goal of the project is covered, and else the first that is not.
pub fn print_lint<S: Shelf, K: Sink, A: Artifact>(
    alloc: Global,
    project: &[u8],
    shelf: &mut S,
    sink: &mut K,
    artifacts: Vec<A>,
) -> Status
    ensures kept { let told = told_of S.holds S.faults K.written K.faults in
        IsKept (told shelf.old sink.old) (told shelf.new sink.new) }
    ensures caused { let told = told_of S.holds S.faults K.written K.faults in
        let objects = objects_of A.named A.table A.facts artifacts.items in
        LintCaused (known objects) project.now (told shelf.old sink.old) (told shelf.new sink.new) result }
{
    let names = known_names(alloc, artifacts.as_slice());
    drop(artifacts);
    match names {
        Ok(names) => print_verdict(alloc, &names, project, shelf, sink),
        Err(_) => Status::Memory,
    }
}
