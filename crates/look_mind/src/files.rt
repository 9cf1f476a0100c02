//! A look at the run of a project, what changes in the minds of its agents along it, the failures that it shows, and the texts of its agents before the
//! marked turns.

ghost use Rattle.std.specs.Prelude.{◌≡◌, ◌≤◌, MatchResult};
ghost use Rattle.mas_report.specs.Limits.{defaults};
ghost use Rattle.mas_top_files.specs.Known.{known};
ghost use Rattle.mas_top_files.specs.Sources.{AreRefused};
ghost use Rattle.mas_top_opening.specs.Opening.{objects_of};
ghost use Rattle.look_mind.specs.Fallen.{IsFallenIn};
ghost use Rattle.look_mind.specs.Looks.{IsLookIn};
ghost use Rattle.look_mind.specs.Own.{IsToldIn};
ghost use Rattle.look_mind.specs.Stacks as stacked;

use crate::changes::{MindChanges, changes_at};
use crate::fallen::{RunFalls, fallen_at};
use crate::look::{Look, look_at};
use crate::stacks::stacks_at;
use asl_term::syntax::Text;
use look_run::before::TextsBefore;
use mas_io::shelf::Shelf;
use mas_report::options::default_options;
use mas_top_opening::reading::read_source;
use mas_top_status::status::Status;
use mas_world::artifact::Artifact;
use std::alloc::Global;

/// The look at an agent of the project of this word, where there are these artifacts and the bytes are the report of its run; or why a
/// file of the project is refused.
#[tactic(auto, using(crate::proofs::Verdicts::looked))]
pub fn look_in<S: Shelf, A: Artifact>(
    alloc: Global,
    artifacts: Vec<A>,
    project: &Text,
    bytes: &Text,
    name: &Text,
    turn: Option<u64>,
    shelf: &mut S,
) -> Result<Look, Status>
    ensures same { S.holds shelf.new ≡ S.holds shelf.old }
    ensures later { S.faults shelf.old ≤ S.faults shelf.new }
    ensures answer { let held = S.holds shelf.old in
        let objects = objects_of A.named A.table A.facts artifacts.items in
        MatchResult result
        (IsLookIn objects held project.now bytes.now name.now turn)
        (AreRefused (known objects) defaults.cycles held project.now (S.faults shelf.old) (S.faults shelf.new)) }
{
    let usual = default_options();
    match read_source(alloc, usual.cycles, project, &artifacts, shelf) {
        Ok(source) => Ok(look_at(alloc, source, artifacts, bytes, name, turn)?),
        Err(status) => {
            drop(artifacts);
            Err(status)
        }
    }
}

/// What changes along the run of the project of this word, where there are these artifacts and the bytes are the report of its run; or why a
/// file of the project is refused.
#[tactic(auto, using(crate::proofs::Owned::told_in))]
pub fn changes_in<S: Shelf, A: Artifact>(
    alloc: Global,
    artifacts: Vec<A>,
    project: &Text,
    bytes: &Text,
    shelf: &mut S,
) -> Result<Option<MindChanges>, Status>
    ensures same { S.holds shelf.new ≡ S.holds shelf.old }
    ensures later { S.faults shelf.old ≤ S.faults shelf.new }
    ensures answer { let held = S.holds shelf.old in
        let objects = objects_of A.named A.table A.facts artifacts.items in
        MatchResult result
        (IsToldIn objects held project.now bytes.now)
        (AreRefused (known objects) defaults.cycles held project.now (S.faults shelf.old) (S.faults shelf.new)) }
{
    let usual = default_options();
    match read_source(alloc, usual.cycles, project, &artifacts, shelf) {
        Ok(source) => Ok(changes_at(alloc, source, artifacts, bytes)?),
        Err(status) => {
            drop(artifacts);
            Err(status)
        }
    }
}

/// The failures along the turns that bytes tell, of the project of this word, where there are these artifacts; or why a file of the project is refused.
#[tactic(auto, using(crate::proofs::Stacked::fallen_in))]
pub fn fallen_in<S: Shelf, A: Artifact>(
    alloc: Global,
    artifacts: Vec<A>,
    project: &Text,
    bytes: &Text,
    shelf: &mut S,
) -> Result<Option<RunFalls>, Status>
    ensures same { S.holds shelf.new ≡ S.holds shelf.old }
    ensures later { S.faults shelf.old ≤ S.faults shelf.new }
    ensures answer { let held = S.holds shelf.old in
        let objects = objects_of A.named A.table A.facts artifacts.items in
        MatchResult result
        (IsFallenIn objects held project.now bytes.now)
        (AreRefused (known objects) defaults.cycles held project.now (S.faults shelf.old) (S.faults shelf.new)) }
{
    let usual = default_options();
    match read_source(alloc, usual.cycles, project, &artifacts, shelf) {
        Ok(source) => Ok(fallen_at(alloc, source, artifacts, bytes)?),
        Err(status) => {
            drop(artifacts);
            Err(status)
        }
    }
}

/// The texts of the agents before the marked turns of the run of the project of this word, where there are these artifacts and the bytes are its report; or
/// why a file of the project is refused.
#[tactic(auto, using(crate::proofs::Stacked::told_in))]
pub fn stacks_in<S: Shelf, A: Artifact>(
    alloc: Global,
    artifacts: Vec<A>,
    project: &Text,
    marks: &[bool],
    bytes: &Text,
    shelf: &mut S,
) -> Result<Option<TextsBefore>, Status>
    ensures same { S.holds shelf.new ≡ S.holds shelf.old }
    ensures later { S.faults shelf.old ≤ S.faults shelf.new }
    ensures answer { let held = S.holds shelf.old in
        let objects = objects_of A.named A.table A.facts artifacts.items in
        MatchResult result
        (stacked.IsToldIn objects held project.now bytes.now marks.now)
        (AreRefused (known objects) defaults.cycles held project.now (S.faults shelf.old) (S.faults shelf.new)) }
{
    let usual = default_options();
    match read_source(alloc, usual.cycles, project, &artifacts, shelf) {
        Ok(source) => Ok(stacks_at(alloc, source, artifacts, marks, bytes)?),
        Err(status) => {
            drop(artifacts);
            Err(status)
        }
    }
}
