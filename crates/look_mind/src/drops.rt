//! What is told of the failures of the run of a project.

ghost use Rattle.std.specs.Prelude.{◌≡◌, ◌≤◌, IfOk, MatchResult, Some, length};
ghost use Rattle.mas_top_opening.specs.Opening.{objects_of};
ghost use Rattle.look_mind.specs.Drops.{AreRefusedIn, IsDroppedIn};
ghost use Rattle.look_mind.specs.Fallen.{IsFallenIn};
ghost use Rattle.look_mind.specs.Marks.{AreMarked, AreOwn};

use crate::fallen::RunFalls;
use crate::files::{fallen_in, stacks_in};
use crate::marks::{marks_of, turns_by_agent};
use crate::telling::entries;
use asl_term::sequence::{Seq, Starved};
use asl_term::syntax::{Numbers, Text};
use look_answer::answer::Output;
use mas_io::shelf::Shelf;
use mas_top_status::status::Status;
use mas_world::artifact::Artifact;
use std::alloc::Global;

/// The turns of each agent of a run, and of all turns whether the cycle that began with it has a failure.
struct Marked {
    own: Seq<Numbers>,
    marks: Vec<bool>,
}

/// By hand, so that who lets one go proves nothing of its parts.
impl Drop for Marked {
    fn drop(self) {
        let Marked { own: _, marks: _ } = self;
    }
}

fn marked_turns(alloc: Global, fallen: &RunFalls) -> Result<Marked, Starved>
    ensures own { IfOk result (λ m. AreOwn fallen.now.turns (length fallen.now.falls) m.own) }
    ensures marks { IfOk result (λ m. AreMarked m.own fallen.now.falls (length fallen.now.turns) m.marks.items) }
{
    let turns = fallen.turns.as_slice();
    let own = turns_by_agent(alloc, turns, fallen.falls.len())?;
    let marks = marks_of(alloc, turns, &own, fallen.falls.as_slice())?;
    Ok(Marked { own, marks })
}

/// The entries of these failures of the run of the project of this word, where the bytes are its report; none where they are not.
#[tactic(auto, using(crate::proofs::Told::told, crate::proofs::Told::refused, crate::proofs::Told::starved))]
fn entries_in<S: Shelf, A: Artifact>(
    alloc: Global,
    artifacts: Vec<A>,
    project: &Text,
    bytes: &Text,
    fallen: &RunFalls,
    unhandled: bool,
    shelf: &mut S,
) -> Result<Option<Output>, Status>
    requires { IsFallenIn (objects_of A.named A.table A.facts artifacts.items) (S.holds shelf.old) project.now bytes.now (Some fallen.now) }
    ensures same { S.holds shelf.new ≡ S.holds shelf.old }
    ensures later { S.faults shelf.old ≤ S.faults shelf.new }
    ensures answer { let held = S.holds shelf.old in
        let objects = objects_of A.named A.table A.facts artifacts.items in
        MatchResult result
        (IsDroppedIn objects held project.now bytes.now unhandled)
        (AreRefusedIn objects held project.now (S.faults shelf.old) (S.faults shelf.new)) }
{
    let Ok(marked) = marked_turns(alloc, fallen) else {
        drop(artifacts);
        return Err(Status::Memory);
    };
    let marks = marked.marks.as_slice();
    match stacks_in(alloc, artifacts, project, marks, bytes, shelf) {
        Err(status) => Err(status),
        Ok(None) => Ok(None),
        Ok(Some(texts)) => {
            let output = entries(alloc, unhandled, fallen, &texts, &marked.own)?;
            Ok(Some(output))
        }
    }
}

/// The entries of the run of the project of this word, where the bytes are its report; none where they are not. The artifacts are given twice, since the
/// run is made twice.
#[tactic(auto, using(crate::proofs::Told::fallen_so, crate::proofs::Told::later, crate::proofs::Told::refused))]
pub fn drops<S: Shelf, A: Artifact>(
    alloc: Global,
    artifacts: Vec<A>,
    again: Vec<A>,
    project: &Text,
    bytes: &Text,
    unhandled: bool,
    shelf: &mut S,
) -> Result<Option<Output>, Status>
    requires { objects_of A.named A.table A.facts again.items ≡ objects_of A.named A.table A.facts artifacts.items }
    ensures same { S.holds shelf.new ≡ S.holds shelf.old }
    ensures later { S.faults shelf.old ≤ S.faults shelf.new }
    ensures answer { let held = S.holds shelf.old in
        let objects = objects_of A.named A.table A.facts artifacts.items in
        MatchResult result
        (IsDroppedIn objects held project.now bytes.now unhandled)
        (AreRefusedIn objects held project.now (S.faults shelf.old) (S.faults shelf.new)) }
{
    match fallen_in(alloc, artifacts, project, bytes, shelf) {
        Err(status) => {
            drop(again);
            Err(status)
        }
        Ok(None) => {
            drop(again);
            Ok(None)
        }
        Ok(Some(fallen)) => {
            let told = entries_in(alloc, again, project, bytes, &fallen, unhandled, shelf);
            drop(fallen);
            told
        }
    }
}
