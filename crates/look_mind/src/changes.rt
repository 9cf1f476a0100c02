//! What changes in the minds of agents along a run of a source, of which bytes are the report.

ghost use Rattle.std.specs.Prelude.{◌≡◌, ◌≤◌, IfOk, MatchOption, length, take};
ghost use Rattle.asl_cycle.specs.Agent.{agent_kind};
ghost use Rattle.mas_report.specs.Limits.{IsWithin};
ghost use Rattle.mas_report.specs.Report.{IsAnyReport};
ghost use Rattle.mas_report_schedule.specs.Schedule.{IsVersion, printed};
ghost use Rattle.mas_top_check.specs.Checking.{TellsRun};
ghost use Rattle.mas_top_opening.specs.Fits.{CanRun};
ghost use Rattle.mas_top_opening.specs.Opening.{objects_of, opening, setup};
ghost use Rattle.look_mind.specs.Along.{AreChanges};
ghost use Rattle.look_mind.specs.Own as spec;
ghost use Rattle.look_mind.specs.Parts.{agent_texts};

use crate::agent::AgentParts;
use crate::along::{Change, changes_along};
use asl_term::sequence::{Seq, Starved};
use asl_term::syntax::{Numbers, Text};
use mas_report::reading::Told;
use mas_top_check::checking::told_in;
use mas_top_files::sources::Source;
use mas_top_opening::opening::{Opened, open_source};
use mas_world::artifact::Artifact;
use std::alloc::Global;

/// Of so many turns at most it is told.
pub const MOST_TURNS: u64 = 2000;

/// The agents of all turns of a run, and of the first turns what they change in the agents' minds.
pub struct MindChanges {
    pub turns: Numbers,
    pub changes: Seq<Change>,
}

/// By hand, so that who lets one go proves nothing of its parts.
impl Drop for MindChanges {
    fn drop(self) {
        let MindChanges {
            turns: _,
            changes: _,
        } = self;
    }
}

/// What the first `t` turns change of the run of a source that bytes tell; none where they are not its report.
fn changes_of<A: Artifact>(
    alloc: Global,
    told: &Told,
    source: Source,
    artifacts: Vec<A>,
    bytes: &Text,
    t: u64,
) -> Result<Option<Seq<Change>>, Starved>
    requires known { IsVersion told.now.version }
    requires within { IsWithin told.now.options }
    requires can { CanRun (objects_of A.named A.table A.facts artifacts.items) source }
    requires last { printed bytes.now ≡ told.now.turns }
    requires short { t ≤ length told.now.turns }
    ensures { let objects = objects_of A.named A.table A.facts artifacts.items in
        let told = told.now in
        let p = opening (setup told.options objects) source in
        IfOk result (λ r. MatchOption r (IsAnyReport agent_kind told.version told.options p bytes.now → ⊥)
        (λ cs. IsAnyReport agent_kind told.version told.options p bytes.now × AreChanges agent_kind agent_texts p (take t told.turns) cs)) }
{
    match open_source(alloc, &told.options, source, artifacts) {
        Ok(opened) => {
            let Opened { board, minds } = opened;
            let writer = AgentParts;
            changes_along(
                alloc,
                &writer,
                told.version,
                &told.options,
                board,
                minds,
                &told.turns,
                bytes,
                t,
            )
        }
        Err(starved) => Err(starved),
    }
}

/// What changes along the run of the source that the bytes tell.
#[tactic(auto, using(mas_top_check::proofs::Verdicts::told))]
fn told_of<A: Artifact>(
    alloc: Global,
    told: Told,
    source: Source,
    artifacts: Vec<A>,
    bytes: &Text,
) -> Result<Option<MindChanges>, Starved>
    requires can { CanRun (objects_of A.named A.table A.facts artifacts.items) source }
    requires tells { TellsRun source bytes.now told }
    ensures { let objects = objects_of A.named A.table A.facts artifacts.items in
        IfOk result (spec.IsTold objects source bytes.now) }
{
    let t = MOST_TURNS.min(told.turns.len());
    let found = changes_of(alloc, &told, source, artifacts, bytes, t)?;
    match found {
        Some(changes) => Ok(Some(MindChanges {
            turns: told.turns,
            changes,
        })),
        None => Ok(None),
    }
}

/// What changes along the run of a source whose report the bytes are; none where they are not.
#[tactic(auto, using(mas_top_check::proofs::Verdicts::no_own))]
pub fn changes_at<A: Artifact>(
    alloc: Global,
    source: Source,
    artifacts: Vec<A>,
    bytes: &Text,
) -> Result<Option<MindChanges>, Starved>
    requires { CanRun (objects_of A.named A.table A.facts artifacts.items) source }
    ensures { let objects = objects_of A.named A.table A.facts artifacts.items in
        IfOk result (spec.IsTold objects source bytes.now) }
{
    match told_in(alloc, bytes, &source) {
        Err(starved) => {
            drop(source);
            drop(artifacts);
            Err(starved)
        }
        Ok(None) => {
            drop(source);
            drop(artifacts);
            Ok(None)
        }
        Ok(Some(told)) => told_of(alloc, told, source, artifacts, bytes),
    }
}
