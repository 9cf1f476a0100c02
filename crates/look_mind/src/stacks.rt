//! The texts of the agents of a source before the marked turns of a run, of which bytes are the report.

ghost use Rattle.std.specs.Prelude.{◌≡◌, ◌≤◌, IfOk, MatchOption, length, take};
ghost use Rattle.asl_cycle.specs.Agent.{agent_kind};
ghost use Rattle.mas_report.specs.Limits.{IsWithin};
ghost use Rattle.mas_report.specs.Report.{IsAnyReport};
ghost use Rattle.mas_report_schedule.specs.Schedule.{IsVersion, printed};
ghost use Rattle.mas_top_opening.specs.Fits.{CanRun};
ghost use Rattle.mas_top_opening.specs.Opening.{objects_of, opening, setup};
ghost use Rattle.look_run.specs.Before.{AreBefore};
ghost use Rattle.look_mind.specs.Stacks as spec;
ghost use Rattle.look_mind.specs.Texts.{agent_texts};

use crate::agent::AgentTexts;
use asl_term::sequence::Starved;
use asl_term::syntax::Text;
use look_run::before::{TextsBefore, texts_along};
use mas_report::reading::Told;
use mas_top_check::checking::told_in;
use mas_top_files::sources::Source;
use mas_top_opening::opening::{Opened, open_source};
use mas_world::artifact::Artifact;
use std::alloc::Global;

/// The texts before the marked ones of the first `t` turns of the run of a source that bytes tell; none where they are not its report.
fn texts_of<A: Artifact>(
    alloc: Global,
    told: &Told,
    source: Source,
    artifacts: Vec<A>,
    marks: &[bool],
    bytes: &Text,
    t: u64,
) -> Result<Option<TextsBefore>, Starved>
    requires known { IsVersion told.now.version }
    requires within { IsWithin told.now.options }
    requires can { CanRun (objects_of A.named A.table A.facts artifacts.items) source }
    requires last { printed bytes.now ≡ told.now.turns }
    requires short { t ≤ length told.now.turns }
    ensures { let objects = objects_of A.named A.table A.facts artifacts.items in
        let told = told.now in
        let p = opening (setup told.options objects) source in
        IfOk result (λ r. MatchOption r (IsAnyReport agent_kind told.version told.options p bytes.now → ⊥)
        (λ cs. IsAnyReport agent_kind told.version told.options p bytes.now × AreBefore agent_kind agent_texts p (take t told.turns) marks.now cs)) }
{
    match open_source(alloc, &told.options, source, artifacts) {
        Ok(opened) => {
            let Opened { board, minds } = opened;
            let writer = AgentTexts;
            texts_along(
                alloc,
                &writer,
                told.version,
                &told.options,
                board,
                minds,
                &told.turns,
                marks,
                bytes,
                t,
            )
        }
        Err(starved) => Err(starved),
    }
}

/// The texts before the marked turns of the run of a source whose report the bytes are; none where they are not.
#[tactic(auto, using(mas_top_check::proofs::Verdicts::told, mas_top_check::proofs::Verdicts::no_own))]
pub fn stacks_at<A: Artifact>(
    alloc: Global,
    source: Source,
    artifacts: Vec<A>,
    marks: &[bool],
    bytes: &Text,
) -> Result<Option<TextsBefore>, Starved>
    requires { CanRun (objects_of A.named A.table A.facts artifacts.items) source }
    ensures { let objects = objects_of A.named A.table A.facts artifacts.items in
        IfOk result (spec.IsTold objects source bytes.now marks.now) }
{
    match told_in(alloc, bytes, &source) {
        Err(starved) => {
            drop(source);
            drop(artifacts);
            Err(starved)
        }
        Ok(None) => {
            drop(source);
            drop(artifacts);
            Ok(None)
        }
        Ok(Some(told)) => {
            let t = told.turns.len();
            texts_of(alloc, &told, source, artifacts, marks, bytes, t)
        }
    }
}
