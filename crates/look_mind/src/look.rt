//! A look at the run of a source, of which bytes are the report.

ghost use Rattle.std.specs.Prelude.{◌≡◌, ◌≤◌, Some, IfOk, MatchOption, length};
ghost use Rattle.asl_cycle.specs.Agent.{agent_kind};
ghost use Rattle.asl_term.specs.Names.{place_of};
ghost use Rattle.mas_report.specs.Limits.{IsWithin};
ghost use Rattle.mas_report.specs.Reading.{Shows};
ghost use Rattle.mas_report.specs.Report.{IsAnyReport};
ghost use Rattle.mas_report_schedule.specs.Schedule.{IsVersion, printed};
ghost use Rattle.mas_top_opening.specs.Fits.{CanRun};
ghost use Rattle.mas_top_opening.specs.Opening.{objects_of, opening, setup};
ghost use Rattle.look_run.specs.Looks.{IsView};
ghost use Rattle.look_mind.specs.Looks as spec;
ghost use Rattle.look_mind.specs.Parts.{mind_parts};

use crate::agent::AgentWriter;
use asl_term::names::find;
use asl_term::sequence::Starved;
use asl_term::syntax::Text;
use look_run::along::look_along;
use mas_report::reading::{Told, read_report};
use mas_top_check::checking::is_allowed;
use mas_top_files::sources::Source;
use mas_top_opening::opening::{Opened, open_source};
use mas_world::artifact::Artifact;
use std::alloc::Global;

/// What is seen: the text of the agent; or the bytes are not the report of a run of the source; it has no agent of the name; or the
/// report has only so many turns.
#[derive(Drop)]
pub enum Look {
    Shown(Text),
    Foreign,
    NoAgent,
    NoTurn(u64),
}

/// The text of an agent after the first `t` turns of the run of a source that bytes tell; none where they are not its report.
fn text_of<A: Artifact>(
    alloc: Global,
    told: &Told,
    source: Source,
    artifacts: Vec<A>,
    bytes: &Text,
    name: &Text,
    a: u32,
    t: u64,
) -> Result<Option<Text>, Starved>
    requires known { IsVersion told.now.version }
    requires within { IsWithin told.now.options }
    requires can { CanRun (objects_of A.named A.table A.facts artifacts.items) source }
    requires last { printed bytes.now ≡ told.now.turns }
    requires from_one { 1 ≤ a }
    requires short { t ≤ length told.now.turns }
    ensures { let objects = objects_of A.named A.table A.facts artifacts.items in
        let told = told.now in
        let p = opening (setup told.options objects) source in
        IfOk result (λ r. MatchOption r (IsAnyReport agent_kind told.version told.options p bytes.now → ⊥)
        (λ w. IsAnyReport agent_kind told.version told.options p bytes.now × IsView agent_kind mind_parts p told.turns name.now a t w)) }
{
    match open_source(alloc, &told.options, source, artifacts) {
        Ok(opened) => {
            let Opened { board, minds } = opened;
            let writer = AgentWriter;
            look_along(
                alloc,
                &writer,
                told.version,
                &told.options,
                board,
                minds,
                &told.turns,
                bytes,
                name,
                a,
                t,
            )
        }
        Err(starved) => Err(starved),
    }
}

/// After how many turns of so many: without a number after all.
fn turn_of(turn: Option<u64>, turns: u64) -> u64
    ensures { result ≡ spec.turn_of turn turns }
{
    match turn {
        None => turns,
        Some(turn) => turn,
    }
}

/// The look at the agent of this number, where the bytes tell this.
#[tactic(auto, using(crate::proofs::Verdicts::allowed_within, crate::proofs::Verdicts::told))]
fn look_told<A: Artifact>(
    alloc: Global,
    told: &Told,
    source: Source,
    artifacts: Vec<A>,
    bytes: &Text,
    name: &Text,
    a: u32,
    turn: Option<u64>,
) -> Result<Look, Starved>
    requires can { CanRun (objects_of A.named A.table A.facts artifacts.items) source }
    requires shows { Shows bytes.now told.now }
    requires named { place_of source.names name.now ≡ Some a }
    ensures { let objects = objects_of A.named A.table A.facts artifacts.items in
        IfOk result (spec.IsLook objects source bytes.now name.now turn) }
{
    let turns = told.turns.len();
    let t = turn_of(turn, turns);
    if t > turns {
        drop(source);
        drop(artifacts);
        return Ok(Look::NoTurn(turns));
    }
    if !is_allowed(&told.options, &source) {
        drop(source);
        drop(artifacts);
        return Ok(Look::Foreign);
    }
    match text_of(alloc, told, source, artifacts, bytes, name, a, t)? {
        Some(text) => Ok(Look::Shown(text)),
        None => Ok(Look::Foreign),
    }
}

/// The look at an agent of a source after the first turns of the run whose report the bytes are: after so many, or after all.
#[tactic(auto, using(mas_top_check::proofs::Verdicts::shows_by))]
pub fn look_at<A: Artifact>(
    alloc: Global,
    source: Source,
    artifacts: Vec<A>,
    bytes: &Text,
    name: &Text,
    turn: Option<u64>,
) -> Result<Look, Starved>
    requires { CanRun (objects_of A.named A.table A.facts artifacts.items) source }
    ensures { let objects = objects_of A.named A.table A.facts artifacts.items in
        IfOk result (spec.IsLook objects source bytes.now name.now turn) }
{
    let Some(a) = find(&source.names, name) else {
        drop(source);
        drop(artifacts);
        return Ok(Look::NoAgent);
    };
    match read_report(alloc, bytes.as_slice()) {
        Err(starved) => {
            drop(source);
            drop(artifacts);
            Err(starved)
        }
        Ok(None) => {
            drop(source);
            drop(artifacts);
            Ok(Look::Foreign)
        }
        Ok(Some(told)) => look_told(alloc, &told, source, artifacts, bytes, name, a, turn),
    }
}
