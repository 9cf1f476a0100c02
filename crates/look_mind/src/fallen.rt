//! The failures of the agents of a source, along the turns of a report, as a run of level rules shows them.

ghost use Rattle.std.specs.Prelude.{◌≡◌, None, IfOk, MatchOption};
ghost use Rattle.asl_cycle.specs.Agent.{agent_kind};
ghost use Rattle.mas_core.specs.Platform.{run};
ghost use Rattle.mas_report.specs.Limits.{IsWithin};
ghost use Rattle.mas_top_check.specs.Checking.{IsAllowed};
ghost use Rattle.mas_top_opening.specs.Fits.{CanRun};
ghost use Rattle.mas_top_opening.specs.Opening.{objects_of, opening, setup};
ghost use Rattle.look_run.specs.Falling.{HaveFallen};
ghost use Rattle.look_mind.specs.Fallen as spec;

use asl_exec_circumstance::shared::SharedNames;
use asl_term::sequence::{Seq, Starved};
use asl_term::syntax::{Numbers, Text};
use look_lines::falls::FallLines;
use look_run::falling::falls_after;
use mas_mind::mind::Level;
use mas_report::options::Options;
use mas_report::reading::Told;
use mas_top_check::checking::told_in;
use mas_top_files::sources::Source;
use mas_top_opening::opening::{Opened, open_source};
use mas_world::artifact::Artifact;
use std::alloc::Global;

/// The options and turns of a report, the names of the agents, and of each agent the failures.
pub struct RunFalls {
    pub options: Options,
    pub turns: Numbers,
    pub names: SharedNames,
    pub falls: Seq<FallLines>,
}

/// By hand, so that who lets one go proves nothing of its parts.
impl Drop for RunFalls {
    fn drop(self) {
        let RunFalls {
            options: _,
            turns: _,
            names: _,
            falls: _,
        } = self;
    }
}

/// The same options with level rules.
fn loud(o: &Options) -> Options
    ensures { result ≡ spec.loud o.now }
{
    Options {
        cycles: o.cycles,
        lead: o.lead,
        depth: o.depth,
        tries: o.tries,
        level: Level::Rules,
    }
}

/// The failures of a source's agents along these turns; none where one of the turns cannot be made.
#[tactic(auto, using(mas_top_opening::proofs::Starts::starts))]
fn falls_of<A: Artifact>(
    alloc: Global,
    o: &Options,
    source: Source,
    artifacts: Vec<A>,
    turns: &Numbers,
) -> Result<Option<Seq<FallLines>>, Starved>
    requires within { IsWithin o.now }
    requires can { CanRun (objects_of A.named A.table A.facts artifacts.items) source }
    ensures { let p = opening (setup o.now (objects_of A.named A.table A.facts artifacts.items)) source in
        IfOk result (λ r. MatchOption r (run agent_kind p turns.now ≡ None) (HaveFallen agent_kind p turns.now)) }
{
    match open_source(alloc, o, source, artifacts) {
        Ok(opened) => {
            let Opened { board, minds } = opened;
            falls_after(alloc, board, minds, turns)
        }
        Err(starved) => Err(starved),
    }
}

/// The failures along the turns that a report tells of a run that the source may have.
#[tactic(auto, using(crate::proofs::Loud::loud_within))]
fn fallen_told<A: Artifact>(
    alloc: Global,
    told: Told,
    source: Source,
    artifacts: Vec<A>,
) -> Result<Option<RunFalls>, Starved>
    requires can { CanRun (objects_of A.named A.table A.facts artifacts.items) source }
    requires allowed { IsAllowed source told.options }
    ensures { let objects = objects_of A.named A.table A.facts artifacts.items in
        IfOk result (spec.IsFallenBy objects source told) }
{
    let names = SharedNames::copy_of(alloc, &source.names)?;
    let found = falls_of(alloc, &loud(&told.options), source, artifacts, &told.turns)?;
    match found {
        None => Ok(None),
        Some(falls) => Ok(Some(RunFalls {
            options: told.options,
            turns: told.turns,
            names,
            falls,
        })),
    }
}

/// The failures of a source's agents along the turns that bytes tell, at level rules; none where they tell no turns and options that a run of the source may
/// have, or one of the turns cannot be made.
#[tactic(auto, using(crate::proofs::Loud::may_have))]
pub fn fallen_at<A: Artifact>(
    alloc: Global,
    source: Source,
    artifacts: Vec<A>,
    bytes: &Text,
) -> Result<Option<RunFalls>, Starved>
    requires { CanRun (objects_of A.named A.table A.facts artifacts.items) source }
    ensures { let objects = objects_of A.named A.table A.facts artifacts.items in
        IfOk result (spec.IsFallen objects source bytes.now) }
{
    match told_in(alloc, bytes, &source) {
        Err(starved) => {
            drop(source);
            drop(artifacts);
            Err(starved)
        }
        Ok(None) => {
            drop(source);
            drop(artifacts);
            Ok(None)
        }
        Ok(Some(told)) => fallen_told(alloc, told, source, artifacts),
    }
}
