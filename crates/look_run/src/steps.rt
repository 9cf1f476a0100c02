//! Turns along numbers, to the end of a run or not so far.

ghost use Rattle.std.specs.Prelude.{◌≡◌, None, IfOk, MatchOption};
ghost use Rattle.mas_core.specs.Platform.{run};
ghost use Rattle.mas_report.specs.Report.{Decided};
ghost use Rattle.mas_report_schedule.specs.Schedule.{IsVersion};
ghost use Rattle.look_run.specs.Steps as spec;

use asl_term::compare::same_text;
use asl_term::sequence::Starved;
use asl_term::syntax::Text;
use mas_core::play::Play;
use mas_core::robin::Done;
use mas_mind::thinking::Mind;
use mas_report::options::Options;
use mas_report::report::report;
use mas_world::artifact::Artifact;
use std::alloc::Global;

/// The play after a turn for each number; none where one of these has no turn.
pub fn follow<M: Mind, A: Artifact>(
    alloc: Global,
    play: Play<M, A>,
    names: &[u64],
) -> Result<Option<Play<M, A>>, Starved>
    ensures { IfOk result (λ r. MatchOption r (run M.kind play.platform names.now ≡ None) (spec.HasGone M.kind play names.now)) }
{
    let mut play = play;
    for a in names {
        let Ok(turned) = play.turn(alloc, *a) else {
            return Err(Starved);
        };
        play = turned.play;
        if !turned.made {
            drop(play);
            return Ok(None);
        }
    }
    Ok(Some(play))
}

/// Whether the report, of this version, of a run that is done is these bytes.
fn is_report<M: Mind, A: Artifact>(
    alloc: Global,
    version: u32,
    o: &Options,
    play: Play<M, A>,
    bytes: &Text,
) -> Result<bool, Starved>
    requires { IsVersion version }
    ensures { IfOk result (λ r. Decided (spec.HasReport M.kind version o.now bytes.now play) r) }
{
    let (board, minds) = play.close();
    let done = Done { board, minds };
    match report(alloc, version, o, &done) {
        Ok(text) => {
            drop(done);
            Ok(same_text(&text, bytes))
        }
        Err(starved) => {
            drop(done);
            Err(starved)
        }
    }
}

/// Whether every agent has left, and the report of it, of this version, is these bytes.
fn is_reported<M: Mind, A: Artifact>(
    alloc: Global,
    version: u32,
    o: &Options,
    play: Play<M, A>,
    bytes: &Text,
) -> Result<bool, Starved>
    requires { IsVersion version }
    ensures { IfOk result (Decided (spec.IsReported M.kind version o.now bytes.now play)) }
{
    if play.first_here().is_some() {
        drop(play);
        return Ok(false);
    }
    is_report(alloc, version, o, play, bytes)
}

/// Whether the numbers lead to a run that is done and has these bytes as its report, of this version.
pub fn leads_to_report<M: Mind, A: Artifact>(
    alloc: Global,
    version: u32,
    o: &Options,
    play: Play<M, A>,
    names: &[u64],
    bytes: &Text,
) -> Result<bool, Starved>
    requires { IsVersion version }
    ensures { IfOk result (Decided (spec.LeadsToReport M.kind version o.now bytes.now play names.now)) }
{
    match follow(alloc, play, names)? {
        None => Ok(false),
        Some(play) => is_reported(alloc, version, o, play, bytes),
    }
}
