//! What changes in minds along a run.

ghost use Rattle.std.specs.Prelude.{◌≡◌, ◌≤◌, None, length, take, IfOk, MatchOption};
ghost use Rattle.mas_core.specs.Fits.{Start};
ghost use Rattle.mas_core.specs.Platform.{opening_platform, run, turn};
ghost use Rattle.mas_report.specs.Report.{IsAnyReport};
ghost use Rattle.mas_report_schedule.specs.Schedule.{IsVersion, printed};
ghost use Rattle.look_run.specs.Before.{texts_at};
ghost use Rattle.look_run.specs.Steps.{HasGone};
ghost use Rattle.look_lines.specs.Changes.{change};
ghost use Rattle.look_mind.specs.Along as spec;

use asl_term::sequence::{Seq, Starved};
use asl_term::syntax::{Numbers, Text};
use look_lines::change::{ChangedLine, change};
use look_run::before::texts_at;
use look_run::steps::leads_to_report;
use look_run::texts::MindTexts;
use mas_board::board::Board;
use mas_core::play::Play;
use mas_mind::thinking::Mind;
use mas_report::options::Options;
use mas_world::artifact::Artifact;
use std::alloc::Global;

/// The lines of a turn's change.
pub type Change = Seq<ChangedLine>;

/// A play after some turns, and of each of these its change.
pub struct Walked<M: Mind, A: Artifact> {
    pub play: Play<M, A>,
    pub changes: Seq<Change>,
}

/// A play after a turn, where there was one, and its change.
struct Stepped<M: Mind, A: Artifact> {
    play: Play<M, A>,
    change: Option<Change>,
}

/// What changed in the mind of the agent of this number, of which these were the texts.
fn change_from<M: Mind, A: Artifact, W: MindTexts<M>>(
    alloc: Global,
    writer: &W,
    befores: &[Text],
    play: &Play<M, A>,
    a: u64,
) -> Result<Change, Starved>
    ensures { IfOk result (λ c. c ≡ change befores.now (texts_at W.texts play.now.platform a)) }
{
    let afters = texts_at(alloc, writer, play, a)?;
    change(alloc, befores, afters.as_slice())
}

/// A turn of the agent of this number, and what it changes in the agent's mind.
fn step<M: Mind, A: Artifact, W: MindTexts<M>>(
    alloc: Global,
    writer: &W,
    play: Play<M, A>,
    a: u64,
) -> Result<Stepped<M, A>, Starved>
    ensures { IfOk result (λ s. spec.HasStepped M.kind W.texts play a s.play s.change) }
{
    let befores = texts_at(alloc, writer, &play, a)?;
    let turned = play.turn(alloc, a)?;
    let play = turned.play;
    if !turned.made {
        return Ok(Stepped { play, change: None });
    }
    let lines = change_from(alloc, writer, befores.as_slice(), &play, a)?;
    Ok(Stepped {
        play,
        change: Some(lines),
    })
}

/// The play after a turn for each number, and what these change; none where one of them has no turn.
fn walk<M: Mind, A: Artifact, W: MindTexts<M>>(
    alloc: Global,
    writer: &W,
    play: Play<M, A>,
    names: &[u64],
) -> Result<Option<Walked<M, A>>, Starved>
    ensures { let p = play.platform in
        IfOk result (λ r. MatchOption r (run M.kind p names.now ≡ None)
        (λ w. HasGone M.kind play names.now w.play × spec.AreChanges M.kind W.texts p names.now w.changes)) }
{
    let mut play = play;
    let mut changes = Seq::new(alloc);
    for a in names {
        let stepped = step(alloc, writer, play, *a)?;
        let Stepped {
            play: after,
            change: told,
        } = stepped;
        play = after;
        match told {
            Some(lines) => changes.push(lines)?,
            None => {
                drop(play);
                return Ok(None);
            }
        }
    }
    Ok(Some(Walked { play, changes }))
}

/// What the first `t` turns of the run of these minds over this board change, where its report, of this version, is these bytes; none where
/// it is not.
pub fn changes_along<M: Mind, A: Artifact, W: MindTexts<M>>(
    alloc: Global,
    writer: &W,
    version: u32,
    o: &Options,
    board: Board<A>,
    minds: Seq<M>,
    turns: &Numbers,
    bytes: &Text,
    t: u64,
) -> Result<Option<Seq<Change>>, Starved>
    requires known { IsVersion version }
    requires start { Start M.kind board minds }
    requires last { printed bytes.now ≡ turns.now }
    requires within { t ≤ length turns.now }
    ensures { let p = opening_platform board.state minds in
        IfOk result (λ r. MatchOption r (IsAnyReport M.kind version o.now p bytes.now → ⊥)
        (λ cs. IsAnyReport M.kind version o.now p bytes.now × spec.AreChanges M.kind W.texts p (take t turns.now) cs)) }
{
    let play = Play::open(alloc, board, minds)?;
    let (front, rest) = turns.as_slice().split_at(t as usize);
    let found = walk(alloc, writer, play, front)?;
    let Walked { play, changes } = match found {
        None => return Ok(None),
        Some(walked) => walked,
    };
    let leads = leads_to_report(alloc, version, o, play, rest, bytes)?;
    if leads {
        return Ok(Some(changes));
    }
    drop(changes);
    Ok(None)
}
