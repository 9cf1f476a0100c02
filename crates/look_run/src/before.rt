//! Texts of minds before some of the turns of a run.

ghost use Rattle.std.specs.Prelude.{◌≡◌, ◌≤◌, None, length, take, IfOk, MatchOption};
ghost use Rattle.mas_core.specs.Fits.{Start};
ghost use Rattle.mas_core.specs.Platform.{opening_platform, run, turn};
ghost use Rattle.mas_report.specs.Report.{IsAnyReport};
ghost use Rattle.mas_report_schedule.specs.Schedule.{IsVersion, printed};
ghost use Rattle.look_run.specs.Steps.{HasGone};
ghost use Rattle.look_run.specs.Before as spec;

use crate::steps::leads_to_report;
use crate::texts::MindTexts;
use asl_term::sequence::{Seq, Starved};
use asl_term::syntax::{Numbers, Text};
use mas_board::board::Board;
use mas_core::play::Play;
use mas_mind::thinking::Mind;
use mas_report::options::Options;
use mas_world::artifact::Artifact;
use std::alloc::Global;

/// The texts of each turn.
pub type TextsBefore = Seq<Seq<Text>>;

/// A play after some turns, and of each of these its texts.
pub struct Walked<M: Mind, A: Artifact> {
    pub play: Play<M, A>,
    pub texts: TextsBefore,
}

/// A play after a turn, where there was one, and its texts.
struct Stepped<M: Mind, A: Artifact> {
    play: Play<M, A>,
    texts: Option<Seq<Text>>,
}

/// Whether a turn is marked.
fn is_marked(marks: &[bool], at: usize) -> bool
    ensures { result ≡ spec.is_marked marks.now at }
{
    match marks.get(at) {
        Some(mark) => *mark,
        None => false,
    }
}

/// The texts of the mind of the agent of this number; none where there is no such mind.
pub fn texts_at<M: Mind, A: Artifact, W: MindTexts<M>>(
    alloc: Global,
    writer: &W,
    play: &Play<M, A>,
    a: u64,
) -> Result<Seq<Text>, Starved>
    ensures { IfOk result (λ ts. ts ≡ spec.texts_at W.texts play.now.platform a) }
{
    if a == 0 || a > play.agents() as u64 {
        return Ok(Seq::new(alloc));
    }
    match play.mind(a as u32) {
        Some(m) => writer.texts_of(alloc, m),
        None => Ok(Seq::new(alloc)),
    }
}

/// The same where it is asked for.
fn texts_if<M: Mind, A: Artifact, W: MindTexts<M>>(
    alloc: Global,
    writer: &W,
    marked: bool,
    play: &Play<M, A>,
    a: u64,
) -> Result<Seq<Text>, Starved>
    ensures { IfOk result (λ ts. ts ≡ spec.texts_if W.texts marked play.now.platform a) }
{
    if marked {
        texts_at(alloc, writer, play, a)
    } else {
        Ok(Seq::new(alloc))
    }
}

/// A turn of the agent of this number, and its texts before.
fn step<M: Mind, A: Artifact, W: MindTexts<M>>(
    alloc: Global,
    writer: &W,
    play: Play<M, A>,
    a: u64,
    marked: bool,
) -> Result<Stepped<M, A>, Starved>
    ensures { IfOk result (λ s. spec.HasStepped M.kind W.texts play a marked s.play s.texts) }
{
    let texts = texts_if(alloc, writer, marked, &play, a)?;
    let turned = play.turn(alloc, a)?;
    let play = turned.play;
    if !turned.made {
        return Ok(Stepped { play, texts: None });
    }
    Ok(Stepped {
        play,
        texts: Some(texts),
    })
}

/// The play after a turn for each number, and the texts before those that are marked; none where one of them has no turn.
fn walk<M: Mind, A: Artifact, W: MindTexts<M>>(
    alloc: Global,
    writer: &W,
    play: Play<M, A>,
    names: &[u64],
    marks: &[bool],
) -> Result<Option<Walked<M, A>>, Starved>
    ensures { let p = play.platform in
        IfOk result (λ r. MatchOption r (run M.kind p names.now ≡ None)
        (λ w. HasGone M.kind play names.now w.play × spec.AreBefore M.kind W.texts p names.now marks.now w.texts)) }
{
    let mut play = play;
    let mut texts = Seq::new(alloc);
    for at in 0..names.len() {
        let stepped = step(alloc, writer, play, names[at], is_marked(marks, at))?;
        let Stepped {
            play: after,
            texts: told,
        } = stepped;
        play = after;
        match told {
            Some(told) => texts.push(told)?,
            None => {
                drop(play);
                return Ok(None);
            }
        }
    }
    Ok(Some(Walked { play, texts }))
}

/// The texts of the agents of the first `t` turns, before those of them that are marked, in the run of these minds over this board, where its report, of
/// this version, is these bytes; none where it is not.
pub fn texts_along<M: Mind, A: Artifact, W: MindTexts<M>>(
    alloc: Global,
    writer: &W,
    version: u32,
    o: &Options,
    board: Board<A>,
    minds: Seq<M>,
    turns: &Numbers,
    marks: &[bool],
    bytes: &Text,
    t: u64,
) -> Result<Option<TextsBefore>, Starved>
    requires known { IsVersion version }
    requires start { Start M.kind board minds }
    requires last { printed bytes.now ≡ turns.now }
    requires within { t ≤ length turns.now }
    ensures { let p = opening_platform board.state minds in
        IfOk result (λ r. MatchOption r (IsAnyReport M.kind version o.now p bytes.now → ⊥)
        (λ cs. IsAnyReport M.kind version o.now p bytes.now × spec.AreBefore M.kind W.texts p (take t turns.now) marks.now cs)) }
{
    let play = Play::open(alloc, board, minds)?;
    let (front, rest) = turns.as_slice().split_at(t as usize);
    let found = walk(alloc, writer, play, front, marks)?;
    let Walked { play, texts } = match found {
        None => return Ok(None),
        Some(walked) => walked,
    };
    let leads = leads_to_report(alloc, version, o, play, rest, bytes)?;
    if leads {
        return Ok(Some(texts));
    }
    drop(texts);
    Ok(None)
}
