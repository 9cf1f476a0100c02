//! A look at a run whose report is given.

ghost use Rattle.std.specs.Prelude.{◌≡◌, ◌≤◌, length, IfOk, MatchOption};
ghost use Rattle.mas_core.specs.Fits.{Start};
ghost use Rattle.mas_core.specs.Platform.{opening_platform};
ghost use Rattle.mas_report.specs.Report.{IsAnyReport};
ghost use Rattle.mas_report_schedule.specs.Schedule.{IsVersion, printed};
ghost use Rattle.look_run.specs.Looks.{IsView};
ghost use Rattle.look_run.specs.Steps.{LeadsToReport};
ghost use Rattle.look_run.specs.Views as views;
ghost use Rattle.look_run.specs.Views.{asked};

use crate::mind::MindText;
use crate::steps::{follow, leads_to_report};
use crate::view::view;
use asl_term::sequence::{Seq, Starved};
use asl_term::syntax::{Numbers, Text};
use mas_board::board::Board;
use mas_core::play::Play;
use mas_mind::thinking::Mind;
use mas_report::options::Options;
use mas_world::artifact::Artifact;
use std::alloc::Global;

/// The text of an agent's part of a play, where the numbers lead on to a run that is done and has these bytes as its report, of
/// this version; none where they do not.
fn look_here<M: Mind, A: Artifact, W: MindText<M>>(
    alloc: Global,
    writer: &W,
    version: u32,
    o: &Options,
    play: Play<M, A>,
    rest: &[u64],
    bytes: &Text,
    name: &Text,
    a: u32,
    t: u64,
    n: u64,
) -> Result<Option<Text>, Starved>
    requires known { IsVersion version }
    requires from_one { 1 ≤ a }
    ensures { let q = asked name.now a t n in
        IfOk result (λ r. MatchOption r (LeadsToReport M.kind version o.now bytes.now play rest.now → ⊥)
        (λ w. LeadsToReport M.kind version o.now bytes.now play rest.now × (w ≡ views.view M.kind W.parts play.platform q))) }
{
    let text = match view(alloc, writer, &play, name, a, t, n) {
        Ok(text) => text,
        Err(starved) => {
            drop(play);
            return Err(starved);
        }
    };
    match leads_to_report(alloc, version, o, play, rest, bytes) {
        Ok(true) => Ok(Some(text)),
        Ok(false) => {
            drop(text);
            Ok(None)
        }
        Err(starved) => {
            drop(text);
            Err(starved)
        }
    }
}

/// The text of an agent's part of the run of these minds over this board, after the first `t` of its turns, where its report, of this
/// version, is these bytes; none where it is not.
pub fn look_along<M: Mind, A: Artifact, W: MindText<M>>(
    alloc: Global,
    writer: &W,
    version: u32,
    o: &Options,
    board: Board<A>,
    minds: Seq<M>,
    turns: &Numbers,
    bytes: &Text,
    name: &Text,
    a: u32,
    t: u64,
) -> Result<Option<Text>, Starved>
    requires known { IsVersion version }
    requires start { Start M.kind board minds }
    requires last { printed bytes.now ≡ turns.now }
    requires from_one { 1 ≤ a }
    requires within { t ≤ length turns.now }
    ensures { let p = opening_platform board.state minds in
        IfOk result (λ r. MatchOption r (IsAnyReport M.kind version o.now p bytes.now → ⊥)
        (λ w. IsAnyReport M.kind version o.now p bytes.now × IsView M.kind W.parts p turns.now name.now a t w)) }
{
    let Ok(play) = Play::open(alloc, board, minds) else {
        return Err(Starved);
    };
    let names = turns.as_slice();
    let (front, rest) = names.split_at(t as usize);
    match follow(alloc, play, front)? {
        None => Ok(None),
        Some(play) => look_here(
            alloc,
            writer,
            version,
            o,
            play,
            rest,
            bytes,
            name,
            a,
            t,
            names.len() as u64,
        ),
    }
}
