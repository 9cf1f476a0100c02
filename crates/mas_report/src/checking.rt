//! Whether bytes are the report of a run, and that report anew.

ghost use Rattle.std.specs.Prelude.{◌≡◌, IfOk, MatchOption};
ghost use Rattle.mas_core.specs.Fits.{Start};
ghost use Rattle.mas_core.specs.Platform.{opening_platform};
ghost use Rattle.mas_report.specs.Report.{latest, report_text, IsAnyReport, IsOwnRun, IsRenewal, Decided};
ghost use Rattle.mas_report_schedule.specs.Schedule.{AllFromOne, IsVersion, printed};

use crate::options::Options;
use crate::report::{LATEST, report};
use asl_term::compare::same_text;
use asl_term::sequence::{Seq, Starved};
use asl_term::syntax::{Numbers, Text};
use mas_board::board::Board;
use mas_core::replay::{PlayFault, replay};
use mas_core::robin::Done;
use mas_mind::thinking::Mind;
use mas_world::artifact::Artifact;
use std::alloc::Global;

/// A run that is done, if its report, of this version, is these bytes.
fn own_done<M: Mind, A: Artifact>(
    alloc: Global,
    version: u32,
    o: &Options,
    done: Done<M, A>,
    bytes: &Text,
) -> Result<Option<Done<M, A>>, Starved>
    requires { IsVersion version }
    ensures { let text = report_text M.kind.lines version o.now done.board.state done.minds done.board.schedule in
        IfOk result (λ r. MatchOption r (text ≡ bytes.now → ⊥) (λ d. (d ≡ done) × (text ≡ bytes.now))) }
{
    match report(alloc, version, o, &done) {
        Ok(text) => {
            if same_text(&text, bytes) {
                Ok(Some(done))
            } else {
                drop(done);
                Ok(None)
            }
        }
        Err(starved) => {
            drop(done);
            Err(starved)
        }
    }
}

/// The run of these minds over this board along the numbers in the last line of these bytes, if it ends and its report, of this
/// version, is these bytes.
fn own_run<M: Mind, A: Artifact>(
    alloc: Global,
    version: u32,
    o: &Options,
    board: Board<A>,
    minds: Seq<M>,
    names: &Numbers,
    bytes: &Text,
) -> Result<Option<Done<M, A>>, Starved>
    requires known { IsVersion version }
    requires start { Start M.kind board minds }
    requires last { printed bytes.now ≡ names.now }
    ensures { let p = opening_platform board.state minds in
        IfOk result (λ r. MatchOption r (IsAnyReport M.kind version o.now p bytes.now → ⊥)
        (λ d. IsOwnRun M.kind version o.now p names.now bytes.now d.board d.minds)) }
{
    match replay(alloc, board, minds, names) {
        Ok(done) => own_done(alloc, version, o, done, bytes),
        Err(PlayFault::Memory) => Err(Starved),
        Err(PlayFault::Illegal(_)) => Ok(None),
        Err(PlayFault::Unended(_)) => Ok(None),
    }
}

/// Whether the run of these minds over this board along the numbers in the last line of these bytes ends, and its report, of
/// this version, is these bytes.
#[tactic(auto, using(crate::proofs::Judged::own_is))]
pub fn is_report_along<M: Mind, A: Artifact>(
    alloc: Global,
    version: u32,
    o: &Options,
    board: Board<A>,
    minds: Seq<M>,
    names: &Numbers,
    bytes: &Text,
) -> Result<bool, Starved>
    requires known { IsVersion version }
    requires start { Start M.kind board minds }
    requires last { printed bytes.now ≡ names.now }
    ensures { let p = opening_platform board.state minds in
        IfOk result (Decided (IsAnyReport M.kind version o.now p bytes.now)) }
{
    match own_run(alloc, version, o, board, minds, names, bytes) {
        Ok(Some(done)) => {
            drop(done);
            Ok(true)
        }
        Ok(None) => Ok(false),
        Err(starved) => Err(starved),
    }
}

/// The report, of the version that is written, of a run that is done.
fn report_anew<M: Mind, A: Artifact>(
    alloc: Global,
    o: &Options,
    done: Done<M, A>,
) -> Result<Text, Starved>
    ensures text { IfOk result (λ w. w ≡ report_text M.kind.lines latest o.now done.board.state done.minds done.board.schedule) }
    ensures printed { AllFromOne 65535 done.board.schedule → IfOk result (λ w. printed w ≡ done.board.schedule) }
{
    match report(alloc, LATEST, o, &done) {
        Ok(text) => {
            drop(done);
            Ok(text)
        }
        Err(starved) => {
            drop(done);
            Err(starved)
        }
    }
}

/// The report, of the version that is written, of the run whose report, of this version, is these bytes; None where they are
/// that of no run of these minds over this board along the numbers in their last line.
pub fn renewal_along<M: Mind, A: Artifact>(
    alloc: Global,
    version: u32,
    o: &Options,
    board: Board<A>,
    minds: Seq<M>,
    names: &Numbers,
    bytes: &Text,
) -> Result<Option<Text>, Starved>
    requires known { IsVersion version }
    requires start { Start M.kind board minds }
    requires last { printed bytes.now ≡ names.now }
    ensures { let p = opening_platform board.state minds in
        IfOk result (λ r. MatchOption r (IsAnyReport M.kind version o.now p bytes.now → ⊥)
        (λ w. IsAnyReport M.kind version o.now p bytes.now × IsRenewal M.kind o.now p names.now w)) }
{
    board.holds();
    match own_run(alloc, version, o, board, minds, names, bytes) {
        Ok(Some(done)) => Ok(Some(report_anew(alloc, o, done)?)),
        Ok(None) => Ok(None),
        Err(starved) => Err(starved),
    }
}
