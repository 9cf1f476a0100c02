//! What is written of a run: its report, and what the status needs of it.

ghost use Rattle.std.specs.Prelude.{◌≡◌, IfOk};
ghost use Rattle.mas_report.specs.Report as spec;
ghost use Rattle.mas_report_schedule.specs.Schedule.{AllFromOne, printed};

use crate::options::Options;
use crate::report::{LATEST, is_spent, report};
use asl_term::sequence::Starved;
use asl_term::syntax::Text;
use mas_core::robin::Done;
use mas_mind::thinking::Mind;
use mas_world::artifact::Artifact;
use std::alloc::Global;

/// A text to write, and whether an end in it is `budget`.
#[derive(Drop)]
pub struct Output {
    pub text: Text,
    pub spent: bool,
}

/// The report of a run that is done, in the latest version.
pub fn output_of<M: Mind, A: Artifact>(
    alloc: Global,
    o: &Options,
    done: &Done<M, A>,
) -> Result<Output, Starved>
    ensures spent { IfOk result (λ out. out.spent ≡ spec.is_spent done.now.board.state.seats) }
    ensures text { let b = done.now.board in
        IfOk result (λ out. out.text ≡ spec.report_text M.kind.lines spec.latest o.now b.state done.now.minds b.schedule) }
    ensures printed { AllFromOne 65535 done.now.board.schedule → IfOk result (λ out. printed out.text ≡ done.now.board.schedule) }
{
    let spent = is_spent(&done.board);
    let text = report(alloc, LATEST, o, done)?;
    Ok(Output { text, spent })
}
