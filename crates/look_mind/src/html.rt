//! The page of a report with what changed in the minds of its agents.

ghost use Rattle.std.specs.Prelude.{◌≡◌, true, [], None, IfOk};
ghost use Rattle.look_mind.specs.Page.{IsPageOf};

use crate::changes::MindChanges;
use crate::lines::{mind_lines, untold};
use asl_term::sequence::Seq;
use asl_term::syntax::Text;
use chart_page::choice::Choice;
use chart_page::faults::Fault;
use chart_page::made::made;
use chart_page::minds::Minds;
use std::alloc::Global;

/// A page of all agents and turns.
fn whole_page<'a>() -> Choice<'a>
    ensures page { result.is_page ≡ true }
    ensures names { result.names.now ≡ [] }
    ensures turns { result.turns ≡ None }
{
    Choice {
        is_page: true,
        is_all: false,
        names: &[],
        turns: None,
    }
}

/// The page of a report of all its agents and turns, with these changes.
pub fn page_of(alloc: Global, bytes: &[u8], told: &MindChanges) -> Result<Text, Fault>
    ensures { IfOk result (IsPageOf bytes.now told.now) }
{
    let lines = mind_lines(alloc, told)?;
    let minds = Minds {
        lines: lines.as_slice(),
        untold: untold(told),
    };
    let choice = whole_page();
    Ok(Seq::from_vec(made(alloc, choice, &minds, bytes)?))
}
