//! The agents of a source, one at a time.

ghost use Rattle.std.specs.Prelude.{◌≡◌, ◌≤◌, ◌-◌, length, option_copied, slice_get, true, IfOk, IfSome};
ghost use Rattle.std.specs.List.{list_all};
ghost use Rattle.asl_beliefs.specs.Bases.{all_ground};
ghost use Rattle.mas_report.specs.Limits.{IsWithin};
ghost use Rattle.mas_top_files.specs.Sources.{texts_of};
ghost use Rattle.mas_top_opening.specs.Fits.{is_ground_role};
ghost use Rattle.mas_top_opening.specs.Opening as spec;

use asl_exec_circumstance::shared::SharedNames;
use asl_resolve::answers::Budgets;
use asl_term::sequence::Starved;
use asl_term::syntax::AgentText;
use mas_explore_agent::agent::{SteadyAgent, open_steady};
use mas_report::options::Options;
use mas_top_files::sources::Role;
use std::alloc::Global;

/// The source of the agent at this place, counted from 0.
#[tactic(auto, using(crate::proofs::Texts::here, crate::proofs::Texts::onward, crate::proofs::Texts::ground_here, crate::proofs::Texts::ground_on))]
pub fn text_at(roles: &[Role], place: u32) -> Option<&AgentText>
    requires { list_all is_ground_role roles.now ≡ true }
    ensures text { option_copied result ≡ slice_get (texts_of roles.now) place }
    ensures ground { IfSome (option_copied result) (λ t. all_ground t.beliefs ≡ true) }
{
    let mut left = place;
    let mut rest = roles;
    'roles: while let Some((role, after)) = rest.split_first() {
        if left < role.count {
            return Some(&role.text);
        }
        left -= role.count;
        rest = after;
    }
    None
}

fn budgets_of(o: &Options) -> Budgets
    ensures { result ≡ spec.budgets_of o.now }
{
    Budgets {
        depth: o.depth,
        tries: o.tries,
    }
}

/// The agent of this source and number, before its first cycle.
pub fn fresh_agent(
    alloc: Global,
    o: &Options,
    names: &SharedNames,
    a: u32,
    text: &AgentText,
) -> Result<SteadyAgent, Starved>
    requires within { IsWithin o.now }
    requires from_one { 1 ≤ a }
    requires named { a ≤ length names.now }
    requires ground { all_ground text.now.beliefs ≡ true }
    ensures { IfOk result (λ m. m ≡ spec.mind_of o.now names.now a text.now) }
{
    open_steady(alloc, a, names, text, budgets_of(o), o.level)
}
