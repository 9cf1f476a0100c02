//! The agents of a source before their first cycles.

ghost use Rattle.std.specs.Prelude.{◌≡◌, ◌≤◌, ◌+◌, ◌++◌, length, replicate, true, IfOk, OnOk};
ghost use Rattle.std.specs.List.{list_all};
ghost use Rattle.asl_term.specs.Exprs.{is_ground_literal};
ghost use Rattle.mas_report.specs.Limits.{IsWithin};
ghost use Rattle.mas_top_opening.specs.Fits.{is_ground_role};
ghost use Rattle.mas_top_files.specs.Sources.{texts_of};
ghost use Rattle.mas_top_opening.specs.Opening as spec;

use asl_cycle::agent::{Agent, open_agent};
use asl_exec_circumstance::shared::SharedNames;
use asl_resolve::answers::Budgets;
use asl_term::names::Names;
use asl_term::sequence::{Seq, Starved};
use asl_term::syntax::AgentText;
use mas_report::options::Options;
use mas_top_files::sources::Role;
use std::alloc::Global;

fn budgets_of(o: &Options) -> Budgets
    ensures { result ≡ spec.budgets_of o.now }
{
    Budgets {
        depth: o.depth,
        tries: o.tries,
    }
}

/// The agent of this source and number.
fn open_one(
    alloc: Global,
    o: &Options,
    names: &SharedNames,
    a: u32,
    source: &AgentText,
) -> Result<Agent, Starved>
    requires within { IsWithin o.now }
    requires from_one { 1 ≤ a }
    requires named { a ≤ length names.now }
    requires ground { list_all is_ground_literal source.now.beliefs ≡ true }
    ensures { IfOk result (λ m. m ≡ spec.mind_of o.now names.now a source.now) }
{
    open_agent(alloc, a, names, source, budgets_of(o), o.level)
}

/// The number of the agent behind so many.
fn next_number(names: &SharedNames, made: u64) -> u32
    requires { made + 1 ≤ length names.now }
    ensures { result ≡ made + 1 }
{
    let agents = names.get().len();
    prove!(made < agents as u64);
    made as u32 + 1
}

/// As many agents of one source more.
#[tactic(auto, using(crate::proofs::Opened::counted))]
fn add_agents(
    alloc: Global,
    o: &Options,
    names: &SharedNames,
    role: &Role,
    minds: &mut Seq<Agent>,
) -> Result<(), Starved>
    requires within { IsWithin o.now }
    requires named { length minds.old + role.now.count ≤ length names.now }
    requires ground { is_ground_role role.now ≡ true }
    ensures { OnOk result (minds.new ≡ minds.old ++ spec.minds_from o.now names.now (length minds.old + 1) (replicate role.now.count role.now.text)) }
{
    let mut left = role.count;
    'agents: while left > 0 {
        let a = next_number(names, minds.len());
        let mind = open_one(alloc, o, names, a, &role.text)?;
        minds.push(mind)?;
        left -= 1;
    }
    Ok(())
}

/// The agents of these lines, in order.
#[tactic(auto, using(crate::proofs::Opened::by_roles))]
pub fn open_minds(
    alloc: Global,
    o: &Options,
    names: &Names,
    roles: &[Role],
) -> Result<Seq<Agent>, Starved>
    requires within { IsWithin o.now }
    requires named { length names.now ≡ length (texts_of roles.now) }
    requires ground { list_all is_ground_role roles.now ≡ true }
    ensures { IfOk result (λ ms. ms ≡ spec.minds_from o.now names.now 1 (texts_of roles.now)) }
{
    let shared = SharedNames::copy_of(alloc, names)?;
    let mut minds = Seq::new(alloc);
    let mut rest = roles;
    'roles: while let Some((role, after)) = rest.split_first() {
        add_agents(alloc, o, &shared, role, &mut minds)?;
        rest = after;
    }
    Ok(minds)
}
