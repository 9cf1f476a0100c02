//! The source of each agent of a project, and what is said of them.

ghost use Rattle.std.specs.Prelude.{◌≡◌, [], ◌∷◌, ◌++◌, replicate, decimal, IfOk, OnOk};
ghost use Rattle.mas_top_files.specs.Sources.{texts_of};
ghost use Rattle.mas_top_lint.specs.Linting as spec;

use asl_beliefs::clauses::copy_clauses;
use asl_cycle::opening::copy_plans;
use asl_lint::lint::{AgentTexts, Verdict};
use asl_term::copying::{copy_literals, text_of};
use asl_term::names::Names;
use asl_term::printing::write_number;
use asl_term::sequence::{Seq, Starved};
use asl_term::syntax::{AgentText, Text};
use mas_top_files::sources::Role;
use std::alloc::Global;

/// An equal source.
fn copy_source(alloc: Global, text: &AgentText) -> Result<AgentText, Starved>
    ensures { IfOk result (λ r. r ≡ text.now) }
{
    let beliefs = copy_literals(alloc, text.beliefs.as_slice())?;
    let rules = copy_clauses(alloc, text.rules.as_slice())?;
    let goals = copy_literals(alloc, text.goals.as_slice())?;
    let plans = copy_plans(alloc, text.plans.as_slice())?;
    Ok(AgentText {
        beliefs,
        rules,
        goals,
        plans,
    })
}

/// As many of one source more.
fn add_sources(alloc: Global, role: &Role, texts: &mut AgentTexts) -> Result<(), Starved>
    ensures { OnOk result (texts.new ≡ texts.old ++ replicate role.now.count role.now.text) }
{
    let mut left = role.count;
    'agents: while left > 0 {
        texts.push(copy_source(alloc, &role.text)?)?;
        left -= 1;
    }
    Ok(())
}

/// The source of each agent, in the order of their numbers.
pub fn all_sources(alloc: Global, roles: &[Role]) -> Result<AgentTexts, Starved>
    ensures { IfOk result (λ r. r ≡ texts_of roles.now) }
{
    let mut texts = Seq::new(alloc);
    let mut rest = roles;
    'roles: while let Some((role, after)) = rest.split_first() {
        add_sources(alloc, role, &mut texts)?;
        rest = after;
    }
    Ok(texts)
}

/// Puts a word, a number and a byte last.
fn put_counted(alloc: Global, word: &[u8], n: u64, end: u8, out: &mut Text) -> Result<(), Starved>
    ensures { OnOk result (out.new ≡ out.old ++ (word.now ++ (decimal n ++ end ∷ []))) }
{
    out.append(word)?;
    write_number(alloc, n, out)?;
    out.push(end)
}

/// The beginning of a line that tells of an agent.
fn of_agent(alloc: Global, names: &Names, agent: u32) -> Result<Text, Starved>
    ensures { IfOk result (λ t. t ≡ spec.of_agent names.now agent) }
{
    let mut text = text_of(alloc, b"no ")?;
    if let Some(name) = names.at(agent) {
        text.append(name.as_slice())?;
    }
    Ok(text)
}

fn goal_line(alloc: Global, names: &Names, agent: u32, goal: u64) -> Result<Text, Starved>
    ensures { IfOk result (λ t. t ≡ spec.verdict_text names.now (Verdict.Goal agent goal)) }
{
    let mut text = of_agent(alloc, names, agent)?;
    put_counted(alloc, b" goal ", goal, b'\n', &mut text)?;
    Ok(text)
}

fn item_line(
    alloc: Global,
    names: &Names,
    agent: u32,
    plan: u64,
    item: u64,
) -> Result<Text, Starved>
    ensures { IfOk result (λ t. t ≡ spec.verdict_text names.now (Verdict.Item agent plan item)) }
{
    let mut text = of_agent(alloc, names, agent)?;
    put_counted(alloc, b" plan ", plan, b' ', &mut text)?;
    put_counted(alloc, b"", item, b'\n', &mut text)?;
    Ok(text)
}

/// The line of a verdict.
pub fn verdict_line(alloc: Global, names: &Names, v: Verdict) -> Result<Text, Starved>
    ensures { IfOk result (λ t. t ≡ spec.verdict_text names.now v) }
{
    match v {
        Verdict::Yes => text_of(alloc, b"yes\n"),
        Verdict::Goal { agent, goal } => goal_line(alloc, names, agent, goal),
        Verdict::Item { agent, plan, item } => item_line(alloc, names, agent, plan, item),
    }
}
