//! The first goal or item that fails.

ghost use Rattle.std.specs.Prelude.{◌≡◌, IfOk, length};
ghost use Rattle.asl_lint.specs.Lints as spec;

use crate::goals::achieves;
use crate::items::item_holds;
use asl_term::names::Names;
use asl_term::sequence::{Seq, Starved};
use asl_term::syntax::{AgentText, Plan};
use std::alloc::Global;

pub type AgentTexts = Seq<AgentText>;

/// The first goal or item that fails, with the number of its agent and its place there, counted from 1.
#[derive(Clone, Copy, Drop)]
pub enum Verdict {
    Yes,
    Goal { agent: u32, goal: u64 },
    Item { agent: u32, plan: u64, item: u64 },
}

/// The first goal of an agent that is not covered.
fn goals_verdict(alloc: Global, agent: u32, text: &AgentText) -> Result<Option<Verdict>, Starved>
    ensures { IfOk result (λ v. v ≡ spec.goals_verdict agent text.now) }
{
    let plans = text.plans.as_slice();
    let goals = text.goals.as_slice();
    for k in 0..goals.len() {
        if !achieves(alloc, plans, &goals[k])? {
            let goal = k as u64 + 1;
            return Ok(Some(Verdict::Goal { agent, goal }));
        }
    }
    Ok(None)
}

/// The first item of a plan that does not hold.
fn plan_verdict(
    alloc: Global,
    names: &Names,
    texts: &[AgentText],
    agent: u32,
    text: &AgentText,
    plan: u64,
    p: &Plan,
) -> Result<Option<Verdict>, Starved>
    ensures { IfOk result (λ v. v ≡ spec.plan_verdict names.now texts.now agent text.now plan p.now) }
{
    let body = p.body.as_slice();
    for k in 0..body.len() {
        if !item_holds(alloc, names, texts, text.plans.as_slice(), &body[k])? {
            let item = k as u64 + 1;
            return Ok(Some(Verdict::Item { agent, plan, item }));
        }
    }
    Ok(None)
}

/// The first item of an agent's plans that does not hold.
fn plans_verdict(
    alloc: Global,
    names: &Names,
    texts: &[AgentText],
    agent: u32,
    text: &AgentText,
) -> Result<Option<Verdict>, Starved>
    ensures { IfOk result (λ v. v ≡ spec.first_found (spec.plan_verdict names.now texts.now agent text.now) 1 text.now.plans) }
{
    let plans = text.plans.as_slice();
    for k in 0..plans.len() {
        let plan = k as u64 + 1;
        if let Some(v) = plan_verdict(alloc, names, texts, agent, text, plan, &plans[k])? {
            return Ok(Some(v));
        }
    }
    Ok(None)
}

/// The first failure of an agent: its goals before its plans.
fn agent_verdict(
    alloc: Global,
    names: &Names,
    texts: &[AgentText],
    agent: u32,
    text: &AgentText,
) -> Result<Option<Verdict>, Starved>
    ensures { IfOk result (λ v. v ≡ spec.agent_verdict names.now texts.now agent text.now) }
{
    if let Some(v) = goals_verdict(alloc, agent, text)? {
        return Ok(Some(v));
    }
    plans_verdict(alloc, names, texts, agent, text)
}

/// Whether each initial goal, each goal of a plan and each goal that is sent has a plan that covers it, and no plans are told or
/// asked for; else the first that fails, by agents, then goals, then plans and their items.
pub fn lint(names: &Names, texts: &AgentTexts) -> Result<Verdict, Starved>
    requires { length texts.now ≡ length names.now }
    ensures { IfOk result (λ v. v ≡ spec.verdict names.now texts.now) }
{
    let alloc = texts.alloc();
    let all = texts.as_slice();
    for k in 0..names.len() {
        let agent = k + 1;
        if let Some(v) = agent_verdict(alloc, names, all, agent, &all[k as usize])? {
            return Ok(v);
        }
    }
    Ok(Verdict::Yes)
}
