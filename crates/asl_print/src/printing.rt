//! The texts of clauses, plans and agents.
//!
//! After `Starved` a `write` may leave a part of its text in `out`; `print_agent` leaves `out` as it was.

ghost use Rattle.std.specs.Prelude.{◌≡◌, ◌++◌, IfOk, OnOk, OnErr};
ghost use Rattle.std.specs.List.{flat_map};
ghost use Rattle.asl_print.specs.Agents as spec;

use asl_term::printing_expr::{print_expr, print_formula, print_literal};
use asl_term::sequence::{Seq, Starved};
use asl_term::syntax::{AgentText, Clause, Expr, Formula, Kind, Literal, Plan, Text, Trigger};
use std::alloc::Global;

fn write_belief(l: &Literal, out: &mut Text) -> Result<(), Starved>
    ensures { OnOk result (out.new ≡ out.old ++ spec.belief_text l.now) }
{
    print_literal(l, out)?;
    out.append(b".\n")
}

fn write_rule(r: &Clause, out: &mut Text) -> Result<(), Starved>
    ensures { OnOk result (out.new ≡ out.old ++ spec.rule_text r.now) }
{
    print_literal(&r.head, out)?;
    out.append(b" :- ")?;
    print_expr(&r.body, out)?;
    out.append(b".\n")
}

fn write_goal(l: &Literal, out: &mut Text) -> Result<(), Starved>
    ensures { OnOk result (out.new ≡ out.old ++ spec.goal_text l.now) }
{
    out.append(b"!")?;
    print_literal(l, out)?;
    out.append(b".\n")
}

/// Appends a label, where there is one, and a blank.
pub fn write_label(label: &Option<Text>, out: &mut Text) -> Result<(), Starved>
    ensures { OnOk result (out.new ≡ out.old ++ spec.label_text label.now) }
{
    match label {
        None => Ok(()),
        Some(label) => {
            out.append(b"@")?;
            out.append(label.as_slice())?;
            out.append(b" ")
        }
    }
}

fn write_change(add: bool, out: &mut Text) -> Result<(), Starved>
    ensures { OnOk result (out.new ≡ out.old ++ spec.change_text add) }
{
    if add {
        out.append(b"+")
    } else {
        out.append(b"-")
    }
}

fn write_kind(kind: Kind, out: &mut Text) -> Result<(), Starved>
    ensures { OnOk result (out.new ≡ out.old ++ spec.kind_text kind) }
{
    match kind {
        Kind::Belief => Ok(()),
        Kind::Achieve => out.append(b"!"),
        Kind::Test => out.append(b"?"),
    }
}

/// Appends a trigger.
pub fn write_trigger(t: &Trigger, out: &mut Text) -> Result<(), Starved>
    ensures { OnOk result (out.new ≡ out.old ++ spec.trigger_text t.now) }
{
    write_change(t.add, out)?;
    write_kind(t.kind, out)?;
    print_literal(&t.lit, out)
}

/// Appends a context, where it is not `true`.
pub fn write_context(e: &Expr, out: &mut Text) -> Result<(), Starved>
    ensures { OnOk result (out.new ≡ out.old ++ spec.context_text e.now) }
{
    match e {
        Expr::True => Ok(()),
        _ => {
            out.append(b" : ")?;
            print_expr(e, out)
        }
    }
}

fn write_body(body: &[Formula], out: &mut Text) -> Result<(), Starved>
    ensures { OnOk result (out.new ≡ out.old ++ spec.body_text body.now) }
{
    match body.split_first() {
        None => Ok(()),
        Some((first, rest)) => {
            out.append(b" <- ")?;
            print_formula(first, out)?;
            'items: for f in rest {
                out.append(b"; ")?;
                print_formula(f, out)?;
            }
            Ok(())
        }
    }
}

fn write_plan(p: &Plan, out: &mut Text) -> Result<(), Starved>
    ensures { OnOk result (out.new ≡ out.old ++ spec.plan_text p.now) }
{
    write_label(&p.label, out)?;
    write_trigger(&p.trigger, out)?;
    write_context(&p.context, out)?;
    write_body(p.body.as_slice(), out)?;
    out.append(b".\n")
}

fn write_line(p: &Plan, out: &mut Text) -> Result<(), Starved>
    ensures { OnOk result (out.new ≡ out.old ++ spec.plan_line p.now) }
{
    write_label(&p.label, out)?;
    write_trigger(&p.trigger, out)?;
    write_context(&p.context, out)?;
    write_body(p.body.as_slice(), out)?;
    out.append(b".")
}

/// The text of a plan in one line, without the line feed.
pub fn plan_line(alloc: Global, p: &Plan) -> Result<Text, Starved>
    ensures { IfOk result (λ t. t ≡ spec.plan_line p.now) }
{
    let mut text = Seq::new(alloc);
    write_line(p, &mut text)?;
    Ok(text)
}

fn write_beliefs(all: &[Literal], out: &mut Text) -> Result<(), Starved>
    ensures { OnOk result (out.new ≡ out.old ++ flat_map spec.belief_text all.now) }
{
    'beliefs: for l in all {
        write_belief(l, out)?;
    }
    Ok(())
}

fn write_rules(all: &[Clause], out: &mut Text) -> Result<(), Starved>
    ensures { OnOk result (out.new ≡ out.old ++ flat_map spec.rule_text all.now) }
{
    'rules: for r in all {
        write_rule(r, out)?;
    }
    Ok(())
}

fn write_goals(all: &[Literal], out: &mut Text) -> Result<(), Starved>
    ensures { OnOk result (out.new ≡ out.old ++ flat_map spec.goal_text all.now) }
{
    'goals: for l in all {
        write_goal(l, out)?;
    }
    Ok(())
}

fn write_plans(all: &[Plan], out: &mut Text) -> Result<(), Starved>
    ensures { OnOk result (out.new ≡ out.old ++ flat_map spec.plan_text all.now) }
{
    'plans: for p in all {
        write_plan(p, out)?;
    }
    Ok(())
}

fn write_agent(a: &AgentText, out: &mut Text) -> Result<(), Starved>
    ensures { OnOk result (out.new ≡ out.old ++ spec.agent_text a.now) }
{
    write_beliefs(a.beliefs.as_slice(), out)?;
    write_rules(a.rules.as_slice(), out)?;
    write_goals(a.goals.as_slice(), out)?;
    write_plans(a.plans.as_slice(), out)
}

/// Appends the text of an agent, whole or not at all.
pub fn print_agent(a: &AgentText, out: &mut Text) -> Result<(), Starved>
    ensures ok { OnOk result (out.new ≡ out.old ++ spec.agent_text a.now) }
    ensures err { OnErr result (out.new ≡ out.old) }
{
    let alloc = out.alloc();
    let mut text = Seq::new(alloc);
    write_agent(a, &mut text)?;
    out.append(text.as_slice())
}
