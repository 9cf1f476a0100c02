//! Rules and plans.
//!
//! After `Starved` a part of the text may stand in `out`.

ghost use Rattle.std.specs.Prelude.{◌≡◌, ◌++◌, codes, OnOk};
ghost use Rattle.look_lines.specs.Lines.{line, part};
ghost use Rattle.look_text.specs.Plans as spec;

use asl_plans::entry::OwnedPlan;
use asl_print::printing::{plan_line, write_context, write_label, write_trigger};
use asl_term::names::Names;
use asl_term::printing_expr::print_expr;
use asl_term::sequence::Starved;
use asl_term::syntax::{Clause, Plan, Text};
use look_lines::lines::{name_of, put_head};
use look_lines::pieces::{Piece, put_pieces};
use std::alloc::Global;

/// Appends the line of a rule.
#[tactic(auto, unfolding(look_lines::specs::Lines::line))]
fn put_rule(out: &mut Text, r: &Clause) -> Result<(), Starved>
    ensures { OnOk result (out.new ≡ out.old ++ spec.rule_line r.now) }
{
    let head = [
        Piece::Bytes(b"  "),
        Piece::Literal(&r.head),
        Piece::Bytes(b" :- "),
    ];
    put_pieces(out, &head)?;
    print_expr(&r.body, out)?;
    out.append(b"\n")
}

/// Appends the part of the rules.
pub fn put_rules(alloc: Global, out: &mut Text, all: &[Clause]) -> Result<(), Starved>
    ensures { OnOk result (out.new ≡ out.old ++ part (codes "rules") spec.rule_line all.now) }
{
    put_head(alloc, out, b"rules", all.len() as u64)?;
    'rules: for r in all {
        put_rule(out, r)?;
    }
    Ok(())
}

fn owner_name(names: &Names, owner: u32) -> &[u8]
    ensures { result.now ≡ spec.owner_name names.now owner }
{
    if owner == 0 {
        return b"self";
    }
    name_of(names, owner)
}

fn put_owners(out: &mut Text, names: &Names, owners: &[u32]) -> Result<(), Starved>
    ensures { OnOk result (out.new ≡ out.old ++ spec.owners_text names.now owners.now) }
{
    'owners: for o in owners {
        let name = Piece::Bytes(owner_name(names, *o));
        put_pieces(out, &[Piece::Bytes(b" "), name])?;
    }
    Ok(())
}

/// Appends a plan without its body.
#[tactic(auto, unfolding(crate::specs::Plans::plan_head))]
fn put_plan_head(out: &mut Text, p: &Plan) -> Result<(), Starved>
    ensures { OnOk result (out.new ≡ out.old ++ spec.plan_head p.now) }
{
    write_label(&p.label, out)?;
    write_trigger(&p.trigger, out)?;
    write_context(&p.context, out)
}

/// Whether one of the owners is the agent's own source.
fn is_own(owners: &[u32]) -> bool
    ensures { result ≡ spec.is_own owners.now }
{
    owners.contains(&0)
}

/// With what the line of a plan begins: one that others alone told is told so.
fn lead(own: bool) -> &'static [u8]
    ensures { result.now ≡ spec.lead own }
{
    if own { b"  from" } else { b"  told  from" }
}

/// Appends what is shown of a plan: of one of the agent's own source its head.
fn put_shown(alloc: Global, out: &mut Text, own: bool, p: &Plan) -> Result<(), Starved>
    ensures { OnOk result (out.new ≡ out.old ++ spec.shown_plan own p.now) }
{
    if own {
        return put_plan_head(out, p);
    }
    let text = plan_line(alloc, p)?;
    let put = out.append(text.as_slice());
    drop(text);
    put
}

/// Appends the line of a plan.
#[tactic(auto, using(crate::proofs::Owned::plan_put))]
fn put_plan(alloc: Global, out: &mut Text, names: &Names, e: &OwnedPlan) -> Result<(), Starved>
    ensures { OnOk result (out.new ≡ out.old ++ spec.plan_line names.now e.now) }
{
    let owners = e.owners.as_slice();
    let own = is_own(owners);
    out.append(lead(own))?;
    put_owners(out, names, owners)?;
    out.append(b"  ")?;
    put_shown(alloc, out, own, &e.plan)?;
    out.append(b"\n")
}

/// Appends the part of the plans, of an agent among these names.
pub fn put_plans(
    alloc: Global,
    out: &mut Text,
    names: &Names,
    all: &[OwnedPlan],
) -> Result<(), Starved>
    ensures { OnOk result (out.new ≡ out.old ++ part (codes "plans") (spec.plan_line names.now) all.now) }
{
    put_head(alloc, out, b"plans", all.len() as u64)?;
    'plans: for e in all {
        put_plan(alloc, out, names, e)?;
    }
    Ok(())
}
