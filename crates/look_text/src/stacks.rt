//! Stacks of means.
//!
//! After `Starved` a part of the text may stand in `out`.

ghost use Rattle.std.specs.Prelude.{◌≡◌, ◌++◌, drop, length, OnOk};
ghost use Rattle.asl_intend.specs.Bodies.{body_at};
ghost use Rattle.look_text.specs.Stacks as spec;

use asl_intend::stack::Stack;
use asl_print::printing::write_trigger;
use asl_term::printing_expr::print_formula;
use asl_term::sequence::Starved;
use asl_term::syntax::Text;
use asl_unify::limits::TermFault;
use std::alloc::Global;

/// Appends the formula at a place of the means at a place, where there is one.
#[tactic(auto, using(crate::proofs::Stacked::small_item, crate::proofs::Stacked::large_item))]
fn put_item(alloc: Global, out: &mut Text, stack: &Stack, k: u64, j: u64) -> Result<(), Starved>
    ensures { OnOk result (out.new ≡ out.old ++ spec.item_at (body_at stack.now k) j) }
{
    match stack.formula_at(alloc, k, j) {
        Ok(Some(f)) => {
            let put = print_formula(&f, out);
            drop(f);
            put
        }
        Ok(None) => Ok(()),
        Err(TermFault::TermLimit) => out.append(b".."),
        Err(TermFault::Memory) => Err(Starved),
    }
}

/// Appends the formulas behind the first one.
#[tactic(auto, using(crate::proofs::Stacked::later_step, crate::proofs::Stacked::later_end))]
fn put_later(alloc: Global, out: &mut Text, stack: &Stack, k: u64, all: u64) -> Result<(), Starved>
    requires { all ≡ length (body_at stack.now k) }
    ensures { OnOk result (out.new ≡ out.old ++ spec.later_text (drop 1 (body_at stack.now k))) }
{
    'items: for j in 1..all {
        out.append(b"; ")?;
        put_item(alloc, out, stack, k, j)?;
    }
    Ok(())
}

/// Appends what is left of the means at a place.
#[tactic(auto, using(crate::proofs::Stacked::nothing_left, crate::proofs::Stacked::something_left))]
fn put_left(alloc: Global, out: &mut Text, stack: &Stack, k: u64) -> Result<(), Starved>
    ensures { OnOk result (out.new ≡ out.old ++ spec.left_text (body_at stack.now k)) }
{
    let all = stack.left(k);
    if all == 0 {
        return Ok(());
    }
    out.append(b"      left ")?;
    put_item(alloc, out, stack, k, 0)?;
    put_later(alloc, out, stack, k, all)?;
    out.append(b"\n")
}

/// Appends the trigger of the means at a place.
#[tactic(auto, using(crate::proofs::Stacked::small_goal, crate::proofs::Stacked::large_goal))]
fn put_goal(alloc: Global, out: &mut Text, stack: &Stack, k: u64) -> Result<(), Starved>
    ensures { OnOk result (out.new ≡ out.old ++ spec.goal_at stack.now k) }
{
    match stack.bounded_trigger(alloc, k) {
        Ok(Some(t)) => {
            let put = write_trigger(&t, out);
            drop(t);
            put
        }
        Ok(None) => Ok(()),
        Err(TermFault::TermLimit) => out.append(b".."),
        Err(TermFault::Memory) => Err(Starved),
    }
}

/// Appends the means at a place.
#[tactic(auto, unfolding(crate::specs::Stacks::means_at))]
fn put_means(alloc: Global, out: &mut Text, stack: &Stack, k: u64) -> Result<(), Starved>
    ensures { OnOk result (out.new ≡ out.old ++ spec.means_at stack.now k) }
{
    out.append(b"    ")?;
    put_goal(alloc, out, stack, k)?;
    out.append(b"\n")?;
    put_left(alloc, out, stack, k)
}

/// Appends the means of a stack, the top first.
#[tactic(auto, using(crate::proofs::Stacked::stack_step, crate::proofs::Stacked::stack_end))]
pub fn put_stack(alloc: Global, out: &mut Text, stack: &Stack) -> Result<(), Starved>
    ensures { OnOk result (out.new ≡ out.old ++ spec.stack_text stack.now) }
{
    'means: for k in 0..stack.len() {
        put_means(alloc, out, stack, k)?;
    }
    Ok(())
}
