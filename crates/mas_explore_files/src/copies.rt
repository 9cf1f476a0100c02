//! The text of a world once more.

ghost use Rattle.std.specs.Prelude.{◌≡◌, IfOk};

use asl_term::copying::{copy, copy_expr, copy_literal, copy_literals};
use asl_term::names::copy_names;
use asl_term::sequence::{Seq, Starved};
use asl_term::syntax::{Expr, Exprs};
use mas_world::acts::{Act, Acts, WorldText};
use std::alloc::Global;

fn copy_exprs(alloc: Global, exprs: &[Expr]) -> Result<Exprs, Starved>
    ensures { IfOk result (λ r. r ≡ exprs.now) }
{
    let mut r = Seq::new(alloc);
    for e in exprs {
        r.push(copy_expr(alloc, e)?)?;
    }
    Ok(r)
}

fn copy_act(alloc: Global, act: &Act) -> Result<Act, Starved>
    ensures { IfOk result (λ r. r ≡ act.now) }
{
    Ok(Act {
        head: copy_literal(alloc, &act.head)?,
        by: copy(alloc, &act.by)?,
        guard: copy_exprs(alloc, act.guard.as_slice())?,
        dels: copy_literals(alloc, act.dels.as_slice())?,
        adds: copy_literals(alloc, act.adds.as_slice())?,
        drops: copy_names(alloc, &act.drops)?,
    })
}

fn copy_acts(alloc: Global, acts: &[Act]) -> Result<Acts, Starved>
    ensures { IfOk result (λ r. r ≡ acts.now) }
{
    let mut r = Seq::new(alloc);
    for act in acts {
        r.push(copy_act(alloc, act)?)?;
    }
    Ok(r)
}

/// An equal text.
pub fn copy_world(alloc: Global, text: &WorldText) -> Result<WorldText, Starved>
    ensures { IfOk result (λ r. r ≡ text.now) }
{
    Ok(WorldText {
        facts: copy_literals(alloc, text.facts.as_slice())?,
        hidden: copy_names(alloc, &text.hidden)?,
        uses: copy_names(alloc, &text.uses)?,
        acts: copy_acts(alloc, text.acts.as_slice())?,
    })
}
