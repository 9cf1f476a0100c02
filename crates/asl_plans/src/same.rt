//! Whether two plans are the same, and which plans are meant.

ghost use Rattle.std.specs.Prelude.{◌≡◌};
ghost use Rattle.asl_plans.specs.Same as spec;
ghost use Rattle.asl_plans.specs.Libraries as libraries;

use crate::entry::Which;
use asl_term::compare::same_text;
use asl_term::compare_expr::equal_plan;
use asl_term::syntax::{Plan, Text};

/// Whether they are the same plan, with the same label.
pub fn same_plan(a: &Plan, b: &Plan) -> bool
    ensures { result ≡ spec.same_plan a.now b.now }
{
    equal_plan(a, b)
}

/// Whether a plan has a label.
fn has_label(l: &Text, p: &Plan) -> bool
    ensures { result ≡ libraries.has_label l.now p.now.label }
{
    match &p.label {
        None => false,
        Some(label) => same_text(l, label),
    }
}

/// Whether a plan is meant.
pub fn is_meant(which: &Which, p: &Plan) -> bool
    ensures { result ≡ libraries.is_meant which.now p.now }
{
    match which {
        Which::Same(q) => same_plan(q, p),
        Which::Label(l) => has_label(l, p),
    }
}
