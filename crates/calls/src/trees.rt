//! The calls of terms, literals and formulas: sizes, texts, copies, comparisons, what is put into them and their values.

use crate::asked::{CallAsked, number_at};
use crate::out::Out;
use crate::shapes::{ArgumentKind, Does};
use asl_parser_expr::places::Raw;
use asl_term::compare::equal;
use asl_term::compare_expr::{equal_expr, equal_formula, equal_literal, equal_plan, equal_trigger};
use asl_term::copying::{copy, copy_expr, copy_formula, copy_literal, copy_plan};
use asl_term::expr_measure::{expr_depth, expr_size};
use asl_term::measure::{depth, ground, ground_literal, literal_depth, literal_size, size};
use asl_term::syntax::{Expr, Formula, Literal, Plan, Term};
use asl_term::variables::{occurs, variables};
use asl_unify::limits::within;
use asl_unify::seal::seal;
use asl_unify::settle::{settle_formula, settle_literal, settle_term};
use asl_unify::tree::Tree;

/// The largest number that a renaming of a line may give.
const MOST_NUMBER: u64 = 1_000_000;

/// What a call is asked about.
#[derive(Clone, Copy)]
enum Any<'a> {
    Term(&'a Term),
    Literal(&'a Literal),
    Expr(&'a Expr),
    Formula(&'a Formula),
}

/// How many trees a call is asked about. Of a renaming the last argument is the number.
fn count_of(asked: &CallAsked<'_>, body: &[Formula]) -> usize {
    match (asked.shape.kind, asked.shape.does) {
        (ArgumentKind::Body, _) => body.len(),
        (_, Does::Rename) => 1,
        _ if asked.shape.equations => 1,
        _ => asked.raws.len(),
    }
}

/// The tree at a place: an argument of the kind of the call, or a formula of a body.
fn tree_at<'a>(
    asked: &CallAsked<'a>,
    body: &'a [Formula],
    place: usize,
    out: &mut Out,
) -> Option<Any<'a>> {
    match (asked.shape.kind, asked.raws.get(place), body.get(place)) {
        (ArgumentKind::Body, _, Some(formula)) => return Some(Any::Formula(formula)),
        (ArgumentKind::Term, Some(Raw::Plain(term)), _) => return Some(Any::Term(term)),
        (ArgumentKind::Literal, Some(Raw::Plain(Term::Lit(literal))), _) => {
            return Some(Any::Literal(literal));
        }
        (ArgumentKind::Expr, Some(Raw::Logic(expr)), _) => return Some(Any::Expr(expr)),
        (ArgumentKind::Term, _, _) => out.refuse("an argument is no term"),
        (ArgumentKind::Literal, _, _) => out.refuse("an argument is no literal"),
        _ => out.refuse("an argument is no formula"),
    }
    None
}

/// The nodes and the levels of a tree.
fn put_size(tree: Any<'_>, out: &mut Out) {
    let (nodes, levels) = match tree {
        Any::Term(term) => (size(term), depth(term)),
        Any::Literal(literal) => (literal_size(literal), literal_depth(literal)),
        Any::Expr(expr) => (expr_size(expr), expr_depth(expr)),
        Any::Formula(_) => (0, 0),
    };
    out.number(nodes);
    out.counted(b"", levels);
}

fn is_equal(one: Any<'_>, other: Any<'_>) -> bool {
    match (one, other) {
        (Any::Term(one), Any::Term(other)) => equal(one, other),
        (Any::Literal(one), Any::Literal(other)) => equal_literal(one, other),
        (Any::Expr(one), Any::Expr(other)) => equal_expr(one, other),
        (Any::Formula(one), Any::Formula(other)) => equal_formula(one, other),
        _ => false,
    }
}

fn put_tree(tree: Any<'_>, out: &mut Out) {
    match tree {
        Any::Term(term) => out.term(term),
        Any::Literal(literal) => out.literal(literal),
        Any::Expr(expr) => out.expr(expr),
        Any::Formula(formula) => out.formula(formula),
    }
}

/// The text of a copy, which has to be equal.
fn put_again(tree: Any<'_>, again: Any<'_>, out: &mut Out) {
    put_tree(again, out);
    if !is_equal(tree, again) {
        out.put(b" is no copy");
    }
}

fn put_copy(tree: Any<'_>, out: &mut Out) {
    match tree {
        Any::Term(term) => match copy(out.alloc, term) {
            Ok(again) => {
                put_again(tree, Any::Term(&again), out);
                drop(again);
            }
            Err(fault) => out.told(&fault),
        },
        Any::Literal(literal) => match copy_literal(out.alloc, literal) {
            Ok(again) => {
                put_again(tree, Any::Literal(&again), out);
                drop(again);
            }
            Err(fault) => out.told(&fault),
        },
        Any::Expr(expr) => match copy_expr(out.alloc, expr) {
            Ok(again) => {
                put_again(tree, Any::Expr(&again), out);
                drop(again);
            }
            Err(fault) => out.told(&fault),
        },
        Any::Formula(formula) => match copy_formula(out.alloc, formula) {
            Ok(again) => {
                put_again(tree, Any::Formula(&again), out);
                drop(again);
            }
            Err(fault) => out.told(&fault),
        },
    }
}

/// The tree after a substitution, of a term its size where it is asked for.
fn put_applied(asked: &CallAsked<'_>, tree: Any<'_>, out: &mut Out) {
    match tree {
        Any::Term(term) => match term.apply(out.alloc, asked.subst) {
            Ok(made) => {
                match asked.shape.does {
                    Does::AppliedSize => put_size(Any::Term(&made), out),
                    _ => out.term(&made),
                }
                drop(made);
            }
            Err(fault) => out.told(&fault),
        },
        Any::Literal(literal) => match literal.apply(out.alloc, asked.subst) {
            Ok(made) => {
                out.literal(&made);
                drop(made);
            }
            Err(fault) => out.told(&fault),
        },
        Any::Expr(expr) => match expr.apply(out.alloc, asked.subst) {
            Ok(made) => {
                out.expr(&made);
                drop(made);
            }
            Err(fault) => out.told(&fault),
        },
        Any::Formula(formula) => match formula.apply(out.alloc, asked.subst) {
            Ok(made) => {
                out.formula(&made);
                drop(made);
            }
            Err(fault) => out.told(&fault),
        },
    }
}

/// The tree renamed by the last argument.
fn put_renamed(asked: &CallAsked<'_>, tree: Any<'_>, out: &mut Out) {
    let last = asked.raws.len().saturating_sub(1);
    let number = number_at(asked.raws, last, MOST_NUMBER, 1, out);
    match tree {
        Any::Term(term) => match term.rename(out.alloc, number) {
            Ok(made) => {
                out.term(&made);
                drop(made);
            }
            Err(fault) => out.told(&fault),
        },
        Any::Literal(literal) => match literal.rename(out.alloc, number) {
            Ok(made) => {
                out.literal(&made);
                drop(made);
            }
            Err(fault) => out.told(&fault),
        },
        Any::Expr(expr) => match expr.rename(out.alloc, number) {
            Ok(made) => {
                out.expr(&made);
                drop(made);
            }
            Err(fault) => out.told(&fault),
        },
        Any::Formula(formula) => match formula.rename(out.alloc, number) {
            Ok(made) => {
                out.formula(&made);
                drop(made);
            }
            Err(fault) => out.told(&fault),
        },
    }
}

/// The tree with the values of its operations, or the first that has none.
fn put_settled(tree: Any<'_>, out: &mut Out) {
    match tree {
        Any::Term(term) => match settle_term(out.alloc, term) {
            Ok(made) => {
                out.term(&made);
                drop(made);
            }
            Err(fault) => out.told(&fault),
        },
        Any::Literal(literal) => match settle_literal(out.alloc, literal) {
            Ok(made) => {
                out.literal(&made);
                drop(made);
            }
            Err(fault) => out.told(&fault),
        },
        Any::Formula(formula) => match settle_formula(out.alloc, formula) {
            Ok(made) => {
                out.formula(&made);
                drop(made);
            }
            Err(fault) => out.told(&fault),
        },
        Any::Expr(_) => {}
    }
}

fn put_sealed(term: &Term, out: &mut Out) {
    match seal(out.alloc, term) {
        Ok(sealed) => {
            out.term(&sealed);
            drop(sealed);
        }
        Err(fault) => out.told(&fault),
    }
}

fn put_ground(term: &Term, out: &mut Out) {
    out.yes(ground(term));
    match term {
        Term::Lit(literal) if ground_literal(literal) != ground(term) => out.put(b" or not"),
        _ => {}
    }
}

fn put_variables(term: &Term, out: &mut Out) {
    match variables(out.alloc, term) {
        Ok(found) => {
            for var in found.as_slice() {
                out.between(b" ");
                out.var(var);
            }
        }
        Err(fault) => out.told(&fault),
    }
}

/// What a call answers about one tree.
fn put_answer(asked: &CallAsked<'_>, tree: Any<'_>, out: &mut Out) {
    out.between(b" ; ");
    match (asked.shape.does, tree) {
        (Does::Size, _) => put_size(tree, out),
        (Does::Print, _) => put_copy(tree, out),
        (Does::Apply | Does::AppliedSize, _) => put_applied(asked, tree, out),
        (Does::Rename, _) => put_renamed(asked, tree, out),
        (Does::Settle, _) => put_settled(tree, out),
        (Does::Seal, Any::Term(term)) => put_sealed(term, out),
        (Does::Ground, Any::Term(term)) => put_ground(term, out),
        (Does::Within, Any::Term(term)) => out.yes(within(term)),
        (Does::Variables, Any::Term(term)) => put_variables(term, out),
        _ => out.refuse("unknown call"),
    }
}

/// The places of two that are equal.
fn put_places(one: usize, other: usize, out: &mut Out) {
    out.between(b" ");
    out.number(one as u64);
    out.put(b"=");
    out.number(other as u64);
}

/// The places of the trees that equal the one at a place.
fn put_equals<'a>(
    asked: &CallAsked<'a>,
    body: &'a [Formula],
    place: usize,
    tree: Any<'a>,
    out: &mut Out,
) {
    for other in 0..count_of(asked, body) {
        match tree_at(asked, body, other, out) {
            Some(found) if is_equal(tree, found) => put_places(place, other, out),
            _ => {}
        }
    }
}

/// A call of two terms or literals.
fn put_pair(asked: &CallAsked<'_>, one: Any<'_>, other: Any<'_>, out: &mut Out) {
    match (asked.shape.does, one, other) {
        (Does::Same, _, _) => out.yes(is_equal(one, other)),
        (_, Any::Term(Term::Var(var)), Any::Term(term)) => out.yes(occurs(var, term)),
        _ => out.refuse("an argument is no variable"),
    }
}

/// A call of arguments, or of the formulas of a body.
pub fn answer_trees<'a>(asked: &CallAsked<'a>, body: &'a [Formula], out: &mut Out) {
    for place in 0..count_of(asked, body) {
        let Some(tree) = tree_at(asked, body, place, out) else {
            return;
        };
        match asked.shape.does {
            Does::Equal => put_equals(asked, body, place, tree, out),
            Does::Same | Does::Occurs => {
                return match tree_at(asked, body, 1, out) {
                    Some(other) => put_pair(asked, tree, other, out),
                    None => {}
                };
            }
            _ => put_answer(asked, tree, out),
        }
    }
}

/// The places of the plans, or of their triggers, that equal a copy of the one at a place.
fn put_equal_plans(plans: &[Plan], one: usize, again: &Plan, of_triggers: bool, out: &mut Out) {
    for other in 0..plans.len() {
        let is_same = if of_triggers {
            equal_trigger(&again.trigger, &plans[other].trigger)
        } else {
            equal_plan(again, &plans[other])
        };
        if is_same {
            put_places(one, other, out);
        }
    }
}

/// The places of given plans, or of their triggers, that equal copies of them.
pub fn put_plans(plans: &[Plan], of_triggers: bool, out: &mut Out) {
    for one in 0..plans.len() {
        match copy_plan(out.alloc, &plans[one]) {
            Ok(again) => {
                put_equal_plans(plans, one, &again, of_triggers, out);
                drop(again);
            }
            Err(fault) => out.told(&fault),
        }
    }
}
