//! Whether the items of plans hold.

ghost use Rattle.std.specs.Prelude.{◌≡◌, IfOk};
ghost use Rattle.std.specs.Option.{option_copied};
ghost use Rattle.asl_term.specs.declared.syntax.Term.TheViews.{out-Term};
ghost use Rattle.asl_lint.specs.Items as spec;

use crate::goals::{Receivers, achieved_by, achieves, is_atom, sent_to, tests};
use asl_term::names::Names;
use asl_term::sequence::Starved;
use asl_term::syntax::{AgentText, Arg, ArgOf, Call, Formula, Literal, Plan, Term};
use asl_term_actions::action::{Action, Deed};
use asl_term_actions::named::known;
use std::alloc::Global;

fn is_word(word: &[u8], l: &Literal) -> bool
    ensures { result ≡ spec.is_word word.now l.now }
{
    is_atom(l) && l.functor.as_slice() == word
}

/// Whether what is sent as a goal is no variable and, where it is a literal, is covered.
fn goal_holds(
    alloc: Global,
    texts: &[AgentText],
    to: Receivers,
    content: &Term,
) -> Result<bool, Starved>
    ensures { IfOk result (λ b. b ≡ spec.goal_in texts.now to (out-Term content.now)) }
{
    match content {
        Term::Var(_) => Ok(false),
        Term::Lit(g) => achieved_by(alloc, texts, to, g),
        _ => Ok(true),
    }
}

/// Whether the verb is no variable and neither tells nor asks for plans, and what it sends as a goal is covered.
fn sends(
    alloc: Global,
    texts: &[AgentText],
    to: Receivers,
    verb: &Term,
    content: &Term,
) -> Result<bool, Starved>
    ensures { IfOk result (λ b. b ≡ spec.sends texts.now to verb.now content.now) }
{
    match verb {
        Term::Var(_) => Ok(false),
        Term::Lit(v) => {
            if is_word(b"achieve".as_slice(), v) {
                return goal_holds(alloc, texts, to, content);
            }
            Ok(!(is_word(b"tellHow".as_slice(), v) || is_word(b"askHow".as_slice(), v)))
        }
        _ => Ok(true),
    }
}

/// The term at a place of the arguments.
fn term_at(args: &[Arg], n: usize) -> Option<&Term>
    ensures { option_copied result ≡ spec.term_at args.now n }
{
    match args.get(n) {
        Some(ArgOf::Plain(t)) => Some(t),
        Some(ArgOf::Logic(_)) => None,
        None => None,
    }
}

/// Whether what is sent to a receiver holds.
fn send_holds(
    alloc: Global,
    names: &Names,
    texts: &[AgentText],
    args: &[Arg],
) -> Result<bool, Starved>
    ensures { IfOk result (λ b. b ≡ spec.send_holds names.now texts.now (spec.term_at args.now 0) (spec.term_at args.now 1) (spec.term_at args.now 2)) }
{
    let Some(to) = term_at(args, 0) else {
        return Ok(true);
    };
    let Some(verb) = term_at(args, 1) else {
        return Ok(true);
    };
    let Some(content) = term_at(args, 2) else {
        return Ok(true);
    };
    sends(alloc, texts, sent_to(names, to), verb, content)
}

/// Whether what is sent to all holds.
fn broadcast_holds(alloc: Global, texts: &[AgentText], args: &[Arg]) -> Result<bool, Starved>
    ensures { IfOk result (λ b. b ≡ spec.broadcast_holds texts.now (spec.term_at args.now 0) (spec.term_at args.now 1)) }
{
    let Some(verb) = term_at(args, 0) else {
        return Ok(true);
    };
    let Some(content) = term_at(args, 1) else {
        return Ok(true);
    };
    sends(alloc, texts, Receivers::All, verb, content)
}

/// Whether what a call sends holds. Other calls send nothing.
fn call_holds(alloc: Global, names: &Names, texts: &[AgentText], c: &Call) -> Result<bool, Starved>
    ensures { IfOk result (λ b. b ≡ spec.call_holds names.now texts.now c.now) }
{
    match known(&c.name, c.args.len()) {
        Some(Action::Does(Deed::Send)) => send_holds(alloc, names, texts, c.args.as_slice()),
        Some(Action::Does(Deed::Broadcast)) => broadcast_holds(alloc, texts, c.args.as_slice()),
        Some(_) | None => Ok(true),
    }
}

/// Whether an item of a plan's body holds, for an agent with these plans.
pub fn item_holds(
    alloc: Global,
    names: &Names,
    texts: &[AgentText],
    plans: &[Plan],
    f: &Formula,
) -> Result<bool, Starved>
    ensures { IfOk result (λ b. b ≡ spec.item_holds names.now texts.now plans.now f.now) }
{
    match f {
        Formula::Achieve(g) => achieves(alloc, plans, g),
        Formula::Spawn(g) => achieves(alloc, plans, g),
        Formula::Test(g) => tests(alloc, plans, g),
        Formula::Inner(c) => call_holds(alloc, names, texts, c),
        Formula::Add(_)
        | Formula::Del(_)
        | Formula::Replace(_)
        | Formula::Act(_)
        | Formula::Rel(_) => Ok(true),
    }
}
