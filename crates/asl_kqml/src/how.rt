//! The rows TellHow, UntellHow and AskHow: messages about plans.

ghost use Rattle.std.specs.Prelude.{◌≡◌, ◌++◌, IfOk, OnOk, option_to_list};
ghost use Rattle.asl_exec_circumstance.specs.Circumstance as parts;
ghost use Rattle.asl_kqml.specs.Contents as contents;
ghost use Rattle.asl_kqml.specs.Receive as spec;
ghost use Rattle.asl_kqml.specs.inner.Hows as inner;

use crate::asks::{list, reply_by};
use crate::content::{plans_of, which_of};
use crate::took::{Took, by};
use asl_beliefs::base::BeliefBase;
use asl_exec_circumstance::parts::{Circumstance, Surroundings, goal_trigger};
use asl_exec_circumstance::rows::Row;
use asl_plans::library::{Choice, Library};
use asl_print::printing::plan_line;
use asl_resolve::actions::Actions;
use asl_term::copying::copy_literal;
use asl_term::sequence::{Seq, Starved};
use asl_term::syntax::{Kind, Literal, Term, Terms};
use mas_mind::mind::{Message, Verb};
use std::alloc::Global;

/// A list with more items passes the limits.
const MOST: u64 = 9999;

/// TellHow, or Ignore where the content is no plans.
pub fn tell_how(alloc: Global, lib: &mut Library, from: u32, content: &Term) -> Result<Row, Starved>
    ensures plans { OnOk result (lib.new.plans ≡ (spec.tell_how from lib.old.plans (contents.plans_of content.now)).plans) }
    ensures row { IfOk result (λ r. r ≡ (spec.tell_how from lib.old.plans (contents.plans_of content.now)).row) }
{
    match plans_of(alloc, content)? {
        None => Ok(Row::Ignore),
        Some(plans) => {
            lib.add_all(plans, from)?;
            Ok(Row::TellHow)
        }
    }
}

/// UntellHow, or Ignore where the content is neither a plan nor an atom.
pub fn untell_how(
    alloc: Global,
    lib: &mut Library,
    from: u32,
    content: &Term,
) -> Result<Row, Starved>
    ensures plans { OnOk result (lib.new.plans ≡ (spec.untell_how from lib.old.plans (contents.which_of content.now)).plans) }
    ensures row { IfOk result (λ r. r ≡ (spec.untell_how from lib.old.plans (contents.which_of content.now)).row) }
{
    match which_of(alloc, content)? {
        None => Ok(Row::Ignore),
        Some(which) => {
            let dropped = lib.drop_plan(&which, from);
            drop(which);
            dropped?;
            Ok(Row::UntellHow)
        }
    }
}

/// Puts the text of a chosen plan last.
fn put_text(alloc: Global, lib: &Library, c: &Choice, texts: &mut Terms) -> Result<(), Starved>
    ensures { OnOk result (texts.new ≡ texts.old ++ spec.string_items (option_to_list (spec.choice_text lib.now.plans c.now))) }
{
    match lib.plan(c.plan) {
        None => Ok(()),
        Some(plan) => {
            let text = plan_line(alloc, plan)?;
            texts.push(Term::Str(text))
        }
    }
}

/// The texts of the chosen plans, in order, unless they are more than a list may have.
fn texts_of(alloc: Global, lib: &Library, choices: &[Choice]) -> Result<Option<Terms>, Starved>
    ensures { IfOk result (inner.AreTexts (spec.texts_of lib.now.plans choices.now)) }
{
    let mut texts = Seq::new(alloc);
    for c in choices {
        put_text(alloc, lib, c, &mut texts)?;
        if texts.len() > MOST {
            return Ok(None);
        }
    }
    Ok(Some(texts))
}

/// The list of the texts of the chosen plans. A list past the limits is empty.
fn listed(alloc: Global, lib: &Library, choices: &[Choice]) -> Result<Term, Starved>
    ensures { IfOk result (λ t. t ≡ spec.limited_strings (spec.texts_of lib.now.plans choices.now)) }
{
    match texts_of(alloc, lib, choices)? {
        Some(items) => Ok(list(items)),
        None => Ok(list(Seq::new(alloc))),
    }
}

/// The texts of the plans that are relevant for a goal.
fn how_answer(alloc: Global, lib: &Library, number: u64, g: &Literal) -> Result<Term, Starved>
    ensures { IfOk result (λ t. t ≡ spec.how_answer lib.now.plans number g.now) }
{
    let event = goal_trigger(Kind::Achieve, copy_literal(alloc, g)?);
    let choices = lib.relevant(alloc, &event, number);
    drop(event);
    let choices = choices?;
    let t = listed(alloc, lib, choices.as_slice());
    drop(choices);
    t
}

/// To an ask without a number plans are told as plans.
fn how_verb(m: &Message) -> Verb
    ensures { result ≡ spec.how_verb m.now }
{
    if m.ask == 0 {
        Verb::TellHow
    } else {
        Verb::Tell
    }
}

/// AskHow, or Ignore where there is no goal.
pub fn asks_how<B: BeliefBase, A: Actions>(
    alloc: Global,
    k: &Surroundings<A>,
    me: u32,
    p: &Circumstance<B>,
    m: &Message,
    g: &Option<Literal>,
) -> Result<Took, Starved>
    ensures { let q = parts.seen B.beliefs p.now in
        IfOk result (λ t. spec.asks_how (parts.seen_around A.solve k.now B.rules p.now) me m.now q g.now
        ≡ spec.received q t) }
{
    match g {
        None => Ok(by(alloc, Row::Ignore)),
        Some(g) => {
            let t = how_answer(alloc, &k.lib, p.number, g)?;
            let reply = reply_by(alloc, how_verb(m), me, m, &t);
            drop(t);
            Ok(Took::Row {
                row: Row::AskHow,
                reply: reply?,
                falls: Seq::new(alloc),
            })
        }
    }
}
