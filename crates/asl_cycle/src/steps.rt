//! The steps of a cycle: each makes the one row of its table that applies.

ghost use Rattle.std.specs.Prelude.{◌≡◌, ◌<◌, ◌≤◌, ◌+◌, ◌-◌, ◌^◌, ◌++◌, [], ◌∷◌, true, None, IfOk, OnOk};
ghost use Rattle.asl_beliefs.specs.Bases.{all_ground};
ghost use Rattle.asl_cycle.specs.declared.rows.TraceLine.TheVariants as line;
ghost use Rattle.asl_exec_circumstance.specs.Circumstance.{seen_around, seen};
ghost use Rattle.asl_goals.specs.Inside.{did, act_inside};
ghost use Rattle.asl_plans.specs.Plans.{relevant};
ghost use Rattle.asl_cycle.specs.Acts.{is_fed};
ghost use Rattle.asl_cycle.specs.Steps as spec;
ghost use Rattle.asl_cycle.specs.Steps.{Wrought};
ghost use Rattle.asl_cycle.specs.inner.Choosing.{AppliedAtMost};

use crate::config::{After, Applied, Intended, Related};
use crate::lines::{put_fall, put_falling, put_took, rule, send, send_all};
use crate::rows::{Sofar, TraceLine};
use asl_beliefs::base::BeliefBase;
use asl_beliefs::removed::BeliefFault;
use asl_exec::clear::clear;
use asl_exec::exec::exec;
use asl_exec_choose::choosing::choose;
use asl_exec_choose::chosen::Chosen;
use asl_exec_circumstance::parts::{Circumstance, Surroundings, fails_as, tell};
use asl_exec_circumstance::peers::Peers;
use asl_exec_circumstance::rows::Row;
use asl_exec_circumstance::went::Went;
use asl_fail::fail::fail;
use asl_goals::acted::Acted;
use asl_goals::inside::act_inside;
use asl_intend::agenda::{Acting, Error, Event};
use asl_intend::event_trigger::EventTrigger;
use asl_intend::stack::Stack;
use asl_kqml::receive::receive;
use asl_plans::library::{Choices, Library};
use asl_resolve::actions::Actions;
use asl_term::copying::copy_literal;
use asl_term::sequence::Starved;
use asl_term::syntax::{Call, Kind, Literals, Trigger};
use mas_mind::mind::{Feedback, Message};
use std::alloc::Global;

fn error_of(own: Option<Error>, other: Error) -> Error
    ensures { result ≡ spec.error_of own other }
{
    match own {
        Some(error) => error,
        None => other,
    }
}

/// The stack of an event, under virtual means.
fn virtual_stack(alloc: Global, event: Event) -> Result<Stack, Starved>
    ensures { IfOk result (λ r. r ≡ spec.virtual event) }
{
    let Event {
        trigger,
        stack,
        error: _,
    } = event;
    let mut stack = stack;
    stack.push_bare(alloc, trigger)?;
    Ok(stack)
}

/// The row of an event for which there is no plan.
fn no_plan<B: BeliefBase, A: Actions>(
    alloc: Global,
    k: &Surroundings<A>,
    p: &mut Circumstance<B>,
    sofar: &mut Sofar,
    row: Row,
    event: Event,
    other: Error,
) -> Result<(), Starved>
    ensures made { let e = seen_around A.solve k.now B.rules p.old in
        let old = seen B.beliefs p.old in
        let new = seen B.beliefs p.new in
        OnOk result (Wrought (spec.no_plan e row old event other (tt {0})) new sofar.old sofar.new (tt {0})) }
    ensures beliefs { p.new.beliefs ≡ p.old.beliefs }
    ensures number { p.new.number ≡ p.old.number }
    ensures acting { OnOk result (p.new.agenda.acting ≡ p.old.agenda.acting) }
{
    let error = error_of(event.error, other);
    let mut stack = virtual_stack(alloc, event)?;
    let fell = fail(alloc, &mut p.agenda, &k.lib, &mut stack, error, p.number)?;
    rule(sofar, row)?;
    put_fall(&mut sofar.lines, error, fell)
}

/// An event of a belief is dropped; else it is one for which there is no plan.
fn drop_or_fail<B: BeliefBase, A: Actions>(
    alloc: Global,
    k: &Surroundings<A>,
    p: &mut Circumstance<B>,
    sofar: &mut Sofar,
    rows: (Row, Row),
    event: Event,
    other: Error,
) -> Result<(), Starved>
    ensures made { let e = seen_around A.solve k.now B.rules p.old in
        let old = seen B.beliefs p.old in
        let new = seen B.beliefs p.new in
        OnOk result (Wrought (spec.dropped_or_fails e rows.0 rows.1 old event event.trigger.kind other (tt {0})) new sofar.old sofar.new (tt {0})) }
    ensures beliefs { p.new.beliefs ≡ p.old.beliefs }
    ensures number { p.new.number ≡ p.old.number }
    ensures acting { OnOk result (p.new.agenda.acting ≡ p.old.agenda.acting) }
{
    let (dropped, failed) = rows;
    match event.trigger.kind() {
        Kind::Belief => rule(sofar, dropped),
        Kind::Achieve | Kind::Test => no_plan(alloc, k, p, sofar, failed, event, other),
    }
}

fn percept_row(events: &[Trigger]) -> Row
    ensures { result ≡ spec.percept_row events.now }
{
    match events {
        [] => Row::Percept0,
        [_, ..] => Row::Percept1,
    }
}

/// The percepts are believed, and those of before no longer.
pub fn percept<B: BeliefBase>(
    alloc: Global,
    p: &mut Circumstance<B>,
    sofar: &mut Sofar,
    percepts: &Literals,
) -> Result<(), Starved>
    requires { all_ground percepts.now ≡ true }
    ensures made { let old = seen B.beliefs p.old in
        let new = seen B.beliefs p.new in
        OnOk result (Wrought (spec.percept old percepts.now) new sofar.old sofar.new (tt {0})) }
    ensures rules { B.rules p.new.beliefs ≡ B.rules p.old.beliefs }
    ensures number { p.new.number ≡ p.old.number }
    ensures acting { OnOk result (p.new.agenda.acting ≡ p.old.agenda.acting) }
{
    match p.beliefs.update_percepts(alloc, percepts) {
        Ok(events) => {
            let row = percept_row(events.as_slice());
            tell(alloc, &mut p.agenda, events)?;
            rule(sofar, row)
        }
        Err(_) => Err(Starved),
    }
}

/// The head of the stack that waits is done, and the stack runs on.
fn feed_done<B: BeliefBase>(
    p: &mut Circumstance<B>,
    sofar: &mut Sofar,
    waits: Acting,
) -> Result<(), Starved>
    ensures made { let old = seen B.beliefs p.old in
        let new = seen B.beliefs p.new in
        OnOk result (Wrought (spec.feed_done old waits) new sofar.old sofar.new (tt {0})) }
    ensures beliefs { p.new.beliefs ≡ p.old.beliefs }
    ensures number { p.new.number ≡ p.old.number }
    ensures free { OnOk result (p.new.agenda.acting ≡ None) }
{
    let Acting { stack, action } = waits;
    let mut stack = stack;
    stack.remove_head();
    p.agenda.acting = None;
    p.agenda.running.push(stack)?;
    rule(sofar, Row::FeedDone)?;
    sofar.lines.push(TraceLine::Done(action))
}

/// The stack that waits fails.
fn feed_fail<B: BeliefBase, A: Actions>(
    alloc: Global,
    k: &Surroundings<A>,
    p: &mut Circumstance<B>,
    sofar: &mut Sofar,
    waits: Acting,
) -> Result<(), Starved>
    ensures made { let e = seen_around A.solve k.now B.rules p.old in
        let old = seen B.beliefs p.old in
        let new = seen B.beliefs p.new in
        OnOk result (Wrought (spec.feed_fail e old waits) new sofar.old sofar.new (tt {0})) }
    ensures beliefs { p.new.beliefs ≡ p.old.beliefs }
    ensures number { p.new.number ≡ p.old.number }
    ensures free { OnOk result (p.new.agenda.acting ≡ None) }
{
    let Acting { stack, action } = waits;
    let mut stack = stack;
    p.agenda.acting = None;
    let error = Error::ActionFailed;
    let fell = fail(alloc, &mut p.agenda, &k.lib, &mut stack, error, p.number)?;
    rule(sofar, Row::FeedFail)?;
    sofar.lines.push(TraceLine::Failed(action))?;
    put_fall(&mut sofar.lines, error, fell)
}

/// What became of the action for which a stack waits, where that was told.
pub fn feed<B: BeliefBase, A: Actions>(
    alloc: Global,
    k: &Surroundings<A>,
    p: &mut Circumstance<B>,
    sofar: &mut Sofar,
    kept: Option<Feedback>,
) -> Result<(), Starved>
    requires { is_fed p.old.agenda.acting kept ≡ true }
    ensures made { let e = seen_around A.solve k.now B.rules p.old in
        let old = seen B.beliefs p.old in
        let new = seen B.beliefs p.new in
        OnOk result (Wrought (spec.feed e old kept) new sofar.old sofar.new (tt {0})) }
    ensures beliefs { p.new.beliefs ≡ p.old.beliefs }
    ensures number { p.new.number ≡ p.old.number }
    ensures free { OnOk result (p.new.agenda.acting ≡ None) }
{
    let Some(feedback) = kept else {
        return rule(sofar, Row::Feed0);
    };
    let Some(waits) = p.agenda.take_action() else {
        return rule(sofar, Row::Feed0);
    };
    match feedback {
        Feedback::Done => feed_done(p, sofar, waits),
        Feedback::Failed => feed_fail(alloc, k, p, sofar, waits),
    }
}

/// The row of a message, where there is one, and whether the cycle goes on. The counter rises by one at most. No other step changes
/// the plans.
pub fn msg<B: BeliefBase, A: Actions>(
    alloc: Global,
    k: &mut Surroundings<A>,
    peers: &Peers,
    p: &mut Circumstance<B>,
    sofar: &mut Sofar,
    message: &Option<Message>,
) -> Result<bool, Starved>
    requires { p.old.number + k.old.budgets.tries + 1 < 2 ^ 64 - 1 }
    ensures made { let e = seen_around A.solve k.old B.rules p.old in
        let old = seen B.beliefs p.old in
        let new = seen B.beliefs p.new in
        IfOk result (λ next. spec.msg e peers.now old sofar.old message.now ≡ spec.moved new sofar.new next) }
    ensures plans { OnOk result (k.new.lib.plans ≡ spec.plans_after k.old.lib.plans p.old.number message.now) }
    ensures rules { B.rules p.new.beliefs ≡ B.rules p.old.beliefs }
    ensures number { p.new.number ≤ p.old.number + 1 }
    ensures acting { OnOk result (p.new.agenda.acting ≡ p.old.agenda.acting) }
    ensures asks { OnOk result (sofar.new.asks ≡ sofar.old.asks) }
    ensures actions { k.new.actions ≡ k.old.actions }
    ensures budgets { k.new.budgets ≡ k.old.budgets }
{
    match message {
        None => {
            rule(sofar, Row::Msg0)?;
            Ok(true)
        }
        Some(m) => {
            let took = receive(alloc, k, peers, p, m)?;
            put_took(alloc, peers, sofar, m, took)
        }
    }
}

/// The oldest event.
pub fn sel_ev<B: BeliefBase>(
    p: &mut Circumstance<B>,
    sofar: &mut Sofar,
) -> Result<Option<Event>, Starved>
    ensures made { let old = seen B.beliefs p.old in
        let new = seen B.beliefs p.new in
        IfOk result (Wrought (spec.sel_ev old) new sofar.old sofar.new) }
    ensures beliefs { p.new.beliefs ≡ p.old.beliefs }
    ensures number { p.new.number ≡ p.old.number }
    ensures acting { OnOk result (p.new.agenda.acting ≡ p.old.agenda.acting) }
{
    match p.agenda.take_event() {
        Some(event) => {
            rule(sofar, Row::SelEv1)?;
            Ok(Some(event))
        }
        None => {
            rule(sofar, Row::SelEv2)?;
            Ok(None)
        }
    }
}

fn irrelevant(add: bool, kind: Kind) -> Error
    ensures { result ≡ spec.irrelevant add kind }
{
    match (add, kind) {
        (true, Kind::Test) => Error::TestFailed,
        _ => Error::NoRelevant,
    }
}

/// The plans that are relevant for the trigger of an event.
fn relevant_plans(
    alloc: Global,
    lib: &Library,
    t: &EventTrigger,
    number: u64,
) -> Result<Choices, Starved>
    ensures { IfOk result (λ r. r ≡ relevant lib.now.plans number t.now) }
{
    match t.built() {
        Some(t) => lib.relevant(alloc, t, number),
        None => {
            let full = t.full(alloc)?;
            let choices = lib.relevant(alloc, &full, number);
            drop(full);
            choices
        }
    }
}

/// The event with its relevant plans. The counter rises by one at most.
pub fn rel_pl<B: BeliefBase, A: Actions>(
    alloc: Global,
    k: &Surroundings<A>,
    p: &mut Circumstance<B>,
    sofar: &mut Sofar,
    event: Event,
) -> Result<Option<Related>, Starved>
    requires { p.old.number ≤ 2 ^ 63 }
    ensures made { let e = seen_around A.solve k.now B.rules p.old in
        let old = seen B.beliefs p.old in
        let new = seen B.beliefs p.new in
        IfOk result (Wrought (spec.rel_pl e old event) new sofar.old sofar.new) }
    ensures beliefs { p.new.beliefs ≡ p.old.beliefs }
    ensures number { p.new.number ≤ p.old.number + 1 }
    ensures acting { OnOk result (p.new.agenda.acting ≡ p.old.agenda.acting) }
{
    let number = p.number;
    let choices = relevant_plans(alloc, &k.lib, &event.trigger, number)?;
    if choices.len() == 0 {
        let other = irrelevant(event.trigger.is_addition(), event.trigger.kind());
        drop_or_fail(alloc, k, p, sofar, (Row::Rel2, Row::Rel3), event, other)?;
        return Ok(None);
    }
    p.number = number + 1;
    rule(sofar, Row::Rel1)?;
    Ok(Some(Related {
        event,
        choices,
        number,
    }))
}

/// The event with the first of its plans whose context is found.
pub fn appl_pl<B: BeliefBase, A: Actions>(
    alloc: Global,
    k: &Surroundings<A>,
    p: &mut Circumstance<B>,
    sofar: &mut Sofar,
    related: Related,
) -> Result<Applied, Starved>
    requires { p.old.number + k.now.budgets.tries < 2 ^ 64 - 1 }
    ensures made { let e = seen_around A.solve k.now B.rules p.old in
        let old = seen B.beliefs p.old in
        let new = seen B.beliefs p.new in
        IfOk result (Wrought (spec.appl_pl e old related) new sofar.old sofar.new) }
    ensures beliefs { p.new.beliefs ≡ p.old.beliefs }
    ensures number { p.new.number ≡ p.old.number }
    ensures acting { OnOk result (p.new.agenda.acting ≡ p.old.agenda.acting) }
    ensures next { IfOk result (AppliedAtMost (p.old.number + k.now.budgets.tries)) }
{
    let Related {
        event,
        choices,
        number,
    } = related;
    let chosen = choose(alloc, k, p, number, choices.as_slice());
    drop(choices);
    match chosen {
        Err(starved) => {
            drop(event);
            Err(starved)
        }
        Ok(Chosen::Plan(means, subst, next)) => {
            let intended = Intended {
                event,
                means,
                subst,
                next,
            };
            match rule(sofar, Row::Appl1) {
                Ok(()) => Ok(Applied::Plan(intended)),
                Err(starved) => {
                    drop(intended);
                    Err(starved)
                }
            }
        }
        Ok(Chosen::Nothing) => {
            let rows = (Row::Appl2, Row::Appl3);
            drop_or_fail(alloc, k, p, sofar, rows, event, Error::NoApplicable)?;
            Ok(Applied::Nothing)
        }
        Ok(Chosen::Spent(spent)) => {
            drop(event);
            rule(sofar, Row::ApplSpent)?;
            sofar.lines.push(TraceLine::Spent(spent))?;
            Ok(Applied::Spent)
        }
    }
}

/// The counter becomes the next fresh number of the solution.
pub fn sel_appl<B: BeliefBase>(
    p: &mut Circumstance<B>,
    sofar: &mut Sofar,
    intended: &Intended,
) -> Result<(), Starved>
    ensures made { let old = seen B.beliefs p.old in
        let new = seen B.beliefs p.new in
        OnOk result (Wrought (spec.sel_appl old intended.now) new sofar.old sofar.new (tt {0})) }
    ensures beliefs { p.new.beliefs ≡ p.old.beliefs }
    ensures number { p.new.number ≡ intended.now.next }
    ensures acting { OnOk result (p.new.agenda.acting ≡ p.old.agenda.acting) }
{
    p.number = intended.next;
    rule(sofar, Row::SelAppl)
}

/// The means, with their solution, go on top of the event's stack, which runs.
pub fn add_im<B: BeliefBase>(
    p: &mut Circumstance<B>,
    sofar: &mut Sofar,
    intended: Intended,
) -> Result<(), Starved>
    ensures made { let old = seen B.beliefs p.old in
        let new = seen B.beliefs p.new in
        OnOk result (Wrought (spec.add_im old intended) new sofar.old sofar.new (tt {0})) }
    ensures beliefs { p.new.beliefs ≡ p.old.beliefs }
    ensures number { p.new.number ≡ p.old.number }
    ensures acting { OnOk result (p.new.agenda.acting ≡ p.old.agenda.acting) }
{
    let Intended {
        event,
        means,
        subst,
        next: _,
    } = intended;
    let Event {
        trigger: _,
        stack,
        error: _,
    } = event;
    let external = stack.len() == 0;
    let mut stack = stack;
    stack.push(means, subst)?;
    p.agenda.running.push(stack)?;
    if external {
        return rule(sofar, Row::ExtEv);
    }
    rule(sofar, Row::IntEv)
}

/// The first of the stacks that run.
pub fn sel_int<B: BeliefBase>(
    p: &mut Circumstance<B>,
    sofar: &mut Sofar,
) -> Result<Option<Stack>, Starved>
    ensures made { let old = seen B.beliefs p.old in
        let new = seen B.beliefs p.new in
        IfOk result (Wrought (spec.sel_int old) new sofar.old sofar.new) }
    ensures beliefs { p.new.beliefs ≡ p.old.beliefs }
    ensures number { p.new.number ≡ p.old.number }
    ensures acting { OnOk result (p.new.agenda.acting ≡ p.old.agenda.acting) }
{
    match p.agenda.running.take_first() {
        Some(stack) => {
            rule(sofar, Row::SelInt1)?;
            Ok(Some(stack))
        }
        None => {
            rule(sofar, Row::SelInt2)?;
            Ok(None)
        }
    }
}

fn after_row(row: Row) -> After
    ensures { result ≡ spec.after_row row }
{
    match row {
        Row::Exec0
        | Row::AchvNew
        | Row::TestGl1
        | Row::AddBel
        | Row::DelBel
        | Row::RepBel
        | Row::RelYes
        | Row::IaOk
        | Row::ClrInt2 => After::Clears,
        _ => After::Ends,
    }
}

/// Puts the lines of what a row did last, and says where it leads.
fn put_went(alloc: Global, sofar: &mut Sofar, went: Went) -> Result<After, Starved>
    ensures lines { OnOk result (sofar.new ≡ record sofar.old { lines = sofar.old.lines ++ line.Rule (spec.row_of went) ∷ spec.lines_of went }) }
    ensures leads { IfOk result (λ a. a ≡ spec.after_of went) }
{
    match went {
        Went::Row(row) => {
            rule(sofar, row)?;
            Ok(after_row(row))
        }
        Went::Say(text) => {
            rule(sofar, Row::IaOk)?;
            sofar.lines.push(TraceLine::Say(text))?;
            Ok(After::Clears)
        }
        Went::Action(action) => {
            rule(sofar, Row::Action)?;
            sofar
                .lines
                .push(TraceLine::Does(copy_literal(alloc, &action)?))?;
            Ok(After::Acts(action))
        }
        Went::Outer(_) => {
            rule(sofar, Row::IaOk)?;
            Ok(After::Ends)
        }
        Went::Failed { row, fall } => {
            rule(sofar, row)?;
            put_fall(&mut sofar.lines, fall.error, fall.fell)?;
            Ok(After::Ends)
        }
        Went::Spent { row, spent } => {
            rule(sofar, row)?;
            sofar.lines.push(TraceLine::Spent(spent))?;
            Ok(After::Spends)
        }
    }
}

/// The row of an internal action on goals, beliefs or other agents, by what it did.
fn of_acted<B: BeliefBase, A: Actions>(
    alloc: Global,
    k: &Surroundings<A>,
    peers: &Peers,
    p: &mut Circumstance<B>,
    sofar: &mut Sofar,
    cur: &mut Stack,
    acted: Acted,
) -> Result<After, Starved>
    ensures made { let e = seen_around A.solve k.now B.rules p.old in
        let old = seen B.beliefs p.old in
        let new = seen B.beliefs p.new in
        IfOk result (λ a. spec.of_acted e peers.now sofar.old (did old sofar.old.asks cur.old acted) acted
        ≡ spec.moved new sofar.new (spec.onward cur.new a)) }
    ensures beliefs { p.new.beliefs ≡ p.old.beliefs }
    ensures number { p.new.number ≡ p.old.number }
    ensures asks { OnOk result (sofar.new.asks ≡ sofar.old.asks) }
{
    match acted {
        Acted::Failed(_) => {
            let went = fails_as(alloc, k, p, cur, Row::IaFail, Error::IaFailed)?;
            put_went(alloc, sofar, went)
        }
        Acted::Asked(m) => {
            rule(sofar, Row::AskOut)?;
            send(alloc, peers, sofar, m)?;
            Ok(After::Ends)
        }
        Acted::Gone(falls) => {
            put_falling(sofar, Row::IaGone, falls.as_slice())?;
            Ok(After::Ends)
        }
        Acted::Ok(falls) => {
            put_falling(sofar, Row::IaOk, falls.as_slice())?;
            Ok(After::Clears)
        }
        Acted::Sent(messages) => {
            rule(sofar, Row::IaOk)?;
            send_all(alloc, peers, sofar, messages)?;
            Ok(After::Clears)
        }
        Acted::Stop => {
            rule(sofar, Row::IaOk)?;
            sofar.lines.push(TraceLine::Stops)?;
            sofar.stop = true;
            Ok(After::Clears)
        }
    }
}

/// The internal action on goals, beliefs or other agents that the head of the current stack is.
fn deed<B: BeliefBase, A: Actions>(
    alloc: Global,
    k: &Surroundings<A>,
    peers: &Peers,
    p: &mut Circumstance<B>,
    sofar: &mut Sofar,
    cur: &mut Stack,
    c: &Call,
) -> Result<After, Starved>
    requires { sofar.old.asks < 2 ^ 64 - 1 }
    ensures made { let e = seen_around A.solve k.now B.rules p.old in
        let old = seen B.beliefs p.old in
        let new = seen B.beliefs p.new in
        IfOk result (λ a. spec.deed e peers.now sofar.old (act_inside e peers.now sofar.old.asks old cur.old c.now)
        ≡ spec.moved new sofar.new (spec.onward cur.new a)) }
    ensures rules { B.rules p.new.beliefs ≡ B.rules p.old.beliefs }
    ensures number { p.new.number ≡ p.old.number }
    ensures asks { OnOk result (sofar.new.asks ≤ sofar.old.asks + 1) }
{
    let acted = act_inside(alloc, k, peers, p, &mut sofar.asks, cur, c)?;
    of_acted(alloc, k, peers, p, sofar, cur, acted)
}

/// The row for the first formula of the current stack. The counter rises by `tries` at most, and at most one number of an
/// ask is used.
pub fn exec_step<B: BeliefBase, A: Actions>(
    alloc: Global,
    k: &Surroundings<A>,
    peers: &Peers,
    p: &mut Circumstance<B>,
    sofar: &mut Sofar,
    cur: &mut Stack,
) -> Result<After, Starved>
    requires room { p.old.number + k.now.budgets.tries < 2 ^ 64 - 1 }
    requires asks { sofar.old.asks < 2 ^ 64 - 1 }
    requires free { p.old.agenda.acting ≡ None }
    ensures made { let e = seen_around A.solve k.now B.rules p.old in
        let old = seen B.beliefs p.old in
        let new = seen B.beliefs p.new in
        IfOk result (λ a. spec.exec_step e peers.now old sofar.old cur.old ≡ spec.moved new sofar.new (spec.onward cur.new a)) }
    ensures rules { B.rules p.new.beliefs ≡ B.rules p.old.beliefs }
    ensures number { p.new.number ≤ p.old.number + k.now.budgets.tries }
    ensures asks { OnOk result (sofar.new.asks ≤ sofar.old.asks + 1) }
{
    match exec(alloc, k, p, cur)? {
        Went::Outer(c) => deed(alloc, k, peers, p, sofar, cur, &c),
        other => put_went(alloc, sofar, other),
    }
}

/// The row for the current stack after a formula.
pub fn clear_step<B: BeliefBase, A: Actions>(
    alloc: Global,
    k: &Surroundings<A>,
    p: &mut Circumstance<B>,
    sofar: &mut Sofar,
    cur: &mut Stack,
) -> Result<After, Starved>
    ensures made { let e = seen_around A.solve k.now B.rules p.old in
        let old = seen B.beliefs p.old in
        let new = seen B.beliefs p.new in
        IfOk result (λ a. Wrought (spec.clear_step e old cur.old) new sofar.old sofar.new (spec.onward cur.new a)) }
    ensures beliefs { p.new.beliefs ≡ p.old.beliefs }
    ensures number { p.new.number ≡ p.old.number }
{
    let went = clear(alloc, k, p, cur)?;
    put_went(alloc, sofar, went)
}
