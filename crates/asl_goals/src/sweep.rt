//! `.succeed_goal` and `.fail_goal`: one fold over the stacks.

ghost use Rattle.std.specs.Prelude.{◌≡◌, ◌++◌, Some, None, if◌then◌else◌, false, drop, IfOk, OnOk};
ghost use Rattle.asl_exec_circumstance.specs.Circumstance as parts;
ghost use Rattle.asl_goals.specs.Goals as goals;

use asl_beliefs::base::BeliefBase;
use asl_exec_circumstance::emptied::emptied;
use asl_exec_circumstance::parts::{Circumstance, Surroundings, fails_as};
use asl_exec_circumstance::rows::{Falls, Row};
use asl_exec_circumstance::went::Went;
use asl_intend::agenda::{Ask, Asks, Error, Event, Running, Stacks};
use asl_intend::stack::Stack;
use asl_resolve::actions::Actions;
use asl_term::sequence::{Seq, Starved};
use asl_term::syntax::Literal;
use asl_term_queue::queue::Queue;
use std::alloc::Global;
use std::mem;

/// What becomes of the lowest means of the goal: it ends as if its body were empty, or it fails.
#[derive(Clone, Copy, Drop)]
pub enum Way {
    Succeed,
    Fail,
}

/// Takes away so many means from the top.
fn pop_all(stack: &mut Stack, n: u64)
    ensures { stack.new ≡ drop n stack.old }
{
    for _ in 0..n {
        stack.pop();
    }
}

/// Pops what stands above the lowest means whose goal the literal names. False where there is none, and then nothing
/// is popped.
pub fn cut_to_goal(alloc: Global, stack: &mut Stack, g: &Literal) -> Result<bool, Starved>
    ensures has { IfOk result (λ has. goals.from_lowest g.now stack.old ≡ (if has then Some stack.new else None)) }
    ensures none { IfOk result (λ has. has ≡ false → stack.new ≡ stack.old) }
{
    let all = stack.len();
    for tested in 0..all {
        let above = all - 1 - tested;
        let named = stack.is_named(alloc, above, g)?;
        if named {
            pop_all(stack, above);
            return Ok(true);
        }
    }
    Ok(false)
}

/// The row of Clr for an empty body, or the row in which a stack fails.
fn ended<B: BeliefBase, A: Actions>(
    alloc: Global,
    k: &Surroundings<A>,
    p: &mut Circumstance<B>,
    way: Way,
    stack: &mut Stack,
) -> Result<Went, Starved>
    ensures made { IfOk result (λ w. goals.treated (parts.seen_around A.solve k.now B.rules p.old) way (parts.seen B.beliefs p.old) stack.old
        ≡ parts.made (parts.seen B.beliefs p.new) stack.new w) }
    ensures beliefs { p.new.beliefs ≡ p.old.beliefs }
    ensures number { p.new.number ≡ p.old.number }
{
    match way {
        Way::Succeed => emptied(alloc, k, p, stack),
        Way::Fail => fails_as(alloc, k, p, stack, Row::IaFail, Error::IaFailed),
    }
}

/// Keeps what the row tells of a stack that failed.
fn note(falls: &mut Falls, went: Went) -> Result<(), Starved>
    ensures { OnOk result (falls.new ≡ falls.old ++ goals.falls_of went) }
{
    match went {
        Went::Failed { row: _, fall } => falls.push(fall),
        _ => Ok(()),
    }
}

/// Ends the lowest means of the goal, which stands on top of the stack, or makes the stack fail. What failed is put
/// last.
pub fn treat<B: BeliefBase, A: Actions>(
    alloc: Global,
    k: &Surroundings<A>,
    p: &mut Circumstance<B>,
    way: Way,
    stack: &mut Stack,
    falls: &mut Falls,
) -> Result<(), Starved>
    ensures made { let x = goals.treated (parts.seen_around A.solve k.now B.rules p.old) way (parts.seen B.beliefs p.old) stack.old in
        OnOk result ((parts.seen B.beliefs p.new ≡ x.parts) × (stack.new ≡ x.cur)
        × (falls.new ≡ falls.old ++ goals.falls_of x.went)) }
    ensures beliefs { p.new.beliefs ≡ p.old.beliefs }
    ensures number { p.new.number ≡ p.old.number }
{
    let went = ended(alloc, k, p, way, stack)?;
    note(falls, went)
}

/// Puts what is left of a stack last, where something is.
fn put_left(list: &mut Stacks, stack: Stack) -> Result<(), Starved>
    ensures { OnOk result (list.new ≡ list.old ++ goals.what_is_left stack) }
{
    if stack.len() == 0 {
        drop(stack);
        return Ok(());
    }
    list.push(stack)
}

/// Puts what is left of a stack last among those that run, where something is.
fn put_back(list: &mut Running, stack: Stack) -> Result<(), Starved>
    ensures { OnOk result (list.new ≡ list.old ++ goals.what_is_left stack) }
{
    if stack.len() == 0 {
        drop(stack);
        return Ok(());
    }
    list.push(stack)
}

/// Treats a stack with the goal, and puts what is left of it to the back of those that run.
fn treat_to_back<B: BeliefBase, A: Actions>(
    alloc: Global,
    k: &Surroundings<A>,
    p: &mut Circumstance<B>,
    way: Way,
    cut: Stack,
    falls: &mut Falls,
) -> Result<(), Starved>
    ensures made { let x = goals.treated (parts.seen_around A.solve k.now B.rules p.old) way (parts.seen B.beliefs p.old) cut in
        OnOk result ((parts.seen B.beliefs p.new ≡ goals.to_back x.parts x.cur)
        × (falls.new ≡ falls.old ++ goals.falls_of x.went)) }
    ensures beliefs { p.new.beliefs ≡ p.old.beliefs }
    ensures number { p.new.number ≡ p.old.number }
{
    let mut stack = cut;
    match treat(alloc, k, p, way, &mut stack, falls) {
        Ok(()) => put_back(&mut p.agenda.running, stack),
        Err(starved) => {
            drop(stack);
            Err(starved)
        }
    }
}

/// Treats a stack with the goal, and puts what is left of it last in a list.
fn treat_in_place<B: BeliefBase, A: Actions>(
    alloc: Global,
    k: &Surroundings<A>,
    p: &mut Circumstance<B>,
    way: Way,
    cut: Stack,
    left: &mut Stacks,
    falls: &mut Falls,
) -> Result<(), Starved>
    ensures made { let x = goals.treated (parts.seen_around A.solve k.now B.rules p.old) way (parts.seen B.beliefs p.old) cut in
        OnOk result ((parts.seen B.beliefs p.new ≡ x.parts)
        × (left.new ≡ left.old ++ goals.what_is_left x.cur) × (falls.new ≡ falls.old ++ goals.falls_of x.went)) }
    ensures beliefs { p.new.beliefs ≡ p.old.beliefs }
    ensures number { p.new.number ≡ p.old.number }
{
    let mut stack = cut;
    match treat(alloc, k, p, way, &mut stack, falls) {
        Ok(()) => put_left(left, stack),
        Err(starved) => {
            drop(stack);
            Err(starved)
        }
    }
}

/// One of the stacks that run: what is left of it keeps its place.
fn sweep_stack<B: BeliefBase, A: Actions>(
    alloc: Global,
    k: &Surroundings<A>,
    p: &mut Circumstance<B>,
    way: Way,
    g: &Literal,
    stack: Stack,
    left: &mut Stacks,
    falls: &mut Falls,
) -> Result<(), Starved>
    ensures made { let s = goals.in_place (parts.seen_around A.solve k.now B.rules p.old) way g.now
        (parts.seen B.beliefs p.old) stack (goals.from_lowest g.now stack) in
        OnOk result ((parts.seen B.beliefs p.new ≡ s.parts)
        × (left.new ≡ left.old ++ s.left) × (falls.new ≡ falls.old ++ s.falls)) }
    ensures beliefs { p.new.beliefs ≡ p.old.beliefs }
    ensures number { p.new.number ≡ p.old.number }
{
    let mut stack = stack;
    match cut_to_goal(alloc, &mut stack, g) {
        Ok(true) => treat_in_place(alloc, k, p, way, stack, left, falls),
        Ok(false) => left.push(stack),
        Err(starved) => {
            drop(stack);
            Err(starved)
        }
    }
}

/// One of the events: it stays, or what is left of its stack goes to the back of those that run.
fn sweep_event<B: BeliefBase, A: Actions>(
    alloc: Global,
    k: &Surroundings<A>,
    p: &mut Circumstance<B>,
    way: Way,
    g: &Literal,
    e: Event,
    left: &mut Seq<Event>,
    falls: &mut Falls,
) -> Result<(), Starved>
    ensures made { let s = goals.taken_out (parts.seen_around A.solve k.now B.rules p.old) way g.now
        (parts.seen B.beliefs p.old) e (goals.from_lowest g.now e.stack) in
        OnOk result ((parts.seen B.beliefs p.new ≡ s.parts)
        × (left.new ≡ left.old ++ s.left) × (falls.new ≡ falls.old ++ s.falls)) }
    ensures beliefs { p.new.beliefs ≡ p.old.beliefs }
    ensures number { p.new.number ≡ p.old.number }
{
    let Event {
        trigger,
        stack,
        error,
    } = e;
    let mut stack = stack;
    match cut_to_goal(alloc, &mut stack, g) {
        Ok(true) => {
            drop(trigger);
            treat_to_back(alloc, k, p, way, stack, falls)
        }
        Ok(false) => left.push(Event {
            trigger,
            stack,
            error,
        }),
        Err(starved) => {
            drop(trigger);
            drop(stack);
            Err(starved)
        }
    }
}

/// One of the asks, in the same way.
fn sweep_ask<B: BeliefBase, A: Actions>(
    alloc: Global,
    k: &Surroundings<A>,
    p: &mut Circumstance<B>,
    way: Way,
    g: &Literal,
    a: Ask,
    left: &mut Asks,
    falls: &mut Falls,
) -> Result<(), Starved>
    ensures made { let s = goals.taken_out (parts.seen_around A.solve k.now B.rules p.old) way g.now
        (parts.seen B.beliefs p.old) a (goals.from_lowest g.now a.stack) in
        OnOk result ((parts.seen B.beliefs p.new ≡ s.parts)
        × (left.new ≡ left.old ++ s.left) × (falls.new ≡ falls.old ++ s.falls)) }
    ensures beliefs { p.new.beliefs ≡ p.old.beliefs }
    ensures number { p.new.number ≡ p.old.number }
{
    let Ask {
        number,
        answer,
        stack,
    } = a;
    let mut stack = stack;
    match cut_to_goal(alloc, &mut stack, g) {
        Ok(true) => {
            drop(answer);
            treat_to_back(alloc, k, p, way, stack, falls)
        }
        Ok(false) => left.push(Ask {
            number,
            answer,
            stack,
        }),
        Err(starved) => {
            drop(answer);
            drop(stack);
            Err(starved)
        }
    }
}

/// The stacks that run.
fn sweep_running<B: BeliefBase, A: Actions>(
    alloc: Global,
    k: &Surroundings<A>,
    p: &mut Circumstance<B>,
    way: Way,
    g: &Literal,
    falls: &mut Falls,
) -> Result<(), Starved>
    ensures made { let e = parts.seen_around A.solve k.now B.rules p.old in
        let old = parts.seen B.beliefs p.old in
        OnOk result ((parts.seen B.beliefs p.new ≡ goals.running_swept e way g.now old)
        × (falls.new ≡ falls.old ++ (goals.sweep_running e way g.now old).falls)) }
    ensures beliefs { p.new.beliefs ≡ p.old.beliefs }
    ensures number { p.new.number ≡ p.old.number }
{
    let running = p.agenda.running.take_all(alloc);
    let mut left = Seq::new(alloc);
    for stack in running.into_vec() {
        sweep_stack(alloc, k, p, way, g, stack, &mut left, falls)?;
    }
    p.agenda.running = Queue::from_seq(left);
    Ok(())
}

/// Those of events. What was posted meanwhile goes behind the events that stay.
fn sweep_events<B: BeliefBase, A: Actions>(
    alloc: Global,
    k: &Surroundings<A>,
    p: &mut Circumstance<B>,
    way: Way,
    g: &Literal,
    falls: &mut Falls,
) -> Result<(), Starved>
    ensures made { let e = parts.seen_around A.solve k.now B.rules p.old in
        let old = parts.seen B.beliefs p.old in
        OnOk result ((parts.seen B.beliefs p.new ≡ goals.events_swept e way g.now old)
        × (falls.new ≡ falls.old ++ (goals.sweep_events e way g.now old).falls)) }
    ensures beliefs { p.new.beliefs ≡ p.old.beliefs }
    ensures number { p.new.number ≡ p.old.number }
{
    let events = p.agenda.events.take_all(alloc);
    let mut left = Seq::new(alloc);
    for event in events.into_vec() {
        sweep_event(alloc, k, p, way, g, event, &mut left, falls)?;
    }
    let posted = p.agenda.events.take_all(alloc);
    left.append_all(posted)?;
    p.agenda.events = Queue::from_seq(left);
    Ok(())
}

/// Those that wait for an answer.
fn sweep_asks<B: BeliefBase, A: Actions>(
    alloc: Global,
    k: &Surroundings<A>,
    p: &mut Circumstance<B>,
    way: Way,
    g: &Literal,
    falls: &mut Falls,
) -> Result<(), Starved>
    ensures made { let e = parts.seen_around A.solve k.now B.rules p.old in
        let old = parts.seen B.beliefs p.old in
        OnOk result ((parts.seen B.beliefs p.new ≡ goals.asks_swept e way g.now old)
        × (falls.new ≡ falls.old ++ (goals.sweep_asks e way g.now old).falls)) }
    ensures beliefs { p.new.beliefs ≡ p.old.beliefs }
    ensures number { p.new.number ≡ p.old.number }
{
    let asks = mem::replace(&mut p.agenda.asks, Seq::new(alloc));
    let mut left = Seq::new(alloc);
    for ask in asks.into_vec() {
        sweep_ask(alloc, k, p, way, g, ask, &mut left, falls)?;
    }
    p.agenda.asks = left;
    Ok(())
}

/// All stacks but the current one: those that run, those of events, and those that wait for an answer. The result says
/// which failed.
pub fn sweep_all<B: BeliefBase, A: Actions>(
    alloc: Global,
    k: &Surroundings<A>,
    p: &mut Circumstance<B>,
    way: Way,
    g: &Literal,
) -> Result<Falls, Starved>
    ensures swept { OnOk result (parts.seen B.beliefs p.new
        ≡ goals.all_swept (parts.seen_around A.solve k.now B.rules p.old) way g.now (parts.seen B.beliefs p.old)) }
    ensures falls { IfOk result (λ f. f ≡ goals.all_falls (parts.seen_around A.solve k.now B.rules p.old) way g.now (parts.seen B.beliefs p.old)) }
    ensures beliefs { p.new.beliefs ≡ p.old.beliefs }
    ensures number { p.new.number ≡ p.old.number }
{
    let mut falls = Seq::new(alloc);
    sweep_running(alloc, k, p, way, g, &mut falls)?;
    sweep_events(alloc, k, p, way, g, &mut falls)?;
    sweep_asks(alloc, k, p, way, g, &mut falls)?;
    Ok(falls)
}
