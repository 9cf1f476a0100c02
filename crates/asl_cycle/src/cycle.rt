//! A cycle: from each step to the end.

ghost use Rattle.std.specs.Prelude.{◌≡◌, ◌≤◌, ◌<◌, ◌^◌, ◌+◌, ◌-◌, ◌*◌, true, None, IfOk, OnOk};
ghost use Rattle.asl_exec_circumstance.specs.Circumstance.{seen_around, seen};
ghost use Rattle.asl_beliefs.specs.Bases.{all_ground};
ghost use Rattle.asl_cycle.specs.Acts.{is_fed};
ghost use Rattle.asl_cycle.specs.Cycle as spec;
ghost use Rattle.asl_cycle.specs.Steps as steps;
ghost use Rattle.asl_cycle.specs.Steps.{plans_after};
ghost use Rattle.asl_cycle.specs.inner.Choosing as choosing;
ghost use Rattle.mas_mind.specs.Limits.{most_tries};

use crate::config::{After, Applied, Intended, Related};
use crate::kept::take_kept;
use crate::lines::rule;
use crate::rows::{Lines, Sofar, TraceLine};
use crate::steps::{
    add_im, appl_pl, clear_step, exec_step, feed, msg, percept, rel_pl, sel_appl, sel_ev, sel_int,
};
use asl_beliefs::base::BeliefBase;
use asl_exec_circumstance::parts::{Circumstance, Surroundings};
use asl_exec_circumstance::peers::Peers;
use asl_exec_circumstance::rows::Row;
use asl_intend::agenda::Event;
use asl_intend::stack::Stack;
use asl_resolve::actions::Actions;
use asl_term::sequence::{Seq, Starved};
use asl_term::syntax::Literal;
use mas_mind::mind::{Feedback, Input, Message, Outs, Thought};
use std::alloc::Global;

/// The number of the next ask after a whole cycle, its lines and its thought.
#[derive(Drop)]
pub struct Finished {
    pub asks: u64,
    pub lines: Lines,
    pub thought: Thought,
}

fn quiet_row(row: Row) -> bool
    ensures { result ≡ spec.quiet_row row }
{
    match row {
        Row::Percept0 | Row::Feed0 | Row::Msg0 | Row::SelEv2 | Row::SelInt2 => true,
        _ => false,
    }
}

fn quiet_line(line: &TraceLine) -> bool
    ensures { result ≡ spec.quiet_line line.now }
{
    match line {
        TraceLine::Rule(row) => quiet_row(*row),
        _ => false,
    }
}

fn quiet_lines(lines: &[TraceLine]) -> bool
    ensures { result ≡ spec.quiet_lines lines.now }
{
    for line in lines {
        if !quiet_line(line) {
            return false;
        }
    }
    true
}

fn ends(sofar: Sofar, action: Option<Literal>, quiet: bool) -> Finished
    ensures asks { result.asks ≡ sofar.asks }
    ensures lines { result.lines ≡ sofar.lines }
    ensures thought { result.thought ≡ spec.outs action quiet sofar }
{
    let Sofar {
        lines,
        messages,
        stop,
        asks,
    } = sofar;
    Finished {
        asks,
        lines,
        thought: Thought::Outs(Outs {
            action,
            messages,
            stop,
            quiet,
        }),
    }
}

fn spends(sofar: Sofar) -> Finished
    ensures asks { result.asks ≡ sofar.asks }
    ensures lines { result.lines ≡ sofar.lines }
    ensures thought { result.thought ≡ Thought.Spent }
{
    let Sofar {
        lines,
        messages: _,
        stop: _,
        asks,
    } = sofar;
    Finished {
        asks,
        lines,
        thought: Thought::Spent,
    }
}

/// Row after row of Clr, while the stack gets shorter.
#[tactic(auto, using(crate::proofs::Clears::more))]
fn from_clr<B: BeliefBase, A: Actions>(
    alloc: Global,
    k: &Surroundings<A>,
    p: &mut Circumstance<B>,
    sofar: Sofar,
    cur: Stack,
) -> Result<Finished, Starved>
    ensures made { let e = seen_around A.solve k.now B.rules p.old in
        let old = seen B.beliefs p.old in
        let new = seen B.beliefs p.new in
        IfOk result (λ f. spec.clears e old sofar cur ≡ record { parts = new; asks = f.asks; lines = f.lines; thought = f.thought }) }
    ensures rules { B.rules p.new.beliefs ≡ B.rules p.old.beliefs }
    ensures number { p.new.number ≡ p.old.number }
    ensures asks { IfOk result (λ f. f.asks ≡ sofar.asks) }
{
    let mut sofar = sofar;
    let mut cur = cur;
    let mut left = cur.len();
    'rows: loop {
        match clear_step(alloc, k, p, &mut sofar, &mut cur)? {
            After::Clears => {
                if left == 0 {
                    return Ok(ends(sofar, None, false));
                }
                left -= 1;
            }
            After::Ends => return Ok(ends(sofar, None, false)),
            After::Acts(action) => return Ok(ends(sofar, Some(action), false)),
            After::Spends => return Ok(spends(sofar)),
        }
    }
}

fn from_exec<B: BeliefBase, A: Actions>(
    alloc: Global,
    k: &Surroundings<A>,
    peers: &Peers,
    p: &mut Circumstance<B>,
    sofar: Sofar,
    cur: Stack,
) -> Result<Finished, Starved>
    requires room { p.old.number + k.now.budgets.tries < 2 ^ 64 - 1 }
    requires asks { sofar.asks < 2 ^ 64 - 1 }
    requires free { p.old.agenda.acting ≡ None }
    ensures made { let e = seen_around A.solve k.now B.rules p.old in
        let old = seen B.beliefs p.old in
        let new = seen B.beliefs p.new in
        IfOk result (λ f. spec.from_exec e peers.now old sofar cur ≡ record { parts = new; asks = f.asks; lines = f.lines; thought = f.thought }) }
    ensures rules { B.rules p.new.beliefs ≡ B.rules p.old.beliefs }
    ensures number { p.new.number ≤ p.old.number + k.now.budgets.tries }
    ensures asks { IfOk result (λ f. f.asks ≤ sofar.asks + 1) }
{
    let mut sofar = sofar;
    let mut cur = cur;
    match exec_step(alloc, k, peers, p, &mut sofar, &mut cur)? {
        After::Clears => from_clr(alloc, k, p, sofar, cur),
        After::Ends => Ok(ends(sofar, None, false)),
        After::Acts(action) => Ok(ends(sofar, Some(action), false)),
        After::Spends => Ok(spends(sofar)),
    }
}

fn from_sel_int<B: BeliefBase, A: Actions>(
    alloc: Global,
    k: &Surroundings<A>,
    peers: &Peers,
    p: &mut Circumstance<B>,
    sofar: Sofar,
) -> Result<Finished, Starved>
    requires room { p.old.number + k.now.budgets.tries < 2 ^ 64 - 1 }
    requires asks { sofar.asks < 2 ^ 64 - 1 }
    requires free { p.old.agenda.acting ≡ None }
    ensures made { let e = seen_around A.solve k.now B.rules p.old in
        let old = seen B.beliefs p.old in
        let new = seen B.beliefs p.new in
        IfOk result (λ f. spec.from_sel_int e peers.now old sofar ≡ record { parts = new; asks = f.asks; lines = f.lines; thought = f.thought }) }
    ensures rules { B.rules p.new.beliefs ≡ B.rules p.old.beliefs }
    ensures number { p.new.number ≤ p.old.number + k.now.budgets.tries }
    ensures asks { IfOk result (λ f. f.asks ≤ sofar.asks + 1) }
{
    let mut sofar = sofar;
    match sel_int(p, &mut sofar)? {
        Some(cur) => from_exec(alloc, k, peers, p, sofar, cur),
        None => {
            let quiet = quiet_lines(sofar.lines.as_slice());
            Ok(ends(sofar, None, quiet))
        }
    }
}

fn from_sel_appl<B: BeliefBase, A: Actions>(
    alloc: Global,
    k: &Surroundings<A>,
    peers: &Peers,
    p: &mut Circumstance<B>,
    sofar: Sofar,
    intended: Intended,
) -> Result<Finished, Starved>
    requires room { intended.next + k.now.budgets.tries < 2 ^ 64 - 1 }
    requires asks { sofar.asks < 2 ^ 64 - 1 }
    requires free { p.old.agenda.acting ≡ None }
    ensures made { let e = seen_around A.solve k.now B.rules p.old in
        let old = seen B.beliefs p.old in
        let new = seen B.beliefs p.new in
        IfOk result (λ f. spec.from_sel_appl e peers.now old sofar intended ≡ record { parts = new; asks = f.asks; lines = f.lines; thought = f.thought }) }
    ensures rules { B.rules p.new.beliefs ≡ B.rules p.old.beliefs }
    ensures number { p.new.number ≤ intended.next + k.now.budgets.tries }
    ensures asks { IfOk result (λ f. f.asks ≤ sofar.asks + 1) }
{
    let mut sofar = sofar;
    sel_appl(p, &mut sofar, &intended)?;
    add_im(p, &mut sofar, intended)?;
    from_sel_int(alloc, k, peers, p, sofar)
}

fn from_appl_pl<B: BeliefBase, A: Actions>(
    alloc: Global,
    k: &Surroundings<A>,
    peers: &Peers,
    p: &mut Circumstance<B>,
    sofar: Sofar,
    related: Related,
) -> Result<Finished, Starved>
    requires room { p.old.number + 2 * k.now.budgets.tries < 2 ^ 64 - 1 }
    requires asks { sofar.asks < 2 ^ 64 - 1 }
    requires free { p.old.agenda.acting ≡ None }
    ensures made { let e = seen_around A.solve k.now B.rules p.old in
        let old = seen B.beliefs p.old in
        let new = seen B.beliefs p.new in
        IfOk result (λ f. spec.from_appl_pl e peers.now old sofar related ≡ record { parts = new; asks = f.asks; lines = f.lines; thought = f.thought }) }
    ensures rules { B.rules p.new.beliefs ≡ B.rules p.old.beliefs }
    ensures number { p.new.number ≤ p.old.number + 2 * k.now.budgets.tries }
    ensures asks { IfOk result (λ f. f.asks ≤ sofar.asks + 1) }
{
    let mut sofar = sofar;
    match appl_pl(alloc, k, p, &mut sofar, related)? {
        Applied::Plan(intended) => from_sel_appl(alloc, k, peers, p, sofar, intended),
        Applied::Nothing => from_sel_int(alloc, k, peers, p, sofar),
        Applied::Spent => Ok(spends(sofar)),
    }
}

/// The row by which means come on a stack.
fn add_row(stack: &Stack) -> Row
    ensures { result ≡ steps.add_im_row stack.now }
{
    if stack.len() == 0 {
        Row::ExtEv
    } else {
        Row::IntEv
    }
}

/// The rows SelAppl and AddIM for means that are on the stack of their event already, and what comes then.
fn from_stack<B: BeliefBase, A: Actions>(
    alloc: Global,
    k: &Surroundings<A>,
    peers: &Peers,
    p: &mut Circumstance<B>,
    sofar: Sofar,
    stack: Stack,
    row: Row,
) -> Result<Finished, Starved>
    requires room { p.old.number + k.now.budgets.tries < 2 ^ 64 - 1 }
    requires asks { sofar.asks < 2 ^ 64 - 1 }
    requires free { p.old.agenda.acting ≡ None }
    ensures made { let e = seen_around A.solve k.now B.rules p.old in
        let old = seen B.beliefs p.old in
        let new = seen B.beliefs p.new in
        IfOk result (λ f. choosing.from_stack e peers.now old sofar stack row ≡ record { parts = new; asks = f.asks; lines = f.lines; thought = f.thought }) }
    ensures rules { B.rules p.new.beliefs ≡ B.rules p.old.beliefs }
    ensures number { p.new.number ≤ p.old.number + k.now.budgets.tries }
    ensures asks { IfOk result (λ f. f.asks ≤ sofar.asks + 1) }
{
    let mut sofar = sofar;
    rule(&mut sofar, Row::SelAppl)?;
    p.agenda.running.push(stack)?;
    rule(&mut sofar, row)?;
    from_sel_int(alloc, k, peers, p, sofar)
}

fn from_rel_pl<B: BeliefBase, A: Actions>(
    alloc: Global,
    k: &Surroundings<A>,
    peers: &Peers,
    p: &mut Circumstance<B>,
    sofar: Sofar,
    event: Event,
) -> Result<Finished, Starved>
    requires tries { k.now.budgets.tries ≤ most_tries }
    requires room { p.old.number ≤ 2 ^ 63 }
    requires asks { sofar.asks < 2 ^ 64 - 1 }
    requires free { p.old.agenda.acting ≡ None }
    ensures made { let e = seen_around A.solve k.now B.rules p.old in
        let old = seen B.beliefs p.old in
        let new = seen B.beliefs p.new in
        IfOk result (λ f. spec.from_rel_pl e peers.now old sofar event ≡ record { parts = new; asks = f.asks; lines = f.lines; thought = f.thought }) }
    ensures rules { B.rules p.new.beliefs ≡ B.rules p.old.beliefs }
    ensures number { p.new.number ≤ p.old.number + (1 + 2 * k.now.budgets.tries) }
    ensures asks { IfOk result (λ f. f.asks ≤ sofar.asks + 1) }
{
    let mut sofar = sofar;
    match rel_pl(alloc, k, p, &mut sofar, event)? {
        Some(related) => from_appl_pl(alloc, k, peers, p, sofar, related),
        None => from_sel_int(alloc, k, peers, p, sofar),
    }
}

/// The rows RelPl and ApplPl for means that are on the stack of their event already, and what comes then.
fn from_taken<B: BeliefBase, A: Actions>(
    alloc: Global,
    k: &Surroundings<A>,
    peers: &Peers,
    p: &mut Circumstance<B>,
    sofar: Sofar,
    stack: Stack,
    row: Row,
) -> Result<Finished, Starved>
    requires room { p.old.number + 1 + k.now.budgets.tries < 2 ^ 64 - 1 }
    requires asks { sofar.asks < 2 ^ 64 - 1 }
    requires free { p.old.agenda.acting ≡ None }
    ensures made { let e = seen_around A.solve k.now B.rules p.old in
        let old = seen B.beliefs p.old in
        let new = seen B.beliefs p.new in
        IfOk result (λ f. choosing.from_taken e peers.now old sofar stack row ≡ record { parts = new; asks = f.asks; lines = f.lines; thought = f.thought }) }
    ensures rules { B.rules p.new.beliefs ≡ B.rules p.old.beliefs }
    ensures number { p.new.number ≤ p.old.number + 1 + k.now.budgets.tries }
    ensures asks { IfOk result (λ f. f.asks ≤ sofar.asks + 1) }
{
    let mut sofar = sofar;
    p.number += 1;
    rule(&mut sofar, Row::Rel1)?;
    rule(&mut sofar, Row::Appl1)?;
    from_stack(alloc, k, peers, p, sofar, stack, row)
}

/// An event, from the row RelPl on.
fn from_event<B: BeliefBase, A: Actions>(
    alloc: Global,
    k: &Surroundings<A>,
    peers: &Peers,
    p: &mut Circumstance<B>,
    sofar: Sofar,
    event: Event,
) -> Result<Finished, Starved>
    requires tries { k.now.budgets.tries ≤ most_tries }
    requires room { p.old.number ≤ 2 ^ 63 }
    requires asks { sofar.asks < 2 ^ 64 - 1 }
    requires free { p.old.agenda.acting ≡ None }
    ensures made { let e = seen_around A.solve k.now B.rules p.old in
        let old = seen B.beliefs p.old in
        let new = seen B.beliefs p.new in
        IfOk result (λ f. spec.from_rel_pl e peers.now old sofar event ≡ record { parts = new; asks = f.asks; lines = f.lines; thought = f.thought }) }
    ensures rules { B.rules p.new.beliefs ≡ B.rules p.old.beliefs }
    ensures number { p.new.number ≤ p.old.number + (1 + 2 * k.now.budgets.tries) }
    ensures asks { IfOk result (λ f. f.asks ≤ sofar.asks + 1) }
{
    let mut event = event;
    let row = add_row(&event.stack);
    let taken = take_kept(alloc, k, p, &mut event)?;
    if taken {
        let Event {
            trigger,
            stack,
            error: _,
        } = event;
        drop(trigger);
        return from_taken(alloc, k, peers, p, sofar, stack, row);
    }
    from_rel_pl(alloc, k, peers, p, sofar, event)
}

fn from_sel_ev<B: BeliefBase, A: Actions>(
    alloc: Global,
    k: &Surroundings<A>,
    peers: &Peers,
    p: &mut Circumstance<B>,
    sofar: Sofar,
) -> Result<Finished, Starved>
    requires tries { k.now.budgets.tries ≤ most_tries }
    requires room { p.old.number ≤ 2 ^ 63 }
    requires asks { sofar.asks < 2 ^ 64 - 1 }
    requires free { p.old.agenda.acting ≡ None }
    ensures made { let e = seen_around A.solve k.now B.rules p.old in
        let old = seen B.beliefs p.old in
        let new = seen B.beliefs p.new in
        IfOk result (λ f. spec.from_sel_ev e peers.now old sofar ≡ record { parts = new; asks = f.asks; lines = f.lines; thought = f.thought }) }
    ensures rules { B.rules p.new.beliefs ≡ B.rules p.old.beliefs }
    ensures number { p.new.number ≤ p.old.number + (1 + 2 * k.now.budgets.tries) }
    ensures asks { IfOk result (λ f. f.asks ≤ sofar.asks + 1) }
{
    let mut sofar = sofar;
    match sel_ev(p, &mut sofar)? {
        Some(event) => from_event(alloc, k, peers, p, sofar, event),
        None => from_sel_int(alloc, k, peers, p, sofar),
    }
}

fn from_msg<B: BeliefBase, A: Actions>(
    alloc: Global,
    k: &mut Surroundings<A>,
    peers: &Peers,
    p: &mut Circumstance<B>,
    sofar: Sofar,
    message: &Option<Message>,
) -> Result<Finished, Starved>
    requires tries { k.old.budgets.tries ≤ most_tries }
    requires room { p.old.number < 2 ^ 63 }
    requires asks { sofar.asks < 2 ^ 64 - 1 }
    requires free { p.old.agenda.acting ≡ None }
    ensures made { let e = seen_around A.solve k.old B.rules p.old in
        let old = seen B.beliefs p.old in
        let new = seen B.beliefs p.new in
        IfOk result (λ f. spec.from_msg e peers.now old sofar message.now ≡ record { parts = new; asks = f.asks; lines = f.lines; thought = f.thought }) }
    ensures plans { OnOk result (k.new.lib.plans ≡ plans_after k.old.lib.plans p.old.number message.now) }
    ensures rules { B.rules p.new.beliefs ≡ B.rules p.old.beliefs }
    ensures number { p.new.number ≤ p.old.number + (2 + 2 * k.old.budgets.tries) }
    ensures asks { IfOk result (λ f. f.asks ≤ sofar.asks + 1) }
    ensures actions { k.new.actions ≡ k.old.actions }
    ensures budgets { k.new.budgets ≡ k.old.budgets }
{
    let mut sofar = sofar;
    if msg(alloc, k, peers, p, &mut sofar, message)? {
        return from_sel_ev(alloc, k, peers, p, sofar);
    }
    Ok(spends(sofar))
}

/// A whole cycle, with the number of the next ask, and the feedback that was told since the one before: where a stack waits
/// for its action, there is some. The counter rises by at most two and twice the tries, and at most one number of an ask is used.
pub fn cycle<B: BeliefBase, A: Actions>(
    alloc: Global,
    k: &mut Surroundings<A>,
    peers: &Peers,
    p: &mut Circumstance<B>,
    asks: u64,
    kept: Option<Feedback>,
    input: &Input,
) -> Result<Finished, Starved>
    requires ground { all_ground input.now.percepts ≡ true }
    requires tries { k.old.budgets.tries ≤ most_tries }
    requires room { p.old.number < 2 ^ 63 }
    requires asks { asks < 2 ^ 63 }
    requires fed { is_fed p.old.agenda.acting kept ≡ true }
    ensures made { let e = seen_around A.solve k.old B.rules p.old in
        let old = seen B.beliefs p.old in
        let new = seen B.beliefs p.new in
        IfOk result (λ f. spec.cycle e peers.now old asks kept input.now ≡ record { parts = new; asks = f.asks; lines = f.lines; thought = f.thought }) }
    ensures plans { OnOk result (k.new.lib.plans ≡ plans_after k.old.lib.plans p.old.number input.now.message) }
    ensures rules { B.rules p.new.beliefs ≡ B.rules p.old.beliefs }
    ensures number { p.new.number ≤ p.old.number + (2 + 2 * k.old.budgets.tries) }
    ensures asks { IfOk result (λ f. f.asks ≤ asks + 1) }
    ensures actions { k.new.actions ≡ k.old.actions }
    ensures budgets { k.new.budgets ≡ k.old.budgets }
{
    let mut sofar = Sofar {
        lines: Seq::new(alloc),
        messages: Seq::new(alloc),
        stop: false,
        asks,
    };
    sofar.lines.reserve_exact(12)?;
    percept(alloc, p, &mut sofar, &input.percepts)?;
    feed(alloc, k, p, &mut sofar, kept)?;
    from_msg(alloc, k, peers, p, sofar, &input.message)
}
