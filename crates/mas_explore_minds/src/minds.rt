//! Minds by their numbers.

ghost use Rattle.std.specs.Prelude.{◌≡◌, ◌<◌, ◌+◌, ◌&&◌, false, not, is_some, length, slice_get, Some, IfOk, OnOk};
ghost use Rattle.mas_mind.specs.Minds as kinds;
ghost use Rattle.mas_explore_minds.specs.declared.heard.Heard.TheVariants.{Told};
ghost use Rattle.mas_explore_minds.specs.Minds as spec;

use crate::copies::copy_first;
use crate::fresh::Fresh;
use crate::heard::{Cycle, Heard, Thinking};
use asl_term::copying::copy_literals;
use asl_term::sequence::{Seq, Starved};
use asl_term::syntax::Literals;
use mas_explore_tables::answers::Answered;
use mas_explore_tables::history::{Link, way_to};
use mas_explore_tables::table::Table;
use mas_mind::mind::{Feedback, Input, Messages, Thought};
use mas_mind::thinking::Mind;
use std::alloc::Global;

/// What agents perceived, boxes of messages, and thoughts, each by its number; what befell minds: the first numbers of minds are those of the agents at the
/// start, and each link has the next one; and what came of cycles.
pub struct Minds {
    pub sights: Table<Literals>,
    pub boxes: Table<Messages>,
    pub thoughts: Table<Thought>,
    pub links: Table<Link<Heard>>,
    pub cycles: Answered<Cycle, Thinking>,
}

/// By hand, so that a crate above that lets one go proves nothing of its parts.
impl Drop for Minds {
    fn drop(self) {
        let Minds {
            sights: _,
            boxes: _,
            thoughts: _,
            links: _,
            cycles: _,
        } = self;
    }
}

/// The minds of the start alone.
#[tactic(auto, using(crate::proofs::Fitting::fits_none))]
pub fn no_minds<M: Mind, F: Fresh<M>>(alloc: Global, fresh: &F) -> Minds
    ensures fits { spec.Fits M.kind (F.first fresh.now) result }
    ensures minds { spec.minds_in M.kind (F.first fresh.now) result ≡ F.first fresh.now }
{
    let _agents = fresh.agents();
    Minds {
        sights: Table::new(alloc),
        boxes: Table::new(alloc),
        thoughts: Table::new(alloc),
        links: Table::new(alloc),
        cycles: Answered::new(alloc),
    }
}

/// What a mind is given.
fn input_at(alloc: Global, minds: &Minds, sight: u64, front: u64) -> Result<Input, Starved>
    ensures { IfOk result (λ i. i ≡ spec.input_at minds.now.sights minds.now.boxes sight front) }
{
    let percepts = match minds.sights.at(sight) {
        Some(percepts) => copy_literals(alloc, percepts.as_slice())?,
        None => Seq::new(alloc),
    };
    let message = match minds.boxes.at(front) {
        Some(messages) => copy_first(alloc, messages)?,
        None => None,
    };
    Ok(Input { percepts, message })
}

/// The mind makes this cycle.
fn make_cycle<M: Mind>(
    alloc: Global,
    minds: &Minds,
    mind: &mut M,
    sight: u64,
    front: u64,
) -> Result<Thought, Starved>
    requires { spec.MayThink M.kind minds.now.sights minds.now.boxes mind.old sight front }
    ensures made { let i = spec.input_at minds.now.sights minds.now.boxes sight front in
        IfOk result (λ t. M.kind.cycle mind.old i ≡ record { mind = mind.new; thought = t }) }
    ensures lawful { IfOk result (kinds.AreLawful (M.kind.me mind.old) (M.kind.agents mind.old)) }
{
    let input = input_at(alloc, minds, sight, front)?;
    let thought = mind.think(alloc, input)?;
    Ok(thought)
}

/// This befalls the mind. Its thoughts are let go.
fn hear<M: Mind>(alloc: Global, minds: &Minds, mind: &mut M, what: Heard) -> Result<(), Starved>
    requires { spec.May M.kind minds.now.sights minds.now.boxes mind.old what }
    ensures { OnOk result (mind.new ≡ spec.heard M.kind minds.now.sights minds.now.boxes mind.old what) }
{
    match what {
        Heard::Given { sight, front } => {
            let thought = make_cycle(alloc, minds, mind, sight, front)?;
            drop(thought);
            Ok(())
        }
        Heard::Told(feedback) => {
            mind.took(feedback);
            Ok(())
        }
    }
}

/// The mind of this number: that of its agent at the start goes through its history again.
pub fn mind_of<M: Mind, F: Fresh<M>>(
    alloc: Global,
    fresh: &F,
    minds: &Minds,
    n: u64,
) -> Result<M, Starved>
    requires fits { spec.Fits M.kind (F.first fresh.now) minds.now }
    requires there { n < length (F.first fresh.now) + length minds.now.links }
    ensures { IfOk result (λ m. slice_get (spec.minds_in M.kind (F.first fresh.now) minds.now) n ≡ Some m) }
{
    let agents = fresh.agents() as u64;
    let way = way_to(alloc, &minds.links, agents, n)?;
    let mut mind = fresh.mind(alloc, way.root as u32 + 1)?;
    let mut places = way.places;
    while let Some(place) = places.pop() {
        let Some(link) = minds.links.at(place) else {
            unreachable!()
        };
        hear(alloc, minds, &mut mind, link.what)?;
    }
    Ok(mind)
}

fn is_quiet(thought: &Thought) -> bool
    ensures { result ≡ kinds.is_quiet thought.now }
{
    match thought {
        Thought::Outs(outs) => outs.quiet,
        Thought::Spent => false,
    }
}

/// Whether a cycle with this thought was quiet, and there was no message.
fn is_nothing(thought: &Thought, message: bool) -> bool
    ensures { result ≡ (kinds.is_quiet thought.now && not message) }
{
    is_quiet(thought) && !message
}

/// Whether the box of this number has a message.
fn has_message(minds: &Minds, front: u64) -> bool
    ensures { result ≡ is_some (slice_get (spec.or_none (slice_get minds.now.boxes front)) 0) }
{
    match minds.boxes.at(front) {
        Some(messages) => messages.at(0).is_some(),
        None => false,
    }
}

/// The number of the mind of the start, or of a history, to which this befell.
fn number_linked<M: Mind, F: Fresh<M>>(
    alloc: Global,
    fresh: &F,
    minds: &mut Minds,
    from: u64,
    what: Heard,
) -> Result<u64, Starved>
    requires fits { spec.Fits M.kind (F.first fresh.now) minds.old }
    requires may { spec.MayFollow M.kind (F.first fresh.now) minds.old from what }
    ensures { IfOk result (spec.HasLinked M.kind (F.first fresh.now) minds.old minds.new from what) }
{
    let agents = fresh.agents() as u64;
    let place = minds.links.enter(alloc, Link { from, what })?;
    Ok(agents + place)
}

/// The number of this thought.
fn number_thought<M: Mind, F: Fresh<M>>(
    alloc: Global,
    fresh: &F,
    minds: &mut Minds,
    thought: Thought,
) -> Result<u64, Starved>
    requires fits { spec.Fits M.kind (F.first fresh.now) minds.old }
    ensures grown { IfOk result (λ n. spec.HasGrown M.kind (F.first fresh.now) minds.old minds.new) }
    ensures at { IfOk result (λ n. slice_get minds.new.thoughts n ≡ Some thought) }
{
    let _agents = fresh.agents();
    let n = minds.thoughts.enter(alloc, thought)?;
    Ok(n)
}

/// The number of these percepts.
pub fn number_sight<M: Mind, F: Fresh<M>>(
    alloc: Global,
    fresh: &F,
    minds: &mut Minds,
    sight: Literals,
) -> Result<u64, Starved>
    requires fits { spec.Fits M.kind (F.first fresh.now) minds.old }
    ensures grown { IfOk result (λ n. spec.HasGrown M.kind (F.first fresh.now) minds.old minds.new) }
    ensures at { IfOk result (λ n. slice_get minds.new.sights n ≡ Some sight) }
{
    let _agents = fresh.agents();
    let n = minds.sights.enter(alloc, sight)?;
    Ok(n)
}

/// The number of a box with these messages.
pub fn number_box<M: Mind, F: Fresh<M>>(
    alloc: Global,
    fresh: &F,
    minds: &mut Minds,
    messages: Messages,
) -> Result<u64, Starved>
    requires fits { spec.Fits M.kind (F.first fresh.now) minds.old }
    ensures grown { IfOk result (λ n. spec.HasGrown M.kind (F.first fresh.now) minds.old minds.new) }
    ensures at { IfOk result (λ n. slice_get minds.new.boxes n ≡ Some messages) }
{
    let _agents = fresh.agents();
    let n = minds.boxes.enter(alloc, messages)?;
    Ok(n)
}

/// The number of the mind that was told what became of its action.
pub fn told<M: Mind, F: Fresh<M>>(
    alloc: Global,
    fresh: &F,
    minds: &mut Minds,
    from: u64,
    feedback: Feedback,
) -> Result<u64, Starved>
    requires fits { spec.Fits M.kind (F.first fresh.now) minds.old }
    requires may { spec.MayFollow M.kind (F.first fresh.now) minds.old from (Told feedback) }
    ensures { IfOk result (spec.HasLinked M.kind (F.first fresh.now) minds.old minds.new from (Told feedback)) }
{
    number_linked(alloc, fresh, minds, from, Heard::Told(feedback))
}

/// What comes of a cycle, with the thought itself.
struct Thinks {
    thought: Thought,
    nothing: bool,
}

/// The thought of a cycle, and whether there is nothing in it.
fn thought_of<M: Mind, F: Fresh<M>>(
    alloc: Global,
    fresh: &F,
    minds: &Minds,
    cycle: Cycle,
) -> Result<Thinks, Starved>
    requires fits { spec.Fits M.kind (F.first fresh.now) minds.now }
    requires may { spec.MayCycle M.kind (F.first fresh.now) minds.now cycle }
    ensures { IfOk result (λ t. spec.HasThought M.kind (F.first fresh.now) minds.now cycle t.thought t.nothing) }
{
    let mut mind = mind_of(alloc, fresh, minds, cycle.mind)?;
    let thought = make_cycle(alloc, minds, &mut mind, cycle.sight, cycle.front)?;
    drop(mind);
    let message = has_message(minds, cycle.front);
    let nothing = is_nothing(&thought, message);
    Ok(Thinks { thought, nothing })
}

/// The numbers of what comes of a cycle that was not made before.
fn think_anew<M: Mind, F: Fresh<M>>(
    alloc: Global,
    fresh: &F,
    minds: &mut Minds,
    cycle: Cycle,
) -> Result<Thinking, Starved>
    requires fits { spec.Fits M.kind (F.first fresh.now) minds.old }
    requires may { spec.MayCycle M.kind (F.first fresh.now) minds.old cycle }
    ensures grown { IfOk result (λ r. spec.HasGrown M.kind (F.first fresh.now) minds.old minds.new) }
    ensures comes { IfOk result (spec.ThinksTo M.kind (F.first fresh.now) minds.new cycle) }
{
    let Thinks { thought, nothing } = thought_of(alloc, fresh, &*minds, cycle)?;
    if nothing {
        drop(thought);
        return Ok(Thinking::Nothing);
    }
    let heard = Heard::Given {
        sight: cycle.sight,
        front: cycle.front,
    };
    let thought = number_thought(alloc, fresh, minds, thought)?;
    let mind = number_linked(alloc, fresh, minds, cycle.mind, heard)?;
    Ok(Thinking::Led { mind, thought })
}

/// What comes of a cycle, by numbers. It is made once.
pub fn think<M: Mind, F: Fresh<M>>(
    alloc: Global,
    fresh: &F,
    minds: &mut Minds,
    cycle: Cycle,
) -> Result<Thinking, Starved>
    requires fits { spec.Fits M.kind (F.first fresh.now) minds.old }
    requires may { spec.MayCycle M.kind (F.first fresh.now) minds.old cycle }
    ensures grown { IfOk result (λ r. spec.HasGrown M.kind (F.first fresh.now) minds.old minds.new) }
    ensures comes { IfOk result (spec.ThinksTo M.kind (F.first fresh.now) minds.new cycle) }
{
    if let Some(known) = minds.cycles.get(&cycle) {
        return Ok(known);
    }
    let comes = think_anew(alloc, fresh, minds, cycle)?;
    minds.cycles.note(alloc, cycle, comes)?;
    Ok(comes)
}
