//! Worlds by their numbers.

ghost use Rattle.std.specs.Prelude.{◌≡◌, ◌<◌, ◌+◌, true, length, slice_get, Some, IfOk};
ghost use Rattle.asl_term.specs.Exprs.{is_ground_literal};
ghost use Rattle.mas_mind.specs.Minds.{are_ground};
ghost use Rattle.mas_mind.specs.declared.mind.Feedback.TheVariants.{Failed};
ghost use Rattle.mas_explore_worlds.specs.Worlds as spec;

use crate::fresh::FreshWorld;
use asl_term::copying::{copy_literal, copy_text};
use asl_term::names::Names;
use asl_term::sequence::{Seq, Starved};
use asl_term::syntax::{Literal, Literals, Text};
use mas_explore_tables::history::{Link, way_to};
use mas_explore_tables::mixing::stirred;
use mas_explore_tables::table::{Known, Table};
use mas_mind::mind::Feedback;
use mas_world::artifact::Artifact;
use mas_world::world::World;
use std::alloc::Global;

/// An action of the agent of this number.
pub struct Doing {
    pub agent: u32,
    pub action: Literal,
}

/// By hand, so that a crate above that lets one go proves nothing of its parts.
impl Drop for Doing {
    fn drop(self) {
        let Doing {
            agent: _,
            action: _,
        } = self;
    }
}

impl Known for Doing {
    fn same(&self, other: &Doing) -> bool {
        self.agent == other.agent && self.action.same(&other.action)
    }

    fn mix(&self) -> u64 {
        stirred(self.agent as u64, self.action.mix())
    }
}

/// The first number is that of the world of the start, and each link has the next one.
pub type Worlds = Table<Link<Doing>>;

/// The name of the agent of this number.
fn name_of(alloc: Global, names: &Names, agent: u32) -> Result<Text, Starved>
    ensures { IfOk result (λ t. t ≡ spec.name_of names.now agent) }
{
    match names.at(agent) {
        Some(name) => copy_text(alloc, name),
        None => Ok(Seq::new(alloc)),
    }
}

/// The action is done, or not.
fn do_once<A: Artifact>(
    alloc: Global,
    names: &Names,
    world: &mut World<A>,
    doing: &Doing,
) -> Result<Feedback, Starved>
    requires { is_ground_literal doing.now.action ≡ true }
    ensures acted { IfOk result (λ f. (f, world.new) ≡ spec.after names.now world.old doing.now) }
    ensures failed { IfOk result (λ f. f ≡ Failed → world.new ≡ world.old) }
{
    let name = name_of(alloc, names, doing.agent)?;
    let feedback = world.act(alloc, &name, &doing.action)?;
    Ok(feedback)
}

/// The world of this number: that of the start goes through its history again.
pub fn world_of<A: Artifact, F: FreshWorld<A>>(
    alloc: Global,
    fresh: &F,
    worlds: &Worlds,
    n: u64,
) -> Result<World<A>, Starved>
    requires fits { spec.Fits worlds.now }
    requires there { n < 1 + length worlds.now }
    ensures { IfOk result (λ w. slice_get (spec.worlds_in (F.agents fresh.now) (F.start fresh.now) worlds.now) n ≡ Some w) }
{
    let way = way_to(alloc, worlds, 1, n)?;
    let mut world = fresh.world(alloc)?;
    let mut places = way.places;
    while let Some(place) = places.pop() {
        let Some(link) = worlds.at(place) else {
            unreachable!()
        };
        do_once(alloc, fresh.names(), &mut world, &link.what)?;
    }
    Ok(world)
}

/// What an agent perceives in the world of this number.
pub fn percepts_in<A: Artifact, F: FreshWorld<A>>(
    alloc: Global,
    fresh: &F,
    worlds: &Worlds,
    n: u64,
    agent: u32,
) -> Result<Literals, Starved>
    requires fits { spec.Fits worlds.now }
    requires there { n < 1 + length worlds.now }
    ensures seen { IfOk result (spec.IsSeen (F.agents fresh.now) (F.start fresh.now) worlds.now n agent) }
    ensures ground { IfOk result (λ r. are_ground r ≡ true) }
{
    let world = world_of(alloc, fresh, worlds, n)?;
    let name = name_of(alloc, fresh.names(), agent)?;
    let percepts = world.percepts(alloc, &name)?;
    Ok(percepts)
}

/// What the world did, and the number of the world after it.
#[derive(Clone, Copy, Drop)]
pub struct Acted {
    pub world: u64,
    pub feedback: Feedback,
}

/// The number of the world after an action that was done.
fn number_after<A: Artifact, F: FreshWorld<A>>(
    alloc: Global,
    fresh: &F,
    worlds: &mut Worlds,
    from: u64,
    doing: Doing,
) -> Result<u64, Starved>
    requires fits { spec.Fits worlds.old }
    requires there { from < 1 + length worlds.old }
    requires ground { is_ground_literal doing.action ≡ true }
    ensures { IfOk result (spec.HasLinked (F.agents fresh.now) (F.start fresh.now) worlds.old worlds.new from doing) }
{
    let _names = fresh.names();
    let place = worlds.enter(alloc, Link { from, what: doing })?;
    Ok(1 + place)
}

/// What became of an action on the world of this number.
fn try_in<A: Artifact, F: FreshWorld<A>>(
    alloc: Global,
    fresh: &F,
    worlds: &Worlds,
    from: u64,
    doing: &Doing,
) -> Result<Feedback, Starved>
    requires fits { spec.Fits worlds.now }
    requires there { from < 1 + length worlds.now }
    requires ground { is_ground_literal doing.now.action ≡ true }
    ensures { IfOk result (spec.DoesAs (F.agents fresh.now) (F.start fresh.now) worlds.now from doing.now) }
{
    let mut world = world_of(alloc, fresh, worlds, from)?;
    let feedback = do_once(alloc, fresh.names(), &mut world, doing)?;
    Ok(feedback)
}

/// This action of this agent.
fn doing_of(alloc: Global, agent: u32, action: &Literal) -> Result<Doing, Starved>
    ensures { IfOk result (λ d. d ≡ record { agent = agent; action = action.now }) }
{
    let action = copy_literal(alloc, action)?;
    Ok(Doing { agent, action })
}

/// The numbers of what the world of this number does on an action.
fn act_by<A: Artifact, F: FreshWorld<A>>(
    alloc: Global,
    fresh: &F,
    worlds: &mut Worlds,
    from: u64,
    doing: Doing,
) -> Result<Acted, Starved>
    requires fits { spec.Fits worlds.old }
    requires there { from < 1 + length worlds.old }
    requires ground { is_ground_literal doing.action ≡ true }
    ensures { IfOk result (spec.HasActed (F.agents fresh.now) (F.start fresh.now) worlds.old worlds.new from doing.agent doing.action) }
{
    let feedback = try_in(alloc, fresh, &*worlds, from, &doing)?;
    match feedback {
        Feedback::Failed => {
            drop(doing);
            Ok(Acted {
                world: from,
                feedback: Feedback::Failed,
            })
        }
        Feedback::Done => {
            let world = number_after(alloc, fresh, worlds, from, doing)?;
            Ok(Acted {
                world,
                feedback: Feedback::Done,
            })
        }
    }
}

/// What the world of this number does on an agent's action. Where it does nothing it keeps its number.
pub fn act_in<A: Artifact, F: FreshWorld<A>>(
    alloc: Global,
    fresh: &F,
    worlds: &mut Worlds,
    from: u64,
    agent: u32,
    action: &Literal,
) -> Result<Acted, Starved>
    requires fits { spec.Fits worlds.old }
    requires there { from < 1 + length worlds.old }
    requires ground { is_ground_literal action.now ≡ true }
    ensures { IfOk result (spec.HasActed (F.agents fresh.now) (F.start fresh.now) worlds.old worlds.new from agent action.now) }
{
    let doing = doing_of(alloc, agent, action)?;
    let acted = act_by(alloc, fresh, worlds, from, doing)?;
    Ok(acted)
}
