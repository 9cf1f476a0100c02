//! An artifact of one's own: a counter of pings.

use asl_term::copying::text_of;
use asl_term::measure::ground_literal;
use asl_term::names::Names;
use asl_term::sequence::{Seq, Starved};
use asl_term::syntax::{Literal, LiteralOf, Literals, Text};
use env_file::fault::WorldFault;
use env_file::laws::worlds_open;
use env_file::world::world;
use mas_mind::mind::Feedback;
use mas_world::artifact::Artifact;
use mas_world::segment::OwnSegment;
use std::alloc::Global;
use std::marker::Model;

/// What it is, in the form of a world file.
const TABLE: &[u8] = b"pings(0).
act ping by A : pings(N) -> -pings(N), +pings(N + 1).";

/// Its name, and its table with the facts as they are.
#[derive(Drop)]
pub struct Pings {
    name: Text,
    segment: OwnSegment,
}

impl Model for Pings {
    ghost use Rattle.mas_world.specs.Worlds.{Used};
    ghost use Rattle.asl_term.specs.contracts.syntax.Term as t;
    ghost use Rattle.asl_term.specs.contracts.syntax.Expr as e;
    ghost use Rattle.std.specs.Coded.{codes};

    ghost Value = { Used };

    ghost coded = { Prim.hlevel (codes, t.the_row.coded, e.the_row.coded) };

    ghost view = { λ p. record { name = p.name; segment = p.segment } };
}

impl Pings {
    /// No pings yet, under this name.
    pub fn new(alloc: Global, name: &[u8]) -> Result<Option<Pings>, WorldFault> {
        Pings::of(alloc, name, TABLE)
    }

    /// The same of another table, unless an act of it drops an artifact.
    pub fn of(alloc: Global, name: &[u8], table: &[u8]) -> Result<Option<Pings>, WorldFault> {
        let none = Names::new(alloc)?;
        let read = world(alloc, table, &none);
        drop(none);
        let text = read?;
        worlds_open();
        drop(text.hidden);
        drop(text.uses);
        let Some(segment) = OwnSegment::new(text.acts, text.facts) else {
            return Ok(None);
        };
        match text_of(alloc, name) {
            Ok(name) => Ok(Some(Pings { name, segment })),
            Err(Starved) => {
                drop(segment);
                Err(WorldFault::Memory)
            }
        }
    }
}

impl Artifact for Pings {
    ghost named = { λ p. p.name };

    ghost table = { λ p. p.segment.acts };

    ghost facts = { λ p. p.segment.facts };

    fn name(&self) -> &Text {
        &self.name
    }

    fn observe(&self, out: &mut Literals) -> Result<(), Starved> {
        self.segment.observe(out)
    }

    fn operate(
        &mut self,
        alloc: Global,
        agent: &Text,
        action: &Literal,
    ) -> Result<Feedback, Starved> {
        self.segment.act(alloc, agent, action)
    }
}

/// An action without arguments.
pub fn action(alloc: Global, name: &[u8]) -> Result<Literal, Starved> {
    Ok(LiteralOf {
        neg: false,
        functor: text_of(alloc, name)?,
        args: Seq::new(alloc),
        annots: Seq::new(alloc),
    })
}

/// Whether the ping of an agent is done.
pub fn ping(alloc: Global, pings: &mut Pings, agent: &[u8]) -> Result<bool, Starved> {
    let agent = text_of(alloc, agent)?;
    let action = action(alloc, b"ping")?;
    let done = if ground_literal(&action) {
        pings.operate(alloc, &agent, &action)
    } else {
        Ok(Feedback::Failed)
    };
    drop(action);
    Ok(done? == Feedback::Done)
}
