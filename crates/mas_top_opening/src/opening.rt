//! The board and the minds of a source before the first turn.

ghost use Rattle.std.specs.Prelude.{◌≡◌, [], false, IfOk, IfSome};
ghost use Rattle.mas_top_opening.specs.Fits.{CanOpen, CanRun};
ghost use Rattle.mas_top_opening.specs.Opening.{no_text, objects_of, opening_board, opening_minds, opening_world, setup};
ghost use Rattle.mas_report.specs.Limits.{IsWithin};

use crate::minds::open_minds;
use asl_cycle::agent::Agent;
use asl_term::names::Names;
use asl_term::sequence::{Seq, Starved};
use mas_board::board::{Board, open_board};
use mas_mind::thinking::Mind;
use mas_report::options::Options;
use mas_top_files::sources::{Source, SourceParts};
use mas_world::acts::WorldText;
use mas_world::artifact::Artifact;
use mas_world::opening::open_world;
use mas_world::world::World;
use std::alloc::Global;

/// A board on which nothing has happened, and the minds of its agents.
#[derive(Drop)]
pub struct Opened<M: Mind, A: Artifact> {
    pub board: Board<A>,
    pub minds: Seq<M>,
}

/// A world without facts, in which no action is done.
fn empty_text(alloc: Global) -> Result<WorldText, Starved>
    ensures { IfOk result (λ t. t ≡ no_text) }
{
    Ok(WorldText {
        facts: Seq::new(alloc),
        hidden: Names::new(alloc)?,
        uses: Names::new(alloc)?,
        acts: Seq::new(alloc),
    })
}

/// The world at the start.
fn world_at_start<A: Artifact>(
    alloc: Global,
    text: Option<WorldText>,
    artifacts: Vec<A>,
) -> Result<World<A>, Starved>
    requires { IfSome text (CanOpen (objects_of A.named A.table A.facts artifacts.items)) }
    ensures { IfOk result (λ w. w ≡ opening_world (objects_of A.named A.table A.facts artifacts.items) text) }
{
    match text {
        Some(text) => open_world(alloc, text, artifacts),
        None => open_world(alloc, empty_text(alloc)?, artifacts),
    }
}

/// The board and the minds of a source at the start.
#[tactic(auto, using(crate::proofs::Starts::limits))]
pub fn open_source<A: Artifact>(
    alloc: Global,
    o: &Options,
    source: Source,
    artifacts: Vec<A>,
) -> Result<Opened<Agent, A>, Starved>
    requires within { IsWithin o.now }
    requires can { CanRun (objects_of A.named A.table A.facts artifacts.items) source }
    ensures board { let u = setup o.now (objects_of A.named A.table A.facts artifacts.items) in
        IfOk result (λ p. p.board ≡ record { state = opening_board u source; schedule = []; halted = false }) }
    ensures minds { IfOk result (λ p. p.minds ≡ opening_minds o.now source) }
{
    let SourceParts {
        names,
        roles,
        world,
    } = source.into_parts();
    let minds = open_minds(alloc, o, &names, roles.as_slice());
    drop(roles);
    let board = match world_at_start(alloc, world, artifacts) {
        Ok(world) => open_board(alloc, world, names, o.cycles, o.lead),
        Err(starved) => {
            drop(names);
            Err(starved)
        }
    };
    match minds {
        Err(starved) => {
            drop(board);
            Err(starved)
        }
        Ok(minds) => match board {
            Ok(board) => Ok(Opened { board, minds }),
            Err(starved) => {
                drop(minds);
                Err(starved)
            }
        },
    }
}
