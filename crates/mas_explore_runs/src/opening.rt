//! The board and the minds of an origin before the first turn.

ghost use Rattle.std.specs.Prelude.{◌≡◌, [], false, true, length, IfOk};
ghost use Rattle.mas_board.specs.Boards.{opening};
ghost use Rattle.mas_board.specs.Seating.{AreLimits};

use asl_term::names::copy_names;
use asl_term::sequence::{Seq, Starved};
use mas_board::board::{Board, open_board};
use mas_explore::origin::Origin;
use mas_free::steady::Steady;
use mas_mind::limits::MOST_CYCLES;
use mas_world::artifact::Artifact;
use std::alloc::Global;

/// Whether these are limits of a board of so many agents.
pub fn are_limits(agents: u32, cycles: u64, lead: u64) -> bool
    ensures yes { result ≡ true → AreLimits agents cycles lead }
    ensures no { AreLimits agents cycles lead → result ≡ true }
{
    let some = 1 <= agents && agents <= 65_535;
    let short = 1 <= cycles && cycles <= MOST_CYCLES;
    let close = 1 <= lead && lead <= 1000;
    some && short && close
}

/// The board at the start, under these limits.
pub fn board_at_start<M: Steady, A: Artifact, O: Origin<M, A>>(
    alloc: Global,
    origin: &O,
    cycles: u64,
    lead: u64,
) -> Result<Board<A>, Starved>
    requires { AreLimits (length (O.start origin.now).names) cycles lead }
    ensures { let s = O.start origin.now in
        IfOk result (λ b. b ≡ record { state = opening s.names s.world cycles lead; schedule = []; halted = false }) }
{
    let names = copy_names(alloc, origin.names())?;
    match origin.world(alloc) {
        Ok(world) => open_board(alloc, world, names, cycles, lead),
        Err(starved) => {
            drop(names);
            Err(starved)
        }
    }
}

/// The minds at the start.
pub fn minds_at_start<M: Steady, A: Artifact, O: Origin<M, A>>(
    alloc: Global,
    origin: &O,
) -> Result<Seq<M>, Starved>
    ensures { IfOk result (λ minds. minds ≡ (O.start origin.now).minds) }
{
    let agents = origin.names().len();
    let mut minds = Seq::new(alloc);
    for i in 0..agents {
        let mind = origin.mind(alloc, i + 1)?;
        minds.push(mind)?;
    }
    Ok(minds)
}
