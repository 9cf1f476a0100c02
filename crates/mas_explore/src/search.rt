//! All states that can be reached.

ghost use Rattle.std.specs.Prelude.{◌≡◌, ◌<◌, ◌≤◌, ◌||◌, [], length, IfOk, OnOk};
ghost use Rattle.mas_explore.specs.Searches as spec;
ghost use Rattle.mas_explore.specs.Searches.{most_states};

use crate::space::Space;
use asl_term::sequence::{Seq, Starved};
use mas_free::steady::Steady;
use mas_free::view::View;
use std::alloc::Global;

/// Whether one of two is so.
fn either(a: bool, b: bool) -> bool
    ensures { result ≡ (a || b) }
{
    a || b
}

/// Notes the number of a state from which there was no move.
fn note(rests: &mut Seq<u64>, state: u64, moved: bool) -> Result<(), Starved>
    ensures { OnOk result (rests.new ≡ spec.noted rests.old state moved) }
{
    if moved { Ok(()) } else { rests.push(state) }
}

/// Follows the moves of all agents from a state: whether there is one. States that are alike in this view may be taken for one.
fn follow_state<M: Steady, S: Space<M>>(
    alloc: Global,
    space: &mut S,
    view: View,
    state: u64,
) -> Result<bool, Starved>
    requires there { state < length (S.met space.old) }
    requires short { state < most_states }
    ensures { IfOk result (spec.HasFollowedAll M.kind view (S.met space.old) (S.met space.new) state) }
{
    let agents = space.agents();
    let mut moved = false;
    for i in 0..agents {
        let made = space.follow(alloc, state, i + 1, view)?;
        moved = either(moved, made);
    }
    Ok(moved)
}

/// Follows the states in their order, at most so many, which is a million or less: whether these are all that were met. The numbers of those from which
/// there is no move are put last.
pub fn follow_all<M: Steady, S: Space<M>>(
    alloc: Global,
    space: &mut S,
    view: View,
    most: u64,
    rests: &mut Seq<u64>,
) -> Result<bool, Starved>
    requires short { most ≤ most_states }
    requires none { rests.old ≡ [] }
    ensures { IfOk result (spec.HasSearched M.kind view (S.met space.old) (S.met space.new) rests.new most) }
{
    for i in 0..most {
        if i >= space.count() {
            return Ok(true);
        }
        let moved = follow_state(alloc, space, view, i)?;
        note(rests, i, moved)?;
    }
    let met = space.count();
    Ok(met <= most)
}
