//! States of which one stands for those like it.

ghost use Rattle.std.specs.Prelude.{◌-◌, Some, length, IfOk, OnOk};
ghost use Rattle.mas_mind.specs.Minds.{IsAgent};
ghost use Rattle.mas_explore_likes.specs.Likes.{AreMet};
ghost use Rattle.mas_explore_space.specs.Held.{start_of, Fits};
ghost use Rattle.mas_explore_space.specs.Rows as rows;
ghost use Rattle.mas_explore_space.specs.Settling as spec;

use crate::held::Held;
use crate::row::{Row, Seat, with_seat};
use asl_term::sequence::Starved;
use mas_explore_likes::likened::Likened;
use mas_explore_likes::likes::{Likes, Liking, settle};
use mas_explore_minds::fresh::Fresh;
use mas_explore_worlds::fresh::FreshWorld;
use mas_free::view::View;
use mas_world::artifact::Artifact;
use std::alloc::Global;

/// The number of a mind that may stand for that of this seat.
fn settle_mind<M: Likened, A: Artifact, F: Fresh<M> + FreshWorld<A>>(
    alloc: Global,
    fresh: &F,
    held: &Held,
    likes: &mut Likes<M>,
    most: u64,
    row: &Row,
    a: u32,
    view: View,
    seat: Seat,
) -> Result<u64, Starved>
    requires mover { rows.IsMover M.kind (start_of (F.agents fresh.now) (F.start fresh.now) (F.first fresh.now)) held.now most row.now a seat }
    requires met { AreMet M.kind (F.first fresh.now) held.now.minds likes.old }
    ensures met { OnOk result (AreMet M.kind (F.first fresh.now) held.now.minds likes.new) }
    ensures like { IfOk result (λ n. spec.MayStand M.kind view (F.first fresh.now) held.now.minds most seat.mind n) }
{
    let _names = fresh.names();
    let _row = row;
    let liking = Liking {
        mind: seat.mind,
        view,
    };
    let mind = settle::<M, F>(alloc, fresh, &held.minds, likes, liking, most)?;
    Ok(mind)
}

/// The row of a state like that of this row, in which the mind of the agent is one that stands for it.
fn settle_row<M: Likened, A: Artifact, F: Fresh<M> + FreshWorld<A>>(
    alloc: Global,
    fresh: &F,
    held: &Held,
    likes: &mut Likes<M>,
    most: u64,
    row: Row,
    a: u32,
    view: View,
) -> Result<Row, Starved>
    requires fits { Fits M.kind (start_of (F.agents fresh.now) (F.start fresh.now) (F.first fresh.now)) held.now }
    requires stands { rows.Stands M.kind (start_of (F.agents fresh.now) (F.start fresh.now) (F.first fresh.now)) held.now most row }
    requires agent { IsAgent (length (F.agents fresh.now)) a }
    requires met { AreMet M.kind (F.first fresh.now) held.now.minds likes.old }
    ensures met { OnOk result (AreMet M.kind (F.first fresh.now) held.now.minds likes.new) }
    ensures like { let s = start_of (F.agents fresh.now) (F.start fresh.now) (F.first fresh.now) in
        IfOk result (spec.IsRowLike M.kind view s held.now most row) }
{
    let place = (a - 1) as u64;
    let Some(seat) = row.seats.at(place) else {
        unreachable!()
    };
    let seat = *seat;
    let mind = settle_mind::<M, A, F>(alloc, fresh, held, likes, most, &row, a, view, seat)?;
    let own = Seat {
        mind,
        mail: seat.mail,
        stance: seat.stance,
    };
    Ok(with_seat(row, place, own))
}

/// The same of what comes of a move, where there is one.
pub fn settle_next<M: Likened, A: Artifact, F: Fresh<M> + FreshWorld<A>>(
    alloc: Global,
    fresh: &F,
    held: &Held,
    likes: &mut Likes<M>,
    most: u64,
    to: Option<Row>,
    a: u32,
    view: View,
) -> Result<Option<Row>, Starved>
    requires fits { Fits M.kind (start_of (F.agents fresh.now) (F.start fresh.now) (F.first fresh.now)) held.now }
    requires stands { let s = start_of (F.agents fresh.now) (F.start fresh.now) (F.first fresh.now) in
        spec.NextStands M.kind s held.now most to }
    requires agent { IsAgent (length (F.agents fresh.now)) a }
    requires met { AreMet M.kind (F.first fresh.now) held.now.minds likes.old }
    ensures met { OnOk result (AreMet M.kind (F.first fresh.now) held.now.minds likes.new) }
    ensures like { let s = start_of (F.agents fresh.now) (F.start fresh.now) (F.first fresh.now) in
        IfOk result (spec.IsNextLike M.kind view s held.now most to) }
{
    match to {
        None => Ok(None),
        Some(row) => {
            let row = settle_row::<M, A, F>(alloc, fresh, held, likes, most, row, a, view)?;
            Ok(Some(row))
        }
    }
}
