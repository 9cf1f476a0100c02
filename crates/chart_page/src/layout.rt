//! Where everything stands in a picture.

use crate::choice::Choice;
use crate::lanes::{EDGE, LEFT, Lanes, SIGN, Seat, box_width, lanes_of, most_members, seat_of};
use crate::order::{Cycle, in_order};
use crate::report::Report;
use crate::shown::{Piece, PieceKind};
use std::alloc::{AllocError, Global};

/// Where the first cycle stands, and how often the names of the lanes come again.
pub const TOP: u64 = 64;

const SCREEN: u64 = 640;

/// Between two cycles of different agents, and the height of a cycle without a line.
const GAP: u64 = 3;

const QUIET: u64 = 4;

/// How narrow a picture is at least, so that what stands above the lanes has room.
const LEAST_WIDTH: u64 = 560;

/// Where a text begins, how many columns of it are shown, and the right edge of what it stands in.
#[derive(Clone, Copy)]
pub struct Place {
    pub x: u64,
    pub y: u64,
    pub most: usize,
    pub right: u64,
}

/// The box of a cycle.
#[derive(Clone, Copy)]
pub struct Cell {
    pub cycle: Cycle,
    pub lane: usize,
    pub left: u64,
    pub top: u64,
    pub right: u64,
    pub bottom: u64,
}

#[derive(Drop)]
pub struct Layout<'a> {
    pub lanes: Lanes<'a>,
    pub cells: Vec<Cell>,
    /// Of each piece its place.
    pub places: Vec<Place>,
    /// Where the names of the lanes come again.
    pub names: Vec<u64>,
    pub bottom: u64,
    pub width: u64,
    pub height: u64,
}

/// Where a piece stands.
pub fn place_of(places: &[Place], index: usize) -> Place {
    match places.get(index) {
        Some(place) => *place,
        None => alone(LEFT, TOP),
    }
}

fn set_place(plan: &mut Layout<'_>, index: usize, place: Place) {
    if let Some(kept) = plan.places.get_mut(index) {
        *kept = place;
    }
    plan.width = plan.width.max(place.right.saturating_add(EDGE));
}

/// Where a cycle begins, below the last one: with a gap where that is another agent's, and below the names where these come again.
fn top_of(plan: &mut Layout<'_>, agent: usize) -> Result<u64, AllocError> {
    let last = plan.names.last().copied().unwrap_or(TOP);
    if plan.bottom > last.saturating_add(SCREEN) {
        plan.names
            .push(plan.bottom.saturating_add(plan.lanes.scale.row))?;
        plan.bottom = plan
            .bottom
            .saturating_add(plan.lanes.scale.row)
            .saturating_add(GAP);
        return Ok(plan.bottom);
    }
    match plan.cells.last() {
        Some(cell) if cell.cycle.agent == agent => Ok(plan.bottom),
        _ => Ok(plan.bottom.saturating_add(GAP)),
    }
}

/// Places the lines of a cycle below its top; returns the right edge of its box.
fn put_lines(
    plan: &mut Layout<'_>,
    pieces: &[Piece<'_>],
    cycle: &Cycle,
    left: u64,
    top: u64,
) -> u64 {
    let scale = plan.lanes.scale;
    let x = left.saturating_add(scale.margin).saturating_add(SIGN);
    let mut y = top.saturating_sub(2);
    let mut right = x.saturating_add(EDGE);
    for index in cycle.first..cycle.first.saturating_add(cycle.count) {
        if let Some(piece) = pieces.get(index) {
            y = y.saturating_add(scale.row);
            let edge = left.saturating_add(box_width(scale, piece.text));
            right = right.max(edge);
            let place = Place {
                x,
                y,
                most: scale.most,
                right: edge,
            };
            set_place(plan, index, place);
        }
    }
    right
}

fn put_cycle(plan: &mut Layout<'_>, pieces: &[Piece<'_>], cycle: &Cycle) -> Result<(), AllocError> {
    let Some(seat) = seat_of(&plan.lanes, cycle.agent) else {
        return Ok(());
    };
    let left = match plan.lanes.all.get(seat.lane) {
        Some(lane) => lane.left,
        None => LEFT,
    };
    let top = top_of(plan, cycle.agent)?;
    let right = put_lines(plan, pieces, cycle, left, top);
    let rows = plan.lanes.scale.row.saturating_mul(cycle.count as u64);
    let height = if rows == 0 { QUIET } else { rows };
    plan.bottom = top.saturating_add(height);
    plan.cells.push(Cell {
        cycle: *cycle,
        lane: seat.lane,
        left,
        top,
        right,
        bottom: plan.bottom,
    })?;
    Ok(())
}

/// A text that stands alone.
fn alone(x: u64, y: u64) -> Place {
    Place {
        x,
        y,
        most: 150,
        right: x,
    }
}

/// The place of an agent's name, or of its end: at the head or the foot of its lane, or in a list below the lane of its group.
fn lane_place(plan: &Layout<'_>, piece: &Piece<'_>) -> Place {
    let scale = plan.lanes.scale;
    let seat = seat_of(&plan.lanes, piece.agent).unwrap_or(Seat { lane: 0, order: 0 });
    let (left, width) = match plan.lanes.all.get(seat.lane) {
        Some(lane) => (lane.left, lane.width),
        None => (LEFT, 0),
    };
    let is_end = matches!(piece.kind, PieceKind::End);
    let staggered = if scale.is_many {
        seat.lane as u64 % 2
    } else {
        0
    };
    let order = if scale.is_folded {
        seat.order
    } else {
        staggered
    };
    let below = plan
        .bottom
        .saturating_add(scale.row.saturating_mul(order.saturating_add(2)));
    let is_below = scale.is_folded || is_end;
    let shift = if scale.is_folded {
        scale.margin.saturating_add(SIGN)
    } else {
        SIGN
    };
    let room = if is_end && scale.is_many {
        width.saturating_mul(2)
    } else {
        width
    };
    Place {
        x: left.saturating_add(if is_end { shift } else { 0 }),
        y: if is_below {
            below
        } else {
            TOP.saturating_sub(9)
        },
        most: (room.saturating_mul(10) / scale.letter.saturating_add(14)) as usize,
        right: left,
    }
}

/// Places what stands below the ends: the world and the mail, whose headings have a row before them, and one behind them where nothing follows.
fn put_foot(plan: &mut Layout<'_>, pieces: &[Piece<'_>], top: u64) {
    let row = plan.lanes.scale.row.saturating_add(2);
    let mut y = top;
    for (index, piece) in pieces.iter().enumerate() {
        match piece.kind {
            PieceKind::World | PieceKind::Mail => {
                set_place(plan, index, alone(LEFT, y.saturating_add(row)));
                y = y.saturating_add(row.saturating_mul(2));
            }
            PieceKind::Turns => {
                set_place(plan, index, alone(LEFT, y.saturating_add(row)));
                y = y.saturating_add(row.saturating_mul(2));
            }
            PieceKind::Fact | PieceKind::Letter => {
                set_place(plan, index, alone(LEFT, y));
                y = y.saturating_add(row);
            }
            _ => {}
        }
    }
    plan.height = y;
}

/// Places what stands above and below the cycles.
fn put_around(plan: &mut Layout<'_>, pieces: &[Piece<'_>]) {
    for (index, piece) in pieces.iter().enumerate() {
        match piece.kind {
            PieceKind::Head => set_place(plan, index, alone(8, 20)),
            PieceKind::Count => set_place(plan, index, alone(104, 20)),
            PieceKind::Options => set_place(plan, index, alone(8, 36)),
            PieceKind::Name | PieceKind::End => {
                let place = lane_place(plan, piece);
                set_place(plan, index, place);
            }
            _ => {}
        }
    }
    let rows = most_members(&plan.lanes).saturating_add(2);
    let top = plan
        .bottom
        .saturating_add(plan.lanes.scale.row.saturating_mul(rows));
    put_foot(plan, pieces, top);
}

fn put_cycles(
    plan: &mut Layout<'_>,
    pieces: &[Piece<'_>],
    cycles: &[Cycle],
) -> Result<(), AllocError> {
    for cycle in cycles {
        put_cycle(plan, pieces, cycle)?;
    }
    Ok(())
}

/// Where all pieces stand.
pub fn lay_out<'a>(
    alloc: Global,
    choice: Choice<'_>,
    report: &Report<'_>,
    pieces: &[Piece<'a>],
) -> Result<Layout<'a>, AllocError> {
    let cycles = in_order(alloc, choice, report, pieces)?;
    let places = Vec::from_elem(alloc, alone(LEFT, TOP), pieces.len())?;
    let mut plan = Layout {
        lanes: lanes_of(alloc, choice, pieces)?,
        cells: Vec::new(alloc),
        places,
        names: Vec::new(alloc),
        bottom: TOP,
        width: LEAST_WIDTH,
        height: 0,
    };
    put_cycles(&mut plan, pieces, cycles.as_slice())?;
    put_around(&mut plan, pieces);
    Ok(plan)
}
