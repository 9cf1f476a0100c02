//! The lanes of a picture: whose they are, where they stand, and how wide they are.

use crate::choice::Choice;
use crate::columns::{columns, width};
use crate::shown::{Piece, PieceKind};
use std::alloc::{AllocError, Global};

/// Where the first lane begins, and how wide a picture of many lanes is to be.
pub const LEFT: u64 = 46;

const WIDEST: u64 = 1600;

/// How narrow a lane is at least, and how much of it is left free for arrows.
const NARROWEST: u64 = 60;

const FREE: u64 = 34;

/// More lanes than these have smaller letters, and arrows in the colours of their senders.
const FEW_LANES: usize = 8;

/// More agents than these stand in the lanes of their groups.
const MOST_LANES: usize = 24;

/// So many columns of a name stand before the number of a cycle.
pub const NAMED: usize = 14;

/// From a sign to its text, and from a text to the edge of its box.
pub const SIGN: u64 = 12;

pub const EDGE: u64 = 5;

/// The height of a row, the width of a letter in tenths, how many columns of a text are shown, and the room before the sign of a line.
#[derive(Clone, Copy)]
pub struct Scale {
    pub row: u64,
    pub letter: u64,
    pub most: usize,
    pub margin: u64,
    pub is_many: bool,
    pub is_folded: bool,
}

/// A lane: its first agent, how many agents it has, its left edge, and its width.
#[derive(Clone, Copy)]
pub struct Lane<'a> {
    pub name: &'a [u8],
    pub members: u64,
    pub left: u64,
    pub width: u64,
}

/// The lane of an agent, and how many agents of that lane come before it.
#[derive(Clone, Copy)]
pub struct Seat {
    pub lane: usize,
    pub order: u64,
}

#[derive(Drop)]
pub struct Lanes<'a> {
    pub scale: Scale,
    pub all: Vec<Lane<'a>>,
    /// Of each agent its seat, where it is drawn.
    pub seats: Vec<Option<Seat>>,
}

/// A name without the digits at its end.
pub fn stem(name: &[u8]) -> &[u8] {
    let mut end: usize = 0;
    for at in 0..name.len() {
        if name[at] < b'0' || name[at] > b'9' {
            end = at.saturating_add(1);
        }
    }
    match name.get(..end) {
        Some(stem) if end > 0 => stem,
        _ => name,
    }
}

/// The lane of the group to which an agent of this name belongs.
fn lane_of_group(lanes: &[Lane<'_>], name: &[u8]) -> Option<usize> {
    for (index, lane) in lanes.iter().enumerate() {
        if stem(lane.name) == stem(name) {
            return Some(index);
        }
    }
    None
}

/// Gives an agent the next place in the lane of its group.
fn put_member(lanes: &mut Lanes<'_>, lane: usize) -> Result<(), AllocError> {
    let Some(group) = lanes.all.get_mut(lane) else {
        return Ok(());
    };
    let order = group.members;
    group.members = order.saturating_add(1);
    lanes.seats.push(Some(Seat { lane, order }))?;
    Ok(())
}

/// Gives an agent a lane of its own.
fn put_lane<'a>(lanes: &mut Lanes<'a>, name: &'a [u8]) -> Result<(), AllocError> {
    let lane = lanes.all.len();
    lanes.seats.push(Some(Seat { lane, order: 0 }))?;
    lanes.all.push(Lane {
        name,
        members: 1,
        left: 0,
        width: NARROWEST,
    })?;
    Ok(())
}

fn put_agent<'a>(lanes: &mut Lanes<'a>, piece: &Piece<'a>) -> Result<(), AllocError> {
    for _ in lanes.seats.len()..piece.agent {
        lanes.seats.push(None)?;
    }
    let group = if lanes.scale.is_folded {
        lane_of_group(lanes.all.as_slice(), piece.text)
    } else {
        None
    };
    match group {
        Some(lane) => put_member(lanes, lane),
        None => put_lane(lanes, piece.text),
    }
}

/// The seat of an agent.
pub fn seat_of(lanes: &Lanes<'_>, agent: usize) -> Option<Seat> {
    lanes.seats.get(agent).copied().unwrap_or(None)
}

/// How many agents the lane with the most of them has.
pub fn most_members(lanes: &Lanes<'_>) -> u64 {
    let mut most: u64 = 1;
    for lane in &lanes.all {
        most = most.max(lane.members);
    }
    most
}

/// How many digits a number has.
fn digits(number: u64) -> u64 {
    let mut count: u64 = 1;
    let mut rest = number / 10;
    for _ in 0..20 {
        if rest > 0 {
            count = count.saturating_add(1);
            rest /= 10;
        }
    }
    count
}

/// The room for the label of a cycle: its number, and in a lane of several agents the agent's name before it.
fn margin(pieces: &[Piece<'_>], is_folded: bool) -> u64 {
    let mut last: u64 = 10;
    let mut name: usize = 0;
    for piece in pieces {
        last = last.max(piece.cycle);
        if let PieceKind::Name = piece.kind {
            name = name.max(columns(piece.text).saturating_add(1));
        }
    }
    let named = if is_folded { name.min(NAMED) } else { 0 };
    digits(last)
        .saturating_add(named as u64)
        .saturating_mul(6)
        .saturating_add(6)
}

fn scale_of(choice: Choice<'_>, pieces: &[Piece<'_>]) -> Scale {
    let mut agents: usize = 0;
    for piece in pieces {
        if let PieceKind::Name = piece.kind {
            agents = agents.saturating_add(1);
        }
    }
    let is_folded = agents > MOST_LANES && !choice.is_all;
    let is_many = agents > FEW_LANES;
    Scale {
        row: if is_many { 11 } else { 13 },
        letter: if is_many { 61 } else { 67 },
        most: if is_many { 48 } else { 64 },
        margin: margin(pieces, is_folded),
        is_many,
        is_folded,
    }
}

/// How wide the box of a line is.
pub fn box_width(scale: Scale, text: &[u8]) -> u64 {
    let shown = width(text, scale.most, scale.letter);
    scale
        .margin
        .saturating_add(SIGN + EDGE)
        .saturating_add(shown)
}

/// Gives each lane the width that its lines and its name want; returns the widest.
fn put_widths(lanes: &mut Lanes<'_>, pieces: &[Piece<'_>]) -> u64 {
    let mut widest: u64 = 0;
    for piece in pieces {
        let wanted = match piece.kind {
            PieceKind::Line => box_width(lanes.scale, piece.text),
            PieceKind::Name => width(piece.text, 24, 84),
            _ => 0,
        };
        if let Some(seat) = seat_of(lanes, piece.agent) {
            if let Some(lane) = lanes.all.get_mut(seat.lane) {
                lane.width = lane.width.max(wanted.saturating_add(FREE));
            }
        }
        widest = widest.max(wanted);
    }
    widest
}

/// Puts the lanes beside each other, each at most so wide.
fn put_lefts(lanes: &mut Lanes<'_>, most: u64) {
    let mut left = LEFT;
    for lane in lanes.all.iter_mut() {
        lane.width = lane.width.min(most);
        lane.left = left;
        left = left.saturating_add(lane.width);
    }
}

/// How wide a lane may be, so that they all fit where that can be.
fn limit(lanes: &Lanes<'_>, widest: u64) -> u64 {
    let mut sum = LEFT;
    for lane in &lanes.all {
        sum = sum.saturating_add(lane.width);
    }
    if sum <= WIDEST {
        return WIDEST;
    }
    let count = (lanes.all.len() as u64).max(1);
    let room = WIDEST.saturating_sub(LEFT).saturating_sub(widest);
    (room / count).max(NARROWEST)
}

/// The lanes of the agents that are drawn.
pub fn lanes_of<'a>(
    alloc: Global,
    choice: Choice<'_>,
    pieces: &[Piece<'a>],
) -> Result<Lanes<'a>, AllocError> {
    let mut lanes = Lanes {
        scale: scale_of(choice, pieces),
        all: Vec::new(alloc),
        seats: Vec::new(alloc),
    };
    for piece in pieces {
        if let PieceKind::Name = piece.kind {
            put_agent(&mut lanes, piece)?;
        }
    }
    let widest = put_widths(&mut lanes, pieces);
    let most = limit(&lanes, widest);
    put_lefts(&mut lanes, most);
    Ok(lanes)
}
