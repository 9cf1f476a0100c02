//! Where the agents stand.

ghost use Rattle.std.specs.Prelude.{◌≡◌, ◌<◌, ◌≤◌, ◌-◌, ◌&&◌, ◌||◌, nat_eq, length, replicate, slice_set, IfOk};
ghost use Rattle.mas_mind.specs.Minds.{IsAgent};
ghost use Rattle.mas_board.specs.Boards as spec;
ghost use Rattle.mas_board.specs.Boxes.{lists};
ghost use Rattle.mas_board.specs.Surveys as survey;

use crate::post::Post;
use asl_term::sequence::{Seq, Starved};
use mas_mind::mind::{End, Input};
use std::alloc::Global;
use std::marker::Model;

/// Where an agent is: between two cycles, in one, or gone.
#[derive(Clone, Copy, Drop)]
pub enum Phase {
    Idle,
    Busy,
    Left(End),
}

/// An agent's place on the board: its phase, how many cycles it has begun, the version at which it was quiet
/// last (where its last cycle was quiet), and the version that it met at its last Sense.
#[derive(Clone, Copy, Drop)]
pub struct AgentPlace {
    pub phase: Phase,
    pub cycle: u64,
    pub mark: Option<u64>,
    pub kept: u64,
}

/// What a Sense answers: what the agent perceives and its oldest message; the end with which it has left; that
/// it is too far ahead of the agent with the least cycle number, and has to wait; or that the board was halted.
#[derive(Drop)]
pub enum Sensed {
    Input(Input),
    Left(End),
    Ahead { cycle: u64, least: u64 },
    Halted,
}

/// A seat at which nothing has happened.
fn no_seat() -> AgentPlace
    ensures { result ≡ spec.no_seat }
{
    AgentPlace {
        phase: Phase::Idle,
        cycle: 0,
        mark: None,
        kept: 0,
    }
}

/// Where all agents are, in the order of their numbers. Contracts see the list of their places. Beside it stand a cycle number
/// that no agent which has not left is below, and where an agent that did not rest was seen last: so a look at all of them is
/// seldom a look at each.
#[derive(Drop)]
pub struct AgentPlaces {
    places: Seq<AgentPlace>,
    low: u64,
    awake: u64,
}

impl Model for AgentPlaces {
    ghost use Rattle.std.specs.Prelude.{List, All};
    ghost use Rattle.std.specs.Coded.{codes};
    ghost use Rattle.mas_board.specs.declared.seats.AgentPlace.{AgentPlace};
    ghost use Rattle.mas_board.specs.Boards.{NotBelow};

    ghost Value = { List AgentPlace };

    ghost coded = { Prim.hlevel codes };

    ghost view = { λ s. s.places };

    ghost invariant = { λ s. All (NotBelow s.low) s.places };
}

/// So many places at which nothing has happened.
fn open_places(alloc: Global, agents: u32) -> Result<Seq<AgentPlace>, Starved>
    ensures { IfOk result (λ s. s ≡ replicate agents spec.no_seat) }
{
    let mut places = Seq::new(alloc);
    for i in 0..agents {
        prove!(i < agents);
        places.push(no_seat())?;
    }
    Ok(places)
}

/// So many agents, to whom nothing has happened.
pub fn open_seats(alloc: Global, agents: u32) -> Result<AgentPlaces, Starved>
    ensures { IfOk result (λ s. s ≡ replicate agents spec.no_seat) }
{
    let places = open_places(alloc, agents)?;
    Ok(AgentPlaces {
        places,
        low: 0,
        awake: 0,
    })
}

/// How many agents there are.
pub fn count(seats: &AgentPlaces) -> u64
    ensures { result ≡ length seats.now }
{
    seats.places.len()
}

/// The seat of an agent.
#[tactic(auto, using(crate::proofs::Places::has_seat))]
pub fn seat_of(seats: &AgentPlaces, a: u32) -> AgentPlace
    requires { IsAgent (length seats.now) a }
    ensures { result ≡ spec.seat_of seats.now a }
{
    match seats.places.at((a - 1) as u64) {
        Some(seat) => *seat,
        None => unreachable!(),
    }
}

/// The cycle number of an agent, or `lowest` where it has left or that is less.
fn lower(lowest: u64, seat: &AgentPlace) -> u64
    ensures value { result ≡ spec.lower lowest seat.now }
    ensures most { result ≤ lowest }
{
    match seat.phase {
        Phase::Left(_) => lowest,
        Phase::Idle | Phase::Busy => lowest.min(seat.cycle),
    }
}

/// Gives an agent this seat.
pub fn set_seat(seats: &mut AgentPlaces, a: u32, seat: AgentPlace)
    requires { IsAgent (length seats.old) a }
    ensures { seats.new ≡ slice_set seats.old (a - 1) seat }
{
    seats.low = lower(seats.low, &seat);
    *seats.places.at_mut((a - 1) as u64) = seat;
}

/// Whether an agent has left, or is quiet at the version and has no unread message.
fn rests(version: u64, seat: &AgentPlace, unread: u64) -> bool
    ensures { result ≡ (spec.is_gone seat.now.phase || (spec.is_mark seat.now.mark version && nat_eq unread 0)) }
{
    if let Phase::Left(_) = seat.phase {
        return true;
    }
    match seat.mark {
        None => false,
        Some(mark) => mark == version && unread == 0,
    }
}

/// The first place from this one on, before another, whose agent does not rest.
fn awake_in(version: u64, places: &[AgentPlace], mail: &Post, from: u64, to: u64) -> Option<u64>
    requires few { length places.now < 65536 }
    requires boxes { length mail.now ≡ length places.now }
    requires within { to ≤ length places.now }
    ensures { survey.Woken version places.now (lists mail.now) from to result }
{
    for i in from..to {
        let unread = mail.count(i as u32 + 1);
        if !rests(version, &places[i as usize], unread) {
            return Some(i);
        }
    }
    None
}

/// Where an agent does not rest: the first place from this one on, else the first before it.
fn awake_from(version: u64, places: &[AgentPlace], mail: &Post, from: u64) -> Option<u64>
    requires few { length places.now < 65536 }
    requires boxes { length mail.now ≡ length places.now }
    requires within { from ≤ length places.now }
    ensures { survey.Watched version places.now (lists mail.now) result }
{
    match awake_in(version, places, mail, from, places.len() as u64) {
        Some(i) => Some(i),
        None => awake_in(version, places, mail, 0, from),
    }
}

/// Whether every agent that has not left is quiet at the version, with an empty box. It looks first where an agent did not rest when
/// this was asked last.
pub fn all_rest(seats: &mut AgentPlaces, version: u64, mail: &Post) -> bool
    requires few { length seats.old < 65536 }
    requires boxes { length mail.now ≡ length seats.old }
    ensures value { result ≡ spec.are_quiet version seats.old (lists mail.now) }
    ensures stays { seats.new ≡ seats.old }
{
    let places = seats.places.as_slice();
    let from = seats.awake.min(places.len() as u64);
    match awake_from(version, places, mail, from) {
        Some(i) => {
            seats.awake = i;
            false
        }
        None => true,
    }
}

/// The least of this cycle number and those of the agents that have not left.
fn least(own: u64, places: &[AgentPlace]) -> u64
    ensures { result ≡ spec.least own places.now }
{
    let mut lowest = own;
    for seat in places {
        lowest = lower(lowest, seat);
    }
    lowest
}

/// The least cycle number of the agents that have not left, one of which has the cycle number `own`, where that one has to wait for it.
pub fn held_by(seats: &mut AgentPlaces, own: u64, lead: u64) -> Option<u64>
    requires { 1 ≤ lead }
    ensures value { result ≡ survey.held_by lead own seats.old }
    ensures stays { seats.new ≡ seats.old }
{
    if own < lead || own - lead < seats.low {
        return None;
    }
    let lowest = least(own, seats.places.as_slice());
    seats.low = lowest;
    if lowest <= own - lead {
        Some(lowest)
    } else {
        None
    }
}
