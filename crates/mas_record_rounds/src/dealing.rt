//! Tickets, minds and thoughts, put together and taken apart. All room is made before the tickets are there, so that none of
//! them is lost for want of memory.

ghost use Rattle.std.specs.Prelude.{◌≡◌, ◌<◌, ◌≤◌, ◌+◌, ◌++◌, ◌∷◌, [], length, IfOk};
ghost use Rattle.mas_board_lists.specs.Lists.{Each};
ghost use Rattle.mas_record_rounds.specs.Dealing as spec;

use crate::share::{Rooms, Share, Waiting};
use crate::sharer::Sharer;
use asl_term::room::Roomy;
use asl_term::sequence::{Seq, Starved};
use mas_mind::mind::Thought;
use mas_mind::thinking::Mind;
use mas_record::ticket::{Ticket, Tickets};
use mas_record_disk::disk::Disk;
use mas_world::artifact::Artifact;
use std::alloc::{AllocError, Global};

/// One more item, for which there is room.
fn put<T: Drop>(room: &mut Roomy<T>, item: T)
    requires { 0 < room.old.spare }
    ensures list { room.new.list ≡ room.old.list ++ item ∷ [] }
    ensures room { room.new.spare + 1 ≡ room.old.spare }
{
    match room.push(item) {
        Ok(()) => {}
        Err(_) => unreachable!(),
    }
}

/// An empty list with room for so many items.
fn room<T: Drop>(alloc: Global, count: u64) -> Result<Roomy<T>, Starved>
    ensures { IfOk result (spec.HasRoom count) }
{
    let mut room = Roomy::new(alloc);
    match room.reserve(count) {
        Ok(()) => Ok(room),
        Err(starved) => {
            drop(room);
            Err(starved)
        }
    }
}

/// So many lists, each with room for one item.
fn places<T: Drop>(alloc: Global, count: u64) -> Result<Seq<Roomy<T>>, Starved>
    ensures { IfOk result (spec.ArePlaces count) }
{
    let mut places = Seq::new(alloc);
    for _ in 0..count {
        let place = room(alloc, 1)?;
        places.push(place)?;
    }
    Ok(places)
}

/// Room for so many agents.
pub fn rooms<M: Mind, A: Artifact, D: Disk + Send>(
    alloc: Global,
    count: u64,
) -> Result<Rooms<M, A, D>, Starved>
    ensures { IfOk result (spec.AreRooms count) }
{
    let shares = room(alloc, count)?;
    let tickets = room(alloc, count)?;
    let minds = room(alloc, count)?;
    Ok(Rooms {
        shares,
        tickets,
        minds,
    })
}

/// Each mind with its thought and its place.
fn waits<M: Mind, A: Artifact, D: Disk + Send>(
    alloc: Global,
    minds: Vec<M>,
    thoughts: Vec<Option<Thought>>,
    places: Vec<Roomy<Sharer<M, A, D>>>,
) -> Result<Vec<Waiting<M, A, D>>, AllocError>
    ensures { IfOk result (λ v. v.items ≡ spec.waits minds.items thoughts.items places.items) }
{
    minds
        .into_iter()
        .zip(thoughts)
        .zip(places)
        .map(|((mind, thought), place)| Waiting {
            mind,
            thought,
            place,
        })
        .collect(alloc)
}

/// Each mind with its thought, and a place for it.
pub fn wait_all<M: Mind, A: Artifact, D: Disk + Send>(
    alloc: Global,
    minds: Seq<M>,
    thoughts: Seq<Option<Thought>>,
) -> Result<Seq<Waiting<M, A, D>>, Starved>
    requires { length thoughts ≡ length minds }
    ensures { IfOk result (spec.AreWaiting minds thoughts) }
{
    let places = places(alloc, minds.len())?;
    let waiting = waits(
        alloc,
        minds.into_vec(),
        thoughts.into_vec(),
        places.into_vec(),
    )?;
    Ok(Seq::from_vec(waiting))
}

/// An agent with its ticket, in a share of its own.
fn share_of<M: Mind, A: Artifact, D: Disk + Send>(
    ticket: Ticket<A, D>,
    waiting: Waiting<M, A, D>,
) -> Share<M, A, D>
    requires place { spec.HasRoom 1 waiting.place }
    ensures { result.sharers ≡ spec.sharer_of ticket waiting ∷ [] }
{
    let Waiting {
        mind,
        thought,
        mut place,
    } = waiting;
    let sharer = Sharer {
        number: ticket.number,
        ticket,
        mind,
        thought,
    };
    put(&mut place, sharer);
    Share {
        sharers: place.into_seq(),
        came: Ok(0),
    }
}

/// Each agent with its ticket, in a share of its own. It takes no memory.
pub fn deal<M: Mind, A: Artifact, D: Disk + Send>(
    mut shares: Roomy<Share<M, A, D>>,
    mut tickets: Tickets<A, D>,
    mut waiting: Seq<Waiting<M, A, D>>,
) -> Vec<Share<M, A, D>>
    requires room { spec.HasRoom (length tickets) shares }
    requires count { length waiting ≡ length tickets }
    requires places { Each (λ w. spec.HasRoom 1 w.place) waiting }
    ensures { spec.all_of result.items ≡ spec.dealt tickets waiting }
{
    tickets.reverse();
    waiting.reverse();
    while let Some(ticket) = tickets.pop() {
        let Some(one) = waiting.pop() else {
            unreachable!()
        };
        put(&mut shares, share_of(ticket, one));
    }
    shares.into_seq().into_vec()
}

/// Takes the sharers of one share apart.
fn part_one<M: Mind, A: Artifact, D: Disk + Send>(
    tickets: &mut Roomy<Ticket<A, D>>,
    minds: &mut Roomy<M>,
    share: Share<M, A, D>,
)
    requires tickets { length share.sharers ≤ tickets.old.spare }
    requires minds { length share.sharers ≤ minds.old.spare }
    ensures { spec.Parted share.sharers tickets.old tickets.new minds.old minds.new }
{
    let Share {
        mut sharers,
        came: _,
    } = share;
    sharers.reverse();
    while let Some(sharer) = sharers.pop() {
        let Sharer {
            number: _,
            ticket,
            mind,
            thought,
        } = sharer;
        drop(thought);
        put(tickets, ticket);
        put(minds, mind);
    }
}

/// The tickets and the minds of all shares, in order. It takes no memory.
pub fn part<M: Mind, A: Artifact, D: Disk + Send>(
    mut tickets: Roomy<Ticket<A, D>>,
    mut minds: Roomy<M>,
    shares: Vec<Share<M, A, D>>,
) -> (Tickets<A, D>, Seq<M>)
    requires tickets { spec.HasRoom (length (spec.all_of shares.items)) tickets }
    requires minds { spec.HasRoom (length (spec.all_of shares.items)) minds }
    ensures tickets { result.0 ≡ spec.tickets_of (spec.all_of shares.items) }
    ensures minds { result.1 ≡ spec.minds_of (spec.all_of shares.items) }
{
    let mut left = Seq::from_vec(shares);
    left.reverse();
    while let Some(share) = left.pop() {
        part_one(&mut tickets, &mut minds, share);
    }
    (tickets.into_seq(), minds.into_seq())
}
