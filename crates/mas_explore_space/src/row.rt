//! States as rows of numbers.

ghost use Rattle.std.specs.Prelude.{◌≡◌, ◌<◌, length, IfOk};
ghost use Rattle.mas_explore_space.specs.Rows as spec;

use asl_term::sequence::{Seq, Starved};
use mas_explore_tables::mixing::stirred;
use mas_explore_tables::table::Known;
use mas_mind::mind::End;
use std::alloc::Global;

/// What an agent does next: a cycle; it carries out the outs of the thought of this number; it leaves, since its budget was spent; nothing.
#[derive(Clone, Copy, PartialEq, Eq, Drop)]
pub enum Stance {
    Idle,
    Busy(u64),
    Spent,
    Left(End),
}

/// The numbers of an agent's mind and of its box, and what it does next.
#[derive(Clone, Copy, PartialEq, Eq, Drop)]
pub struct Seat {
    pub mind: u64,
    pub mail: u64,
    pub stance: Stance,
}

impl Known for Seat {
    fn same(&self, other: &Seat) -> bool {
        *self == *other
    }

    fn mix(&self) -> u64 {
        let stance = match self.stance {
            Stance::Idle => 0,
            Stance::Busy(thought) => stirred(thought, 1),
            Stance::Spent => 2,
            Stance::Left(_) => 3,
        };
        stirred(self.mind, stirred(self.mail, stance))
    }
}

/// A state: the number of the world, whether the run is to stop, and a seat for each agent.
pub struct Row {
    pub world: u64,
    pub stop: bool,
    pub seats: Seq<Seat>,
}

/// By hand, so that who lets one go proves nothing of its parts.
impl Drop for Row {
    fn drop(self) {
        let Row {
            world: _,
            stop: _,
            seats: _,
        } = self;
    }
}

impl Known for Row {
    fn same(&self, other: &Row) -> bool {
        self.world == other.world && self.stop == other.stop && self.seats.same(&other.seats)
    }

    fn mix(&self) -> u64 {
        stirred(self.world, self.seats.mix())
    }
}

/// Equal seats, in order.
fn copy_seats(alloc: Global, seats: &[Seat]) -> Result<Seq<Seat>, Starved>
    ensures { IfOk result (λ r. r ≡ seats.now) }
{
    let mut r = Seq::new(alloc);
    r.reserve_exact(seats.len() as u64)?;
    for seat in seats {
        r.push(*seat)?;
    }
    Ok(r)
}

/// An equal row.
pub fn copy_row(alloc: Global, row: &Row) -> Result<Row, Starved>
    ensures { IfOk result (λ r. r ≡ row.now) }
{
    Ok(Row {
        world: row.world,
        stop: row.stop,
        seats: copy_seats(alloc, row.seats.as_slice())?,
    })
}

/// The row in which the agent at this place, which has this seat, does this next.
pub fn with_stance(row: Row, place: u64, seat: Seat, stance: Stance) -> Row
    requires { place < length row.seats }
    ensures { result ≡ spec.with_stance row place seat stance }
{
    let own = Seat {
        mind: seat.mind,
        mail: seat.mail,
        stance,
    };
    with_seat(row, place, own)
}

/// The row in which the agent at this place has this seat.
pub fn with_seat(row: Row, place: u64, seat: Seat) -> Row
    requires { place < length row.seats }
    ensures { result ≡ spec.with_seat row place seat }
{
    let mut row = row;
    *row.seats.at_mut(place) = seat;
    row
}
