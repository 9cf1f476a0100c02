//! Values that are held by what befell them.

ghost use Rattle.std.specs.Prelude.{◌<◌, ◌+◌, length, IfOk};
ghost use Rattle.mas_explore_tables.specs.Histories as spec;

use crate::mixing::stirred;
use crate::table::{Known, Table};
use asl_term::sequence::{Seq, Starved};
use std::alloc::Global;

/// What befell the value of this number.
pub struct Link<E: Known> {
    pub from: u64,
    pub what: E,
}

/// By hand, so that a crate above that lets one go proves nothing of its parts.
impl<E: Known> Drop for Link<E> {
    fn drop(self) {
        let Link { from: _, what: _ } = self;
    }
}

impl<E: Known> Known for Link<E> {
    fn same(&self, other: &Link<E>) -> bool {
        self.from == other.from && self.what.same(&other.what)
    }

    fn mix(&self) -> u64 {
        stirred(self.from, self.what.mix())
    }
}

/// The number of the first value from which another one comes, and the places of the links on the way, the last link first.
#[derive(Drop)]
pub struct Way {
    pub root: u64,
    pub places: Seq<u64>,
}

/// The way to a value, of which so many are the first ones.
pub fn way_to<E: Known>(
    alloc: Global,
    links: &Table<Link<E>>,
    roots: u64,
    n: u64,
) -> Result<Way, Starved>
    requires linked { spec.AreLinked roots links.now }
    requires there { n < roots + length links.now }
    ensures { IfOk result (spec.IsWay roots links.now n) }
{
    let mut places = Seq::new(alloc);
    let mut at = n;
    while at >= roots {
        let place = at - roots;
        let Some(link) = links.at(place) else {
            unreachable!()
        };
        at = link.from;
        places.push(place)?;
    }
    Ok(Way { root: at, places })
}
