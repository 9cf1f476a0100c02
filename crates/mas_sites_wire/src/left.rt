//! What is left on the wires once both sites have ended.

ghost use Rattle.std.specs.Prelude.{◌≡◌, ◌++◌, not, true, length, map, IfOk};
ghost use Rattle.mas_sites_wire.specs.Lefts as spec;
ghost use Rattle.mas_sites_wire.specs.Lines.{IsHere, AreHere, others};
ghost use Rattle.mas_sites_wire.specs.Ends.{IsEndOf, log_of};
ghost use Rattle.mas_sites_wire.specs.Wires.{AreFrom};

use crate::ends::puts_at;
use crate::wire::{Wire, WireEnd};
use asl_term::sequence::{Seq, Starved};
use mas_mind::mind::Messages;
use std::alloc::Global;
use std::sync::Wait;

/// The messages that are left on a wire, the oldest first.
fn left_on<R: Wait>(
    rt: &R,
    alloc: Global,
    wire: &Wire,
    puts: WireEnd,
    gets: WireEnd,
) -> Result<Messages, Starved>
    requires ends { IsEndOf wire.now puts × IsEndOf wire.now gets }
    requires may { ((log_of puts).puts ≡ true) × ((log_of gets).gets ≡ true) }
    ensures left { IfOk result (λ m. (log_of puts).put ≡ (log_of gets).got ++ m) }
    ensures from { IfOk result (AreFrom (log_of puts).sender (log_of puts).agents) }
{
    let mut end = puts;
    wire.join(&mut end, gets);
    let mut left = Seq::new(alloc);
    for _ in rt.forever() {
        match wire.get(rt, &mut end) {
            Some(m) => left.push(m)?,
            None => return Ok(left),
        }
    }
    unreachable!()
}

/// The same of a wire of which each site has an end: site 1 the one that puts, if the agent lives here.
fn left_at<R: Wait>(
    rt: &R,
    alloc: Global,
    wire: &Wire,
    here: bool,
    one: WireEnd,
    two: WireEnd,
) -> Result<Messages, Starved>
    requires one { IsHere (log_of one).agents (log_of one).sender wire.now one here }
    requires two { IsHere (log_of one).agents (log_of one).sender wire.now two (not here) }
    ensures { IfOk result (spec.IsLeft (log_of one).agents (log_of one).sender here (log_of one) (log_of two)) }
{
    if here {
        left_on(rt, alloc, wire, one, two)
    } else {
        left_on(rt, alloc, wire, two, one)
    }
}

/// What the sites have of a wire.
#[derive(Drop)]
pub struct WireParts<T> {
    pub one: T,
    pub two: T,
}

/// What the sites have of each wire.
fn paired<T: Drop>(alloc: Global, one: Seq<T>, two: Seq<T>) -> Result<Seq<WireParts<T>>, Starved>
    requires { length one ≡ length two }
    ensures { IfOk result (λ pairs. (spec.firsts pairs ≡ one) × (spec.seconds pairs ≡ two)) }
{
    let mut two = two;
    two.reverse();
    let mut pairs = Seq::new(alloc);
    for first in one.into_vec() {
        match two.pop() {
            Some(second) => pairs.push(WireParts {
                one: first,
                two: second,
            })?,
            None => unreachable!(),
        }
    }
    Ok(pairs)
}

/// Of each wire the messages that are left on it.
fn left_on_all<R: Wait>(
    rt: &R,
    alloc: Global,
    wires: &[Wire],
    here: &Seq<bool>,
    pairs: Seq<WireParts<WireEnd>>,
) -> Result<Seq<Messages>, Starved>
    requires one { AreHere wires.now (spec.firsts pairs) here.now }
    requires two { AreHere wires.now (spec.seconds pairs) (others here.now) }
    ensures { IfOk result (spec.AreLeft here.now (map log_of (spec.firsts pairs)) (map log_of (spec.seconds pairs))) }
{
    let mut ways = Seq::new(alloc);
    let mut place = 0;
    for pair in pairs.into_vec() {
        let wire = &wires[place as usize];
        let lives = puts_at(here, place);
        let way = left_at(rt, alloc, wire, lives, pair.one, pair.two)?;
        ways.push(way)?;
        place += 1;
    }
    Ok(ways)
}

/// Of each agent the messages that are left on its wire.
pub fn left_between<R: Wait>(
    rt: &R,
    alloc: Global,
    wires: &[Wire],
    here: &Seq<bool>,
    one: Seq<WireEnd>,
    two: Seq<WireEnd>,
) -> Result<Seq<Messages>, Starved>
    requires one { AreHere wires.now one here.now }
    requires two { AreHere wires.now two (others here.now) }
    ensures { IfOk result (spec.AreLeft here.now (map log_of one) (map log_of two)) }
{
    let pairs = paired(alloc, one, two)?;
    let ways = left_on_all(rt, alloc, wires, here, pairs)?;
    Ok(ways)
}
