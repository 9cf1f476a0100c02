//! The wires between two sites, opened and parted.

ghost use Rattle.std.specs.Prelude.{◌≡◌, ◌<◌, ◌^◌, ◌++◌, ◌∷◌, [], if◌then◌else◌, length, map, IfOk, OnOk};
ghost use Rattle.mas_sites_wire.specs.Lines as spec;
ghost use Rattle.mas_sites_wire.specs.Ends.{IsEndOf, log_of};
ghost use Rattle.mas_sites_wire.specs.Wires.{putting, getting};

use crate::ends::puts_at;
use crate::wire::{Wire, WireEnd};
use asl_term::sequence::{Seq, Starved};
use std::alloc::Global;

/// A new wire, its end that puts and the one that gets.
#[derive(Drop)]
struct Parted {
    wire: Wire,
    puts: WireEnd,
    gets: WireEnd,
}

/// The wires of all agents, and of each the end that site 1 has and the one that site 2 has.
#[derive(Drop)]
pub struct Wires {
    pub wires: Seq<Wire>,
    pub one: Seq<WireEnd>,
    pub two: Seq<WireEnd>,
}

/// The wire of this agent.
fn open_wire(alloc: Global, number: u32, agents: u32) -> Result<Parted, Starved>
    ensures ends { IfOk result (λ r. IsEndOf r.wire r.puts × IsEndOf r.wire r.gets) }
    ensures puts { IfOk result (λ r. log_of r.puts ≡ putting number agents []) }
    ensures gets { IfOk result (λ r. log_of r.gets ≡ getting number agents []) }
{
    let (wire, mut puts) = Wire::open(alloc, number, agents)?;
    let gets = wire.split(&mut puts);
    Ok(Parted { wire, puts, gets })
}

/// Puts a wire last. Where the agent lives at site 1 this site gets the end that puts, and else the one that gets.
fn add_wire(wires: &mut Wires, new: Parted, here: bool) -> Result<(), Starved>
    ensures wires { OnOk result (wires.new.wires ≡ wires.old.wires ++ new.wire ∷ []) }
    ensures one { OnOk result (wires.new.one ≡ wires.old.one ++ (if here then new.puts else new.gets) ∷ []) }
    ensures two { OnOk result (wires.new.two ≡ wires.old.two ++ (if here then new.gets else new.puts) ∷ []) }
{
    let Parted { wire, puts, gets } = new;
    wires.wires.push(wire)?;
    if here {
        wires.one.push(puts)?;
        wires.two.push(gets)
    } else {
        wires.one.push(gets)?;
        wires.two.push(puts)
    }
}

/// A wire for each agent, parted between the sites.
pub fn open_wires(alloc: Global, here: &Seq<bool>) -> Result<Wires, Starved>
    requires { length here.now < 2 ^ 16 }
    ensures one { IfOk result (λ w. spec.AreHere w.wires w.one here.now) }
    ensures two { IfOk result (λ w. spec.AreHere w.wires w.two (spec.others here.now)) }
    ensures blank { IfOk result (λ w. spec.AreBlank (map log_of w.one) × spec.AreBlank (map log_of w.two)) }
{
    let agents = here.len() as u32;
    let mut wires = Wires {
        wires: Seq::new(alloc),
        one: Seq::new(alloc),
        two: Seq::new(alloc),
    };
    for i in 0..agents {
        let new = open_wire(alloc, i + 1, agents)?;
        add_wire(&mut wires, new, puts_at(here, i as u64))?;
    }
    Ok(wires)
}
