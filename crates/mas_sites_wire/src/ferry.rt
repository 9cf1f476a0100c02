//! A site's ends of the wires of all agents.

ghost use Rattle.std.specs.Prelude.{◌≡◌};
ghost use Rattle.mas_sites_wire.specs.Lines as spec;

use crate::ends::{next_at, send_at};
use crate::wire::{Wire, WireEnd};
use asl_term::sequence::{Seq, Starved};
use mas_mind::copying::copy_message;
use mas_mind::mind::Message;
use mas_sites_scripts::carrier::Carrier;
use std::alloc::Global;
use std::marker::Model;
use std::sync::Wait;

/// What a site has of the wires: an end of each, in the order of the agents. It is the end that puts where the agent lives at
/// the site, and else the end that gets.
pub struct Ferry<'w, R: Wait> {
    rt: &'w R,
    wires: &'w [Wire],
    ends: Seq<WireEnd>,
    puts: Seq<bool>,
}

/// By hand, so that a crate above that lets it go proves nothing of its parts.
impl<'w, R: Wait> Drop for Ferry<'w, R> {
    fn drop(self) {
        let Ferry {
            rt: _,
            wires: _,
            ends: _,
            puts: _,
        } = self;
    }
}

impl<'w, R: Wait> Model for Ferry<'w, R> {
    ghost use Rattle.std.specs.Coded.{codes};
    ghost use Rattle.asl_term.specs.contracts.syntax.Term as t;
    ghost use Rattle.crossbeam_queue.specs.SegTies.{seg_id_coded};
    ghost use Rattle.mas_sites_wire.specs.Lines.{Lines, AreHere, lines_of};

    ghost Value = { Lines };

    ghost coded = { Prim.hlevel (codes, t.the_row.coded, seg_id_coded) };

    ghost view = { λ f. lines_of f.wires.now f.ends };

    ghost invariant = { λ f. AreHere f.wires.now f.ends f.puts };
}

impl<'w, R: Wait> Ferry<'w, R> {
    /// The site's ends of these wires, and of each whether it puts.
    pub fn open(rt: &'w R, wires: &'w [Wire], ends: Seq<WireEnd>, puts: Seq<bool>) -> Ferry<'w, R>
        requires { spec.AreHere wires.now ends puts }
        ensures { result ≡ spec.lines_of wires.now ends }
    {
        Ferry {
            rt,
            wires,
            ends,
            puts,
        }
    }

    /// The ends.
    pub fn into_ends(self) -> Seq<WireEnd>
        ensures same { self.entry ≡ spec.lines_of self.entry.wires result }
        ensures ends { spec.AreEnds self.entry.wires result }
    {
        let Ferry {
            rt: _,
            wires: _,
            ends,
            puts: _,
        } = self;
        ends
    }
}

impl<'w, R: Wait> Carrier for Ferry<'w, R> {
    ghost use Rattle.std.specs.Prelude.{length};
    ghost use Rattle.mas_sites_wire.specs.Lines.{HasGot, HasPut};

    ghost agents = { λ f. length f.wires };

    ghost got = { HasGot };

    ghost put = { HasPut };

    fn next(&mut self, a: u32) -> Option<Message> {
        next_at(
            self.rt,
            self.wires,
            &mut self.ends,
            &self.puts,
            (a - 1) as u64,
        )
    }

    fn send(&mut self, alloc: Global, m: &Message) -> Result<(), Starved> {
        let copied = copy_message(alloc, m)?;
        let place = (m.from - 1) as u64;
        send_at(
            self.rt,
            self.wires,
            &mut self.ends,
            &self.puts,
            place,
            copied,
        )
    }
}
