//! The calls on a site's end of one of the wires.

ghost use Rattle.std.specs.Prelude.{◌≡◌, ◌+◌, ◌<◌, length, map, slice_get, OnOk};
ghost use Rattle.mas_mind.specs.Minds.{IsFrom};
ghost use Rattle.mas_sites_scripts.specs.Scripts.{change};
ghost use Rattle.mas_sites_stand.specs.Stands.{IsEntry};
ghost use Rattle.mas_sites_wire.specs.Ends.{log_of};
ghost use Rattle.mas_sites_wire.specs.Lines as spec;

use crate::wire::{Wire, WireEnd};
use asl_term::sequence::{Seq, Starved};
use mas_mind::mind::Message;
use std::sync::Wait;

/// Whether the agent of this place lives at the site, so that the site has the end that puts.
pub fn puts_at(puts: &Seq<bool>, i: u64) -> bool
    requires { i < length puts.now }
    ensures { slice_get puts.now i ≡ Some result }
{
    match puts.at(i) {
        Some(at) => *at,
        None => unreachable!(),
    }
}

/// The next message on the wire at this place, where one has come. None comes to the end that puts.
pub fn next_at<R: Wait>(
    rt: &R,
    wires: &[Wire],
    ends: &mut Seq<WireEnd>,
    puts: &Seq<bool>,
    i: u64,
) -> Option<Message>
    requires here { spec.AreHere wires.now ends.old puts.now }
    requires place { i < length wires.now }
    ensures here { spec.AreHere wires.now ends.new puts.now }
    ensures entry { IsEntry (i + 1) (length wires.now) result }
    ensures came { map log_of ends.new ≡ change i (spec.come result) (map log_of ends.old) }
{
    if puts_at(puts, i) {
        return None;
    }
    let wire = &wires[i as usize];
    let end = ends.at_mut(i);
    wire.get(rt, end)
}

/// Puts a message on the wire at this place. The end that gets lets it go.
pub fn send_at<R: Wait>(
    rt: &R,
    wires: &[Wire],
    ends: &mut Seq<WireEnd>,
    puts: &Seq<bool>,
    i: u64,
    m: Message,
) -> Result<(), Starved>
    requires here { spec.AreHere wires.now ends.old puts.now }
    requires place { i < length wires.now }
    requires message { IsFrom (i + 1) (length wires.now) m }
    ensures here { spec.AreHere wires.now ends.new puts.now }
    ensures gone { OnOk result (map log_of ends.new ≡ change i (spec.gone m) (map log_of ends.old)) }
    ensures number { length ends.new ≡ length ends.old }
{
    if !puts_at(puts, i) {
        return Ok(());
    }
    let wire = &wires[i as usize];
    let end = ends.at_mut(i);
    wire.put(rt, end, m)
}
