//! The messages on the way between two sites that make their rounds in turns.

ghost use Rattle.std.specs.Prelude.{◌≡◌, ◌<◌, [], replicate, IfOk};
ghost use Rattle.mas_board.specs.Boards.{oldest, later};
ghost use Rattle.mas_sites_scripts.specs.Ways as spec;

use crate::carrier::Carrier;
use asl_term::sequence::{Seq, Starved};
use mas_mind::copying::copy_message;
use mas_mind::mind::{Message, Messages};
use std::alloc::Global;
use std::marker::Model;

/// Of each agent the messages that it sent to the other site and that have not come there, the oldest first.
pub struct Ways {
    boxes: Seq<Messages>,
}

/// By hand, so that a crate above that lets it go proves nothing of its parts.
impl Drop for Ways {
    fn drop(self) {
        let Ways { boxes: _ } = self;
    }
}

impl Model for Ways {
    ghost use Rattle.std.specs.Prelude.{List};
    ghost use Rattle.std.specs.Coded.{codes, coded_list};
    ghost use Rattle.asl_term.specs.contracts.syntax.Term as t;
    ghost use Rattle.mas_mind.specs.declared.mind.Message.{Message};
    ghost use Rattle.mas_sites_scripts.specs.Ways.{AreWays};

    ghost Value = { List (List Message) };

    ghost coded = { coded_list (coded_list (Prim.hlevel (codes, t.the_row.coded))) };

    ghost view = { λ w. w.boxes };

    ghost invariant = { λ w. AreWays w.boxes };
}

/// Nothing is on the way of so many agents.
#[tactic(auto, using(crate::proofs::OnTheWay::none_on_the_way))]
pub fn open_ways(alloc: Global, agents: u32) -> Result<Ways, Starved>
    ensures { IfOk result (λ w. w ≡ replicate agents []) }
{
    let mut boxes = Seq::new(alloc);
    for i in 0..agents {
        prove!(i < agents);
        boxes.push(Seq::new(alloc))?;
    }
    Ok(Ways { boxes })
}

impl Ways {
    /// The messages on the way, of each agent.
    pub fn into_boxes(self) -> Seq<Messages>
        ensures same { result ≡ self }
        ensures ways { spec.AreWays result }
    {
        let Ways { boxes } = self;
        boxes
    }
}

/// Takes the message that is longest on a way.
fn take_oldest(way: &mut Messages) -> Option<Message>
    ensures first { result ≡ oldest way.old }
    ensures rest { way.new ≡ later way.old }
{
    way.remove(0)
}

impl Carrier for Ways {
    ghost use Rattle.std.specs.Prelude.{length};
    ghost use Rattle.mas_sites_scripts.specs.Ways.{HasGot, HasPut};

    ghost agents = { λ w. length w };

    ghost got = { HasGot };

    ghost put = { HasPut };

    fn next(&mut self, a: u32) -> Option<Message> {
        let way = self.boxes.at_mut((a - 1) as u64);
        take_oldest(way)
    }

    fn send(&mut self, alloc: Global, m: &Message) -> Result<(), Starved> {
        let copied = copy_message(alloc, m)?;
        let way = self.boxes.at_mut((m.from - 1) as u64);
        way.push(copied)
    }
}
