//! The world of a source, afresh.

ghost use Rattle.std.specs.Prelude.{◌≡◌, option_copied, IfOk, IfSome};
ghost use Rattle.mas_top_opening.specs.Fits.{CanOpen};
ghost use Rattle.mas_top_opening.specs.Opening.{no_text, objects_of, opening_world};

use crate::copies::copy_world;
use asl_term::names::Names;
use asl_term::sequence::{Seq, Starved};
use mas_world::acts::WorldText;
use mas_world::artifact::Artifact;
use mas_world::opening::open_world;
use mas_world::world::World;
use std::alloc::Global;

/// A world without facts, in which no action is done.
fn empty_text(alloc: Global) -> Result<WorldText, Starved>
    ensures { IfOk result (λ t. t ≡ no_text) }
{
    Ok(WorldText {
        facts: Seq::new(alloc),
        hidden: Names::new(alloc)?,
        uses: Names::new(alloc)?,
        acts: Seq::new(alloc),
    })
}

/// The world at the start, of a text that stays.
pub fn fresh_world<A: Artifact>(
    alloc: Global,
    text: Option<&WorldText>,
    artifacts: Vec<A>,
) -> Result<World<A>, Starved>
    requires { IfSome (option_copied text) (CanOpen (objects_of A.named A.table A.facts artifacts.items)) }
    ensures { IfOk result (λ w. w ≡ opening_world (objects_of A.named A.table A.facts artifacts.items) (option_copied text.entry)) }
{
    match text {
        Some(text) => open_world(alloc, copy_world(alloc, text)?, artifacts),
        None => open_world(alloc, empty_text(alloc)?, artifacts),
    }
}
