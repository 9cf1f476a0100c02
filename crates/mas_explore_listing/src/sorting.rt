//! Outcomes in the order of their texts.

ghost use Rattle.std.specs.Prelude.{◌≡◌, ◌≤◌, ◌∷◌, [], length, IfOk};
ghost use Rattle.std.specs.List.Sorted.{IsPermutation, IsSortedByKey};
ghost use Rattle.mas_explore.specs.Searches.{most_states};
ghost use Rattle.mas_free.specs.Covers.{IsStart, free_opening};
ghost use Rattle.mas_explore.specs.Listings.{AreDistinct, AreShown, Reaches};
ghost use Rattle.mas_explore.specs.declared.listing.Shown.{Shown};
ghost use Rattle.mas_explore_listing.specs.Text.{text_order};

use asl_term::sequence::{Seq, Starved};
use mas_explore::explore::explore;
use mas_explore::listing::{Listing, Shown};
use mas_explore::runs::Runs;
use mas_explore::space::Space;
use mas_free::steady::Steady;
use mas_free::view::View;
use std::alloc::Global;

/// The entries in the order of their texts, byte by byte.
pub fn sorted(list: Seq<Shown>) -> Result<Seq<Shown>, Starved>
    ensures same { IfOk result (λ r. IsPermutation list r) }
    ensures sorted { IfOk result (λ r. IsSortedByKey (λ (e : Shown). e.text) text_order r) }
{
    let mut items = list.into_vec();
    items.sort_by(|a, b| a.text.as_slice().cmp(b.text.as_slice()))?;
    Ok(Seq::from_vec(items))
}

/// All outcomes, or as many as are found, as `explore` finds them, in the order of their texts. At most a million states are followed.
#[tactic(auto, using(crate::proofs::Moved::reaches_still))]
pub fn sorted_outcomes<M: Steady, S: Space<M>, R: Runs<M>>(
    alloc: Global,
    space: &mut S,
    runs: &R,
    view: View,
    most: u64,
) -> Result<Listing, Starved>
    requires short { most ≤ most_states }
    requires start { IsStart M.kind (R.start runs.now) }
    requires first { S.met space.old ≡ free_opening (R.start runs.now) ∷ [] }
    ensures sound { IfOk result (λ f. AreShown M.kind view (R.start runs.now) f.list) }
    ensures distinct { IfOk result (λ f. AreDistinct f.list) }
    ensures extent { IfOk result (λ f. Reaches M.kind view (R.start runs.now) most f f.extent) }
    ensures sorted { IfOk result (λ f. IsSortedByKey (λ (e : Shown). e.text) text_order f.list) }
    ensures states { IfOk result (λ f. f.states ≡ length (S.met space.new)) }
{
    let found = explore(alloc, space, runs, view, most)?;
    let Listing {
        list,
        extent,
        states,
    } = found;
    let list = sorted(list)?;
    Ok(Listing {
        list,
        extent,
        states,
    })
}
