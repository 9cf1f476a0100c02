//! All outcomes.

ghost use Rattle.std.specs.Prelude.{◌≡◌, ◌∷◌, ◌&&◌, [], All, IfOk, IfSome, length, ◌<◌, ◌≤◌};
ghost use Rattle.std.specs.List.{list_any};
ghost use Rattle.std.specs.Str.{bytes_eq};
ghost use Rattle.mas_explore.specs.Searches.{most_states};
ghost use Rattle.mas_free.specs.Covers.{IsStart, free_opening};
ghost use Rattle.mas_explore.specs.Listings as spec;

use crate::listing::{Extent, Listing, Shown};
use crate::runs::Runs;
use crate::search::follow_all;
use crate::space::Space;
use asl_term::compare::same_text;
use asl_term::sequence::{Seq, Starved};
use asl_term::syntax::Text;
use mas_free::laws::covers_runs;
use mas_free::steady::Steady;
use mas_free::view::View;
use std::alloc::Global;

/// Whether an outcome is listed.
fn is_listed(list: &[Shown], text: &Text) -> bool
    ensures { result ≡ list_any (λ e. bytes_eq e.text text.now) list.now }
{
    list.iter().any(|e| same_text(&e.text, text))
}

/// The outcome of this text at a state, where the plan of that state is a run with it.
fn show<M: Steady, S: Space<M>, R: Runs<M>>(
    alloc: Global,
    space: &S,
    runs: &R,
    view: View,
    state: u64,
    text: Text,
) -> Result<Option<Shown>, Starved>
    requires { state < length (S.met space.now) }
    ensures shown { IfOk result (λ o. IfSome o (spec.IsShown M.kind view (R.start runs.now))) }
    ensures same { IfOk result (λ o. IfSome o (λ e. e.text ≡ text)) }
{
    let plan = space.plan(alloc, state)?;
    let Some(found) = runs.outcome(alloc, &plan, view)? else {
        return Ok(None);
    };
    if same_text(&found, &text) {
        Ok(Some(Shown { text, plan }))
    } else {
        Ok(None)
    }
}

/// Lists the outcome of a state, unless it is listed: whether it is then.
fn list_one<M: Steady, S: Space<M>, R: Runs<M>>(
    alloc: Global,
    space: &S,
    runs: &R,
    view: View,
    state: u64,
    list: &mut Seq<Shown>,
) -> Result<bool, Starved>
    requires there { state < length (S.met space.now) }
    requires sound { spec.AreShown M.kind view (R.start runs.now) list.old }
    ensures { IfOk result (spec.HasListed M.kind view (R.start runs.now) (S.met space.now) state list.old list.new) }
{
    let text = space.outcome(alloc, state, view)?;
    if is_listed(list.as_slice(), &text) {
        return Ok(true);
    }
    let Some(shown) = show(alloc, space, runs, view, state, text)? else {
        return Ok(false);
    };
    list.push(shown)?;
    Ok(true)
}

/// Whether both are so.
fn both(a: bool, b: bool) -> bool
    ensures { result ≡ (a && b) }
{
    a && b
}

/// Lists the outcomes of these states: whether all of them are known to be listed then.
fn list_each<M: Steady, S: Space<M>, R: Runs<M>>(
    alloc: Global,
    space: &S,
    runs: &R,
    view: View,
    rests: &[u64],
    list: &mut Seq<Shown>,
) -> Result<bool, Starved>
    requires there { All (λ r. r < length (S.met space.now)) rests.now }
    requires none { list.old ≡ [] }
    ensures { IfOk result (spec.HasListedEach M.kind view (R.start runs.now) (S.met space.now) rests.now list.new) }
{
    let mut whole = true;
    for r in rests {
        let listed = list_one(alloc, space, runs, view, *r, list)?;
        whole = both(whole, listed);
    }
    Ok(whole)
}

/// Whether the outcomes of all these states are listed.
fn are_listed<M: Steady, S: Space<M>>(
    alloc: Global,
    space: &S,
    view: View,
    rests: &[u64],
    list: &[Shown],
) -> Result<bool, Starved>
    requires { All (λ r. r < length (S.met space.now)) rests.now }
    ensures { IfOk result (spec.AreAllListed M.kind view (S.met space.now) rests.now list.now) }
{
    for r in rests {
        let text = space.outcome(alloc, *r, view)?;
        if !is_listed(list, &text) {
            return Ok(false);
        }
    }
    Ok(true)
}

/// Lists the outcomes of these states: whether all of them are listed then. One for which its own state has shown no run may have come by another.
fn list_all<M: Steady, S: Space<M>, R: Runs<M>>(
    alloc: Global,
    space: &S,
    runs: &R,
    view: View,
    rests: &[u64],
    list: &mut Seq<Shown>,
) -> Result<bool, Starved>
    requires there { All (λ r. r < length (S.met space.now)) rests.now }
    requires none { list.old ≡ [] }
    ensures { IfOk result (spec.HasListedAll M.kind view (R.start runs.now) (S.met space.now) rests.now list.new) }
{
    let whole = list_each(alloc, space, runs, view, rests, list)?;
    if whole {
        return Ok(true);
    }
    let listed = are_listed(alloc, space, view, rests, list.as_slice())?;
    Ok(listed)
}

/// How far a list goes, where all states were followed or not, and the outcomes of all at rest were listed or not.
fn extent_of(followed: bool, listed: bool) -> Extent
    ensures { result ≡ spec.extent_of followed listed }
{
    if !followed {
        return Extent::Bound;
    }
    if listed { Extent::All } else { Extent::Unshown }
}

/// The outcomes of the runs from this start, under whatever limits, of which no agent has to leave for its limit of cycles: all of them, or as many as are
/// found where at most so many states are followed, which is a million or less. The space holds the first state alone.
pub fn explore<M: Steady, S: Space<M>, R: Runs<M>>(
    alloc: Global,
    space: &mut S,
    runs: &R,
    view: View,
    most: u64,
) -> Result<Listing, Starved>
    requires short { most ≤ most_states }
    requires start { IsStart M.kind (R.start runs.now) }
    requires first { S.met space.old ≡ free_opening (R.start runs.now) ∷ [] }
    ensures sound { IfOk result (λ f. spec.AreShown M.kind view (R.start runs.now) f.list) }
    ensures distinct { IfOk result (λ f. spec.AreDistinct f.list) }
    ensures extent { IfOk result (λ f. spec.Reaches M.kind view (R.start runs.now) most f f.extent) }
    ensures states { IfOk result (λ f. f.states ≡ length (S.met space.new)) }
{
    let mut rests = Seq::new(alloc);
    let followed = follow_all(alloc, space, view, most, &mut rests)?;
    let mut list = Seq::new(alloc);
    let listed = list_all(alloc, &*space, runs, view, rests.as_slice(), &mut list)?;
    covers_runs::<M>();
    Ok(Listing {
        list,
        extent: extent_of(followed, listed),
        states: space.count(),
    })
}
