//! What a list of outcomes answers.

ghost use Rattle.std.specs.Prelude.{◌≡◌};
ghost use Rattle.mas_explore_listing.specs.Questions as spec;

use crate::lines::has_line;
use asl_term::syntax::Text;
use mas_explore::listing::{Extent, Listing, Shown};

/// What is claimed of a line: no outcome has it, or each has.
#[derive(Clone, Copy, Drop)]
pub enum Claim {
    Never,
    Always,
}

/// A claim of a line, which ends in a line feed.
#[derive(Drop)]
pub struct Question {
    pub claim: Claim,
    pub line: Text,
}

/// The claim holds for all runs; the outcome at this place of the list speaks against it, and none before it; or none speaks against it, and the list is
/// not whole.
#[derive(Clone, Copy, Drop)]
pub enum Answer {
    Holds,
    Fails(u64),
    Unknown,
}

/// Whether an outcome speaks against a claim.
fn is_against(q: &Question, text: &Text) -> bool
    ensures { result ≡ spec.is_against q.now text.now }
{
    let has = has_line(text.as_slice(), q.line.as_slice());
    match q.claim {
        Claim::Never => has,
        Claim::Always => !has,
    }
}

/// The first place of a list whose outcome speaks against a claim.
fn first_against(q: &Question, list: &[Shown]) -> Option<u64>
    ensures { result ≡ spec.first_from q.now 0 list.now }
{
    let mut place: u64 = 0;
    let mut rest = list;
    'entries: while let Some((e, after)) = rest.split_first() {
        if is_against(q, &e.text) {
            return Some(place);
        }
        place += 1;
        rest = after;
    }
    None
}

/// The answer of a list that goes so far, where this is the first place that speaks against the claim.
fn answer_by(first: Option<u64>, extent: Extent) -> Answer
    ensures { result ≡ spec.answer_by first extent }
{
    match first {
        Some(place) => Answer::Fails(place),
        None => match extent {
            Extent::All => Answer::Holds,
            Extent::Bound | Extent::Unshown => Answer::Unknown,
        },
    }
}

/// What a list answers.
pub fn answer_of(q: &Question, f: &Listing) -> Answer
    ensures { result ≡ spec.answer q.now f.now }
{
    answer_by(first_against(q, f.list.as_slice()), f.extent)
}
