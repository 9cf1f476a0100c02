//! What is told of all runs.

ghost use Rattle.std.specs.Prelude.{◌≡◌, ◌≤◌, ◌∷◌, [], option_copied, IfOk};
ghost use Rattle.mas_explore.specs.Searches.{most_states};
ghost use Rattle.mas_free.specs.Covers.{IsStart, free_opening};
ghost use Rattle.mas_explore_listing.specs.Told as spec;

use crate::answers::{Answer, Question, answer_of};
use crate::sorting::sorted_outcomes;
use crate::writing::{answered_text, listing_text};
use asl_term::sequence::Starved;
use asl_term::syntax::Text;
use mas_explore::listing::Listing;
use mas_explore::runs::Runs;
use mas_explore::space::Space;
use mas_free::steady::Steady;
use mas_free::view::View;
use mas_report::options::Options;
use std::alloc::Global;

/// A text to write, and the status with which a program ends that has written it.
#[derive(Drop)]
pub struct Told {
    pub text: Text,
    pub code: u8,
}

fn answer_code(answer: Answer) -> u8
    ensures { result ≡ spec.answer_code answer }
{
    match answer {
        Answer::Holds => 0,
        Answer::Fails(_) => 1,
        Answer::Unknown => 10,
    }
}

/// What a list tells: itself, or its answer.
fn told_by(
    alloc: Global,
    o: &Options,
    f: &Listing,
    question: Option<&Question>,
) -> Result<Told, Starved>
    ensures { IfOk result (λ t. t ≡ spec.told o.now f.now (option_copied question.entry)) }
{
    match question {
        None => Ok(Told {
            text: listing_text(alloc, o, f)?,
            code: 0,
        }),
        Some(q) => {
            let answer = answer_of(q, f);
            Ok(Told {
                text: answered_text(alloc, o, f, q, answer)?,
                code: answer_code(answer),
            })
        }
    }
}

/// What is told of all runs from a start: their outcomes, or what these answer. The space holds the first state alone.
pub fn told_of_runs<M: Steady, S: Space<M>, R: Runs<M>>(
    alloc: Global,
    space: &mut S,
    runs: &R,
    view: View,
    most: u64,
    o: &Options,
    question: Option<&Question>,
) -> Result<Told, Starved>
    requires short { most ≤ most_states }
    requires start { IsStart M.kind (R.start runs.now) }
    requires first { S.met space.old ≡ free_opening (R.start runs.now) ∷ [] }
    ensures { IfOk result (spec.IsTold M.kind view (R.start runs.now) most o.now (option_copied question.entry)) }
{
    let f = sorted_outcomes(alloc, space, runs, view, most)?;
    let told = told_by(alloc, o, &f, question);
    drop(f);
    match told {
        Ok(told) => Ok(told),
        Err(starved) => Err(starved),
    }
}
