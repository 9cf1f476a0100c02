//! What is told of a project.

ghost use Rattle.std.specs.Prelude.{◌≡◌, ◌≤◌, false, option_copied, option_map, IfOk, MatchResult};
ghost use Rattle.asl_cycle.specs.Agent.{agent_kind};
ghost use Rattle.asl_cycle.specs.Trace.{shows_rules};
ghost use Rattle.mas_explore.specs.Searches.{most_states};
ghost use Rattle.mas_report.specs.Limits.{IsWithin, defaults};
ghost use Rattle.mas_top_files.specs.Known.{known};
ghost use Rattle.mas_top_files.specs.Sources.{AreRefused};
ghost use Rattle.mas_explore_listing.specs.Told.{IsTold};
ghost use Rattle.mas_explore_top.specs.Asked.{IsPermitted, claimed_of, exploring_of};
ghost use Rattle.mas_explore_top.specs.Explored as spec;

use crate::detail::{level_of, view_of};
use crate::starting::start_in;
use crate::watching::{Watch, Watched};
use crate::words::{Claimed, ExploreWords};
use asl_term::copying::text_of;
use asl_term::sequence::Starved;
use asl_term::syntax::Text;
use mas_explore::origin::Origin;
use mas_explore_agent::agent::SteadyAgent;
use mas_explore_files::kinds::Kinds;
use mas_explore_files::origin::SourceOrigin;
use mas_explore_listing::answers::Question;
use mas_explore_listing::telling::{Told, told_of_runs};
use mas_explore_runs::runs::OriginRuns;
use mas_explore_space::opened::Opened;
use mas_explore_space::states::States;
use mas_io::shelf::Shelf;
use mas_report::options::{Options, default_options};
use mas_top_status::status::Status;
use mas_world::artifact::Artifact;
use std::alloc::Global;

/// The options of all runs. Their limits of cycles and lead are those of no run: each outcome has its own.
#[tactic(auto, using(crate::proofs::Options::is_within, crate::proofs::Options::is_plain))]
fn options_of(words: &ExploreWords<'_>) -> Options
    requires { IsPermitted (exploring_of words.now) }
    ensures value { result ≡ spec.options_of (exploring_of words.now) }
    ensures within { IsWithin result }
    ensures plain { shows_rules result.level ≡ false }
{
    let usual = default_options();
    Options {
        cycles: usual.cycles,
        lead: usual.lead,
        depth: words.depth,
        tries: words.tries,
        level: level_of(words.detail),
    }
}

/// A claim with its line, which ends in a line feed.
fn question_of(alloc: Global, claimed: Option<Claimed<'_>>) -> Result<Option<Question>, Starved>
    ensures { IfOk result (λ q. q ≡ option_map claimed_of claimed.entry) }
{
    match claimed {
        None => Ok(None),
        Some(claimed) => {
            let mut line = text_of(alloc, claimed.line)?;
            line.push(b'\n')?;
            Ok(Some(Question {
                claim: claimed.claim,
                line,
            }))
        }
    }
}

/// The word of the project, and what is claimed.
fn texts_of(alloc: Global, words: &ExploreWords<'_>) -> Result<(Text, Option<Question>), Starved>
    ensures { let e = exploring_of words.now in IfOk result (λ t. (t.0 ≡ e.project) × (t.1 ≡ e.claimed)) }
{
    let project = text_of(alloc, words.project)?;
    let question = question_of(alloc, words.claimed)?;
    Ok((project, question))
}

/// Who watches, where that is asked for.
fn watch_of<W: Watch>(progress: bool, watch: W) -> Option<W> {
    if progress {
        Some(watch)
    } else {
        drop(watch);
        None
    }
}

/// What is told of all runs from an origin, where these are the options of the words.
fn told_of_origin<A: Artifact, K: Kinds<A>, W: Watch>(
    alloc: Global,
    origin: &SourceOrigin<A, K>,
    words: &ExploreWords<'_>,
    o: &Options,
    question: Option<&Question>,
    watch: W,
) -> Result<Told, Starved>
    requires { words.now.states ≤ most_states }
    ensures { IfOk result (IsTold agent_kind (spec.view_of words.now.detail) origin.now words.now.states o.now (option_copied question.entry)) }
{
    let _names = origin.names();
    let space = States::<SteadyAgent, A, Opened<'_, SteadyAgent, A, SourceOrigin<A, K>>>::open(
        alloc,
        Opened::new(origin),
    )?;
    let mut space = Watched::new(space, watch_of(words.progress, watch));
    let runs = OriginRuns::<'_, SteadyAgent, A, SourceOrigin<A, K>>::of(origin);
    let view = view_of(words.detail);
    told_of_runs::<SteadyAgent, _, _>(alloc, &mut space, &runs, view, words.states, o, question)
}

/// What is told of all runs of the project of these words; or why a file of it is refused.
#[tactic(auto, using(crate::proofs::Explored::is_told_in))]
pub fn explored<S: Shelf, A: Artifact, K: Kinds<A>, W: Watch>(
    alloc: Global,
    words: &ExploreWords<'_>,
    kinds: K,
    watch: W,
    shelf: &mut S,
) -> Result<Told, Status>
    requires { IsPermitted (exploring_of words.now) }
    ensures same { S.holds shelf.new ≡ S.holds shelf.old }
    ensures later { S.faults shelf.old ≤ S.faults shelf.new }
    ensures answer { let held = S.holds shelf.old in
        let objects = K.objects kinds in
        let e = exploring_of words.now in
        MatchResult result
        (spec.IsToldIn objects held e)
        (AreRefused (known objects) defaults.cycles held e.project (S.faults shelf.old) (S.faults shelf.new)) }
{
    let (project, question) = match texts_of(alloc, words) {
        Ok(texts) => texts,
        Err(Starved) => {
            drop(kinds);
            return Err(Status::Memory);
        }
    };
    let o = options_of(words);
    let origin = start_in(alloc, o, &project, kinds, shelf)?;
    let told = told_of_origin(alloc, &origin, words, &o, question.as_ref(), watch);
    drop(origin);
    match told {
        Ok(told) => Ok(told),
        Err(Starved) => Err(Status::Memory),
    }
}
