//! Two sites on one thread, and what their runs give back.

ghost use Rattle.std.specs.Prelude.{◌≡◌, ◌++◌, ◌-◌, length, slice_get, IfOk, OnOk};
ghost use Rattle.mas_mind.specs.Minds.{IsAgent};
ghost use Rattle.mas_core.specs.Fits.{Start};
ghost use Rattle.mas_sites_stand.specs.Seats.{seated};
ghost use Rattle.mas_sites_scripts.specs.Giving.{is_own};
ghost use Rattle.mas_sites_scripts.specs.Sites.{AreFresh, before};
ghost use Rattle.mas_sites_rounds.specs.Between.{AreApart};
ghost use Rattle.mas_sites.specs.Results as spec;

use asl_term::sequence::{Seq, Starved};
use mas_core::robin::Done;
use mas_mind::mind::Messages;
use mas_mind::thinking::Mind;
use mas_sites_rounds::runs::{Site, run_in_turns};
use mas_sites_rounds::stage::Closed;
use mas_sites_scripts::giving::{ScriptEntries, lives_here};
use mas_sites_stand::seated::Seated;
use mas_world::artifact::Artifact;
use std::alloc::Global;

/// What the stand of an agent was given to send at a site, cycle by cycle.
#[derive(Drop)]
pub struct Script {
    pub site: u32,
    pub agent: u32,
    pub entries: ScriptEntries,
}

pub type Scripts = Seq<Script>;

/// What the runs of two sites give back: what each comes to, the whole scripts of their stands, by site and then by agent, and
/// the messages that are left on the way between them, by sender and place.
#[derive(Drop)]
pub struct Met<M: Mind, A: Artifact> {
    pub one: Done<Seated<M>, A>,
    pub two: Done<Seated<M>, A>,
    pub scripts: Scripts,
    pub between: Messages,
}

/// Puts the script of an agent's stand last, where it does not live at the site.
fn add_script<M: Mind>(
    scripts: &mut Scripts,
    site: u32,
    minds: &Seq<Seated<M>>,
    agent: u32,
    entries: ScriptEntries,
) -> Result<(), Starved>
    requires { IsAgent (length minds.now) agent }
    ensures { OnOk result (scripts.new ≡ scripts.old ++ spec.script_at site agent (is_own (slice_get minds.now (agent - 1))) entries) }
{
    if lives_here(minds, agent) {
        return Ok(());
    }
    scripts.push(Script {
        site,
        agent,
        entries,
    })
}

/// Puts the scripts of the stands of a site last, by agent.
fn list_scripts<M: Mind>(
    scripts: &mut Scripts,
    site: u32,
    minds: &Seq<Seated<M>>,
    entries: Seq<ScriptEntries>,
) -> Result<(), Starved>
    requires { spec.AreListed minds.now entries }
    ensures { OnOk result (scripts.new ≡ scripts.old ++ spec.scripts_from site 1 minds.now entries) }
{
    let mut agent = 0;
    for script in entries.into_vec() {
        agent += 1;
        add_script(scripts, site, minds, agent, script)?;
    }
    Ok(())
}

/// The messages that are left on the way, by sender and place.
#[tactic(auto, using(crate::proofs::Listing::left_more))]
fn list_left(alloc: Global, ways: Seq<Messages>) -> Result<Messages, Starved>
    ensures { IfOk result (λ r. r ≡ spec.all_left ways) }
{
    let mut left = Seq::new(alloc);
    for way in ways.into_vec() {
        left.append_all(way)?;
    }
    Ok(left)
}

/// What two sites are let go with, and what is left on the way between them.
pub fn put_together<M: Mind, A: Artifact>(
    alloc: Global,
    one: Closed<M, A>,
    two: Closed<M, A>,
    ways: Seq<Messages>,
) -> Result<Met<M, A>, Starved>
    requires one { spec.AreListed one.minds one.scripts }
    requires two { spec.AreListed two.minds two.scripts }
    ensures one { IfOk result (λ r. (r.one.board ≡ one.board) × (r.one.minds ≡ one.minds)) }
    ensures two { IfOk result (λ r. (r.two.board ≡ two.board) × (r.two.minds ≡ two.minds)) }
    ensures scripts { IfOk result (λ r. r.scripts ≡ spec.all_scripts one.minds one.scripts two.minds two.scripts) }
    ensures between { IfOk result (λ r. r.between ≡ spec.all_left ways) }
{
    let Closed {
        board: board_one,
        minds: minds_one,
        scripts: of_one,
    } = one;
    let Closed {
        board: board_two,
        minds: minds_two,
        scripts: of_two,
    } = two;
    let mut scripts = Seq::new(alloc);
    list_scripts(&mut scripts, 1, &minds_one, of_one)?;
    list_scripts(&mut scripts, 2, &minds_two, of_two)?;
    let between = list_left(alloc, ways)?;
    let one = Done {
        board: board_one,
        minds: minds_one,
    };
    let two = Done {
        board: board_two,
        minds: minds_two,
    };
    Ok(Met {
        one,
        two,
        scripts,
        between,
    })
}

/// Two sites make their rounds in turns on one thread, site 1 first, until both have ended.
pub fn meet_in_turns<M: Mind, A: Artifact>(
    alloc: Global,
    one: Site<M, A>,
    two: Site<M, A>,
) -> Result<Met<M, A>, Starved>
    requires one { Start (seated M.kind) one.board one.minds }
    requires two { Start (seated M.kind) two.board two.minds }
    requires fresh { AreFresh one.minds × AreFresh two.minds }
    requires apart { AreApart one.minds two.minds }
    ensures run { IfOk result (λ r. spec.HaveRun M.kind (before one.board.state one.minds) (before two.board.state two.minds)
        (spec.ended r.one.board r.one.minds) (spec.ended r.two.board r.two.minds) r.scripts r.between) }
    ensures fold { IfOk result (λ r. spec.IsFold M.kind (before one.board.state one.minds) (before two.board.state two.minds)
        (spec.ended r.one.board r.one.minds) (spec.ended r.two.board r.two.minds) r.scripts r.between) }
{
    one.board.holds();
    two.board.holds();
    let runs = run_in_turns(alloc, one, two)?;
    let met = put_together(alloc, runs.one, runs.two, runs.left)?;
    Ok(met)
}
