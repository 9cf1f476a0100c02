//! What a mind is given together with its input.

ghost use Rattle.std.specs.Prelude.{◌≡◌, ◌-◌, ◌<◌, [], length, replicate, slice_get, IfOk, IfSome, OnOk};
ghost use Rattle.mas_mind.specs.Minds.{IsAgent, IsFor};
ghost use Rattle.mas_sites_stand.specs.Seats.{seated};
ghost use Rattle.mas_sites_stand.specs.Stands.{IsEntry};
ghost use Rattle.mas_sites_scripts.specs.Scripts.{given, change, longer};
ghost use Rattle.mas_sites_scripts.specs.Giving as spec;

use crate::carrier::Carrier;
use asl_term::sequence::{Seq, Starved};
use mas_mind::copying::copy_message;
use mas_mind::mind::Message;
use mas_mind::thinking::Mind;
use mas_sites_stand::seated::Seated;
use std::alloc::Global;

/// What a stand sends, cycle by cycle.
pub type ScriptEntries = Seq<Option<Message>>;

fn copy_entry(alloc: Global, e: &Option<Message>) -> Result<Option<Message>, Starved>
    ensures { IfOk result (λ r. r ≡ e.now) }
{
    match e {
        None => Ok(None),
        Some(m) => {
            let m = copy_message(alloc, m)?;
            Ok(Some(m))
        }
    }
}

/// Puts an entry last among those that the stand of an agent was given.
#[tactic(auto, using(crate::proofs::Changes::changed_is))]
fn note_entry(scripts: &mut Seq<ScriptEntries>, a: u32, e: Option<Message>) -> Result<(), Starved>
    requires { IsAgent (length scripts.old) a }
    ensures { OnOk result (scripts.new ≡ change (a - 1) (longer e) scripts.old) }
{
    let script = scripts.at_mut((a - 1) as u64);
    script.push(e)
}

/// Puts an entry last into the script of the stand of an agent.
#[tactic(auto, using(crate::proofs::Changes::changed_is))]
fn give_entry<M: Mind>(
    minds: &mut Seq<Seated<M>>,
    a: u32,
    e: Option<Message>,
) -> Result<(), Starved>
    requires agent { IsAgent (length minds.old) a }
    requires entry { IfSome (slice_get minds.old (a - 1)) (λ m. IsEntry ((seated M.kind).me m) ((seated M.kind).agents m) e) }
    ensures { OnOk result (minds.new ≡ change (a - 1) (given e) minds.old) }
{
    match minds.at_mut((a - 1) as u64) {
        Seated::Own(_) => Ok(()),
        Seated::Stand(stand) => stand.add_entry(e),
    }
}

/// Whether a stand sits in the place of an agent.
fn has_stand<M: Mind>(minds: &Seq<Seated<M>>, a: u32) -> bool
    requires { IsAgent (length minds.now) a }
    ensures { spec.StandsAt (slice_get minds.now (a - 1)) result }
{
    match minds.at((a - 1) as u64) {
        Some(Seated::Stand(_)) => true,
        Some(Seated::Own(_)) => false,
        None => unreachable!(),
    }
}

/// Whether an agent lives at the site.
pub fn lives_here<M: Mind>(minds: &Seq<Seated<M>>, a: u32) -> bool
    requires { IsAgent (length minds.now) a }
    ensures { result ≡ spec.is_own (slice_get minds.now (a - 1)) }
{
    match minds.at((a - 1) as u64) {
        Some(Seated::Own(_)) => true,
        Some(Seated::Stand(_)) => false,
        None => false,
    }
}

/// What a stand takes of an agent that lives at the site goes to the other one.
fn send_taken<M: Mind, C: Carrier>(
    alloc: Global,
    carrier: &mut C,
    minds: &Seq<Seated<M>>,
    message: &Option<Message>,
) -> Result<(), Starved>
    requires agents { C.agents carrier.old ≡ length minds.now }
    requires message { IfSome message.now (λ m. IsAgent (length minds.now) m.from × IsAgent (length minds.now) m.to) }
    ensures sent { OnOk result (spec.Sends C.put carrier.old (spec.leaving minds.now message.now) carrier.new) }
    ensures same { C.agents carrier.new ≡ C.agents carrier.old }
{
    match message {
        None => Ok(()),
        Some(m) => {
            if lives_here(minds, m.from) {
                carrier.send(alloc, m)
            } else {
                Ok(())
            }
        }
    }
}

/// A stand gets the next entry of its script from the other site, and what it takes goes there.
pub fn give<M: Mind, C: Carrier>(
    alloc: Global,
    carrier: &mut C,
    minds: &mut Seq<Seated<M>>,
    scripts: &mut Seq<ScriptEntries>,
    a: u32,
    message: &Option<Message>,
) -> Result<(), Starved>
    requires agent { IsAgent (length minds.old) a }
    requires number { length scripts.old ≡ length minds.old }
    requires agents { C.agents carrier.old ≡ length minds.old }
    requires mind { IfSome (slice_get minds.old (a - 1)) (λ m. ((seated M.kind).me m ≡ a) × ((seated M.kind).agents m ≡ length minds.old)) }
    requires message { IfSome message.now (IsFor a (length minds.old)) }
    ensures given { OnOk result (spec.IsGiven C.got C.put carrier.old carrier.new
        (spec.placing minds.old scripts.old) (spec.placing minds.new scripts.new) a message.now) }
    ensures same { C.agents carrier.new ≡ C.agents carrier.old }
{
    if !has_stand(minds, a) {
        return Ok(());
    }
    send_taken(alloc, carrier, minds, message)?;
    let entry = carrier.next(a);
    let copied = copy_entry(alloc, &entry)?;
    note_entry(scripts, a, copied)?;
    give_entry(minds, a, entry)
}

/// No entries for so many agents.
pub fn no_entries(alloc: Global, agents: u64) -> Result<Seq<ScriptEntries>, Starved>
    ensures { IfOk result (λ s. s ≡ replicate agents []) }
{
    let mut scripts = Seq::new(alloc);
    for i in 0..agents {
        prove!(i < agents);
        scripts.push(Seq::new(alloc))?;
    }
    Ok(scripts)
}
