//! Whole runs. The agents' own minds are stands too: what is in its script is what such a mind writes.

ghost use Rattle.std.specs.Prelude.{◌≡◌, ◌≤◌, IfOk, length};
ghost use Rattle.mas_mind.specs.Minds.{IsAgent, IsFrom};
ghost use Rattle.test_sites.specs.Players as spec;

use asl_term::copying::text_of;
use asl_term::names::{Names, number};
use asl_term::sequence::{Seq, Starved};
use asl_term::syntax::{LiteralOf, Term};
use mas_artifact::tally::Tally;
use mas_board::board::{Board, open_board};
use mas_mind::mind::{Message, Verb};
use mas_mind::thinking::Mind;
use mas_sites::met::Met;
use mas_sites::sites::run_sites;
use mas_sites_rounds::runs::Site;
use mas_sites_stand::opening::stand;
use mas_sites_stand::seated::Seated;
use mas_sites_stand::stand::Stand;
use mas_world::segment::Segment;
use mas_world::world::{Artifacts, World};
use std::alloc::Global;
use std::sync::Wait;
use std::thread::Threads;

fn put_name(alloc: Global, names: &mut Names, name: &[u8]) -> Result<(), Starved> {
    let text = text_of(alloc, name)?;
    if names.len() < 2 {
        number(names, &text)?;
    }
    Ok(())
}

fn two_names(alloc: Global) -> Result<Names, Starved>
    ensures { IfOk result (λ names. length names ≡ 2) }
{
    let mut names = Names::new(alloc)?;
    put_name(alloc, &mut names, b"alice")?;
    put_name(alloc, &mut names, b"bob")?;
    if names.len() == 2 {
        Ok(names)
    } else {
        Err(Starved)
    }
}

/// A board of two agents in a world without facts, on which each may make five cycles.
#[tactic(auto, using(crate::proofs::Starts::opened))]
fn board_of_two(alloc: Global) -> Result<Board<Tally>, Starved>
    ensures { IfOk result spec.IsOpened }
{
    let hidden = Names::new(alloc)?;
    let names = two_names(alloc)?;
    let file = Segment::new(Seq::new(alloc), Seq::new(alloc));
    let world = World::of(file, hidden, Artifacts::new(alloc));
    open_board(alloc, world, names, 5, 1)
}

/// A message from one agent to another.
fn letter(alloc: Global, from: u32, to: u32) -> Result<Message, Starved>
    requires { IsAgent 2 to }
    ensures { IfOk result (IsFrom from 2) }
{
    let functor = text_of(alloc, b"p")?;
    let content = Term::Lit(LiteralOf {
        neg: false,
        functor,
        args: Seq::new(alloc),
        annots: Seq::new(alloc),
    });
    Ok(Message {
        from,
        to,
        verb: Verb::Tell,
        content,
        ask: 0,
        reply: 0,
    })
}

/// A stand of this agent, before its first cycle.
fn fresh(alloc: Global, me: u32) -> Result<Stand, Starved>
    requires { IsAgent 2 me }
    ensures { IfOk result (spec.IsFresh me) }
{
    let names = two_names(alloc)?;
    stand(alloc, me, &names)
}

/// A mind of this agent that writes a letter in its first cycle, or nothing.
fn writer(alloc: Global, me: u32, to: u32, writes: bool) -> Result<Stand, Starved>
    requires me { IsAgent 2 me }
    requires to { IsAgent 2 to }
    ensures { IfOk result (spec.IsNew me) }
{
    let mut mind = fresh(alloc, me)?;
    if writes {
        let m = letter(alloc, me, to)?;
        mind.add_entry(Some(m))?;
    }
    Ok(mind)
}

/// At site 1 lives alice.
fn minds_of_one(alloc: Global, writes: bool) -> Result<Seq<Seated<Stand>>, Starved>
    ensures { IfOk result spec.AreOfOne }
{
    let alice = writer(alloc, 1, 2, writes)?;
    let bob = fresh(alloc, 2)?;
    let mut minds = Seq::new(alloc);
    minds.push(Seated::Own(alice))?;
    minds.push(Seated::Stand(bob))?;
    Ok(minds)
}

/// At site 2 lives bob.
fn minds_of_two(alloc: Global, writes: bool) -> Result<Seq<Seated<Stand>>, Starved>
    ensures { IfOk result spec.AreOfTwo }
{
    let alice = fresh(alloc, 1)?;
    let bob = writer(alloc, 2, 1, writes)?;
    let mut minds = Seq::new(alloc);
    minds.push(Seated::Stand(alice))?;
    minds.push(Seated::Own(bob))?;
    Ok(minds)
}

/// Runs both sites, at which alice, and bob, may write.
fn play<R: Threads + Wait + Sync>(
    rt: &R,
    alloc: Global,
    alice: bool,
    bob: bool,
    workers: u32,
) -> Result<Met<Stand, Tally>, Starved>
    requires { (1 ≤ workers) × (workers ≤ 2) }
{
    let minds_one = minds_of_one(alloc, alice)?;
    let minds_two = minds_of_two(alloc, bob)?;
    let board_one = board_of_two(alloc)?;
    let board_two = board_of_two(alloc)?;
    let one = Site {
        board: board_one,
        minds: minds_one,
    };
    let two = Site {
        board: board_two,
        minds: minds_two,
    };
    run_sites(rt, alloc, one, two, workers)
}

/// Whether the lines of what sits at this place are these.
fn shows(minds: &Seq<Seated<Stand>>, place: u64, lines: &[u8]) -> bool {
    match minds.at(place) {
        Some(mind) => mind.lines().as_slice() == lines,
        None => false,
    }
}

/// How many of these lines tell of a message that was sent.
fn sends_in(lines: &[u8]) -> u64 {
    let mut count = 0;
    for place in 0..lines.len() {
        if lines[place..].starts_with(b" sends ") && count < 1000 {
            count += 1;
        }
    }
    count
}

/// How many messages the stands of a site sent on, by their lines.
fn sends_at(minds: &Seq<Seated<Stand>>) -> u64 {
    let mut count: u64 = 0;
    for mind in minds.as_slice() {
        match mind {
            Seated::Stand(stand) => {
                count = count.saturating_add(sends_in(stand.lines().as_slice()))
            }
            Seated::Own(_) => (),
        }
    }
    count
}

/// How many messages came to the other site: those that the stands there sent on in a cycle.
fn arrived(met: &Met<Stand, Tally>) -> u64 {
    sends_at(&met.one.minds).saturating_add(sends_at(&met.two.minds))
}

/// How many messages are in the scripts of the stands.
fn scripted(met: &Met<Stand, Tally>) -> u64 {
    let mut count = 0;
    for script in met.scripts.as_slice() {
        for entry in script.entries.as_slice() {
            if entry.is_some() && count < 1000 {
                count += 1;
            }
        }
    }
    count
}

/// Alice writes to bob, and her message goes from stand to stand in the first round.
#[test]
fn a_message_arrives(rt: HostRuntime) -> Result<(), Starved> {
    let met = play(&rt, rt.alloc(), true, false, 1)?;
    assert!(rt; shows(&met.one.minds, 0, b"1 sends bob tell p\n"));
    assert!(rt; shows(&met.one.minds, 1, b"1 took alice tell p\n"));
    assert!(rt; shows(&met.two.minds, 0, b"1 sends bob tell p\n"));
    assert!(rt; shows(&met.two.minds, 1, b"1 took alice tell p\n"));
    assert!(rt; met.one.board.schedule().len() == 22);
    assert!(rt; met.two.board.schedule().len() == 22);
    assert!(rt; met.between.len() == 0);
    assert!(rt; arrived(&met) == 1);
    assert!(rt; scripted(&met) == 1);
    Ok(())
}

/// With two workers it is taken at once, and it arrives or is left.
#[test]
fn a_message_arrives_or_is_left(rt: HostRuntime) -> Result<(), Starved> {
    let met = play(&rt, rt.alloc(), true, false, 2)?;
    assert!(rt; shows(&met.one.minds, 0, b"1 sends bob tell p\n"));
    assert!(rt; shows(&met.one.minds, 1, b"1 took alice tell p\n"));
    assert!(rt; met.one.board.schedule().len() == 22);
    assert!(rt; met.two.board.schedule().len() == 22);
    assert!(rt; arrived(&met).saturating_add(met.between.len()) == 1);
    assert!(rt; scripted(&met) == arrived(&met));
    Ok(())
}

/// Each of alice and bob writes to the other one. The stand of each puts the message on its wire in round 1 or 2 of its site,
/// and asks for one from the other wire for the last time in round 5. Were both missed, each of these last calls would come
/// before the put of the other site.
#[test]
fn sites_meet(rt: HostRuntime) -> Result<(), Starved> {
    let met = play(&rt, rt.alloc(), true, true, 2)?;
    assert!(rt; arrived(&met) > 0);
    assert!(rt; arrived(&met).saturating_add(met.between.len()) == 2);
    assert!(rt; scripted(&met) == arrived(&met));
    Ok(())
}
