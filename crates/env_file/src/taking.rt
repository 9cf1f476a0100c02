//! What a statement makes of the world of those before it.

ghost use Rattle.std.specs.Prelude.{◌≡◌, ◌++◌, [], IfOk, OnOk, Err};
ghost use Rattle.std.specs.Option.{option_copied, option_to_list};
ghost use Rattle.asl_term.specs.Names.{with_name};
ghost use Rattle.env_file.specs.declared.fault.WorldFault.TheVariants.{Clause, UnknownArtifact};
ghost use Rattle.env_file.specs.Answering.{Makes, Told};
ghost use Rattle.env_file.specs.Guards as guards;
ghost use Rattle.env_file.specs.Worlds as spec;

use crate::binding::unbound;
use crate::fault::WorldFault;
use crate::guards::{exprs_of, said_parts};
use crate::statement::{Effect, Part, Statement, WrittenAct};
use asl_lexer::token::Tok;
use asl_term::copying::{copy, copy_literal, copy_text};
use asl_term::names::{Names, find, number};
use asl_term::sequence::{Seq, Starved};
use asl_term::syntax::{Literal, Literals, Text};
use mas_world::acts::{Act, WorldText};
use mas_world::facts::is_fact;
use std::alloc::Global;

/// A repeated fact is kept once.
fn put_fact(alloc: Global, text: &mut WorldText, l: &Literal) -> Result<(), Starved>
    ensures { OnOk result (text.new ≡ spec.with_said text.old l.now) }
{
    if is_fact(text.facts.as_slice(), l) {
        return Ok(());
    }
    text.facts.push(copy_literal(alloc, l)?)
}

#[tactic(auto, using(crate::proofs::Naming::has_some, crate::proofs::Naming::has_none))]
fn has_name(names: &Names, name: &Text) -> bool
    ensures { result ≡ spec.has_name names.now name.now }
{
    match find(names, name) {
        Some(_) => true,
        None => false,
    }
}

/// The name goes last, unless it is there. There may be 4,294,967,295 names: so many would fill any memory.
pub fn put_name(names: &mut Names, name: &Text) -> Result<(), Starved>
    ensures { OnOk result (names.new ≡ with_name names.old name.now) }
{
    if names.len() == u32::MAX {
        return Err(Starved);
    }
    number(names, name)?;
    Ok(())
}

fn put_hidden(text: &mut WorldText, name: &Text) -> Result<(), Starved>
    ensures { OnOk result (text.new ≡ spec.with_hidden text.old name.now) }
{
    put_name(&mut text.hidden, name)
}

fn put_use(text: &mut WorldText, name: &Text) -> Result<(), Starved>
    ensures { OnOk result (text.new ≡ spec.with_use text.old name.now) }
{
    put_name(&mut text.uses, name)
}

/// The refusal of a clause, counted from 1. It is told where the first token of the clause stands.
pub fn clause_fault(number: u64, first: &Tok) -> WorldFault
    ensures { result ≡ Clause number first.now.line first.now.column }
{
    WorldFault::Clause {
        number,
        line: first.line,
        column: first.column,
    }
}

fn unknown(alloc: Global, number: u64, name: &Text) -> WorldFault
    ensures { Told (Err result) (Err (UnknownArtifact number name.now)) }
{
    match copy_text(alloc, name) {
        Ok(name) => WorldFault::UnknownArtifact { number, name },
        Err(_) => WorldFault::Memory,
    }
}

fn make_use(
    alloc: Global,
    artifacts: &Names,
    text: &mut WorldText,
    number: u64,
    first: &Tok,
    name: &Text,
) -> Result<(), WorldFault>
    ensures { Makes result text.new (spec.use_made artifacts.now text.old number first.now name.now) }
{
    if has_name(&text.uses, name) {
        return Err(clause_fault(number, first));
    }
    if !has_name(artifacts, name) {
        return Err(unknown(alloc, number, name));
    }
    put_use(text, name)?;
    Ok(())
}

/// The literal that an effect adds, or takes away.
fn change(add: bool, e: &Effect) -> Option<&Literal>
    ensures { option_copied result ≡ spec.change add e.now }
{
    match e {
        Effect::Added(l) => { if add { Some(l) } else { None } }
        Effect::Deleted(l) => { if add { None } else { Some(l) } }
        Effect::Dropped(_) => None,
    }
}

fn put_change(alloc: Global, all: &mut Literals, add: bool, e: &Effect) -> Result<(), Starved>
    ensures { OnOk result (all.new ≡ all.old ++ option_to_list (spec.change add e.now)) }
{
    match change(add, e) {
        Some(l) => all.push(copy_literal(alloc, l)?),
        None => Ok(()),
    }
}

/// The literals that effects add, or take away.
#[tactic(auto, using(crate::proofs::Lists::changes_more, crate::proofs::Lists::changes_all))]
fn changes(alloc: Global, add: bool, es: &[Effect]) -> Result<Literals, Starved>
    ensures { IfOk result (λ ls. ls ≡ spec.changes add es.now) }
{
    let mut all = Seq::new(alloc);
    let mut rest = es;
    'effects: while let Some((e, after)) = rest.split_first() {
        put_change(alloc, &mut all, add, e)?;
        rest = after;
    }
    Ok(all)
}

fn put_drop(names: &mut Names, e: &Effect) -> Result<(), Starved>
    ensures { OnOk result (names.new ≡ spec.with_drop names.old e.now) }
{
    match e {
        Effect::Added(_) => Ok(()),
        Effect::Deleted(_) => Ok(()),
        Effect::Dropped(name) => put_name(names, name),
    }
}

/// The names of the artifacts that effects drop, each once.
#[tactic(auto, using(crate::proofs::Lists::drops_all))]
fn drops(alloc: Global, es: &[Effect]) -> Result<Names, Starved>
    ensures { IfOk result (λ names. names ≡ spec.drops [] es.now) }
{
    let mut names = Names::new(alloc)?;
    let mut rest = es;
    'effects: while let Some((e, after)) = rest.split_first() {
        put_drop(&mut names, e)?;
        rest = after;
    }
    Ok(names)
}

fn act_of(alloc: Global, a: &WrittenAct, ps: &[Part]) -> Result<Act, Starved>
    ensures { IfOk result (λ r. r ≡ spec.act_of a.now ps.now) }
{
    let drops = drops(alloc, a.effects.as_slice())?;
    let guard = exprs_of(alloc, ps)?;
    let dels = changes(alloc, false, a.effects.as_slice())?;
    let adds = changes(alloc, true, a.effects.as_slice())?;
    let head = copy_literal(alloc, &a.head)?;
    let by = copy(alloc, &a.by)?;
    Ok(Act {
        head,
        by,
        guard,
        dels,
        adds,
        drops,
    })
}

fn put_act(alloc: Global, text: &mut WorldText, a: &WrittenAct, ps: &[Part]) -> Result<(), Starved>
    ensures { OnOk result (text.new ≡ spec.with_act text.old (spec.act_of a.now ps.now)) }
{
    text.acts.push(act_of(alloc, a, ps)?)
}

fn make_act(
    alloc: Global,
    text: &mut WorldText,
    number: u64,
    a: &WrittenAct,
    ps: &[Part],
) -> Result<(), WorldFault>
    ensures { Makes result text.new (spec.act_made text.old number a.now ps.now) }
{
    if let Some(name) = unbound(alloc, a, ps)? {
        return Err(WorldFault::Unbound { number, name });
    }
    put_act(alloc, text, a, ps)?;
    Ok(())
}

fn make_guarded(
    alloc: Global,
    text: &mut WorldText,
    number: u64,
    a: &WrittenAct,
) -> Result<(), WorldFault>
    ensures { Makes result text.new (spec.act_made text.old number a.now (guards.said_parts a.now.guard)) }
{
    let ps = said_parts(alloc, &a.guard)?;
    make_act(alloc, text, number, a, ps.as_slice())
}

/// Makes of the world what a clause says; else the clause is refused.
pub fn make(
    alloc: Global,
    artifacts: &Names,
    text: &mut WorldText,
    number: u64,
    first: &Tok,
    s: &Statement,
) -> Result<(), WorldFault>
    ensures { Makes result text.new (spec.made artifacts.now text.old number first.now s.now) }
{
    match s {
        Statement::Fact(l) => {
            put_fact(alloc, text, l)?;
            Ok(())
        }
        Statement::Hide(name) => {
            put_hidden(text, name)?;
            Ok(())
        }
        Statement::Use(name) => make_use(alloc, artifacts, text, number, first, name),
        Statement::Act(a) => make_guarded(alloc, text, number, a),
    }
}
