//! The messages of `.send` and `.broadcast`.

ghost use Rattle.std.specs.Prelude.{◌≡◌, Some, IfOk};
ghost use Rattle.std.specs.Option.{option_copied};
ghost use Rattle.asl_term.specs.Names.{place_of};
ghost use Rattle.asl_exec_circumstance.specs.Contents as contents;
ghost use Rattle.asl_goals.specs.Sending as spec;

use crate::acted::Why;
use asl_exec_circumstance::content::{are_strings, ground_literals, is_string, literals_of};
use asl_exec_circumstance::peers::Peers;
use asl_term::copying::{copy, copy_text};
use asl_term::names::{Names, find};
use asl_term::sequence::{Seq, Starved};
use asl_term::syntax::{Arg, ArgOf, Literal, Term, Text};
use asl_unify::seal::seal;
use mas_mind::mind::{Message, Messages, Verb, verb_text};
use std::alloc::Global;

/// What `.send` says: the number of the receiver, the verb and the sealed content.
#[derive(Drop)]
pub struct Letter {
    pub to: u32,
    pub verb: Verb,
    pub content: Term,
}

/// The term at a place of the arguments.
pub fn term_at(args: &[Arg], n: u64) -> Option<&Term>
    ensures { option_copied result ≡ spec.term_at args.now n }
{
    match args.get(n as usize) {
        None => None,
        Some(ArgOf::Plain(t)) => Some(t),
        Some(ArgOf::Logic(_)) => None,
    }
}

/// A term that is a literal.
pub fn literal_of(t: &Term) -> Option<&Literal>
    ensures { option_copied result ≡ contents.literal_of t.now }
{
    match t {
        Term::Lit(l) => Some(l),
        _ => None,
    }
}

/// Whether a literal is an atom.
fn is_atom(l: &Literal) -> bool
    ensures { result ≡ contents.is_atom l.now }
{
    !l.neg && l.args.len() == 0 && l.annots.len() == 0
}

/// The name of a term that is an atom.
fn atom_name(t: &Term) -> Option<&Text>
    ensures { option_copied result ≡ spec.atom_literal (contents.literal_of t.now) }
{
    match literal_of(t) {
        None => None,
        Some(l) => { if is_atom(l) { Some(&l.functor) } else { None } }
    }
}

/// The name of the atom at a place.
fn atom_at(args: &[Arg], n: u64) -> Option<&Text>
    ensures { option_copied result ≡ spec.atom_at args.now n }
{
    match term_at(args, n) {
        None => None,
        Some(t) => atom_name(t),
    }
}

/// The number of the agent of a name.
fn known(alloc: Global, names: &Names, name: &Text) -> Result<Result<u32, Why>, Starved>
    ensures { IfOk result (λ r. r ≡ spec.known name.now (place_of names.now name.now)) }
{
    match find(names, name) {
        Some(n) => Ok(Ok(n)),
        None => {
            let name = copy_text(alloc, name)?;
            Ok(Err(Why::UnknownReceiver(name)))
        }
    }
}

/// The number of the agent that the first argument names.
fn receiver(alloc: Global, names: &Names, args: &[Arg]) -> Result<Result<u32, Why>, Starved>
    ensures { IfOk result (λ r. r ≡ spec.receiver names.now args.now) }
{
    match atom_at(args, 0) {
        None => Ok(Err(Why::Argument(0))),
        Some(name) => known(alloc, names, name),
    }
}

/// Whether a name is the word of a verb.
fn is_word(name: &Text, verb: Verb) -> bool
    ensures { result ≡ spec.is_word name.now verb }
{
    name.as_slice() == verb_text(verb).as_bytes()
}

/// The verb of a name.
fn verb_named(name: &Text) -> Option<Verb>
    ensures { result ≡ spec.verb_named name.now }
{
    if is_word(name, Verb::Tell) {
        return Some(Verb::Tell);
    }
    if is_word(name, Verb::Untell) {
        return Some(Verb::Untell);
    }
    if is_word(name, Verb::Achieve) {
        return Some(Verb::Achieve);
    }
    if is_word(name, Verb::Unachieve) {
        return Some(Verb::Unachieve);
    }
    if is_word(name, Verb::AskOne) {
        return Some(Verb::AskOne);
    }
    if is_word(name, Verb::AskAll) {
        return Some(Verb::AskAll);
    }
    if is_word(name, Verb::TellHow) {
        return Some(Verb::TellHow);
    }
    if is_word(name, Verb::UntellHow) {
        return Some(Verb::UntellHow);
    }
    if is_word(name, Verb::AskHow) {
        return Some(Verb::AskHow);
    }
    None
}

/// The verb at a place.
fn verb_at(args: &[Arg], n: u64) -> Option<Verb>
    ensures { result ≡ spec.verb_at args.now n }
{
    match atom_at(args, n) {
        None => None,
        Some(name) => verb_named(name),
    }
}

/// Whether a verb asks for an answer.
pub fn is_ask(verb: Verb) -> bool
    ensures { result ≡ spec.is_ask verb }
{
    match verb {
        Verb::AskOne | Verb::AskAll | Verb::AskHow => true,
        Verb::Tell
        | Verb::Untell
        | Verb::Achieve
        | Verb::Unachieve
        | Verb::TellHow
        | Verb::UntellHow => false,
    }
}

/// Whether a verb can be said of a content: `tell` of ground literals, `untell` of literals, `tellHow` of strings, `untellHow` of a
/// string or an atom, the others of a literal.
fn fits(alloc: Global, verb: Verb, t: &Term) -> Result<bool, Starved>
    ensures { IfOk result (λ b. b ≡ spec.fits verb t.now) }
{
    match verb {
        Verb::Tell => {
            let literals = ground_literals(alloc, t)?;
            let is_ground = literals.is_some();
            drop(literals);
            Ok(is_ground)
        }
        Verb::Untell => {
            let literals = literals_of(alloc, t)?;
            let has_literals = literals.is_some();
            drop(literals);
            Ok(has_literals)
        }
        Verb::Achieve | Verb::Unachieve | Verb::AskOne | Verb::AskAll | Verb::AskHow => {
            Ok(literal_of(t).is_some())
        }
        Verb::TellHow => Ok(are_strings(t)),
        Verb::UntellHow => Ok(is_string(t) || atom_name(t).is_some()),
    }
}

/// The content that is sealed, or the place of an argument with which the verb can't be said.
fn content_of(alloc: Global, verb: Verb, n: u64, t: &Term) -> Result<Result<Term, Why>, Starved>
    ensures { IfOk result (λ r. r ≡ spec.content_of verb n (Some t.now)) }
{
    let content = seal(alloc, t)?;
    match fits(alloc, verb, &content) {
        Ok(true) => Ok(Ok(content)),
        Ok(false) => {
            drop(content);
            Ok(Err(Why::Argument(n)))
        }
        Err(starved) => {
            drop(content);
            Err(starved)
        }
    }
}

/// The sealed content at a place.
fn content_at(alloc: Global, verb: Verb, args: &[Arg], n: u64) -> Result<Result<Term, Why>, Starved>
    ensures { IfOk result (λ r. r ≡ spec.content_at verb args.now n) }
{
    match term_at(args, n) {
        None => Ok(Err(Why::Argument(n))),
        Some(t) => content_of(alloc, verb, n, t),
    }
}

/// The letter to a receiver, with this verb.
fn with_verb(
    alloc: Global,
    to: u32,
    verb: Verb,
    args: &[Arg],
) -> Result<Result<Letter, Why>, Starved>
    ensures { IfOk result (λ r. r ≡ spec.with_verb to args.now (Some verb)) }
{
    match content_at(alloc, verb, args, 2)? {
        Err(why) => Ok(Err(why)),
        Ok(content) => Ok(Ok(Letter { to, verb, content })),
    }
}

/// The letter to a receiver.
fn with_receiver(alloc: Global, to: u32, args: &[Arg]) -> Result<Result<Letter, Why>, Starved>
    ensures { IfOk result (λ r. r ≡ spec.with_verb to args.now (spec.verb_at args.now 1)) }
{
    match verb_at(args, 1) {
        None => Ok(Err(Why::Argument(1))),
        Some(verb) => with_verb(alloc, to, verb, args),
    }
}

/// The letter that the arguments of `.send` make: receiver, verb and content are looked at in this order.
pub fn letter_of(alloc: Global, names: &Names, args: &[Arg]) -> Result<Result<Letter, Why>, Starved>
    ensures { IfOk result (λ r. r ≡ spec.letter names.now args.now) }
{
    match receiver(alloc, names, args)? {
        Err(why) => Ok(Err(why)),
        Ok(to) => with_receiver(alloc, to, args),
    }
}

/// A letter as a message of the agent `me`, with the number of an ask or 0.
pub fn posted(me: u32, number: u64, l: Letter) -> Message
    ensures { result ≡ spec.posted me number l }
{
    let Letter { to, verb, content } = l;
    Message {
        from: me,
        to,
        verb,
        content,
        ask: number,
        reply: 0,
    }
}

/// The same to every agent but the sender.
fn to_others(alloc: Global, peers: &Peers, verb: Verb, t: &Term) -> Result<Messages, Starved>
    ensures { IfOk result (λ r. r ≡ spec.to_others peers.now.me verb t.now 1 peers.now.names) }
{
    let mut messages = Seq::new(alloc);
    for k in 0..peers.names.get().len() {
        let to = k + 1;
        let is_other = to != peers.me;
        if is_other {
            let content = copy(alloc, t)?;
            messages.push(posted(peers.me, 0, Letter { to, verb, content }))?;
        }
    }
    Ok(messages)
}

/// The messages of a verb that is no ask.
fn spread_verb(
    alloc: Global,
    peers: &Peers,
    verb: Verb,
    args: &[Arg],
) -> Result<Result<Messages, Why>, Starved>
    ensures { IfOk result (λ r. r ≡ spec.spread_content peers.now verb (spec.content_at verb args.now 1)) }
{
    match content_at(alloc, verb, args, 1)? {
        Err(why) => Ok(Err(why)),
        Ok(content) => {
            let messages = to_others(alloc, peers, verb, &content);
            drop(content);
            Ok(Ok(messages?))
        }
    }
}

/// The messages of `.broadcast`. An ask isn't for all.
pub fn spread(alloc: Global, peers: &Peers, args: &[Arg]) -> Result<Result<Messages, Why>, Starved>
    ensures { IfOk result (λ r. r ≡ spec.spread peers.now args.now) }
{
    match verb_at(args, 0) {
        None => Ok(Err(Why::Argument(0))),
        Some(verb) => {
            if is_ask(verb) {
                return Ok(Err(Why::Argument(0)));
            }
            spread_verb(alloc, peers, verb, args)
        }
    }
}
