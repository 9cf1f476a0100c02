//! A world, as far as it is read: what agents may see of it, and its acts.

use crate::deeds::{Groups, Set, new_groups};
use crate::reading::pieces_of;
use asl_lexer::token::{Tok, Toks};
use asl_parser_tree::bounded::Bounded;
use asl_parser_tree::lexeme::lexemes;
use asl_parser_tree::limits::{MOST_BRACKETS, too_deep};
use asl_term::copying::copy_text;
use asl_term::names::{Names, find};
use asl_term::sequence::{Seq, Starved};
use asl_term::syntax::{Literal, Term, Text};
use env_file::clauses::statement;
use env_file::fault::WorldFault;
use env_file::statement::Statement;
use env_file::taking::make;
use look_pieces::clause::copy_toks;
use look_reasons::bytes::{Mended, mended_of};
use mas_world::acts::WorldText;
use std::alloc::Global;

/// What is known of a world: the names of the facts that agents may see and of its acts, and its bytes with the tokens of its acts.
pub struct ReadWorld {
    pub names: Groups,
    pub file: Text,
    pub bytes: Text,
    pub text: Text,
    pub written: Seq<Toks>,
}

/// By hand, so that who lets one go proves nothing of its parts.
impl Drop for ReadWorld {
    fn drop(self) {
        let ReadWorld {
            names: _,
            file: _,
            bytes: _,
            text: _,
            written: _,
        } = self;
    }
}

/// The acts of artifacts: the name of the artifact, and the functor and the number of arguments of the act.
static ACTS: [(&[u8], &[u8], u64); 5] = [
    (b"tally", b"tally_add", 1),
    (b"slot", b"slot_take", 0),
    (b"slot", b"slot_give", 0),
    (b"belt", b"belt_put", 1),
    (b"belt", b"belt_take", 1),
];

/// A world of which nothing is read.
fn unread(alloc: Global) -> Result<WorldText, Starved> {
    let hidden = Names::new(alloc)?;
    let uses = Names::new(alloc)?;
    Ok(WorldText {
        facts: Seq::new(alloc),
        hidden,
        uses,
        acts: Seq::new(alloc),
    })
}

/// Makes of the world what a statement says. Whether it is an act that is made.
fn make_of(
    alloc: Global,
    known: &Names,
    made: &mut WorldText,
    first: &Tok,
    s: &Statement,
) -> Result<bool, Starved> {
    match make(alloc, known, made, 1, first, s) {
        Ok(()) => Ok(matches!(s, Statement::Act(_))),
        Err(WorldFault::Memory) => Err(Starved),
        Err(_) => Ok(false),
    }
}

/// Makes of the world what a piece says, where it is read. Whether the piece is an act.
fn take(alloc: Global, known: &Names, made: &mut WorldText, toks: &[Tok]) -> Result<bool, Starved> {
    let [first, ..] = toks else {
        return Ok(false);
    };
    let all = lexemes(alloc, toks)?;
    let said = if too_deep(&all) {
        Ok(None)
    } else {
        statement(alloc, &all, MOST_BRACKETS)
    };
    drop(all);
    match said {
        Ok(Some(Bounded::Within(s))) => {
            let act = make_of(alloc, known, made, first, &s);
            drop(s);
            act
        }
        Ok(Some(Bounded::Past(()))) => Ok(false),
        Ok(None) => Ok(false),
        Err(e) => Err(e),
    }
}

/// The tokens of the acts of mended bytes. The world gets what the pieces make.
fn written_in(
    alloc: Global,
    known: &Names,
    m: &Mended,
    made: &mut WorldText,
) -> Result<Seq<Toks>, Starved> {
    let mut written = Seq::new(alloc);
    let mut pieces = pieces_of(m);
    for _ in 0..u64::MAX {
        let Some(piece) = pieces.next_clean() else {
            break;
        };
        if take(alloc, known, made, piece)? {
            written.push(copy_toks(alloc, piece)?)?;
        }
    }
    Ok(written)
}

/// Puts the name of a fact, unless no agent sees facts of its functor.
fn put_seen(names: &mut Groups, hidden: &Names, l: &Literal) {
    if find(hidden, &l.functor).is_none() {
        names.put(Set::Facts, l);
    }
}

/// Puts the name of a fact, and of the fact in `for(A, F)`, which the agent A alone sees; that may be any.
fn put_fact(names: &mut Groups, hidden: &Names, l: &Literal) {
    put_seen(names, hidden, l);
    if l.functor.as_slice() == b"for".as_slice() {
        match l.args.as_slice() {
            [_, Term::Lit(inner)] => put_seen(names, hidden, inner),
            [_, _] => names.put_any(Set::Facts),
            _ => {}
        }
    }
}

/// Puts what an artifact of this name shows and does. One that is not known may do anything.
fn put_artifact(names: &mut Groups, hidden: &Names, artifact: &Text) {
    let mut known = false;
    for (name, functor, count) in &ACTS {
        if *name == artifact.as_slice() {
            known = true;
            names.put_plain(Set::Acts, *functor, *count);
        }
    }
    if !known {
        names.put_any(Set::Acts);
        names.put_any(Set::Facts);
    } else if find(hidden, artifact).is_none() {
        names.put_plain(Set::Facts, artifact.as_slice(), 1);
    }
}

/// The names of what agents may see of a world, and of its acts.
fn names_of(alloc: Global, made: &WorldText) -> Groups {
    let mut names = new_groups(alloc);
    for l in made.facts.as_slice() {
        put_fact(&mut names, &made.hidden, l);
    }
    for act in made.acts.as_slice() {
        names.put(Set::Acts, &act.head);
        for l in act.adds.as_slice() {
            put_fact(&mut names, &made.hidden, l);
        }
    }
    for k in 0..made.uses.len() {
        if let Some(name) = made.uses.at(k.saturating_add(1)) {
            put_artifact(&mut names, &made.hidden, name);
        }
    }
    names
}

/// The names and the tokens of the acts of a world with these bytes.
fn known_of(alloc: Global, known: &Names, m: &Mended) -> Result<(Groups, Seq<Toks>), Starved> {
    let mut made = unread(alloc)?;
    let written = written_in(alloc, known, m, &mut made);
    let names = names_of(alloc, &made);
    drop(made);
    let written = written?;
    if names.spent {
        Err(Starved)
    } else {
        Ok((names, written))
    }
}

/// The world of a file of this name with these bytes, where there are artifacts of these names.
pub fn world_of(
    alloc: Global,
    known: &Names,
    name: &Text,
    bytes: Text,
) -> Result<ReadWorld, Starved> {
    let file = copy_text(alloc, name)?;
    let m = mended_of(alloc, bytes.as_slice())?;
    let (names, written) = known_of(alloc, known, &m)?;
    Ok(ReadWorld {
        names,
        file,
        bytes,
        text: m.into_text(),
        written,
    })
}
