//! The call of asl_goals: what the arguments of `.send` say, or why they say nothing.

use crate::out::Out;
use asl_goals::acted::Why;
use asl_goals::letter::{Letter, letter_of};
use asl_parser_expr::places::Raw;
use asl_term::copying::copy;
use asl_term::names::{Names, number};
use asl_term::sequence::{Seq, Starved};
use asl_term::syntax::{ArgOf, Args, Term};
use mas_mind::mind::verb_text;
use std::alloc::Global;

/// Puts a name last, where it is new.
fn put_name(names: &mut Names, name: &Term, out: &mut Out) {
    let Term::Lit(literal) = name else {
        return out.refuse("a name is no atom");
    };
    if names.len() >= 1_000_000 {
        return out.refuse("there are too many names");
    }
    match number(names, &literal.functor) {
        Ok(_) => {}
        Err(starved) => out.check(Err(starved)),
    }
}

/// Puts the names of a list of atoms.
fn put_names(names: &mut Names, list: &Raw, out: &mut Out) {
    match list {
        Raw::Plain(Term::List(listing)) => {
            for name in listing.items.as_slice() {
                put_name(names, name, out);
            }
        }
        _ => out.refuse("the first argument is no list"),
    }
}

/// The arguments of `.send`, copied. A formula is left out, with a reason.
fn args_of(alloc: Global, raws: &[Raw], out: &mut Out) -> Result<Args, Starved> {
    let mut args = Seq::new(alloc);
    for raw in raws {
        match raw {
            Raw::Plain(term) => args.push(ArgOf::Plain(copy(alloc, term)?))?,
            Raw::Logic(_) => out.refuse("an argument is no term"),
        }
    }
    Ok(args)
}

/// A letter: the name of the receiver, the verb and the content.
fn put_letter(names: &Names, letter: &Letter, out: &mut Out) {
    match names.at(letter.to) {
        Some(name) => out.put(name.as_slice()),
        None => out.put(b"none"),
    }
    out.put(b" ");
    out.put(verb_text(letter.verb).as_bytes());
    out.put(b" ");
    out.term(&letter.content);
}

fn put_why(why: &Why, out: &mut Out) {
    match why {
        Why::UnknownReceiver(name) => {
            out.put(b"UnknownReceiver ");
            out.put(name.as_slice());
        }
        Why::Argument(place) => out.counted(b"Argument", *place),
        Why::NoMatch => out.put(b"NoMatch"),
    }
}

/// What the arguments behind the first one say to the agents that this lists.
pub fn letter(raws: &[Raw], out: &mut Out) {
    let [list, rest @ ..] = raws else {
        return out.refuse("too few arguments");
    };
    let Ok(mut names) = Names::new(out.alloc) else {
        return out.refuse("memory");
    };
    put_names(&mut names, list, out);
    let alloc = out.alloc;
    match args_of(alloc, rest, out) {
        Ok(args) => {
            match letter_of(alloc, &names, args.as_slice()) {
                Ok(Ok(letter)) => {
                    put_letter(&names, &letter, out);
                    drop(letter);
                }
                Ok(Err(why)) => {
                    put_why(&why, out);
                    drop(why);
                }
                Err(starved) => out.check(Err(starved)),
            }
            drop(args);
        }
        Err(starved) => out.check(Err(starved)),
    }
    drop(names);
}
