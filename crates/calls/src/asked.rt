//! What a call is asked, read from its text.

ghost use Rattle.std.specs.Prelude.{◌≤◌};

use crate::lines::{number_of, word_of};
use crate::out::Out;
use crate::shapes::{ArgumentKind, Shape};
use asl_lexer::lexing::tokens;
use asl_lexer::token::{Sign, Tok, TokKind, Toks, Word};
use asl_lexer::words::word;
use asl_parser_expr::places::{Found, Raw, expr_at};
use asl_term::sequence::{Seq, Starved};
use asl_term::syntax::{Expr, Literal, RelOp, Relation, Term};
use asl_unify::subst::Subst;
use asl_unify::tree::Tree;
use asl_unify::unify::unify;
use std::alloc::Global;

/// What a call is asked: its shape, its arguments, and what the equations behind them bind.
#[derive(Clone, Copy)]
pub struct CallAsked<'a> {
    pub shape: Shape,
    pub raws: &'a [Raw],
    pub subst: &'a Subst,
}

/// A call of a script: its name and its arguments, of these the first as a number, or 0, and as a literal, and the last as
/// bytes, where it is a string or an atom.
#[derive(Clone, Copy)]
pub struct Step<'a> {
    pub name: &'a str,
    pub args: &'a [Term],
    pub number: u64,
    pub literal: Option<&'a Literal>,
    pub bytes: &'a [u8],
}

fn is_semicolon(token: &Tok) -> bool {
    word(token) == Word::Sign(Sign::Semicolon)
}

/// The tokens of a text.
pub fn tokens_of(text: &[u8], out: &mut Out) -> Toks {
    match tokens(out.alloc, text) {
        Ok(toks) => toks,
        Err(_) => {
            out.refuse("an argument has no tokens");
            Seq::new(out.alloc)
        }
    }
}

/// The tokens before an `@` and a number at the end, and this number, or 0.
fn numbered(toks: &[Tok]) -> (&[Tok], u64) {
    if let [front @ .., at, last] = toks {
        if word(at) == Word::Sign(Sign::At) && last.kind == TokKind::Number {
            return (
                front,
                number_of(last.text.as_slice(), 0, u64::MAX).unwrap_or(0),
            );
        }
    }
    (toks, 0)
}

/// What a literal says as a formula.
fn formula_of(literal: Literal) -> Expr {
    let is_word = !literal.neg && literal.args.len() == 0 && literal.annots.len() == 0;
    let (is_true, is_false) = match word_of(literal.functor.as_slice()) {
        "true" => (is_word, false),
        "false" => (false, is_word),
        _ => (false, false),
    };
    if is_true || is_false {
        drop(literal);
        if is_true { Expr::True } else { Expr::False }
    } else {
        Expr::Holds(literal)
    }
}

/// An argument with a number at its variables that have none; a literal as a formula, where one is asked for.
fn renamed(alloc: Global, raw: &Raw, number: u64, is_formula: bool) -> Result<Raw, Starved> {
    match raw {
        Raw::Plain(Term::Lit(literal)) if is_formula => {
            Ok(Raw::Logic(formula_of(literal.rename(alloc, number)?)))
        }
        Raw::Plain(term) => Ok(Raw::Plain(term.rename(alloc, number)?)),
        Raw::Logic(expr) => Ok(Raw::Logic(expr.rename(alloc, number)?)),
    }
}

/// Puts the argument that all of the tokens are.
fn put_raw(toks: &[Tok], is_formula: bool, raws: &mut Seq<Raw>, out: &mut Out) {
    let (front, number) = numbered(toks);
    match expr_at(out.alloc, front, 0) {
        Ok(Some(Found { raw, next })) => {
            if next < front.len() as u64 {
                out.refuse("an argument is more than an expression");
            }
            match renamed(out.alloc, &raw, number, is_formula) {
                Ok(raw) => out.check(raws.push(raw)),
                Err(starved) => out.check(Err(starved)),
            }
            drop(raw);
        }
        Ok(None) => out.refuse("an argument is no expression"),
        Err(_) => out.refuse("an argument passes a limit"),
    }
}

/// Puts the arguments of a text, with `;` between them.
pub fn put_raws(kind: ArgumentKind, text: &[u8], raws: &mut Seq<Raw>, out: &mut Out) {
    let toks = tokens_of(text, out);
    if toks.len() == 0 {
        return;
    }
    for piece in toks.as_slice().split(is_semicolon) {
        let is_formula = match kind {
            ArgumentKind::Expr => true,
            ArgumentKind::Search => raws.len() > 0,
            _ => false,
        };
        put_raw(piece, is_formula, raws, out);
    }
}

/// The argument at a place as a number of this or less, or another number where there is no such argument.
pub fn number_at(raws: &[Raw], place: usize, most: u64, usual: u64, out: &mut Out) -> u64
    requires { usual ≤ most }
    ensures { result ≤ most }
{
    match raws.get(place) {
        None => return usual,
        Some(Raw::Plain(Term::Num(number))) => {
            let number = u64::try_from(*number).unwrap_or(u64::MAX);
            if number <= most {
                return number;
            }
            out.refuse("a number is outside its limits");
        }
        Some(_) => out.refuse("an argument is no number"),
    }
    usual
}

/// Unifies the two sides of an equation.
pub fn bind(relation: &Relation, subst: &mut Subst, out: &mut Out) {
    if relation.op != RelOp::Unify {
        return out.refuse("a binding is no equation");
    }
    if unify(out.alloc, &relation.left, &relation.right, subst).is_err() {
        out.refuse("a binding does not unify");
    }
}

/// Unifies the two sides of each argument from a place on.
pub fn bind_from(raws: &[Raw], place: u64, subst: &mut Subst, out: &mut Out) {
    for at in 0..raws.len() {
        if at as u64 >= place {
            match &raws[at] {
                Raw::Logic(Expr::Rel(relation)) => bind(relation, subst, out),
                _ => return out.refuse("an argument is no relation"),
            }
        }
    }
}

/// An argument as a call of a script.
pub fn step_of<'a>(raw: &'a Raw, out: &mut Out) -> Step<'a> {
    let mut step = Step {
        name: "",
        args: &[],
        number: 0,
        literal: None,
        bytes: &[],
    };
    let Raw::Plain(Term::Lit(call)) = raw else {
        out.refuse("an argument is no literal");
        return step;
    };
    step.name = word_of(call.functor.as_slice());
    step.args = call.args.as_slice();
    match step.args.first() {
        Some(Term::Num(number)) => step.number = u64::try_from(*number).unwrap_or(0),
        Some(Term::Lit(literal)) => step.literal = Some(literal),
        _ => {}
    }
    match step.args.last() {
        Some(Term::Str(text)) => step.bytes = text.as_slice(),
        Some(Term::Lit(literal)) => step.bytes = literal.functor.as_slice(),
        _ => {}
    }
    step
}
