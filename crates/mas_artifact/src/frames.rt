//! The parts of literals.

ghost use Rattle.std.specs.Prelude.{◌≡◌, IfOk, [], ◌∷◌, length, false};
ghost use Rattle.asl_unify.specs.Compare.{same_frame};
ghost use Rattle.mas_artifact.specs.Tables as tables;

use asl_term::copying::text_of;
use asl_term::sequence::{Seq, Starved};
use asl_term::syntax::{Literal, LiteralOf, Term};
use std::alloc::Global;

/// Whether the action has no sign, this functor and this number of arguments.
pub fn is_call(action: &Literal, functor: &[u8], args: u64) -> bool
    ensures { (l : LiteralOf Term) → l.neg ≡ false → l.functor ≡ functor.now → length l.args ≡ args → result ≡ same_frame l action.now }
{
    !action.neg && action.functor.as_slice() == functor && action.args.len() == args
}

/// The atom of a name.
pub fn atom(alloc: Global, name: &[u8]) -> Result<Term, Starved>
    ensures { IfOk result (λ t. t ≡ tables.atom name.now) }
{
    Ok(Term::Lit(LiteralOf {
        neg: false,
        functor: text_of(alloc, name)?,
        args: Seq::new(alloc),
        annots: Seq::new(alloc),
    }))
}

/// A literal of one argument.
pub fn unary(alloc: Global, functor: &[u8], arg: Term) -> Result<Literal, Starved>
    ensures { IfOk result (λ l. l ≡ tables.literal functor.now (arg ∷ [])) }
{
    let functor = text_of(alloc, functor)?;
    let mut args = Seq::new(alloc);
    args.push(arg)?;
    Ok(LiteralOf {
        neg: false,
        functor,
        args,
        annots: Seq::new(alloc),
    })
}
