//! What is known again.

ghost use Rattle.std.specs.Prelude.{ℕ, ◌≡◌, ◌<◌, true, slice_get};

use crate::mixing::{mix_text, stirred};
use crate::table::Known;
use asl_term::compare::equal;
use asl_term::compare_expr::equal_literal;
use asl_term::sequence::Seq;
use asl_term::syntax::{Literal, Term};
use mas_mind::mind::{Message, Outs, Thought};

impl Known for u64 {
    fn same(&self, other: &u64) -> bool {
        *self == *other
    }

    fn mix(&self) -> u64 {
        stirred(*self, 1)
    }
}

/// Whether the first so many of two lists of one length are the same.
fn same_items<T: Known>(a: &Seq<T>, b: &Seq<T>, n: u64) -> bool
    ensures { result ≡ true → (k : ℕ) → k < n → slice_get a.now k ≡ slice_get b.now k }
{
    for i in 0..n {
        let (Some(x), Some(y)) = (a.at(i), b.at(i)) else {
            return false;
        };
        if !x.same(y) {
            return false;
        }
    }
    true
}

impl<T: Known> Known for Seq<T> {
    #[tactic(auto, using(crate::proofs::Items::same_list))]
    fn same(&self, other: &Seq<T>) -> bool {
        self.len() == other.len() && same_items(self, other, self.len())
    }

    fn mix(&self) -> u64 {
        let mut mix = self.len();
        for x in self.as_slice() {
            mix = stirred(mix, x.mix());
        }
        mix
    }
}

impl<T: Known> Known for Option<T> {
    fn same(&self, other: &Option<T>) -> bool {
        match (self, other) {
            (None, None) => true,
            (Some(x), Some(y)) => x.same(y),
            _ => false,
        }
    }

    fn mix(&self) -> u64 {
        match self {
            None => 0,
            Some(x) => stirred(x.mix(), 2),
        }
    }
}

#[cycle(mix_term)]
fn mix_term(t: &Term) -> u64 {
    match t {
        Term::Num(n) => stirred(n.unsigned_abs(), 3),
        Term::Str(s) => stirred(mix_text(s.as_slice()), 4),
        Term::Var(v) => stirred(mix_text(v.name.as_slice()), v.number),
        Term::Lit(l) => stirred(
            mix_text(l.functor.as_slice()),
            stirred(mix_terms(l.args.as_slice()), mix_terms(l.annots.as_slice())),
        ),
        Term::List(l) => match &l.tail {
            None => stirred(mix_terms(l.items.as_slice()), 5),
            Some(tail) => stirred(mix_terms(l.items.as_slice()), mix_term(tail.get())),
        },
        Term::Op(a) => stirred(mix_term(a.left.get()), mix_term(a.right.get())),
    }
}

#[cycle(mix_term)]
fn mix_terms(ts: &[Term]) -> u64 {
    let mut mix = 6;
    for t in ts {
        mix = stirred(mix, mix_term(t));
    }
    mix
}

impl Known for Literal {
    fn same(&self, other: &Literal) -> bool {
        equal_literal(self, other)
    }

    fn mix(&self) -> u64 {
        let parts = stirred(
            mix_terms(self.args.as_slice()),
            mix_terms(self.annots.as_slice()),
        );
        stirred(mix_text(self.functor.as_slice()), parts)
    }
}

impl Known for Message {
    fn same(&self, other: &Message) -> bool {
        self.from == other.from
            && self.to == other.to
            && self.verb == other.verb
            && equal(&self.content, &other.content)
            && self.ask == other.ask
            && self.reply == other.reply
    }

    fn mix(&self) -> u64 {
        let ends = stirred(self.from as u64, self.to as u64);
        stirred(stirred(ends, self.ask), mix_term(&self.content))
    }
}

impl Known for Outs {
    fn same(&self, other: &Outs) -> bool {
        self.stop == other.stop
            && self.quiet == other.quiet
            && self.action.same(&other.action)
            && self.messages.same(&other.messages)
    }

    fn mix(&self) -> u64 {
        stirred(self.action.mix(), self.messages.mix())
    }
}

impl Known for Thought {
    fn same(&self, other: &Thought) -> bool {
        match (self, other) {
            (Thought::Outs(x), Thought::Outs(y)) => x.same(y),
            (Thought::Spent, Thought::Spent) => true,
            _ => false,
        }
    }

    fn mix(&self) -> u64 {
        match self {
            Thought::Outs(outs) => outs.mix(),
            Thought::Spent => 7,
        }
    }
}
