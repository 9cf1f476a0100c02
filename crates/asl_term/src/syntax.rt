//! The trees of agents: terms, literals, expressions, formulas, plans and the texts of agents.
//!
//! The parts of a recursive type are generic in that type, so that one enum alone is recursive. Each type that holds others is
//! dropped by hand, so that a crate above that lets one go proves nothing of its parts.

ghost use Rattle.std.specs.Prelude.{◌≡◌, is_ok, IfOk, IfErr};
ghost use Rattle.asl_term.specs.declared.syntax.Expr.TheVariants as expr;
ghost use Rattle.asl_term.specs.Halves.{is_conjunction};

use crate::boxed::Boxed;
use crate::name::Name;
use crate::sequence::Seq;

/// A text, as its bytes.
pub type Text = Seq<u8>;

/// Numbers, as a schedule or a list of calls.
pub type Numbers = Seq<u64>;

pub type Terms = Seq<Term>;

pub type Literals = Seq<Literal>;

pub type Args = Seq<Arg>;

pub type Exprs = Seq<Expr>;

pub type Formulas = Seq<Formula>;

pub type Triggers = Seq<Trigger>;

pub type Clauses = Seq<Clause>;

pub type Plans = Seq<Plan>;

pub type Files = Seq<Filed>;

/// A variable. Its number is 0 in a source, and that of a renaming else. The k-th unnamed variable of a
/// clause has the name `_`, a space and k.
pub struct Var {
    pub name: Name,
    pub number: u64,
}

impl Drop for Var {
    fn drop(self) {
        let Var { name: _, number: _ } = self;
    }
}

/// An operation on whole numbers.
#[derive(Clone, Copy, Debug, PartialEq, Eq, Drop)]
pub enum Op {
    Add,
    Sub,
    Mul,
    Div,
    Mod,
}

/// A literal with parts of type `T`: the sign, the functor, the arguments and the annotations.
pub struct LiteralOf<T> {
    pub neg: bool,
    pub functor: Text,
    pub args: Seq<T>,
    pub annots: Seq<T>,
}

impl<T: Drop> Drop for LiteralOf<T> {
    fn drop(self) {
        let LiteralOf {
            neg: _,
            functor: _,
            args: _,
            annots: _,
        } = self;
    }
}

/// A list with parts of type `T`: its items and, where it is open, its tail, which is never a list.
pub struct ListingOf<T> {
    pub items: Seq<T>,
    pub tail: Option<Boxed<T>>,
}

impl<T: Drop> Drop for ListingOf<T> {
    fn drop(self) {
        let ListingOf { items: _, tail: _ } = self;
    }
}

/// An operation with its two operands.
pub struct ArithOf<T> {
    pub op: Op,
    pub left: Boxed<T>,
    pub right: Boxed<T>,
}

impl<T: Drop> Drop for ArithOf<T> {
    fn drop(self) {
        let ArithOf {
            op: _,
            left: _,
            right: _,
        } = self;
    }
}

/// A term. An atom is a positive literal without arguments and annotations.
pub enum Term {
    Num(i64),
    Str(Text),
    Var(Var),
    Lit(LiteralOf<Term>),
    List(ListingOf<Term>),
    Op(ArithOf<Term>),
}

impl Drop for Term {
    fn drop(self) {
        match self {
            Term::Num(_) => {}
            Term::Str(_) => {}
            Term::Var(_) => {}
            Term::Lit(_) => {}
            Term::List(_) => {}
            Term::Op(_) => {}
        }
    }
}

pub type Literal = LiteralOf<Term>;

pub type Listing = ListingOf<Term>;

pub type Arith = ArithOf<Term>;

/// A relation between two terms.
#[derive(Clone, Copy, Debug, PartialEq, Eq, Drop)]
pub enum RelOp {
    Less,
    LessEq,
    More,
    MoreEq,
    Same,
    Differ,
    Unify,
}

/// Two terms under a relation.
pub struct Relation {
    pub op: RelOp,
    pub left: Term,
    pub right: Term,
}

impl Drop for Relation {
    fn drop(self) {
        let Relation {
            op: _,
            left: _,
            right: _,
        } = self;
    }
}

/// An argument of an internal action: a term, or a formula where the action asks for one.
pub enum ArgOf<E> {
    Plain(Term),
    Logic(E),
}

impl<E: Drop> Drop for ArgOf<E> {
    fn drop(self) {
        match self {
            ArgOf::Plain(_) => {}
            ArgOf::Logic(_) => {}
        }
    }
}

/// A call of an internal action. Its name has no dot in front.
pub struct CallOf<E> {
    pub name: Text,
    pub args: Seq<ArgOf<E>>,
}

impl<E: Drop> Drop for CallOf<E> {
    fn drop(self) {
        let CallOf { name: _, args: _ } = self;
    }
}

/// An expression: the context of a plan or the body of a rule.
pub enum Expr {
    True,
    False,
    Holds(Literal),
    Rel(Relation),
    Inner(CallOf<Expr>),
    Not(Boxed<Expr>),
    And(Boxed<Expr>, Boxed<Expr>),
    Or(Boxed<Expr>, Boxed<Expr>),
}

/// The two sides of a conjunction.
#[derive(Drop)]
pub struct Halves {
    pub left: Expr,
    pub right: Expr,
}

impl Expr {
    /// The two sides of a conjunction, moved out of it; any other expression as it is.
    pub fn into_halves(self) -> Result<Halves, Expr>
        ensures both { IfOk result (λ h. self ≡ expr.And h.left h.right) }
        ensures other { IfErr result (λ e. e ≡ self) }
        ensures exact { is_ok result ≡ is_conjunction self }
    {
        match self {
            Expr::And(left, right) => Ok(Halves {
                left: left.into_inner(),
                right: right.into_inner(),
            }),
            other => Err(other),
        }
    }
}

impl Drop for Expr {
    fn drop(self) {
        match self {
            Expr::True => {}
            Expr::False => {}
            Expr::Holds(_) => {}
            Expr::Rel(_) => {}
            Expr::Inner(_) => {}
            Expr::Not(_) => {}
            Expr::And(_, _) => {}
            Expr::Or(_, _) => {}
        }
    }
}

pub type Arg = ArgOf<Expr>;

pub type Call = CallOf<Expr>;

/// One formula of a plan's body.
pub enum Formula {
    /// `!g`, a goal that is achieved before the body goes on.
    Achieve(Literal),
    /// `!!g`, a goal of an intention of its own.
    Spawn(Literal),
    /// `?g`.
    Test(Literal),
    /// `+b`.
    Add(Literal),
    /// `-b`.
    Del(Literal),
    /// `-+b`.
    Replace(Literal),
    /// An action on the world.
    Act(Literal),
    /// An internal action.
    Inner(Call),
    Rel(Relation),
}

impl Drop for Formula {
    fn drop(self) {
        match self {
            Formula::Achieve(_) => {}
            Formula::Spawn(_) => {}
            Formula::Test(_) => {}
            Formula::Add(_) => {}
            Formula::Del(_) => {}
            Formula::Replace(_) => {}
            Formula::Act(_) => {}
            Formula::Inner(_) => {}
            Formula::Rel(_) => {}
        }
    }
}

/// What a trigger is about: a belief, a goal to achieve (`!`) or a goal to test (`?`).
#[derive(Clone, Copy, Debug, PartialEq, Eq, Drop)]
pub enum Kind {
    Belief,
    Achieve,
    Test,
}

/// What an event is about, and what a plan is for: `+` where it adds, else `-`.
pub struct Trigger {
    pub add: bool,
    pub kind: Kind,
    pub lit: Literal,
}

impl Drop for Trigger {
    fn drop(self) {
        let Trigger {
            add: _,
            kind: _,
            lit: _,
        } = self;
    }
}

/// A rule: the head holds where the body does.
pub struct Clause {
    pub head: Literal,
    pub body: Expr,
}

impl Drop for Clause {
    fn drop(self) {
        let Clause { head: _, body: _ } = self;
    }
}

/// A plan. Without a context in its source the context is `True`.
pub struct Plan {
    pub label: Option<Text>,
    pub trigger: Trigger,
    pub context: Expr,
    pub body: Formulas,
}

impl Drop for Plan {
    fn drop(self) {
        let Plan {
            label: _,
            trigger: _,
            context: _,
            body: _,
        } = self;
    }
}

/// What the source of an agent says, each kind of clause in its order.
pub struct AgentText {
    pub beliefs: Literals,
    pub rules: Clauses,
    pub goals: Literals,
    pub plans: Plans,
}

impl Drop for AgentText {
    fn drop(self) {
        let AgentText {
            beliefs: _,
            rules: _,
            goals: _,
            plans: _,
        } = self;
    }
}

/// A file with its name.
pub struct Filed {
    pub name: Text,
    pub bytes: Text,
}

impl Drop for Filed {
    fn drop(self) {
        let Filed { name: _, bytes: _ } = self;
    }
}
