//! A reading of a piece that stops at the first token with which no reading goes on. What is still wanted stands on a stack; each step takes the
//! topmost want, and does what the first row of its state that holds says.

use crate::grammar::{Act, Also, Class, Mode, Place, Row, Spelling, State};
use crate::mark::{Mark, is_atom, is_relation, is_sign, mark_at};
use crate::mending::Piece;
use crate::table::{Arity, NO_ARGUMENTS, arity_of};
use crate::{clause, expression, world};
use asl_lexer::token::{Sign, Word};
use std::alloc::Global;

/// What an expression was.
#[derive(Clone, Copy, PartialEq, Eq)]
pub enum Left {
    Literal,
    /// A literal with `~` or annotations.
    Marked,
    True,
    False,
    Term,
    Relation,
    Inner,
    /// A formula with `not`, `&` or `|`.
    Logic,
}

/// What a literal is in its clause.
#[derive(Clone, Copy)]
pub enum Part {
    Argument,
    Context,
    Act,
    Goal,
    Belief,
    Trigger,
    /// The literal of an item with `!`, `!!`, `?`, `+`, `-` or `-+`.
    Posted,
    Tested,
    Changed,
    Fact,
}

/// At what a reading stopped.
#[derive(Clone, Copy, PartialEq, Eq)]
pub enum Halt {
    NoInner,
    NotPure,
    /// The number of arguments of an internal action.
    Count,
    Argument,
    Annotation,
    List,
    Tail,
    ListEnd,
    Relation,
    Ground,
    Term,
    Guard,
    Item,
    Formula,
    Bracket,
    Literal,
    NoArithmetic,
    HeadEnd,
    BeliefEnd,
    FormulaEnd,
    Label,
    Trigger,
    TriggerEnd,
    ContextEnd,
    ItemEnd,
    /// An item that is a literal with `~` or annotations, `false`, or another term.
    Marked,
    False,
    Bare,
    Twice,
    NegativeAct,
    By,
    Who,
    Arrow,
    Drop,
    Effect,
    EffectEnd,
    FactEnd,
}

/// What a clause is.
#[derive(Clone, Copy, PartialEq, Eq)]
pub enum Sort {
    Belief,
    Rule,
    Goal,
    Plan,
    Fact,
    Hide,
    Use,
    Act,
}

/// An internal action of which the arguments are read: its place, what it takes, and how many arguments stand before.
#[derive(Clone, Copy)]
pub struct Call {
    pub place: usize,
    pub arity: Arity,
    pub count: usize,
}

/// What is still wanted, in which mode, and within the arguments of which internal action.
#[derive(Clone, Copy)]
pub struct Want {
    pub state: State,
    pub mode: Mode,
    pub call: Call,
}

/// How far a reading has come.
pub struct Reading<'a> {
    pub alloc: Global,
    pub piece: Piece<'a>,
    pub at: usize,
    pub left: Left,
    /// Whether arithmetic and variables may not stand here.
    pub plain: bool,
    pub ground: bool,
    /// What is wanted now, and what behind it.
    pub now: Want,
    pub wants: Vec<Want>,
    /// The places of open brackets.
    pub opened: Vec<usize>,
    pub sort: Sort,
    /// Where the item begins that is read.
    pub item: Option<usize>,
    /// Where the effects begin.
    pub arrow: usize,
    pub halt: Option<Halt>,
    /// The literal and the internal action at which it stopped.
    pub part: Part,
    pub counted: usize,
    pub arity: Arity,
    /// Whether memory was refused.
    pub spent: bool,
}

/// By hand, so that who lets one go proves nothing of its parts.
impl<'a> Drop for Reading<'a> {
    fn drop(self) {
        let Reading {
            alloc: _,
            piece: _,
            at: _,
            left: _,
            plain: _,
            ground: _,
            now: _,
            wants: _,
            opened: _,
            sort: _,
            item: _,
            arrow: _,
            halt: _,
            part: _,
            counted: _,
            arity: _,
            spent: _,
        } = self;
    }
}

impl<'a> Reading<'a> {
    fn want(&mut self, want: Want) {
        if self.wants.push(want).is_err() {
            self.spent = true;
        }
    }

    fn go(&mut self) {
        self.at = self.at.saturating_add(1);
    }

    fn open(&mut self) {
        if self.opened.push(self.at).is_err() {
            self.spent = true;
        }
        self.go();
    }

    /// Stops unless the next token is the dot, and the last of the piece.
    fn end(&mut self, halt: Halt) {
        let ends = matches!(mark_at(self.piece.marks, self.at).word, Word::End);
        if ends {
            self.go();
        }
        if !ends || self.at != self.piece.marks.len() {
            self.halt = Some(halt);
        }
    }
}

/// Whether a token is of a class.
pub fn is_of(word: Word, class: Class) -> bool {
    match class {
        Class::Any => true,
        Class::Word(w) => word == w,
        Class::Sign(sign) => is_sign(word, sign),
        Class::Either(one, other) => is_sign(word, one) || is_sign(word, other),
        Class::Atom => is_atom(word),
        Class::Agent => is_atom(word) || matches!(word, Word::Var),
        Class::Literal => matches!(
            word,
            Word::Atom | Word::Not | Word::Div | Word::Mod | Word::Sign(Sign::Tilde)
        ),
        Class::Constant => matches!(word, Word::Number | Word::Str),
        Class::Factor => matches!(word, Word::Sign(Sign::Star) | Word::Div | Word::Mod),
        Class::Change => matches!(word, Word::Sign(Sign::Plus | Sign::Minus | Sign::MinusPlus)),
        Class::Relation => is_relation(word),
    }
}

fn is_in(mode: Mode, place: Place) -> bool {
    match place {
        Place::Any => true,
        Place::Term => matches!(mode, Mode::Term),
        Place::Outside => !matches!(mode, Mode::Term),
        Place::Formula => matches!(mode, Mode::Formula | Mode::InnerFormula),
        Place::Item => matches!(mode, Mode::Item | Mode::InnerItem),
        Place::Guard => matches!(mode, Mode::Guard | Mode::InnerGuard),
        Place::Body => !matches!(mode, Mode::Term | Mode::Guard | Mode::InnerGuard),
        Place::WholeFormula => matches!(mode, Mode::Formula),
        Place::WholeGuard => matches!(mode, Mode::Guard),
    }
}

fn spelled(spelling: Spelling) -> &'static [u8] {
    match spelling {
        Spelling::Hide => b"hide",
        Spelling::Use => b"use",
        Spelling::Act => b"act",
        Spelling::By => b"by",
        Spelling::Drop => b"drop",
    }
}

fn is_used(used: &[Mark<'_>], name: &[u8]) -> bool {
    for m in used {
        if m.text == name {
            return true;
        }
    }
    false
}

/// Whether an expression was a term, or may be one.
fn is_term(left: Left) -> bool {
    matches!(
        left,
        Left::Literal | Left::Marked | Left::True | Left::False | Left::Term
    )
}

fn holds(r: &Reading<'_>, also: Also) -> bool {
    let text = mark_at(r.piece.marks, r.at).text;
    let next = mark_at(r.piece.marks, r.at.saturating_add(1)).word;
    let Call { arity, count, .. } = r.now.call;
    let unfit = matches!(r.left, Left::Term | Left::True | Left::False);
    match also {
        Also::Nothing => true,
        Also::Left(left) => r.left == left,
        Also::Formed => !matches!(r.left, Left::Term),
        Also::Logical => !unfit,
        Also::Unfit => unfit,
        Also::Termlike => is_term(r.left),
        Also::Arithmetic => !r.plain && is_term(r.left),
        Also::Free => !r.plain,
        Also::Variables => !r.ground,
        Also::Agent => !r.piece.world,
        Also::Full => arity.high == count,
        Also::Few => count < arity.low,
        Also::Formula => arity.formula == count,
        Also::Impure => !arity.pure,
        Also::Text(spelling, class) => text == spelled(spelling) && is_of(next, class),
        Also::Used => is_used(r.piece.used, text),
    }
}

/// Looks the internal action up that is next, and stops where there is none.
fn find(r: &mut Reading<'_>) {
    let place = r.at;
    match arity_of(r.alloc, mark_at(r.piece.marks, place).text) {
        Ok(Some(arity)) => {
            r.now.call = Call {
                place,
                arity,
                count: 0,
            };
        }
        Ok(None) => r.halt = Some(Halt::NoInner),
        Err(_) => r.spent = true,
    }
}

fn enact(r: &mut Reading<'_>, act: Act) {
    match act {
        Act::Go => r.go(),
        Act::Open => r.open(),
        Act::Shut => {
            r.go();
            let _ = r.opened.pop();
        }
        Act::Stop(halt) => r.halt = Some(halt),
        Act::End(halt) => r.end(halt),
        Act::Want(state) => r.want(Want { state, ..r.now }),
        Act::In(mode) => r.now.mode = mode,
        Act::Left(left) => r.left = left,
        Act::Plain(plain) => r.plain = plain,
        Act::Ground => r.ground = true,
        Act::Sort(sort) => r.sort = sort,
        Act::Part(part) => r.part = part,
        Act::Item => r.item = Some(r.at),
        Act::Arrow => r.arrow = r.at,
        Act::Find => find(r),
        Act::Count => r.now.call.count = r.now.call.count.saturating_add(1),
        Act::Miscount => {
            r.counted = r.now.call.place;
            r.arity = r.now.call.arity;
        }
    }
}

/// The rows in which those of a state stand.
fn rows_of(state: State) -> &'static [Row] {
    match state {
        State::Clause
        | State::Label
        | State::Trigger
        | State::TriggerKind
        | State::Pattern
        | State::WithArithmetic => clause::clause_rows(),
        State::BeliefRest
        | State::TriggerRest
        | State::ContextRest
        | State::HeadEnd
        | State::FormulaEnd
        | State::FactEnd => clause::rest_rows(),
        State::Item | State::ItemDone | State::MoreItems => clause::item_rows(),
        State::World | State::Use => world::world_rows(),
        State::ActBy | State::Who | State::Guard | State::ActArrow => world::act_rows(),
        State::Effect | State::Dropped | State::MoreEffects => world::effect_rows(),
        other => expression_rows(other),
    }
}

fn expression_rows(state: State) -> &'static [Row] {
    match state {
        State::Or | State::MoreOr | State::And | State::MoreAnd | State::Not | State::GuardNot => {
            expression::formula_rows()
        }
        State::Related
        | State::MoreRelated
        | State::Sum
        | State::MoreSum
        | State::Product
        | State::MoreProduct
        | State::Minus => expression::relation_rows(),
        State::Prime => expression::prime_rows(),
        State::Found | State::Opens | State::Given | State::MoreGiven => expression::inner_rows(),
        State::Literal | State::Name | State::NameEnd | State::LiteralEnd | State::MoreArguments =>
            expression::literal_rows(),
        State::MoreAnnotations | State::List | State::MoreList | State::Tail | State::ListEnd => {
            expression::list_rows()
        }
        _ => expression::bracket_rows(),
    }
}

/// Does what the first row says that holds.
fn step(r: &mut Reading<'_>) {
    let now = r.now;
    let word = mark_at(r.piece.marks, r.at).word;
    for (state, class, place, also, acts) in rows_of(now.state) {
        if *state == now.state
            && is_of(word, *class)
            && is_in(now.mode, *place)
            && holds(r, *also)
        {
            for act in *acts {
                enact(r, *act);
            }
            return;
        }
    }
}

fn start<'a>(alloc: Global, piece: &Piece<'a>) -> Reading<'a> {
    let now = Want {
        state: if piece.world {
            State::World
        } else {
            State::Clause
        },
        mode: Mode::Formula,
        call: Call {
            place: 0,
            arity: NO_ARGUMENTS,
            count: 0,
        },
    };
    Reading {
        alloc,
        piece: *piece,
        at: 0,
        left: Left::Term,
        plain: false,
        ground: false,
        now,
        wants: Vec::new(alloc),
        opened: Vec::new(alloc),
        sort: Sort::Belief,
        item: None,
        arrow: 0,
        halt: None,
        part: Part::Argument,
        counted: 0,
        arity: NO_ARGUMENTS,
        spent: false,
    }
}

/// Reads a piece up to where no reading goes on.
pub fn read<'a>(alloc: Global, piece: &Piece<'a>) -> Reading<'a> {
    let mut r = start(alloc, piece);
    // Between two tokens there are fewer steps than this.
    let most = piece.marks.len().saturating_add(2).saturating_mul(64);
    for _ in 0..most {
        step(&mut r);
        if r.halt.is_some() || r.spent {
            return r;
        }
        match r.wants.pop() {
            Some(want) => r.now = want,
            None => return r,
        }
    }
    r
}
