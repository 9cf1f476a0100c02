//! The rows of the clauses of an agent.

use crate::grammar::{Act, Also, Class, Mode, Place, Row, State};
use crate::reading::{Halt, Left, Part, Sort};
use asl_lexer::token::Sign;

const CLAUSES: [Row; 11] = [
    (
        State::Clause,
        Class::Sign(Sign::At),
        Place::Any,
        Also::Nothing,
        &[Act::Sort(Sort::Plan), Act::Go, Act::Want(State::Label)],
    ),
    (
        State::Clause,
        Class::Either(Sign::Plus, Sign::Minus),
        Place::Any,
        Also::Nothing,
        &[Act::Sort(Sort::Plan), Act::Want(State::Trigger)],
    ),
    (
        State::Clause,
        Class::Sign(Sign::Bang),
        Place::Any,
        Also::Nothing,
        &[
            Act::Sort(Sort::Goal),
            Act::Go,
            Act::Want(State::HeadEnd),
            Act::Part(Part::Goal),
            Act::Want(State::Pattern),
        ],
    ),
    (
        State::Clause,
        Class::Any,
        Place::Any,
        Also::Nothing,
        &[
            Act::Want(State::BeliefRest),
            Act::Part(Part::Belief),
            Act::Want(State::Pattern),
        ],
    ),
    (
        State::Label,
        Class::Atom,
        Place::Any,
        Also::Nothing,
        &[Act::Go, Act::Want(State::Trigger)],
    ),
    (
        State::Label,
        Class::Any,
        Place::Any,
        Also::Nothing,
        &[Act::Stop(Halt::Label)],
    ),
    (
        State::Trigger,
        Class::Either(Sign::Plus, Sign::Minus),
        Place::Any,
        Also::Nothing,
        &[
            Act::Go,
            Act::Want(State::TriggerRest),
            Act::Part(Part::Trigger),
            Act::Want(State::Pattern),
            Act::Want(State::TriggerKind),
        ],
    ),
    (
        State::Trigger,
        Class::Any,
        Place::Any,
        Also::Nothing,
        &[Act::Stop(Halt::Trigger)],
    ),
    (
        State::TriggerKind,
        Class::Either(Sign::Bang, Sign::Question),
        Place::Any,
        Also::Nothing,
        &[Act::Go],
    ),
    (
        State::Pattern,
        Class::Any,
        Place::Any,
        Also::Nothing,
        &[
            Act::Plain(true),
            Act::Want(State::WithArithmetic),
            Act::Want(State::Literal),
        ],
    ),
    (
        State::WithArithmetic,
        Class::Any,
        Place::Any,
        Also::Nothing,
        &[Act::Plain(false)],
    ),
];

const RESTS: [Row; 10] = [
    (
        State::BeliefRest,
        Class::Sign(Sign::If),
        Place::Any,
        Also::Nothing,
        &[
            Act::Sort(Sort::Rule),
            Act::Go,
            Act::Want(State::FormulaEnd),
            Act::In(Mode::Formula),
            Act::Want(State::Or),
        ],
    ),
    (
        State::BeliefRest,
        Class::Any,
        Place::Any,
        Also::Nothing,
        &[Act::End(Halt::BeliefEnd)],
    ),
    (
        State::TriggerRest,
        Class::Sign(Sign::Colon),
        Place::Any,
        Also::Nothing,
        &[
            Act::Go,
            Act::Want(State::ContextRest),
            Act::In(Mode::Formula),
            Act::Want(State::Or),
        ],
    ),
    (
        State::TriggerRest,
        Class::Sign(Sign::LeftArrow),
        Place::Any,
        Also::Nothing,
        &[Act::Go, Act::Want(State::Item)],
    ),
    (
        State::TriggerRest,
        Class::Any,
        Place::Any,
        Also::Nothing,
        &[Act::End(Halt::TriggerEnd)],
    ),
    (
        State::ContextRest,
        Class::Sign(Sign::LeftArrow),
        Place::Any,
        Also::Nothing,
        &[Act::Go, Act::Want(State::Item)],
    ),
    (
        State::ContextRest,
        Class::Any,
        Place::Any,
        Also::Nothing,
        &[Act::End(Halt::ContextEnd)],
    ),
    (
        State::HeadEnd,
        Class::Any,
        Place::Any,
        Also::Nothing,
        &[Act::End(Halt::HeadEnd)],
    ),
    (
        State::FormulaEnd,
        Class::Any,
        Place::Any,
        Also::Nothing,
        &[Act::End(Halt::FormulaEnd)],
    ),
    (
        State::FactEnd,
        Class::Any,
        Place::Any,
        Also::Nothing,
        &[Act::End(Halt::FactEnd)],
    ),
];

const ITEMS: [Row; 9] = [
    (
        State::Item,
        Class::Either(Sign::Bang, Sign::Bangs),
        Place::Any,
        Also::Nothing,
        &[
            Act::Item,
            Act::Go,
            Act::Want(State::MoreItems),
            Act::Part(Part::Posted),
            Act::Want(State::Literal),
        ],
    ),
    (
        State::Item,
        Class::Sign(Sign::Question),
        Place::Any,
        Also::Nothing,
        &[
            Act::Item,
            Act::Go,
            Act::Want(State::MoreItems),
            Act::Part(Part::Tested),
            Act::Want(State::Literal),
        ],
    ),
    (
        State::Item,
        Class::Change,
        Place::Any,
        Also::Nothing,
        &[
            Act::Item,
            Act::Go,
            Act::Want(State::MoreItems),
            Act::Part(Part::Changed),
            Act::Want(State::Literal),
        ],
    ),
    (
        State::Item,
        Class::Any,
        Place::Any,
        Also::Nothing,
        &[
            Act::Item,
            Act::Want(State::MoreItems),
            Act::Want(State::ItemDone),
            Act::In(Mode::Item),
            Act::Want(State::Or),
        ],
    ),
    (
        State::ItemDone,
        Class::Any,
        Place::Any,
        Also::Left(Left::Marked),
        &[Act::Stop(Halt::Marked)],
    ),
    (
        State::ItemDone,
        Class::Any,
        Place::Any,
        Also::Left(Left::False),
        &[Act::Stop(Halt::False)],
    ),
    (
        State::ItemDone,
        Class::Any,
        Place::Any,
        Also::Left(Left::Term),
        &[Act::Stop(Halt::Bare)],
    ),
    (
        State::MoreItems,
        Class::Sign(Sign::Semicolon),
        Place::Any,
        Also::Nothing,
        &[Act::Go, Act::Want(State::Item)],
    ),
    (
        State::MoreItems,
        Class::Any,
        Place::Any,
        Also::Nothing,
        &[Act::End(Halt::ItemEnd)],
    ),
];

/// What a clause begins with.
pub fn clause_rows() -> &'static [Row] {
    &CLAUSES
}

/// What stands behind a head or a trigger.
pub fn rest_rows() -> &'static [Row] {
    &RESTS
}

/// The items of a body.
pub fn item_rows() -> &'static [Row] {
    &ITEMS
}
