//! The rows of the clauses of a world.

use crate::grammar::{Act, Also, Class, Mode, Place, Row, Spelling, State};
use crate::reading::{Halt, Part, Sort};
use asl_lexer::token::{Sign, Word};

const CLAUSES: [Row; 7] = [
    (
        State::World,
        Class::Any,
        Place::Any,
        Also::Text(Spelling::Hide, Class::Atom),
        &[
            Act::Sort(Sort::Hide),
            Act::Go,
            Act::Go,
            Act::Want(State::HeadEnd),
        ],
    ),
    (
        State::World,
        Class::Any,
        Place::Any,
        Also::Text(Spelling::Use, Class::Atom),
        &[Act::Sort(Sort::Use), Act::Go, Act::Want(State::Use)],
    ),
    (
        State::World,
        Class::Any,
        Place::Any,
        Also::Text(Spelling::Act, Class::Atom),
        &[
            Act::Sort(Sort::Act),
            Act::Go,
            Act::Want(State::ActBy),
            Act::Part(Part::Act),
            Act::Want(State::Pattern),
        ],
    ),
    (
        State::World,
        Class::Any,
        Place::Any,
        Also::Text(Spelling::Act, Class::Sign(Sign::Tilde)),
        &[Act::Sort(Sort::Act), Act::Go, Act::Stop(Halt::NegativeAct)],
    ),
    (
        State::World,
        Class::Any,
        Place::Any,
        Also::Nothing,
        &[
            Act::Sort(Sort::Fact),
            Act::Plain(true),
            Act::Ground,
            Act::Want(State::FactEnd),
            Act::Part(Part::Fact),
            Act::Want(State::Literal),
        ],
    ),
    (
        State::Use,
        Class::Any,
        Place::Any,
        Also::Used,
        &[Act::Stop(Halt::Twice)],
    ),
    (
        State::Use,
        Class::Any,
        Place::Any,
        Also::Nothing,
        &[Act::Go, Act::Want(State::HeadEnd)],
    ),
];

const ACTS: [Row; 7] = [
    (
        State::ActBy,
        Class::Any,
        Place::Any,
        Also::Text(Spelling::By, Class::Any),
        &[Act::Go, Act::Want(State::Who)],
    ),
    (
        State::ActBy,
        Class::Any,
        Place::Any,
        Also::Nothing,
        &[Act::Stop(Halt::By)],
    ),
    (
        State::Who,
        Class::Agent,
        Place::Any,
        Also::Nothing,
        &[Act::Go, Act::Want(State::ActArrow), Act::Want(State::Guard)],
    ),
    (
        State::Who,
        Class::Any,
        Place::Any,
        Also::Nothing,
        &[Act::Stop(Halt::Who)],
    ),
    (
        State::Guard,
        Class::Sign(Sign::Colon),
        Place::Any,
        Also::Nothing,
        &[Act::Go, Act::In(Mode::Guard), Act::Want(State::Or)],
    ),
    (
        State::ActArrow,
        Class::Sign(Sign::RightArrow),
        Place::Any,
        Also::Nothing,
        &[Act::Go, Act::Arrow, Act::Want(State::Effect)],
    ),
    (
        State::ActArrow,
        Class::Any,
        Place::Any,
        Also::Nothing,
        &[Act::Stop(Halt::Arrow)],
    ),
];

const EFFECTS: [Row; 8] = [
    (
        State::Effect,
        Class::Either(Sign::Plus, Sign::Minus),
        Place::Any,
        Also::Nothing,
        &[
            Act::Go,
            Act::Want(State::MoreEffects),
            Act::Part(Part::Changed),
            Act::Want(State::Literal),
        ],
    ),
    (
        State::Effect,
        Class::Word(Word::True),
        Place::Any,
        Also::Nothing,
        &[Act::Go, Act::Want(State::MoreEffects)],
    ),
    (
        State::Effect,
        Class::Any,
        Place::Any,
        Also::Text(Spelling::Drop, Class::Any),
        &[
            Act::Go,
            Act::Want(State::MoreEffects),
            Act::Want(State::Dropped),
        ],
    ),
    (
        State::Effect,
        Class::Any,
        Place::Any,
        Also::Nothing,
        &[Act::Stop(Halt::Effect)],
    ),
    (
        State::Dropped,
        Class::Atom,
        Place::Any,
        Also::Nothing,
        &[Act::Go],
    ),
    (
        State::Dropped,
        Class::Any,
        Place::Any,
        Also::Nothing,
        &[Act::Stop(Halt::Drop)],
    ),
    (
        State::MoreEffects,
        Class::Sign(Sign::Comma),
        Place::Any,
        Also::Nothing,
        &[Act::Go, Act::Want(State::Effect)],
    ),
    (
        State::MoreEffects,
        Class::Any,
        Place::Any,
        Also::Nothing,
        &[Act::End(Halt::EffectEnd)],
    ),
];

/// What a clause of a world begins with.
pub fn world_rows() -> &'static [Row] {
    &CLAUSES
}

/// What stands behind the head of an act.
pub fn act_rows() -> &'static [Row] {
    &ACTS
}

/// The effects of an act.
pub fn effect_rows() -> &'static [Row] {
    &EFFECTS
}
