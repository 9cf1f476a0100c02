//! Why readings stop, as a table: what holds of the place, and what is told then.

use crate::grammar::Class;
use crate::mending::FixKind;
use crate::reading::Halt;
use asl_lexer::token::{Sign, Word};

/// What holds of the place where a reading stops.
#[derive(Clone, Copy)]
pub enum Test {
    /// The token, the one before and the one behind it are of this class, or one of these.
    Token(Class),
    TokenOf(&'static [Word]),
    Before(Class),
    BeforeOf(&'static [Word]),
    Next(Class),
    At(Halt),
    AtOf(&'static [Halt]),
    /// The clause is a plan; a belief, a rule or a goal.
    Plan,
    NoPlan,
    /// The item that is read begins with one of these words.
    Item(&'static [u8]),
    /// The token directly before and this one are these signs.
    Pair(&'static [u8]),
    /// A change of this kind mends the piece.
    Mends(FixKind),
    /// No token stands there any more.
    Ended,
    /// It is the first token, and that of a piece directly behind the dot of a decimal.
    First,
    BehindDecimal,
    /// No blank stands before the token, or behind it.
    Touches,
    NextTouches,
    /// A digit stands directly behind the token.
    Digit,
    /// Behind the first token of an item.
    InItem,
    InBody,
    /// In the source of an agent.
    Agent,
    /// Where no arithmetic may stand.
    Plain,
    /// A bracket is open.
    Opened,
}

/// Which bytes are at fault.
#[derive(Clone, Copy)]
pub enum Span {
    Token,
    Before,
    Item,
    /// From the token before, and to the next one.
    FromBefore,
    ToNext,
    /// The number before and the digit behind the token.
    Decimal,
}

/// What is told where all of these tests hold. The lines of what is told are a stable word for it, the reason, and a note where there is one; each
/// `$` and the letter behind it stand for a word of the place: see `phrase_of`.
pub struct Rule {
    pub tests: &'static [Test],
    pub span: Span,
    pub told: &'static [u8],
}

const NAMES: &[Word] = &[
    Word::Atom,
    Word::Not,
    Word::Div,
    Word::Mod,
    Word::True,
    Word::False,
    Word::Inner,
];

/// With which a term ends.
const ENDS: &[Word] = &[
    Word::Not,
    Word::Div,
    Word::Mod,
    Word::True,
    Word::False,
    Word::Atom,
    Word::Var,
    Word::Inner,
    Word::Number,
    Word::Str,
    Word::End,
    Word::Sign(Sign::Close),
    Word::Sign(Sign::CloseSquare),
];

const OPERATORS: &[Word] = &[
    Word::Sign(Sign::Plus),
    Word::Sign(Sign::Minus),
    Word::Sign(Sign::Star),
    Word::Div,
    Word::Mod,
];

/// The words that begin control items elsewhere.
const CONTROL: &[u8] = b"if for while";

const BRANCHES: &[u8] = b"if for while else elif";

const ENDS_AND_ACTIONS: [Rule; 9] = [
    Rule {
        tests: &[Test::Ended],
        span: Span::Token,
        told: b"dot\nthe file ends, and the clause has no dot",
    },
    Rule {
        tests: &[Test::First, Test::BehindDecimal],
        span: Span::Token,
        told: b"decimal-rest\nthe rest of the decimal before",
    },
    Rule {
        tests: &[
            Test::Token(Class::Word(Word::End)),
            Test::Before(Class::Word(Word::Number)),
            Test::Touches,
            Test::Digit,
        ],
        span: Span::Decimal,
        told: b"decimal\nno decimals: the dot ends the clause\nwhole numbers, of a smaller unit",
    },
    Rule {
        tests: &[
            Test::At(Halt::NoInner),
            Test::Next(Class::Word(Word::Inner)),
            Test::NextTouches,
        ],
        span: Span::ToNext,
        told: b"own-inner\nno $s$n here: no internal actions and functions of one's own or of a package",
    },
    Rule {
        tests: &[Test::At(Halt::NoInner)],
        span: Span::Token,
        told: b"no-inner\nno internal action $s\n$e",
    },
    Rule {
        tests: &[
            Test::Token(Class::Word(Word::Inner)),
            Test::Touches,
            Test::BeforeOf(NAMES),
            Test::Next(Class::Sign(Sign::Open)),
        ],
        span: Span::FromBefore,
        told: b"own-inner\nno $b$s here: no internal actions and functions of one's own or of a package",
    },
    Rule {
        tests: &[
            Test::Token(Class::Word(Word::Inner)),
            Test::Touches,
            Test::BeforeOf(ENDS),
        ],
        span: Span::Token,
        told: b"glued-dot\n$s is read as an internal action\na blank or a new line behind the dot",
    },
    Rule {
        tests: &[Test::At(Halt::Count)],
        span: Span::Token,
        told: b"arguments\n$m takes $l$q$h$A",
    },
    Rule {
        tests: &[Test::At(Halt::NotPure)],
        span: Span::Token,
        told: b"not-pure\n$s stands in bodies alone, not in a context or a rule",
    },
];

const BRACES: [Rule; 8] = [
    Rule {
        tests: &[
            Test::Token(Class::Word(Word::Inner)),
            Test::Item(CONTROL),
            Test::Before(Class::Sign(Sign::Open)),
        ],
        span: Span::Item,
        told: b"control\nno $i in a body\n$I",
    },
    Rule {
        tests: &[
            Test::Token(Class::Word(Word::Inner)),
            Test::AtOf(&[Halt::Term, Halt::Argument, Halt::Annotation, Halt::List]),
        ],
        span: Span::Token,
        told: b"inner-term\n$s is an action and no term\nas an item before, with a variable for its result",
    },
    Rule {
        tests: &[
            Test::Token(Class::Sign(Sign::OpenSquare)),
            Test::At(Halt::Trigger),
        ],
        span: Span::Token,
        told: b"label\na label is a name alone\nno [atomic], [breakpoint] and the like; for [atomic]: use slot",
    },
    Rule {
        tests: &[Test::Token(Class::Sign(Sign::CloseBrace)), Test::First],
        span: Span::Token,
        told: b"braces\nnothing in braces",
    },
    Rule {
        tests: &[
            Test::Token(Class::Sign(Sign::OpenBrace)),
            Test::Item(BRANCHES),
        ],
        span: Span::Item,
        told: b"control\nno $i in a body\n$I",
    },
    Rule {
        tests: &[Test::Token(Class::Sign(Sign::OpenBrace)), Test::First],
        span: Span::Token,
        told: b"directive\nno directives\nthe clauses themselves, in this file",
    },
    Rule {
        tests: &[Test::Token(Class::Sign(Sign::OpenBrace))],
        span: Span::Token,
        told: b"braces\nnothing in braces: no plans or goals as terms, no blocks\na plan in a message is a string",
    },
    Rule {
        tests: &[Test::Item(CONTROL), Test::InItem],
        span: Span::Item,
        told: b"control\nno $i in a body\n$I",
    },
];

const SIGNS: [Rule; 12] = [
    Rule {
        tests: &[Test::Token(Class::Sign(Sign::RightArrow)), Test::Agent],
        span: Span::Token,
        told: b"arrow\na plan's body begins with <-",
    },
    Rule {
        tests: &[
            Test::Token(Class::Either(Sign::If, Sign::Unify)),
            Test::Plan,
            Test::AtOf(&[Halt::TriggerEnd, Halt::ContextEnd]),
        ],
        span: Span::Token,
        told: b"arrow\na plan's body begins with <-, and $t ends no context",
    },
    Rule {
        tests: &[Test::Token(Class::Sign(Sign::LeftArrow)), Test::NoPlan],
        span: Span::Token,
        told: b"no-sign\na plan begins with + or -\n+!g for a goal, +b for a belief that comes, -b for one that goes",
    },
    Rule {
        tests: &[Test::Touches, Test::Pair(b"=<")],
        span: Span::Token,
        told: b"relation\nno =< here\nwrite <=",
    },
    Rule {
        tests: &[Test::Touches, Test::Pair(b"=>")],
        span: Span::Token,
        told: b"relation\nno => here\nwrite >=",
    },
    Rule {
        tests: &[Test::Touches, Test::Pair(b"&&")],
        span: Span::Token,
        told: b"sign\nno && here\nwrite &",
    },
    Rule {
        tests: &[Test::Touches, Test::Pair(b"||")],
        span: Span::Token,
        told: b"sign\nno || here\nwrite |",
    },
    Rule {
        tests: &[Test::Touches, Test::Pair(b":=")],
        span: Span::Token,
        told: b"sign\nno := here\nwrite =",
    },
    Rule {
        tests: &[Test::Touches, Test::Pair(b"**")],
        span: Span::Token,
        told: b"sign\nno ** here",
    },
    Rule {
        tests: &[Test::Touches, Test::Pair(b"|&")],
        span: Span::Token,
        told: b"sign\nno |&| here",
    },
    Rule {
        tests: &[Test::Touches, Test::Pair(b"::")],
        span: Span::Token,
        told: b"sign\nno :: here",
    },
    Rule {
        tests: &[
            Test::Token(Class::Sign(Sign::Bang)),
            Test::Next(Class::Either(Sign::Unify, Sign::Same)),
            Test::NextTouches,
        ],
        span: Span::Token,
        told: b"relation\nno != here\nwrite \\==",
    },
];

const TERMS: [Rule; 11] = [
    Rule {
        tests: &[Test::Token(Class::Word(Word::Var)), Test::At(Halt::Literal)],
        span: Span::Token,
        told: b"variable\n$p begins with a small letter, and $t is a variable\na plan for each one, or the name in small letters",
    },
    Rule {
        tests: &[
            Test::Token(Class::Word(Word::Var)),
            Test::Before(Class::Word(Word::Inner)),
        ],
        span: Span::Token,
        told: b"extra\n$t cannot stand behind $B",
    },
    Rule {
        tests: &[
            Test::TokenOf(&[Word::Sign(Sign::Open), Word::Not]),
            Test::Before(Class::Sign(Sign::Question)),
        ],
        span: Span::Token,
        told: b"question\na question is of one literal\na rule q(X) :- .. & ..; then ?q(X)",
    },
    Rule {
        tests: &[Test::Plain, Test::TokenOf(OPERATORS), Test::Plan],
        span: Span::Token,
        told: b"arithmetic\nno arithmetic in $k\na variable, and an equation in the context",
    },
    Rule {
        tests: &[Test::At(Halt::NoArithmetic), Test::Plan],
        span: Span::Token,
        told: b"arithmetic\nno arithmetic in $k\na variable, and an equation in the context",
    },
    Rule {
        tests: &[Test::Plain, Test::TokenOf(OPERATORS)],
        span: Span::Token,
        told: b"arithmetic\nno arithmetic in $k\nits number",
    },
    Rule {
        tests: &[Test::At(Halt::NoArithmetic)],
        span: Span::Token,
        told: b"arithmetic\nno arithmetic in $k\nits number",
    },
    Rule {
        tests: &[Test::At(Halt::Ground)],
        span: Span::Token,
        told: b"ground\na fact has no variables",
    },
    Rule {
        tests: &[
            Test::Token(Class::Sign(Sign::Comma)),
            Test::At(Halt::ItemEnd),
        ],
        span: Span::Token,
        told: b"comma\nitems have ; between them",
    },
    Rule {
        tests: &[
            Test::Token(Class::Sign(Sign::Comma)),
            Test::AtOf(&[Halt::ContextEnd, Halt::FormulaEnd, Halt::TriggerEnd]),
        ],
        span: Span::Token,
        told: b"comma\nformulas have & between them",
    },
    Rule {
        tests: &[
            Test::Token(Class::Sign(Sign::Colon)),
            Test::At(Halt::ItemEnd),
        ],
        span: Span::Token,
        told: b"context\na context stands before <-\n+!g : CONTEXT <- ITEMS.",
    },
];

const ITEMS: [Rule; 10] = [
    Rule {
        tests: &[Test::At(Halt::Marked)],
        span: Span::Token,
        told: b"action\nan action has neither ~ nor annotations\n+~p adds the belief ~p",
    },
    Rule {
        tests: &[Test::At(Halt::False)],
        span: Span::Token,
        told: b"action\nfalse is no item\n.fail fails",
    },
    Rule {
        tests: &[Test::At(Halt::Bare)],
        span: Span::Token,
        told: b"action\na term alone is no item",
    },
    Rule {
        tests: &[
            Test::TokenOf(&[
                Word::Sign(Sign::Bang),
                Word::Sign(Sign::Bangs),
                Word::Sign(Sign::Question),
                Word::Sign(Sign::Plus),
                Word::Sign(Sign::MinusPlus),
            ]),
            Test::AtOf(&[Halt::Item, Halt::Argument, Halt::Formula, Halt::Term]),
            Test::Before(Class::Either(Sign::Open, Sign::Comma)),
        ],
        span: Span::Token,
        told: b"goal-term\na goal, question or update is an item of its own, not in brackets",
    },
    Rule {
        tests: &[
            Test::At(Halt::Relation),
            Test::Before(Class::Word(Word::Var)),
        ],
        span: Span::Before,
        told: b"variable\na variable is no formula: $B",
    },
    Rule {
        tests: &[Test::Token(Class::Word(Word::Not))],
        span: Span::Token,
        told: b"not\nnot stands in contexts and rules alone",
    },
    Rule {
        tests: &[
            Test::Token(Class::Either(Sign::Ampersand, Sign::Bar)),
            Test::InBody,
            Test::Plan,
        ],
        span: Span::Token,
        told: b"formula\nan item is no formula: no $t in a body\na rule, and ?q; or a context",
    },
    Rule {
        tests: &[
            Test::Token(Class::Relation),
            Test::AtOf(&[Halt::Argument, Halt::Annotation, Halt::List]),
        ],
        span: Span::Token,
        told: b"relation-term\nan argument is a term: no relation",
    },
    Rule {
        tests: &[
            Test::Token(Class::Sign(Sign::OpenSquare)),
            Test::Before(Class::Word(Word::Var)),
        ],
        span: Span::Token,
        told: b"variable\nno annotations behind a variable",
    },
    Rule {
        tests: &[Test::Token(Class::Sign(Sign::Hash)), Test::First],
        span: Span::Token,
        told: b"comment-sign\n# begins no comment here\nwrite //",
    },
];

const WORLDS: [Rule; 13] = [
    Rule {
        tests: &[Test::Mends(FixKind::Dot)],
        span: Span::Token,
        told: b"dot\nno dot in front of $s\nthe clause before it begins at $x:$y",
    },
    Rule {
        tests: &[Test::Mends(FixKind::Bracket)],
        span: Span::Token,
        told: b"bracket\n$u is missing in front of $s",
    },
    Rule {
        tests: &[Test::Mends(FixKind::Missing)],
        span: Span::Token,
        told: b"missing\n$u is missing in front of $s",
    },
    Rule {
        tests: &[Test::At(Halt::By)],
        span: Span::Token,
        told: b"world\nan act is `act NAME(..) by A : .. -> ..`; `by` is wanted before $s",
    },
    Rule {
        tests: &[Test::At(Halt::Who)],
        span: Span::Token,
        told: b"world\nbehind `by` stands a variable or an agent's name",
    },
    Rule {
        tests: &[Test::At(Halt::Arrow)],
        span: Span::Token,
        told: b"world\neffects begin with ->, and $s cannot stand before them",
    },
    Rule {
        tests: &[Test::At(Halt::Effect)],
        span: Span::Token,
        told: b"world\nan effect is +f, -f, true or drop NAME",
    },
    Rule {
        tests: &[Test::At(Halt::Guard)],
        span: Span::Token,
        told: b"world\na guard's part is a literal, not and a literal, or a relation",
    },
    Rule {
        tests: &[Test::At(Halt::NegativeAct)],
        span: Span::Token,
        told: b"world\nan act has no ~",
    },
    Rule {
        tests: &[Test::At(Halt::Twice)],
        span: Span::Token,
        told: b"world\n$s is used twice",
    },
    Rule {
        tests: &[Test::At(Halt::FactEnd)],
        span: Span::Token,
        told: b"world\n$s cannot stand behind a fact; no rules in a world",
    },
    Rule {
        tests: &[Test::Token(Class::Word(Word::End)), Test::Opened],
        span: Span::Token,
        told: b"bracket\nthe bracket $o of $v:$w is not closed",
    },
    Rule {
        tests: &[Test::At(Halt::Relation)],
        span: Span::Token,
        told: b"no-formula\nwhat stands before $s is a term, and a formula is wanted\na relation, as X > 1, or a name",
    },
];

const OTHERWISE: Rule = Rule {
    tests: &[],
    span: Span::Token,
    told: b"syntax\n$s cannot stand here",
};

/// At the end, and at internal actions.
pub fn action_rules() -> &'static [Rule] {
    &ENDS_AND_ACTIONS
}

/// At braces, and in items that begin with a word of control.
pub fn brace_rules() -> &'static [Rule] {
    &BRACES
}

/// At arrows, and at signs that are none here.
pub fn sign_rules() -> &'static [Rule] {
    &SIGNS
}

/// At variables, questions, arithmetic and what stands between items.
pub fn term_rules() -> &'static [Rule] {
    &TERMS
}

/// At items and formulas.
pub fn item_rules() -> &'static [Rule] {
    &ITEMS
}

/// Where a change mends the piece, in worlds, and anywhere.
pub fn world_rules() -> &'static [Rule] {
    &WORLDS
}

/// What is told where no other rule fits.
pub fn last_rule() -> &'static Rule {
    &OTHERWISE
}
