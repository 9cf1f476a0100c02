//! The form of the grammar: rows that say what is done in a state.

use crate::reading::{Halt, Left, Part, Sort};
use asl_lexer::token::{Sign, Word};

/// What is wanted next.
#[derive(Clone, Copy, PartialEq, Eq)]
pub enum State {
    /// A clause of an agent, the trigger of a plan, and a literal without arithmetic.
    Clause,
    Label,
    Trigger,
    TriggerKind,
    Pattern,
    WithArithmetic,
    BeliefRest,
    TriggerRest,
    ContextRest,
    Item,
    ItemDone,
    MoreItems,
    /// The end of a clause that is a head alone, of a rule, and of a fact.
    HeadEnd,
    FormulaEnd,
    FactEnd,
    /// A clause of a world, and its parts.
    World,
    Use,
    ActBy,
    Who,
    Guard,
    ActArrow,
    Effect,
    Dropped,
    MoreEffects,
    /// Levels of an expression, and what may follow on each.
    Or,
    MoreOr,
    And,
    MoreAnd,
    Not,
    GuardNot,
    Related,
    MoreRelated,
    Sum,
    MoreSum,
    Product,
    MoreProduct,
    Prime,
    Minus,
    Bracket,
    CloseBracket,
    /// What is read was this in all.
    SetLogic,
    SetTerm,
    SetRelation,
    SetMarked,
    /// An internal action that is known, what may stand behind its name, and its arguments.
    Found,
    Opens,
    Given,
    MoreGiven,
    Literal,
    Name,
    NameEnd,
    LiteralEnd,
    MoreArguments,
    MoreAnnotations,
    List,
    MoreList,
    Tail,
    ListEnd,
}

/// In which place an expression stands.
#[derive(Clone, Copy)]
pub enum Mode {
    Term,
    Formula,
    /// A formula in brackets: it may still become a side of a relation.
    InnerFormula,
    Item,
    InnerItem,
    /// A part of a guard.
    Guard,
    InnerGuard,
}

/// What the next token is.
#[derive(Clone, Copy)]
pub enum Class {
    Any,
    Word(Word),
    Sign(Sign),
    /// One of two.
    Either(Sign, Sign),
    /// Spelled as an atom is.
    Atom,
    /// An atom or a variable.
    Agent,
    /// That with which a literal begins.
    Literal,
    /// A number or a string.
    Constant,
    /// `*`, `div` or `mod`.
    Factor,
    /// A change of a belief: `+`, `-` or `-+`.
    Change,
    Relation,
}

/// In which modes a row holds.
#[derive(Clone, Copy)]
pub enum Place {
    Any,
    Term,
    /// Anywhere but in a term.
    Outside,
    /// In brackets or not.
    Formula,
    Item,
    Guard,
    /// Where internal actions may stand.
    Body,
    /// Not in brackets.
    WholeFormula,
    WholeGuard,
}

/// What else has to hold.
#[derive(Clone, Copy)]
pub enum Also {
    Nothing,
    /// What was read is this; it is no other term; neither such a term nor a truth value; one of these.
    Left(Left),
    Formed,
    Logical,
    Unfit,
    /// It may be a term.
    Termlike,
    /// It may be a term, and arithmetic may stand here.
    Arithmetic,
    /// Arithmetic may stand here; variables may.
    Free,
    Variables,
    /// In the source of an agent.
    Agent,
    /// As many arguments as may be stand before; fewer than have to be.
    Full,
    Few,
    /// The next argument is a formula.
    Formula,
    /// The internal action may not stand in a formula.
    Impure,
    /// The token is spelled so, and the one behind it is this.
    Text(Spelling, Class),
    /// The name is used already.
    Used,
}

/// Words that are atoms elsewhere.
#[derive(Clone, Copy)]
pub enum Spelling {
    Hide,
    Use,
    Act,
    By,
    Drop,
}

/// What is done.
#[derive(Clone, Copy)]
pub enum Act {
    /// Goes over a token, over a bracket that opens, and over one that closes.
    Go,
    Open,
    Shut,
    Stop(Halt),
    /// Stops unless the piece ends here.
    End(Halt),
    /// Wants this before all that is wanted so far, and what is wanted from here on in this mode.
    Want(State),
    In(Mode),
    Left(Left),
    Plain(bool),
    Ground,
    Sort(Sort),
    Part(Part),
    /// An item begins here, and the effects.
    Item,
    Arrow,
    /// Looks the internal action up.
    Find,
    /// One more argument; their number is at fault.
    Count,
    Miscount,
}

/// Where this state is wanted, the token is this, the place is one of those and something else holds, this is done. Of the rows of a state
/// the first that holds counts; where none does, nothing is done.
pub type Row = (State, Class, Place, Also, &'static [Act]);
