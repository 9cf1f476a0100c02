//! The internal actions, by what they are for.

ghost use Rattle.std.specs.Prelude.{◌≡◌};
ghost use Rattle.asl_term_actions.specs.Actions as spec;

/// An internal action. A crate that does some of them matches on their own type, so that each new one is missed there.
#[derive(Clone, Copy, Drop)]
pub enum Action {
    /// It collects the solutions of a formula.
    Collects(Collector),
    /// It looks at its arguments.
    Looks(Look),
    /// It says its arguments.
    Print,
    /// It has no solution.
    Fail,
    /// It acts on goals, on beliefs, on other agents or on the run.
    Does(Deed),
}

/// What collects the solutions of a formula.
#[derive(Clone, Copy, Drop)]
pub enum Collector {
    Findall,
    Count,
}

/// What looks at its arguments and changes nothing.
#[derive(Clone, Copy, Drop)]
pub enum Look {
    Member,
    Length,
    Nth,
    Concat,
    Max,
    Min,
    Reverse,
    MyName,
    Passes(Test),
}

/// What may be asked of a term.
#[derive(Clone, Copy, Drop)]
pub enum Test {
    Ground,
    Number,
    String,
    /// A list without a tail.
    List,
    Atom,
    Literal,
}

/// What acts on goals, on beliefs, on other agents or on the run.
#[derive(Clone, Copy, Drop)]
pub enum Deed {
    OnLiteral(LiteralDeed),
    Send,
    Broadcast,
    StopMas,
}

/// A deed about the goal or the beliefs that its argument, a literal, names.
#[derive(Clone, Copy, Drop)]
pub enum LiteralDeed {
    DropIntention,
    DropDesire,
    SucceedGoal,
    FailGoal,
    Intend,
    Desire,
    Abolish,
}

fn look_takes(look: Look, count: u64) -> bool
    ensures { result ≡ spec.look_takes look count }
{
    match look {
        Look::Nth => count == 3,
        Look::Concat => 3 <= count,
        Look::MyName | Look::Passes(_) => count == 1,
        Look::Member | Look::Length | Look::Max | Look::Min | Look::Reverse => count == 2,
    }
}

fn deed_takes(deed: Deed, count: u64) -> bool
    ensures { result ≡ spec.deed_takes deed count }
{
    match deed {
        Deed::OnLiteral(_) => count == 1,
        Deed::Send => count == 3 || count == 4,
        Deed::Broadcast => count == 2,
        Deed::StopMas => count == 0,
    }
}

/// Whether an action takes so many arguments.
pub fn takes(action: Action, count: u64) -> bool
    ensures { result ≡ spec.takes action count }
{
    match action {
        Action::Collects(Collector::Findall) => count == 3,
        Action::Collects(Collector::Count) => count == 2,
        Action::Looks(look) => look_takes(look, count),
        Action::Print => true,
        Action::Fail => count == 0,
        Action::Does(deed) => deed_takes(deed, count),
    }
}

/// Whether an action may stand in a formula, and so in contexts, rules and bodies: it changes nothing and says nothing. The
/// others are items of bodies alone.
pub fn stands_in_formula(action: Action) -> bool
    ensures { result ≡ spec.stands_in_formula action }
{
    match action {
        Action::Collects(_) | Action::Looks(_) => true,
        Action::Print | Action::Fail | Action::Does(_) => false,
    }
}
