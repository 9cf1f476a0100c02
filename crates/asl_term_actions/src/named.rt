//! The names of the internal actions, without the dot in front.

ghost use Rattle.std.specs.Prelude.{◌≡◌};
ghost use Rattle.asl_term_actions.specs.Actions as spec;

use crate::action::{Action, Collector, Deed, LiteralDeed, Look, Test, takes};
use asl_term::syntax::Text;

fn collector_named(name: &[u8]) -> Option<Collector>
    ensures { result ≡ spec.collector_named name.now }
{
    if name == b"findall".as_slice() {
        Some(Collector::Findall)
    } else if name == b"count".as_slice() {
        Some(Collector::Count)
    } else {
        None
    }
}

fn test_named(name: &[u8]) -> Option<Test>
    ensures { result ≡ spec.test_named name.now }
{
    if name == b"ground".as_slice() {
        Some(Test::Ground)
    } else if name == b"number".as_slice() {
        Some(Test::Number)
    } else if name == b"string".as_slice() {
        Some(Test::String)
    } else if name == b"list".as_slice() {
        Some(Test::List)
    } else if name == b"atom".as_slice() {
        Some(Test::Atom)
    } else if name == b"literal".as_slice() {
        Some(Test::Literal)
    } else {
        None
    }
}

fn look_named(name: &[u8]) -> Option<Look>
    ensures { result ≡ spec.look_named name.now }
{
    if name == b"member".as_slice() {
        Some(Look::Member)
    } else if name == b"length".as_slice() {
        Some(Look::Length)
    } else if name == b"nth".as_slice() {
        Some(Look::Nth)
    } else if name == b"concat".as_slice() {
        Some(Look::Concat)
    } else if name == b"max".as_slice() {
        Some(Look::Max)
    } else if name == b"min".as_slice() {
        Some(Look::Min)
    } else if name == b"reverse".as_slice() {
        Some(Look::Reverse)
    } else if name == b"my_name".as_slice() {
        Some(Look::MyName)
    } else {
        match test_named(name) {
            Some(test) => Some(Look::Passes(test)),
            None => None,
        }
    }
}

fn literal_deed_named(name: &[u8]) -> Option<LiteralDeed>
    ensures { result ≡ spec.literal_deed_named name.now }
{
    if name == b"drop_intention".as_slice() {
        Some(LiteralDeed::DropIntention)
    } else if name == b"drop_desire".as_slice() {
        Some(LiteralDeed::DropDesire)
    } else if name == b"succeed_goal".as_slice() {
        Some(LiteralDeed::SucceedGoal)
    } else if name == b"fail_goal".as_slice() {
        Some(LiteralDeed::FailGoal)
    } else if name == b"intend".as_slice() {
        Some(LiteralDeed::Intend)
    } else if name == b"desire".as_slice() {
        Some(LiteralDeed::Desire)
    } else if name == b"abolish".as_slice() {
        Some(LiteralDeed::Abolish)
    } else {
        None
    }
}

fn deed_named(name: &[u8]) -> Option<Deed>
    ensures { result ≡ spec.deed_named name.now }
{
    if name == b"send".as_slice() {
        Some(Deed::Send)
    } else if name == b"broadcast".as_slice() {
        Some(Deed::Broadcast)
    } else if name == b"stopMAS".as_slice() {
        Some(Deed::StopMas)
    } else {
        match literal_deed_named(name) {
            Some(deed) => Some(Deed::OnLiteral(deed)),
            None => None,
        }
    }
}

/// The action of a name.
#[tactic(auto, unfolding(crate::specs::Actions::named))]
pub fn named(name: &Text) -> Option<Action>
    ensures { result ≡ spec.named name.now }
{
    let name = name.as_slice();
    if name == b"print".as_slice() {
        return Some(Action::Print);
    }
    if name == b"fail".as_slice() {
        return Some(Action::Fail);
    }
    if let Some(collector) = collector_named(name) {
        return Some(Action::Collects(collector));
    }
    if let Some(look) = look_named(name) {
        return Some(Action::Looks(look));
    }
    match deed_named(name) {
        Some(deed) => Some(Action::Does(deed)),
        None => None,
    }
}

/// The action of a name, where it takes so many arguments.
pub fn known(name: &Text, count: u64) -> Option<Action>
    ensures { result ≡ spec.known name.now count }
{
    match named(name) {
        Some(action) => {
            if takes(action, count) {
                Some(action)
            } else {
                None
            }
        }
        None => None,
    }
}
