//! The numbers of arguments that internal actions take.

use asl_parser_tree::meaning::{is_deed, is_pure, wants_formula};
use asl_term::copying::text_of;
use asl_term::sequence::Starved;
use std::alloc::Global;

/// The least and the most arguments of an internal action, and whether it may stand in contexts and rules.
#[derive(Clone, Copy)]
pub struct Arity {
    pub pure: bool,
    pub low: usize,
    /// `ANY` where there may be any more.
    pub high: usize,
    /// The place from 0 of the argument that is a formula; `ANY` where none is.
    pub formula: usize,
}

/// More than any number of arguments.
pub const ANY: usize = usize::MAX;

/// Those of an action that takes none.
pub const NO_ARGUMENTS: Arity = Arity {
    pure: true,
    low: 0,
    high: 0,
    formula: ANY,
};

/// More arguments than any action takes that does not take any number of them.
const MANY: u64 = 5;

/// What the internal action of this spelling takes, where there is one.
pub fn arity_of(alloc: Global, spelled: &[u8]) -> Result<Option<Arity>, Starved> {
    let name = text_of(alloc, spelled.strip_prefix(b".").unwrap_or(spelled))?;
    let mut arity = Arity {
        pure: false,
        low: ANY,
        ..NO_ARGUMENTS
    };
    for count in 0..MANY {
        let pure = is_pure(&name, count);
        if pure || is_deed(&name, count) {
            arity.low = arity.low.min(count as usize);
            arity.high = count as usize;
            arity.pure = arity.pure || pure;
        }
        if wants_formula(&name, count) {
            arity.formula = count as usize;
        }
    }
    if is_pure(&name, MANY) || is_deed(&name, MANY) {
        arity.high = ANY;
    }
    drop(name);
    Ok(if arity.low < ANY { Some(arity) } else { None })
}
