//! What is made of parts that were read.

ghost use Rattle.std.specs.Prelude.{◌≡◌, IfOk};
ghost use Rattle.asl_parser_tree.specs.Operands as spec;
ghost use Rattle.asl_parser_tree.specs.Holding.{limited};

use crate::bounded::{Held, HeldListing, HeldLiteral};
use crate::held::{compared, joined, prefixed};
use crate::meaning::{Joint, Prefix};
use crate::parts::{called, listing_held, literal_held};
use asl_term::boxed::Boxed;
use asl_term::sequence::Starved;
use asl_term::syntax::{RelOp, Text};
use std::alloc::Global;

/// What was read: operands and the sign that stands between them or before one, the name and the arguments of a call, a literal, a list.
#[derive(Drop)]
pub enum Operands<'a> {
    Joined(Joint, Boxed<Held>, Boxed<Held>),
    Compared(RelOp, Boxed<Held>, Boxed<Held>),
    Prefixed(Prefix, Boxed<Held>),
    Called(&'a Text, Vec<Held>),
    Literal(HeldLiteral),
    Listing(HeldListing),
}

// Puts what was made on the heap.
fn placed(alloc: Global, found: Option<Held>) -> Result<Option<Boxed<Held>>, Starved>
    ensures { IfOk result (λ r. r ≡ found) }
{
    match found {
        Some(m) => Ok(Some(Boxed::new(alloc, m)?)),
        None => Ok(None),
    }
}

fn made_held(alloc: Global, making: Operands<'_>) -> Result<Option<Held>, Starved>
    ensures { IfOk result (λ r. r ≡ spec.made limited making.entry) }
{
    match making {
        Operands::Joined(joint, left, right) => {
            joined(alloc, joint, left.into_inner(), right.into_inner())
        }
        Operands::Compared(op, left, right) => {
            compared(alloc, op, left.into_inner(), right.into_inner())
        }
        Operands::Prefixed(before, m) => prefixed(alloc, before, m.into_inner()),
        Operands::Called(name, all) => called(alloc, name, all),
        Operands::Literal(l) => Ok(Some(literal_held(l))),
        Operands::Listing(l) => Ok(Some(listing_held(l))),
    }
}

/// What is made of them, on the heap: the reader's frames hold it at each level of brackets. It is one function for all of them, so that
/// it is large and called from several places: a compiler that lays what is called once into its caller would else hold its frame there.
#[inline(never)]
pub fn made(alloc: Global, making: Operands<'_>) -> Result<Option<Boxed<Held>>, Starved>
    ensures { IfOk result (λ r. r ≡ spec.made limited making.entry) }
{
    placed(alloc, made_held(alloc, making)?)
}
