//! An artifact that a test wrote answers for itself.

use crate::pings::{Pings, ping};
use asl_term::printing_expr::print_literal;
use asl_term::sequence::{Seq, Starved};
use asl_term::syntax::Text;
use mas_world::artifact::Artifact;
use std::alloc::Global;

/// An artifact has no table with an act that drops an artifact.
#[test]
fn a_table_that_drops_is_refused(rt: HostRuntime) {
    let made = Pings::of(rt.alloc(), b"pings", b"act ping by A -> +p, drop tally.");
    let refused = matches!(&made, Ok(None));
    drop(made);
    assert!(rt; refused);
}

/// The name and the facts of an artifact after so many pings, all of which are done.
fn pinged(alloc: Global, pings: &mut Pings, times: u64, told: &mut Text) -> Result<(), Starved> {
    for _ in 0..times {
        if !ping(alloc, pings, b"a")? {
            told.append(b"not ")?;
        }
    }
    told.append(pings.name().as_slice())?;
    let mut facts = Seq::new(alloc);
    let mut outcome = pings.observe(&mut facts);
    for fact in facts.as_slice() {
        if let Ok(()) = outcome {
            outcome = print_literal(fact, told);
        }
    }
    drop(facts);
    outcome
}

#[test]
fn an_artifact_of_ones_own_acts(rt: HostRuntime) -> Result<(), Starved> {
    let alloc = rt.alloc();
    let Ok(Some(mut pings)) = Pings::new(alloc, b"pings") else {
        return Err(Starved);
    };
    let mut told = Seq::new(alloc);
    let outcome = pinged(alloc, &mut pings, 2, &mut told);
    drop(pings);
    outcome?;
    assert!(rt; told.as_slice() == b"pingspings(2)".as_slice());
    Ok(())
}
