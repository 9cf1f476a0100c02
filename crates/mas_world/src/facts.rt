//! Lists of distinct facts.

ghost use Rattle.std.specs.Prelude.{◌≡◌, ◌≤◌, ◌<◌, [], ◌∷◌, ◌++◌, take, drop, remove, length, slice_get, if◌then◌else◌, IfOk, OnOk, OnErr};
ghost use Rattle.std.specs.Option.{ForSome};
ghost use Rattle.mas_world.specs.Acts as acts;
ghost use Rattle.mas_world.specs.Facts as spec;

use asl_term::compare_expr::equal_literal;
use asl_term::copying::copy_literal;
use asl_term::sequence::{Seq, Starved};
use asl_term::syntax::{Literal, Literals, Text};
use std::alloc::Global;

/// What an act that acts takes away and adds, and the names of the artifacts that it drops. The names come out as the deed is carried out, so that nothing
/// is dropped before.
#[derive(Drop)]
pub struct Deed {
    dels: Literals,
    adds: Literals,
    drops: Seq<Text>,
}

impl Deed {
    /// A deed of these parts.
    pub fn of(dels: Literals, adds: Literals, drops: Seq<Text>) -> Deed
        ensures dels { result.dels ≡ dels }
        ensures adds { result.adds ≡ adds }
        ensures drops { result.drops ≡ drops }
    {
        Deed { dels, adds, drops }
    }
}

fn same_fact(f: &Literal, g: &Literal) -> bool
    ensures { result ≡ spec.same_fact f.now g.now }
{
    equal_literal(f, g)
}

/// Whether the literal is one of the facts.
pub fn is_fact(facts: &[Literal], f: &Literal) -> bool
    ensures { result ≡ spec.is_fact facts.now f.now }
{
    for g in facts {
        if same_fact(f, g) {
            return true;
        }
    }
    false
}

/// Puts a literal last, where it is not there yet.
pub fn add_new(alloc: Global, facts: &mut Literals, f: &Literal) -> Result<(), Starved>
    ensures ok { OnOk result (facts.new ≡ facts.old ++ spec.news facts.old (f.now ∷ [])) }
    ensures err { OnErr result (facts.new ≡ facts.old) }
{
    if !is_fact(facts.as_slice(), f) {
        facts.push(copy_literal(alloc, f)?)?;
    }
    Ok(())
}

/// Whether the literal is one of the facts, and is not taken away.
#[tactic(auto, using(crate::proofs::Staying::stays))]
fn stays(facts: &[Literal], dels: &[Literal], f: &Literal) -> bool
    ensures { result ≡ spec.is_fact (spec.without dels.now facts.now) f.now }
{
    is_fact(facts, f) && !is_fact(dels, f)
}

/// What the deed adds that is not there then.
#[tactic(auto, using(crate::proofs::Staying::either))]
fn new_facts(alloc: Global, facts: &[Literal], deed: &Deed) -> Result<Literals, Starved>
    ensures { IfOk result (λ r. r ≡ spec.news (spec.without deed.now.dels facts.now) deed.now.adds) }
{
    let mut new = Seq::new(alloc);
    for f in deed.adds.as_slice() {
        if !stays(facts, deed.dels.as_slice(), f) && !is_fact(new.as_slice(), f) {
            new.push(copy_literal(alloc, f)?)?;
        }
    }
    Ok(new)
}

/// Takes the fact at this place away, if it is one of these.
fn take_at(facts: &mut Literals, k: u64, dels: &[Literal])
    requires { k < length facts.old }
    ensures { ForSome (slice_get facts.old k) (λ f. facts.new ≡ if spec.is_fact dels.now f then remove facts.old k else facts.old) }
{
    if is_fact(dels, &facts.as_slice()[k as usize]) {
        facts.remove(k);
    }
}

/// Takes those of these away that stand among the first `n` facts, the last of them first.
fn take_away(facts: &mut Literals, n: u64, dels: &[Literal])
    requires { n ≤ length facts.old }
    ensures { facts.new ≡ spec.without dels.now (take n facts.old) ++ drop n facts.old }
{
    let mut k = n;
    while k > 0 {
        k -= 1;
        take_at(facts, k, dels);
    }
}

/// The facts become what they are after the deed; where memory is wanting they stay.
fn change(alloc: Global, facts: &mut Literals, deed: &Deed) -> Result<(), Starved>
    ensures ok { OnOk result (facts.new ≡ acts.done deed.now facts.old) }
    ensures err { OnErr result (facts.new ≡ facts.old) }
{
    let new = new_facts(alloc, facts.as_slice(), deed)?;
    let n = facts.len();
    facts.append_all(new)?;
    take_away(facts, n, deed.dels.as_slice());
    Ok(())
}

/// The facts become what they are after the deed, and the names of the artifacts that it drops come out; where memory is wanting the facts stay.
pub fn carry_out(alloc: Global, facts: &mut Literals, deed: Deed) -> Result<Seq<Text>, Starved>
    ensures ok { OnOk result (facts.new ≡ acts.done deed facts.old) }
    ensures drops { IfOk result (λ names. names ≡ deed.drops) }
    ensures err { OnErr result (facts.new ≡ facts.old) }
{
    let changed = change(alloc, facts, &deed);
    let Deed { dels, adds, drops } = deed;
    drop(dels);
    drop(adds);
    match changed {
        Ok(()) => Ok(drops),
        Err(starved) => {
            drop(drops);
            Err(starved)
        }
    }
}
