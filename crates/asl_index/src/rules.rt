//! Rules, found by the sign, functor and number of arguments of their heads.

ghost use Rattle.std.specs.Prelude.{◌≡◌, ◌<◌, ◌^◌, filter, length, IfOk, slice_get};
ghost use Rattle.std.specs.Option.{option_copied};
ghost use Rattle.asl_unify.specs.Compare.{same_frame};
ghost use Rattle.asl_index.specs.Rules.{AreFiledRules};

use asl_index_tables::frames::Frames;
use asl_term::sequence::Starved;
use asl_term::syntax::{Clause, Clauses, Literal};
use std::alloc::Global;

/// The places of rules, filed by their heads.
pub fn file_rules(alloc: Global, rules: &[Clause]) -> Result<Frames, Starved>
    ensures { IfOk result (λ r. AreFiledRules rules.now r) }
{
    let mut frames = Frames::new(alloc);
    for i in 0..rules.len() {
        frames.put(alloc, &rules[i].head, i as u64)?;
    }
    Ok(frames)
}

/// How many rules there are for a goal.
pub fn count_rules(rules: &Clauses, frames: &Frames, g: &Literal) -> u64
    requires { AreFiledRules rules.now frames.now }
    ensures count { result ≡ length (filter (λ r. same_frame g.now r.head) rules.now) }
    ensures within { result < 2 ^ 63 }
{
    let most = rules.as_slice().len() as u64;
    frames.count(g).min(most)
}

/// The k-th rule for a goal.
pub fn rule_at<'a>(rules: &'a Clauses, frames: &Frames, g: &Literal, k: u64) -> Option<&'a Clause>
    requires { AreFiledRules rules.now frames.now }
    ensures { option_copied result ≡ slice_get (filter (λ r. same_frame g.now r.head) rules.now) k }
{
    match frames.at(g, k) {
        Some(i) => rules.at(i),
        None => None,
    }
}
