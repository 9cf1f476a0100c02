//! All formulas that are left of means.

ghost use Rattle.std.specs.Prelude.{◌≡◌, length, IfOk, IfErr, slice_get};
ghost use Rattle.std.specs.Option.{option_copied};
ghost use Rattle.asl_unify.specs.Limits.{Passes};
ghost use Rattle.asl_intend.specs.Bodies as spec;
ghost use Rattle.asl_intend.specs.Entries as entries;
ghost use Rattle.asl_intend.specs.Stacks as stacks;

use crate::entry::StackEntry;
use asl_term::syntax::Formula;
use asl_unify::apply::apply_formula;
use asl_unify::limits::TermFault;
use asl_unify::log::Log;
use std::alloc::Global;

impl StackEntry {
    /// How many formulas are left.
    #[tactic(auto, using(crate::proofs::Placed::left_first, crate::proofs::Placed::left_kept))]
    pub fn left(&self, log: &Log) -> u64
        ensures { result ≡ length (entries.seen log.now self.now).body }
    {
        let (front, back) = self.body.parts();
        let pushed = front.len() as u64 + back.len() as u64;
        match &self.first {
            Some(_) => pushed + 1,
            None => pushed,
        }
    }

    /// The formula at a place, of those that were pushed with the means.
    #[tactic(auto, using(crate::proofs::Placed::in_front, crate::proofs::Placed::in_back))]
    fn pushed_at(&self, j: u64) -> Option<&Formula>
        ensures { option_copied result ≡ slice_get self.now.body j }
    {
        let (front, back) = self.body.parts();
        let k = j as usize;
        if k < front.len() {
            front.get(k)
        } else {
            back.get(k - front.len())
        }
    }

    /// The same, with what is bound put into it. One that passes the limits is not built.
    fn pushed_formula(&self, alloc: Global, log: &Log, j: u64) -> Result<Option<Formula>, TermFault>
        ensures ok { IfOk result (λ r. (r ≡ spec.pushed_formula log.now self.now j) × stacks.Bounded r) }
        ensures fault { IfErr result (λ e. Passes (stacks.is_bounded (spec.pushed_formula log.now self.now j)) e) }
    {
        match self.pushed_at(j) {
            None => Ok(None),
            Some(f) => {
                // That its pairs are sound is known once they are read.
                self.own.pairs();
                match apply_formula(alloc, f, &self.own, log.since(self.since)) {
                    Ok(r) => Ok(Some(r)),
                    Err(e) => Err(e),
                }
            }
        }
    }

    /// The formula at a place, with what is bound put into it. One that passes the limits is not built.
    #[tactic(auto, using(crate::proofs::Placed::behind_first, crate::proofs::Placed::among_pushed))]
    pub fn formula_at(&self, alloc: Global, log: &Log, j: u64) -> Result<Option<Formula>, TermFault>
        ensures ok { IfOk result (λ r. (r ≡ slice_get (entries.seen log.now self.now).body j) × stacks.Bounded r) }
        ensures fault { IfErr result (λ e. Passes (stacks.is_bounded (slice_get (entries.seen log.now self.now).body j)) e) }
    {
        if j == 0 {
            return self.first_formula(alloc, log);
        }
        match &self.first {
            Some(_) => self.pushed_formula(alloc, log, j - 1),
            None => self.pushed_formula(alloc, log, j),
        }
    }
}
