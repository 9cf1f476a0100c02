//! Plans with those who they are from, and rules.

use crate::lists::{Same, same_all};
use asl_plans::entry::OwnedPlan;
use asl_term::compare_expr::{equal_expr, equal_literal, equal_plan};
use asl_term::sequence::Starved;
use asl_term::syntax::Clause;
use std::alloc::Global;

impl Same for u32 {
    fn same(&self, alloc: Global, other: &u32) -> Result<bool, Starved> {
        let _room = alloc;
        Ok(*self == *other)
    }
}

impl Same for OwnedPlan {
    fn same(&self, alloc: Global, other: &OwnedPlan) -> Result<bool, Starved> {
        if !equal_plan(&self.plan, &other.plan) {
            return Ok(false);
        }
        let same = same_all(alloc, self.owners.as_slice(), other.owners.as_slice())?;
        Ok(same)
    }
}

impl Same for Clause {
    fn same(&self, alloc: Global, other: &Clause) -> Result<bool, Starved> {
        let _room = alloc;
        Ok(equal_literal(&self.head, &other.head) && equal_expr(&self.body, &other.body))
    }
}
