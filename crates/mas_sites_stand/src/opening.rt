//! Stands before their first cycle.

ghost use Rattle.std.specs.Prelude.{◌≡◌, length, IfOk};
ghost use Rattle.mas_mind.specs.Minds.{IsAgent};
ghost use Rattle.mas_sites_stand.specs.Stands as spec;

use crate::stand::Stand;
use asl_term::names::{Names, copy_names};
use asl_term::sequence::Starved;
use std::alloc::Global;

/// A stand with these names, no cycles, no lines, an empty script and nothing taken.
pub fn stand(alloc: Global, me: u32, names: &Names) -> Result<Stand, Starved>
    requires { IsAgent (length names.now) me }
    ensures { IfOk result (λ s. s ≡ spec.opening_stand me names.now) }
{
    let names = copy_names(alloc, names)?;
    Ok(Stand::with_names(alloc, me, names))
}
