//! The names of the agents of two projects.

ghost use Rattle.std.specs.Prelude.{◌≡◌, ◌≤◌, ◌+◌, ◌++◌, length, true, IfOk, OnOk};
ghost use Rattle.mas_project.specs.Projects.{most_agents};
ghost use Rattle.mas_top_sites.specs.Pairs as spec;

use asl_term::copying::copy_text;
use asl_term::names::{Names, find, number};
use asl_term::sequence::Starved;
use asl_term::syntax::Text;
use std::alloc::Global;

/// The first of these names that is among the earlier ones, with its number, counted from 1.
#[tactic(auto, using(crate::proofs::Shared::taking))]
pub fn first_taken(
    alloc: Global,
    earlier: &Names,
    names: &Names,
) -> Result<Option<(u64, Text)>, Starved>
    ensures { IfOk result (spec.TellsTaken earlier.now names.now) }
{
    for k in 0..names.len() {
        let Some(name) = names.at(k + 1) else {
            unreachable!()
        };
        if find(earlier, name).is_some() {
            let name = copy_text(alloc, name)?;
            return Ok(Some((k as u64 + 1, name)));
        }
    }
    Ok(None)
}

/// Puts names last, none of which is there.
#[tactic(auto, using(crate::proofs::Shared::putting))]
fn add_names(names: &mut Names, more: &Names) -> Result<(), Starved>
    requires few { length names.old + length more.now ≤ most_agents }
    requires new { spec.are_new names.old more.now ≡ true }
    ensures { OnOk result (names.new ≡ names.old ++ more.now) }
{
    for k in 0..more.len() {
        let Some(name) = more.at(k + 1) else {
            unreachable!()
        };
        number(names, name)?;
    }
    Ok(())
}

/// The names of all agents, those of the first project before those of the second.
#[tactic(auto, using(crate::proofs::Shared::new_at_first))]
pub fn all_names(alloc: Global, one: &Names, two: &Names) -> Result<Names, Starved>
    requires few { length one.now + length two.now ≤ most_agents }
    requires new { spec.are_new one.now two.now ≡ true }
    ensures { IfOk result (λ names. names ≡ one.now ++ two.now) }
{
    let mut names = Names::new(alloc)?;
    add_names(&mut names, one)?;
    add_names(&mut names, two)?;
    Ok(names)
}
