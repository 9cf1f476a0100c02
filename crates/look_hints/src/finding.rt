//! The hints of a source and of a world, as they are shown.

ghost use Rattle.std.specs.Prelude.{◌≡◌, length, map, IfOk};
ghost use Rattle.look_hints.specs.Planless as spec;

use crate::covered::{put_endless, put_untaken};
use crate::hint::{Hint, Hints, span_to};
use crate::jason::put_forms;
use crate::planless::planless;
use crate::project::{Here, Member, ReadProject};
use crate::rules::Subject;
use crate::sight::{Sight, asked_of, sight_of};
use crate::singles::{put_once, put_singles};
use crate::telling::{Sheet, new_sheet};
use crate::uses::uses_of;
use crate::world::ReadWorld;
use asl_parser::sentence::Sentence;
use asl_term::sequence::{Seq, Starved};
use asl_term::syntax::Text;
use look_pieces::findings::{Finding, Findings, about};
use look_reasons::excerpt::shown;
use look_reasons::mark::marks_of;
use std::alloc::Global;

/// The hints of a file, and how its name is shown.
pub struct HintsTold {
    pub shown: Text,
    pub findings: Findings,
}

/// By hand, so that who lets one go proves nothing of its parts.
impl Drop for HintsTold {
    fn drop(self) {
        let HintsTold {
            shown: _,
            findings: _,
        } = self;
    }
}

/// Puts the hints at a clause, the one of this number of its source, from 0, but for those at its goals.
fn put_clause<'a>(here: &Here<'a>, number: usize, sheet: &mut Sheet) {
    let said = &here.clause.said;
    put_once(here.alloc, here.marks, said, sheet);
    let uses = uses_of(here.alloc, here.marks, said);
    if uses.spent {
        sheet.spent = true;
    }
    for u in uses.literals.as_slice() {
        let last = if u.literal.neg {
            u.at.saturating_add(1)
        } else {
            u.at
        };
        sheet.look(&Sight {
            asked: asked_of(here, here.member, u.literal),
            ..sight_of(u.part, span_to(here.marks, u.at, last))
        });
    }
    if let Sentence::Plan(p) = said {
        put_forms(here, &p.trigger, &uses, sheet);
        put_untaken(here, number, &p.trigger, sheet);
        put_endless(here, number, &p.trigger, sheet);
    }
}

/// Hints by their places, and then by the words of their codes.
fn sorted(hints: Hints) -> Result<Hints, Starved>
    ensures { IfOk result (λ all. length all ≡ length hints) }
{
    let mut all = hints.into_vec();
    all.sort_by_key(|h| { h.place.at.saturating_mul(16).saturating_add(h.code as u64) })?;
    Ok(Seq::from_vec(all))
}

/// The findings of hints in a file of these bytes.
fn findings_of(alloc: Global, bytes: &[u8], hints: &[Hint]) -> Result<Findings, Starved>
    ensures { IfOk result (λ fs. length fs ≡ length hints.now) }
{
    let mut findings = Seq::new(alloc);
    let mut rest = hints;
    'hints: while let Some((h, after)) = rest.split_first() {
        let line = h.place.line;
        let column = h.place.column;
        findings.push(Finding {
            line,
            column,
            about: about(alloc, bytes, line, column, &h.reason)?,
        })?;
        rest = after;
    }
    Ok(findings)
}

/// The hints of a file of this name and these bytes, in their order, as they are shown.
fn told_in(alloc: Global, file: &Text, bytes: &Text, hints: Hints) -> Result<HintsTold, Starved>
    ensures { IfOk result (λ t. length t.findings ≡ length hints) }
{
    let ordered = sorted(hints)?;
    let findings = findings_of(alloc, bytes.as_slice(), ordered.as_slice());
    drop(ordered);
    Ok(HintsTold {
        findings: findings?,
        shown: shown(alloc, file.as_slice())?,
    })
}

/// The hints at the goals of all clauses for which their source has no plan.
#[tactic(auto, using(crate::proofs::Spots::joined, crate::proofs::Spots::none_left))]
fn all_goal_hints(alloc: Global, tells_plans: bool, m: &Member) -> Result<Hints, Starved>
    ensures { IfOk result (λ hs. map spec.spot hs ≡ spec.all_planless tells_plans m.now.source.clauses m.now.source.clauses) }
{
    let mut all = Seq::new(alloc);
    let mut rest = m.source.clauses.as_slice();
    'clauses: while let Some((c, after)) = rest.split_first() {
        all.append_all(planless(alloc, tells_plans, m, c)?)?;
        rest = after;
    }
    Ok(all)
}

/// The other hints of a source of a project, the one at this place.
fn other_hints(
    alloc: Global,
    project: &ReadProject,
    place: usize,
    member: &Member,
) -> Result<Hints, Starved> {
    let mut sheet = new_sheet(alloc);
    for (number, clause) in member.source.clauses.as_slice().iter().enumerate() {
        let Ok(marks) = marks_of(alloc, member.source.text.as_slice(), clause.toks.as_slice())
        else {
            sheet.spent = true;
            break;
        };
        let here = Here {
            alloc,
            project: &*project,
            member: &*member,
            place,
            clause,
            marks: marks.as_slice(),
        };
        put_clause(&here, number, &mut sheet);
    }
    sheet.into_hints()
}

/// The hints of a source of a project, the one at this place: at least one for each goal for which it has no plan.
#[tactic(auto, using(crate::proofs::Spots::as_many))]
pub fn member_told(
    alloc: Global,
    project: &ReadProject,
    place: usize,
    member: &Member,
) -> Result<HintsTold, Starved>
    ensures { IfOk result (λ t. spec.TellsGoals project.now.tells_plans member.now.source.clauses t.findings) }
{
    let mut all = all_goal_hints(alloc, project.tells_plans, member)?;
    all.append_all(other_hints(alloc, project, place, member)?)?;
    told_in(alloc, &member.source.file, &member.source.bytes, all)
}

/// The hints of a world: variables of its acts that occur once.
pub fn world_told(alloc: Global, w: &ReadWorld) -> Result<HintsTold, Starved> {
    let mut sheet = new_sheet(alloc);
    for piece in w.written.as_slice() {
        match marks_of(alloc, w.text.as_slice(), piece.as_slice()) {
            Ok(marks) => put_singles(alloc, marks.as_slice(), Subject::Once, None, &mut sheet),
            Err(_) => sheet.spent = true,
        }
    }
    told_in(alloc, &w.file, &w.bytes, sheet.into_hints()?)
}
