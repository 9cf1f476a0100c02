//! Plans in order, each with those who it is from, found by their triggers.

ghost use Rattle.std.specs.Prelude.{◌≡◌, ◌++◌, ◌-◌, [], None, Some, IfOk, OnOk, OnErr, length, not, option_to_list, slice_get};
ghost use Rattle.std.specs.Option.{option_copied};
ghost use Rattle.asl_index_tables.specs.Frames.{filed};
ghost use Rattle.asl_plans.specs.FiledPlaces.{AreOf, chosen, filed_plans, way_at};
ghost use Rattle.asl_plans.specs.Libraries as libraries;
ghost use Rattle.asl_plans.specs.Plans as spec;

use crate::changing::{add_to, drop_from};
use crate::entry::{OwnedPlan, OwnedPlans, Which};
use crate::filing::FiledPlaces;
use asl_index_tables::frames::Frames;
use asl_index_tables::keys::Keys;
use asl_term::sequence::{Seq, Starved};
use asl_term::syntax::{Kind, Literal, Plan, Plans, Trigger};
use asl_unify::layers::same_frames;
use asl_unify::subst::Subst;
use asl_unify_early::clashes::renamed_first;
use std::alloc::Global;
use std::marker::Model;

/// The place of a plan, and what its match gives.
#[derive(Drop)]
pub struct Choice {
    pub plan: u64,
    pub subst: Subst,
}

pub type Choices = Seq<Choice>;

/// Plans in order, no two of them equal, each with those who it is from. They are found by the sign and the kind of their triggers,
/// and by the sign, functor and number of arguments of these; an equal plan by a number that is made of its trigger.
pub struct Library {
    entries: OwnedPlans,
    filed: FiledPlaces,
    keys: Keys,
}

/// By hand, so that a crate above that lets one go proves nothing of its parts.
impl Drop for Library {
    fn drop(self) {
        let Library {
            entries: _,
            filed: _,
            keys: _,
        } = self;
    }
}

impl Model for Library {
    ghost use Rattle.asl_term.specs.contracts.syntax.Plan as plan;
    ghost use Rattle.asl_plans.specs.FiledPlaces.{Held, IsIndex};
    ghost use Rattle.asl_plans.specs.Libraries.{AreEntries};
    ghost use Rattle.std.specs.Coded.{codes};

    ghost Value = { Held };

    ghost coded = { Prim.hlevel (codes, plan.the_row.coded) };

    ghost view = { λ l. record { plans = l.entries } };

    ghost invariant = { λ l. IsIndex l.entries l.filed l.keys × AreEntries l.entries };
}

fn same_kind(a: Kind, b: Kind) -> bool
    ensures { result ≡ spec.same_kind a b }
{
    match (a, b) {
        (Kind::Belief, Kind::Belief) => true,
        (Kind::Achieve, Kind::Achieve) => true,
        (Kind::Test, Kind::Test) => true,
        _ => false,
    }
}

fn alike(plan: &Trigger, event: &Trigger) -> bool
    ensures { result ≡ spec.alike plan.now event.now }
{
    plan.add == event.add && same_kind(plan.kind, event.kind)
}

/// The first match of the renamed trigger of a plan. It is renamed only where it may match.
fn first_way(
    alloc: Global,
    plan: &Trigger,
    event: &Trigger,
    number: u64,
) -> Result<Option<Subst>, Starved>
    ensures { IfOk result (λ r. r ≡ spec.first_way number plan.now event.now) }
{
    if !alike(plan, event) {
        return Ok(None);
    }
    if !same_frames(&plan.lit, &event.lit) {
        return Ok(None);
    }
    renamed_first(alloc, &plan.lit, number, &event.lit)
}

/// Puts the plan at a place last among the choices, with its first match, where it has one.
fn put_choice(
    alloc: Global,
    entries: &OwnedPlans,
    place: u64,
    t: &Trigger,
    number: u64,
    r: &mut Choices,
) -> Result<(), Starved>
    ensures { IfOk result (λ _. r.new ≡ r.old ++ spec.kept place (way_at entries.now number t.now place) []) }
{
    match entries.at(place) {
        Some(e) => match first_way(alloc, &e.plan.trigger, t, number)? {
            Some(subst) => r.push(Choice { plan: place, subst }),
            None => Ok(()),
        },
        None => Ok(()),
    }
}

/// The same of the k-th plan that is filed under the frame of the event.
fn put_kth(
    alloc: Global,
    entries: &OwnedPlans,
    frames: &Frames,
    t: &Trigger,
    number: u64,
    k: u64,
    r: &mut Choices,
) -> Result<(), Starved>
    ensures { IfOk result (λ _. r.new ≡ r.old ++ chosen (way_at entries.now number t.now)
        (option_to_list (slice_get (filed frames.now t.now.lit.neg t.now.lit.functor (length t.now.lit.args)) k))) }
{
    match frames.at(&t.lit, k) {
        Some(place) => put_choice(alloc, entries, place, t, number, r),
        None => Ok(()),
    }
}

/// The relevant plans, among those of the sign and the kind of the event.
fn relevant_of(
    alloc: Global,
    entries: &OwnedPlans,
    frames: &Frames,
    t: &Trigger,
    number: u64,
) -> Result<Choices, Starved>
    requires { AreOf t.now.add t.now.kind entries.now frames.now }
    ensures { IfOk result (λ r. r ≡ spec.relevant entries.now number t.now) }
{
    let mut r = Seq::new(alloc);
    for k in 0..frames.count(&t.lit) {
        put_kth(alloc, entries, frames, t, number, k, &mut r)?;
    }
    Ok(r)
}

impl Library {
    /// No plans.
    pub fn new(alloc: Global) -> Library
        ensures { result.plans ≡ [] }
    {
        Library {
            entries: Seq::new(alloc),
            filed: FiledPlaces::new(alloc),
            keys: Keys::new(alloc),
        }
    }

    /// The plans of a source, equal ones once.
    pub fn of(alloc: Global, plans: Plans) -> Result<Library, Starved>
        ensures { IfOk result (λ r. r.plans ≡ libraries.opened plans) }
    {
        let mut lib = Library::new(alloc);
        lib.add_all(plans, 0)?;
        Ok(lib)
    }

    /// Each plan whose trigger, renamed by the number, has the sign and the kind of the event's and matches its
    /// literal, with the first match. They come in order.
    pub fn relevant(&self, alloc: Global, t: &Trigger, number: u64) -> Result<Choices, Starved>
        ensures { IfOk result (λ r. r ≡ spec.relevant self.now.plans number t.now) }
    {
        relevant_of(alloc, &self.entries, self.filed.of(t), t, number)
    }

    /// The k-th of the plans, in order, whose triggers have this sign and kind, and the sign, functor and number of arguments of
    /// a literal. No other plan is relevant for an event that has these.
    pub fn filed_plan(&self, add: bool, kind: Kind, l: &Literal, k: u64) -> Option<&OwnedPlan>
        ensures { option_copied result ≡ slice_get (filed_plans add kind l.now self.now.plans) k }
    {
        match self.filed.under(add, kind).at(l, k) {
            None => None,
            Some(place) => self.entries.at(place),
        }
    }

    /// All plans, in order.
    pub fn all(&self) -> &[OwnedPlan]
        ensures { result.now ≡ self.now.plans }
    {
        self.entries.as_slice()
    }

    /// The plan at a place.
    pub fn plan(&self, k: u64) -> Option<&Plan>
        ensures { option_copied result ≡ libraries.plan_at self.now.plans k }
    {
        match self.entries.at(k) {
            None => None,
            Some(e) => Some(&e.plan),
        }
    }

    /// Adds a plan from an owner. Where an equal plan is there, the owner goes last among its owners. Answers whether it was
    /// new: it is not where the plan has the owner already.
    pub fn add_plan(&mut self, p: Plan, owner: u32) -> Result<bool, Starved>
        ensures new { IfOk result (λ new. new ≡ not (libraries.is_owned p owner self.old.plans)) }
        ensures ok { OnOk result (self.new.plans ≡ libraries.added p owner self.old.plans) }
        ensures err { OnErr result (self.new.plans ≡ self.old.plans) }
    {
        add_to(&mut self.entries, &mut self.filed, &mut self.keys, p, owner)
    }

    /// Adds plans one after another. After `Starved` some may have been added.
    pub fn add_all(&mut self, plans: Plans, owner: u32) -> Result<(), Starved>
        ensures { OnOk result (self.new.plans ≡ libraries.all_added plans owner self.old.plans) }
    {
        let mut left = plans;
        left.reverse();
        'plans: while let Some(p) = left.pop() {
            self.add_plan(p, owner)?;
        }
        Ok(())
    }

    /// Takes an owner from the plans that are meant. Answers how many had no owner left, and went.
    pub fn drop_plan(&mut self, which: &Which, owner: u32) -> Result<u64, Starved>
        ensures ok { OnOk result (self.new.plans ≡ libraries.dropped which.now owner self.old.plans) }
        ensures count { IfOk result (λ n. n ≡ length self.old.plans - length self.new.plans) }
        ensures err { OnErr result (self.new.plans ≡ self.old.plans) }
    {
        drop_from(
            &mut self.entries,
            &mut self.filed,
            &mut self.keys,
            which,
            owner,
        )
    }
}
