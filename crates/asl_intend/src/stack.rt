//! Stacks of means. Substitutions are kept, and put into no more than what is asked for.

ghost use Rattle.std.specs.Prelude.{◌≡◌, ◌≤◌, [], ◌∷◌, ◌++◌, true, false, None, Some, drop, length, map, reverse, slice_get};
ghost use Rattle.std.specs.Prelude.{MatchOption, OnOk, OnErr, IfOk, IfErr, IfSome};
ghost use Rattle.asl_unify.specs.Limits.{Passes};
ghost use Rattle.asl_unify.specs.Logs.{later};
ghost use Rattle.asl_unify.specs.Puts.{IsSubst};
ghost use Rattle.asl_unify.specs.Turns.{value_in};
ghost use Rattle.asl_intend.specs.Apart.{PushedBy};
ghost use Rattle.asl_intend.specs.Bodies as bodies;
ghost use Rattle.asl_intend.specs.Entries as spec;
ghost use Rattle.asl_intend.specs.GoalMatches as found;
ghost use Rattle.asl_intend.specs.Means as means;
ghost use Rattle.asl_intend.specs.Stacks as stacks;
ghost use Rattle.asl_intend.specs.Untouched as untouched;

use crate::apart::{entry_under, stands_apart};
use crate::entry::{Means, StackEntry};
use crate::event_trigger::EventTrigger;
use crate::goal_match::{GoalMatch, MatchForm, entry_match, first_of};
use crate::kept::{copy_later, kept_entry};
use crate::untouched::{are_disjoint, leaves_entries};
use asl_term::compare::{equal, same_var};
use asl_term::sequence::{Seq, Starved};
use asl_term::syntax::{Formula, Literal, Term, Trigger};
use asl_term_queue::queue::Queue;
use asl_unify::limits::TermFault;
use asl_unify::log::{Later, Log};
use asl_unify::subst::{Pair, Subst, copy_subst, no_subst};
use std::alloc::Global;
use std::marker::Model;
use std::mem;

/// Means, the top first in contracts. The top is the last entry.
pub struct Stack {
    /// What was bound, the oldest first.
    log: Log,
    entries: Vec<StackEntry>,
}

/// By hand, so that a crate above that lets one go proves nothing of its parts.
impl Drop for Stack {
    fn drop(self) {
        let Stack { log: _, entries: _ } = self;
    }
}

impl Model for Stack {
    ghost use Rattle.std.specs.Prelude.{List, map, reverse, length};
    ghost use Rattle.std.specs.List.{AllByRecursion};
    ghost use Rattle.asl_intend.specs.declared.entry.Means.{Means};
    ghost use Rattle.asl_intend.specs.Entries as spec;
    ghost use Rattle.asl_term.specs.contracts.syntax.Term as term;
    ghost use Rattle.asl_term.specs.contracts.syntax.Expr as expr;
    ghost use Rattle.std.specs.Coded.{codes};

    ghost Value = { List Means };

    ghost coded = { Prim.hlevel (codes, term.the_row.coded, expr.the_row.coded) };

    ghost view = { λ s. map (spec.seen s.log) (reverse s.entries.items) };

    ghost invariant = { λ s. AllByRecursion (spec.Since (length s.log)) (reverse s.entries.items) };
}

/// The entry at a place, the last being 0.
fn from_top(entries: &[StackEntry], k: u64) -> Option<&StackEntry>
    ensures { MatchOption result (slice_get (reverse entries.now) k ≡ None) (λ e. slice_get (reverse entries.now) k ≡ Some e.now) }
{
    let n = entries.len() as u64;
    if k < n {
        Some(&entries[(n - 1 - k) as usize])
    } else {
        None
    }
}

/// Puts an entry last.
fn put_last(entries: &mut Vec<StackEntry>, e: StackEntry) -> Result<(), Starved>
    ensures ok { OnOk result (entries.new.items ≡ entries.old.items ++ e ∷ []) }
    ensures err { OnErr result (entries.new.items ≡ entries.old.items) }
{
    match entries.push(e) {
        Ok(()) => Ok(()),
        Err(refused) => {
            // A tree given away is cheaper to prove than one that ends in place.
            drop(refused);
            Err(Starved)
        }
    }
}

/// Takes away the first formula of the last entry. False where there is none.
fn remove_last_first(entries: &mut Vec<StackEntry>) -> bool
    ensures value { result ≡ spec.top_has (reverse entries.old.items) }
    ensures rest { reverse entries.new.items ≡ spec.on_top spec.without_first (reverse entries.old.items) }
{
    let n = entries.len();
    if n == 0 {
        return false;
    }
    entries[n - 1].remove_first()
}

/// Puts a formula in the place of the first one of the last entry. False where there is none.
fn set_last_first(entries: &mut Vec<StackEntry>, f: Formula, since: u64) -> bool
    ensures value { result ≡ spec.top_has (reverse entries.old.items) }
    ensures rest { reverse entries.new.items ≡ spec.on_top (spec.with_first f since) (reverse entries.old.items) }
{
    let n = entries.len();
    if n == 0 {
        drop(f);
        return false;
    }
    entries[n - 1].set_first(f, since)
}

/// Whether the literal names the goal of some entry.
fn any_names(alloc: Global, entries: &[StackEntry], log: &Log, g: &Literal) -> Result<bool, Starved>
    ensures { IfOk result (λ r. r ≡ stacks.has_goal g.now (map (spec.seen log.now) entries.now)) }
{
    for e in entries {
        if e.is_named(alloc, log, g)? {
            return Ok(true);
        }
    }
    Ok(false)
}

/// The first match of a literal with the goal of an entry, which is built. No pairs where there is none.
fn full_match(alloc: Global, g: &Literal, e: &StackEntry, log: &Log) -> Result<Subst, Starved>
    ensures { IfOk result (λ r. r ≡ found.first_found g.now (spec.seen log.now e.now).trigger.lit) }
{
    let t = e.full_trigger(alloc, log)?;
    let found = first_of(alloc, g, &t.lit);
    drop(t);
    match found? {
        None => Ok(no_subst(alloc)),
        Some(s) => Ok(s),
    }
}

/// Whether two substitutions are the same.
fn same_pairs(a: &[Pair], b: &[Pair]) -> bool
    ensures { result ≡ true → a.now ≡ b.now }
{
    if a.len() != b.len() {
        return false;
    }
    for i in 0..a.len() {
        if !same_var(&a[i].var, &b[i].var) || !equal(&a[i].term, &b[i].term) {
            return false;
        }
    }
    true
}

/// Whether the substitutions that are left of two logs are the same.
fn same_later(a: Later<'_>, b: Later<'_>) -> bool
    ensures { result ≡ true → later a.entry ≡ later b.entry }
{
    let mut left = a;
    let mut right = b;
    while let Some((s, more)) = left.split_first() {
        let Some((t, others)) = right.split_first() else {
            return false;
        };
        if !same_pairs(s.pairs(), t.pairs()) {
            return false;
        }
        left = more;
        right = others;
    }
    right.split_first().is_none()
}

impl Stack {
    /// No means, as of an intention that has come to its end. It takes no memory before the first
    /// are put on it.
    pub fn new(alloc: Global) -> Stack
        ensures { result ≡ [] }
    {
        Stack {
            log: Log::new(alloc),
            entries: Vec::new(alloc),
        }
    }

    /// The number of means.
    pub fn len(&self) -> u64
        ensures { result ≡ length self.now }
    {
        self.entries.len() as u64
    }

    /// Puts the means on top, with the substitution put into them and into no others.
    pub fn push(&mut self, m: Means, own: Subst) -> Result<(), Starved>
        ensures ok { OnOk result (self.new ≡ means.applied_means own m ∷ self.old) }
        ensures err { OnErr result (self.new ≡ self.old) }
    {
        let Means { trigger, body } = m;
        let body = Queue::from_seq(body);
        let since = self.log.len();
        let entry = StackEntry {
            trigger,
            own,
            since,
            first: None,
            body,
        };
        put_last(&mut self.entries, entry)
    }

    /// One entry over a log.
    fn alone(alloc: Global, e: StackEntry, log: Log) -> Result<Stack, Starved>
        requires { spec.Since (length log) e }
        ensures { IfOk result (λ r. r ≡ spec.seen log e ∷ []) }
    {
        let mut entries = Vec::new(alloc);
        put_last(&mut entries, e)?;
        Ok(Stack { log, entries })
    }

    /// Puts an entry on top where it stands over the log of this stack. False where it does not; then the stack stays.
    #[tactic(auto, using(crate::proofs::Under::pushed_same, crate::proofs::Under::since_pushed))]
    fn put_same(&mut self, e: StackEntry, log: &Log) -> Result<bool, Starved>
        requires { spec.Since (length log.now) e }
        ensures done { IfOk result (λ r. r ≡ true → self.new ≡ spec.seen log.now e ∷ self.old) }
        ensures stays { IfOk result (λ r. r ≡ false → self.new ≡ self.old) }
    {
        if !same_later(self.log.since(0), log.since(0)) {
            drop(e);
            return Ok(false);
        }
        put_last(&mut self.entries, e)?;
        Ok(true)
    }

    /// The same, but no means stand over any log.
    #[tactic(auto, using(crate::proofs::Under::alone_over, crate::proofs::Under::since_over))]
    fn put_over(&mut self, alloc: Global, e: StackEntry, log: &Log) -> Result<bool, Starved>
        requires { spec.Since (length log.now) e }
        ensures done { IfOk result (λ r. r ≡ true → self.new ≡ spec.seen log.now e ∷ self.old) }
        ensures stays { IfOk result (λ r. r ≡ false → self.new ≡ self.old) }
    {
        if self.len() > 0 {
            return self.put_same(e, log);
        }
        match copy_later(alloc, log.since(0)) {
            Ok(copy) => {
                let made = Stack::alone(alloc, e, copy)?;
                drop(mem::replace(self, made));
                Ok(true)
            }
            Err(starved) => {
                drop(e);
                Err(starved)
            }
        }
    }

    /// Puts means on top for a trigger that is kept in an entry over a log, where these are told without it. False where they are
    /// not, or where that log is not told to be the one of this stack; then the stack stays.
    fn push_under(
        &mut self,
        alloc: Global,
        m: &Means,
        e: &StackEntry,
        log: &Log,
    ) -> Result<bool, Starved>
        requires { e.now.since ≤ length log.now }
        ensures done { let t = (spec.seen log.now e.now).trigger in
            IfOk result (λ r. r ≡ true → PushedBy m.now t self.old self.new) }
        ensures stays { IfOk result (λ r. r ≡ false → self.new ≡ self.old) }
    {
        let found = entry_under(alloc, m, e, log)?;
        match found {
            None => Ok(false),
            Some(entry) => self.put_over(alloc, entry, log),
        }
    }

    /// Puts means on top for an event on this stack whose trigger is not built, with what the arguments of their own trigger are
    /// bound to, where these are variables that stand nowhere else. False where they are not, or where it is not told that the
    /// trigger stands over this stack; then the stack stays.
    pub fn push_kept(&mut self, alloc: Global, t: &EventTrigger, m: &Means) -> Result<bool, Starved>
        ensures done { IfOk result (λ r. r ≡ true → PushedBy m.now t.now self.old self.new) }
        ensures stays { IfOk result (λ r. r ≡ false → self.new ≡ self.old) }
    {
        match t.kept() {
            None => Ok(false),
            Some((e, log)) => {
                if e.since > log.len() {
                    return Ok(false);
                }
                self.push_under(alloc, m, e, log)
            }
        }
    }

    /// Puts means without formulas on top for a trigger that is kept in an entry over a log. False where that log is not told to be
    /// the one of this stack; then the stack stays.
    #[tactic(auto, using(crate::proofs::Under::bare_seen))]
    fn push_bare_under(&mut self, alloc: Global, e: &StackEntry, log: &Log) -> Result<bool, Starved>
        requires { e.now.since ≤ length log.now }
        ensures done { let t = (spec.seen log.now e.now).trigger in
            IfOk result (λ r. r ≡ true → self.new ≡ means.applied_means [] (record { trigger = t; body = [] }) ∷ self.old) }
        ensures stays { IfOk result (λ r. r ≡ false → self.new ≡ self.old) }
    {
        let entry = kept_entry(alloc, e)?;
        self.put_over(alloc, entry, log)
    }

    /// The same for the trigger of an event. False where it is built, too.
    fn push_bare_kept(&mut self, alloc: Global, t: &EventTrigger) -> Result<bool, Starved>
        ensures done { IfOk result (λ r. r ≡ true → self.new ≡ means.applied_means [] (record { trigger = t.now; body = [] }) ∷ self.old) }
        ensures stays { IfOk result (λ r. r ≡ false → self.new ≡ self.old) }
    {
        match t.kept() {
            None => Ok(false),
            Some((e, log)) => {
                if e.since > log.len() {
                    return Ok(false);
                }
                self.push_bare_under(alloc, e, log)
            }
        }
    }

    /// Puts means without formulas on top for the trigger of an event on this stack. It is not built where it is not yet.
    pub fn push_bare(&mut self, alloc: Global, t: EventTrigger) -> Result<(), Starved>
        ensures { OnOk result (self.new ≡ means.applied_means [] (record { trigger = t; body = [] }) ∷ self.old) }
    {
        let done = self.push_bare_kept(alloc, &t)?;
        if done {
            drop(t);
            return Ok(());
        }
        let trigger = t.into_full(alloc)?;
        let body = Seq::new(alloc);
        self.push(Means { trigger, body }, no_subst(alloc))
    }

    /// Takes the top away. False where there is none.
    pub fn pop(&mut self) -> bool
        ensures value { result ≡ stacks.has_means self.old }
        ensures rest { self.new ≡ drop 1 self.old }
    {
        match self.entries.pop() {
            Some(top) => drop(top),
            None => return false,
        }
        if self.entries.len() == 0 {
            self.log.clear();
        }
        true
    }

    /// Puts the substitution into all means.
    pub fn bind(&mut self, s: &Subst) -> Result<(), Starved>
        ensures ok { OnOk result (self.new ≡ stacks.bound s.now self.old) }
        ensures err { OnErr result (self.new ≡ self.old) }
    {
        let next = copy_subst(self.log.alloc(), s)?;
        self.log.push(next)
    }

    /// Puts substitutions into all means, one after another.
    fn bind_later(&mut self, rest: Later<'_>) -> Result<(), Starved>
        ensures { OnOk result (self.new ≡ untouched.bound_each (later rest.entry) self.old) }
    {
        let mut left = rest;
        while let Some((next, more)) = left.split_first() {
            self.bind(next)?;
            left = more;
        }
        Ok(())
    }

    /// Whether substitutions leave all means as they are. It may be false where they do.
    fn is_left(&self, alloc: Global, s: &Subst, rest: Later<'_>) -> Result<bool, Starved>
        requires { IsSubst s.now }
        ensures { IfOk result (λ r. r ≡ true → map (means.put_means (value_in s.now (later rest.entry))) self.now ≡ self.now) }
    {
        if !are_disjoint(&[], self.log.since(0), s.pairs(), rest) {
            return Ok(false);
        }
        leaves_entries(alloc, &self.entries, s, rest)
    }

    /// Whether the arguments of a literal stand apart, and what is still to be put into a goal leaves all means as they are.
    fn stays_under(
        &self,
        alloc: Global,
        g: &Literal,
        e: &StackEntry,
        rest: Later<'_>,
    ) -> Result<bool, Starved>
        ensures { IfOk result (λ r. r ≡ true → untouched.StaysUnder g.now e.now.trigger.lit e.now.own (later rest.entry) self.now) }
    {
        if !stands_apart(g, &e.trigger.lit, e.own.pairs(), rest) {
            return Ok(false);
        }
        self.is_left(alloc, &e.own, rest)
    }

    /// Puts a match as it is kept into all means, and then what is still to be put into it.
    fn bind_raw(&mut self, raw: Subst, own: &Subst, rest: Later<'_>) -> Result<(), Starved>
        ensures { OnOk result (self.new ≡ untouched.bound_each (own.now ∷ later rest.entry) (stacks.bound raw self.old)) }
    {
        let done = self.bind(&raw);
        drop(raw);
        done?;
        self.bind(own)?;
        self.bind_later(rest)
    }

    /// Puts the first match of a literal with a goal that is kept into all means, where it is told without building the goal. False
    /// where it is not; then the stack stays.
    #[tactic(auto, using(crate::proofs::Stays::kept_bound))]
    fn bind_under(
        &mut self,
        alloc: Global,
        g: &Literal,
        e: &StackEntry,
        log: &Log,
    ) -> Result<bool, Starved>
        ensures done { let goal = (spec.seen log.now e.now).trigger.lit in
            IfOk result (λ r. r ≡ true → self.new ≡ stacks.bound (found.first_found g.now goal) self.old) }
        ensures stays { IfOk result (λ r. r ≡ false → self.new ≡ self.old) }
    {
        let rest = log.since(e.since);
        if !self.stays_under(alloc, g, e, rest)? {
            return Ok(false);
        }
        match first_of(alloc, g, &e.trigger.lit)? {
            None => Ok(false),
            Some(raw) => {
                self.bind_raw(raw, &e.own, rest)?;
                Ok(true)
            }
        }
    }

    /// The same of any, which is built where it has to be.
    fn bind_kept(
        &mut self,
        alloc: Global,
        g: &Literal,
        e: &StackEntry,
        log: &Log,
    ) -> Result<(), Starved>
        ensures { OnOk result (self.new ≡ stacks.bound (found.first_found g.now (spec.seen log.now e.now).trigger.lit) self.old) }
    {
        let done = self.bind_under(alloc, g, e, log)?;
        if done {
            return Ok(());
        }
        let s = full_match(alloc, g, e, log)?;
        let bound = self.bind(&s);
        drop(s);
        bound
    }

    /// Puts the first match of a literal with a goal into all means. A goal that is not built stays so where the arguments of the
    /// literal are variables that stand nowhere else and nothing that is bound in it stands in these means. Where it is built and has
    /// more than 1,000,000 nodes or 1,000 levels, the answer is that memory is short.
    pub fn bind_match(&mut self, alloc: Global, m: GoalMatch) -> Result<(), Starved>
        ensures { OnOk result (self.new ≡ stacks.bound m self.old) }
    {
        match m.into_form() {
            MatchForm::Put(s) => {
                let bound = self.bind(&s);
                drop(s);
                bound
            }
            MatchForm::Kept(g, e, log) => {
                let bound = self.bind_kept(alloc, &g, &e, &log);
                drop(g);
                drop(e);
                drop(log);
                bound
            }
        }
    }

    /// Whether the top has a formula left. Nothing is built.
    pub fn has_head(&self) -> bool
        ensures { result ≡ stacks.has_head self.now }
    {
        match from_top(&self.entries, 0) {
            None => false,
            Some(top) => top.has_first(),
        }
    }

    /// Takes away the first formula of the top. False where there is none.
    pub fn remove_head(&mut self) -> bool
        ensures value { result ≡ stacks.has_head self.old }
        ensures rest { self.new ≡ stacks.without_head self.old }
    {
        remove_last_first(&mut self.entries)
    }

    /// Puts a formula in the place of the first one of the top. False where there is none.
    pub fn set_head(&mut self, f: Formula) -> Result<bool, Starved>
        ensures value { IfOk result (λ r. r ≡ stacks.has_head self.old) }
        ensures ok { OnOk result (self.new ≡ stacks.with_head f self.old) }
        ensures err { OnErr result (self.new ≡ self.old) }
    {
        let since = self.log.len();
        Ok(set_last_first(&mut self.entries, f, since))
    }

    /// The first formula of the top. One that passes the limits is not built.
    pub fn head(&self, alloc: Global) -> Result<Option<Formula>, TermFault>
        ensures ok { IfOk result (λ r. (r ≡ stacks.head self.now) × stacks.Bounded r) }
        ensures fault { IfErr result (λ e. Passes (stacks.is_bounded (stacks.head self.now)) e) }
    {
        match from_top(&self.entries, 0) {
            None => Ok(None),
            Some(top) => top.first_formula(alloc, &self.log),
        }
    }

    /// The trigger of the means at a place, that of the top being 0. One that has more than 1,000,000 nodes or 1,000
    /// levels is not built: the answer is that memory is short.
    pub fn trigger(&self, alloc: Global, k: u64) -> Result<Option<Trigger>, Starved>
        ensures value { IfOk result (λ r. r ≡ stacks.trigger_at self.now k) }
        ensures small { IfOk result (λ r. IfSome r stacks.IsBuildable) }
    {
        match from_top(&self.entries, k) {
            None => Ok(None),
            Some(e) => {
                let r = e.full_trigger(alloc, &self.log)?;
                Ok(Some(r))
            }
        }
    }

    /// The same for an event. One that passes the limits of a term is not built.
    pub fn event_trigger(&self, alloc: Global, k: u64) -> Result<Option<EventTrigger>, Starved>
        ensures { IfOk result (λ r. r ≡ stacks.trigger_at self.now k) }
    {
        match from_top(&self.entries, k) {
            None => Ok(None),
            Some(e) => {
                let r = EventTrigger::of_entry(alloc, e, &self.log)?;
                Ok(Some(r))
            }
        }
    }

    /// The trigger of the means at a place, but one that passes the limits of a term is a fault of its own.
    pub fn bounded_trigger(&self, alloc: Global, k: u64) -> Result<Option<Trigger>, TermFault>
        ensures ok { IfOk result (λ r. (r ≡ stacks.trigger_at self.now k) × stacks.BoundedAt r) }
        ensures fault { IfErr result (λ e. Passes (stacks.is_bounded_at (stacks.trigger_at self.now k)) e) }
    {
        match from_top(&self.entries, k) {
            None => Ok(None),
            Some(e) => match e.bounded_trigger(alloc, &self.log) {
                Ok(t) => Ok(Some(t)),
                Err(f) => Err(f),
            },
        }
    }

    /// The trigger of the means at a place as it was pushed: nothing is put into it.
    pub fn pushed_trigger(&self, k: u64) -> Option<&Trigger>
        ensures { MatchOption result (stacks.trigger_at self.now k ≡ None) (λ t. stacks.ComesFrom t.now (stacks.trigger_at self.now k)) }
    {
        match from_top(&self.entries, k) {
            None => None,
            Some(e) => Some(&e.trigger),
        }
    }

    /// Whether a literal matches that of the means at a place, with more annotations behind its own. It is not built where
    /// it passes the limits of a term.
    pub fn is_matched(
        &self,
        alloc: Global,
        k: u64,
        g: &Literal,
        more: &[Term],
    ) -> Result<bool, Starved>
        ensures { IfOk result (λ r. r ≡ stacks.matched_at g.now more.now (stacks.trigger_at self.now k)) }
    {
        match from_top(&self.entries, k) {
            None => Ok(false),
            Some(e) => e.is_matched(alloc, &self.log, g, more),
        }
    }

    /// Whether the literal names the goal of the means at a place.
    pub fn is_named(&self, alloc: Global, k: u64, g: &Literal) -> Result<bool, Starved>
        ensures { IfOk result (λ r. r ≡ stacks.names_at g.now (stacks.trigger_at self.now k)) }
    {
        match from_top(&self.entries, k) {
            None => Ok(false),
            Some(e) => e.is_named(alloc, &self.log, g),
        }
    }

    /// The first match of the literal with the goal of the means at a place.
    pub fn goal_match(
        &self,
        alloc: Global,
        k: u64,
        g: &Literal,
    ) -> Result<Option<GoalMatch>, Starved>
        ensures { IfOk result (λ r. r ≡ stacks.match_at g.now (stacks.trigger_at self.now k)) }
    {
        match from_top(&self.entries, k) {
            None => Ok(None),
            Some(e) => entry_match(alloc, e, &self.log, g),
        }
    }

    /// Whether the literal names the goal of some means. No trigger that passes the limits of a term is built.
    pub fn has_goal(&self, alloc: Global, g: &Literal) -> Result<bool, Starved>
        ensures { IfOk result (λ r. r ≡ stacks.has_goal g.now self.now) }
    {
        any_names(alloc, &self.entries, &self.log, g)
    }

    /// How many formulas are left of the means at a place, that of the top being 0.
    pub fn left(&self, k: u64) -> u64
        ensures { result ≡ length (bodies.body_at self.now k) }
    {
        match from_top(&self.entries, k) {
            None => 0,
            Some(e) => e.left(&self.log),
        }
    }

    /// The formula at a place of the means at a place. One that passes the limits is not built.
    pub fn formula_at(&self, alloc: Global, k: u64, j: u64) -> Result<Option<Formula>, TermFault>
        ensures ok { IfOk result (λ r. (r ≡ bodies.formula_at self.now k j) × stacks.Bounded r) }
        ensures fault { IfErr result (λ e. Passes (stacks.is_bounded (bodies.formula_at self.now k j)) e) }
    {
        match from_top(&self.entries, k) {
            None => Ok(None),
            Some(e) => e.formula_at(alloc, &self.log, j),
        }
    }
}
