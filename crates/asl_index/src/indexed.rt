//! The belief base that finds beliefs and rules by sign, functor and number of arguments.

ghost use Rattle.std.specs.Prelude.{◌≡◌, ◌++◌, true, refl, IfOk, OnOk};
ghost use Rattle.asl_beliefs.specs.Bases.{AreBeliefs, all_ground, facts_of, opening, opening_base};

use crate::adding::add_to;
use crate::finding::{
    body_of, count_of, head_pairs_of, head_portion_of, heads_of, is_rule_at, next_of,
};
use crate::listed::copy_kept;
use crate::rules::file_rules;
use crate::store::Store;
use crate::taking::{abolish_from, remove_from};
use crate::updating::{add_initial, are_known, replace_in, update_in};
use asl_beliefs::base::BeliefBase;
use asl_beliefs::clauses::{are_ground, copy_clauses};
use asl_beliefs::removed::{BeliefFault, Removed};
use asl_beliefs::updating::as_percepts;
use asl_index_tables::frames::Frames;
use asl_term::measure::ground_literal;
use asl_term::sequence::{Seq, Starved};
use asl_term::syntax::{AgentText, Clause, Clauses, Expr, Literal, Literals, Trigger, Triggers};
use asl_unify::cursors::Portion;
use asl_unify::facts::Facts;
use asl_unify::matching::Substs;
use asl_unify::subst::{PairLists, Subst};
use std::alloc::Global;
use std::marker::Model;

/// Beliefs in the order in which they were added, and rules in that of the source, both found by sign, functor and
/// number of arguments.
pub struct Indexed {
    store: Store,
    rules: Clauses,
    frames: Frames,
}

/// By hand, so that a crate above that lets one go proves nothing of its parts.
impl Drop for Indexed {
    fn drop(self) {
        let Indexed {
            store: _,
            rules: _,
            frames: _,
        } = self;
    }
}

impl Model for Indexed {
    ghost use Rattle.asl_beliefs.specs.Bases.{Base, AreBeliefs};
    ghost use Rattle.asl_term.specs.contracts.syntax.Term as term;
    ghost use Rattle.asl_term.specs.contracts.syntax.Expr as expr;
    ghost use Rattle.asl_index_tables.specs.Slots.{kept};
    ghost use Rattle.asl_index.specs.Rules.{AreFiledRules};
    ghost use Rattle.std.specs.Coded.{codes};

    ghost Value = { Base };

    ghost coded = { Prim.hlevel (codes, term.the_row.coded, expr.the_row.coded) };

    ghost view = { λ b. record { beliefs = kept b.store; rules = b.rules } };

    ghost invariant = { λ b. AreBeliefs (kept b.store) × AreFiledRules b.rules b.frames };
}

impl Indexed {
    /// The initial beliefs, each with default source and added one after another, and the rules. The events of the
    /// adds go last into `events`. After want of memory no more is known of these.
    pub fn open(alloc: Global, text: &AgentText, events: &mut Triggers) -> Result<Indexed, Starved>
        requires { all_ground text.now.beliefs ≡ true }
        ensures base { IfOk result (λ b. b ≡ opening_base text.now) }
        ensures events { OnOk result (events.new ≡ events.old ++ (opening text.now).events) }
        ensures sound { IfOk result (λ b. AreBeliefs b.beliefs) }
    {
        let rules = copy_clauses(alloc, text.rules.as_slice())?;
        let frames = file_rules(alloc, rules.as_slice())?;
        let store = add_initial(alloc, text.beliefs.as_slice(), events)?;
        Ok(Indexed {
            store,
            rules,
            frames,
        })
    }

    /// Equal beliefs, in order.
    pub fn copy_beliefs(&self, alloc: Global) -> Result<Literals, Starved>
        ensures { IfOk result (λ r. r ≡ self.now.beliefs) }
    {
        copy_kept(alloc, &self.store)
    }

    /// The rules, in the order of the source.
    pub fn all_rules(&self) -> &[Clause]
        ensures { result.now ≡ self.now.rules }
    {
        self.rules.as_slice()
    }

    /// What holds of every belief base of this kind.
    pub fn law(&self)
        ensures { AreBeliefs self.now.beliefs }
    {
        self.store.len();
    }
}

impl Facts for Indexed {
    ghost clauses = { λ b. facts_of b.beliefs b.rules };

    fn count(&self, g: &Literal) -> u64 {
        count_of(&self.store, &self.rules, &self.frames, g)
    }

    fn next(&self, g: &Literal, k: u64) -> u64 {
        next_of(&self.store, &self.rules, g, k)
    }

    fn heads(
        &self,
        alloc: Global,
        g: &Literal,
        k: u64,
        number: u64,
        s: &Subst,
    ) -> Result<Substs, Starved> {
        heads_of(
            alloc,
            &self.store,
            &self.rules,
            &self.frames,
            g,
            k,
            number,
            s,
        )
    }

    fn head_pairs(
        &self,
        alloc: Global,
        g: &Literal,
        k: u64,
        number: u64,
        s: &Subst,
    ) -> Result<PairLists, Starved> {
        head_pairs_of(
            alloc,
            &self.store,
            &self.rules,
            &self.frames,
            g,
            k,
            number,
            s,
        )
    }

    fn head_portion(
        &self,
        alloc: Global,
        g: &Literal,
        k: u64,
        number: u64,
        s: &Subst,
        at: &[u64],
    ) -> Result<Portion, Starved> {
        head_portion_of(
            alloc,
            &self.store,
            &self.rules,
            &self.frames,
            g,
            k,
            number,
            s,
            at,
        )
    }

    fn body(&self, alloc: Global, g: &Literal, k: u64, number: u64) -> Result<Expr, Starved> {
        body_of(alloc, &self.store, &self.rules, &self.frames, g, k, number)
    }

    fn is_rule(&self, g: &Literal, k: u64) -> bool {
        is_rule_at(&self.store, &self.rules, g, k)
    }
}

impl BeliefBase for Indexed {
    ghost beliefs = { λ b. b.beliefs };

    ghost rules = { λ b. b.rules };

    fn add(&mut self, alloc: Global, b: &Literal) -> Result<Option<Trigger>, BeliefFault> {
        let own = &mut self.store;
        if !ground_literal(b) {
            return Err(BeliefFault::NotGround);
        }
        match add_to(alloc, own, b) {
            Ok(event) => Ok(event),
            Err(_) => Err(BeliefFault::Memory),
        }
    }

    fn remove(
        &mut self,
        alloc: Global,
        p: &Literal,
        s: &Subst,
    ) -> Result<Option<Removed>, Starved> {
        let own = &mut self.store;
        let removed = remove_from(alloc, own, p, s)?;
        own.tidy(alloc);
        Ok(removed)
    }

    fn replace(&mut self, alloc: Global, b: &Literal) -> Result<Triggers, BeliefFault> {
        let own = &mut self.store;
        if !ground_literal(b) {
            return Err(BeliefFault::NotGround);
        }
        match replace_in(alloc, own, b) {
            Ok(events) => {
                own.tidy(alloc);
                Ok(events)
            }
            Err(_) => Err(BeliefFault::Memory),
        }
    }

    fn abolish(&mut self, alloc: Global, p: &Literal) -> Result<Triggers, Starved> {
        let own = &mut self.store;
        let events = abolish_from(alloc, own, p)?;
        own.tidy(alloc);
        Ok(events)
    }

    fn update_percepts(
        &mut self,
        alloc: Global,
        percepts: &Literals,
    ) -> Result<Triggers, BeliefFault> {
        let own = &mut self.store;
        match are_known(alloc, own, percepts.as_slice()) {
            Ok(known) => {
                if known {
                    return Ok(Seq::new(alloc));
                }
            }
            Err(_) => return Err(BeliefFault::Memory),
        }
        let Ok(marked) = as_percepts(alloc, percepts.as_slice()) else {
            return Err(BeliefFault::Memory);
        };
        if !are_ground(marked.as_slice()) {
            return Err(BeliefFault::NotGround);
        }
        match update_in(alloc, own, percepts.as_slice(), marked.as_slice()) {
            Ok(events) => {
                own.tidy(alloc);
                Ok(events)
            }
            Err(_) => Err(BeliefFault::Memory),
        }
    }

    ghost parts = { λ x. refl };
}
