//! Tables of acts and their facts.

ghost use Rattle.std.specs.Prelude.{◌≡◌, ◌++◌, true, if◌then◌else◌, Some, None, IfOk, IfSome, OnOk, OnErr};
ghost use Rattle.mas_world.specs.Acts as acts;
ghost use Rattle.mas_world.specs.Facts.{AreFacts, ArePlain};
ghost use Rattle.mas_world.specs.Worlds as spec;

use crate::acts::{Act, Acts};
use crate::facts::{Deed, carry_out};
use crate::table::decided;
use asl_term::copying::copy_literal;
use asl_term::names::Names;
use asl_term::sequence::{Seq, Starved};
use asl_term::syntax::{Literal, Literals, Text};
use mas_mind::mind::Feedback;
use std::alloc::Global;
use std::marker::Model;

/// A table of acts, and the facts as they are: without variables and operations, no two of them the same.
pub struct Segment {
    acts: Acts,
    facts: Literals,
}

/// By hand, so that a crate above that lets one go proves nothing of its parts.
impl Drop for Segment {
    fn drop(self) {
        let Segment { acts: _, facts: _ } = self;
    }
}

impl Model for Segment {
    ghost use Rattle.mas_world.specs.Worlds as spec;
    ghost use Rattle.mas_world.specs.Facts.{AreFacts};
    ghost use Rattle.asl_term.specs.contracts.syntax.Term as t;
    ghost use Rattle.asl_term.specs.contracts.syntax.Expr as e;
    ghost use Rattle.std.specs.Coded.{codes};

    ghost Value = { spec.Segment };

    ghost coded = { Prim.hlevel (codes, t.the_row.coded, e.the_row.coded) };

    ghost view = { λ s. spec.segment s.acts s.facts };

    ghost invariant = { λ s. AreFacts s.facts };
}

impl Segment {
    /// A table with the facts at its opening.
    pub fn new(acts: Acts, facts: Literals) -> Segment
        requires { AreFacts facts }
        ensures { result ≡ spec.segment acts facts }
    {
        Segment { acts, facts }
    }

    /// What the act that decides does, where one acts.
    pub fn decided(
        &self,
        alloc: Global,
        agent: &Text,
        action: &Literal,
    ) -> Result<Option<Deed>, Starved>
        ensures value { IfOk result (λ d. d ≡ acts.decided self.now.facts self.now.acts agent.now action.now) }
        ensures plain { IfOk result (λ d. IfSome d (λ x. ArePlain x.adds)) }
    {
        decided(
            alloc,
            self.facts.as_slice(),
            self.acts.as_slice(),
            agent,
            action,
        )
    }

    /// The facts become what they are after the deed, and the names of the artifacts that it drops come out; where memory is wanting the facts stay.
    pub fn carry_out(&mut self, alloc: Global, deed: Deed) -> Result<Seq<Text>, Starved>
        requires { ArePlain deed.adds }
        ensures ok { OnOk result (self.new ≡ spec.segment self.old.acts (acts.done deed self.old.facts)) }
        ensures drops { IfOk result (λ names. names ≡ deed.drops) }
        ensures err { OnErr result (self.new ≡ self.old) }
    {
        carry_out(alloc, &mut self.facts, deed)
    }

    /// Acts where the table does, and changes nothing where it does not.
    pub fn act(
        &mut self,
        alloc: Global,
        agent: &Text,
        action: &Literal,
    ) -> Result<Feedback, Starved>
        ensures acted { IfOk result (λ f. (f, self.new) ≡ spec.segment_acted self.old agent.now action.now) }
        ensures refused { OnErr result (self.new ≡ self.old) }
    {
        let Some(deed) = self.decided(alloc, agent, action)? else {
            return Ok(Feedback::Failed);
        };
        let names = self.carry_out(alloc, deed)?;
        drop(names);
        Ok(Feedback::Done)
    }

    /// Its facts, in order.
    pub fn facts(&self) -> &[Literal]
        ensures value { result.now ≡ self.now.facts }
        ensures sound { AreFacts self.now.facts }
    {
        self.facts.as_slice()
    }

    /// Puts the facts last, all of them or none.
    pub fn observe(&self, out: &mut Literals) -> Result<(), Starved>
        ensures ok { OnOk result (out.new ≡ out.old ++ self.now.facts) }
        ensures sound { AreFacts self.now.facts }
        ensures refused { OnErr result (out.new ≡ out.old) }
    {
        let alloc = out.alloc();
        let mut copies = Seq::new(alloc);
        for f in self.facts() {
            copies.push(copy_literal(alloc, f)?)?;
        }
        out.append_all(copies)
    }
}

#[tactic(auto, using(crate::proofs::Naming::none_there))]
fn is_empty(names: &Names) -> bool
    ensures { result ≡ spec.is_empty names.now }
{
    names.len() == 0
}

/// Whether no act drops an artifact.
fn drop_nothing(acts: &[Act]) -> bool
    ensures { result ≡ spec.drop_nothing acts.now }
{
    for a in acts {
        if !is_empty(&a.drops) {
            return false;
        }
    }
    true
}

/// The segment of an artifact: no act of its table drops an artifact.
pub struct OwnSegment {
    segment: Segment,
}

/// By hand, so that a crate above that lets one go proves nothing of its parts.
impl Drop for OwnSegment {
    fn drop(self) {
        let OwnSegment { segment: _ } = self;
    }
}

impl Model for OwnSegment {
    ghost use Rattle.std.specs.Prelude.{◌≡◌, true};
    ghost use Rattle.mas_world.specs.Worlds as spec;
    ghost use Rattle.asl_term.specs.contracts.syntax.Term as t;
    ghost use Rattle.asl_term.specs.contracts.syntax.Expr as e;
    ghost use Rattle.std.specs.Coded.{codes};

    ghost Value = { spec.Segment };

    ghost coded = { Prim.hlevel (codes, t.the_row.coded, e.the_row.coded) };

    ghost view = { λ s. s.segment };

    ghost invariant = { λ s. spec.drop_nothing s.segment.acts ≡ true };
}

impl OwnSegment {
    /// A table with the facts at its opening, unless an act of it drops an artifact.
    pub fn new(acts: Acts, facts: Literals) -> Option<OwnSegment>
        requires { AreFacts facts }
        ensures { result ≡ if spec.drop_nothing acts then Some (spec.segment acts facts) else None }
    {
        if drop_nothing(acts.as_slice()) {
            Some(OwnSegment {
                segment: Segment::new(acts, facts),
            })
        } else {
            drop(acts);
            drop(facts);
            None
        }
    }

    /// Acts where the table does, and changes nothing where it does not.
    pub fn act(
        &mut self,
        alloc: Global,
        agent: &Text,
        action: &Literal,
    ) -> Result<Feedback, Starved>
        ensures acted { IfOk result (λ f. (f, self.new) ≡ spec.segment_acted self.old agent.now action.now) }
        ensures refused { OnErr result (self.new ≡ self.old) }
    {
        self.segment.act(alloc, agent, action)
    }

    /// Puts the facts last, all of them or none.
    pub fn observe(&self, out: &mut Literals) -> Result<(), Starved>
        ensures ok { OnOk result (out.new ≡ out.old ++ self.now.facts) }
        ensures sound { AreFacts self.now.facts }
        ensures keeps { spec.drop_nothing self.now.acts ≡ true }
        ensures refused { OnErr result (out.new ≡ out.old) }
    {
        self.segment.observe(out)
    }
}
