//! Objects that stand for a segment of the world.

ghost use Rattle.std.specs.Prelude.{◌≡◌, ◌++◌, List, ℕ, IfOk, OnOk, OnErr, true};
ghost use Rattle.std.specs.Str.{bytes_eq};
ghost use Rattle.asl_term.specs.declared.syntax.LiteralOf.{LiteralOf};
ghost use Rattle.asl_term.specs.declared.syntax.Term.{Term};
ghost use Rattle.asl_term.specs.Exprs.{is_ground_literal};
ghost use Rattle.mas_world.specs.declared.acts.Act.{Act};
ghost use Rattle.mas_world.specs.Facts.{AreFacts};
ghost use Rattle.mas_world.specs.Worlds as spec;

use asl_term::compare::same_text;
use asl_term::sequence::Starved;
use asl_term::syntax::{Literal, Literals, Text};
use mas_mind::mind::Feedback;
use std::alloc::Global;
use std::marker::Model;

/// What an artifact is: a name and a table of acts, which never change, and a list of facts.
pub trait Artifact: Drop {
    /// Its name.
    ghost named: { Self → List ℕ };

    /// Its acts, which are tried in their order. None drops an artifact.
    ghost table: { Self → List Act };

    /// Its facts as they are.
    ghost facts: { Self → List (LiteralOf Term) };

    /// The name by which a world uses it.
    fn name(&self) -> &Text
        ensures { result.now ≡ named self.now };

    /// Puts its facts last, all of them or none. They have no variables and no operations, and no two of them are the same.
    fn observe(&self, out: &mut Literals) -> Result<(), Starved>
        ensures ok { OnOk result (out.new ≡ out.old ++ facts self.now) }
        ensures sound { OnOk result (AreFacts (facts self.now)) }
        ensures keeps { spec.drop_nothing (table self.now) ≡ true }
        ensures refused { OnErr result (out.new ≡ out.old) };

    /// Acts where its table does, and changes nothing where it does not, nor where memory is wanting.
    fn operate(
        &mut self,
        alloc: Global,
        agent: &Text,
        action: &Literal,
    ) -> Result<Feedback, Starved>
        requires { is_ground_literal action.now ≡ true }
        ensures name { named self.new ≡ named self.old }
        ensures table { table self.new ≡ table self.old }
        ensures acted { IfOk result (λ f. (f, spec.segment (table self.new) (facts self.new))
            ≡ spec.segment_acted (spec.segment (table self.old) (facts self.old)) agent.now action.now) }
        ensures refused { OnErr result (facts self.new ≡ facts self.old) };
}

/// An artifact in a box, of whatever type, which a caller hands in.
impl Artifact for Box<dyn Artifact + Send> {
    ghost named = { λ b. (Artifact-box b).named b.value };

    ghost table = { λ b. (Artifact-box b).table b.value };

    ghost facts = { λ b. (Artifact-box b).facts b.value };

    fn name(&self) -> &Text {
        (**self).name()
    }

    fn observe(&self, out: &mut Literals) -> Result<(), Starved> {
        (**self).observe(out)
    }

    fn operate(
        &mut self,
        alloc: Global,
        agent: &Text,
        action: &Literal,
    ) -> Result<Feedback, Starved> {
        (**self).operate(alloc, agent, action)
    }
}

/// An artifact that contracts see as its name and its segment.
#[derive(Drop)]
pub struct HeldArtifact<A: Artifact> {
    artifact: A,
}

impl<A: Artifact> Model for HeldArtifact<A> {
    ghost use Rattle.mas_world.specs.Worlds.{Used, used};
    ghost use Rattle.asl_term.specs.contracts.syntax.Term as t;
    ghost use Rattle.asl_term.specs.contracts.syntax.Expr as e;
    ghost use Rattle.std.specs.Coded.{codes};

    ghost Value = { Used };

    ghost coded = { Prim.hlevel (codes, t.the_row.coded, e.the_row.coded) };

    ghost view = { λ k. used (A.named k.artifact) (A.table k.artifact) (A.facts k.artifact) };
}

impl<A: Artifact> HeldArtifact<A> {
    /// The artifact as a name and a segment.
    pub fn new(artifact: A) -> HeldArtifact<A>
        ensures { result ≡ spec.used (A.named artifact) (A.table artifact) (A.facts artifact) }
    {
        HeldArtifact { artifact }
    }

    /// Whether this is its name.
    pub fn has_name(&self, name: &Text) -> bool
        ensures { result ≡ bytes_eq self.now.name name.now }
    {
        same_text(self.artifact.name(), name)
    }

    /// Puts its facts last, all of them or none.
    pub fn observe(&self, out: &mut Literals) -> Result<(), Starved>
        ensures ok { OnOk result (out.new ≡ out.old ++ self.now.segment.facts) }
        ensures sound { OnOk result (AreFacts self.now.segment.facts) }
        ensures refused { OnErr result (out.new ≡ out.old) }
    {
        self.artifact.observe(out)
    }

    /// Acts where its table does. Where it does not, and where memory is wanting, nothing changes.
    pub fn operate(
        &mut self,
        alloc: Global,
        agent: &Text,
        action: &Literal,
    ) -> Result<Feedback, Starved>
        requires { is_ground_literal action.now ≡ true }
        ensures name { self.new.name ≡ self.old.name }
        ensures acted { IfOk result (λ f. (f, self.new.segment) ≡ spec.segment_acted self.old.segment agent.now action.now) }
        ensures refused { OnErr result (self.new ≡ self.old) }
    {
        self.artifact.operate(alloc, agent, action)
    }
}
