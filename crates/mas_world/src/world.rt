//! The world of a file's segment and of artifacts.

ghost use Rattle.std.specs.Prelude.{◌≡◌, ◌++◌, ◌∷◌, [], IfOk, OnOk, OnErr, position, true};
ghost use Rattle.std.specs.List.{AllByRecursion, list_any};
ghost use Rattle.std.specs.Str.{bytes_eq};
ghost use Rattle.asl_term.specs.Exprs.{is_ground_literal};
ghost use Rattle.mas_mind.specs.declared.mind.Feedback.TheVariants.{Failed};
ghost use Rattle.mas_world.specs.Facts.{AreFacts};
ghost use Rattle.mas_world.specs.Seen as seen;
ghost use Rattle.mas_world.specs.inner.Artifacts.{without_named};
ghost use Rattle.mas_world.specs.Worlds as spec;

use crate::artifact::{Artifact, HeldArtifact};
use crate::segment::Segment;
use crate::shown::{first_seen, see_all};
use asl_term::names::Names;
use asl_term::sequence::{Seq, Starved};
use asl_term::syntax::{Literal, Literals, Text};
use mas_mind::mind::Feedback;
use std::alloc::Global;
use std::marker::Model;

/// The artifacts that a world uses, in their order.
pub struct Artifacts<A: Artifact> {
    kept: Vec<HeldArtifact<A>>,
}

/// By hand, so that a crate above that lets one go proves nothing of its parts.
impl<A: Artifact> Drop for Artifacts<A> {
    fn drop(self) {
        let Artifacts { kept: _ } = self;
    }
}

impl<A: Artifact> Model for Artifacts<A> {
    ghost use Rattle.std.specs.Prelude.{List};
    ghost use Rattle.mas_world.specs.Worlds.{Used};
    ghost use Rattle.asl_term.specs.contracts.syntax.Term as t;
    ghost use Rattle.asl_term.specs.contracts.syntax.Expr as e;
    ghost use Rattle.std.specs.Coded.{codes};

    ghost Value = { List Used };

    ghost coded = { Prim.hlevel (codes, t.the_row.coded, e.the_row.coded) };

    ghost view = { λ a. a.kept.items };
}

/// The first that acts decides.
fn act_on<A: Artifact>(
    alloc: Global,
    all: &mut [HeldArtifact<A>],
    agent: &Text,
    action: &Literal,
) -> Result<Feedback, Starved>
    requires { is_ground_literal action.now ≡ true }
    ensures acted { IfOk result (λ f. (f, all.new) ≡ spec.used_acted all.old agent.now action.now) }
    ensures refused { OnErr result (all.new ≡ all.old) }
{
    let Some((first, rest)) = all.split_first_mut() else {
        return Ok(Feedback::Failed);
    };
    match first.operate(alloc, agent, action)? {
        Feedback::Done => Ok(Feedback::Done),
        Feedback::Failed => act_on(alloc, rest, agent, action),
    }
}

/// The place of the first of this name.
fn find_name<A: Artifact>(kept: &[HeldArtifact<A>], name: &Text) -> Option<usize>
    ensures { result ≡ position (λ u. bytes_eq u.name name.now) kept.now }
{
    kept.iter().position(|a| a.has_name(name))
}

impl<A: Artifact> Artifacts<A> {
    /// None.
    pub fn new(alloc: Global) -> Artifacts<A>
        ensures { result ≡ [] }
    {
        Artifacts {
            kept: Vec::new(alloc),
        }
    }

    /// Puts an artifact last.
    pub fn push(&mut self, artifact: HeldArtifact<A>) -> Result<(), Starved>
        ensures ok { OnOk result (self.new ≡ self.old ++ artifact ∷ []) }
        ensures err { OnErr result (self.new ≡ self.old) }
    {
        match self.kept.push(artifact) {
            Ok(()) => Ok(()),
            Err(_) => Err(Starved),
        }
    }

    /// The first of this name, which goes.
    #[tactic(auto, using(crate::proofs::Uses::none_named, crate::proofs::Uses::none_gone))]
    pub fn take_first(&mut self, name: &Text) -> Option<HeldArtifact<A>>
        ensures value { result ≡ spec.named self.old name.now }
        ensures rest { self.new ≡ without_named self.old name.now }
    {
        match find_name(self.kept.as_slice(), name) {
            None => None,
            Some(k) => Some(self.kept.remove(k)),
        }
    }

    /// Drops that of this name, and tells whether there was one.
    fn dispose(&mut self, name: &Text) -> bool
        ensures there { result ≡ list_any (spec.is_named name.now) self.old }
        ensures rest { self.new ≡ spec.without_artifact name.now self.old }
    {
        let there = self.kept.iter().any(|a| a.has_name(name));
        self.kept.retain(|a| !a.has_name(name));
        there
    }

    /// Drops those of these names.
    fn drop_all(&mut self, names: &[Text])
        ensures { self.new ≡ spec.dropped names.now self.old }
    {
        for name in names {
            self.dispose(name);
        }
    }

    fn act(&mut self, alloc: Global, agent: &Text, action: &Literal) -> Result<Feedback, Starved>
        requires { is_ground_literal action.now ≡ true }
        ensures acted { IfOk result (λ f. (f, self.new) ≡ spec.used_acted self.old agent.now action.now) }
        ensures refused { OnErr result (self.new ≡ self.old) }
    {
        act_on(alloc, &mut self.kept, agent, action)
    }

    fn observe(&self, out: &mut Literals) -> Result<(), Starved>
        ensures ok { OnOk result (out.new ≡ out.old ++ spec.used_facts self.now) }
        ensures sound { OnOk result (AllByRecursion (λ u. AreFacts u.segment.facts) self.now) }
    {
        for k in &self.kept {
            k.observe(out)?;
        }
        Ok(())
    }
}

/// The file's segment, the hidden functors, and the artifacts.
pub struct World<A: Artifact> {
    file: Segment,
    hidden: Names,
    used: Artifacts<A>,
}

/// By hand, so that a crate above that lets one go proves nothing of its parts.
impl<A: Artifact> Drop for World<A> {
    fn drop(self) {
        let World {
            file: _,
            hidden: _,
            used: _,
        } = self;
    }
}

impl<A: Artifact> Model for World<A> {
    ghost use Rattle.mas_world.specs.Worlds as spec;
    ghost use Rattle.asl_term.specs.contracts.syntax.Term as t;
    ghost use Rattle.asl_term.specs.contracts.syntax.Expr as e;
    ghost use Rattle.std.specs.Coded.{codes};

    ghost Value = { spec.World };

    ghost coded = { Prim.hlevel (codes, t.the_row.coded, e.the_row.coded) };

    ghost view = { λ w. spec.world w.file w.hidden w.used };
}

impl<A: Artifact> World<A> {
    /// A world of these parts.
    pub fn of(file: Segment, hidden: Names, used: Artifacts<A>) -> World<A>
        ensures { result ≡ spec.world file hidden used }
    {
        World { file, hidden, used }
    }

    /// The first segment that acts decides.
    fn decide(&mut self, alloc: Global, agent: &Text, action: &Literal) -> Result<Feedback, Starved>
        requires { is_ground_literal action.now ≡ true }
        ensures acted { IfOk result (λ f. (f, self.new) ≡ spec.acted self.old agent.now action.now) }
        ensures refused { OnErr result (self.new ≡ self.old) }
    {
        let Some(deed) = self.file.decided(alloc, agent, action)? else {
            return self.used.act(alloc, agent, action);
        };
        let names = self.file.carry_out(alloc, deed)?;
        self.used.drop_all(names.as_slice());
        drop(names);
        Ok(Feedback::Done)
    }

    /// Drops the artifact of this name with its facts, and tells whether one is used under it. It takes no memory.
    pub fn dispose(&mut self, name: &Text) -> bool
        ensures there { result ≡ spec.is_used self.old name.now }
        ensures gone { self.new ≡ spec.disposed self.old name.now }
    {
        self.used.dispose(name)
    }

    /// The file's acts first, then those of each artifact in order. An act of the file drops artifacts after its other
    /// effects. Where none acts, and where memory is wanting, nothing changes.
    pub fn act(
        &mut self,
        alloc: Global,
        agent: &Text,
        action: &Literal,
    ) -> Result<Feedback, Starved>
        requires { is_ground_literal action.now ≡ true }
        ensures acted { IfOk result (λ f. (f, self.new) ≡ spec.acted self.old agent.now action.now) }
        ensures failed { IfOk result (λ f. f ≡ Failed → self.new ≡ self.old) }
        ensures refused { OnErr result (self.new ≡ self.old) }
    {
        self.decide(alloc, agent, action)
    }

    /// The facts of all segments, in order, hidden ones too.
    pub fn facts(&self, alloc: Global) -> Result<Literals, Starved>
        ensures ok { IfOk result (λ r. r ≡ spec.facts self.now) }
        ensures sound { OnOk result (spec.HasFacts self.now) }
    {
        let mut out = Seq::new(alloc);
        self.file.observe(&mut out)?;
        self.used.observe(&mut out)?;
        Ok(out)
    }

    /// What an agent perceives: without variables and operations, each literal once.
    pub fn percepts(&self, alloc: Global, agent: &Text) -> Result<Literals, Starved>
        ensures ok { IfOk result (λ r. r ≡ seen.seen self.now agent.now) }
        ensures sound { IfOk result AreFacts }
    {
        let mut seen = first_seen(alloc, &self.hidden, agent, self.file.facts())?;
        let mut others = Seq::new(alloc);
        self.used.observe(&mut others)?;
        see_all(alloc, &self.hidden, agent, others.as_slice(), &mut seen)?;
        Ok(seen)
    }
}
