//! The start of all runs of a source.

ghost use Rattle.std.specs.Prelude.{◌≡◌, false, IfOk};
ghost use Rattle.asl_cycle.specs.Trace.{shows_rules};
ghost use Rattle.mas_report.specs.Limits.{IsWithin};
ghost use Rattle.mas_top_opening.specs.Fits.{CanRun};
ghost use Rattle.mas_top_opening.specs.Opening.{setup};
ghost use Rattle.mas_explore_files.specs.Starts as spec;

use crate::agents::{fresh_agent, text_at};
use crate::kinds::Kinds;
use crate::worlds::fresh_world;
use asl_exec_circumstance::shared::SharedNames;
use asl_term::names::Names;
use asl_term::sequence::Starved;
use mas_explore::origin::Origin;
use mas_explore_agent::agent::SteadyAgent;
use mas_report::options::Options;
use mas_top_files::sources::Source;
use mas_world::artifact::Artifact;
use mas_world::world::World;
use std::alloc::Global;
use std::marker::{Model, PhantomData};

/// A source, with the options of its runs and the artifacts that its world may use. Contracts see what its runs begin with.
pub struct SourceOrigin<A: Artifact, K: Kinds<A>> {
    source: Source,
    shared: SharedNames,
    options: Options,
    kinds: K,
    artifacts: PhantomData<A>,
}

/// By hand, so that a crate above that lets one go proves nothing of its parts.
impl<A: Artifact, K: Kinds<A>> Drop for SourceOrigin<A, K> {
    fn drop(self) {
        let SourceOrigin {
            source: _,
            shared: _,
            options: _,
            kinds: _,
            artifacts: _,
        } = self;
    }
}

impl<A: Artifact, K: Kinds<A>> Model for SourceOrigin<A, K> {
    ghost use Rattle.asl_cycle.specs.Agent.{Mindset};
    ghost use Rattle.mas_free.specs.Covers.{Start};
    ghost use Rattle.mas_top_opening.specs.Opening.{setup};
    ghost use Rattle.mas_explore_files.specs.Starts as spec;
    ghost use Rattle.asl_term.specs.contracts.syntax.Term as t;
    ghost use Rattle.asl_term.specs.contracts.syntax.Expr as e;
    ghost use Rattle.std.specs.Coded.{codes};

    ghost Value = { Start Mindset };

    ghost coded = { Prim.hlevel (codes, t.the_row.coded, e.the_row.coded) };

    ghost view = { λ o. spec.start_of (setup o.options (K.objects o.kinds)) o.source };

    ghost invariant = { λ o. spec.IsReady (setup o.options (K.objects o.kinds)) o.source o.shared };
}

impl<A: Artifact, K: Kinds<A>> SourceOrigin<A, K> {
    /// The start of the runs of a source.
    pub fn of(
        alloc: Global,
        options: Options,
        source: Source,
        kinds: K,
    ) -> Result<SourceOrigin<A, K>, Starved>
        requires can { CanRun (K.objects kinds) source }
        requires within { IsWithin options }
        requires plain { shows_rules options.level ≡ false }
        ensures { IfOk result (λ r. r ≡ spec.start_of (setup options (K.objects kinds)) source) }
    {
        match SharedNames::copy_of(alloc, &source.names) {
            Ok(shared) => Ok(SourceOrigin {
                source,
                shared,
                options,
                kinds,
                artifacts: PhantomData,
            }),
            Err(starved) => {
                drop(source);
                drop(kinds);
                Err(starved)
            }
        }
    }
}

impl<A: Artifact, K: Kinds<A>> Origin<SteadyAgent, A> for SourceOrigin<A, K> {
    ghost start = { λ o. o };

    fn names(&self) -> &Names {
        &self.source.names
    }

    fn world(&self, alloc: Global) -> Result<World<A>, Starved> {
        let artifacts = self.kinds.make(alloc)?;
        fresh_world(alloc, self.source.world.as_ref(), artifacts)
    }

    #[tactic(auto, using(crate::proofs::Ready::text_there))]
    fn mind(&self, alloc: Global, a: u32) -> Result<SteadyAgent, Starved> {
        let Some(text) = text_at(self.source.roles.as_slice(), a - 1) else {
            unreachable!()
        };
        fresh_agent(alloc, &self.options, &self.shared, a, text)
    }
}
