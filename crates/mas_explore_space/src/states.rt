//! The states that a search has met.

ghost use Rattle.std.specs.Prelude.{◌≡◌, ◌<◌, ◌+◌, ◌-◌, ◌∷◌, [], length, Some, IfOk, OnOk};
ghost use Rattle.mas_explore.specs.Searches.{most_states};
ghost use Rattle.mas_mind.specs.Minds.{IsAgent};
ghost use Rattle.mas_free.specs.Covers.{free_opening};
ghost use Rattle.mas_explore.specs.Origins.{IsOrigin};
ghost use Rattle.mas_explore_likes.specs.Likes.{AreMet};
ghost use Rattle.mas_explore_space.specs.Held.{start_of};
ghost use Rattle.mas_explore_space.specs.Met as spec;

use crate::boxes::keep_box;
use crate::held::{Held, nothing_held};
use crate::moving::follow_row;
use crate::plan::plan_to;
use crate::row::{Row, Seat, Stance, copy_row};
use crate::settling::settle_next;
use crate::texts::outcome_of;
use asl_term::sequence::{Seq, Starved};
use asl_term::syntax::Text;
use mas_explore::listing::Plan;
use mas_explore::space::Space;
use mas_explore_likes::likened::Likened;
use mas_explore_likes::likes::{Likes, no_likes};
use mas_explore_minds::fresh::Fresh;
use mas_explore_tables::table::Table;
use mas_explore_worlds::fresh::FreshWorld;
use mas_free::view::View;
use mas_world::artifact::Artifact;
use std::alloc::Global;
use std::marker::{Model, PhantomData};

/// From which state, and by the move of which agent, a state was met first.
#[derive(Clone, Copy, Drop)]
pub struct Came {
    pub from: u64,
    pub agent: u32,
}

/// What is held, and a row for each state that was met.
pub struct Met {
    pub held: Held,
    pub rows: Table<Row>,
    pub came: Seq<Came>,
}

/// By hand, so that who lets one go proves nothing of its parts.
impl Drop for Met {
    fn drop(self) {
        let Met {
            held: _,
            rows: _,
            came: _,
        } = self;
    }
}

/// Keeps a row, which came by this move.
fn keep_row(alloc: Global, met: &mut Met, row: Row, came: Came) -> Result<(), Starved>
    ensures { OnOk result (spec.HasKept met.old met.new row) }
{
    let n = met.rows.enter(alloc, row)?;
    if n == met.came.len() {
        met.came.push(came)?;
    }
    Ok(())
}

/// Keeps what came of a move, where there was one: whether there was.
fn keep_next(alloc: Global, met: &mut Met, to: Option<Row>, came: Came) -> Result<bool, Starved>
    ensures { IfOk result (spec.HasKeptNext met.old met.new to) }
{
    match to {
        None => Ok(false),
        Some(row) => {
            keep_row(alloc, met, row, came)?;
            Ok(true)
        }
    }
}

/// Follows the move of an agent from a state, where it has one.
fn step<M: Likened, A: Artifact, F: Fresh<M> + FreshWorld<A>>(
    alloc: Global,
    fresh: &F,
    met: &mut Met,
    likes: &mut Likes<M>,
    state: u64,
    a: u32,
    view: View,
) -> Result<bool, Starved>
    requires met { spec.IsMet M.kind (start_of (F.agents fresh.now) (F.start fresh.now) (F.first fresh.now)) met.old }
    requires likes { AreMet M.kind (F.first fresh.now) met.old.held.minds likes.old }
    requires there { state < length met.old.rows }
    requires short { state < most_states }
    requires agent { IsAgent (length (F.agents fresh.now)) a }
    ensures likes { OnOk result (AreMet M.kind (F.first fresh.now) met.new.held.minds likes.new) }
    ensures stepped { let s = start_of (F.agents fresh.now) (F.start fresh.now) (F.first fresh.now) in
        IfOk result (spec.HasStepped M.kind view s met.old met.new state a) }
{
    let Some(row) = met.rows.at(state) else {
        unreachable!()
    };
    let row = copy_row(alloc, row)?;
    let to = follow_row::<M, A, F>(alloc, fresh, &mut met.held, state, row, a)?;
    let most = state + 1;
    let settled = settle_next::<M, A, F>(alloc, fresh, &met.held, likes, most, to, a, view)?;
    let came = Came {
        from: state,
        agent: a,
    };
    let moved = keep_next(alloc, met, settled, came)?;
    Ok(moved)
}

/// The states of a search, which begins with that of the start. Contracts see the start and the list of states. Once memory was wanting there is none.
pub struct States<M: Likened, A: Artifact, F: Fresh<M> + FreshWorld<A> + Drop> {
    fresh: F,
    met: Met,
    likes: Likes<M>,
    artifacts: PhantomData<A>,
}

/// By hand, so that who lets one go proves nothing of its parts.
impl<M: Likened, A: Artifact, F: Fresh<M> + FreshWorld<A> + Drop> Drop for States<M, A, F> {
    fn drop(self) {
        let States {
            fresh: _,
            met: _,
            likes: _,
            artifacts: _,
        } = self;
    }
}

impl<M: Likened, A: Artifact, F: Fresh<M> + FreshWorld<A> + Drop> Model for States<M, A, F> {
    ghost use Rattle.mas_explore_space.specs.Held.{start_of};
    ghost use Rattle.mas_explore_space.specs.Met.{states_of};
    ghost use Rattle.mas_explore_space.specs.Spaces.{Searched, IsSearched};
    ghost use Rattle.asl_term.specs.contracts.syntax.Term as t;
    ghost use Rattle.asl_term.specs.contracts.syntax.Expr as e;
    ghost use Rattle.std.specs.Coded.{codes};

    ghost Value = { Searched M };

    ghost coded = { Prim.hlevel (codes, t.the_row.coded, e.the_row.coded, M.code) };

    ghost view = { λ x. record {
      start = start_of (F.agents x.fresh) (F.start x.fresh) (F.first x.fresh);
      met = states_of M.kind (start_of (F.agents x.fresh) (F.start x.fresh) (F.first x.fresh)) x.met;
    } };

    ghost invariant = { λ x. IsSearched M.kind (start_of (F.agents x.fresh) (F.start x.fresh) (F.first x.fresh)) x.met.held x.met.rows x.likes };
}

/// The seats of the opening: each agent is idle, and has its own mind and an empty box.
#[tactic(auto, using(crate::proofs::Openings::open_none, crate::proofs::Openings::open_more))]
fn open_seats(alloc: Global, agents: u32, mail: u64) -> Result<Seq<Seat>, Starved>
    ensures { IfOk result (spec.AreOpen agents mail) }
{
    let mut seats = Seq::new(alloc);
    for i in 0..agents {
        seats.push(Seat {
            mind: i as u64,
            mail,
            stance: Stance::Idle,
        })?;
    }
    Ok(seats)
}

/// What is held at the start, and the row of the opening.
fn open_met<M: Likened, A: Artifact, F: Fresh<M> + FreshWorld<A>>(
    alloc: Global,
    fresh: &F,
) -> Result<Met, Starved>
    requires { IsOrigin M.kind (start_of (F.agents fresh.now) (F.start fresh.now) (F.first fresh.now)) }
    ensures met { IfOk result (spec.IsMet M.kind (start_of (F.agents fresh.now) (F.start fresh.now) (F.first fresh.now))) }
    ensures first { let s = start_of (F.agents fresh.now) (F.start fresh.now) (F.first fresh.now) in
        IfOk result (λ m. spec.states_of M.kind s m ≡ free_opening s ∷ []) }
{
    let mut held = nothing_held::<M, A, F>(alloc, fresh);
    let mail = keep_box::<M, A, F>(alloc, fresh, &mut held, Seq::new(alloc))?;
    let row = Row {
        world: 0,
        stop: false,
        seats: open_seats(alloc, fresh.agents(), mail)?,
    };
    let mut rows = Table::new(alloc);
    rows.enter(alloc, row)?;
    let mut came = Seq::new(alloc);
    came.push(Came { from: 0, agent: 0 })?;
    Ok(Met { held, rows, came })
}

impl<M: Likened, A: Artifact, F: Fresh<M> + FreshWorld<A> + Drop> States<M, A, F> {
    /// The first state alone.
    #[tactic(auto, using(mas_explore_likes::proofs::Standing::met_none))]
    pub fn open(alloc: Global, fresh: F) -> Result<States<M, A, F>, Starved>
        requires { IsOrigin M.kind (start_of (F.agents fresh) (F.start fresh) (F.first fresh)) }
        ensures start { IfOk result (λ x. x.start ≡ start_of (F.agents fresh) (F.start fresh) (F.first fresh)) }
        ensures first { IfOk result (λ x. x.met ≡ free_opening x.start ∷ []) }
    {
        let met = open_met::<M, A, F>(alloc, &fresh)?;
        let likes = no_likes(alloc)?;
        Ok(States {
            fresh,
            met,
            likes,
            artifacts: PhantomData,
        })
    }
}

impl<M: Likened, A: Artifact, F: Fresh<M> + FreshWorld<A> + Drop> Space<M> for States<M, A, F> {
    ghost start = { λ x. x.start };

    ghost met = { λ x. x.met };

    fn agents(&self) -> u32 {
        let _met = &self.met;
        self.fresh.names().len()
    }

    fn count(&self) -> u64 {
        self.met.rows.count()
    }

    fn follow(&mut self, alloc: Global, state: u64, a: u32, view: View) -> Result<bool, Starved> {
        let (met, likes) = (&mut self.met, &mut self.likes);
        match step::<M, A, F>(alloc, &self.fresh, met, likes, state, a, view) {
            Ok(moved) => Ok(moved),
            Err(starved) => {
                self.met.rows = Table::new(alloc);
                Err(starved)
            }
        }
    }

    fn outcome(&self, alloc: Global, state: u64, view: View) -> Result<Text, Starved> {
        let Some(row) = self.met.rows.at(state) else {
            unreachable!()
        };
        let text = outcome_of::<M, A, F>(alloc, &self.fresh, &self.met.held, state, row, view)?;
        Ok(text)
    }

    fn plan(&self, alloc: Global, state: u64) -> Result<Plan, Starved> {
        plan_to(alloc, &self.met, self.fresh.names().len(), state)
    }
}
