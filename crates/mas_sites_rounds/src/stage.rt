//! A site during its run: a turn a call.

ghost use Rattle.std.specs.Prelude.{◌≡◌, ◌<◌, ◌≤◌, ◌^◌, length, IfOk, OnOk};
ghost use Rattle.mas_mind.specs.Limits.{most_cycles};
ghost use Rattle.mas_mind.specs.Minds.{IsAgent};
ghost use Rattle.mas_board.specs.Boards.{is_gone, seat_at};
ghost use Rattle.mas_board.specs.declared.seats.Phase.TheVariants.{Idle, Busy};
ghost use Rattle.mas_core.specs.Fits.{Start};
ghost use Rattle.mas_core.specs.Platform.{first_here};
ghost use Rattle.mas_sites_stand.specs.Seats.{seated};
ghost use Rattle.mas_sites_scripts.specs.Giving.{placing};
ghost use Rattle.mas_sites_scripts.specs.Sites as spec;
ghost use Rattle.mas_sites_rounds.specs.Cycles.{MayCycle, HasCycled};

use asl_term::sequence::{Seq, Starved};
use mas_board::board::Board;
use mas_board::seats::{Phase, Sensed};
use mas_core::minds::{no_thoughts, put_thought, take_thought, tell_at, think_at};
use mas_mind::mind::{Input, Thought};
use mas_mind::thinking::Mind;
use mas_sites_scripts::carrier::Carrier;
use mas_sites_scripts::giving::{ScriptEntries, give, no_entries};
use mas_sites_stand::seated::Seated;
use mas_world::artifact::Artifact;
use std::alloc::Global;
use std::marker::Model;

/// The mind of an idle agent is given what comes from the other site, and makes a cycle.
fn cycle<M: Mind, C: Carrier>(
    alloc: Global,
    carrier: &mut C,
    minds: &mut Seq<Seated<M>>,
    thoughts: &mut Seq<Option<Thought>>,
    scripts: &mut Seq<ScriptEntries>,
    a: u32,
    input: Input,
) -> Result<(), Starved>
    requires agents { C.agents carrier.old ≡ length minds.old }
    requires may { MayCycle M.kind (placing minds.old scripts.old) thoughts.old a input }
    ensures made { OnOk result (HasCycled M.kind C.got C.put carrier.old carrier.new
        (placing minds.old scripts.old) (placing minds.new scripts.new) thoughts.old thoughts.new a input) }
    ensures same { C.agents carrier.new ≡ C.agents carrier.old }
{
    give(alloc, carrier, minds, scripts, a, &input.message)?;
    let thought = think_at(alloc, minds, a, input)?;
    put_thought(thoughts, a, thought);
    Ok(())
}

/// A board, what sits in the places of its agents, the thoughts of their cycles that are not ended, and all entries that
/// the stands were given.
pub struct SiteState<M: Mind, A: Artifact> {
    board: Board<A>,
    minds: Seq<Seated<M>>,
    thoughts: Seq<Option<Thought>>,
    scripts: Seq<ScriptEntries>,
}

/// By hand, so that a crate above that lets a site go proves nothing of its parts.
impl<M: Mind, A: Artifact> Drop for SiteState<M, A> {
    fn drop(self) {
        let SiteState {
            board: _,
            minds: _,
            thoughts: _,
            scripts: _,
        } = self;
    }
}

impl<M: Mind, A: Artifact> Model for SiteState<M, A> {
    ghost use Rattle.mas_sites_scripts.specs.Sites.{Sited};
    ghost use Rattle.mas_sites_rounds.specs.Cycles.{IsStage};
    ghost use Rattle.asl_term.specs.contracts.syntax.Term as t;
    ghost use Rattle.asl_term.specs.contracts.syntax.Expr as e;
    ghost use Rattle.mas_sites_stand.specs.contracts.seated.Seated as s;
    ghost use Rattle.std.specs.Coded.{codes};

    ghost Value = { Sited M };

    ghost coded = { Prim.hlevel (codes, t.the_row.coded, e.the_row.coded, M.code) };

    ghost view = { λ p. record {
      platform = record { board = p.board.state; minds = p.minds; thoughts = p.thoughts };
      schedule = p.board.schedule;
      scripts = p.scripts;
    } };

    ghost invariant = { λ p. IsStage M.kind p.board p.minds p.thoughts p.scripts };
}

/// What a call for a turn gives back: the site, and whether there was a turn.
#[derive(Drop)]
pub struct Made<M: Mind, A: Artifact> {
    pub stage: SiteState<M, A>,
    pub made: bool,
}

/// What a site is let go with: its board, what sits in the places of the agents, and all entries that the stands were
/// given.
#[derive(Drop)]
pub struct Closed<M: Mind, A: Artifact> {
    pub board: Board<A>,
    pub minds: Seq<Seated<M>>,
    pub scripts: Seq<ScriptEntries>,
}

impl<M: Mind, A: Artifact> SiteState<M, A> {
    /// A site on whose board no turn was made.
    pub fn open(
        alloc: Global,
        board: Board<A>,
        minds: Seq<Seated<M>>,
    ) -> Result<SiteState<M, A>, Starved>
        requires { Start (seated M.kind) board minds }
        ensures { IfOk result (λ s. s ≡ spec.opened board.state minds) }
    {
        board.holds();
        let agents = minds.len();
        let thoughts = no_thoughts(alloc, agents)?;
        let scripts = no_entries(alloc, agents)?;
        Ok(SiteState {
            board,
            minds,
            thoughts,
            scripts,
        })
    }

    /// The turn of an idle agent.
    fn begin<C: Carrier>(
        self,
        alloc: Global,
        carrier: &mut C,
        a: u32,
    ) -> Result<Made<M, A>, Starved>
        requires agent { IsAgent (length self.platform.board.seats) a }
        requires idle { (seat_at self.platform.board a).phase ≡ Idle }
        requires agents { C.agents carrier.old ≡ length self.platform.board.seats }
        ensures made { IfOk result (λ t. spec.IsMade M.kind C.got C.put carrier.old carrier.new self t.stage a t.made) }
        ensures same { C.agents carrier.new ≡ C.agents carrier.old }
    {
        let SiteState {
            mut board,
            mut minds,
            mut thoughts,
            mut scripts,
        } = self;
        board.holds();
        match board.sense(alloc, a)? {
            Sensed::Input(input) => {
                cycle(
                    alloc,
                    carrier,
                    &mut minds,
                    &mut thoughts,
                    &mut scripts,
                    a,
                    input,
                )?;
                let stage = SiteState {
                    board,
                    minds,
                    thoughts,
                    scripts,
                };
                Ok(Made { stage, made: true })
            }
            Sensed::Left(_) => {
                let stage = SiteState {
                    board,
                    minds,
                    thoughts,
                    scripts,
                };
                Ok(Made { stage, made: true })
            }
            Sensed::Ahead { .. } => {
                let stage = SiteState {
                    board,
                    minds,
                    thoughts,
                    scripts,
                };
                Ok(Made { stage, made: false })
            }
            Sensed::Halted => unreachable!(),
        }
    }

    /// The turn of a busy agent.
    fn finish(self, alloc: Global, a: u32) -> Result<SiteState<M, A>, Starved>
        requires agent { IsAgent (length self.platform.board.seats) a }
        requires busy { (seat_at self.platform.board a).phase ≡ Busy }
        ensures { IfOk result (spec.IsFinished M.kind self a) }
    {
        let SiteState {
            mut board,
            mut minds,
            mut thoughts,
            scripts,
        } = self;
        match take_thought(&mut thoughts, a) {
            Some(Thought::Outs(outs)) => {
                let mut outs = outs;
                let feedback = board.emit(alloc, a, &mut outs)?;
                tell_at(&mut minds, a, feedback);
                let stage = SiteState {
                    board,
                    minds,
                    thoughts,
                    scripts,
                };
                Ok(stage)
            }
            Some(Thought::Spent) => {
                board.leave(a);
                let stage = SiteState {
                    board,
                    minds,
                    thoughts,
                    scripts,
                };
                Ok(stage)
            }
            None => unreachable!(),
        }
    }
}

impl<M: Mind, A: Artifact> SiteState<M, A> {
    /// Where an agent is.
    fn phase(&self, a: u32) -> Phase
        requires { IsAgent (length self.now.platform.board.seats) a }
        ensures { result ≡ (seat_at self.now.platform.board a).phase }
    {
        self.board.phase(a)
    }

    /// Whether an agent has left.
    pub fn has_left(&self, a: u32) -> bool
        requires { IsAgent (length self.now.platform.board.seats) a }
        ensures { result ≡ is_gone (seat_at self.now.platform.board a).phase }
    {
        match self.board.phase(a) {
            Phase::Left(_) => true,
            Phase::Idle => false,
            Phase::Busy => false,
        }
    }

    /// The number of the first agent that has not left.
    pub fn first_here(&self) -> Option<u32>
        ensures { result ≡ first_here 1 self.now.platform.board.seats }
    {
        let agents = self.agents();
        for i in 0..agents {
            if !self.has_left(i + 1) {
                return Some(i + 1);
            }
        }
        None
    }

    /// The number of agents.
    pub fn agents(&self) -> u32
        ensures number { result ≡ length self.now.platform.board.seats }
        ensures few { result < 2 ^ 16 }
    {
        self.board.holds();
        self.board.names().len()
    }

    /// How many cycles an agent may make.
    pub fn cycles(&self) -> u64
        ensures number { result ≡ self.now.platform.board.cycles }
        ensures short { result ≤ most_cycles }
    {
        self.board.holds();
        self.board.cycles()
    }

    /// The turn of an agent, where it has one.
    pub fn turn<C: Carrier>(
        self,
        alloc: Global,
        carrier: &mut C,
        a: u32,
    ) -> Result<Made<M, A>, Starved>
        requires agent { IsAgent (length self.platform.board.seats) a }
        requires agents { C.agents carrier.old ≡ length self.platform.board.seats }
        ensures made { IfOk result (λ t. spec.IsMade M.kind C.got C.put carrier.old carrier.new self t.stage a t.made) }
        ensures same { C.agents carrier.new ≡ C.agents carrier.old }
    {
        match self.phase(a) {
            Phase::Idle => self.begin(alloc, carrier, a),
            Phase::Busy => {
                let stage = self.finish(alloc, a)?;
                Ok(Made { stage, made: true })
            }
            Phase::Left(_) => Ok(Made {
                stage: self,
                made: false,
            }),
        }
    }

    /// The board, what sits in the places of the agents, and all entries that the stands were given.
    pub fn close(self) -> Closed<M, A>
        ensures { spec.IsClosed self (spec.after result.board result.minds result.scripts) }
    {
        let SiteState {
            board,
            minds,
            thoughts: _,
            scripts,
        } = self;
        Closed {
            board,
            minds,
            scripts,
        }
    }
}
