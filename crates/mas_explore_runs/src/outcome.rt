//! The outcome of a run that is done.

ghost use Rattle.std.specs.Prelude.{◌≡◌, ◌++◌, length, IfOk, OnOk};
ghost use Rattle.mas_mind.specs.Minds.{IsAgent};
ghost use Rattle.mas_board.specs.Boards as board;
ghost use Rattle.mas_board.specs.Seating.{IsSound};
ghost use Rattle.mas_free.specs.Lines.{viewed};
ghost use Rattle.mas_free.specs.Outcome as spec;
ghost use Rattle.mas_explore_runs.specs.Runs.{platform_of};

use asl_term::sequence::{Seq, Starved};
use asl_term::syntax::Text;
use mas_board::board::Board;
use mas_board::seats::Phase;
use mas_core::robin::Done;
use mas_free::outcome::put_section;
use mas_free::view::View;
use mas_mind::mind::End;
use mas_mind::thinking::Mind;
use mas_report::report::{lines_of, name_of, put_mail, put_world};
use mas_world::artifact::Artifact;
use std::alloc::Global;

/// Appends the section of an agent, which has shown these lines.
fn put_agent<A: Artifact>(
    out: &mut Text,
    b: &Board<A>,
    a: u32,
    view: View,
    lines: &[u8],
) -> Result<(), Starved>
    requires { IsAgent (length b.now.state.seats) a }
    ensures { let s = b.now.state in
        OnOk result (out.new ≡ out.old ++ spec.section (board.name_of s a) (viewed view lines.now) (board.seat_at s a).phase) }
{
    put_section(out, name_of(b.names(), a), view, lines, b.phase(a))
}

#[tactic(auto, using(crate::proofs::Sections::sections_end))]
fn put_sections<M: Mind, A: Artifact>(
    out: &mut Text,
    d: &Done<M, A>,
    view: View,
) -> Result<(), Starved>
    requires { IsSound d.now.board.state }
    ensures { let p = platform_of d.now.board.state d.now.minds in
        OnOk result (out.new ≡ out.old ++ spec.sections (spec.section_of M.kind view p) 1 (length p.board.seats)) }
{
    let agents = d.board.names().len();
    let mut a: u32 = 1;
    'agents: while a <= agents {
        let lines = lines_of(d.minds.at((a - 1) as u64));
        put_agent(out, &d.board, a, view, lines)?;
        a += 1;
    }
    Ok(())
}

/// The outcome of a run that is done.
pub fn outcome_of<M: Mind, A: Artifact>(
    alloc: Global,
    d: &Done<M, A>,
    view: View,
) -> Result<Text, Starved>
    ensures { IfOk result (λ t. t ≡ spec.outcome M.kind view (platform_of d.now.board.state d.now.minds)) }
{
    d.board.holds();
    let mut out = Seq::new(alloc);
    put_sections(&mut out, d, view)?;
    put_world(alloc, &mut out, d.board.world())?;
    put_mail(&mut out, &d.board)?;
    Ok(out)
}

fn is_cut(phase: Phase) -> bool
    ensures { result ≡ spec.is_cut phase }
{
    match phase {
        Phase::Left(End::Cycles) => true,
        _ => false,
    }
}

/// Whether no agent had to leave for the limit of cycles.
#[tactic(auto, using(crate::proofs::Sections::uncut_next, crate::proofs::Sections::cut_here, crate::proofs::Sections::uncut_end))]
pub fn is_uncut<A: Artifact>(b: &Board<A>) -> bool
    ensures { result ≡ spec.uncut b.now.state.seats }
{
    b.holds();
    let agents = b.names().len();
    let mut a: u32 = 1;
    'agents: while a <= agents {
        if is_cut(b.phase(a)) {
            return false;
        }
        a += 1;
    }
    true
}
