//! The text of an agent's part of a platform.
//!
//! After `Starved` a part of the text may stand in `out`.

ghost use Rattle.std.specs.Prelude.{◌≡◌, ◌≤◌, ◌++◌, codes, length, OnOk, IfOk};
ghost use Rattle.std.specs.List.{flat_map};
ghost use Rattle.mas_mind.specs.Minds.{IsAgent};
ghost use Rattle.mas_world.specs.Seen.{seen};
ghost use Rattle.mas_board.specs.Boards.{box_of, seat_at};
ghost use Rattle.look_lines.specs.Lines.{literal_line, part};
ghost use Rattle.look_lines.specs.Outs.{unread_line};
ghost use Rattle.look_run.specs.Views as spec;

use crate::mind::MindText;
use asl_term::sequence::{Seq, Starved};
use asl_term::syntax::Text;
use look_lines::lines::{put_head, put_last, put_literals};
use look_lines::outs::{put_thought, put_unread};
use look_lines::pieces::{Piece, put_pieces};
use mas_board::board::Board;
use mas_board::seats::Phase;
use mas_core::play::Play;
use mas_mind::mind::End;
use mas_mind::thinking::Mind;
use mas_world::artifact::Artifact;
use std::alloc::Global;

/// The phase of an agent, in words.
fn phase_words(phase: Phase) -> &'static [u8]
    ensures { result.now ≡ spec.phase_text phase }
{
    match phase {
        Phase::Idle => b"idle",
        Phase::Busy => b"busy",
        Phase::Left(End::Quiet) => b"left quiet",
        Phase::Left(End::Stopped) => b"left stopped",
        Phase::Left(End::Cycles) => b"left cycles",
        Phase::Left(End::Budget) => b"left budget",
    }
}

/// Appends the line that says who is looked at, and when.
#[tactic(auto, unfolding(crate::specs::Views::who_text, crate::specs::Views::turn_text))]
fn put_who(out: &mut Text, name: &Text, t: u64, n: u64) -> Result<(), Starved>
    ensures { OnOk result (out.new ≡ out.old ++ spec.who_text name.now t n) }
{
    let pieces = [
        Piece::Bytes(b"mind "),
        Piece::Bytes(name.as_slice()),
        Piece::Bytes(b" turn "),
        Piece::Number(t),
        Piece::Bytes(b" of "),
        Piece::Number(n),
        Piece::Bytes(b"\n"),
    ];
    put_pieces(out, &pieces)
}

/// Appends the lines of the cycle and the phase.
#[tactic(auto, unfolding(crate::specs::Views::seat_text))]
fn put_seat<A: Artifact>(out: &mut Text, b: &Board<A>, a: u32) -> Result<(), Starved>
    requires { IsAgent (length b.now.state.seats) a }
    ensures { OnOk result (out.new ≡ out.old ++ spec.seat_text (seat_at b.now.state a)) }
{
    let pieces = [
        Piece::Bytes(b"cycle "),
        Piece::Number(b.cycle(a)),
        Piece::Bytes(b"\nphase "),
        Piece::Bytes(phase_words(b.phase(a))),
        Piece::Bytes(b"\n"),
    ];
    put_pieces(out, &pieces)
}

/// Appends the unread messages of an agent.
#[tactic(auto, using(mas_report::proofs::Sections::letters_end))]
fn put_box<A: Artifact>(out: &mut Text, b: &Board<A>, a: u32) -> Result<(), Starved>
    requires { IsAgent (length b.now.state.seats) a }
    ensures { let s = b.now.state in OnOk result (out.new ≡ out.old ++ flat_map (unread_line s.names) (box_of s.boxes a)) }
{
    let unread = b.unread(a);
    let mut k: u64 = 0;
    'letters: while k < unread {
        let Some(m) = b.mail(a, k) else {
            return Ok(());
        };
        put_unread(out, b.names(), m)?;
        k += 1;
    }
    Ok(())
}

/// Appends the part of the unread messages.
fn put_mail<A: Artifact>(alloc: Global, out: &mut Text, b: &Board<A>, a: u32) -> Result<(), Starved>
    requires { IsAgent (length b.now.state.seats) a }
    ensures { let s = b.now.state in OnOk result (out.new ≡ out.old ++ part (codes "mail") (unread_line s.names) (box_of s.boxes a)) }
{
    put_head(alloc, out, b"mail", b.unread(a))?;
    put_box(out, b, a)
}

/// Appends the part of what an agent of this name sees.
fn put_sees<A: Artifact>(
    alloc: Global,
    out: &mut Text,
    b: &Board<A>,
    name: &Text,
) -> Result<(), Starved>
    ensures { OnOk result (out.new ≡ out.old ++ part (codes "sees") literal_line (seen b.now.state.world name.now)) }
{
    let facts = b.world().percepts(alloc, name)?;
    let put = put_literals(alloc, out, b"sees", facts.as_slice());
    drop(facts);
    put
}

/// Appends what stands beside the mind.
#[tactic(auto, unfolding(crate::specs::Views::around_text))]
fn put_around<M: Mind, A: Artifact>(
    alloc: Global,
    out: &mut Text,
    play: &Play<M, A>,
    name: &Text,
    a: u32,
) -> Result<(), Starved>
    requires { IsAgent (length play.now.platform.board.seats) a }
    ensures { OnOk result (out.new ≡ out.old ++ spec.around_text play.now.platform name.now a) }
{
    let b = play.board();
    put_thought(alloc, out, b.names(), play.thought(a))?;
    put_mail(alloc, out, b, a)?;
    put_sees(alloc, out, b, name)
}

/// Appends an agent's part of a platform.
#[tactic(auto, unfolding(crate::specs::Views::view_text))]
fn put_view<M: Mind, A: Artifact, W: MindText<M>>(
    alloc: Global,
    out: &mut Text,
    writer: &W,
    play: &Play<M, A>,
    m: &M,
    name: &Text,
    a: u32,
    t: u64,
    n: u64,
) -> Result<(), Starved>
    requires { IsAgent (length play.now.platform.board.seats) a }
    ensures { OnOk result (out.new ≡ out.old ++ spec.view_text M.kind W.parts play.now.platform (spec.asked name.now a t n) m.now) }
{
    put_who(out, name, t, n)?;
    put_seat(out, play.board(), a)?;
    writer.put_parts(alloc, out, m, play.board().names())?;
    put_around(alloc, out, play, name, a)?;
    put_last(alloc, out, m.lines().as_slice())
}

/// The text of an agent's part of a platform.
pub fn view<M: Mind, A: Artifact, W: MindText<M>>(
    alloc: Global,
    writer: &W,
    play: &Play<M, A>,
    name: &Text,
    a: u32,
    t: u64,
    n: u64,
) -> Result<Text, Starved>
    requires { 1 ≤ a }
    ensures { IfOk result (λ w. w ≡ spec.view M.kind W.parts play.now.platform (spec.asked name.now a t n)) }
{
    let mut out = Seq::new(alloc);
    if a > play.agents() {
        return Ok(out);
    }
    match play.mind(a) {
        None => Ok(out),
        Some(m) => {
            put_view(alloc, &mut out, writer, play, m, name, a, t, n)?;
            Ok(out)
        }
    }
}
