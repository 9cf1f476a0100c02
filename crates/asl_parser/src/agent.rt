//! The source of an agent, piece by piece.

ghost use Rattle.std.specs.Prelude.{◌≡◌, [], ◌<◌, IfOk, IfErr, OnOk};
ghost use Rattle.asl_lexer.specs.Words.{pieces, is_end};
ghost use Rattle.asl_lexer.specs.Lexing.{AreTokens};
ghost use Rattle.asl_parser.specs.Agents as spec;
ghost use Rattle.asl_parser.specs.Agents.{AreSentences, IsAgent, IsNone};
ghost use Rattle.asl_parser.specs.Answering as answering;
ghost use Rattle.asl_parser.specs.Answering.{Told};

use crate::clauses::sentence;
use crate::sentence::{HeldSentence, Sentence, Sentences};
use asl_lexer::lexing::tokens;
use asl_lexer::pieces::{ClausePieces, cut};
use asl_lexer::token::{LexFault, Tok};
use asl_parser_expr::fault::TextFault;
use asl_parser_tree::bounded::Bounded;
use asl_parser_tree::lexeme::lexemes;
use asl_parser_tree::limits::{MOST_BRACKETS, too_deep};
use asl_term::sequence::{Seq, Starved};
use asl_term::syntax::AgentText;
use std::alloc::Global;

fn said(number: u64, first: &Tok, s: Option<HeldSentence>) -> Result<Sentence, TextFault>
    ensures { result ≡ answering.said number first.now s }
{
    match s {
        Some(Bounded::Within(s)) => Ok(s),
        Some(Bounded::Past(())) => Err(TextFault::Limit { number }),
        None => Err(TextFault::Clause {
            number,
            line: first.line,
            column: first.column,
        }),
    }
}

/// What a piece says, or why it is refused.
#[tactic(auto, unfolding(crate::specs::Answering::piece_by))]
fn piece(alloc: Global, number: u64, first: &Tok, toks: &[Tok]) -> Result<Sentence, TextFault>
    ensures { Told result (answering.piece_by number first.now toks.now) }
{
    let all = lexemes(alloc, toks)?;
    if too_deep(&all) {
        return Err(TextFault::Limit { number });
    }
    match sentence(alloc, &all, MOST_BRACKETS) {
        Ok(s) => said(number, first, s),
        Err(_) => Err(TextFault::Memory),
    }
}

fn piece_at(alloc: Global, number: u64, toks: &[Tok]) -> Result<Sentence, TextFault>
    ensures { Told result (answering.piece_at number toks.now) }
{
    match toks {
        [first, ..] => piece(alloc, number, first, toks),
        [] => Err(TextFault::Limit { number }),
    }
}

fn add(s: Sentence, text: &mut AgentText) -> Result<(), Starved>
    ensures { OnOk result (text.new ≡ spec.added text.old s) }
{
    match s {
        Sentence::Belief(l) => text.beliefs.push(l),
        Sentence::Rule(c) => text.rules.push(c),
        Sentence::Goal(l) => text.goals.push(l),
        Sentence::Plan(p) => text.plans.push(p),
    }
}

#[tactic(auto, using(crate::proofs::Answered::more, crate::proofs::Answered::stops, crate::proofs::Answered::ends, crate::proofs::Answered::cut_shorter))]
fn clauses(alloc: Global, toks: &[Tok]) -> Result<Sentences, TextFault>
    ensures { Told result (answering.behind [] (answering.answer_by 1 (pieces is_end toks.now))) }
{
    let mut said = Seq::new(alloc);
    let mut number: u64 = 1;
    let mut rest = toks;
    'pieces: while let Some((toks, behind)) = cut::<ClausePieces>(rest) {
        match piece_at(alloc, number, toks) {
            Ok(s) => said.push(s)?,
            Err(fault) => return Err(fault),
        }
        number += 1;
        rest = behind;
    }
    Ok(said)
}

#[tactic(auto, using(crate::proofs::Answered::are_said, crate::proofs::Answered::is_none_of))]
fn sentences_of(alloc: Global, bytes: &[u8], toks: &[Tok]) -> Result<Sentences, TextFault>
    requires { AreTokens bytes.now toks.now }
    ensures ok { IfOk result (AreSentences bytes.now) }
    ensures err { IfErr result (IsNone bytes.now) }
{
    clauses(alloc, toks)
}

/// What the clauses of a source say, in order, or the first reason why it describes no agent.
pub fn sentences(alloc: Global, bytes: &[u8]) -> Result<Sentences, TextFault>
    ensures ok { IfOk result (AreSentences bytes.now) }
    ensures err { IfErr result (IsNone bytes.now) }
{
    match tokens(alloc, bytes) {
        Ok(toks) => sentences_of(alloc, bytes, toks.as_slice()),
        Err(LexFault::Memory) => Err(TextFault::Memory),
        Err(fault) => Err(TextFault::Lex(fault)),
    }
}

/// What sentences say together, each kind in order.
#[tactic(auto, using(crate::proofs::Together::opens, crate::proofs::Together::more, crate::proofs::Together::ends))]
pub fn together(alloc: Global, sentences: Sentences) -> Result<AgentText, Starved>
    ensures { IfOk result (λ text. text ≡ spec.all_added spec.nothing sentences) }
{
    let mut left = sentences;
    left.reverse();
    let mut text = AgentText {
        beliefs: Seq::new(alloc),
        rules: Seq::new(alloc),
        goals: Seq::new(alloc),
        plans: Seq::new(alloc),
    };
    'sentences: while let Some(s) = left.pop() {
        add(s, &mut text)?;
    }
    Ok(text)
}

/// The agent that a source describes, or the first reason why it describes none.
pub fn agent(alloc: Global, bytes: &[u8]) -> Result<AgentText, TextFault>
    ensures ok { IfOk result (IsAgent bytes.now) }
    ensures err { IfErr result (IsNone bytes.now) }
{
    match sentences(alloc, bytes) {
        Ok(said) => match together(alloc, said) {
            Ok(text) => Ok(text),
            Err(_) => Err(TextFault::Memory),
        },
        Err(fault) => Err(fault),
    }
}
