//! One word more of a piece.

ghost use Rattle.std.specs.Prelude.{◌≡◌, IfOk};
ghost use Rattle.mas_project.specs.Grammar.{asl};
ghost use Rattle.mas_project.specs.inner.Steps as spec;

use crate::lexeme::ProjectLexeme;
use crate::piece::{AgentEntry, NextPiece, PieceMeaning};
use crate::state::{Before, SeenOptions, State};
use asl_term::copying::copy_text;
use asl_term::sequence::Starved;
use asl_term::syntax::Text;
use std::alloc::Global;

/// How the reading of a piece begins.
pub fn begin(turn: NextPiece) -> State
    ensures { result ≡ spec.begin turn }
{
    match turn {
        NextPiece::Title => State::Start,
        NextPiece::First => State::SeenOptions(SeenOptions {
            infrastructure: false,
            world: None,
        }),
        NextPiece::Later => State::Later,
    }
}

fn start(word: ProjectLexeme) -> Option<State>
    ensures { result ≡ spec.start_by word }
{
    match word {
        ProjectLexeme::Var(w) => {
            if w.as_slice() == b"MAS".as_slice() {
                Some(State::Title)
            } else {
                None
            }
        }
        _ => None,
    }
}

fn title(word: ProjectLexeme) -> Option<State>
    ensures { result ≡ spec.title_by word }
{
    match word {
        ProjectLexeme::Atom(name) => Some(State::Brace(name)),
        _ => None,
    }
}

fn brace(name: Text, word: ProjectLexeme) -> Option<State>
    ensures { result ≡ spec.brace_by name word }
{
    match word {
        ProjectLexeme::OpenBrace => Some(State::Whole(PieceMeaning::Title(name))),
        _ => None,
    }
}

fn colon(next: State, word: ProjectLexeme) -> Option<State>
    ensures { result ≡ spec.colon_by next word }
{
    match word {
        ProjectLexeme::Colon => Some(next),
        _ => None,
    }
}

fn infrastructure_option(seen: SeenOptions) -> Option<State>
    ensures { result ≡ spec.infrastructure_option seen }
{
    if seen.infrastructure {
        return None;
    }
    Some(State::InfrastructureColon(seen.world))
}

fn environment_option(seen: SeenOptions) -> Option<State>
    ensures { result ≡ spec.environment_option seen.infrastructure seen.world }
{
    match seen.world {
        None => Some(State::EnvironmentColon(seen.infrastructure)),
        Some(_) => None,
    }
}

fn named_option(seen: SeenOptions, word: &Text) -> Option<State>
    ensures { result ≡ spec.named_option seen word.now }
{
    let name = word.as_slice();
    if name == b"infrastructure".as_slice() {
        return infrastructure_option(seen);
    }
    if name == b"environment".as_slice() {
        return environment_option(seen);
    }
    if name == b"agents".as_slice() {
        return Some(State::AgentsColon(seen.world));
    }
    None
}

fn option(seen: SeenOptions, word: ProjectLexeme) -> Option<State>
    ensures { result ≡ spec.options_by seen word }
{
    match word {
        ProjectLexeme::Atom(name) => named_option(seen, &name),
        _ => None,
    }
}

fn infrastructure(world: Option<Text>, word: ProjectLexeme) -> Option<State>
    ensures { result ≡ spec.infrastructure_by world word }
{
    match word {
        ProjectLexeme::Var(w) => {
            if w.as_slice() == b"Centralised".as_slice() {
                Some(State::SeenOptions(SeenOptions {
                    infrastructure: true,
                    world,
                }))
            } else {
                None
            }
        }
        _ => None,
    }
}

/// The options with the file that an environment's name stands for.
fn with_world(infrastructure: bool, name: Text) -> Result<State, Starved>
    ensures { IfOk result (λ s. s ≡ spec.with_world infrastructure name) }
{
    let mut file = name;
    file.append(b".env")?;
    Ok(State::SeenOptions(SeenOptions {
        infrastructure,
        world: Some(file),
    }))
}

fn environment(infrastructure: bool, word: ProjectLexeme) -> Result<Option<State>, Starved>
    ensures { IfOk result (λ o. o ≡ spec.environment_by infrastructure word) }
{
    match word {
        ProjectLexeme::Atom(name) => Ok(Some(with_world(infrastructure, name)?)),
        ProjectLexeme::Var(name) => Ok(Some(with_world(infrastructure, name)?)),
        _ => Ok(None),
    }
}

fn said_of(before: Before, entry: AgentEntry) -> PieceMeaning
    ensures { result ≡ spec.said_of before entry }
{
    match before {
        Before::First(world) => PieceMeaning::First(world, entry),
        Before::Next => PieceMeaning::Next(entry),
    }
}

fn first(world: Option<Text>, word: ProjectLexeme) -> Option<State>
    ensures { result ≡ spec.first_by world word }
{
    match word {
        ProjectLexeme::Atom(name) => Some(State::Name(Before::First(world), name)),
        _ => None,
    }
}

fn later(word: ProjectLexeme) -> Option<State>
    ensures { result ≡ spec.later_by word }
{
    match word {
        ProjectLexeme::Atom(name) => Some(State::Name(Before::Next, name)),
        ProjectLexeme::CloseBrace => Some(State::Whole(PieceMeaning::End)),
        _ => None,
    }
}

fn file(before: Before, name: Text, file: Text, word: ProjectLexeme) -> Option<State>
    ensures { result ≡ spec.file_by before name file word }
{
    match word {
        ProjectLexeme::Hash => Some(State::Count(before, name, file)),
        ProjectLexeme::Semicolon => {
            let entry = AgentEntry {
                name,
                file,
                count: None,
            };
            Some(State::Whole(said_of(before, entry)))
        }
        _ => None,
    }
}

/// The file that a name stands for.
fn asl_file(alloc: Global, name: &Text) -> Result<Text, Starved>
    ensures { IfOk result (λ file. file ≡ asl name.now) }
{
    let mut file = copy_text(alloc, name)?;
    file.append(b".asl")?;
    Ok(file)
}

fn name(
    alloc: Global,
    before: Before,
    name: Text,
    word: ProjectLexeme,
) -> Result<Option<State>, Starved>
    ensures { IfOk result (λ o. o ≡ spec.name_by before name word) }
{
    match word {
        ProjectLexeme::Atom(stem) => Ok(Some(State::Stem(before, name, stem))),
        ProjectLexeme::Str(file) => Ok(Some(State::File(before, name, file))),
        other => {
            let own = asl_file(alloc, &name)?;
            Ok(file(before, name, own, other))
        }
    }
}

fn stem(
    before: Before,
    name: Text,
    stem: Text,
    word: ProjectLexeme,
) -> Result<Option<State>, Starved>
    ensures { IfOk result (λ o. o ≡ spec.stem_by before name stem word) }
{
    match word {
        ProjectLexeme::Suffix => {
            let mut file = stem;
            file.append(b".asl")?;
            Ok(Some(State::File(before, name, file)))
        }
        _ => Ok(None),
    }
}

fn count(before: Before, name: Text, file: Text, word: ProjectLexeme) -> Option<State>
    ensures { result ≡ spec.count_by before name file word }
{
    match word {
        ProjectLexeme::Number(n) => {
            if n == 0 {
                return None;
            }
            let entry = AgentEntry {
                name,
                file,
                count: Some(n),
            };
            Some(State::Semicolon(before, entry))
        }
        _ => None,
    }
}

fn semicolon(before: Before, entry: AgentEntry, word: ProjectLexeme) -> Option<State>
    ensures { result ≡ spec.semicolon_by before entry word }
{
    match word {
        ProjectLexeme::Semicolon => Some(State::Whole(said_of(before, entry))),
        _ => None,
    }
}

/// The state behind one word more, unless no reading goes on with it.
#[tactic(auto, unfolding(crate::specs::inner::Steps::step))]
pub fn step(alloc: Global, state: State, word: ProjectLexeme) -> Result<Option<State>, Starved>
    ensures { IfOk result (λ o. o ≡ spec.step state word) }
{
    match state {
        State::Start => Ok(start(word)),
        State::Title => Ok(title(word)),
        State::Brace(name) => Ok(brace(name, word)),
        State::SeenOptions(seen) => Ok(option(seen, word)),
        State::InfrastructureColon(world) => Ok(colon(State::Infrastructure(world), word)),
        State::Infrastructure(world) => Ok(infrastructure(world, word)),
        State::EnvironmentColon(seen) => Ok(colon(State::Environment(seen), word)),
        State::Environment(seen) => environment(seen, word),
        State::AgentsColon(world) => Ok(colon(State::First(world), word)),
        State::First(world) => Ok(first(world, word)),
        State::Later => Ok(later(word)),
        State::Name(before, text) => name(alloc, before, text, word),
        State::Stem(before, name, text) => stem(before, name, text, word),
        State::File(before, name, text) => Ok(file(before, name, text, word)),
        State::Count(before, name, file) => Ok(count(before, name, file, word)),
        State::Semicolon(before, entry) => Ok(semicolon(before, entry, word)),
        State::Whole(_) => Ok(None),
    }
}
