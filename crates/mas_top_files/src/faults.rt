//! The status of a file that has a fault.

ghost use Rattle.std.specs.Prelude.{◌≡◌, IfOk};
ghost use Rattle.mas_top_files.specs.Faults as spec;

use asl_lexer::token::LexFault;
use asl_parser_expr::fault::TextFault;
use asl_term::copying::copy_text;
use asl_term::sequence::Starved;
use asl_term::syntax::Text;
use env_file::fault::WorldFault;
use mas_project::fault::ProjectFault;
use mas_top_status::status::{Reason, Status, What};
use std::alloc::Global;

fn refused(alloc: Global, name: &Text, place: u64, why: Reason) -> Result<Status, Starved>
    ensures { IfOk result (λ s. s ≡ Status.Refused name.now place why) }
{
    let file = copy_text(alloc, name)?;
    Ok(Status::Refused { file, place, why })
}

fn lex_status(alloc: Global, name: &Text, why: LexFault) -> Result<Status, Starved>
    ensures { IfOk result (λ s. s ≡ spec.lex_status name.now why) }
{
    match why {
        LexFault::Memory => Ok(Status::Memory),
        LexFault::BadByte(place) => refused(alloc, name, place, Reason::Byte),
        LexFault::OpenString(place) => refused(alloc, name, place, Reason::String),
        LexFault::OpenComment(place) => refused(alloc, name, place, Reason::Comment),
        LexFault::NumberRange(place) => refused(alloc, name, place, Reason::Number),
    }
}

fn past(what: What, count: u64) -> Status
    ensures { result ≡ Status.Limit what count }
{
    Status::Limit { what, count }
}

/// The status for the file of an agent, whose bytes describe none.
pub fn text_status(alloc: Global, name: &Text, why: TextFault) -> Result<Status, Starved>
    ensures { IfOk result (λ s. s ≡ spec.text_status name.now why) }
{
    match why {
        TextFault::Memory => Ok(Status::Memory),
        TextFault::Lex(why) => lex_status(alloc, name, why),
        TextFault::Clause { number, .. } => refused(alloc, name, number, Reason::Clause),
        TextFault::Limit { number } => Ok(past(What::Clause, number)),
    }
}

/// The status for the file of a world, whose bytes describe none.
pub fn world_status(alloc: Global, name: &Text, why: WorldFault) -> Result<Status, Starved>
    ensures { IfOk result (λ s. s ≡ spec.world_status name.now why) }
{
    match why {
        WorldFault::Memory => Ok(Status::Memory),
        WorldFault::Lex(why) => lex_status(alloc, name, why),
        WorldFault::Clause { number, .. } => refused(alloc, name, number, Reason::Clause),
        WorldFault::Limit { number } => Ok(past(What::Clause, number)),
        WorldFault::Unbound {
            number,
            name: variable,
        } => refused(alloc, name, number, Reason::Unbound(variable)),
        WorldFault::UnknownArtifact {
            number,
            name: artifact,
        } => refused(alloc, name, number, Reason::Artifact(artifact)),
    }
}

/// The status for the file of a project, whose bytes describe none.
pub fn project_status(alloc: Global, name: &Text, why: ProjectFault) -> Result<Status, Starved>
    ensures { IfOk result (λ s. s ≡ spec.project_status name.now why) }
{
    match why {
        ProjectFault::Memory => Ok(Status::Memory),
        ProjectFault::Lex(why) => lex_status(alloc, name, why),
        ProjectFault::Clause { number, .. } => refused(alloc, name, number, Reason::Clause),
        ProjectFault::Option { number, word } => refused(alloc, name, number, Reason::Option(word)),
        ProjectFault::TooMany(count) => Ok(past(What::Agents, count)),
        ProjectFault::TwoNames { place, name: twice } => refused(
            alloc,
            name,
            place,
            Reason::Name(twice),
        ),
    }
}
