//! The commands as clap has them: simple commands, of which all values but one are texts.

ghost use Rattle.std.specs.Prelude.{◌≡◌, map, option_map, IfOk};
ghost use Rattle.clap.specs.Simple.{app_of};
ghost use Rattle.look_top.specs.Apps as spec;

use crate::words::LookVerb;
use clap::{Arg, ArgAction, Command};
use std::alloc::{AllocError, Global};

fn bare<'a>(alloc: Global) -> Command<'a>
    ensures { app_of result ≡ spec.bare }
{
    Command::new(alloc, "jasonlook")
        .no_binary_name(true)
        .disable_help_flag(true)
        .disable_version_flag(true)
}

/// A command of these names.
fn named<'a>(alloc: Global, names: &[&'a str]) -> Result<Command<'a>, AllocError>
    ensures { IfOk result (λ a. app_of a ≡ spec.with_names spec.bare (map (λ n. n.now) names.now)) }
{
    let mut app = bare(alloc);
    'names: for name in names {
        app = app.arg(Arg::new(alloc, *name))?;
    }
    Ok(app)
}

/// A command of these names, and a flag.
fn command<'a>(
    alloc: Global,
    names: &[&'a str],
    flag: Option<&'a str>,
) -> Result<Command<'a>, AllocError>
    ensures { IfOk result (λ a. app_of a ≡ spec.command (map (λ n. n.now) names.now) (option_map (λ f. f.now) flag.entry)) }
{
    let app = named(alloc, names)?;
    match flag {
        Some(id) => app.arg(Arg::new(alloc, id).long(id).action(ArgAction::SetTrue)),
        None => Ok(app),
    }
}

/// What clap is asked for behind a command.
#[tactic(auto, unfolding(crate::specs::Apps::app_for))]
pub fn app_for<'a>(alloc: Global, verb: LookVerb) -> Result<Command<'a>, AllocError>
    ensures { IfOk result (λ a. app_of a ≡ spec.app_for verb) }
{
    match verb {
        LookVerb::Where => command(alloc, &["project"], None),
        LookVerb::Hints => command(alloc, &["project"], None),
        LookVerb::Messages => command(alloc, &["report"], Some("csv")),
        LookVerb::Mind => command(alloc, &["project", "report", "agent", "turn"], None),
        LookVerb::Page => command(alloc, &["project", "report"], None),
        LookVerb::Drops => command(alloc, &["project", "report"], Some("unhandled")),
    }
}
