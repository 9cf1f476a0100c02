//! The command as clap has it: a simple command, of which all values but one are texts.

ghost use Rattle.std.specs.Prelude.{◌≡◌, IfOk};
ghost use Rattle.clap.specs.Simple.{app_of, new_rule, with_rule};
ghost use Rattle.mas_explore_top.specs.Apps as spec;

use clap::{Arg, ArgAction, Command};
use std::alloc::{AllocError, Global};

fn bare<'a>(alloc: Global) -> Command<'a>
    ensures { app_of result ≡ spec.bare }
{
    Command::new(alloc, "explore")
        .no_binary_name(true)
        .disable_help_flag(true)
        .disable_version_flag(true)
}

fn with_name<'a>(alloc: Global, app: Command<'a>, id: &'a str) -> Result<Command<'a>, AllocError>
    ensures { IfOk result (λ a. app_of a ≡ with_rule (app_of app.entry) (new_rule id.entry.now)) }
{
    app.arg(Arg::new(alloc, id))
}

fn with_option<'a>(alloc: Global, app: Command<'a>, id: &'a str) -> Result<Command<'a>, AllocError>
    ensures { IfOk result (λ a. app_of a ≡ with_rule (app_of app.entry) (spec.option_rule id.entry.now)) }
{
    app.arg(Arg::new(alloc, id).long(id))
}

fn with_flag<'a>(alloc: Global, app: Command<'a>, id: &'a str) -> Result<Command<'a>, AllocError>
    ensures { IfOk result (λ a. app_of a ≡ with_rule (app_of app.entry) (spec.flag_rule id.entry.now)) }
{
    app.arg(Arg::new(alloc, id).long(id).action(ArgAction::SetTrue))
}

/// The command for clap.
#[tactic(auto, unfolding(crate::specs::Apps::explore_app))]
pub fn explore_app<'a>(alloc: Global) -> Result<Command<'a>, AllocError>
    ensures { IfOk result (λ a. app_of a ≡ spec.explore_app) }
{
    let app = with_name(alloc, bare(alloc), "project")?;
    let app = with_option(alloc, app, "level")?;
    let app = with_option(alloc, app, "depth")?;
    let app = with_option(alloc, app, "tries")?;
    let app = with_option(alloc, app, "states")?;
    let app = with_option(alloc, app, "never")?;
    let app = with_option(alloc, app, "always")?;
    match with_flag(alloc, app, "progress") {
        Ok(app) => Ok(app),
        Err(error) => Err(error),
    }
}
