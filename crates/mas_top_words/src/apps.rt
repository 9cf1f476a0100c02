//! The commands as clap has them: one simple command for each, in which all values are texts.

ghost use Rattle.std.specs.Prelude.{◌≡◌, IfOk};
ghost use Rattle.clap.specs.Simple.{app_of, new_rule, with_rule};
ghost use Rattle.mas_top_words.specs.Apps as spec;

use crate::table::Command;
use clap::{Arg, Command as App};
use std::alloc::{AllocError, Global};

fn bare<'a>(alloc: Global, word: &'a str) -> App<'a>
    ensures { app_of result ≡ spec.bare word.entry.now }
{
    App::new(alloc, word)
        .no_binary_name(true)
        .disable_help_flag(true)
        .disable_version_flag(true)
}

fn with_name<'a>(alloc: Global, app: App<'a>, id: &'a str) -> Result<App<'a>, AllocError>
    ensures { IfOk result (λ a. app_of a ≡ with_rule (app_of app.entry) (new_rule id.entry.now)) }
{
    app.arg(Arg::new(alloc, id))
}

fn with_option<'a>(alloc: Global, app: App<'a>, id: &'a str) -> Result<App<'a>, AllocError>
    ensures { IfOk result (λ a. app_of a ≡ with_rule (app_of app.entry) (spec.long_rule id.entry.now)) }
{
    app.arg(Arg::new(alloc, id).long(id))
}

/// The options of each run.
fn with_options<'a>(alloc: Global, app: App<'a>) -> Result<App<'a>, AllocError>
    ensures { IfOk result (λ a. app_of a ≡ spec.with_rules (app_of app.entry) spec.run_rules) }
{
    let app = with_option(alloc, app, "cycles")?;
    let app = with_option(alloc, app, "lead")?;
    let app = with_option(alloc, app, "depth")?;
    let app = with_option(alloc, app, "tries")?;
    match with_option(alloc, app, "level") {
        Ok(app) => Ok(app),
        Err(error) => Err(error),
    }
}

fn run_app<'a>(alloc: Global) -> Result<App<'a>, AllocError>
    ensures { IfOk result (λ a. app_of a ≡ spec.app_for Command.Run) }
{
    let app = with_name(alloc, bare(alloc, "run"), "project")?;
    let app = with_option(alloc, app, "workers")?;
    let app = with_option(alloc, app, "pool")?;
    match with_options(alloc, app) {
        Ok(app) => Ok(app),
        Err(error) => Err(error),
    }
}

fn replay_app<'a>(alloc: Global) -> Result<App<'a>, AllocError>
    ensures { IfOk result (λ a. app_of a ≡ spec.app_for Command.Replay) }
{
    let app = with_name(alloc, bare(alloc, "replay"), "project")?;
    let app = with_name(alloc, app, "schedule")?;
    match with_options(alloc, app) {
        Ok(app) => Ok(app),
        Err(error) => Err(error),
    }
}

fn check_app<'a>(alloc: Global) -> Result<App<'a>, AllocError>
    ensures { IfOk result (λ a. app_of a ≡ spec.app_for Command.Check) }
{
    let app = with_name(alloc, bare(alloc, "check"), "project")?;
    match with_name(alloc, app, "report") {
        Ok(app) => Ok(app),
        Err(error) => Err(error),
    }
}

fn demo_app<'a>(alloc: Global) -> Result<App<'a>, AllocError>
    ensures { IfOk result (λ a. app_of a ≡ spec.app_for Command.Demo) }
{
    let app = with_name(alloc, bare(alloc, "demo"), "count")?;
    match with_option(alloc, app, "workers") {
        Ok(app) => Ok(app),
        Err(error) => Err(error),
    }
}

fn renew_app<'a>(alloc: Global) -> Result<App<'a>, AllocError>
    ensures { IfOk result (λ a. app_of a ≡ spec.app_for Command.Renew) }
{
    let app = with_name(alloc, bare(alloc, "renew"), "project")?;
    match with_name(alloc, app, "report") {
        Ok(app) => Ok(app),
        Err(error) => Err(error),
    }
}

/// The command of this word, for a run whose turns are on a file.
fn recorded_app<'a>(alloc: Global, word: &'a str) -> Result<App<'a>, AllocError>
    ensures { IfOk result (λ a. app_of a ≡ spec.app_like Command.Record word.entry.now) }
{
    let app = with_name(alloc, bare(alloc, word), "project")?;
    let app = with_name(alloc, app, "file")?;
    let app = with_option(alloc, app, "workers")?;
    match with_options(alloc, app) {
        Ok(app) => Ok(app),
        Err(error) => Err(error),
    }
}

fn sites_app<'a>(alloc: Global) -> Result<App<'a>, AllocError>
    ensures { IfOk result (λ a. app_of a ≡ spec.app_for Command.Sites) }
{
    let app = with_name(alloc, bare(alloc, "sites"), "project")?;
    let app = with_name(alloc, app, "other")?;
    let app = with_option(alloc, app, "workers")?;
    match with_options(alloc, app) {
        Ok(app) => Ok(app),
        Err(error) => Err(error),
    }
}

fn lint_app<'a>(alloc: Global) -> Result<App<'a>, AllocError>
    ensures { IfOk result (λ a. app_of a ≡ spec.app_for Command.Lint) }
{
    match with_name(alloc, bare(alloc, "lint"), "project") {
        Ok(app) => Ok(app),
        Err(error) => Err(error),
    }
}

/// The command for clap.
pub fn app_for<'a>(alloc: Global, command: Command) -> Result<App<'a>, AllocError>
    ensures { IfOk result (λ a. app_of a ≡ spec.app_for command) }
{
    match command {
        Command::Run => run_app(alloc),
        Command::Replay => replay_app(alloc),
        Command::Check => check_app(alloc),
        Command::Demo => demo_app(alloc),
        Command::Renew => renew_app(alloc),
        Command::Record => recorded_app(alloc, "record"),
        Command::Resume => recorded_app(alloc, "resume"),
        Command::Sites => sites_app(alloc),
        Command::Lint => lint_app(alloc),
    }
}
