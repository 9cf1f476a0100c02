//! How much an outcome shows of each agent.

ghost use Rattle.std.specs.Prelude.{◌≡◌};
ghost use Rattle.mas_explore_top.specs.Explored as spec;

use mas_free::view::View;
use mas_mind::mind::Level;

/// Of each agent its end alone, or also what it says, or also what it does.
#[derive(Clone, Copy)]
pub enum Detail {
    Ends,
    Say,
    Acts,
}

/// How much an outcome tells of the lines of an agent.
pub fn view_of(detail: Detail) -> View
    ensures { result ≡ spec.view_of detail }
{
    match detail {
        Detail::Ends => View::Ends,
        Detail::Say | Detail::Acts => View::Lines,
    }
}

/// The level at which agents are opened.
pub fn level_of(detail: Detail) -> Level
    ensures { result ≡ spec.level_of detail }
{
    match detail {
        Detail::Ends | Detail::Say => Level::Say,
        Detail::Acts => Level::Acts,
    }
}
