//! What the words have said so far.

ghost use Rattle.std.specs.Prelude.{◌≡◌, is_some, option_map};
ghost use Rattle.mas_top_words.specs.Words as spec;
ghost use Rattle.mas_top_words.specs.Words.{given_of, said_of};

use crate::table::{Command, Setting, name_count, takes};

/// The texts that were given for settings.
#[derive(Clone, Copy)]
pub struct GivenSettings<'a> {
    pub workers: Option<&'a [u8]>,
    pub pool: Option<&'a [u8]>,
    pub cycles: Option<&'a [u8]>,
    pub lead: Option<&'a [u8]>,
    pub depth: Option<&'a [u8]>,
    pub tries: Option<&'a [u8]>,
    pub level: Option<&'a [u8]>,
}

/// The names and the texts so far, and the setting whose text is the next word.
#[derive(Clone, Copy)]
pub struct WordsSoFar<'a> {
    pub first: Option<&'a [u8]>,
    pub second: Option<&'a [u8]>,
    pub given: GivenSettings<'a>,
    pub awaits: Option<Setting>,
}

/// Whether a text was given for a setting.
fn is_given(given: &GivenSettings<'_>, setting: Setting) -> bool
    ensures { result ≡ is_some (spec.text_for (given_of given.now) setting) }
{
    match setting {
        Setting::Workers => given.workers.is_some(),
        Setting::Pool => given.pool.is_some(),
        Setting::Cycles => given.cycles.is_some(),
        Setting::Lead => given.lead.is_some(),
        Setting::Depth => given.depth.is_some(),
        Setting::Tries => given.tries.is_some(),
        Setting::Level => given.level.is_some(),
    }
}

/// A text is given for a setting.
fn with_text<'a>(given: GivenSettings<'a>, setting: Setting, text: &'a [u8]) -> GivenSettings<'a>
    ensures { given_of result ≡ spec.with_text (given_of given.entry) setting text.now }
{
    let mut given = given;
    match setting {
        Setting::Workers => given.workers = Some(text),
        Setting::Pool => given.pool = Some(text),
        Setting::Cycles => given.cycles = Some(text),
        Setting::Lead => given.lead = Some(text),
        Setting::Depth => given.depth = Some(text),
        Setting::Tries => given.tries = Some(text),
        Setting::Level => given.level = Some(text),
    }
    given
}

/// Before any word.
pub fn silence<'a>() -> WordsSoFar<'a>
    ensures { said_of result ≡ spec.silence }
{
    let given = GivenSettings {
        workers: None,
        pool: None,
        cycles: None,
        lead: None,
        depth: None,
        tries: None,
        level: None,
    };
    WordsSoFar {
        first: None,
        second: None,
        given,
        awaits: None,
    }
}

/// One name more, which the command still wants.
pub fn with_name<'a>(
    command: Command,
    said: WordsSoFar<'a>,
    text: &'a [u8],
) -> Option<WordsSoFar<'a>>
    ensures { option_map said_of result ≡ spec.with_name command (said_of said.entry) text.now }
{
    let count = name_count(command);
    match (said.first, said.second) {
        (None, _) if count > 0 => Some(WordsSoFar {
            first: Some(text),
            second: None,
            given: said.given,
            awaits: said.awaits,
        }),
        (Some(first), None) if count > 1 => Some(WordsSoFar {
            first: Some(first),
            second: Some(text),
            given: said.given,
            awaits: said.awaits,
        }),
        _ => None,
    }
}

/// One option more, which the command has and that was not given.
pub fn with_option<'a>(
    command: Command,
    said: WordsSoFar<'a>,
    setting: Setting,
    text: &'a [u8],
) -> Option<WordsSoFar<'a>>
    ensures { option_map said_of result ≡ spec.with_option command (said_of said.entry) setting text.now }
{
    if !takes(command, setting) || is_given(&said.given, setting) {
        return None;
    }
    Some(WordsSoFar {
        first: said.first,
        second: said.second,
        given: with_text(said.given, setting, text),
        awaits: None,
    })
}
