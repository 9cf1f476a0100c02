//! The texts of arguments among what clap took apart.

ghost use Rattle.std.specs.Prelude.{◌≡◌, option_map};
ghost use Rattle.clap.specs.Matches.{found_of};
ghost use Rattle.clap.specs.Walk.{first_of, rows_of};
ghost use Rattle.program_words.specs.Texts as spec;

use clap::ArgMatches;

/// The text of an argument.
#[tactic(auto, using(crate::proofs::First::first_text))]
pub fn text_of<'a>(matches: &ArgMatches<'a>, id: &str) -> Option<&'a [u8]>
    ensures { option_map (λ t. t.now) result ≡ first_of id.now (rows_of (found_of matches.now)) }
{
    match matches.get_str(id) {
        Some(text) => Some(text.as_bytes()),
        None => None,
    }
}

/// Whether a flag is set.
pub fn is_set(given: Option<&[u8]>) -> bool
    ensures { result ≡ spec.is_set (option_map (λ t. t.now) given.entry) }
{
    match given {
        None => false,
        Some(text) => text == b"true".as_slice(),
    }
}
