//! Reading words.

ghost use Rattle.std.specs.Prelude.{◌≡◌, ◌≤◌, map, length, string_bytes, option_map, Some, MatchOption, IfSome};
ghost use Rattle.std.specs.List.{prefix_len};
ghost use Rattle.mas_top_words.specs.Asked.{IsPermitted, asked_of};
ghost use Rattle.mas_top_words.specs.Plain.{AskOnlyFor, AskForNothing};
ghost use Rattle.mas_top_words.specs.Words as spec;
ghost use Rattle.mas_top_words.specs.Words.{said_of};

use crate::asked::Asked;
use crate::said::{WordsSoFar, silence, with_name, with_option};
use crate::table::{Command, command_of, setting_of};
use crate::values::asked_by;

/// How many bytes stand before the first `=`.
fn key_len(word: &[u8]) -> usize
    ensures len { result ≡ prefix_len spec.is_key word.now }
    ensures within { result ≤ length word.now }
{
    let mut count = 0;
    let mut rest = word;
    'bytes: while let Some((b, after)) = rest.split_first() {
        if *b == b'=' {
            return count;
        }
        count += 1;
        rest = after;
    }
    count
}

/// A word that begins with `-`, where no text is awaited.
fn option_said<'a>(command: Command, said: WordsSoFar<'a>, word: &'a [u8]) -> Option<WordsSoFar<'a>>
    ensures { option_map said_of result ≡ spec.option_said command (said_of said.entry) word.now }
{
    let (key, rest) = word.split_at(key_len(word));
    let setting = setting_of(key)?;
    match rest {
        [] => Some(WordsSoFar {
            first: said.first,
            second: said.second,
            given: said.given,
            awaits: Some(setting),
        }),
        [_, text @ ..] => {
            if text.is_empty() {
                return None;
            }
            with_option(command, said, setting, text)
        }
    }
}

/// One word more.
fn word_said<'a>(command: Command, said: WordsSoFar<'a>, word: &'a [u8]) -> Option<WordsSoFar<'a>>
    ensures { option_map said_of result ≡ spec.word_said command (said_of said.entry) word.now }
{
    let [first, ..] = word else {
        return None;
    };
    let is_dashed = *first == b'-';
    match said.awaits {
        Some(setting) => {
            if is_dashed {
                return None;
            }
            with_option(command, said, setting, word)
        }
        None => {
            if is_dashed {
                return option_said(command, said, word);
            }
            with_name(command, said, word)
        }
    }
}

/// One word more, where those before it are read.
fn next_said<'a>(
    command: Command,
    said: Option<WordsSoFar<'a>>,
    word: &'a String,
) -> Option<WordsSoFar<'a>>
    ensures { option_map said_of result ≡ spec.next_said command (option_map said_of said.entry) (string_bytes word.now) }
{
    word_said(command, said?, word.as_str().as_bytes())
}

/// What the words after the command say.
fn words_said<'a>(command: Command, words: &'a [String]) -> Option<WordsSoFar<'a>>
    ensures { option_map said_of result ≡ spec.words_said command (Some spec.silence) (map string_bytes words.now) }
{
    let mut said = Some(silence());
    let mut rest = words;
    'words: while let Some((word, after)) = rest.split_first() {
        said = next_said(command, said, word);
        rest = after;
    }
    said
}

fn find_asked<'a>(words: &'a [String]) -> Option<Asked<'a>>
    ensures { option_map asked_of result ≡ spec.asked (map string_bytes words.now) }
{
    let [word, rest @ ..] = words else {
        return None;
    };
    let command = command_of(word.as_str().as_bytes())?;
    let said = words_said(command, rest)?;
    if said.awaits.is_some() {
        return None;
    }
    asked_by(command, &said)
}

/// What the words ask for; None exactly where they are not read.
pub fn read(words: &[String]) -> Option<Asked<'_>>
    ensures value { option_map asked_of result ≡ spec.asked (map string_bytes words.now) }
    ensures plain { let texts = map string_bytes words.now in MatchOption result (AskForNothing texts) (λ a. AskOnlyFor texts (asked_of a)) }
    ensures within { IfSome result (λ a. IsPermitted (asked_of a)) }
{
    find_asked(words)
}
