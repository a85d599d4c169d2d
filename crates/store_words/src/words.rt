ghost use Rattle.std.specs.Prelude.{◌≡◌, IfOk, map, string_bytes};
ghost use Rattle.std.specs.List.{list_any};
ghost use Rattle.store_words.specs.Command.{begins_with_dash};
ghost use Rattle.store_words.specs.Words.{mode_of};

use crate::command::{command, mode_matched};
use clap::error::ErrorKind;
use std::alloc::{AllocError, Global};

/// What the program does, by the words after the store's name.
#[derive(Clone, Copy, Debug, PartialEq, Eq)]
pub enum Mode {
    /// One session at a time: the calls of the input are made one after another.
    Step,
    /// A worker for each session, which makes its calls side by side with the others.
    Serve,
    /// The calls of a large script of so many people, whose numbers are drawn from the seed.
    Make { people: u32, seed: u32 },
}

/// The mode that the words are, or None where they are no mode with its arguments.
pub fn mode_of(alloc: Global, words: &[String]) -> Result<Option<Mode>, AllocError>
    ensures { IfOk result (λ mode. mode ≡ mode_of (map string_bytes words.now)) }
{
    if has_dash_word(words) {
        return Ok(None);
    }
    match command(alloc)?.try_get_matches_from(words) {
        Ok(matches) => Ok(mode_matched(&matches)),
        Err(error) if error.kind() == ErrorKind::OutOfMemory => Err(AllocError),
        Err(_) => Ok(None),
    }
}

/// Whether a word begins with `-`. No mode has such a word, and clap would take `--` among a mode's words.
fn has_dash_word(words: &[String]) -> bool
    ensures { result ≡ list_any begins_with_dash (map string_bytes words.now) }
{
    words
        .iter()
        .any(|word| word.as_bytes().first() == Some(&b'-'))
}
