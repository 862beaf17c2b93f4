ghost use Rattle.std.specs.Prelude.{◌↔◌, IsTrue, IfOk, MatchOption, All, map, string_bytes};
ghost use Rattle.command_words.specs.Spelling.{IsFree};
ghost use Rattle.command_words.specs.Meaning.{StandsFor, StandsForNone, asked};

use crate::building::built;
use crate::by_clap::read;
use crate::command::Command;
use crate::options::kind_named;
use crate::spelling::is_free;
use std::alloc::{AllocError, Global};

// Whether own checks refuse no word.
fn are_free(words: &[String]) -> bool
    ensures { IsTrue result ↔ All IsFree (map string_bytes words.now) }
{
    for word in words {
        if !is_free(word.as_str()) {
            return false;
        }
    }
    true
}

/// The command that the words stand for. The words are those of the command line without the program's name.
pub fn command_of(alloc: Global, words: &[String]) -> Result<Option<Command>, AllocError>
    ensures { IfOk result (λ found. MatchOption found
        (StandsForNone (map string_bytes words.now))
        (λ command. StandsFor (map string_bytes words.now) (asked command))) }
{
    if !are_free(words) {
        return Ok(None);
    }
    let [first, rest @ ..] = words else {
        return Ok(None);
    };
    let Some(kind) = kind_named(first.as_str()) else {
        return Ok(None);
    };
    match read(alloc, kind, rest)? {
        Some(given) => built(alloc, kind, given),
        None => Ok(None),
    }
}
