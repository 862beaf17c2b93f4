ghost use Rattle.std.specs.Prelude.{◌↔◌, IsTrue};
ghost use Rattle.command_words.specs.Spelling.{IsReserved, IsLetThrough, IsFree};

/// Whether the word is refused wherever it stands.
fn is_reserved(word: &str) -> bool
    ensures { IsTrue result ↔ IsReserved word.now }
{
    word == "--"
        || word == "-h"
        || word == "--help"
        || word == "help"
        || word == "-V"
        || word == "--version"
}

/// Whether clap may take the word although it spells nothing.
fn is_let_through(word: &str) -> bool
    ensures { IsTrue result ↔ IsLetThrough word.now }
{
    word == "--" || (word.starts_with('-') && !word.starts_with("--"))
}

/// Whether clap alone may decide what the word spells.
pub fn is_free(word: &str) -> bool
    ensures { IsTrue result ↔ IsFree word.now }
{
    !is_reserved(word) && !is_let_through(word)
}
