//! Names of a file, as a path shows them.

ghost use Rattle.std.specs.Prelude.{◌≡◌, ◌++◌, string_bytes, IfOk, OnOk};
ghost use Rattle.graph_reader.specs.Shown.{IsOneLine, shown_char, shown_name};

use std::alloc::{AllocError, Global};

// Appends a character, so that a message stays one line of printable text.
fn put_char(alloc: Global, text: &mut String, c: char) -> Result<(), AllocError>
    ensures { OnOk result (string_bytes text.new ≡ string_bytes text.old ++ shown_char c) }
{
    if c.is_control() {
        let escape = format!(in alloc; "\\u00{:02x}", c as u32)?;
        return text.push_str(escape.as_str());
    }
    if c == '"' || c == '\\' {
        text.push('\\')?;
    }
    text.push(c)
}

/// A name, as a path shows it.
pub(crate) fn shown_name(alloc: Global, name: &str) -> Result<String, AllocError>
    ensures text { IfOk result (λ text. string_bytes text ≡ shown_name name.now) }
    // So a message is one line, and steers no terminal.
    ensures line { IfOk result (λ text. IsOneLine (string_bytes text)) }
{
    let mut text = String::new(alloc);
    for c in name.chars() {
        put_char(alloc, &mut text, c)?;
    }
    Ok(text)
}
