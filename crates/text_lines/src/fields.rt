ghost use Rattle.std.specs.Prelude.{◌≡◌, ◌++◌, decimal, OnOk};
ghost use Rattle.std.specs.Fmt.{signed_decimal};
ghost use Rattle.text_lines.specs.Fields.{field_text};

use itoa::Buffer;
use std::alloc::AllocError;

/// Appends words.
pub fn put(text: &mut Vec<u8>, words: &str) -> Result<(), AllocError>
    ensures { OnOk result (text.new.items ≡ text.old.items ++ words.now) }
{
    text.extend_from_slice(words.as_bytes())
}

/// Appends a number in decimal digits.
pub fn put_number(text: &mut Vec<u8>, number: u64) -> Result<(), AllocError>
    ensures { OnOk result (text.new.items ≡ text.old.items ++ decimal number) }
{
    text.extend_from_slice(Buffer::new().format(number).as_bytes())
}

/// Appends a number in decimal digits, with a minus where it is negative.
pub fn put_signed(text: &mut Vec<u8>, value: i64) -> Result<(), AllocError>
    ensures { OnOk result (text.new.items ≡ text.old.items ++ signed_decimal value) }
{
    text.extend_from_slice(Buffer::new().format(value).as_bytes())
}

/// Appends words, and a number behind them.
pub fn put_field(text: &mut Vec<u8>, words: &str, number: u64) -> Result<(), AllocError>
    ensures { OnOk result (text.new.items ≡ text.old.items ++ field_text words.now number) }
{
    put(text, words)?;
    put_number(text, number)
}
