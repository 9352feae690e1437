//! Texts in quotes.

ghost use Rattle.std.specs.Prelude.{◌≡◌, ◌++◌, OnOk, encode_utf8, string_bytes};
ghost use Rattle.lnbd_texts.specs.Quoted.{escape_text, is_escaped, quoted_bytes, quoted_text};

use std::alloc::AllocError;

/// Whether a character is escaped: a control character of ASCII, the quote, the backslash or DEL.
fn is_escaped(letter: char) -> bool
    ensures { result ≡ is_escaped letter }
{
    matches!(letter as u32, 0..0x20 | 0x22 | 0x5c | 0x7f)
}

/// A byte as an escape.
fn push_escape(text: &mut String, byte: u8) -> Result<(), AllocError>
    ensures { OnOk result (string_bytes text.new ≡ string_bytes text.old ++ escape_text byte) }
{
    write!(text, "\\x{byte:02x}")
}

/// A character, escaped where it has to be.
fn push_letter(text: &mut String, letter: char) -> Result<(), AllocError>
    ensures { OnOk result (string_bytes text.new ≡ string_bytes text.old ++ quoted_bytes (encode_utf8 letter)) }
{
    if is_escaped(letter) {
        return push_escape(text, letter as u32 as u8);
    }
    text.push(letter)
}

fn push_letters(text: &mut String, letters: &str) -> Result<(), AllocError>
    ensures { OnOk result (string_bytes text.new ≡ string_bytes text.old ++ quoted_bytes letters.now) }
{
    'letters: for letter in letters.chars() {
        push_letter(text, letter)?;
    }
    Ok(())
}

/// A text between quotes. Control characters, quotes, backslashes and DEL stand there as `\x` and two digits.
pub fn push_quoted(text: &mut String, quoted: &str) -> Result<(), AllocError>
    ensures { OnOk result (string_bytes text.new ≡ string_bytes text.old ++ quoted_text quoted.now) }
{
    text.push_str("\"")?;
    push_letters(text, quoted)?;
    text.push_str("\"")
}
