//! Texts: names, descriptions, hosts and paths. What is no UTF-8 or too long never gets in.

ghost use Rattle.std.specs.Prelude.{◌≡◌, ◌<◌, ◌≤◌, ◌↔◌, IfOk, IsErrOf, length, IsUtf8, ℕ, []};
ghost use Rattle.lnbd_model.specs.Text.{IsText, text_limit};

use crate::fault::{NoMemory, TextFault};
use std::alloc::Global;
use std::marker::Model;
use std::str::from_utf8;

/// UTF-8 of at most 4,096 bytes (NBD protocol, "Values": strings). Contracts see the list of its bytes.
#[derive(Debug, Drop)]
pub struct Text {
    text: String,
}

impl Model for Text {
    ghost use Rattle.std.specs.Prelude.{List, ℕ, string_bytes};
    ghost use Rattle.lnbd_model.specs.Text.{IsText};

    ghost Value = { List ℕ };

    ghost view = { λ a. string_bytes a.text };

    ghost invariant = { λ a. IsText (string_bytes a.text) };
}

impl Text {
    /// The most bytes that a text has.
    pub const LIMIT: u32 = 4096;

    /// The text of no bytes. It takes no memory.
    pub fn empty(alloc: Global) -> Text
        ensures { result ≡ [] }
    {
        Text {
            text: String::new(alloc),
        }
    }

    /// The text that these bytes spell.
    pub fn from_bytes(alloc: Global, bytes: &[u8]) -> Result<Text, TextFault>
        ensures ok { IfOk result (λ text. text ≡ bytes.now) }
        ensures ok_is_text { IfOk result (λ text. IsText text) }
        ensures not_utf8 { IsErrOf result TextFault.NotUtf8 ↔ (¬ IsUtf8 bytes.now) }
        ensures limit { (n : ℕ) → IsErrOf result (TextFault.TooLong n) → n ≡ text_limit }
        ensures too_long { IsErrOf result (TextFault.TooLong text_limit) ↔ (IsUtf8 bytes.now × text_limit < length bytes.now) }
    {
        let Ok(text) = from_utf8(bytes) else {
            return Err(TextFault::NotUtf8);
        };
        if text.len() > Text::LIMIT as usize {
            return Err(TextFault::TooLong(Text::LIMIT));
        }
        match String::from_str(alloc, text) {
            Ok(text) => Ok(Text { text }),
            Err(_) => Err(TextFault::NoMemory),
        }
    }

    /// The text.
    pub fn as_str(&self) -> &str
        ensures value { result.now ≡ self.now }
        ensures text { IsText self.now }
    {
        self.text.as_str()
    }

    /// The bytes of the text.
    pub fn as_bytes(&self) -> &[u8]
        ensures value { result.now ≡ self.now }
        ensures text { IsText self.now }
    {
        self.text.as_bytes()
    }

    /// How many bytes the text has, at most 4,096.
    pub fn len(&self) -> usize
        ensures length { result ≡ length self.now }
        ensures limit { result ≤ text_limit }
    {
        self.text.len()
    }

    /// The same text again.
    pub fn try_clone(&self, alloc: Global) -> Result<Text, NoMemory>
        ensures { IfOk result (λ text. text ≡ self.now) }
    {
        Ok(Text {
            text: String::from_str(alloc, self.text.as_str())?,
        })
    }
}
