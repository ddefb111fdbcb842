//! Names.

ghost use Rattle.std.specs.Prelude.{◌≡◌, ◌≤◌, ◌==◌, IfOk};
ghost use Rattle.std.specs.List.{list_all};
ghost use Rattle.std.specs.Str.{bytes_eq};
ghost use Rattle.lu_text.specs.Names as spec;

use std::alloc::{AllocError, Global};
use std::marker::Model;
use std::str;

/// The most bytes that a name has.
pub const MOST_NAME: usize = 32;

/// A name: a letter of ASCII or `_`, followed by letters, digits or `_`, 1 to 32 bytes in all.
#[derive(Debug, Drop)]
pub struct Name {
    text: String,
}

impl Model for Name {
    ghost use Rattle.std.specs.Prelude.{ℕ, List, string_bytes};
    ghost use Rattle.lu_text.specs.Names.{IsName};

    ghost Value = { List ℕ };

    ghost view = { λ n. string_bytes n.text };

    ghost invariant = { λ n. IsName (string_bytes n.text) };
}

impl Name {
    /// The name that these bytes spell.
    ///
    /// Asks for a name: a letter or `_`, followed by letters, digits or `_`, at most 32 bytes in
    /// all.
    ///
    /// # Errors
    ///
    /// There is no memory for the text.
    pub fn new(alloc: Global, word: &[u8]) -> Result<Name, AllocError>
        requires { spec.IsName word.now }
        ensures { IfOk result (λ name. name ≡ word.now) }
    {
        let text = str::from_utf8(word).unwrap();
        let text = String::from_str(alloc, text)?;
        Ok(Name { text })
    }

    /// The name as text.
    pub fn as_str(&self) -> &str
        ensures { result.now ≡ self.now }
    {
        self.text.as_str()
    }

    /// The bytes of the name.
    pub fn as_bytes(&self) -> &[u8]
        ensures { result.now ≡ self.now }
    {
        self.text.as_bytes()
    }

    /// Whether the name is spelled by these bytes.
    pub fn is(&self, word: &[u8]) -> bool
        ensures { result ≡ bytes_eq self.now word.now }
    {
        self.as_bytes() == word
    }
}

fn is_name_start(byte: u8) -> bool
    ensures { result ≡ spec.is_name_start byte }
{
    byte.is_ascii_alphabetic() || byte == b'_'
}

fn is_name_part(byte: u8) -> bool
    ensures { result ≡ spec.is_name_part byte }
{
    is_name_start(byte) || byte.is_ascii_digit()
}

fn are_name_parts(bytes: &[u8]) -> bool
    ensures { result ≡ list_all spec.is_name_part bytes.now }
{
    bytes.iter().all(|byte| is_name_part(*byte))
}

/// Whether a word has the form of a name, of any length.
pub fn has_name_form(word: &[u8]) -> bool
    ensures { result ≡ spec.has_name_form word.now }
{
    match word {
        [] => false,
        [first, rest @ ..] => is_name_start(*first) && are_name_parts(rest),
    }
}

/// Whether a word is longer than a name may be: over 32 bytes.
pub fn is_long(word: &[u8]) -> bool
    ensures { result ≡ spec.is_long word.now }
{
    word.len() > MOST_NAME
}
