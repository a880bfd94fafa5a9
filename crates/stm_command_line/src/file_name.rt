//! The name of a file.

ghost use Rattle.std.specs.Prelude.{◌≡◌};

use std::marker::Model;

/// The name of a file, which contracts see as its text.
#[derive(Drop)]
pub struct FileName<'a> {
    text: &'a str,
}

impl<'a> Model for FileName<'a> {
    ghost use Rattle.std.specs.Prelude.{ℕ, List};

    ghost Value = { List ℕ };

    ghost view = { λ name. name.text.now };
}

impl<'a> FileName<'a> {
    /// The name with this text.
    pub fn new(text: &'a str) -> FileName<'a>
        ensures { result ≡ text.entry.now }
    {
        FileName { text }
    }

    /// The text of the name.
    pub fn as_str(&self) -> &'a str
        ensures { result.now ≡ self.now }
    {
        self.text
    }
}
