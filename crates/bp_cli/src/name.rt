//! The names of files, as words give them.
ghost use Rattle.std.specs.Prelude.{◌≡◌, ◌↔◌, IsTrue};
ghost use Rattle.bp_cli.specs.Words.{IsFileName};

use std::marker::Model;

/// The name of a file, as a word of the line gives it.
///
/// Contracts see a text.
#[derive(Drop)]
pub struct Name<'a> {
    text: &'a str,
}

impl<'a> Model for Name<'a> {
    ghost use Rattle.bp_cli.specs.Words.{Word};

    ghost Value = { Word };

    ghost view = { λ a. a.text.now };
}

/// Whether a file may have this name: it is not empty, and not like an option.
pub(crate) fn is_file_name(word: &str) -> bool
    ensures { IsTrue result ↔ IsFileName word.now }
{
    match word.as_bytes() {
        [] => false,
        [first, ..] => *first != b'-',
    }
}

impl<'a> Name<'a> {
    /// A word as a name. No line asks for a task with a name that no file may have.
    pub fn new(word: &'a str) -> Name<'a>
        ensures { result ≡ word.now }
    {
        Name { text: word }
    }

    /// The name as a text.
    pub fn text(&self) -> &'a str
        ensures { result.now ≡ self.now }
    {
        self.text
    }
}
