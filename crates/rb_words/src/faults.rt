ghost use Rattle.std.specs.Prelude.{◌≡◌, Some};
ghost use Rattle.rb_words.specs.Words.{fault_word};

use std::error::Error;
use std::fmt;

/// What is wrong with the words of a command line. Where more than one is, the first of these is told.
#[derive(Clone, Copy, Debug, PartialEq, Eq)]
pub enum WordsFault {
    /// They do not fit the options, or ask for help.
    Words,
    /// The task is not the word of an order.
    Task,
    /// The kind of the root is not `fixed`, `planar` or `floating`.
    Root,
    /// The gravity is not three numbers or ranges between commas.
    Gravity,
}

impl WordsFault {
    /// Its word.
    pub fn word(self) -> &'static str
        ensures { result.now ≡ fault_word self }
    {
        match self {
            WordsFault::Words => "words",
            WordsFault::Task => "task",
            WordsFault::Root => "root",
            WordsFault::Gravity => "gravity",
        }
    }
}

impl fmt::Display for WordsFault {
    ghost output = { λ fault. Some (fault_word fault) };

    fn fmt<W: fmt::Write>(&self, f: &mut fmt::Formatter<W>) -> fmt::Result {
        f.write_str(self.word())
    }
}

impl Error for WordsFault {}

/// Why words tell no command.
#[derive(Clone, Copy, Debug, PartialEq, Eq)]
pub enum WordsStop {
    /// For what they are.
    Fault(WordsFault),
    /// For want of memory.
    Memory,
}
