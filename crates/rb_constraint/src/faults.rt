ghost use Rattle.std.specs.Prelude.{◌≡◌, ◌≤◌, ◌-◌, ◌^◌, min, length, Some};
ghost use Rattle.rb_constraint.specs.Faults.{no_memory, placed_kind, kind_word, fault_text};
ghost use Rattle.rb_constraint.specs.declared.faults.ConKind.TheVariants.{Memory};

use std::alloc::{AllocError, AllocFailed};
use std::error::Error;
use std::fmt;

/// What is wrong with a file of constraints.
#[derive(Clone, Copy, Debug, PartialEq, Eq)]
pub enum ConKind {
    /// The first line that is left is not the header, or there is none: line 0.
    BadHeader,
    /// A line is not one record of twelve fields in UTF-8, or its name is empty.
    BadLine,
    /// A constraint has the name of an earlier one.
    NameTwice,
    /// The axes are not one or more of the letters `xyzabc` in that order, each once.
    BadRows,
    /// A link is none of the robot's, and not the second one left empty.
    UnknownLink,
    /// A number is no bracket, or `mu` may be below 0, or `e` outside 0..1.
    BadNumber,
    /// There are more than `MAX_ROWS` rows so far.
    TooMany,
    /// For want of memory: line 0.
    Memory,
}

impl ConKind {
    /// Its word.
    pub fn word(self) -> &'static str
        ensures word { result.now ≡ kind_word self }
        ensures short { length result.now ≤ 11 }
    {
        match self {
            ConKind::BadHeader => "BadHeader",
            ConKind::BadLine => "BadLine",
            ConKind::NameTwice => "NameTwice",
            ConKind::BadRows => "BadRows",
            ConKind::UnknownLink => "UnknownLink",
            ConKind::BadNumber => "BadNumber",
            ConKind::TooMany => "TooMany",
            ConKind::Memory => "Memory",
        }
    }
}

impl fmt::Display for ConKind {
    ghost output = { λ kind. Some (kind_word kind) };

    fn fmt<W: fmt::Write>(&self, f: &mut fmt::Formatter<W>) -> fmt::Result {
        f.write_str(self.word())
    }
}

impl Error for ConKind {}

/// What is wrong with a file of constraints, and the number of the line from 1, empty lines and remarks counted. A number above 2^32 - 1 is told as that.
#[derive(Clone, Copy, Debug, PartialEq, Eq)]
pub struct ConFault {
    pub kind: ConKind,
    pub line: u32,
}

impl fmt::Display for ConFault {
    ghost output = { λ fault. Some (fault_text fault) };

    fn fmt<W: fmt::Write>(&self, f: &mut fmt::Formatter<W>) -> fmt::Result {
        let ConFault { kind, line } = *self;
        write!(f, "{kind} at line {line}")
    }
}

impl Error for ConFault {}

/// For want of memory.
const NO_MEMORY: ConFault = ConFault {
    kind: ConKind::Memory,
    line: 0,
};

fn line_told(line: u64) -> u32
    ensures { result ≡ min line (2 ^ 32 - 1) }
{
    if line < u64::from(u32::MAX) {
        line as u32
    } else {
        u32::MAX
    }
}

/// A fault of a kind at a line. Want of memory has none.
pub(crate) fn fault(kind: ConKind, line: u64) -> ConFault
    ensures { result ≡ placed_kind kind line }
{
    match kind {
        ConKind::Memory => NO_MEMORY,
        _ => ConFault {
            kind,
            line: line_told(line),
        },
    }
}

impl From<AllocError> for ConKind {
    ghost from_gives = { λ _ e. e ≡ Memory };

    fn from(_e: AllocError) -> ConKind {
        ConKind::Memory
    }
}

impl<T: Drop> From<AllocFailed<T>> for ConKind {
    ghost from_gives = { λ _ e. e ≡ Memory };

    fn from(_e: AllocFailed<T>) -> ConKind {
        ConKind::Memory
    }
}

impl From<AllocError> for ConFault {
    ghost from_gives = { λ _ e. e ≡ no_memory };

    fn from(_e: AllocError) -> ConFault {
        NO_MEMORY
    }
}

impl<T: Drop> From<AllocFailed<T>> for ConFault {
    ghost from_gives = { λ _ e. e ≡ no_memory };

    fn from(_e: AllocFailed<T>) -> ConFault {
        NO_MEMORY
    }
}
