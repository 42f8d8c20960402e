ghost use Rattle.std.specs.Prelude.{◌≡◌, ◌≤◌, length, Some};
ghost use Rattle.rb_srdf.specs.Faults.{no_memory, placed_kind, kind_word, fault_text};
ghost use Rattle.rb_srdf.specs.declared.faults.SrdfFaultKind.TheVariants.{Memory};

use std::alloc::{AllocError, AllocFailed};
use std::error::Error;
use std::fmt;

/// What is wrong with the tags of a robot's groups, states and virtual joints. The place of each but `Memory` is that of the element that it names.
#[derive(Clone, Copy, Debug, PartialEq, Eq)]
pub enum SrdfFaultKind {
    /// The outermost element is not `robot`.
    NoRobot,
    /// A robot, a group, a state or a virtual joint has no name, or an empty one, or does not name what it has to.
    NoName,
    /// A group or a virtual joint has the name of an earlier one, or a state the name and the group of an earlier one.
    NameTwice,
    /// The numbers of a joint in a state are missing, or are no brackets.
    BadNumber,
    /// The type of a virtual joint is none of the three.
    BadType,
    /// A group or a state names a group that is none.
    UnknownName,
    /// A group holds itself, through groups that it holds.
    GroupLoop,
    /// For want of memory, at place 0.
    Memory,
}

impl SrdfFaultKind {
    /// Its word.
    pub fn word(self) -> &'static str
        ensures word { result.now ≡ kind_word self }
        ensures short { length result.now ≤ 11 }
    {
        match self {
            SrdfFaultKind::NoRobot => "NoRobot",
            SrdfFaultKind::NoName => "NoName",
            SrdfFaultKind::NameTwice => "NameTwice",
            SrdfFaultKind::BadNumber => "BadNumber",
            SrdfFaultKind::BadType => "BadType",
            SrdfFaultKind::UnknownName => "UnknownName",
            SrdfFaultKind::GroupLoop => "GroupLoop",
            SrdfFaultKind::Memory => "Memory",
        }
    }
}

impl fmt::Display for SrdfFaultKind {
    ghost output = { λ kind. Some (kind_word kind) };

    fn fmt<W: fmt::Write>(&self, f: &mut fmt::Formatter<W>) -> fmt::Result {
        f.write_str(self.word())
    }
}

impl Error for SrdfFaultKind {}

/// What is wrong, and the place of the element's `<` in bytes of the file from 0.
#[derive(Clone, Copy, Debug, PartialEq, Eq)]
pub struct SrdfFault {
    pub kind: SrdfFaultKind,
    pub at: u64,
}

impl fmt::Display for SrdfFault {
    ghost output = { λ fault. Some (fault_text fault) };

    fn fmt<W: fmt::Write>(&self, f: &mut fmt::Formatter<W>) -> fmt::Result {
        let SrdfFault { kind, at } = *self;
        write!(f, "{kind} at {at}")
    }
}

impl Error for SrdfFault {}

/// For want of memory.
pub(crate) const NO_MEMORY: SrdfFault = SrdfFault {
    kind: SrdfFaultKind::Memory,
    at: 0,
};

/// A fault of a kind at a place. Want of memory has none.
pub(crate) fn fault(kind: SrdfFaultKind, place: u64) -> SrdfFault
    ensures { result ≡ placed_kind kind place }
{
    match kind {
        SrdfFaultKind::Memory => NO_MEMORY,
        _ => SrdfFault { kind, at: place },
    }
}

impl From<AllocError> for SrdfFaultKind {
    ghost from_gives = { λ _ e. e ≡ Memory };

    fn from(_e: AllocError) -> SrdfFaultKind {
        SrdfFaultKind::Memory
    }
}

impl<T: Drop> From<AllocFailed<T>> for SrdfFaultKind {
    ghost from_gives = { λ _ e. e ≡ Memory };

    fn from(_e: AllocFailed<T>) -> SrdfFaultKind {
        SrdfFaultKind::Memory
    }
}

impl From<AllocError> for SrdfFault {
    ghost from_gives = { λ _ e. e ≡ no_memory };

    fn from(_e: AllocError) -> SrdfFault {
        NO_MEMORY
    }
}

impl<T: Drop> From<AllocFailed<T>> for SrdfFault {
    ghost from_gives = { λ _ e. e ≡ no_memory };

    fn from(_e: AllocFailed<T>) -> SrdfFault {
        NO_MEMORY
    }
}
