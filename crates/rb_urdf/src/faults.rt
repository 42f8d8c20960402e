ghost use Rattle.std.specs.Prelude.{◌≡◌, ◌≤◌, length, Some};
ghost use Rattle.rb_urdf.specs.Faults.{no_memory, placed_kind, kind_word, fault_text};
ghost use Rattle.rb_urdf.specs.declared.faults.UrdfFaultKind.TheVariants.{Memory};

use std::alloc::{AllocError, AllocFailed};
use std::error::Error;
use std::fmt;

/// What is wrong with the tags of a robot. The place of each but `Memory` is that of the element that it names.
#[derive(Clone, Copy, Debug, PartialEq, Eq)]
pub enum UrdfFaultKind {
    /// The outermost element is not `robot`.
    NoRobot,
    /// The name of an element begins with `xacro:`.
    Xacro,
    /// A robot, a link or a joint has no name, or an empty one.
    NoName,
    /// A link or a joint has the name of an earlier one.
    NameTwice,
    /// A number of a link or a joint is missing in its text, or is no bracket.
    BadNumber,
    /// The lower end of a link's mass is below 0.
    NegativeMass,
    /// The type of a joint is none of the six.
    BadType,
    /// A joint has no `parent` with a `link`.
    NoParent,
    /// A joint has no `child` with a `link`.
    NoChild,
    /// The parent or the child of a joint is no link.
    UnknownLink,
    /// The axis of a planar joint is not exactly 0, 0, 1.
    PlanarAxis,
    /// A mimic names no joint.
    MimicUnknown,
    /// A mimic names a joint that has a mimic.
    MimicChain,
    /// A mimic names a joint that is neither revolute nor prismatic, or its own joint is fixed, planar or floating.
    MimicMaster,
    /// For want of memory, at place 0.
    Memory,
}

impl UrdfFaultKind {
    /// Its word.
    pub fn word(self) -> &'static str
        ensures word { result.now ≡ kind_word self }
        ensures short { length result.now ≤ 12 }
    {
        match self {
            UrdfFaultKind::NoRobot => "NoRobot",
            UrdfFaultKind::Xacro => "Xacro",
            UrdfFaultKind::NoName => "NoName",
            UrdfFaultKind::NameTwice => "NameTwice",
            UrdfFaultKind::BadNumber => "BadNumber",
            UrdfFaultKind::NegativeMass => "NegativeMass",
            UrdfFaultKind::BadType => "BadType",
            UrdfFaultKind::NoParent => "NoParent",
            UrdfFaultKind::NoChild => "NoChild",
            UrdfFaultKind::UnknownLink => "UnknownLink",
            UrdfFaultKind::PlanarAxis => "PlanarAxis",
            UrdfFaultKind::MimicUnknown => "MimicUnknown",
            UrdfFaultKind::MimicChain => "MimicChain",
            UrdfFaultKind::MimicMaster => "MimicMaster",
            UrdfFaultKind::Memory => "Memory",
        }
    }
}

impl fmt::Display for UrdfFaultKind {
    ghost output = { λ kind. Some (kind_word kind) };

    fn fmt<W: fmt::Write>(&self, f: &mut fmt::Formatter<W>) -> fmt::Result {
        f.write_str(self.word())
    }
}

impl Error for UrdfFaultKind {}

/// What is wrong, and the place of the element's `<` in bytes of the file from 0.
#[derive(Clone, Copy, Debug, PartialEq, Eq)]
pub struct UrdfFault {
    pub kind: UrdfFaultKind,
    pub at: u64,
}

impl fmt::Display for UrdfFault {
    ghost output = { λ fault. Some (fault_text fault) };

    fn fmt<W: fmt::Write>(&self, f: &mut fmt::Formatter<W>) -> fmt::Result {
        let UrdfFault { kind, at } = *self;
        write!(f, "{kind} at {at}")
    }
}

impl Error for UrdfFault {}

/// For want of memory.
pub(crate) const NO_MEMORY: UrdfFault = UrdfFault {
    kind: UrdfFaultKind::Memory,
    at: 0,
};

/// A fault of a kind at a place. Want of memory has none.
pub(crate) fn fault(kind: UrdfFaultKind, place: u64) -> UrdfFault
    ensures { result ≡ placed_kind kind place }
{
    match kind {
        UrdfFaultKind::Memory => NO_MEMORY,
        _ => UrdfFault { kind, at: place },
    }
}

impl From<AllocError> for UrdfFaultKind {
    ghost from_gives = { λ _ e. e ≡ Memory };

    fn from(_e: AllocError) -> UrdfFaultKind {
        UrdfFaultKind::Memory
    }
}

impl<T: Drop> From<AllocFailed<T>> for UrdfFaultKind {
    ghost from_gives = { λ _ e. e ≡ Memory };

    fn from(_e: AllocFailed<T>) -> UrdfFaultKind {
        UrdfFaultKind::Memory
    }
}

impl From<AllocError> for UrdfFault {
    ghost from_gives = { λ _ e. e ≡ no_memory };

    fn from(_e: AllocError) -> UrdfFault {
        NO_MEMORY
    }
}

impl<T: Drop> From<AllocFailed<T>> for UrdfFault {
    ghost from_gives = { λ _ e. e ≡ no_memory };

    fn from(_e: AllocFailed<T>) -> UrdfFault {
        NO_MEMORY
    }
}
