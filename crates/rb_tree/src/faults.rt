ghost use Rattle.std.specs.Prelude.{◌≡◌, ◌≤◌, length, Some};
ghost use Rattle.rb_tree.specs.declared.faults.WhichFile.TheVariants.{Urdf};
ghost use Rattle.rb_tree.specs.Faults.{no_memory, kind_word, file_word, fault_text};

use std::alloc::{AllocError, AllocFailed};
use std::error::Error;
use std::fmt;

/// What is wrong with the tree of a robot. The place is that of the element that each kind names.
#[derive(Clone, Copy, Debug, PartialEq, Eq)]
pub enum TreeKind {
    /// The robot of the groups and states has another name.
    OtherRobot,
    /// A virtual joint bears no link, or a group or a state names no link and no joint.
    UnknownName,
    /// There are more than `MAX_LINKS` links: the first behind these.
    TooManyLinks,
    /// A joint's child is the child of an earlier joint.
    TwoParents,
    /// Each link is a child, or there is none: the robot.
    NoRoot,
    /// A second link is no child.
    TwoRoots,
    /// A link that no way of joints reaches from the root.
    Cycle,
    /// The joint of the root, which has columns, has the name of this joint.
    RootName,
    /// Two entries of the position, or two columns, have one name: this joint and that of an earlier body have it.
    NameTwice,
    /// With this joint, in the order of the bodies, there are more than `MAX_COLUMNS` columns.
    TooManyColumns,
    /// An angle is too large.
    AngleRange,
    /// The axis of a joint may be zero.
    ZeroAxis,
    /// A number is too large.
    Size,
    /// The base of a chain is neither its tip nor above it.
    BadChain,
    /// A state gives a joint another count of numbers than its kind takes.
    StateValues,
    /// For want of memory: the file `Urdf`, at 0.
    Memory,
}

impl TreeKind {
    /// Its word.
    pub fn word(self) -> &'static str
        ensures word { result.now ≡ kind_word self }
        ensures short { length result.now ≤ 14 }
    {
        match self {
            TreeKind::OtherRobot => "OtherRobot",
            TreeKind::UnknownName => "UnknownName",
            TreeKind::TooManyLinks => "TooManyLinks",
            TreeKind::TwoParents => "TwoParents",
            TreeKind::NoRoot => "NoRoot",
            TreeKind::TwoRoots => "TwoRoots",
            TreeKind::Cycle => "Cycle",
            TreeKind::RootName => "RootName",
            TreeKind::NameTwice => "NameTwice",
            TreeKind::TooManyColumns => "TooManyColumns",
            TreeKind::AngleRange => "AngleRange",
            TreeKind::ZeroAxis => "ZeroAxis",
            TreeKind::Size => "Size",
            TreeKind::BadChain => "BadChain",
            TreeKind::StateValues => "StateValues",
            TreeKind::Memory => "Memory",
        }
    }
}

impl fmt::Display for TreeKind {
    ghost output = { λ kind. Some (kind_word kind) };

    fn fmt<W: fmt::Write>(&self, f: &mut fmt::Formatter<W>) -> fmt::Result {
        f.write_str(self.word())
    }
}

impl Error for TreeKind {}

/// The file that a fault is in.
#[derive(Clone, Copy, Debug, PartialEq, Eq)]
pub enum WhichFile {
    /// That of links and joints.
    Urdf,
    /// That of groups, states and virtual joints.
    Srdf,
}

impl WhichFile {
    /// Its word.
    pub fn word(self) -> &'static str
        ensures { result.now ≡ file_word self }
    {
        match self {
            WhichFile::Urdf => "urdf",
            WhichFile::Srdf => "srdf",
        }
    }
}

impl fmt::Display for WhichFile {
    ghost output = { λ file. Some (file_word file) };

    fn fmt<W: fmt::Write>(&self, f: &mut fmt::Formatter<W>) -> fmt::Result {
        f.write_str(self.word())
    }
}

/// What is wrong, in which file, and the place of the element's `<` in bytes of that file from 0.
#[derive(Clone, Copy, Debug, PartialEq, Eq)]
pub struct TreeFault {
    pub kind: TreeKind,
    pub file: WhichFile,
    pub at: u64,
}

impl fmt::Display for TreeFault {
    ghost output = { λ fault. Some (fault_text fault) };

    fn fmt<W: fmt::Write>(&self, f: &mut fmt::Formatter<W>) -> fmt::Result {
        let TreeFault { kind, file, at } = *self;
        write!(f, "{file}: {kind} at {at}")
    }
}

impl Error for TreeFault {}

impl TreeFault {
    /// A fault of a kind in a file, at a place.
    pub(crate) fn new(file: WhichFile, kind: TreeKind, at: u64) -> Self
        ensures { result ≡ record { kind = kind; file = file; at = at } }
    {
        TreeFault { kind, file, at }
    }
}

/// A fault of the robot's own file.
pub(crate) fn fault(kind: TreeKind, at: u64) -> TreeFault
    ensures { result ≡ record { kind = kind; file = Urdf; at = at } }
{
    TreeFault::new(WhichFile::Urdf, kind, at)
}

impl<T: Drop> From<AllocFailed<T>> for TreeFault {
    ghost from_gives = { λ _ fault. fault ≡ no_memory };

    fn from(_failed: AllocFailed<T>) -> TreeFault {
        fault(TreeKind::Memory, 0)
    }
}

impl From<AllocError> for TreeFault {
    ghost from_gives = { λ _ fault. fault ≡ no_memory };

    fn from(_error: AllocError) -> TreeFault {
        fault(TreeKind::Memory, 0)
    }
}
