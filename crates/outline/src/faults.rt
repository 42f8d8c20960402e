//! What can be wrong: the faults of each crate on the way, nested.
ghost use Rattle.std.specs.Prelude.{◌≡◌, Some};
ghost use Rattle.outline.specs.declared.faults.Fault.TheVariants as Is;
ghost use Rattle.outline.specs.Faults.{fault_text};

use rb_io::{Failed, FileFault};
use rb_num::NumFault;
use rb_tags::TagFault;
use rb_tree::TreeFault;
use rb_urdf::UrdfFault;
use std::alloc::{AllocError, AllocFailed};
use std::error::Error;
use std::fmt;

/// Why there is no outline.
#[derive(Clone, Copy, Debug, PartialEq, Eq)]
pub enum Fault {
    /// The words are not the program's name and the name of a file.
    Usage,
    /// The file is not read whole.
    File(FileFault),
    /// It is no list of tags.
    Tags(TagFault),
    /// Its tags are no robot.
    Urdf(UrdfFault),
    /// Its robot is no tree.
    Tree(TreeFault),
    /// The masses have no sum within the limit of the numbers.
    Mass(NumFault),
    /// The outline is not put whole.
    Output(Failed),
    /// No memory was found for the outline.
    Memory,
}

impl fmt::Display for Fault {
    ghost output = { λ fault. Some (fault_text fault) };

    fn fmt<W: fmt::Write>(&self, f: &mut fmt::Formatter<W>) -> fmt::Result {
        match self {
            Fault::Usage => write!(f, "usage: outline FILE"),
            Fault::File(why) => write!(f, "file: {why}"),
            Fault::Tags(why) => write!(f, "tags: {why}"),
            Fault::Urdf(why) => write!(f, "robot: {why}"),
            Fault::Tree(why) => write!(f, "tree: {why}"),
            Fault::Mass(why) => write!(f, "mass: {why}"),
            Fault::Output(why) => write!(f, "output: {why}"),
            Fault::Memory => write!(f, "no memory"),
        }
    }
}

impl Error for Fault {}

impl From<FileFault> for Fault {
    ghost from_gives = { λ why fault. fault ≡ Is.File why };

    fn from(why: FileFault) -> Fault {
        Fault::File(why)
    }
}

impl From<TagFault> for Fault {
    ghost from_gives = { λ why fault. fault ≡ Is.Tags why };

    fn from(why: TagFault) -> Fault {
        Fault::Tags(why)
    }
}

impl From<UrdfFault> for Fault {
    ghost from_gives = { λ why fault. fault ≡ Is.Urdf why };

    fn from(why: UrdfFault) -> Fault {
        Fault::Urdf(why)
    }
}

impl From<TreeFault> for Fault {
    ghost from_gives = { λ why fault. fault ≡ Is.Tree why };

    fn from(why: TreeFault) -> Fault {
        Fault::Tree(why)
    }
}

impl From<NumFault> for Fault {
    ghost from_gives = { λ why fault. fault ≡ Is.Mass why };

    fn from(why: NumFault) -> Fault {
        Fault::Mass(why)
    }
}

impl From<Failed> for Fault {
    ghost from_gives = { λ why fault. fault ≡ Is.Output why };

    fn from(why: Failed) -> Fault {
        Fault::Output(why)
    }
}

impl From<AllocError> for Fault {
    ghost from_gives = { λ _ fault. fault ≡ Is.Memory };

    fn from(_why: AllocError) -> Fault {
        Fault::Memory
    }
}

impl<T: Drop> From<AllocFailed<T>> for Fault {
    ghost from_gives = { λ _ fault. fault ≡ Is.Memory };

    fn from(_why: AllocFailed<T>) -> Fault {
        Fault::Memory
    }
}
