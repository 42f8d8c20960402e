ghost use Rattle.std.specs.Prelude.{◌≡◌};

use rb_num::NumFault;
use rb_trig::AngleRange;
use std::error::Error;
use std::fmt;

/// Why a frame or a joint has no place.
#[derive(Clone, Copy, Debug, PartialEq, Eq)]
pub enum JointFault {
    /// An end of an angle is larger in size than eight radians.
    Range,
    /// The squared length of a cosine and sine, or of a quaternion, shares no number with
    /// 0.999..1.001.
    NotUnit,
    /// A step passes the limit of intervals.
    Size,
}

impl From<AngleRange> for JointFault {
    ghost use Rattle.rb_joint.specs.declared.faults.JointFault.{JointFault};

    ghost from_gives = { λ _ e. e ≡ JointFault.Range };

    fn from(_fault: AngleRange) -> JointFault {
        JointFault::Range
    }
}

impl From<NumFault> for JointFault {
    ghost use Rattle.rb_joint.specs.declared.faults.JointFault.{JointFault};

    ghost from_gives = { λ _ e. e ≡ JointFault.Size };

    fn from(_fault: NumFault) -> JointFault {
        JointFault::Size
    }
}

impl fmt::Display for JointFault {
    ghost use Rattle.std.specs.Prelude.{Some};
    ghost use Rattle.rb_joint.specs.Faults.{word_of};

    ghost output = { λ e. Some (word_of e) };

    fn fmt<W: fmt::Write>(&self, f: &mut fmt::Formatter<W>) -> fmt::Result {
        match self {
            JointFault::Range => write!(f, "Range"),
            JointFault::NotUnit => write!(f, "NotUnit"),
            JointFault::Size => write!(f, "Size"),
        }
    }
}

impl Error for JointFault {}
