ghost use Rattle.std.specs.Prelude.{◌≡◌};

use rb_joint::JointFault;
use rb_num::NumFault;
use rb_trig::AxisFault;
use std::error::Error;
use std::fmt;

/// Why a body has no constants.
#[derive(Clone, Copy, Debug, PartialEq, Eq)]
pub enum BodyFault {
    /// An end of an angle of a frame is larger in size than eight radians.
    AngleRange,
    /// The axis of a joint may be zero.
    ZeroAxis,
    /// A step passes the limit of intervals.
    Size,
}

impl BodyFault {
    ghost use Rattle.rb_body.specs.Faults.{word_of};

    /// Its word.
    pub fn word(self) -> &'static str
        ensures { result.now ≡ word_of self }
    {
        match self {
            BodyFault::AngleRange => "AngleRange",
            BodyFault::ZeroAxis => "ZeroAxis",
            BodyFault::Size => "Size",
        }
    }
}

impl fmt::Display for BodyFault {
    ghost use Rattle.std.specs.Prelude.{Some};
    ghost use Rattle.rb_body.specs.Faults.{word_of};

    ghost output = { λ fault. Some (word_of fault) };

    fn fmt<W: fmt::Write>(&self, f: &mut fmt::Formatter<W>) -> fmt::Result {
        f.write_str(self.word())
    }
}

impl Error for BodyFault {}

impl From<JointFault> for BodyFault {
    ghost use Rattle.rb_body.specs.Faults.{of_frame};

    ghost from_gives = { λ f e. e ≡ of_frame f };

    fn from(fault: JointFault) -> BodyFault {
        match fault {
            JointFault::Range => BodyFault::AngleRange,
            JointFault::Size | JointFault::NotUnit => BodyFault::Size,
        }
    }
}

impl From<AxisFault> for BodyFault {
    ghost use Rattle.rb_body.specs.Faults.{of_axis};

    ghost from_gives = { λ f e. e ≡ of_axis f };

    fn from(fault: AxisFault) -> BodyFault {
        match fault {
            AxisFault::Size => BodyFault::Size,
            AxisFault::ZeroAxis => BodyFault::ZeroAxis,
        }
    }
}

impl From<NumFault> for BodyFault {
    ghost use Rattle.rb_body.specs.declared.faults.BodyFault.{BodyFault};

    ghost from_gives = { λ _ e. e ≡ BodyFault.Size };

    fn from(_fault: NumFault) -> BodyFault {
        BodyFault::Size
    }
}
