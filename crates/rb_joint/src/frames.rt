ghost use Rattle.std.specs.Prelude.{◌≡◌, ◌≢◌, ◌↔◌, IfOk, IfErr, IsErrOf};
ghost use Rattle.rb_joint.specs.Frames.{sine_cosine_of as sine_cosine_by, frame_by, EnclosesFrame, AreAngles};

use crate::faults::JointFault;
use crate::turns::{SineCosine, rotation};
use rb_num::Iv;
use rb_spatial::{Frame, Vec3};
use rb_trig::sin_cos;

/// The sine and cosine of an angle.
#[tactic(auto, unfolding(crate::specs::Frames::sine_cosine_of))]
pub fn sine_cosine_of(angle: Iv) -> Result<SineCosine, JointFault>
    ensures { result ≡ sine_cosine_by angle }
{
    let (sin, cos) = sin_cos(angle)?;
    Ok(SineCosine { sin, cos })
}

/// The frame with the origin `xyz` in metres, turned by the angles `rpy` in radians: about x by roll,
/// of that about y by pitch, of that about z by yaw.
///
/// It is refused with `Range` exactly where an end of an angle is larger in size than eight radians,
/// and else with `Size` where a step of the rotation is refused.
#[tactic(auto, unfolding(crate::specs::Frames::frame_by))]
pub fn frame_of(xyz: &Vec3, rpy: &Vec3) -> Result<Frame, JointFault>
    ensures exact { result ≡ frame_by xyz.now rpy.now }
    ensures encloses { IfOk result (EnclosesFrame xyz.now rpy.now) }
    ensures range { IsErrOf result JointFault.Range ↔ ¬ AreAngles rpy.now }
    ensures faults { IfErr result (λ e. e ≢ JointFault.NotUnit) }
{
    let roll = sine_cosine_of(rpy.x())?;
    let pitch = sine_cosine_of(rpy.y())?;
    let yaw = sine_cosine_of(rpy.z())?;
    let rot = rotation(&roll, &pitch, &yaw)?;
    Ok(Frame { rot, at: *xyz })
}
