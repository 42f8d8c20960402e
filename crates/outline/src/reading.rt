//! The robot that a file's bytes hold.
ghost use Rattle.std.specs.Prelude.{◌⊎◌, IfOk, IfErr};
ghost use Rattle.outline.specs.Reading.{IsMemory, IsRobotOf, HasFault};

use crate::faults::Fault;
use rb_tags::read_tags;
use rb_tree::Robot;
use rb_urdf::read_urdf;
use std::alloc::Global;

/// The robot of these bytes, with a root that does not move: from bytes to tags, to links and joints, and to the tree of its bodies.
pub(crate) fn robot_in(alloc: Global, bytes: &[u8]) -> Result<Robot, Fault>
    ensures ok { IfOk result (IsRobotOf bytes.now) }
    ensures err { IfErr result (λ fault. IsMemory fault ⊎ HasFault bytes.now fault) }
{
    let tags = read_tags(alloc, bytes)?;
    let urdf = read_urdf(alloc, &tags)?;
    let robot = Robot::build(alloc, &urdf, None, None)?;
    Ok(robot)
}
