//! The columns of joints. A joint that follows another has its own here.

ghost use Rattle.std.specs.Prelude.{◌≡◌, ◌≤◌, ◌<◌, ◌+◌, IfErr, IsTrue};
ghost use Rattle.rb_joint.specs.Any.{any_column};
ghost use Rattle.rb_joint.specs.Columns.{joint_power};
ghost use Rattle.rb_tree.specs.Columns.{full_at, full_count, first_full};
ghost use Rattle.rb_tree.specs.Numbers.{joint_at};
ghost use Rattle.rb_tree.specs.Robot.{HasBody};
ghost use Rattle.rb_mass.specs.Entries.{HasJointColumn, met_columns as met_columns_of};
ghost use Rattle.rb_mass.specs.Table.{column_of};

use rb_num::{Iv, NumFault};
use rb_spatial::{Force, Motion};
use rb_tree::Robot;

/// Column `k`, from 0, of the joint of a body.
#[derive(Clone, Copy)]
pub(crate) struct JointColumn {
    pub body: u32,
    pub k: usize,
}

/// How many columns the joint of a body has.
#[inline]
#[tactic(auto, using(crate::proofs::Ways::full_is))]
pub(crate) fn joint_columns(robot: &Robot, i: u32) -> usize
    requires { HasBody robot.now i }
    ensures value { result ≡ full_at robot.now.bodies i }
    ensures few { result ≤ 6 }
{
    robot.joint(i).nv()
}

/// The column as a motion.
#[inline]
#[tactic(auto, using(crate::proofs::Ways::full_is))]
pub(crate) fn motion_along(robot: &Robot, at: JointColumn) -> Motion
    requires { HasJointColumn robot.now at.body at.k }
    ensures { result ≡ any_column (joint_at robot.now.bodies at.body) at.k }
{
    robot.joint(at.body).column(at.k)
}

/// The power of a force along it.
#[inline]
#[tactic(auto, using(crate::proofs::Ways::full_is))]
pub(crate) fn power_along(robot: &Robot, at: JointColumn, force: &Force) -> Result<Iv, NumFault>
    requires { HasJointColumn robot.now at.body at.k }
    ensures exact { result ≡ joint_power (joint_at robot.now.bodies at.body) at.k force.now }
    ensures size { IfErr result (λ e. e ≡ NumFault.Size) }
{
    robot.joint(at.body).power(at.k, force)
}

/// Its number among the columns of all joints.
#[inline]
pub(crate) fn full_number(robot: &Robot, at: JointColumn) -> u32
    requires { HasJointColumn robot.now at.body at.k }
    ensures value { result ≡ first_full robot.now.bodies at.body + at.k }
    ensures within { result ≤ full_count robot.now.bodies }
{
    let _columns = (joint_columns(robot, at.body), robot.full());
    robot.first_full(at.body) + at.k as u32
}

/// The number of the column that it is or follows.
#[inline]
pub(crate) fn column_number(robot: &Robot, at: JointColumn) -> u32
    requires { HasJointColumn robot.now at.body at.k }
    ensures { result ≡ column_of robot.now.bodies at.body at.k }
{
    let _columns = (joint_columns(robot, at.body), robot.nv());
    robot.first_column(at.body) + at.k as u32
}

/// With how many columns of a body it makes a pair.
#[inline]
pub(crate) fn met_columns(robot: &Robot, of: JointColumn, a: u32) -> usize
    requires there { HasJointColumn robot.now of.body of.k }
    requires body { HasBody robot.now a }
    ensures value { result ≡ met_columns_of robot.now.bodies of.body of.k a }
    ensures within { result ≤ full_at robot.now.bodies a }
{
    if a == of.body {
        of.k + 1
    } else {
        joint_columns(robot, a)
    }
}
