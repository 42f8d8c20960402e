ghost use Rattle.std.specs.Prelude.{◌≡◌, ◌⊎◌, ◌≤◌, IfOk, IfErr, length};
ghost use Rattle.rb_urdf.specs.Robot.{IsRobot};
ghost use Rattle.rb_tree.specs.declared.sizes.TheConstants.{MAX_LINKS};
ghost use Rattle.rb_tree.specs.Order.{IsOrder, IsAccepted};
ghost use Rattle.rb_tree.specs.Faults.{no_memory};
ghost use Rattle.rb_tree.specs.Refusals.{IsFirstOrderFault, IsFirstNameFault};

use crate::faults::{TreeFault, TreeKind, fault};
use crate::grow::{first_apart, stems_of};
use crate::roots::{check_parents, root_of};
use crate::sizes::{check_columns, check_links, check_names, check_root};
use rb_urdf::{UrdfJoint, UrdfRobot};
use std::alloc::Global;

/// A body in the order: its link, the joint that bears it (none bears the root), both by their numbers from 0 in file order, and the number
/// of its parent body. Bodies are numbered from 1, and the root's parent is the world, 0.
#[derive(Clone, Copy, Debug, PartialEq, Eq)]
pub(crate) struct Stem {
    pub link: u32,
    pub joint: Option<u32>,
    pub parent: u32,
}

/// The bodies of the robot in their order, from the root.
pub(crate) fn order_of(alloc: Global, robot: &UrdfRobot) -> Result<Vec<Stem>, TreeFault>
    ensures kept { IfOk result (λ _. IsRobot robot.now.links robot.now.joints) }
    ensures ok { IfOk result (λ stems. IsOrder robot.now stems.items) }
    ensures few { IfOk result (λ _. length robot.now.links ≤ MAX_LINKS) }
    ensures err { IfErr result (λ fault. (fault ≡ no_memory) ⊎ IsFirstOrderFault robot.now fault) }
{
    let links = robot.links().as_slice();
    let joints = robot.joints().as_slice();
    check_links(links)?;
    check_parents(joints)?;
    let root = root_of(robot)?;
    let stems = stems_of(alloc, joints, links.len(), root)?;
    if let Some(link) = first_apart(stems.as_slice(), links.len()) {
        return Err(fault(TreeKind::Cycle, links[link].place));
    }
    Ok(stems)
}

/// Refuses names and columns of the bodies in their order, from the root, which this joint bears.
pub(crate) fn check_order(
    robot: &UrdfRobot,
    root: &UrdfJoint,
    stems: &[Stem],
) -> Result<(), TreeFault>
    requires ordered { IsOrder robot.now stems.now }
    requires few { length robot.now.links ≤ MAX_LINKS }
    ensures accepted { IfOk result (λ _. IsAccepted robot.now root.now stems.now) }
    ensures err { IfErr result (λ fault. IsFirstNameFault robot.now root.now fault) }
{
    let joints = robot.joints().as_slice();
    check_root(root, joints)?;
    check_names(root, joints, stems)?;
    check_columns(root, joints, stems)
}
