ghost use Rattle.rb_tree.specs.declared.faults.TreeKind.TheVariants.{TwoParents};
ghost use Rattle.std.specs.Prelude.{◌≡◌, ◌<◌, ◌≤◌, ◌↔◌, ℕ, IsTrue, IfOk, IfErr, MatchOption, length, take};
ghost use Rattle.rb_tree.specs.Roots.{IsChild, HaveOneParent, HasTwoParents, HasNoRoot, HasTwoRoots, HasRootBelow, HasRootFault, IsRootFrom};
ghost use Rattle.rb_tree.specs.Faults.{IsOfKind};

use crate::faults::{TreeFault, TreeKind, fault};
use rb_urdf::{UrdfJoint, UrdfRobot};

/// Whether the link is the child of a joint.
fn is_child(joints: &[UrdfJoint], link: usize) -> bool
    ensures { IsTrue result ↔ IsChild joints.now link }
{
    joints.iter().any(|joint| joint.child as usize == link)
}

/// Refuses the first joint whose child is the child of an earlier joint.
pub(crate) fn check_parents(joints: &[UrdfJoint]) -> Result<(), TreeFault>
    ensures ok { IfOk result (λ _. HaveOneParent joints.now) }
    ensures err { IfErr result (λ fault. IsOfKind TwoParents fault (HasTwoParents joints.now fault.at)) }
{
    for (number, joint) in joints.iter().enumerate() {
        if is_child(&joints[..number], joint.child as usize) {
            return Err(fault(TreeKind::TwoParents, joint.place));
        }
    }
    Ok(())
}

/// The first link from this number on that is no child.
fn next_root(joints: &[UrdfJoint], from: usize, links: usize) -> Option<usize>
    ensures none { MatchOption result ((link : ℕ) → from ≤ link → link < links → IsChild joints.now link) (λ root. IsRootFrom joints.now from links root) }
{
    for link in from..links {
        if !is_child(joints, link) {
            return Some(link);
        }
    }
    None
}

/// The one link that is no child.
pub(crate) fn root_of(robot: &UrdfRobot) -> Result<usize, TreeFault>
    ensures ok { IfOk result (λ root. HasRootBelow robot.now.joints (length robot.now.links) root) }
    ensures err { IfErr result (λ fault. HasRootFault robot.now fault) }
{
    let links = robot.links().as_slice();
    let joints = robot.joints().as_slice();
    let Some(root) = next_root(joints, 0, links.len()) else {
        return Err(fault(TreeKind::NoRoot, robot.place()));
    };
    match next_root(joints, root + 1, links.len()) {
        Some(second) => Err(fault(TreeKind::TwoRoots, links[second].place)),
        None => Ok(root),
    }
}
