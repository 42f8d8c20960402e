// The joint that bears the root of a robot.
ghost use Rattle.std.specs.Prelude.{◌≡◌, IfOk, None, find, bytes_eq, option_copied};
ghost use Rattle.rb_urdf.specs.Robot.{IsRobot};
ghost use Rattle.rb_tree.specs.Order.{IsOrder};
ghost use Rattle.rb_tree.specs.Parts.{bears_root, root_of};
ghost use Rattle.rb_tree.specs.Build.{virtuals_in};

use crate::order::Stem;
use crate::parts::{root_joint, root_kind};
use rb_srdf::{Srdf, Virtual};
use rb_tags::RootKind;
use rb_urdf::{UrdfJoint, UrdfRobot};
use std::alloc::{AllocError, Global};

/// The virtual joints of a file, where it is given.
pub(crate) fn virtuals_of(srdf: Option<&Srdf>) -> &[Virtual]
    ensures { result.now ≡ virtuals_in (option_copied srdf.entry) }
{
    match srdf {
        Some(srdf) => srdf.virtuals().as_slice(),
        None => &[],
    }
}

/// The first virtual joint that bears the link of this name.
fn bearing_link<'a>(virtuals: &'a [Virtual], link: &str) -> Option<&'a Virtual>
    ensures { option_copied result ≡ find (λ virtual. bytes_eq virtual.child link.now) virtuals.now }
{
    virtuals
        .iter()
        .find(|virtual_joint| virtual_joint.child.as_str() == link)
}

/// The first virtual joint that bears the root of the order.
fn virtual_of<'a>(urdf: &UrdfRobot, virtuals: &'a [Virtual], order: &[Stem]) -> Option<&'a Virtual>
    requires kept { IsRobot urdf.now.links urdf.now.joints }
    requires ordered { IsOrder urdf.now order.now }
    ensures { option_copied result ≡ find (bears_root urdf.now) virtuals.now }
{
    let link = &urdf.links().as_slice()[order[0].link as usize];
    bearing_link(virtuals, link.name.as_str())
}

/// The joint that bears the root: of the kind that is asked for, else a virtual joint, else fixed.
#[tactic(auto, unfolding(crate::specs::Parts::root_of))]
pub(crate) fn root_joint_of(
    alloc: Global,
    urdf: &UrdfRobot,
    virtuals: &[Virtual],
    root: Option<RootKind>,
    order: &[Stem],
) -> Result<UrdfJoint, AllocError>
    requires kept { IsRobot urdf.now.links urdf.now.joints }
    requires ordered { IsOrder urdf.now order.now }
    ensures joint { IfOk result (λ joint. joint ≡ root_of urdf.now virtuals.now root) }
    ensures leads { IfOk result (λ joint. joint.mimic ≡ None) }
{
    if root.is_some() {
        return root_joint(alloc, root_kind(root), "root_joint", urdf.place());
    }
    match virtual_of(urdf, virtuals, order) {
        Some(found) => root_joint(
            alloc,
            root_kind(Some(found.kind)),
            found.name.as_str(),
            urdf.place(),
        ),
        None => root_joint(alloc, root_kind(None), "root_joint", urdf.place()),
    }
}
