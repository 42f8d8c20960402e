ghost use Rattle.rb_tree.specs.declared.faults.TreeKind.TheVariants.{TooManyLinks, RootName, NameTwice, TooManyColumns};
ghost use Rattle.std.specs.Prelude.{◌≡◌, ◌≤◌, ◌↔◌, IsTrue, IfOk, IfErr, length};
ghost use Rattle.std.specs.List.{Any, sum_by};
ghost use Rattle.std.specs.Option.{option_copied};
ghost use Rattle.rb_tree.specs.Sizes.{bearer_of, columns_of as columns_of_kind, stem_columns as columns_of_stem, PassColumns, HasOwnRootName, IsNamedAsRoot, JointsShare, StemsShare, HaveOwnNames, SharesName};
ghost use Rattle.rb_tree.specs.Faults.{IsLinkPlace, IsOfKind};

use crate::faults::{TreeFault, TreeKind, fault};
use crate::names::share_name;
use crate::order::Stem;
use rb_urdf::{UrdfJoint, UrdfKind, UrdfLink};

/// The most links of a robot.
pub const MAX_LINKS: usize = 256;

/// The most columns of a robot, with those of joints that follow others.
pub const MAX_COLUMNS: u32 = 64;

/// Refuses the link behind the most.
pub(crate) fn check_links(links: &[UrdfLink]) -> Result<(), TreeFault>
    ensures ok { IfOk result (λ _. length links.now ≤ MAX_LINKS) }
    ensures err { IfErr result (λ fault. IsOfKind TooManyLinks fault (IsLinkPlace links.now MAX_LINKS fault.at)) }
{
    match links.get(MAX_LINKS) {
        Some(link) => Err(fault(TreeKind::TooManyLinks, link.place)),
        None => Ok(()),
    }
}

fn columns_of(kind: UrdfKind) -> u32
    ensures { result ≡ columns_of_kind kind }
{
    match kind {
        UrdfKind::Fixed => 0,
        UrdfKind::Revolute | UrdfKind::Prismatic | UrdfKind::Continuous => 1,
        UrdfKind::Planar => 3,
        UrdfKind::Floating => 6,
    }
}

/// The joint that bears the body, where `root` bears the root.
pub(crate) fn bearer<'a>(
    root: &'a UrdfJoint,
    joints: &'a [UrdfJoint],
    stem: &Stem,
) -> Option<&'a UrdfJoint>
    ensures { option_copied result ≡ bearer_of root.now joints.now stem.now.joint }
{
    match stem.joint {
        None => Some(root),
        Some(number) => joints.get(number as usize),
    }
}

/// Refuses the joint whose name a root's joint with columns has.
pub(crate) fn check_root(root: &UrdfJoint, joints: &[UrdfJoint]) -> Result<(), TreeFault>
    ensures ok { IfOk result (λ _. HasOwnRootName root.now joints.now) }
    ensures err { IfErr result (λ fault. IsOfKind RootName fault (IsNamedAsRoot root.now joints.now fault.at)) }
{
    if columns_of(root.kind) == 0 {
        return Ok(());
    }
    for joint in joints {
        if joint.name.as_str() == root.name.as_str() {
            return Err(fault(TreeKind::RootName, joint.place));
        }
    }
    Ok(())
}

/// Whether two joints have a name of entries in common, or of columns. One that follows another has none of its own.
fn joints_share(a: &UrdfJoint, b: &UrdfJoint) -> bool
    ensures { IsTrue result ↔ JointsShare a.now b.now }
{
    a.mimic.is_none() && b.mimic.is_none() && share_name(a, b)
}

/// Whether the joints of two bodies have a name of entries in common, or of columns.
#[tactic(auto, unfolding(crate::specs::Sizes::StemsShare))]
fn stems_share(root: &UrdfJoint, joints: &[UrdfJoint], a: &Stem, b: &Stem) -> bool
    ensures { IsTrue result ↔ StemsShare root.now joints.now a.now b.now }
{
    match (bearer(root, joints, a), bearer(root, joints, b)) {
        (Some(first), Some(second)) => joints_share(first, second),
        _ => false,
    }
}

/// Whether the joint of a body has a name in common with that of one of these bodies.
fn is_shared(root: &UrdfJoint, joints: &[UrdfJoint], stems: &[Stem], stem: &Stem) -> bool
    ensures { IsTrue result ↔ Any (λ earlier. StemsShare root.now joints.now earlier stem.now) stems.now }
{
    stems
        .iter()
        .any(|earlier| stems_share(root, joints, earlier, stem))
}

/// Refuses the first joint, in the order of the bodies, that has a name in common with that of an earlier body.
pub(crate) fn check_names(
    root: &UrdfJoint,
    joints: &[UrdfJoint],
    stems: &[Stem],
) -> Result<(), TreeFault>
    ensures ok { IfOk result (λ _. HaveOwnNames root.now joints.now stems.now) }
    ensures err { IfErr result (λ fault. IsOfKind NameTwice fault (SharesName root.now joints.now stems.now fault.at)) }
{
    for (number, stem) in stems.iter().enumerate() {
        if is_shared(root, joints, &stems[..number], stem) {
            if let Some(joint) = bearer(root, joints, stem) {
                return Err(fault(TreeKind::NameTwice, joint.place));
            }
        }
    }
    Ok(())
}

/// Refuses the first joint, in the order of the bodies, with which there are more columns than the most.
pub(crate) fn check_columns(
    root: &UrdfJoint,
    joints: &[UrdfJoint],
    stems: &[Stem],
) -> Result<(), TreeFault>
    ensures ok { IfOk result (λ _. sum_by (columns_of_stem root.now joints.now) stems.now ≤ MAX_COLUMNS) }
    ensures err { IfErr result (λ fault. IsOfKind TooManyColumns fault (PassColumns root.now joints.now stems.now fault.at)) }
{
    let mut columns: u32 = 0;
    for stem in stems {
        if let Some(joint) = bearer(root, joints, stem) {
            columns += columns_of(joint.kind);
            if MAX_COLUMNS < columns {
                return Err(fault(TreeKind::TooManyColumns, joint.place));
            }
        }
    }
    Ok(())
}
