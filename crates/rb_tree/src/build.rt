ghost use Rattle.std.specs.Prelude.{◌≡◌, ◌⊎◌, ◌↔◌, ◌≤◌, IsTrue, IfOk, IfErr, IfSome, MatchOption, Some, None, length, option_copied};
ghost use Rattle.std.specs.List.{AllByRecursion, AllZip};
ghost use Rattle.rb_tags.specs.declared.tag.TheConstants.{MAX_TAGS};
ghost use Rattle.rb_tree.specs.declared.sizes.TheConstants.{MAX_LINKS};
ghost use Rattle.rb_tree.specs.Order.{IsOrder, IsAccepted};
ghost use Rattle.rb_tree.specs.Robot.{AreBodies, IsGroupKept, IsStateKept};
ghost use Rattle.rb_tree.specs.Groups.{AreGroupsOf, HasGroupFault};
ghost use Rattle.rb_tree.specs.States.{states_made};
ghost use Rattle.rb_tree.specs.Faults.{no_memory as no_memory_fault};
ghost use Rattle.rb_tree.specs.Build.{Follows, BearsBody, IsBorneBy, IsMimicOrdered, groups_in, states_in, virtuals_in, IsStemThere, IsBodyOf, IsBuilt};
ghost use Rattle.rb_tree.specs.Refusals.{IsRefused, HasConstantFault, HasFault};
ghost use Rattle.rb_result.specs.Steps.{Gives};

use crate::bearing::{root_joint_of, virtuals_of};
use crate::faults::TreeFault;
use crate::groups::{BodyGroup, groups_of};
use crate::order::{Stem, check_order, order_of};
use crate::parts::body_of;
use crate::robot::{Body, Mimic, Robot};
use crate::semantics::check_semantics;
use crate::sizes::bearer;
use crate::states::{NamedState, states_of};
use rb_srdf::Srdf;
use rb_tags::{RootKind, Text};
use rb_urdf::{UrdfJoint, UrdfMimic, UrdfRobot};
use std::alloc::Global;

/// Whether the joint of this number bears the body.
fn is_borne_by(stem: &Stem, number: u32) -> bool
    ensures { IsTrue result ↔ (stem.now.joint ≡ Some number) }
{
    stem.joint == Some(number)
}

/// The number of the body that the joint of this number bears.
fn body_borne_by(order: &[Stem], number: u32) -> Option<u32>
    requires few { length order.now ≤ MAX_LINKS }
    ensures { MatchOption result (BearsBody order.now number → ⊥) (IsBorneBy order.now number) }
{
    for (place, stem) in order.iter().enumerate() {
        if is_borne_by(stem, number) {
            return Some(place as u32 + 1);
        }
    }
    None
}

/// The body that a joint follows with its own, where it follows a joint.
fn mimic_of(order: &[Stem], followed: Option<UrdfMimic>) -> Option<Mimic>
    requires few { length order.now ≤ MAX_LINKS }
    requires borne { IfSome followed (λ mimic. BearsBody order.now mimic.master) }
    ensures follows { Follows order.now followed result }
    ensures ordered { IsMimicOrdered result }
{
    let followed = followed?;
    let mimic = Mimic {
        master: body_borne_by(order, followed.master)?,
        multiplier: followed.multiplier,
        offset: followed.offset,
    };
    mimic.in_order();
    Some(mimic)
}

/// The body of a place in the order, where `root` bears the root.
fn body_at(
    alloc: Global,
    urdf: &UrdfRobot,
    root: &UrdfJoint,
    order: &[Stem],
    stem: &Stem,
) -> Result<Body, TreeFault>
    requires ordered { IsOrder urdf.now order.now }
    requires few { length order.now ≤ MAX_LINKS }
    requires leads { root.now.mimic ≡ None }
    requires there { IsStemThere urdf.now stem.now }
    ensures ok { IfOk result (IsBodyOf urdf.now root.now order.now stem.now) }
    ensures err { IfErr result (λ fault. (fault ≡ no_memory_fault) ⊎ IsRefused urdf.now root.now stem.now fault) }
{
    let link = &urdf.links().as_slice()[stem.link as usize];
    match bearer(root, urdf.joints().as_slice(), stem) {
        Some(joint) => {
            let mimic = mimic_of(order, joint.mimic);
            body_of(alloc, stem.parent, joint, link, mimic)
        }
        None => unreachable!(),
    }
}

/// The bodies of the order.
fn bodies_of(
    alloc: Global,
    urdf: &UrdfRobot,
    root: &UrdfJoint,
    order: &[Stem],
) -> Result<Vec<Body>, TreeFault>
    requires ordered { IsOrder urdf.now order.now }
    requires accepted { IsAccepted urdf.now root.now order.now }
    requires leads { root.now.mimic ≡ None }
    ensures ok { IfOk result (λ bodies. AllZip (IsBodyOf urdf.now root.now order.now) order.now bodies.items) }
    ensures err { IfErr result (λ fault. (fault ≡ no_memory_fault) ⊎ HasConstantFault urdf.now root.now fault) }
{
    let mut bodies = Vec::new(alloc);
    for stem in order {
        bodies.push(body_at(alloc, urdf, root, order, stem)?)?;
    }
    Ok(bodies)
}

/// The groups of a file, where it is given.
fn groups_for(
    alloc: Global,
    bodies: &[Body],
    srdf: Option<&Srdf>,
) -> Result<Vec<BodyGroup>, TreeFault>
    requires { AreBodies bodies.now }
    ensures ok { IfOk result (λ groups. AreGroupsOf bodies.now (virtuals_in (option_copied srdf.entry)) (groups_in (option_copied srdf.entry)) groups.items) }
    ensures kept { IfOk result (λ groups. AllByRecursion (IsGroupKept bodies.now) groups.items) }
    ensures few { IfOk result (λ groups. length groups.items ≤ MAX_TAGS) }
    ensures err { IfErr result (λ fault. (fault ≡ no_memory_fault) ⊎ HasGroupFault bodies.now (virtuals_in (option_copied srdf.entry)) (groups_in (option_copied srdf.entry)) fault) }
{
    match srdf {
        Some(srdf) => groups_of(alloc, bodies, srdf),
        None => Ok(Vec::new(alloc)),
    }
}

/// The states of a file, where it is given.
fn states_for(
    alloc: Global,
    bodies: &[Body],
    srdf: Option<&Srdf>,
) -> Result<Vec<NamedState>, TreeFault>
    requires { AreBodies bodies.now }
    ensures kept { IfOk result (λ states. AllByRecursion (IsStateKept bodies.now) states.items) }
    ensures gives { Gives no_memory_fault (λ states. states.items) result (states_made bodies.now (virtuals_in (option_copied srdf.entry)) (states_in (option_copied srdf.entry))) }
{
    match srdf {
        Some(srdf) => states_of(alloc, bodies, srdf),
        None => Ok(Vec::new(alloc)),
    }
}

impl Robot {
    /// The robot of a robot file, with the groups, the states and the virtual joints of another file where it is given. The root is borne by a joint of the
    /// kind that is asked for, named `root_joint`; else by the first virtual joint that bears it; else it is fixed.
    pub fn build(
        alloc: Global,
        urdf: &UrdfRobot,
        srdf: Option<&Srdf>,
        root: Option<RootKind>,
    ) -> Result<Robot, TreeFault>
        ensures ok { IfOk result (IsBuilt (record { urdf = urdf.now; srdf = option_copied srdf.entry; root = root })) }
        ensures err { IfErr result (λ fault. (fault ≡ no_memory_fault) ⊎ HasFault (record { urdf = urdf.now; srdf = option_copied srdf.entry; root = root }) fault) }
    {
        check_semantics(alloc, urdf, srdf)?;
        let order = order_of(alloc, urdf)?;
        let root = root_joint_of(alloc, urdf, virtuals_of(srdf), root, order.as_slice())?;
        check_order(urdf, &root, order.as_slice())?;
        let bodies = bodies_of(alloc, urdf, &root, order.as_slice())?;
        let groups = groups_for(alloc, bodies.as_slice(), srdf)?;
        let states = states_for(alloc, bodies.as_slice(), srdf)?;
        let name = Text::copy(alloc, urdf.name())?;
        Ok(Robot::new(alloc, name, bodies, groups, states)?)
    }
}
