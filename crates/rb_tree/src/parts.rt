ghost use Rattle.std.specs.Prelude.{◌≡◌, ◌⊎◌, IfOk, IfErr};
ghost use Rattle.rb_body.specs.Joint.{HasNumbers};
ghost use Rattle.rb_joint.specs.Any.{kind_of as kind_of_model};
ghost use Rattle.rb_body.specs.Raw.{kind_of as kind_of_joint};
ghost use Rattle.rb_tree.specs.Robot.{IsBodyKept};
ghost use Rattle.rb_tree.specs.Faults.{no_memory as no_memory_fault};
ghost use Rattle.rb_tree.specs.Parts.{kind_of as kind_of_fault, raw_of as raw_of_link, root_joint as root_joint_of, root_kind as root_kind_of, inertia_made as inertia_made_of, joint_made as joint_made_of, IsMadeOf, IsRefusedAt};

use crate::faults::{TreeFault, TreeKind, fault};
use crate::robot::{Body, Mimic};
use rb_body::{BodyFault, JointRaw, LinkRaw, inertia_of, joint_of};
use rb_joint::AnyJoint;
use rb_num::Iv;
use rb_spatial::BodyInertia;
use rb_tags::{RootKind, Text};
use rb_urdf::{UrdfJoint, UrdfKind, UrdfLink};
use std::alloc::{AllocError, Global};

fn kind_of(why: BodyFault) -> TreeKind
    ensures { result ≡ kind_of_fault why }
{
    match why {
        BodyFault::AngleRange => TreeKind::AngleRange,
        BodyFault::ZeroAxis => TreeKind::ZeroAxis,
        BodyFault::Size => TreeKind::Size,
    }
}

fn raw_of(link: &UrdfLink) -> LinkRaw
    ensures { result ≡ raw_of_link link.now }
{
    LinkRaw {
        mass: link.mass,
        com: link.com,
        rpy: link.rpy,
        six: link.six,
    }
}

#[tactic(auto, unfolding(crate::specs::Parts::inertia_made))]
fn inertia_made(link: &UrdfLink) -> Result<BodyInertia, TreeFault>
    ensures exact { result ≡ inertia_made_of link.now }
{
    match inertia_of(&raw_of(link)) {
        Ok(inertia) => Ok(inertia),
        Err(why) => Err(fault(kind_of(why), link.place)),
    }
}

#[tactic(auto, unfolding(crate::specs::Parts::joint_made))]
fn joint_made(joint: &UrdfJoint) -> Result<(AnyJoint, JointRaw), TreeFault>
    ensures exact { result ≡ joint_made_of joint.now }
    ensures numbers { IfOk result (λ made. HasNumbers joint.now.kind joint.now.xyz joint.now.rpy joint.now.axis made.1) }
{
    match joint_of(joint.kind, joint.xyz, joint.rpy, joint.axis) {
        Ok(made) => Ok(made),
        Err(why) => Err(fault(kind_of(why), joint.place)),
    }
}

/// The kind of the root's joint, which is fixed where none is asked for.
pub(crate) fn root_kind(root: Option<RootKind>) -> UrdfKind
    ensures { result ≡ root_kind_of root }
{
    match root {
        None | Some(RootKind::Fixed) => UrdfKind::Fixed,
        Some(RootKind::Planar) => UrdfKind::Planar,
        Some(RootKind::Floating) => UrdfKind::Floating,
    }
}

/// The joint of this kind and name that bears the root, at this place of the file. Its frame is the identity.
pub(crate) fn root_joint(
    alloc: Global,
    kind: UrdfKind,
    name: &str,
    place: u64,
) -> Result<UrdfJoint, AllocError>
    ensures { IfOk result (λ joint. joint ≡ root_joint_of kind name.now place) }
{
    let zeros = [Iv::ZERO, Iv::ZERO, Iv::ZERO];
    Ok(UrdfJoint {
        name: Text::copy(alloc, name)?,
        place,
        kind,
        parent: 0,
        child: 0,
        xyz: zeros,
        rpy: zeros,
        axis: zeros,
        mimic: None,
    })
}

/// The body of a link and the joint that bears it, below this parent, which follows another where its joint does.
pub(crate) fn body_of(
    alloc: Global,
    parent: u32,
    joint: &UrdfJoint,
    link: &UrdfLink,
    mimic: Option<Mimic>,
) -> Result<Body, TreeFault>
    ensures parent { IfOk result (λ body. body.parent ≡ parent) }
    ensures mimic { IfOk result (λ body. body.mimic ≡ mimic) }
    ensures made { IfOk result (IsMadeOf link.now joint.now) }
    ensures kept { IfOk result IsBodyKept }
    ensures kind { IfOk result (λ body. kind_of_model body.joint ≡ kind_of_joint joint.now.kind) }
    ensures err { IfErr result (λ fault. (fault ≡ no_memory_fault) ⊎ IsRefusedAt link.now joint.now fault) }
{
    let (model, joint_raw) = joint_made(joint)?;
    let inertia = inertia_made(link)?;
    let link_raw = raw_of(link);
    link_raw.in_order();
    joint_raw.in_order();
    Ok(Body {
        parent,
        joint: model,
        inertia,
        link_name: Text::copy(alloc, link.name.as_str())?,
        joint_name: Text::copy(alloc, joint.name.as_str())?,
        link_raw,
        joint_raw,
        mimic,
    })
}
