//! The links and joints of a robot file, and its first fault.
use crate::wholes::whole;
use rb_num::Iv;
use rb_tags::read_tags;
use rb_urdf::{
    UrdfFault, UrdfFaultKind, UrdfJoint, UrdfKind, UrdfLink, UrdfMimic, UrdfRobot, read_urdf,
};
use std::alloc::Global;

// A file, and the kind and the place of its fault.
const FILES: [(&str, UrdfFaultKind, u64); 6] = [
    ("<!-- --><robots name='r'/>", UrdfFaultKind::NoRobot, 8),
    (
        "<robot name='r'><link><xacro:b/></link><xacro:c/></robot>",
        UrdfFaultKind::Xacro,
        22,
    ),
    (
        "<robot name='r'><link name=''/></robot>",
        UrdfFaultKind::NoName,
        16,
    ),
    (
        "<robot name='r'><link name='a'/><link name='a'><inertial><mass value='x'/></inertial></link></robot>",
        UrdfFaultKind::NameTwice,
        32,
    ),
    (
        "<robot name='r'><link name='a'><inertial><origin xyz='1 2 3 4'/></inertial></link></robot>",
        UrdfFaultKind::BadNumber,
        16,
    ),
    (
        "<robot name='r'><link name='a'/><link name='b'><inertial><mass value='-0.0000000000001'/></inertial></link></robot>",
        UrdfFaultKind::NegativeMass,
        32,
    ),
];

// What follows the links `a` and `b` of a robot, and the kind and the place of its fault. The first joint is at 48.
const JOINTS: [(&str, UrdfFaultKind, u64); 10] = [
    (
        "<joint name='j' type='screw'><child link='c'/></joint>",
        UrdfFaultKind::BadType,
        48,
    ),
    (
        "<joint name='j' type='fixed'><child link='c'/></joint>",
        UrdfFaultKind::NoParent,
        48,
    ),
    (
        "<joint name='j' type='fixed'><child/><parent link='a'/></joint>",
        UrdfFaultKind::NoChild,
        48,
    ),
    (
        "<joint name='j' type='fixed'><parent link='a'/><child link='c'/><origin xyz='x'/></joint>",
        UrdfFaultKind::UnknownLink,
        48,
    ),
    (
        "<joint name='j' type='fixed'><parent link='a'/><child link='b'/><mimic offset='x'/></joint>",
        UrdfFaultKind::BadNumber,
        48,
    ),
    (
        "<joint name='j' type='planar'><parent link='a'/><child link='b'/><axis xyz='1 0 0'/><mimic/></joint>",
        UrdfFaultKind::PlanarAxis,
        48,
    ),
    (
        "<joint name='j' type='fixed'><parent link='a'/><child link='b'/></joint><joint name='j'/>",
        UrdfFaultKind::NameTwice,
        120,
    ),
    (
        "<joint name='j' type='revolute'><parent link='a'/><child link='b'/><mimic joint=''/></joint>",
        UrdfFaultKind::MimicUnknown,
        48,
    ),
    (
        "<joint name='j' type='fixed'><parent link='a'/><child link='b'/><mimic joint='k'/></joint><joint name='k' type='fixed'><parent link='a'/><child link='b'/><mimic joint='j'/></joint>",
        UrdfFaultKind::MimicChain,
        48,
    ),
    (
        "<joint name='k' type='planar'><parent link='a'/><child link='b'/></joint><joint name='j' type='revolute'><parent link='a'/><child link='b'/><mimic joint='k'/></joint>",
        UrdfFaultKind::MimicMaster,
        121,
    ),
];

fn is_faulted(alloc: Global, text: &str, kind: UrdfFaultKind, at: u64) -> bool {
    match read_tags(alloc, text.as_bytes()) {
        Ok(tags) => match read_urdf(alloc, &tags) {
            Ok(_) => false,
            Err(fault) => fault == UrdfFault { kind, at },
        },
        Err(_) => false,
    }
}

// Whether these joints have this fault behind two links.
fn is_refused(alloc: Global, joints: &str, kind: UrdfFaultKind, at: u64) -> bool {
    let Ok(text) = format!(in alloc;
        "<robot name='r'><link name='a'/><link name='b'/>{joints}</robot>"
    ) else {
        return false;
    };
    is_faulted(alloc, text.as_str(), kind, at)
}

#[test]
fn files_are_refused(rt: HostRuntime) {
    for (text, kind, at) in FILES.iter() {
        assert!(rt; is_faulted(rt.alloc(), text, *kind, *at), "in {text}");
    }
}

#[test]
fn joints_are_refused(rt: HostRuntime) {
    for (joints, kind, at) in JOINTS.iter() {
        assert!(rt; is_refused(rt.alloc(), joints, *kind, *at), "in {joints}");
    }
}

const ARM: &str = "<robot name='arm'>
<link name='a'>
  <visual><origin xyz='9 9 9'/></visual>
  <inertial>
    <origin xyz='1 2\t3\n'/><origin xyz='4 5 6' rpy='7 8 9'/>
    <mass value=' 2.5\t'/><mass value='x'/>
    <inertia ixx='1' iyz='-0.0000000000001'/>
  </inertial>
  <inertial><mass value='3'/></inertial>
</link>
<group><link name='a'/><joint/></group>
<link name='b'/>
<joint name='a' type='continuous'>
  <child link='a'/><parent link='b'/><child link='x'/>
  <origin rpy='0 0 1'/>
  <mimic joint='m' multiplier='-2'/>
</joint>
<joint name='m' type='prismatic'><parent link='a'/><child link='b'/><axis xyz='0 1 0'/></joint>
<joint name='f' type='fixed'><parent link='a'/><child link='b'/><axis xyz='x'/></joint>
<joint name='p' type='planar'><parent link='a'/><child link='b'/></joint>
<joint name='c' type='continuous'><parent link='a'/><child link='b'/></joint>
</robot>";

// The robot of the arm.
fn arm(alloc: Global) -> Option<UrdfRobot> {
    let Ok(tags) = read_tags(alloc, ARM.as_bytes()) else {
        return None;
    };
    read_urdf(alloc, &tags).ok()
}

fn is_link(link: &UrdfLink, name: &str, place: u64, mass: Iv, com: [Iv; 3], six: [Iv; 6]) -> bool {
    link.name.as_str() == name
        && link.place == place
        && link.mass == mass
        && link.com == com
        && link.rpy == [Iv::ZERO, Iv::ZERO, Iv::ZERO]
        && link.six == six
}

fn has_links(robot: &UrdfRobot) -> bool {
    let [first, _] = robot.links().as_slice() else {
        return false;
    };
    let mass = Iv::new(2_500_000_000_000, 2_500_000_000_000);
    let centre = [whole(1), whole(2), whole(3)];
    let least = Iv::new(-1, 0);
    let six = [whole(1), Iv::ZERO, Iv::ZERO, Iv::ZERO, least, Iv::ZERO];
    is_link(first, "a", 19, mass, centre, six)
}

#[test]
fn links_are_read(rt: HostRuntime) {
    let robot = arm(rt.alloc());
    assert!(rt; matches!(&robot, Some(robot) if has_links(robot)));
}

fn is_joint(joint: &UrdfJoint, kind: UrdfKind, axis: [Iv; 3], mimic: Option<UrdfMimic>) -> bool {
    joint.kind == kind && joint.axis == axis && joint.mimic == mimic
}

fn is_follower(joint: &UrdfJoint, axis: [Iv; 3]) -> bool {
    let mimic = UrdfMimic {
        master: 1,
        multiplier: whole(-2),
        offset: Iv::ZERO,
    };
    is_joint(joint, UrdfKind::Revolute, axis, Some(mimic))
}

fn has_joints(robot: &UrdfRobot) -> bool {
    let [follower, slider, fixed, planar, wheel] = robot.joints().as_slice() else {
        return false;
    };
    let (zero, one) = (Iv::ZERO, Iv::ONE);
    let (x, y, z) = ([one, zero, zero], [zero, one, zero], [zero, zero, one]);
    is_follower(follower, x)
        && is_joint(slider, UrdfKind::Prismatic, y, None)
        && is_joint(fixed, UrdfKind::Fixed, [zero, zero, zero], None)
        && is_joint(planar, UrdfKind::Planar, z, None)
        && is_joint(wheel, UrdfKind::Continuous, x, None)
}

#[test]
fn joints_are_read(rt: HostRuntime) {
    let robot = arm(rt.alloc());
    assert!(rt; matches!(&robot, Some(robot) if has_joints(robot)));
}

// Whether the first joint goes from the second link to the first, turned by 1 about z.
fn has_ends(robot: &UrdfRobot) -> bool {
    let Some(joint) = robot.joints().as_slice().first() else {
        return false;
    };
    joint.parent == 1
        && joint.child == 0
        && joint.xyz == [Iv::ZERO, Iv::ZERO, Iv::ZERO]
        && joint.rpy == [Iv::ZERO, Iv::ZERO, Iv::ONE]
}

#[test]
fn ends_are_read(rt: HostRuntime) {
    let robot = arm(rt.alloc());
    assert!(rt; matches!(&robot, Some(robot) if has_ends(robot)));
}
