//! The bodies of groups, and refusals of groups with places counted by hand.
use crate::building::{RefusedInside, Semantics, are_refused_inside};
use rb_tree::{Robot, TreeKind};
use std::alloc::Global;

// The bodies are base, upper, lower, tip and left.
const ARM: &str =
    "<robot name='arm'><link name='left'/><link name='tip'/><link name='lower'/><link name='upper'/><link name='base'/><joint name='shoulder' type='revolute'><parent link='base'/><child link='upper'/></joint><joint name='elbow' type='revolute'><parent link='upper'/><child link='lower'/></joint><joint name='side' type='fixed'><parent link='upper'/><child link='left'/></joint><joint name='wrist' type='revolute'><parent link='lower'/><child link='tip'/></joint></robot>";

// What stands in a robot, in a file of groups.
const SEMANTICS: Semantics = Semantics {
    urdf: ARM,
    head: "<robot name='arm'>",
    tail: "</robot>",
};

// The same in a group. The root's joint is fixed and has the name of a joint of the file; another virtual joint bears the tip.
const ONE_GROUP: Semantics = Semantics {
    urdf: ARM,
    head: "<robot name='arm'><group name='g'>",
    tail: "</group><virtual_joint name='shoulder' type='fixed' child_link='base'/><virtual_joint name='grasp' type='floating' child_link='tip'/></robot>",
};

// Whether these are the bodies of the group of a number.
fn has_bodies(robot: &Robot, k: u32, bodies: &[u32]) -> bool {
    k < robot.groups() && robot.group_bodies(k) == bodies
}

// Whether the group of a number has this name.
fn is_named(robot: &Robot, k: u32, name: &str) -> bool {
    k < robot.groups() && robot.group_name(k) == name.as_bytes()
}

type Items = (&'static str, &'static [u32]);

// What stands in a group, and its bodies.
const GROUPS: [Items; 6] = [
    ("<link name='left'/><link name='base'/>", &[1, 5]),
    ("<chain base_link='base' tip_link='tip'/>", &[2, 3, 4]),
    ("<chain base_link='upper' tip_link='left'/>", &[5]),
    (
        "<link name='tip'/><chain base_link='lower' tip_link='tip'/><joint name='wrist'/>",
        &[4],
    ),
    ("<joint name='shoulder'/>", &[2]),
    ("<joint name='grasp'/>", &[]),
];

fn give_bodies(alloc: Global, rows: &[Items]) -> bool {
    for (items, bodies) in rows {
        let robot = ONE_GROUP.robot(alloc, items);
        if !matches!(&robot, Some(robot) if has_bodies(robot, 0, bodies) && is_named(robot, 0, "g"))
        {
            return false;
        }
    }
    true
}

#[test]
fn items_give_bodies(rt: HostRuntime) {
    assert!(rt; give_bodies(rt.alloc(), &GROUPS));
}

// Groups that hold groups that come later in the file.
const HELD: &str =
    "<group name='all'><group name='arm'/><joint name='side'/></group><group name='arm'><group name='hand'/><chain base_link='base' tip_link='lower'/><group name='hand'/></group><group name='hand'><link name='tip'/></group>";

fn has_all(robot: &Robot) -> bool {
    robot.groups() == 3
        && is_named(robot, 0, "all")
        && has_bodies(robot, 0, &[2, 3, 4, 5])
        && is_named(robot, 1, "arm")
        && has_bodies(robot, 1, &[2, 3, 4])
        && is_named(robot, 2, "hand")
        && has_bodies(robot, 2, &[4])
}

#[test]
fn groups_have_the_bodies_of_those_that_they_hold(rt: HostRuntime) {
    let robot = SEMANTICS.robot(rt.alloc(), HELD);
    assert!(rt; matches!(&robot, Some(robot) if has_all(robot)));
}

// What stands in a robot, and the kind and the place of its fault. The first element is at 18.
const FAULTS: [RefusedInside; 5] = [
    (
        "<group name='g'><link name='elbow'/></group>",
        TreeKind::UnknownName,
        18,
    ),
    (
        "<group name='g'><joint name='base'/></group>",
        TreeKind::UnknownName,
        18,
    ),
    (
        "<group name='g'><chain base_link='hand' tip_link='tip'/></group>",
        TreeKind::UnknownName,
        18,
    ),
    (
        "<group name='g'><chain base_link='left' tip_link='tip'/></group>",
        TreeKind::BadChain,
        18,
    ),
    (
        "<group name='f'/><group name='g'><chain base_link='tip' tip_link='base'/></group><group name='h'><link name='hand'/></group>",
        TreeKind::BadChain,
        35,
    ),
];

#[test]
fn groups_are_refused(rt: HostRuntime) {
    assert!(rt; are_refused_inside(rt.alloc(), &SEMANTICS, &FAULTS));
}
