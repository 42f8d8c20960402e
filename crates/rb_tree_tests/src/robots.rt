//! Robots of one file, their constants and their neutral states.
ghost use Rattle.rb_tree.specs.State.{Fits};

use crate::building::robot_on;
use crate::order::{Refused, are_refused, has_stems};
use rb_num::{Iv, S};
use rb_spatial::Vec3;
use rb_tags::RootKind;
use rb_tree::{AnyJoint, Robot, State, TreeKind, UrdfKind, column_suffixes, entry_suffixes};
use std::alloc::Global;

// Two branches from the body b: c and d behind a fixed joint, and e, which comes first in the file.
const TREE: &str =
    "<robot name='tree'><link name='a'/><link name='b'/><link name='c'/><link name='d'/><link name='e'/><link name='f'/><joint name='ab' type='revolute'><parent link='a'/><child link='b'/></joint><joint name='cd' type='prismatic'><parent link='c'/><child link='d'/></joint><joint name='be' type='revolute'><parent link='b'/><child link='e'/></joint><joint name='bc' type='fixed'><parent link='b'/><child link='c'/></joint><joint name='ef' type='prismatic'><parent link='e'/><child link='f'/></joint></robot>";

// Whether the columns and the joints are those of the tree.
fn has_joints(tree: &Robot) -> bool {
    tree.bodies() == 6
        && tree.nv() == 4
        && tree.up(4) == 1
        && tree.column_body(4) == 6
        && matches!(tree.joint(1), AnyJoint::Fixed(_))
        && matches!(tree.joint(2), AnyJoint::Revolute(_))
        && matches!(tree.joint(6), AnyJoint::Prismatic(_))
}

// Whether the names and the parents are those of the tree.
fn has_branches(tree: &Robot) -> bool {
    let stems = [
        ("a", "root_joint", 0),
        ("b", "ab", 1),
        ("e", "be", 2),
        ("f", "ef", 3),
        ("c", "bc", 2),
        ("d", "cd", 5),
    ];
    tree.name() == b"tree".as_slice()
        && has_stems(tree, &stems)
        && tree.ups() == [0, 1, 2, 1].as_slice()
}

#[test]
fn a_branching_robot(rt: HostRuntime) {
    let tree = robot_on(rt.alloc(), TREE, None);
    assert!(rt; matches!(&tree, Some(tree) if has_branches(tree) && has_joints(tree)));
}

// A file, and the kind and the place of its fault.
const FAULTS: [Refused; 4] = [
    (
        "<robot name='r'><link name='a'><inertial><origin rpy='0 0 8.000000000001'/><mass value='1'/></inertial></link></robot>",
        None,
        TreeKind::AngleRange,
        16,
    ),
    (
        "<robot name='r'><link name='a'/><link name='b'/><joint name='j' type='revolute'><parent link='a'/><child link='b'/><origin rpy='-8.000000000001 0 0'/><axis xyz='0 0 1'/></joint></robot>",
        None,
        TreeKind::AngleRange,
        48,
    ),
    (
        "<robot name='r'><link name='a'/><link name='b'/><joint name='j' type='prismatic'><parent link='a'/><child link='b'/><axis xyz='0 0 0'/></joint></robot>",
        None,
        TreeKind::ZeroAxis,
        48,
    ),
    (
        "<robot name='r'><link name='a'/><link name='b'/><joint name='j' type='prismatic'><parent link='a'/><child link='b'/><axis xyz='1200000 0 0'/></joint></robot>",
        None,
        TreeKind::Size,
        48,
    ),
];

#[test]
fn constants_are_refused(rt: HostRuntime) {
    assert!(rt; are_refused(rt.alloc(), &FAULTS));
}

// A box alone.
pub(crate) const BOX: &str =
    "<robot name='box'><link name='box'><inertial><mass value='1'/><inertia ixx='1' iyy='1' izz='1'/></inertial></link></robot>";

// Whether the entries of the state are these whole numbers.
fn has_entries(robot: &Robot, state: &State, entries: &[i128]) -> bool
    requires { Fits robot.now state.now }
{
    let mut place = 0;
    for entry in entries {
        if robot.nq() as usize <= place
            || state.q(place).lo() != *entry
            || state.q(place).hi() != *entry
        {
            return false;
        }
        place += 1;
    }
    robot.nq() as usize == place
}

// Whether the state is at rest, without torques.
fn is_at_rest(robot: &Robot, state: &State) -> bool
    requires { Fits robot.now state.now }
{
    for column in 0..robot.nv() as usize {
        if state.v(column) != Iv::ZERO
            || state.a(column) != Iv::ZERO
            || state.tau(column) != Iv::ZERO
        {
            return false;
        }
    }
    true
}

// Whether the neutral state of the box leaves the gravity as it is.
fn is_neutral_again(robot: &Robot, state: &mut State) -> bool
    requires { Fits robot.now state.old }
{
    state.set_gravity(Vec3::new(Iv::ONE, Iv::ZERO, Iv::ZERO));
    state.set_neutral(robot);
    has_entries(robot, state, &[0, 0, S, 0])
        && is_at_rest(robot, state)
        && state.gravity().x() == Iv::ONE
}

// Whether the state of the box keeps what is set.
fn keeps_numbers(robot: &Robot, state: &mut State) -> bool
    requires { Fits robot.now state.old }
{
    if robot.nq() != 4 || robot.nv() != 3 {
        return false;
    }
    state.set_q(3, Iv::ONE);
    state.set_v(2, Iv::ONE);
    state.set_a(1, Iv::ONE);
    state.set_tau(0, Iv::ONE);
    state.q(3) == Iv::ONE
        && state.v(2) == Iv::ONE
        && state.a(1) == Iv::ONE
        && state.tau(0) == Iv::ONE
        && is_neutral_again(robot, state)
}

// Whether the robot is the box on a planar root.
fn is_box(robot: &Robot) -> bool {
    robot.bodies() == 1
        && robot.joint_raw(1).kind == UrdfKind::Planar
        && robot.link_raw(1).mass == Iv::ONE
        && robot.inertia(1).mass == Iv::ONE
}

// Whether a new state of the robot has the gravity of the earth, and keeps what is set.
fn keeps_state(alloc: Global, robot: &Robot) -> bool {
    let Ok(mut state) = State::new(alloc, robot) else {
        return false;
    };
    state.gravity().z().lo() == -9_810_000_000_000 && keeps_numbers(robot, &mut state)
}

#[test]
fn states_keep_what_is_set(rt: HostRuntime) {
    let robot = robot_on(rt.alloc(), BOX, Some(RootKind::Planar));
    assert!(rt; matches!(&robot, Some(robot) if is_box(robot) && keeps_state(rt.alloc(), robot)));
}

type Suffixes = (UrdfKind, &'static [&'static str], &'static [&'static str]);

// A joint of each kind, and the suffixes of its entries and of its columns.
const SUFFIXES: [Suffixes; 6] = [
    (UrdfKind::Fixed, &[], &[]),
    (UrdfKind::Revolute, &[""], &[""]),
    (UrdfKind::Prismatic, &[""], &[""]),
    (UrdfKind::Continuous, &[".cos", ".sin"], &[""]),
    (
        UrdfKind::Planar,
        &[".x", ".y", ".cos", ".sin"],
        &[".vx", ".vy", ".wz"],
    ),
    (
        UrdfKind::Floating,
        &[".x", ".y", ".z", ".qx", ".qy", ".qz", ".qw"],
        &[".vx", ".vy", ".vz", ".wx", ".wy", ".wz"],
    ),
];

fn are_suffixes(rows: &[Suffixes]) -> bool {
    for (kind, entries, columns) in rows {
        if entry_suffixes(*kind) != *entries || column_suffixes(*kind) != *columns {
            return false;
        }
    }
    true
}

#[test]
fn names_of_entries_and_columns(rt: HostRuntime) {
    assert!(rt; are_suffixes(&SUFFIXES));
}
