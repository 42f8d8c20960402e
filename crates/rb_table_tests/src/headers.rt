//! Headers of tables with faults counted by hand, and the lines of names.
use crate::robots::{ARM, BLOCK, FOLLOWER, robot_on};
use rb_constraint::{Constraints, read_constraints};
use rb_rows::{Header, HeaderFault, HeaderKind, Target, Task, column_line, head_line};
use rb_tags::{RootKind, Text};
use rb_tree::Robot;
use std::alloc::{AllocError, Global};

// The longest line that is read.
const LONG: usize = 65_536;

fn has_targets(alloc: Global, robot: &Robot, line: &[u8], targets: &[Target]) -> bool {
    line.len() <= LONG
        && matches!(Header::read(alloc, robot, line), Ok(header) if header.targets() == targets)
}

fn has_fault(alloc: Global, robot: &Robot, line: &[u8], kind: HeaderKind, field: u32) -> bool {
    line.len() <= LONG
        && matches!(Header::read(alloc, robot, line), Err(fault) if fault == HeaderFault { kind, field })
}

// The first line of a table of the arm, and what its fields stand for.
type Targets = (&'static [u8], &'static [Target]);

const TARGETS: [Targets; 2] = [
    (
        b"tau.turn,#when,q.turn.sin,a.lift,#when",
        &[
            Target::Torque(1),
            Target::Remark,
            Target::Entry(2),
            Target::Acceleration(0),
            Target::Remark,
        ],
    ),
    (
        b"\xEF\xBB\xBF\"v.turn\",v.lift",
        &[Target::Speed(1), Target::Speed(0)],
    ),
];

fn have_targets(alloc: Global, robot: &Robot, rows: &[Targets]) -> bool {
    for (line, targets) in rows {
        if !has_targets(alloc, robot, line, targets) {
            return false;
        }
    }
    true
}

#[test]
fn columns_come_in_any_order(rt: HostRuntime) {
    let arm = robot_on(rt.alloc(), ARM, None);
    assert!(rt; matches!(&arm, Some(arm) if have_targets(rt.alloc(), arm, &TARGETS)));
}

// The first line of a table of the arm, and the kind and the field of its fault.
type Refused = (&'static [u8], HeaderKind, u32);

const FAULTS: [Refused; 5] = [
    (b"v.lift\rv.turn", HeaderKind::BadHeader, 0),
    (b"v.lift,\xFF", HeaderKind::BadHeader, 0),
    (b"v.lift,q.turn", HeaderKind::UnknownColumn, 2),
    (b"v.lift,", HeaderKind::UnknownColumn, 2),
    (b"v.lift,#,v.lift,x", HeaderKind::ColumnTwice, 3),
];

fn have_faults(alloc: Global, robot: &Robot, rows: &[Refused]) -> bool {
    for (line, kind, field) in rows {
        if !has_fault(alloc, robot, line, *kind, *field) {
            return false;
        }
    }
    true
}

#[test]
fn headers_are_refused_at_their_first_bad_field(rt: HostRuntime) {
    let arm = robot_on(rt.alloc(), ARM, None);
    assert!(rt; matches!(&arm, Some(arm) if have_faults(rt.alloc(), arm, &FAULTS)));
}

#[test]
fn a_joint_that_follows_another_has_no_column(rt: HostRuntime) {
    let rows: [Refused; 1] = [(b"tau.lift,q.turn", HeaderKind::UnknownColumn, 2)];
    let follower = robot_on(rt.alloc(), FOLLOWER, None);
    assert!(rt; matches!(&follower, Some(robot) if have_faults(rt.alloc(), robot, &rows)));
}

// A line's text, if there is one.
fn is_line(line: Result<Text, AllocError>, text: &str) -> bool {
    matches!(line, Ok(line) if line.as_str() == text)
}

// A sliding joint, whose name has a comma and quotes in it.
const QUOTED: &str = "<robot name='arm'><link name='base'/><link name='upper'/>\
<joint name='up, \"or\" down' type='prismatic'><parent link='base'/><child link='upper'/><axis xyz='0 0 1'/>\
<limit lower='-1' upper='1' effort='1' velocity='1'/></joint></robot>";

// A robot, its root, and the line of its columns.
type Columns = (&'static str, Option<RootKind>, &'static str);

const COLUMNS: [Columns; 2] = [
    (
        BLOCK,
        Some(RootKind::Planar),
        "q.root_joint.x,q.root_joint.y,q.root_joint.cos,q.root_joint.sin,\
v.root_joint.vx,v.root_joint.vy,v.root_joint.wz,a.root_joint.vx,a.root_joint.vy,a.root_joint.wz,\
tau.root_joint.vx,tau.root_joint.vy,tau.root_joint.wz\n",
    ),
    (
        QUOTED,
        None,
        "\"q.up, \"\"or\"\" down\",\"v.up, \"\"or\"\" down\",\"a.up, \"\"or\"\" down\",\"tau.up, \"\"or\"\" down\"\n",
    ),
];

fn name_columns(alloc: Global, rows: &[Columns]) -> bool {
    for (text, root, line) in rows {
        let robot = robot_on(alloc, text, *root);
        if !matches!(&robot, Some(robot) if is_line(column_line(alloc, robot), line)) {
            return false;
        }
    }
    true
}

#[test]
fn columns_are_named_in_a_line(rt: HostRuntime) {
    assert!(rt; name_columns(rt.alloc(), &COLUMNS));
}

// Two constraints, of which the first holds points along x and turns about z.
const GRIPS: &str =
    "name,axes,link1,x1,y1,z1,link2,x2,y2,z2,mu,e\ngrip,xc,lower,,,,,,,,,\nrail,y,upper,,,,,,,,,\n";

// The constraints of a file, or none where there is no file.
fn constraints_of(alloc: Global, robot: &Robot, text: &str) -> Option<Constraints> {
    if text.is_empty() {
        return Some(Constraints::none(alloc));
    }
    read_constraints(alloc, text.as_bytes(), robot).ok()
}

// A robot, its constraints, a task, whether the numbers of a row are told, and the first line.
type Head = (&'static str, &'static str, Task, bool, &'static str);

const HEADS: [Head; 6] = [
    (
        ARM,
        GRIPS,
        Task::Rnea,
        false,
        "row,answer,cause,tau.lift,tau.turn\n",
    ),
    (
        ARM,
        "",
        Task::Crba,
        false,
        "row,answer,cause,M.1.1,M.1.2,M.2.2\n",
    ),
    (ARM, "", Task::Fd, false, "row,answer,cause,a.lift,a.turn\n"),
    (
        ARM,
        GRIPS,
        Task::Contact,
        false,
        "row,answer,cause,a.lift,a.turn,lam.grip.x,lam.grip.c,lam.rail.y\n",
    ),
    (
        ARM,
        GRIPS,
        Task::Impulse,
        false,
        "row,answer,cause,v.lift,v.turn,imp.grip.x,imp.grip.c,imp.rail.y\n",
    ),
    (
        FOLLOWER,
        "",
        Task::Crba,
        true,
        "row,answer,cause,in.q.lift,in.v.lift,in.a.lift,in.tau.lift,M.1.1\n",
    ),
];

// Whether the first line names the values.
fn has_head(alloc: Global, robot: &Robot, head: &Head) -> bool {
    let (_, grips, task, echo, line) = *head;
    let Some(cons) = constraints_of(alloc, robot, grips) else {
        return false;
    };
    is_line(head_line(alloc, robot, &cons, task, echo), line)
}

fn have_heads(alloc: Global, rows: &[Head]) -> bool {
    for head in rows {
        let robot = robot_on(alloc, head.0, None);
        if !matches!(&robot, Some(robot) if has_head(alloc, robot, head)) {
            return false;
        }
    }
    true
}

#[test]
fn the_first_line_names_the_values_of_the_task(rt: HostRuntime) {
    assert!(rt; have_heads(rt.alloc(), &HEADS));
}
