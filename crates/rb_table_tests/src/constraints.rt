//! Constraints of a small robot: the refusals of files at their lines, and rows.
use crate::robots::robot_on;
use rb_constraint::{ConFault, ConKind, Constraint, Constraints, read_constraints};
use rb_num::Iv;
use rb_tree::Robot;
use std::alloc::{AllocError, Global};

const ONE: i64 = 1_000_000_000_000;

// A base and an arm on a turning joint.
const ARM: &str = "<robot name='arm'><link name='base'/><link name='upper'/>\
<joint name='lift' type='continuous'><parent link='base'/><child link='upper'/><axis xyz='0 0 1'/></joint></robot>";

fn arm(alloc: Global) -> Option<Robot> {
    robot_on(alloc, ARM, None)
}

fn is_refused(alloc: Global, robot: &Robot, text: &[u8], kind: ConKind, line: u32) -> bool {
    matches!(read_constraints(alloc, text, robot), Err(fault) if fault == ConFault { kind, line })
}

// A file of constraints of the arm, and the kind and the line of its fault.
type Refused = (&'static [u8], ConKind, u32);

const FAULTS: [Refused; 11] = [
    (b"", ConKind::BadHeader, 0),
    (b"\n#a\nname,axes\n", ConKind::BadHeader, 3),
    (
        b"name,axes,link1,x1,y1,z1,link2,x2,y2,z2,mu,e\na,x,base\n",
        ConKind::BadLine,
        2,
    ),
    (
        b"name,axes,link1,x1,y1,z1,link2,x2,y2,z2,mu,e\r\n\n,x,base,,,,,,,,,\n",
        ConKind::BadLine,
        3,
    ),
    (
        b"name,axes,link1,x1,y1,z1,link2,x2,y2,z2,mu,e\na,x,base,,,,,,,,,\n#\n\"a\",?,base,,,,,,,,,",
        ConKind::NameTwice,
        4,
    ),
    (
        b"name,axes,link1,x1,y1,z1,link2,x2,y2,z2,mu,e\na,xx,none,,,,,,,,,",
        ConKind::BadRows,
        2,
    ),
    (
        b"name,axes,link1,x1,y1,z1,link2,x2,y2,z2,mu,e\na,ax,base,,,,,,,,,",
        ConKind::BadRows,
        2,
    ),
    (
        b"name,axes,link1,x1,y1,z1,link2,x2,y2,z2,mu,e\na,x,base,,,,lift,,,,,",
        ConKind::UnknownLink,
        2,
    ),
    (
        b"name,axes,link1,x1,y1,z1,link2,x2,y2,z2,mu,e\na,x,base,,1..,,,,,,,",
        ConKind::BadNumber,
        2,
    ),
    (
        b"name,axes,link1,x1,y1,z1,link2,x2,y2,z2,mu,e\na,x,base,,,,,,,,-1..1,",
        ConKind::BadNumber,
        2,
    ),
    (
        b"name,axes,link1,x1,y1,z1,link2,x2,y2,z2,mu,e\na,x,base,,,,,,,,,0..2",
        ConKind::BadNumber,
        2,
    ),
];

fn are_refused(alloc: Global, robot: &Robot, rows: &[Refused]) -> bool {
    for (text, kind, line) in rows {
        if !is_refused(alloc, robot, text, *kind, *line) {
            return false;
        }
    }
    true
}

#[test]
fn files_are_refused_at_their_first_fault(rt: HostRuntime) {
    let arm = arm(rt.alloc());
    assert!(rt; matches!(&arm, Some(arm) if are_refused(rt.alloc(), arm, &FAULTS)));
}

// Two constraints of eight rows, the first with the world, the second of a link with itself.
const TWO: &[u8] =
    b"#\nname,axes,link1,x1,y1,z1,link2,x2,y2,z2,mu,e\none,zb,upper,1,0..2,,,,,3,,\r\ntwo,xyzabc,upper,,,,upper,,,,1,0..1";

// Whether these are the two.
fn are_two(found: &[Constraint]) -> bool {
    let [one, two] = found else {
        return false;
    };
    one.name.as_str() == "one"
        && one.body1 == 2
        && one.body2 == 0
        && two.body1 == 2
        && two.body2 == 2
        && one.at1.x() == Iv::ONE
        && one.at1.y() == Iv::new(0, 2 * i128::from(ONE))
        && two.mu == Iv::ONE
        && two.e == Iv::new(0, i128::from(ONE))
}

fn has_two(alloc: Global, robot: &Robot) -> bool {
    let Ok(found) = read_constraints(alloc, TWO, robot) else {
        return false;
    };
    found.rows() == 8 && are_two(found.as_slice())
}

#[test]
fn links_may_be_the_same_or_the_world(rt: HostRuntime) {
    let arm = arm(rt.alloc());
    assert!(rt; matches!(&arm, Some(arm) if has_two(rt.alloc(), arm)));
}

// Sixty rows.
const SIXTY: &str = "name,axes,link1,x1,y1,z1,link2,x2,y2,z2,mu,e\n\
a,xyzabc,base,,,,,,,,,\nb,xyzabc,base,,,,,,,,,\nc,xyzabc,base,,,,,,,,,\nd,xyzabc,base,,,,,,,,,\ne,xyzabc,base,,,,,,,,,\n\
f,xyzabc,base,,,,,,,,,\ng,xyzabc,base,,,,,,,,,\nh,xyzabc,base,,,,,,,,,\ni,xyzabc,base,,,,,,,,,\nj,xyzabc,base,,,,,,,,,\n";

fn behind_sixty(alloc: Global, more: &str) -> Result<String, AllocError> {
    let mut text = String::from_str(alloc, SIXTY)?;
    text.push_str(more)?;
    Ok(text)
}

// Whether there are 64 rows, with this behind the sixty.
fn is_full(alloc: Global, robot: &Robot, more: &str) -> bool {
    let Ok(text) = behind_sixty(alloc, more) else {
        return false;
    };
    let found = read_constraints(alloc, text.as_bytes(), robot);
    matches!(&found, Ok(found) if found.rows() == 64)
}

// Whether there are too many rows, with this behind the sixty.
fn is_too_full(alloc: Global, robot: &Robot, more: &str) -> bool {
    let Ok(text) = behind_sixty(alloc, more) else {
        return false;
    };
    is_refused(alloc, robot, text.as_bytes(), ConKind::TooMany, 12)
}

fn limits_rows(alloc: Global, robot: &Robot) -> bool {
    is_full(alloc, robot, "k,xyza,base,,,,,,,,,")
        && is_too_full(alloc, robot, "k,xyzab,base,,,,,,,,,")
        && Constraints::none(alloc).rows() == 0
}

#[test]
fn rows_are_at_most_sixty_four(rt: HostRuntime) {
    let arm = arm(rt.alloc());
    assert!(rt; matches!(&arm, Some(arm) if limits_rows(rt.alloc(), arm)));
}
