//! Orders and refusals over file texts, with places counted by hand.
use crate::building::{fault_on, robot_on};
use rb_tags::RootKind;
use rb_tree::{Robot, TreeFault, TreeKind, WhichFile};
use std::alloc::{AllocError, Global};
use std::test::*;

const LEVEL: Option<RootKind> = Some(RootKind::Planar);

const FREE: Option<RootKind> = Some(RootKind::Floating);

// The link of a body, the joint that bears it, and the number of its parent.
pub(crate) type Stem = (&'static str, &'static str, u32);

// Whether this is what body `i` stands on.
fn is_borne(robot: &Robot, i: u32, link: &str, joint: &str, parent: u32) -> bool {
    1 <= i
        && i <= robot.bodies()
        && robot.link_name(i) == link.as_bytes()
        && robot.joint_name(i) == joint.as_bytes()
        && robot.parent(i) == parent
}

// Whether these are the bodies of the robot, from body 1 on.
pub(crate) fn has_stems(robot: &Robot, stems: &[Stem]) -> bool {
    let mut number = 0;
    for (link, joint, parent) in stems {
        if robot.bodies() <= number || !is_borne(robot, number + 1, link, joint, *parent) {
            return false;
        }
        number += 1;
    }
    robot.bodies() == number
}

type Ordered = (&'static str, &'static [Stem]);

// A file, and its bodies. They come depth first and in the order of their joints. The joint of the last has the name of that of a root that moves.
const ORDERS: [Ordered; 3] = [
    (
        "<robot name='r'><link name='c'/><link name='b'/><link name='a'/><joint name='j' type='fixed'><parent link='b'/><child link='c'/></joint><joint name='k' type='fixed'><parent link='a'/><child link='b'/></joint></robot>",
        &[("a", "root_joint", 0), ("b", "k", 1), ("c", "j", 2)],
    ),
    (
        "<robot name='r'><link name='a'/><link name='b'/><link name='c'/><link name='d'/><joint name='j' type='fixed'><parent link='a'/><child link='b'/></joint><joint name='k' type='fixed'><parent link='a'/><child link='c'/></joint><joint name='l' type='fixed'><parent link='b'/><child link='d'/></joint></robot>",
        &[
            ("a", "root_joint", 0),
            ("b", "j", 1),
            ("d", "l", 2),
            ("c", "k", 1),
        ],
    ),
    (
        "<robot name='r'><link name='a'/><link name='b'/><joint name='root_joint' type='fixed'><parent link='a'/><child link='b'/></joint></robot>",
        &[("a", "root_joint", 0), ("b", "root_joint", 1)],
    ),
];

fn are_ordered(alloc: Global, rows: &[Ordered]) -> bool {
    for (text, stems) in rows {
        let robot = robot_on(alloc, text, None);
        if !matches!(&robot, Some(robot) if has_stems(robot, stems)) {
            return false;
        }
    }
    true
}

#[test]
fn bodies_have_an_order(rt: HostRuntime) {
    assert!(rt; are_ordered(rt.alloc(), &ORDERS));
}

// A file, the kind of its root, and the kind and the place of its fault.
pub(crate) type Refused = (&'static str, Option<RootKind>, TreeKind, u64);

// Whether the robot of a file, with this root, is refused so.
fn has_fault(alloc: Global, text: &str, root: Option<RootKind>, kind: TreeKind, at: u64) -> bool {
    let fault = TreeFault {
        kind,
        file: WhichFile::Urdf,
        at,
    };
    fault_on(alloc, text, root) == Some(fault)
}

pub(crate) fn are_refused(alloc: Global, rows: &[Refused]) -> bool {
    for (text, root, kind, at) in rows {
        if !has_fault(alloc, text, *root, *kind, *at) {
            return false;
        }
    }
    true
}

const FAULTS: [Refused; 7] = [
    (
        " <robot name='r'><link name='a'/><link name='b'/><joint name='j' type='fixed'><parent link='a'/><child link='b'/></joint><joint name='k' type='fixed'><parent link='b'/><child link='a'/></joint></robot>",
        None,
        TreeKind::NoRoot,
        1,
    ),
    (
        "<robot name='r'><link name='a'/><link name='b'/><link name='c'/><joint name='j' type='fixed'><parent link='b'/><child link='c'/></joint><joint name='k' type='fixed'><parent link='c'/><child link='b'/></joint></robot>",
        None,
        TreeKind::Cycle,
        32,
    ),
    (
        "<robot name='r'><link name='a'/><link name='b'/><link name='c'/><link name='d'/><joint name='j' type='fixed'><parent link='b'/><child link='c'/></joint><joint name='k' type='fixed'><parent link='c'/><child link='b'/></joint></robot>",
        None,
        TreeKind::TwoRoots,
        64,
    ),
    (
        "<robot name='r'><link name='a'/><link name='b'/><joint name='j' type='fixed'><parent link='a'/><child link='b'/></joint><joint name='k' type='fixed'><parent link='b'/><child link='a'/></joint><joint name='l' type='fixed'><parent link='a'/><child link='b'/></joint></robot>",
        None,
        TreeKind::TwoParents,
        192,
    ),
    (
        "<robot name='r'><link name='a'/><link name='b'/><joint name='root_joint' type='fixed'><parent link='a'/><child link='b'/></joint></robot>",
        FREE,
        TreeKind::RootName,
        48,
    ),
    (
        "<robot name='r'><link name='a'/><link name='b'/><link name='c'/><joint name='w' type='continuous'><parent link='a'/><child link='b'/></joint><joint name='w.cos' type='revolute'><parent link='a'/><child link='c'/></joint></robot>",
        None,
        TreeKind::NameTwice,
        141,
    ),
    (
        "<robot name='r'><link name='a'/><link name='b'/><joint name='root_joint.cos' type='prismatic'><parent link='a'/><child link='b'/></joint></robot>",
        LEVEL,
        TreeKind::NameTwice,
        48,
    ),
];

#[test]
fn trees_are_refused(rt: HostRuntime) {
    assert!(rt; are_refused(rt.alloc(), &FAULTS));
}

// A file, and the places of its last link and of its last joint.
#[derive(Drop)]
struct Star {
    text: String,
    link: u64,
    joint: u64,
}

impl Star {
    // Adds a link of this number on the first one, by a joint of this kind.
    fn add(&mut self, alloc: Global, kind: &str, number: u32) -> Result<(), AllocError> {
        self.link = self.text.len() as u64;
        let child = format!(in alloc; "<link name='l{number}'/>")?;
        self.text.push_str(child.as_str())?;
        self.joint = self.text.len() as u64;
        let bearer = format!(in alloc;
            "<joint name='j{number}' type='{kind}'><parent link='l'/><child link='l{number}'/></joint>"
        )?;
        self.text.push_str(bearer.as_str())
    }
}

// Links on a first one, by joints of this kind.
fn star_of(alloc: Global, kind: &str, count: u32) -> Result<Star, AllocError> {
    let mut star = Star {
        text: String::from_str(alloc, "<robot name='r'><link name='l'/>")?,
        link: 0,
        joint: 0,
    };
    for number in 0..count {
        star.add(alloc, kind, number)?;
    }
    star.text.push_str("</robot>")?;
    Ok(star)
}

// Whether the star of so many links on a first one has so many bodies, of which this is the last.
fn ends_with(alloc: Global, kind: &str, links: u32, bodies: u32, last: Stem) -> bool {
    let Ok(star) = star_of(alloc, kind, links) else {
        return false;
    };
    let (link, joint, parent) = last;
    let robot = robot_on(alloc, star.text.as_str(), None);
    matches!(&robot, Some(robot) if robot.bodies() == bodies && is_borne(robot, bodies, link, joint, parent))
}

// Whether the star is refused so, at its last link or its last joint.
fn is_too_large(alloc: Global, kind: &str, links: u32, fault: TreeKind) -> bool {
    let Ok(star) = star_of(alloc, kind, links) else {
        return false;
    };
    let at = if fault == TreeKind::TooManyLinks {
        star.link
    } else {
        star.joint
    };
    has_fault(alloc, star.text.as_str(), None, fault, at)
}

#[test]
fn at_most_256_links(rt: HostRuntime) {
    let alloc = rt.alloc();
    assert!(rt;
        ends_with(alloc, "fixed", 255, 256, ("l254", "j254", 1))
            && is_too_large(alloc, "fixed", 256, TreeKind::TooManyLinks)
    );
}

#[test]
fn at_most_64_columns(rt: HostRuntime) {
    let alloc = rt.alloc();
    assert!(rt;
        ends_with(alloc, "prismatic", 64, 65, ("l63", "j63", 1))
            && is_too_large(alloc, "prismatic", 65, TreeKind::TooManyColumns)
    );
}
