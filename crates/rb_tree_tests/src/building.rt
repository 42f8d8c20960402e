//! Robots built of texts, also with a second file: the joint of the root, and refusals one before another, with places counted by hand.
use rb_srdf::{Srdf, read_srdf};
use rb_tags::{RootKind, read_tags};
use rb_tree::{Robot, TreeFault, TreeKind, UrdfKind, WhichFile};
use rb_urdf::{UrdfRobot, read_urdf};
use std::alloc::{AllocError, Global};

// The robot file of a text.
fn urdf_in(alloc: Global, text: &str) -> Option<UrdfRobot> {
    let Ok(tags) = read_tags(alloc, text.as_bytes()) else {
        return None;
    };
    read_urdf(alloc, &tags).ok()
}

// The second file of a text.
fn srdf_in(alloc: Global, text: &str) -> Option<Srdf> {
    let Ok(tags) = read_tags(alloc, text.as_bytes()) else {
        return None;
    };
    read_srdf(alloc, &tags).ok()
}

// The robot of a file, with a root of this kind.
pub(crate) fn robot_on(alloc: Global, text: &str, root: Option<RootKind>) -> Option<Robot> {
    let Some(urdf) = urdf_in(alloc, text) else {
        return None;
    };
    Robot::build(alloc, &urdf, None, root).ok()
}

// The fault of a file that the reader takes, with a root of this kind.
pub(crate) fn fault_on(alloc: Global, text: &str, root: Option<RootKind>) -> Option<TreeFault> {
    let Some(urdf) = urdf_in(alloc, text) else {
        return None;
    };
    Robot::build(alloc, &urdf, None, root).err()
}

// The robot of two files.
pub(crate) fn robot_of_two(
    alloc: Global,
    urdf: &str,
    srdf: &str,
    root: Option<RootKind>,
) -> Option<Robot> {
    let Some(urdf) = urdf_in(alloc, urdf) else {
        return None;
    };
    let Some(srdf) = srdf_in(alloc, srdf) else {
        return None;
    };
    Robot::build(alloc, &urdf, Some(&srdf), root).ok()
}

// The fault of two files that the readers take.
pub(crate) fn fault_of_two(alloc: Global, urdf: &str, srdf: &str) -> Option<TreeFault> {
    let Some(urdf) = urdf_in(alloc, urdf) else {
        return None;
    };
    let Some(srdf) = srdf_in(alloc, srdf) else {
        return None;
    };
    Robot::build(alloc, &urdf, Some(&srdf), None).err()
}

// A robot file, and what stands about the inside of a second file.
pub(crate) struct Semantics {
    pub(crate) urdf: &'static str,
    pub(crate) head: &'static str,
    pub(crate) tail: &'static str,
}

impl Semantics {
    // The second file with this inside.
    fn file(&self, alloc: Global, inside: &str) -> Result<String, AllocError> {
        let mut text = String::from_str(alloc, self.head)?;
        text.push_str(inside)?;
        text.push_str(self.tail)?;
        Ok(text)
    }

    // The robot with this inside of its second file.
    pub(crate) fn robot(&self, alloc: Global, inside: &str) -> Option<Robot> {
        let Ok(text) = self.file(alloc, inside) else {
            return None;
        };
        robot_of_two(alloc, self.urdf, text.as_str(), None)
    }

    // The fault of the robot with this inside of its second file.
    fn fault(&self, alloc: Global, inside: &str) -> Option<TreeFault> {
        let Ok(text) = self.file(alloc, inside) else {
            return None;
        };
        fault_of_two(alloc, self.urdf, text.as_str())
    }
}

// The inside of a second file, and the kind and the place of its fault.
pub(crate) type RefusedInside = (&'static str, TreeKind, u64);

pub(crate) fn are_refused_inside(
    alloc: Global,
    semantics: &Semantics,
    rows: &[RefusedInside],
) -> bool {
    for (inside, kind, at) in rows {
        let fault = TreeFault {
            kind: *kind,
            file: WhichFile::Srdf,
            at: *at,
        };
        if semantics.fault(alloc, inside) != Some(fault) {
            return false;
        }
    }
    true
}

// An arm of two links.
const ARM: &str =
    "<robot name='arm'><link name='base'/><link name='hand'/><joint name='turn' type='continuous'><parent link='base'/><child link='hand'/></joint></robot>";

const FREE: &str =
    "<robot name='arm'><virtual_joint name='air' type='floating' parent_frame='world' child_link='base'/></robot>";

type Root = (&'static str, Option<RootKind>, &'static str, UrdfKind);

// The second file of the arm, the root that is asked for, and the name and the kind of the joint that bears the root. The first that bears it counts,
// and what is asked for before it.
const ROOTS: [Root; 5] = [
    (
        "<robot name='arm'><virtual_joint name='turn' type='fixed' parent_frame='world' child_link='base'/></robot>",
        None,
        "turn",
        UrdfKind::Fixed,
    ),
    (
        "<robot name='arm'><virtual_joint name='grip' type='planar' parent_frame='world' child_link='hand'/><virtual_joint name='floor' type='planar' parent_frame='world' child_link='base'/><virtual_joint name='air' type='floating' parent_frame='world' child_link='base'/></robot>",
        None,
        "floor",
        UrdfKind::Planar,
    ),
    (FREE, None, "air", UrdfKind::Floating),
    (FREE, Some(RootKind::Planar), "root_joint", UrdfKind::Planar),
    (
        "<robot name='arm'></robot>",
        None,
        "root_joint",
        UrdfKind::Fixed,
    ),
];

// Whether a joint of this name and kind bears the root of a robot of two bodies.
fn is_borne(robot: &Robot, name: &str, kind: UrdfKind) -> bool {
    robot.bodies() == 2 && robot.joint_name(1) == name.as_bytes() && robot.joint_raw(1).kind == kind
}

fn are_borne(alloc: Global, rows: &[Root]) -> bool {
    for (semantics, root, name, kind) in rows {
        let robot = robot_of_two(alloc, ARM, semantics, *root);
        if !matches!(&robot, Some(robot) if is_borne(robot, name, *kind)) {
            return false;
        }
    }
    true
}

#[test]
fn roots_are_borne(rt: HostRuntime) {
    assert!(rt; are_borne(rt.alloc(), &ROOTS));
}

// A group that names no link, and a state that gives the joint too many numbers.
const UNKNOWN: &str =
    "<robot name='arm'><group name='foot'><link name='foot'/></group><group_state name='up' group='foot'><joint name='turn' value='1 0 0'/></group_state></robot>";

type Refused = (&'static str, &'static str, WhichFile, TreeKind, u64);

// The two files, and the file, the kind and the place of the fault.
const FAULTS: [Refused; 6] = [
    (
        ARM,
        " <robot name='leg'><virtual_joint name='v' type='fixed' parent_frame='world' child_link='foot'/></robot>",
        WhichFile::Srdf,
        TreeKind::OtherRobot,
        1,
    ),
    (
        "<robot name='arm'><link name='base'/><link name='hand'/></robot>",
        "<robot name='arm'><virtual_joint name='v' type='fixed' parent_frame='world' child_link='turn'/></robot>",
        WhichFile::Srdf,
        TreeKind::UnknownName,
        18,
    ),
    (
        "<robot name='arm'><link name='base'/><link name='hand'/><link name='lid'/><joint name='turn' type='fixed'><parent link='base'/><child link='hand'/></joint></robot>",
        FREE,
        WhichFile::Urdf,
        TreeKind::TwoRoots,
        56,
    ),
    (
        ARM,
        "<robot name='arm'><virtual_joint name='turn' type='planar' parent_frame='world' child_link='base'/></robot>",
        WhichFile::Urdf,
        TreeKind::RootName,
        56,
    ),
    (
        "<robot name='arm'><link name='base'/><link name='hand'/><joint name='turn' type='continuous'><parent link='base'/><child link='hand'/><axis xyz='0 0 0'/></joint></robot>",
        UNKNOWN,
        WhichFile::Urdf,
        TreeKind::ZeroAxis,
        56,
    ),
    (ARM, UNKNOWN, WhichFile::Srdf, TreeKind::UnknownName, 18),
];

fn are_refused(alloc: Global, rows: &[Refused]) -> bool {
    for (robot, semantics, file, kind, at) in rows {
        let fault = TreeFault {
            kind: *kind,
            file: *file,
            at: *at,
        };
        if fault_of_two(alloc, robot, semantics) != Some(fault) {
            return false;
        }
    }
    true
}

#[test]
fn two_files_are_refused(rt: HostRuntime) {
    assert!(rt; are_refused(rt.alloc(), &FAULTS));
}
