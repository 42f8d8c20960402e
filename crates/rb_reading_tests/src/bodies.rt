//! The constants of a body from the numbers of its link and its joint.
use crate::wholes::whole;
use rb_body::{BodyFault, LinkRaw, inertia_of, joint_of};
use rb_joint::{AnyJoint, JointModel};
use rb_num::{Iv, S};
use rb_spatial::Vec3;
use rb_urdf::UrdfKind;

fn three(n: [i32; 3]) -> [Iv; 3] {
    [whole(n[0]), whole(n[1]), whole(n[2])]
}

fn vector(n: [i32; 3]) -> Vec3 {
    Vec3::new(whole(n[0]), whole(n[1]), whole(n[2]))
}

fn six(n: [i32; 6]) -> [Iv; 6] {
    [
        whole(n[0]),
        whole(n[1]),
        whole(n[2]),
        whole(n[3]),
        whole(n[4]),
        whole(n[5]),
    ]
}

// A link of this mass, centre and inertia, whose axes are turned about z by `yaw`.
fn link(mass: i32, com: [i32; 3], yaw: Iv, numbers: [i32; 6]) -> LinkRaw {
    LinkRaw {
        mass: whole(mass),
        com: three(com),
        rpy: [Iv::ZERO, Iv::ZERO, yaw],
        six: six(numbers),
    }
}

// Half of pi, to twelve places.
fn quarter() -> Iv {
    Iv::new(1_570_796_326_794, 1_570_796_326_795)
}

// Whether `v` has `n` in it, and its ends are at most fifty parts of 10^-12 away.
fn is_near(v: Iv, n: i32) -> bool {
    let end = i128::from(n) * S;
    (end - 50..=end).contains(&v.lo()) && (end..=end + 50).contains(&v.hi())
}

// Whether the link gives a body of its mass with this first moment and this inertia.
fn gives(link: &LinkRaw, first: [i32; 3], numbers: [i32; 6]) -> bool {
    match inertia_of(link) {
        Ok(body) => {
            body.mass == link.mass && body.first == vector(first) && body.six == six(numbers)
        }
        Err(_) => false,
    }
}

#[test]
fn inertias_about_the_origin(rt: HostRuntime) {
    let below = link(1, [0, 0, -1], Iv::ZERO, [0, 0, 0, 0, 0, 0]);
    assert!(rt; gives(&below, [0, 0, -1], [1, 0, 0, 1, 0, 0]));
    let beside = link(2, [1, 2, 3], Iv::ZERO, [0, 0, 0, 0, 0, 0]);
    assert!(rt; gives(&beside, [2, 4, 6], [26, -4, -6, 20, -12, 10]));
    let plain = link(5, [0, 0, 0], Iv::ZERO, [1, 0, 0, 2, 0, 3]);
    assert!(rt; gives(&plain, [0, 0, 0], [1, 0, 0, 2, 0, 3]));
}

// A quarter turn about z brings x to y and y to minus x.
#[test]
fn turned_inertias(rt: HostRuntime) {
    let long = inertia_of(&link(1, [0, 0, 0], quarter(), [1, 0, 0, 2, 0, 3]));
    assert!(rt;
        matches!(long, Ok(i) if is_near(i.six[0], 2) && is_near(i.six[3], 1) && is_near(i.six[5], 3))
    );
    let skew = inertia_of(&link(1, [0, 0, 0], quarter(), [0, 0, 1, 0, 0, 0]));
    assert!(rt; matches!(skew, Ok(i) if is_near(i.six[2], 0) && is_near(i.six[4], 1)));
}

#[test]
fn refused_links(rt: HostRuntime) {
    let turned = inertia_of(&link(1, [0, 0, 0], whole(9), [0, 0, 0, 0, 0, 0]));
    assert!(rt; matches!(turned, Err(BodyFault::AngleRange)));
    let large = Iv::new(S * S, S * S);
    let heavy = LinkRaw {
        mass: large,
        com: [Iv::ZERO, Iv::ZERO, large],
        rpy: [Iv::ZERO, Iv::ZERO, Iv::ZERO],
        six: six([0, 0, 0, 0, 0, 0]),
    };
    assert!(rt; matches!(inertia_of(&heavy), Err(BodyFault::Size)));
}

// The factor of the axis two metres along z, and the axis of the model.
fn along_z(kind: UrdfKind) -> Option<(Iv, Vec3)> {
    let (joint, raw) = joint_of(kind, three([1, 2, 3]), three([0, 0, 0]), three([0, 0, 2])).ok()?;
    match joint {
        AnyJoint::Fixed(m) => Some((raw.factor, m.column(0).lin)),
        AnyJoint::Revolute(m) => Some((raw.factor, m.column(0).ang)),
        AnyJoint::Continuous(m) => Some((raw.factor, m.column(0).ang)),
        AnyJoint::Prismatic(m) => Some((raw.factor, m.column(0).lin)),
        AnyJoint::Planar(m) => Some((raw.factor, m.column(0).lin)),
        AnyJoint::Free(m) => Some((raw.factor, m.column(5).ang)),
    }
}

#[test]
fn axes_of_length_one(rt: HostRuntime) {
    let half = Iv::new(S / 2, S / 2);
    let z = vector([0, 0, 1]);
    assert!(rt; along_z(UrdfKind::Revolute) == Some((half, z)));
    assert!(rt; along_z(UrdfKind::Prismatic) == Some((half, z)));
    assert!(rt; along_z(UrdfKind::Continuous) == Some((half, z)));
    assert!(rt; along_z(UrdfKind::Fixed) == Some((Iv::ZERO, vector([0, 0, 0]))));
    assert!(rt; along_z(UrdfKind::Planar) == Some((Iv::ZERO, vector([1, 0, 0]))));
    assert!(rt; along_z(UrdfKind::Floating) == Some((Iv::ZERO, z)));
}

#[test]
fn refused_joints(rt: HostRuntime) {
    let nothing = three([0, 0, 0]);
    let zero = joint_of(UrdfKind::Revolute, nothing, nothing, nothing);
    assert!(rt; matches!(zero, Err(BodyFault::ZeroAxis)));
    let long = joint_of(
        UrdfKind::Prismatic,
        nothing,
        nothing,
        three([1_152_922, 0, 0]),
    );
    assert!(rt; matches!(long, Err(BodyFault::Size)));
    let turned = joint_of(UrdfKind::Revolute, nothing, three([0, 9, 0]), nothing);
    assert!(rt; matches!(turned, Err(BodyFault::AngleRange)));
}
