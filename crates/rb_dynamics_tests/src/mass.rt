//! Mass tables of small robots in closed form, and a refusal.
use crate::bench::{FAR, Given, HOIST, bench_of, robot_of, whole};
use rb_mass::crba;
use rb_num::Iv;
use rb_work::{Name, NameKind, RowFault, Work};
use std::alloc::Global;

// The entry of two columns, after this answer; nothing if there are no such columns.
fn told(answer: Result<(), RowFault>, work: &Work, c: u32, d: u32) -> Option<Result<Iv, RowFault>> {
    match answer {
        Err(fault) => Some(Err(fault)),
        Ok(()) if c <= work.columns() && d <= work.columns() => Some(Ok(work.mass(c, d))),
        Ok(()) => None,
    }
}

// What `crba` answers for two columns of the robot of a file in a row.
fn mass(alloc: Global, text: &str, row: &[Given], c: u32, d: u32) -> Option<Result<Iv, RowFault>> {
    let Some(robot) = robot_of(alloc, text, None) else {
        return None;
    };
    let Ok(mut b) = bench_of(alloc, robot, row) else {
        return None;
    };
    let answer = crba(&b.robot, &b.state, &mut b.work);
    told(answer, &b.work, c, d)
}

// Whether the entry of two columns is this whole number.
fn has_mass(alloc: Global, text: &str, row: &[Given], c: u32, d: u32, number: i32) -> bool {
    matches!(mass(alloc, text, row, c, d), Some(Ok(found)) if found == whole(number))
}

// Where the second moves by x and the fourth by y, the links rise by 2 x, 3 x, 2 x and 3 x + y.
#[test]
fn slides_that_follow_others(rt: HostRuntime) {
    let alloc = rt.alloc();
    assert!(rt;
        has_mass(alloc, HOIST, &[], 1, 1, 4 + 18 + 12 + 45)
            && has_mass(alloc, HOIST, &[], 2, 1, 15)
            && has_mass(alloc, HOIST, &[], 2, 2, 5)
    );
}

// A rod of 1 kg that hangs 1 m below its hinge, and another slide on the base.
const ARM: &str =
    "<robot name='arm'><link name='base'/><link name='rod'><inertial><origin xyz='0 0 -1'/><mass value='1'/></inertial></link><link name='car'><inertial><mass value='2'/></inertial></link><joint name='hinge' type='revolute'><parent link='base'/><child link='rod'/><axis xyz='0 1 0'/></joint><joint name='slide' type='prismatic'><parent link='base'/><child link='car'/></joint></robot>";

#[test]
fn an_arm_and_a_car(rt: HostRuntime) {
    let alloc = rt.alloc();
    let some = [Given::Entry(0, 100_000_000_000, 200_000_000_000)];
    assert!(rt; has_mass(alloc, ARM, &some, 1, 1, 1) && has_mass(alloc, ARM, &some, 2, 2, 2));
}

// The square of the multiplier passes the limit.
#[test]
fn a_square_that_is_refused(rt: HostRuntime) {
    let square = RowFault::Size {
        name: Name::two(NameKind::M, 1, 1),
    };
    let found = mass(rt.alloc(), FAR, &[], 1, 1);
    assert!(rt; matches!(found, Some(Err(fault)) if fault == square));
}
