//! Torques of small robots in closed form, and refusals.
use crate::bench::{FAR, Given, HOIST, bench_of, exactly, robot_of};
use rb_num::Iv;
use rb_rnea::{bias, rnea};
use rb_tags::RootKind;
use rb_work::{Capitals, Name, NameKind, RowFault, Work};
use std::alloc::Global;

// The torque of a column, after this answer; nothing if there is no such column.
fn told(answer: Result<(), RowFault>, work: &Work, c: u32) -> Option<Result<Iv, RowFault>> {
    match answer {
        Err(fault) => Some(Err(fault)),
        Ok(()) if c <= work.columns() => Some(Ok(work.T(c))),
        Ok(()) => None,
    }
}

// What `rnea` answers for a column of the robot of a file in a row.
fn torque(
    alloc: Global,
    text: &str,
    root: Option<RootKind>,
    row: &[Given],
    c: u32,
) -> Option<Result<Iv, RowFault>> {
    let Some(robot) = robot_of(alloc, text, root) else {
        return None;
    };
    let Ok(mut b) = bench_of(alloc, robot, row) else {
        return None;
    };
    let answer = rnea(&b.robot, &b.state, &mut b.work);
    told(answer, &b.work, c)
}

// What `bias` answers.
fn held(alloc: Global, text: &str, row: &[Given], c: u32) -> Option<Result<Iv, RowFault>> {
    let Some(robot) = robot_of(alloc, text, None) else {
        return None;
    };
    let Ok(mut b) = bench_of(alloc, robot, row) else {
        return None;
    };
    let answer = bias(&b.robot, &b.state, &mut b.work);
    told(answer, &b.work, c)
}

// Whether a value is found, and is this.
fn is_value(found: Option<Result<Iv, RowFault>>, value: Iv) -> bool {
    matches!(found, Some(Ok(iv)) if iv == value)
}

// Whether the row is refused so.
fn is_refused(found: Option<Result<Iv, RowFault>>, fault: RowFault) -> bool {
    matches!(found, Some(Err(refused)) if refused == fault)
}

// A rod that points along x and turns up.
const ARM: &str =
    "<robot name='arm'><link name='base'/><link name='rod'><inertial><origin xyz='0.5 0 0'/><mass value='2'/></inertial></link><joint name='hinge' type='revolute'><parent link='base'/><child link='rod'/><axis xyz='0 -1 0'/></joint></robot>";

// Whether the ends are so many units outside these, at most.
fn is_around(iv: Iv, low: i128, high: i128, by: u32) -> bool {
    let by = i128::from(by);
    iv.lo() <= low && low <= iv.lo() + by && iv.hi() - by <= high && high <= iv.hi()
}

// m g l cos q = 9.81 cos q.
#[test]
fn an_arm(rt: HostRuntime) {
    let half = [Given::Entry(0, 500_000_000_000, 500_000_000_000)];
    let far = [Given::Entry(0, 9_000_000_000_000, 9_000_000_000_000)];
    let t = torque(rt.alloc(), ARM, None, &half, 1);
    let past = torque(rt.alloc(), ARM, None, &far, 1);
    let name = Name::one(NameKind::q, 2);
    assert!(rt;
        matches!(t, Some(Ok(t)) if is_around(t, 8_609_084_932_144, 8_609_084_932_145, 20))
            && is_refused(past, RowFault::Range { name })
    );
}

const BOX: &str =
    "<robot name='box'><link name='box'><inertial><mass value='700000'/></inertial></link></robot>";

// m g = 700000 * 9.81 along z
#[test]
fn a_floating_box(rt: HostRuntime) {
    let free = Some(RootKind::Floating);
    let up = exactly(6_867_000_000_000_000_000);
    assert!(rt; is_value(torque(rt.alloc(), BOX, free, &[], 3), up));
}

// A table that turns about z, and a bead of 2 kg that slides along its x axis.
const TABLE: &str =
    "<robot name='table'><link name='base'/><link name='table'/><link name='bead'><inertial><mass value='2'/></inertial></link><joint name='turn' type='continuous'><parent link='base'/><child link='table'/><axis xyz='0 0 1'/></joint><joint name='slide' type='prismatic'><parent link='table'/><child link='bead'/><axis xyz='1 0 0'/></joint></robot>";

// The bead is 0.5 m out, moves outward at 4 m/s while the table turns at 3 rad/s, and gains 1.5 m/s².
const SLIDING: [Given; 4] = [
    Given::Entry(2, 500_000_000_000, 500_000_000_000),
    Given::Speed(0, 3_000_000_000_000),
    Given::Speed(1, 4_000_000_000_000),
    Given::Acceleration(1, 1_500_000_000_000),
];

// The table's joint bears 2 m r u w = 2 * 2 * 0.5 * 4 * 3, and the bead's m (a - r w²) = 2 (a - 0.5 * 9).
#[test]
fn a_bead_on_a_table(rt: HostRuntime) {
    let alloc = rt.alloc();
    let turning = exactly(24_000_000_000_000);
    let inward = exactly(-9_000_000_000_000);
    let gaining = exactly(-6_000_000_000_000);
    assert!(rt;
        is_value(torque(alloc, TABLE, None, &SLIDING, 1), turning)
            && is_value(torque(alloc, TABLE, None, &SLIDING, 2), gaining)
            && is_value(held(alloc, TABLE, &SLIDING, 2), inward)
    );
}

// Where the second moves by x, the links rise by 2 x, 3 x, 2 x and 3 x. So the weights bear on it with (2 * 1 + 3 * 2 + 2 * 3 + 3 * 5) g = 29 g, and
// it moves 4 * 1 + 9 * 2 + 4 * 3 + 9 * 5 = 79 kg.
#[test]
fn a_hoist_with_two_followers(rt: HostRuntime) {
    let alloc = rt.alloc();
    let row = [
        Given::Entry(0, 500_000_000_000, 500_000_000_000),
        Given::Acceleration(0, 1_000_000_000_000),
    ];
    // 29 * 9.81 + 79
    let moved = exactly(363_490_000_000_000);
    let still = exactly(284_490_000_000_000);
    assert!(rt;
        is_value(torque(alloc, HOIST, None, &row, 1), moved)
            && is_value(held(alloc, HOIST, &row, 1), still)
    );
}

#[test]
fn an_entry_of_a_follower_that_is_refused(rt: HostRuntime) {
    let much = [Given::Entry(0, 1_200_000_000_000_000_000, 1_200_000_000_000_000_000)];
    let name = Name::one(NameKind::q, 3);
    let far = torque(rt.alloc(), FAR, None, &much, 1);
    assert!(rt; is_refused(far, RowFault::Size { name }));
}
