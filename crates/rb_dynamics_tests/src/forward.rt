//! Accelerations of small robots in closed form, and a refusal.
use crate::bench::{FAR, Given, LIFT, bench_of, exactly, robot_of};
use rb_contact::forward;
use rb_num::Iv;
use rb_work::{Name, NameKind, RowFault, Work};
use std::alloc::Global;

// The acceleration of a column, after this answer; nothing if there is no such column.
fn told(answer: Result<(), RowFault>, work: &Work, c: u32) -> Option<Result<Iv, RowFault>> {
    match answer {
        Err(fault) => Some(Err(fault)),
        Ok(()) if c <= work.columns() => Some(Ok(work.accel(c))),
        Ok(()) => None,
    }
}

// What `forward` answers for a column of the robot of a file in a row.
fn acceleration(alloc: Global, text: &str, row: &[Given], c: u32) -> Option<Result<Iv, RowFault>> {
    let Some(robot) = robot_of(alloc, text, None) else {
        return None;
    };
    let Ok(mut b) = bench_of(alloc, robot, row) else {
        return None;
    };
    let answer = forward(&b.robot, &b.state, &mut b.work);
    told(answer, &b.work, c)
}

// (22.62 - 2 * 9.81) / 2, whatever acceleration the row has.
#[test]
fn a_lift(rt: HostRuntime) {
    let row = [
        Given::Torque(0, 22_620_000_000_000),
        Given::Acceleration(0, 7_000_000_000_000),
    ];
    let lifted = exactly(1_500_000_000_000);
    let found = acceleration(rt.alloc(), LIFT, &row, 1);
    assert!(rt; matches!(found, Some(Ok(iv)) if iv == lifted));
}

// The mass passes the limit.
#[test]
fn a_mass_that_is_refused(rt: HostRuntime) {
    let size = RowFault::Size {
        name: Name::two(NameKind::M, 1, 1),
    };
    let found = acceleration(rt.alloc(), FAR, &[], 1);
    assert!(rt; matches!(found, Some(Err(fault)) if fault == size));
}
