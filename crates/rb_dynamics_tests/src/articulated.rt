//! Accelerations of small robots in closed form, and a refusal.
use crate::bench::{Given, LEAF, STACK, bench_of, exactly, robot_of};
use rb_aba::aba;
use rb_num::Iv;
use rb_work::{Name, NameKind, RowFault, Work};
use std::alloc::Global;

// The acceleration of a column, after this answer; nothing if there is no such column.
fn told(answer: Result<(), RowFault>, work: &Work, c: u32) -> Option<Result<Iv, RowFault>> {
    match answer {
        Err(fault) => Some(Err(fault)),
        Ok(()) if c <= work.columns() => Some(Ok(work.x(c))),
        Ok(()) => None,
    }
}

// What `aba` answers for a column of the robot of a file in a row.
fn acceleration(alloc: Global, text: &str, row: &[Given], c: u32) -> Option<Result<Iv, RowFault>> {
    let Some(robot) = robot_of(alloc, text, None) else {
        return None;
    };
    let Ok(mut b) = bench_of(alloc, robot, row) else {
        return None;
    };
    if b.robot.has_mimic() {
        return None;
    }
    let answer = aba(&b.robot, &b.state, &mut b.work);
    told(answer, &b.work, c)
}

// Whether a column of the stack has this acceleration in a row.
fn moves(alloc: Global, row: &[Given], c: u32, value: Iv) -> bool {
    matches!(acceleration(alloc, STACK, row, c), Some(Ok(found)) if found == value)
}

// (2 1; 1 1) x = (3, 1)
#[test]
fn a_stack(rt: HostRuntime) {
    let alloc = rt.alloc();
    let pushed = [
        Given::Torque(0, 3_000_000_000_000),
        Given::Torque(1, 1_000_000_000_000),
    ];
    assert!(rt;
        moves(alloc, &pushed, 1, exactly(2_000_000_000_000))
            && moves(alloc, &pushed, 2, exactly(-1_000_000_000_000))
    );
}

// A body without inertia gives no pivot.
#[test]
fn a_leaf(rt: HostRuntime) {
    let name = Name::one(NameKind::D, 1);
    let zero = RowFault::Pivot { name, iv: Iv::ZERO };
    let found = acceleration(rt.alloc(), LEAF, &[], 1);
    assert!(rt; matches!(found, Some(Err(fault)) if fault == zero));
}
