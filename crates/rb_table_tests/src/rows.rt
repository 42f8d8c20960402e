//! Rows of an arm, with faults counted by hand.
ghost use Rattle.rb_tree.specs.Robot.{Tree};
ghost use Rattle.rb_tree.specs.State.{Fits};
ghost use Rattle.rb_rows.specs.Header.{HasPlaces};

use crate::robots::{ARM, robot_on};
use rb_num::Iv;
use rb_rows::{FieldFault, FieldKind, Header, LineFault, read_row};
use rb_tree::{Robot, State};
use std::alloc::Global;

const ONE: i64 = 1_000_000_000_000;

// The longest line that is read.
const LONG: usize = 65_536;

fn exactly(end: i64) -> Iv {
    let end = i128::from(end);
    Iv::new(end, end)
}

// A line under a header, read into a state whose numbers are all neutral.
fn read_under(
    alloc: Global,
    header: &Header,
    line: &[u8],
    state: &mut State,
) -> Option<Result<(), LineFault>>
    requires { HasPlaces header.now state.old }
    ensures { (tree : Tree) → Fits tree state.old → Fits tree state.new }
{
    if line.len() > LONG {
        return None;
    }
    Some(read_row(alloc, header, line, state))
}

// The speeds of the first two columns and the torque of the first that a line under these names tells.
fn told(
    alloc: Global,
    robot: &Robot,
    names: &[u8],
    line: &[u8],
) -> Option<Result<[Iv; 3], LineFault>> {
    if names.len() > LONG || robot.nv() < 2 {
        return None;
    }
    let Ok(header) = Header::read(alloc, robot, names) else {
        return None;
    };
    let Ok(mut state) = State::new(alloc, robot) else {
        return None;
    };
    match read_under(alloc, &header, line, &mut state) {
        Some(Ok(())) => Some(Ok([state.v(0), state.v(1), state.tau(0)])),
        Some(Err(fault)) => Some(Err(fault)),
        None => None,
    }
}

// Whether a line under these names tells these speeds and this torque of the first.
fn tells(
    alloc: Global,
    robot: &Robot,
    names: &[u8],
    line: &[u8],
    speeds: [i64; 2],
    torque: i64,
) -> bool {
    let all = [exactly(speeds[0]), exactly(speeds[1]), exactly(torque)];
    matches!(told(alloc, robot, names, line), Some(Ok(found)) if found == all)
}

fn is_refused(
    alloc: Global,
    robot: &Robot,
    names: &[u8],
    line: &[u8],
    kind: FieldKind,
    field: u32,
) -> bool {
    let fault = FieldFault { kind, field };
    matches!(told(alloc, robot, names, line), Some(Err(LineFault::Field(found))) if found == fault)
}

const FOUR: &[u8] = b"v.turn,#when,tau.lift,v.lift";

const THREE: &[u8] = b"v.turn,#when,tau.lift";

const TURN: &[u8] = b"v.turn";

// The names of columns, a line, and the speeds and the torque that it tells. Of the lines that say the same, one has no quotes, CR or byte order mark.
type Told = (&'static [u8], &'static [u8], [i64; 2], i64);

const TOLD: [Told; 6] = [
    (FOUR, b"1,noon,2,3", [3 * ONE, ONE], 2 * ONE),
    (FOUR, b"\"1\",\"a,\"\"b\",,\"3", [3 * ONE, ONE], 0),
    (FOUR, b"\xEF\xBB\xBF1,,,", [0, ONE], 0),
    (FOUR, b"1,,,\r", [0, ONE], 0),
    (FOUR, b"1,\xEF\xBB\xBF,2,3", [3 * ONE, ONE], 2 * ONE),
    (TURN, b"\"5\"", [0, 5 * ONE], 0),
];

fn tell_all(alloc: Global, robot: &Robot, rows: &[Told]) -> bool {
    for (names, line, speeds, torque) in rows {
        if !tells(alloc, robot, names, line, *speeds, *torque) {
            return false;
        }
    }
    true
}

#[test]
fn rows_tell_the_numbers_of_their_columns(rt: HostRuntime) {
    let arm = robot_on(rt.alloc(), ARM, None);
    assert!(rt; matches!(&arm, Some(arm) if tell_all(rt.alloc(), arm, &TOLD)));
}

// The names of columns, a line, and the kind and the field of its fault.
type Refused = (&'static [u8], &'static [u8], FieldKind, u32);

const FAULTS: [Refused; 7] = [
    (THREE, b"1\r2", FieldKind::Count, 0),
    (THREE, b"x,y", FieldKind::Count, 2),
    (THREE, b"x,y,z,", FieldKind::Count, 4),
    (THREE, b"1,y,z", FieldKind::NotNumber, 3),
    (THREE, b"2..1,,", FieldKind::Backwards, 1),
    (THREE, b"1,,1e13", FieldKind::TooLarge, 3),
    (TURN, b"5\"", FieldKind::NotNumber, 1),
];

fn are_refused(alloc: Global, robot: &Robot, rows: &[Refused]) -> bool {
    for (names, line, kind, field) in rows {
        if !is_refused(alloc, robot, names, line, *kind, *field) {
            return false;
        }
    }
    true
}

#[test]
fn rows_are_refused_at_their_first_bad_field(rt: HostRuntime) {
    let arm = robot_on(rt.alloc(), ARM, None);
    assert!(rt; matches!(&arm, Some(arm) if are_refused(rt.alloc(), arm, &FAULTS)));
}
