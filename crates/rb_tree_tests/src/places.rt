//! Places of the bodies of a row in closed form, and the names of what is refused.
ghost use Rattle.std.specs.Prelude.{IfOk};
ghost use Rattle.rb_tree.specs.Places.{IsFor};
ghost use Rattle.rb_tree.specs.State.{Fits};

use crate::building::robot_on;
use crate::robots::BOX;
use rb_num::{Iv, S};
use rb_spatial::{Mat3, Place, Vec3};
use rb_tags::RootKind;
use rb_tree::{Robot, State, place_all};
use rb_work::{Capitals, Name, NameKind, RowFault, Work};
use std::alloc::{AllocError, Global};

fn work_for(alloc: Global, robot: &Robot) -> Result<Work, AllocError>
    ensures { IfOk result (IsFor robot.now) }
{
    Work::new(alloc, robot.bodies(), robot.full(), robot.ups(), 0)
}

// Sets an entry that is there.
fn put(robot: &Robot, state: &mut State, k: usize, entry: Iv)
    requires { Fits robot.now state.old }
    ensures { Fits robot.now state.new }
{
    if k < robot.nq() as usize {
        state.set_q(k, entry);
    }
}

// The neutral state of the robot, with these entries from the first on.
fn state_at(alloc: Global, robot: &Robot, q: [Iv; 7]) -> Result<State, AllocError>
    ensures { IfOk result (Fits robot.now) }
{
    let mut state = State::new(alloc, robot)?;
    put(robot, &mut state, 0, q[0]);
    put(robot, &mut state, 1, q[1]);
    put(robot, &mut state, 2, q[2]);
    put(robot, &mut state, 3, q[3]);
    put(robot, &mut state, 4, q[4]);
    put(robot, &mut state, 5, q[5]);
    put(robot, &mut state, 6, q[6]);
    Ok(state)
}

fn whole(n: i32) -> Iv {
    let end = i128::from(n) * S;
    Iv::new(end, end)
}

fn vector(x: i32, y: i32, z: i32) -> Vec3 {
    Vec3::new(whole(x), whole(y), whole(z))
}

// Whether a work holds these entries and this place for a body.
fn is_found(work: &Work, i: u32, q: [Iv; 7], place: Place) -> bool {
    i <= work.bodies() && *work.q(i) == q && *work.X(i) == place
}

// A quarter turn of the root.
fn root_is_found(work: &Work) -> bool {
    let zero = Iv::ZERO;
    let place = Place {
        e: Mat3::new(vector(0, 1, 0), vector(-1, 0, 0), vector(0, 0, 1)),
        r: vector(4, 5, 0),
    };
    let q = [whole(4), whole(5), zero, Iv::ONE, zero, zero, zero];
    is_found(work, 1, q, place)
}

// One of the hinge about y.
fn hinge_is_found(work: &Work) -> bool {
    let zero = Iv::ZERO;
    let place = Place {
        e: Mat3::new(vector(0, 0, -1), vector(0, 1, 0), vector(1, 0, 0)),
        r: vector(1, 2, 3),
    };
    is_found(
        work,
        2,
        [zero, Iv::ONE, zero, zero, zero, zero, zero],
        place,
    )
}

// A shift of the slider along x.
fn slider_is_found(work: &Work) -> bool {
    let zero = Iv::ZERO;
    let place = Place {
        e: Mat3::new(vector(1, 0, 0), vector(0, 1, 0), vector(0, 0, 1)),
        r: vector(2, 0, 1),
    };
    is_found(
        work,
        3,
        [whole(2), zero, zero, zero, zero, zero, zero],
        place,
    )
}

const CRANE: &str =
    "<robot name='crane'><link name='a'/><link name='b'/><link name='c'/><joint name='hinge' type='continuous'><parent link='a'/><child link='b'/><origin xyz='1 2 3'/><axis xyz='0 1 0'/></joint><joint name='slider' type='prismatic'><parent link='b'/><child link='c'/><origin xyz='0 0 1'/></joint></robot>";

// Whether the crane's places are found.
fn has_places(alloc: Global, crane: &Robot) -> bool {
    let (zero, one) = (Iv::ZERO, Iv::ONE);
    let q = [whole(4), whole(5), zero, one, zero, one, whole(2)];
    let Ok(state) = state_at(alloc, crane, q) else {
        return false;
    };
    let Ok(mut work) = work_for(alloc, crane) else {
        return false;
    };
    matches!(place_all(crane, &state, &mut work), Ok(()))
        && root_is_found(&work)
        && hinge_is_found(&work)
        && slider_is_found(&work)
}

#[test]
fn a_planar_root_a_hinge_and_a_slider(rt: HostRuntime) {
    let crane = robot_on(rt.alloc(), CRANE, Some(RootKind::Planar));
    assert!(rt; matches!(&crane, Some(crane) if has_places(rt.alloc(), crane)));
}

// Joints of one entry, which bear the bodies 2 and 3.
const PAIR: &str =
    "<robot name='pair'><link name='a'/><link name='b'/><link name='c'/><joint name='slider' type='prismatic'><parent link='a'/><child link='b'/></joint><joint name='hinge' type='revolute'><parent link='b'/><child link='c'/></joint></robot>";

// Whether the places of the robot at these entries are refused so, or not at all.
fn is_refused(alloc: Global, robot: &Robot, q: [Iv; 7], fault: Option<RowFault>) -> bool {
    let Ok(state) = state_at(alloc, robot, q) else {
        return false;
    };
    let Ok(mut work) = work_for(alloc, robot) else {
        return false;
    };
    place_all(robot, &state, &mut work).err() == fault
}

// An angle of 8 is within the limit of an angle. A shift by 2^100 units is not within that of a product.
fn refuses_the_first(alloc: Global, pair: &Robot) -> bool {
    let zero = Iv::ZERO;
    let far = Iv::new(1 << 100, 1 << 100);
    let past = Iv::new(0, 8 * S + 1);
    let size = RowFault::Size {
        name: Name::one(NameKind::X, 2),
    };
    let range = RowFault::Range {
        name: Name::one(NameKind::q, 3),
    };
    is_refused(
        alloc,
        pair,
        [zero, whole(8), zero, zero, zero, zero, zero],
        None,
    ) && is_refused(
        alloc,
        pair,
        [zero, past, zero, zero, zero, zero, zero],
        Some(range),
    ) && is_refused(
        alloc,
        pair,
        [far, past, zero, zero, zero, zero, zero],
        Some(size),
    )
}

#[test]
fn the_first_of_the_bodies_is_refused(rt: HostRuntime) {
    let pair = robot_on(rt.alloc(), PAIR, None);
    assert!(rt; matches!(&pair, Some(pair) if refuses_the_first(rt.alloc(), pair)));
}

fn refuses_no_unit(alloc: Global, robot: &Robot) -> bool {
    let unit = RowFault::NotUnit {
        name: Name::one(NameKind::q, 1),
    };
    is_refused(alloc, robot, [Iv::ZERO; 7], Some(unit))
}

#[test]
fn a_quaternion_of_no_length_is_refused(rt: HostRuntime) {
    let robot = robot_on(rt.alloc(), BOX, Some(RootKind::Floating));
    assert!(rt; matches!(&robot, Some(robot) if refuses_no_unit(rt.alloc(), robot)));
}
