//! States that a second file names, and refusals of states with places counted by hand.
ghost use Rattle.rb_tree.specs.State.{Fits};

use crate::building::{RefusedInside, Semantics, are_refused_inside};
use rb_num::Iv;
use rb_spatial::Vec3;
use rb_tree::{NoState, Robot, State, TreeKind};
use std::alloc::Global;

// The places are 0 for the joint `turn`, 1 for `slide`, from 2 on for `wheel`, from 4 on for `level` and from 8 on for `float`.
const KINDS: &str =
    "<robot name='arm'><link name='base'/><link name='a'/><link name='b'/><link name='c'/><link name='d'/><link name='e'/><link name='f'/><link name='g'/><joint name='turn' type='revolute'><parent link='base'/><child link='a'/></joint><joint name='slide' type='prismatic'><parent link='base'/><child link='b'/></joint><joint name='wheel' type='continuous'><parent link='base'/><child link='c'/></joint><joint name='level' type='planar'><parent link='base'/><child link='d'/></joint><joint name='float' type='floating'><parent link='base'/><child link='e'/></joint><joint name='stay' type='fixed'><parent link='base'/><child link='f'/></joint><joint name='follow' type='revolute'><parent link='base'/><child link='g'/><mimic joint='turn'/></joint></robot>";

// What stands in a robot, behind two groups.
const SEMANTICS: Semantics = Semantics {
    urdf: KINDS,
    head: "<robot name='arm'><group name='g'/><group name='h'/>",
    tail: "</robot>",
};

// Parts of a thousand, exactly.
fn thousandths(parts: i32) -> Iv {
    let units = i128::from(parts) * 1_000_000_000;
    Iv::new(units, units)
}

// Whether the entry at this place is this.
fn is_at(robot: &Robot, state: &State, place: usize, value: Iv) -> bool
    requires { Fits robot.now state.now }
{
    place < robot.nq() as usize && state.q(place) == value
}

// Whether the entries from this place on are these, in thousandths.
fn are_from(robot: &Robot, state: &State, place: usize, values: &[i32]) -> bool
    requires { Fits robot.now state.now }
{
    let mut at = place;
    for value in values {
        if !is_at(robot, state, at, thousandths(*value)) {
            return false;
        }
        at = at.saturating_add(1);
    }
    true
}

// Whether the entries at this place are a cosine and a sine of 0.5.
fn has_half(robot: &Robot, state: &State, place: usize) -> bool
    requires { Fits robot.now state.now }
{
    is_at(
        robot,
        state,
        place,
        Iv::new(877_582_561_890, 877_582_561_891),
    ) && is_at(
        robot,
        state,
        place.saturating_add(1),
        Iv::new(479_425_538_604, 479_425_538_605),
    )
}

const HOME: &str =
    "<group_state name='home' group='g'><joint name='turn' value='0.5'/><joint name='slide' value='-2'/><joint name='wheel' value='0.5'/><joint name='level' value='1 -2 0.5'/><joint name='float' value='1 2 3 0.5 -0.5 0.5 -0.5'/></group_state>";

// Puts the state of a name, if there is one.
fn is_put(robot: &Robot, state: &mut State, name: &[u8]) -> bool
    requires { Fits robot.now state.old }
    ensures { Fits robot.now state.new }
{
    matches!(state.set_named(robot, name), Ok(()))
}

// Whether each joint has the numbers that its kind takes.
fn is_home(robot: &Robot, state: &State) -> bool
    requires { Fits robot.now state.now }
{
    are_from(robot, state, 0, &[500, -2000])
        && has_half(robot, state, 2)
        && are_from(robot, state, 4, &[1000, -2000])
        && has_half(robot, state, 6)
        && are_from(robot, state, 8, &[1000, 2000, 3000, 500, -500, 500, -500])
}

// Whether the state of the robot is the one at home, once that is put.
fn goes_home(alloc: Global, robot: &Robot) -> bool {
    let Ok(mut state) = State::new(alloc, robot) else {
        return false;
    };
    is_put(robot, &mut state, b"home") && is_home(robot, &state)
}

#[test]
fn each_kind_takes_its_numbers(rt: HostRuntime) {
    let robot = SEMANTICS.robot(rt.alloc(), HOME);
    assert!(rt; matches!(&robot, Some(robot) if goes_home(rt.alloc(), robot)));
}

// Two states of one name and a state of another.
const TWICE: &str =
    "<group_state name='home' group='g'><joint name='turn' value='1'/><joint name='slide' value='2'/></group_state><group_state name='away' group='g'><joint name='slide' value='3'/></group_state><group_state name='home' group='h'><joint name='turn' value='4'/></group_state>";

// Whether the later states of a name hold, and a name without a state changes nothing.
fn puts_states(robot: &Robot, state: &mut State) -> bool
    requires { Fits robot.now state.old }
    ensures { Fits robot.now state.new }
{
    is_put(robot, state, b"home")
        && are_from(robot, state, 0, &[4000, 2000, 1000, 0])
        && is_put(robot, state, b"away")
        && matches!(state.set_named(robot, b"hom"), Err(NoState))
        && are_from(robot, state, 0, &[4000, 3000, 1000, 0])
}

// Whether another state of the robot takes the numbers and the gravity of this one.
fn is_copied(alloc: Global, robot: &Robot, state: &State) -> bool
    requires { Fits robot.now state.now }
{
    let Ok(mut row) = State::new(alloc, robot) else {
        return false;
    };
    row.set_to(state);
    are_from(robot, &row, 0, &[4000, 3000, 1000, 0]) && row.gravity().y() == Iv::ONE
}

fn holds_later_states(alloc: Global, robot: &Robot) -> bool {
    let Ok(mut state) = State::new(alloc, robot) else {
        return false;
    };
    state.set_gravity(Vec3::new(Iv::ZERO, Iv::ONE, Iv::ZERO));
    puts_states(robot, &mut state)
        && robot.has_state(b"away")
        && !robot.has_state(b"hom")
        && is_copied(alloc, robot, &state)
}

#[test]
fn later_states_of_a_name_hold(rt: HostRuntime) {
    let robot = SEMANTICS.robot(rt.alloc(), TWICE);
    assert!(rt; matches!(&robot, Some(robot) if holds_later_states(rt.alloc(), robot)));
}

// What stands in a robot behind two groups, and the kind and the place of its fault. The first element is at 52.
const FAULTS: [RefusedInside; 5] = [
    (
        "<group_state name='s' group='g'><joint name='a' value='0'/></group_state>",
        TreeKind::UnknownName,
        52,
    ),
    (
        "<group_state name='s' group='g'><joint name='slide' value='0 0'/></group_state>",
        TreeKind::StateValues,
        52,
    ),
    (
        "<group_state name='s' group='g'><joint name='float' value='0 0 0 0 0 0'/></group_state>",
        TreeKind::StateValues,
        52,
    ),
    (
        "<group_state name='s' group='g'><joint name='level' value='9 9 -8.1'/></group_state>",
        TreeKind::AngleRange,
        52,
    ),
    (
        "<group_state name='s' group='g'/><group_state name='t' group='g'><joint name='float' value='1'/></group_state><group_state name='u' group='g'><joint name='a' value='0'/></group_state>",
        TreeKind::StateValues,
        85,
    ),
];

#[test]
fn states_are_refused(rt: HostRuntime) {
    assert!(rt; are_refused_inside(rt.alloc(), &SEMANTICS, &FAULTS));
}
