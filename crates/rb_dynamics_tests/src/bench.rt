//! A robot with a row and a work, without constraints and with them, and the texts of small robots.
ghost use Rattle.std.specs.Prelude.{◌≡◌, IfOk};
ghost use Rattle.rb_flat.specs.Contact.{RowsFit};
ghost use Rattle.rb_tree.specs.Places.{IsFor};
ghost use Rattle.rb_tree.specs.Shape.{shape_of};
ghost use Rattle.rb_tree.specs.State.{Fits};
ghost use Rattle.rb_constraint.specs.Constraints.{constraints_of};

use rb_constraint::{Constraints, read_constraints};
use rb_num::{B, Iv};
use rb_tags::{RootKind, read_tags};
use rb_tree::{Robot, State};
use rb_urdf::read_urdf;
use rb_work::{Name, NameKind, RowFault, Work};
use std::alloc::{AllocError, Global};
use std::test::Fail;

// A number of a row that is not neutral, by place from 0: an entry from one end to the other, a speed, an acceleration or a torque, in units of
// 10^-12.
#[derive(Clone, Copy)]
pub(crate) enum Given {
    Entry(usize, i64, i64),
    Speed(usize, i64),
    Acceleration(usize, i64),
    Torque(usize, i128),
}

#[derive(Drop)]
pub(crate) struct Bench {
    pub(crate) robot: Robot,
    pub(crate) state: State,
    pub(crate) work: Work,
}

// A number in units of 10^-12.
pub(crate) fn exactly(end: i64) -> Iv {
    let end = i128::from(end);
    Iv::new(end, end)
}

// A whole number.
pub(crate) fn whole(number: i32) -> Iv {
    let units = i128::from(number) * 1_000_000_000_000;
    Iv::new(units, units)
}

fn put(robot: &Robot, state: &mut State, given: Given)
    requires { Fits robot.now state.old }
    ensures { Fits robot.now state.new }
{
    let (entries, columns) = (robot.nq() as usize, robot.nv() as usize);
    match given {
        Given::Entry(k, from, to) if k < entries => state.set_q(k, exactly(from).hull(exactly(to))),
        Given::Speed(k, speed) if k < columns => state.set_v(k, exactly(speed)),
        Given::Acceleration(k, acceleration) if k < columns => {
            state.set_a(k, exactly(acceleration))
        }
        Given::Torque(k, torque) if k < columns && -B <= torque && torque <= B => {
            state.set_tau(k, Iv::new(torque, torque))
        }
        _ => {}
    }
}

pub(crate) fn put_all(robot: &Robot, state: &mut State, row: &[Given])
    requires { Fits robot.now state.old }
    ensures { Fits robot.now state.new }
{
    for given in row {
        put(robot, state, *given);
    }
}

fn work_for(alloc: Global, robot: &Robot) -> Result<Work, AllocError>
    ensures { IfOk result (IsFor robot.now) }
{
    Work::new(alloc, robot.bodies(), robot.full(), robot.ups(), 0)
}

// The robot of a file with such a root; nothing if the file holds none.
pub(crate) fn robot_of(alloc: Global, text: &str, root: Option<RootKind>) -> Option<Robot> {
    let tags = read_tags(alloc, text.as_bytes()).ok()?;
    let urdf = read_urdf(alloc, &tags).ok()?;
    Robot::build(alloc, &urdf, None, root).ok()
}

// The robot with a row and a work.
pub(crate) fn bench_of(alloc: Global, robot: Robot, row: &[Given]) -> Result<Bench, AllocError>
    ensures fits { IfOk result (λ bench. Fits bench.robot bench.state) }
    ensures room { IfOk result (λ bench. IsFor bench.robot bench.work) }
{
    let mut state = State::new(alloc, &robot)?;
    put_all(&robot, &mut state, row);
    let work = work_for(alloc, &robot)?;
    Ok(Bench { robot, state, work })
}

// A robot with its root, the lines of its constraints, and a row.
#[derive(Drop)]
pub(crate) struct Held<'a> {
    pub(crate) text: &'a str,
    pub(crate) root: Option<RootKind>,
    pub(crate) lines: &'a [u8],
    pub(crate) row: &'a [Given],
}

// A robot under constraints, with a row and a work.
#[derive(Drop)]
pub(crate) struct Stand {
    pub(crate) robot: Robot,
    pub(crate) cons: Constraints,
    pub(crate) state: State,
    pub(crate) work: Work,
}

fn work_under(alloc: Global, robot: &Robot, cons: &Constraints) -> Result<Work, AllocError>
    ensures room { IfOk result (IsFor robot.now) }
    ensures rows { IfOk result (λ work. work.rows ≡ (constraints_of cons.now).rows) }
{
    Work::new(
        alloc,
        robot.bodies(),
        robot.full(),
        robot.ups(),
        cons.rows(),
    )
}

// The constraints of these lines.
fn constraints_in(alloc: Global, lines: &[u8], robot: &Robot) -> Result<Constraints, Fail>
    ensures { IfOk result (λ cons. RowsFit (shape_of robot.now) (constraints_of cons)) }
{
    match read_constraints(alloc, lines, robot) {
        Ok(cons) => Ok(cons),
        Err(_) => Err(Fail::from("the constraints are read")),
    }
}

// The robot under its constraints, with the row and a work.
pub(crate) fn stand_of(alloc: Global, held: &Held) -> Result<Stand, Fail>
    ensures fits { IfOk result (λ stand. Fits stand.robot stand.state) }
    ensures room { IfOk result (λ stand. IsFor stand.robot stand.work) }
    ensures rows { IfOk result (λ stand. stand.work.rows ≡ (constraints_of stand.cons).rows) }
    ensures fit { IfOk result (λ stand. RowsFit (shape_of stand.robot) (constraints_of stand.cons)) }
{
    let robot = robot_of(alloc, held.text, held.root).ok_or("the robot is built")?;
    let cons = constraints_in(alloc, held.lines, &robot)?;
    let mut state = State::new(alloc, &robot)?;
    put_all(&robot, &mut state, held.row);
    let work = work_under(alloc, &robot, &cons)?;
    Ok(Stand {
        robot,
        cons,
        state,
        work,
    })
}

// A pivot that is zero.
pub(crate) fn zero_pivot(kind: NameKind, at: u32) -> RowFault {
    RowFault::Pivot {
        name: Name::one(kind, at),
        iv: Iv::ZERO,
    }
}

// A box of 1 kg and 1 kg m^2.
pub(crate) const BOX: &str =
    "<robot name='box'><link name='box'><inertial><mass value='1'/><inertia ixx='1' iyy='1' izz='1'/></inertial></link></robot>";

// A crank bears a coupler, which is held to the tip of a rocker.
pub(crate) const LOOP: &str =
    "<robot name='loop'><link name='base'/><link name='crank'><inertial><inertia iyy='1'/></inertial></link><link name='coupler'><inertial><mass value='1'/><inertia iyy='1'/></inertial></link><link name='rocker'><inertial><inertia iyy='1'/></inertial></link><joint name='crank' type='revolute'><parent link='base'/><child link='crank'/><axis xyz='0 1 0'/></joint><joint name='coupler' type='revolute'><parent link='crank'/><child link='coupler'/><axis xyz='0 1 0'/><origin xyz='0 0 1'/></joint><joint name='rocker' type='revolute'><parent link='base'/><child link='rocker'/><axis xyz='0 1 0'/><origin xyz='1 0 0'/></joint></robot>";

// A car of 2 kg on a vertical slide.
pub(crate) const LIFT: &str =
    "<robot name='lift'><link name='base'/><link name='car'><inertial><mass value='2'/></inertial></link><joint name='lift' type='prismatic'><parent link='base'/><child link='car'/><axis xyz='0 0 1'/></joint></robot>";

// Two slides of 1 kg, the second on the first.
pub(crate) const STACK: &str =
    "<robot name='stack'><link name='base'/><link name='l1'><inertial><mass value='1'/></inertial></link><link name='l2'><inertial><mass value='1'/></inertial></link><joint name='one' type='prismatic'><parent link='base'/><child link='l1'/></joint><joint name='two' type='prismatic'><parent link='l1'/><child link='l2'/></joint></robot>";

// Nothing hangs at the hinge.
pub(crate) const LEAF: &str =
    "<robot name='leaf'><link name='base'/><link name='tip'/><joint name='hinge' type='revolute'><parent link='base'/><child link='tip'/><axis xyz='0 1 0'/></joint></robot>";

// A slide that follows another 10^12 fold.
pub(crate) const FAR: &str =
    "<robot name='far'><link name='base'/><link name='near'/><link name='far'><inertial><mass value='1'/></inertial></link><joint name='one' type='prismatic'><parent link='base'/><child link='near'/></joint><joint name='two' type='prismatic'><parent link='near'/><child link='far'/><mimic joint='one' multiplier='1000000000000'/></joint></robot>";

// Three vertical slides, each on the one before. The second leads; the first follows it twofold, and the third backward. A fourth stands on the second.
pub(crate) const HOIST: &str =
    "<robot name='hoist'><link name='base'/><link name='outer'><inertial><mass value='1'/></inertial></link><link name='middle'><inertial><mass value='2'/></inertial></link><link name='inner'><inertial><mass value='3'/></inertial></link><link name='load'><inertial><mass value='5'/></inertial></link><joint name='first' type='prismatic'><parent link='base'/><child link='outer'/><axis xyz='0 0 1'/><mimic joint='second' multiplier='2' offset='0.1'/></joint><joint name='second' type='prismatic'><parent link='outer'/><child link='middle'/><axis xyz='0 0 1'/></joint><joint name='third' type='prismatic'><parent link='middle'/><child link='inner'/><axis xyz='0 0 1'/><mimic joint='second' multiplier='-1'/></joint><joint name='fourth' type='prismatic'><parent link='middle'/><child link='load'/><axis xyz='0 0 1'/></joint></robot>";
