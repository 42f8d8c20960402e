ghost use Rattle.std.specs.Prelude.{◌≡◌, length, replicate, OnOk, IfErr};
ghost use Rattle.rb_num.specs.Interval.{zero_interval};
ghost use Rattle.rb_tree.specs.declared.sizes.TheConstants.{MAX_COLUMNS};
ghost use Rattle.rb_sweep.specs.Sweep.{Answers};
ghost use Rattle.rb_tree.specs.Columns.{column_count};
ghost use Rattle.rb_tree.specs.State.{Fits};
ghost use Rattle.rb_tree.specs.Places.{IsFor, ArePlaces};
ghost use Rattle.rb_rnea.specs.Steps.{sweeps_of};
ghost use Rattle.rb_rnea.specs.Dynamics.{AreDynamics, IsRefused, answer_of, torques_in, unaccelerated, EnclosesDynamics};

use crate::accelerations::sweep_accelerations;
use crate::forces::sweep_forces;
use crate::speeds::sweep_speeds;
use crate::torques::{sweep_powers, sweep_torques};
use rb_num::Iv;
use rb_tree::{MAX_COLUMNS, Robot, State, place_all};
use rb_work::{RowFault, Work};

// The sweeps behind the places, for a row with these accelerations.
fn sweeps(
    robot: &Robot,
    state: &State,
    accelerations: &[Iv],
    work: &mut Work,
) -> Result<(), RowFault>
    requires fits { Fits robot.now state.now }
    requires long { length accelerations.now ≡ column_count robot.now.bodies }
    requires room { IsFor robot.now work.old }
    ensures exact { Answers result (sweeps_of robot.now state.now accelerations.now work.old) work.new }
    ensures others { work.new ≡ record work.old { s = work.new.s; v = work.new.v; c = work.new.c; a = work.new.a; b = work.new.b; f = work.new.f; t = work.new.t; T = work.new.T } }
{
    sweep_speeds(robot, state, work)?;
    sweep_accelerations(robot, state, accelerations, work)?;
    sweep_forces(robot, work)?;
    sweep_powers(robot, work)?;
    sweep_torques(robot, work)
}

// The values of a row with these accelerations, over a work that holds its places.
fn behind_places(
    robot: &Robot,
    state: &State,
    accelerations: &[Iv],
    work: &mut Work,
) -> Result<(), RowFault>
    requires fits { Fits robot.now state.now }
    requires long { length accelerations.now ≡ column_count robot.now.bodies }
    requires room { IsFor robot.now work.old }
    requires places { ArePlaces robot.now state.now work.old }
    ensures values { OnOk result (AreDynamics robot.now (record state.now { a = accelerations.now }) work.new) }
    ensures refused { IfErr result (IsRefused robot.now (record state.now { a = accelerations.now })) }
    ensures others { work.new ≡ record work.old { s = work.new.s; v = work.new.v; c = work.new.c; a = work.new.a; b = work.new.b; f = work.new.f; t = work.new.t; T = work.new.T } }
{
    let _tree = robot.bodies();
    let _sizes = work.bodies();
    sweeps(robot, state, accelerations, work)
}

// The values of a row with these accelerations.
fn dynamics(
    robot: &Robot,
    state: &State,
    accelerations: &[Iv],
    work: &mut Work,
) -> Result<(), RowFault>
    requires fits { Fits robot.now state.now }
    requires long { length accelerations.now ≡ column_count robot.now.bodies }
    requires room { IsFor robot.now work.old }
    ensures values { OnOk result (AreDynamics robot.now (record state.now { a = accelerations.now }) work.new) }
    ensures refused { IfErr result (IsRefused robot.now (record state.now { a = accelerations.now })) }
    ensures answer { Answers result (answer_of robot.now (record state.now { a = accelerations.now })) (torques_in robot.now work.new) }
    ensures encloses { OnOk result (EnclosesDynamics robot.now (record state.now { a = accelerations.now }) work.new) }
    ensures others { work.new ≡ record work.old { q = work.new.q; X = work.new.X; s = work.new.s; v = work.new.v; c = work.new.c; a = work.new.a; b = work.new.b; f = work.new.f; t = work.new.t; T = work.new.T } }
{
    let _tree = robot.bodies();
    place_all(robot, state, work)?;
    behind_places(robot, state, accelerations, work)
}

/// The torques that a row's accelerations take at its position and speeds, under its gravity: the values `q X s v c a b f t T` of the work, in newtons or
/// newton metres, metres, radians and seconds.
///
/// A refusal is that of the first name that is refused, in this order: `q` and `X` body by body, then `s` and `v`, then `c`, `a` and `b`, then `f` to the
/// root, `t` body by body and `T` column by column. `Range` and `NotUnit` bear `q`, and `Size` the value that is too large
/// (Featherstone, Rigid Body Dynamics Algorithms, chapter 5).
pub fn rnea(robot: &Robot, state: &State, work: &mut Work) -> Result<(), RowFault>
    requires fits { Fits robot.now state.now }
    requires room { IsFor robot.now work.old }

    // each value that the work holds is what its rule gives from the values that the work holds
    ensures values { OnOk result (AreDynamics robot.now state.now work.new) }

    // there are values in which each name before one is what its rule gives, and the rule of that one refuses so
    ensures refused { IfErr result (IsRefused robot.now state.now) }

    // one answer, whatever the work held before
    ensures answer { Answers result (answer_of robot.now state.now) (torques_in robot.now work.new) }

    // the one solution of the equations of motion of each choice lies in the values
    ensures encloses { OnOk result (EnclosesDynamics robot.now state.now work.new) }

    // all else is as it was
    ensures others { work.new ≡ record work.old { q = work.new.q; X = work.new.X; s = work.new.s; v = work.new.v; c = work.new.c; a = work.new.a; b = work.new.b; f = work.new.f; t = work.new.t; T = work.new.T } }
{
    dynamics(robot, state, state.accelerations(), work)
}

const COLUMNS: usize = MAX_COLUMNS as usize;

// Zero for each column that there may be.
fn no_accelerations() -> [Iv; COLUMNS]
    ensures { result ≡ replicate MAX_COLUMNS zero_interval }
{
    [Iv::ZERO; COLUMNS]
}

// The values of a row whose accelerations are these zeros.
fn unaccelerated_row(
    robot: &Robot,
    state: &State,
    zeros: &[Iv],
    work: &mut Work,
) -> Result<(), RowFault>
    requires fits { Fits robot.now state.now }
    requires zeros { zeros.now ≡ replicate (length state.now.a) zero_interval }
    requires room { IsFor robot.now work.old }
    ensures values { OnOk result (AreDynamics robot.now (unaccelerated state.now) work.new) }
    ensures refused { IfErr result (IsRefused robot.now (unaccelerated state.now)) }
    ensures answer { Answers result (answer_of robot.now (unaccelerated state.now)) (torques_in robot.now work.new) }
    ensures encloses { OnOk result (EnclosesDynamics robot.now (unaccelerated state.now) work.new) }
    ensures others { work.new ≡ record work.old { q = work.new.q; X = work.new.X; s = work.new.s; v = work.new.v; c = work.new.c; a = work.new.a; b = work.new.b; f = work.new.f; t = work.new.t; T = work.new.T } }
{
    dynamics(robot, state, zeros, work)
}

/// The torques that hold a row's speeds at its position, under its gravity, without accelerations: `rnea` with zero for each acceleration.
pub fn bias(robot: &Robot, state: &State, work: &mut Work) -> Result<(), RowFault>
    requires fits { Fits robot.now state.now }
    requires room { IsFor robot.now work.old }

    // each value that the work holds is what its rule gives from the values that the work holds
    ensures values { OnOk result (AreDynamics robot.now (unaccelerated state.now) work.new) }

    // there are values in which each name before one is what its rule gives, and the rule of that one refuses so
    ensures refused { IfErr result (IsRefused robot.now (unaccelerated state.now)) }

    // one answer, whatever the work held before
    ensures answer { Answers result (answer_of robot.now (unaccelerated state.now)) (torques_in robot.now work.new) }

    // the one solution of the equations of motion of each choice lies in the values
    ensures encloses { OnOk result (EnclosesDynamics robot.now (unaccelerated state.now) work.new) }

    // all else is as it was
    ensures others { work.new ≡ record work.old { q = work.new.q; X = work.new.X; s = work.new.s; v = work.new.v; c = work.new.c; a = work.new.a; b = work.new.b; f = work.new.f; t = work.new.t; T = work.new.T } }
{
    let zeros = no_accelerations();
    let columns = robot.nv() as usize;
    unaccelerated_row(robot, state, &zeros[..columns], work)
}
