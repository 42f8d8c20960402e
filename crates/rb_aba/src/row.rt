//! Forward dynamics of a row.

ghost use Rattle.std.specs.Prelude.{◌≡◌, false, OnOk, IfErr};
ghost use Rattle.rb_sweep.specs.Sweep.{Answers};
ghost use Rattle.rb_tree.specs.Columns.{has_mimic};
ghost use Rattle.rb_tree.specs.Places.{IsFor, ArePlaces};
ghost use Rattle.rb_tree.specs.State.{Fits};
ghost use Rattle.rb_aba.specs.Steps.{sweeps_of};
ghost use Rattle.rb_aba.specs.Forward.{AllLead, AreForward, IsRefused, answer_of, accelerations_in, EnclosesForward};

use crate::accelerations::sweep_down;
use crate::articulated::sweep_up;
use rb_rnea::sweep_speeds;
use rb_tree::{Robot, State, place_all};
use rb_work::{RowFault, Work};

// The sweeps behind the places.
fn sweeps(robot: &Robot, state: &State, work: &mut Work) -> Result<(), RowFault>
    requires lead { has_mimic robot.now.bodies ≡ false }
    requires fits { Fits robot.now state.now }
    requires room { IsFor robot.now work.old }
    ensures exact { Answers result (sweeps_of robot.now state.now work.old) work.new }
    ensures others { work.new ≡ record work.old { s = work.new.s; v = work.new.v; c = work.new.c; IA = work.new.IA; p = work.new.p; U = work.new.U; packed = work.new.packed; u = work.new.u; Ia = work.new.Ia; pa = work.new.pa; x = work.new.x; a = work.new.a } }
{
    sweep_speeds(robot, state, work)?;
    sweep_up(robot, state, work)?;
    sweep_down(robot, state, work)
}

// The values of a row, over a work that holds its places.
fn behind_places(robot: &Robot, state: &State, work: &mut Work) -> Result<(), RowFault>
    requires lead { AllLead robot.now }
    requires fits { Fits robot.now state.now }
    requires room { IsFor robot.now work.old }
    requires places { ArePlaces robot.now state.now work.old }
    ensures values { OnOk result (AreForward robot.now state.now work.new) }
    ensures refused { IfErr result (IsRefused robot.now state.now) }
    ensures others { work.new ≡ record work.old { s = work.new.s; v = work.new.v; c = work.new.c; IA = work.new.IA; p = work.new.p; U = work.new.U; packed = work.new.packed; u = work.new.u; Ia = work.new.Ia; pa = work.new.pa; x = work.new.x; a = work.new.a } }
{
    let _tree = robot.bodies();
    let _sizes = work.bodies();
    sweeps(robot, state, work)
}

/// The accelerations that a row's torques give at its position and speeds, under its gravity, by articulated bodies: the values
/// `q X s v c IA p U D u Ia pa x a` of the work, in metres, radians and seconds. No joint of the robot follows another; `IA` and `p` are what is left of a
/// body once all its columns have given way, and `Ia` and `pa` what its parent gets.
///
/// A refusal is that of the first name that is refused, in this order: `q` and `X` body by body, then `s` and `v`; then from the last body on `c`, `IA` and
/// `p`, `U`, `D` and `u` column by column from the last on, and `pa`; then `x` and `a` from the first body on. `Range` and `NotUnit` bear `q`, `Pivot` the `D`
/// in which zero lies, and `Size` the value that is too large: `u` also where its column cannot give way, `x` where the body cannot move with it, and `a`
/// where the parent's acceleration cannot be carried to the body (Featherstone, Rigid Body Dynamics Algorithms, chapter 7).
pub fn aba(robot: &Robot, state: &State, work: &mut Work) -> Result<(), RowFault>
    requires lead { AllLead robot.now }
    requires fits { Fits robot.now state.now }
    requires room { IsFor robot.now work.old }

    // the values are what their rules give from them as they are first found, and IA and p are what is left of these
    ensures values { OnOk result (AreForward robot.now state.now work.new) }

    // there are values in which each name before one is what its rule gives, and the rule of that one refuses so
    ensures refused { IfErr result (IsRefused robot.now state.now) }

    // one answer, whatever the work held before
    ensures answer { Answers result (answer_of robot.now state.now) (accelerations_in robot.now work.new) }

    // the equations of motion of each choice have exactly one solution with its torques, and it lies in the values, with joint forces by the first IA and p
    ensures encloses { OnOk result (EnclosesForward robot.now state.now work.new) }

    // all else is as it was
    ensures others { work.new ≡ record work.old { q = work.new.q; X = work.new.X; s = work.new.s; v = work.new.v; c = work.new.c; IA = work.new.IA; p = work.new.p; U = work.new.U; packed = work.new.packed; u = work.new.u; Ia = work.new.Ia; pa = work.new.pa; x = work.new.x; a = work.new.a } }
{
    let _tree = robot.bodies();
    place_all(robot, state, work)?;
    behind_places(robot, state, work)
}
