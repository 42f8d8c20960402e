//! Forward dynamics of a row.

ghost use Rattle.std.specs.Prelude.{◌≡◌, OnOk, IfErr};
ghost use Rattle.rb_sweep.specs.Sweep.{Answers};
ghost use Rattle.rb_tree.specs.State.{Fits};
ghost use Rattle.rb_tree.specs.Places.{IsFor};
ghost use Rattle.rb_contact.specs.Driving.{AreDriving, IsRightSide};
ghost use Rattle.rb_contact.specs.Forward.{AreFactored, AreForward, IsPreparationRefused, IsForwardRefused, forward_of, accelerations_in, EnclosesForward};

use crate::driving::drive;
use rb_factor::{factor, solve};
use rb_mass::composite;
use rb_rnea::bias;
use rb_tree::{Robot, State};
use rb_work::{RowFault, Work};

// The bias of a row, and the factors of its mass table.
fn factored(robot: &Robot, state: &State, work: &mut Work) -> Result<(), RowFault>
    requires fits { Fits robot.now state.now }
    requires room { IsFor robot.now work.old }
    ensures values { OnOk result (AreFactored robot.now state.now work.new) }
    ensures refused { IfErr result (IsPreparationRefused robot.now state.now) }
    ensures others { work.new ≡ record work.old { q = work.new.q; X = work.new.X; s = work.new.s; v = work.new.v; c = work.new.c; a = work.new.a; b = work.new.b; f = work.new.f; t = work.new.t; T = work.new.T; I = work.new.I; H = work.new.H; packed = work.new.packed } }
{
    bias(robot, state, work)?;
    composite(robot, work)?;
    factor(work)
}

// What they have to give, which is the right side too.
pub(crate) fn prepared(robot: &Robot, state: &State, work: &mut Work) -> Result<(), RowFault>
    requires fits { Fits robot.now state.now }
    requires room { IsFor robot.now work.old }
    ensures factored { OnOk result (AreFactored robot.now state.now work.new) }
    ensures driving { OnOk result (AreDriving robot.now state.now work.new) }
    ensures right { OnOk result (IsRightSide robot.now work.new) }
    ensures refused { IfErr result (IsPreparationRefused robot.now state.now) }
    ensures others { work.new ≡ record work.old { q = work.new.q; X = work.new.X; s = work.new.s; v = work.new.v; c = work.new.c; a = work.new.a; b = work.new.b; f = work.new.f; t = work.new.t; T = work.new.T; I = work.new.I; H = work.new.H; packed = work.new.packed; k = work.new.k; w = work.new.w } }
{
    factored(robot, state, work)?;
    drive(robot, state, work)
}

/// The accelerations that a row's torques give the joints at its position and speeds, under its gravity: the values `q X s v c a b f t T` of the bias,
/// which is without accelerations, `I H` and the factors `D L` of the mass table, `k`, the torques less the bias, and `w z x`, where `x` has the
/// accelerations of the columns, in metres or radians per second squared.
///
/// A refusal is that of the first part that is refused: the bias, the mass table, its factors, where `Pivot` bears a `D` in which zero lies, then `k`
/// column by column, and the solution by the factors. `Size` bears the value that is too large
/// (Featherstone, Rigid Body Dynamics Algorithms, chapter 6).
pub fn forward(robot: &Robot, state: &State, work: &mut Work) -> Result<(), RowFault>
    requires fits { Fits robot.now state.now }
    requires room { IsFor robot.now work.old }

    // each value that the work holds is what its rule gives from the values that the work holds
    ensures values { OnOk result (AreForward robot.now state.now work.new) }

    // the first part that is refused, behind those whose values are there
    ensures refused { IfErr result (IsForwardRefused robot.now state.now) }

    // one answer, whatever the work held before
    ensures answer { Answers result (forward_of robot.now state.now) (accelerations_in robot.now work.new) }

    // the equations of motion of each choice have one solution, and its accelerations lie in the values
    ensures encloses { OnOk result (EnclosesForward robot.now state.now work.new) }

    // all else is as it was
    ensures others { work.new ≡ record work.old { q = work.new.q; X = work.new.X; s = work.new.s; v = work.new.v; c = work.new.c; a = work.new.a; b = work.new.b; f = work.new.f; t = work.new.t; T = work.new.T; I = work.new.I; H = work.new.H; packed = work.new.packed; k = work.new.k; w = work.new.w; z = work.new.z; x = work.new.x } }
{
    let _tree = robot.bodies();
    prepared(robot, state, work)?;
    solve(work)
}
