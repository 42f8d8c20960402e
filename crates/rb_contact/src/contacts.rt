//! Forward dynamics of a row under rows of constraints.

ghost use Rattle.std.specs.Prelude.{◌≡◌, ◌≤◌, OnOk, IfErr};
ghost use Rattle.rb_sweep.specs.Sweep.{Answers};
ghost use Rattle.rb_flat.specs.Contact.{RowsFit};
ghost use Rattle.rb_tree.specs.Shape.{shape_of};
ghost use Rattle.rb_tree.specs.State.{Fits};
ghost use Rattle.rb_tree.specs.Places.{IsFor};
ghost use Rattle.rb_constraint.specs.Constraints.{constraints_of};
ghost use Rattle.rb_contact.specs.Driving.{IsRightSide};
ghost use Rattle.rb_contact.specs.Forward.{accelerations_in};
ghost use Rattle.rb_contact.specs.Contact.{AreConstrained, AreForced, AreContact, IsContactRefused, contact_of, forces_in, EnclosesContact};

use crate::row::prepared;
use rb_constraint::{Constraints, fill_bias, fill_rows};
use rb_coupling::{add_row_forces, couple, row_forces, row_sides};
use rb_factor::{divide, reduce, substitute};
use rb_tree::{Robot, State};
use rb_work::{RowFault, Work};

// The factors of the mass table, what they have to give, and the rows.
fn constrained(
    robot: &Robot,
    cons: &Constraints,
    state: &State,
    work: &mut Work,
) -> Result<(), RowFault>
    requires fits { Fits robot.now state.now }
    requires room { IsFor robot.now work.old }
    requires rows { (constraints_of cons.now).rows ≤ work.old.rows }
    requires fit { RowsFit (shape_of robot.now) (constraints_of cons.now) }
    ensures values { OnOk result (AreConstrained robot.now state.now (constraints_of cons.now) work.new) }
    ensures right { OnOk result (IsRightSide robot.now work.new) }
    ensures refused { IfErr result (IsContactRefused robot.now state.now (constraints_of cons.now)) }
    ensures others { work.new ≡ record work.old { q = work.new.q; X = work.new.X; s = work.new.s; v = work.new.v; c = work.new.c; a = work.new.a; b = work.new.b; f = work.new.f; t = work.new.t; T = work.new.T; I = work.new.I; H = work.new.H; packed = work.new.packed; O = work.new.O; K = work.new.K; J = work.new.J; g = work.new.g; Y = work.new.Y; Z = work.new.Z; pairs = work.new.pairs; k = work.new.k; w = work.new.w } }
{
    prepared(robot, state, work)?;
    fill_rows(robot, cons, work)?;
    fill_bias(robot, cons, work)?;
    let compliances = cons.compliances();
    couple(work, compliances)
}

// The forces of the rows, from what the factors find without them.
fn forced(robot: &Robot, cons: &Constraints, state: &State, work: &mut Work) -> Result<(), RowFault>
    requires fits { Fits robot.now state.now }
    requires room { IsFor robot.now work.old }
    requires rows { (constraints_of cons.now).rows ≤ work.old.rows }
    requires fit { RowsFit (shape_of robot.now) (constraints_of cons.now) }
    ensures values { OnOk result (AreForced robot.now state.now (constraints_of cons.now) work.new) }
    ensures refused { IfErr result (IsContactRefused robot.now state.now (constraints_of cons.now)) }
    ensures others { work.new ≡ record work.old { q = work.new.q; X = work.new.X; s = work.new.s; v = work.new.v; c = work.new.c; a = work.new.a; b = work.new.b; f = work.new.f; t = work.new.t; T = work.new.T; I = work.new.I; H = work.new.H; packed = work.new.packed; w = work.new.w; z = work.new.z; O = work.new.O; K = work.new.K; J = work.new.J; g = work.new.g; Y = work.new.Y; Z = work.new.Z; pairs = work.new.pairs; e = work.new.e; lam = work.new.lam; k = work.new.k } }
{
    constrained(robot, cons, state, work)?;
    reduce(work)?;
    divide(work)?;
    row_sides(cons.rows(), work)?;
    row_forces(cons.rows(), work)
}

/// The accelerations that a row's torques give the joints at its position and speeds, under its gravity, where the rows of the constraints hold, and the
/// forces of the rows: the values of `forward` up to `k`, the turns, vectors and table `O K J` of the rows, their bias `g`, the factors `Y Z C l` of their
/// coupling, and `w z e lam x`, where `x` has the accelerations of the columns, in metres or radians per second squared, and `lam` the forces of the rows,
/// in newtons or newton metres.
///
/// A refusal is that of the first part that is refused: the parts of `forward` up to `k`, the rows, their bias, their coupling, where `Pivot` bears a `C` in
/// which zero lies, `w` and `z` without the forces, the right sides `e`, the forces, `w` with what they add, `z` and `x`. `Size` bears the value that is too
/// large (Featherstone, Rigid Body Dynamics Algorithms, chapter 8).
pub fn contact(
    robot: &Robot,
    cons: &Constraints,
    state: &State,
    work: &mut Work,
) -> Result<(), RowFault>
    requires fits { Fits robot.now state.now }
    requires room { IsFor robot.now work.old }
    requires rows { (constraints_of cons.now).rows ≤ work.old.rows }
    requires fit { RowsFit (shape_of robot.now) (constraints_of cons.now) }

    // each value that the work holds is what its rule gives from the values that the work holds
    ensures values { OnOk result (AreContact robot.now state.now (constraints_of cons.now) work.new) }

    // the first part that is refused, behind those whose values are there
    ensures refused { IfErr result (IsContactRefused robot.now state.now (constraints_of cons.now)) }

    // one answer, whatever the work held before
    ensures answer { Answers result (contact_of robot.now state.now (constraints_of cons.now)) (accelerations_in robot.now work.new, forces_in (constraints_of cons.now) work.new) }

    // the equations of motion of each choice, with those of the rows, have one solution, and its accelerations and forces lie in the values
    ensures encloses { OnOk result (EnclosesContact robot.now state.now (constraints_of cons.now) work.new) }

    // all else is as it was
    ensures others { work.new ≡ record work.old { q = work.new.q; X = work.new.X; s = work.new.s; v = work.new.v; c = work.new.c; a = work.new.a; b = work.new.b; f = work.new.f; t = work.new.t; T = work.new.T; I = work.new.I; H = work.new.H; packed = work.new.packed; w = work.new.w; z = work.new.z; x = work.new.x; O = work.new.O; K = work.new.K; J = work.new.J; g = work.new.g; Y = work.new.Y; Z = work.new.Z; pairs = work.new.pairs; e = work.new.e; lam = work.new.lam; k = work.new.k } }
{
    let _tree = robot.bodies();
    let _sizes = work.bodies();
    forced(robot, cons, state, work)?;
    add_row_forces(cons.rows(), work)?;
    divide(work)?;
    substitute(work)
}
