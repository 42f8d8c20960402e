//! The speeds after an impact on rows of constraints.

ghost use Rattle.std.specs.Prelude.{◌≡◌, ◌≤◌, OnOk, IfErr};
ghost use Rattle.rb_sweep.specs.Sweep.{Answers};
ghost use Rattle.rb_flat.specs.Contact.{RowsFit};
ghost use Rattle.rb_tree.specs.Shape.{shape_of};
ghost use Rattle.rb_tree.specs.State.{Fits};
ghost use Rattle.rb_tree.specs.Places.{IsFor};
ghost use Rattle.rb_constraint.specs.Constraints.{constraints_of};
ghost use Rattle.rb_impact.specs.Impact.{AreStruck, AreChanged, AreImpact, IsImpactRefused, impact_of, speeds_in, impulses_in, EnclosesImpact};

use crate::met::met;
use crate::pushes::push;
use crate::sides::impact_sides;
use crate::speeds::speeds_after;
use rb_constraint::Constraints;
use rb_coupling::row_forces;
use rb_factor::{divide, substitute};
use rb_tree::{Robot, State};
use rb_work::{RowFault, Work};

// The impulses of the rows.
fn struck(robot: &Robot, cons: &Constraints, state: &State, work: &mut Work) -> Result<(), RowFault>
    requires fits { Fits robot.now state.now }
    requires room { IsFor robot.now work.old }
    requires rows { (constraints_of cons.now).rows ≤ work.old.rows }
    requires fit { RowsFit (shape_of robot.now) (constraints_of cons.now) }
    ensures values { OnOk result (AreStruck robot.now state.now (constraints_of cons.now) work.new) }
    ensures refused { IfErr result (IsImpactRefused robot.now state.now (constraints_of cons.now)) }
    ensures others { work.new ≡ record work.old { q = work.new.q; X = work.new.X; I = work.new.I; H = work.new.H; packed = work.new.packed; O = work.new.O; K = work.new.K; J = work.new.J; Y = work.new.Y; Z = work.new.Z; pairs = work.new.pairs; e = work.new.e; lam = work.new.lam } }
{
    met(robot, cons, state, work)?;
    impact_sides(cons, state, work)?;
    row_forces(cons.rows(), work)
}

// What they change the speeds of the columns by.
fn changed(
    robot: &Robot,
    cons: &Constraints,
    state: &State,
    work: &mut Work,
) -> Result<(), RowFault>
    requires fits { Fits robot.now state.now }
    requires room { IsFor robot.now work.old }
    requires rows { (constraints_of cons.now).rows ≤ work.old.rows }
    requires fit { RowsFit (shape_of robot.now) (constraints_of cons.now) }
    ensures values { OnOk result (AreChanged robot.now state.now (constraints_of cons.now) work.new) }
    ensures refused { IfErr result (IsImpactRefused robot.now state.now (constraints_of cons.now)) }
    ensures others { work.new ≡ record work.old { q = work.new.q; X = work.new.X; I = work.new.I; H = work.new.H; packed = work.new.packed; w = work.new.w; z = work.new.z; x = work.new.x; O = work.new.O; K = work.new.K; J = work.new.J; Y = work.new.Y; Z = work.new.Z; pairs = work.new.pairs; e = work.new.e; lam = work.new.lam } }
{
    struck(robot, cons, state, work)?;
    push(robot, cons, work)?;
    divide(work)?;
    substitute(work)
}

/// The speeds of a robot in a row after an impact on the rows of the constraints, and the impulses of the rows: the values `q X I H` and the factors `D L` of
/// the mass table, the turns, vectors and table `O K J` of the rows, the factors `Y Z C l` of their coupling, to which no compliance is added, and
/// `e lam w z x y`, where `x` has what the speeds of the columns change by, `y` the speeds after, in metres or radians per second, and `lam` the impulses of
/// the rows, in newton seconds or newton metre seconds. After the impact the speed of each row has turned round, by its restitution.
///
/// A refusal is that of the first part that is refused: the mass table, its factors, where `Pivot` bears a `D` in which zero lies, the rows, their coupling,
/// where `Pivot` bears a `C` in which zero lies, the right sides `e`, the impulses, `w` column by column, `z`, `x`, and `y` column by column. `Size` bears the
/// value that is too large (Featherstone, Rigid Body Dynamics Algorithms, chapter 11).
pub fn impulse(
    robot: &Robot,
    cons: &Constraints,
    state: &State,
    work: &mut Work,
) -> Result<(), RowFault>
    requires fits { Fits robot.now state.now }
    requires room { IsFor robot.now work.old }
    requires rows { (constraints_of cons.now).rows ≤ work.old.rows }
    requires fit { RowsFit (shape_of robot.now) (constraints_of cons.now) }

    // each value that the work holds is what its rule gives from the values that the work holds
    ensures values { OnOk result (AreImpact robot.now state.now (constraints_of cons.now) work.new) }

    // the first part that is refused, behind those whose values are there
    ensures refused { IfErr result (IsImpactRefused robot.now state.now (constraints_of cons.now)) }

    // one answer, whatever the work held before
    ensures answer { Answers result (impact_of robot.now state.now (constraints_of cons.now)) (speeds_in robot.now work.new, impulses_in (constraints_of cons.now) work.new) }

    // the equations of an impact of each choice have one solution, and its speeds after and impulses lie in the values
    ensures encloses { OnOk result (EnclosesImpact robot.now state.now (constraints_of cons.now) work.new) }

    // all else is as it was
    ensures others { work.new ≡ record work.old { q = work.new.q; X = work.new.X; I = work.new.I; H = work.new.H; packed = work.new.packed; w = work.new.w; z = work.new.z; x = work.new.x; O = work.new.O; K = work.new.K; J = work.new.J; Y = work.new.Y; Z = work.new.Z; pairs = work.new.pairs; e = work.new.e; lam = work.new.lam; y = work.new.y } }
{
    let _tree = robot.bodies();
    let _rows = cons.rows();
    let _sizes = work.bodies();
    changed(robot, cons, state, work)?;
    speeds_after(robot, state, work)
}
