//! The factors of the mass table, and the rows that meet.

ghost use Rattle.std.specs.Prelude.{◌≡◌, ◌≤◌, OnOk, IfErr};
ghost use Rattle.rb_flat.specs.Contact.{RowsFit};
ghost use Rattle.rb_tree.specs.Shape.{shape_of};
ghost use Rattle.rb_tree.specs.State.{Fits};
ghost use Rattle.rb_tree.specs.Places.{IsFor};
ghost use Rattle.rb_constraint.specs.Constraints.{constraints_of};
ghost use Rattle.rb_impact.specs.Impact.{AreFactored, AreMet, IsImpactRefused};

use rb_constraint::{Constraints, MAX_ROWS, fill_rows};
use rb_coupling::couple;
use rb_mass::{crba, factor};
use rb_num::Iv;
use rb_tree::{Robot, State};
use rb_work::{RowFault, Work};

const RIGID: [Iv; MAX_ROWS] = [Iv::ZERO; MAX_ROWS];

// The factors of the mass table.
fn factored(
    robot: &Robot,
    cons: &Constraints,
    state: &State,
    work: &mut Work,
) -> Result<(), RowFault>
    requires fits { Fits robot.now state.now }
    requires room { IsFor robot.now work.old }
    ensures values { OnOk result (AreFactored robot.now state.now work.new) }
    ensures refused { IfErr result (IsImpactRefused robot.now state.now (constraints_of cons.now)) }
    ensures others { work.new ≡ record work.old { q = work.new.q; X = work.new.X; I = work.new.I; H = work.new.H; packed = work.new.packed } }
{
    let _rows = cons.rows();
    crba(robot, state, work)?;
    factor(robot, work)
}

// And how the rows act on one another, of which none gives way.
pub(crate) fn met(
    robot: &Robot,
    cons: &Constraints,
    state: &State,
    work: &mut Work,
) -> Result<(), RowFault>
    requires fits { Fits robot.now state.now }
    requires room { IsFor robot.now work.old }
    requires rows { (constraints_of cons.now).rows ≤ work.old.rows }
    requires fit { RowsFit (shape_of robot.now) (constraints_of cons.now) }
    ensures values { OnOk result (AreMet robot.now state.now (constraints_of cons.now) work.new) }
    ensures refused { IfErr result (IsImpactRefused robot.now state.now (constraints_of cons.now)) }
    ensures others { work.new ≡ record work.old { q = work.new.q; X = work.new.X; I = work.new.I; H = work.new.H; packed = work.new.packed; O = work.new.O; K = work.new.K; J = work.new.J; Y = work.new.Y; Z = work.new.Z; pairs = work.new.pairs } }
{
    factored(robot, cons, state, work)?;
    fill_rows(robot, cons, work)?;
    couple(work, &RIGID[..cons.rows() as usize])
}
