//! What the impulses of the rows put on the columns.

ghost use Rattle.std.specs.Prelude.{◌≡◌, ◌≤◌, length, OnOk, IfErr};
ghost use Rattle.rb_sweep.specs.Sweep.{Answers};
ghost use Rattle.rb_tree.specs.Columns.{column_count};
ghost use Rattle.rb_tree.specs.Places.{IsFor};
ghost use Rattle.rb_constraint.specs.Constraints.{constraints_of};
ghost use Rattle.rb_impact.specs.Pushes.{clear_step, cleared_of, ArePushes, IsPushRefused};

use rb_constraint::Constraints;
use rb_coupling::add_row_forces;
use rb_num::Iv;
use rb_tree::Robot;
use rb_work::{RowFault, Work};

// Nothing is put on column c.
#[tactic(auto, unfolding(crate::specs::Pushes::clear_step))]
fn clear_at(c: u32, work: &mut Work) -> Result<(), RowFault>
    requires columns { c ≤ length work.old.up }
    ensures step { Answers result (clear_step c work.old) work.new }
    ensures others { work.new ≡ record work.old { w = work.new.w } }
{
    work.set_w(c, Iv::ZERO);
    Ok(())
}

// The columns from the first on.
#[tactic(auto, using(rb_sweep::proofs::SweepSteps::sweeps))]
fn sweep_clear(robot: &Robot, work: &mut Work) -> Result<(), RowFault>
    requires columns { length work.old.up ≡ column_count robot.now.bodies }
    ensures exact { Answers result (cleared_of robot.now work.old) work.new }
    ensures others { work.new ≡ record work.old { w = work.new.w } }
{
    let end = robot.nv() + 1;
    for c in 1..end {
        clear_at(c, work)?;
    }
    Ok(())
}

// What the impulses of the rows put on each column.
pub(crate) fn push(robot: &Robot, cons: &Constraints, work: &mut Work) -> Result<(), RowFault>
    requires room { IsFor robot.now work.old }
    requires rows { (constraints_of cons.now).rows ≤ work.old.rows }
    ensures values { OnOk result (ArePushes robot.now (constraints_of cons.now) work.new) }
    ensures refused { IfErr result (IsPushRefused robot.now (constraints_of cons.now) work.old) }
    ensures others { work.new ≡ record work.old { w = work.new.w } }
{
    let _cons = cons.rows();
    let _sizes = work.bodies();
    sweep_clear(robot, work)?;
    add_row_forces(cons.rows(), work)
}
