//! The forces across the joints, to the root.

ghost use Rattle.std.specs.Prelude.{◌≡◌, ◌+◌, ◌≤◌, length, IfErr};
ghost use Rattle.rb_sweep.specs.Sweep.{Answers, sweep, downward};
ghost use Rattle.rb_work.specs.View.{b_at};
ghost use Rattle.rb_tree.specs.Robot.{HasBody};
ghost use Rattle.rb_rnea.specs.Forces.{join_child, add_child};
ghost use Rattle.rb_rnea.specs.Steps.{force_step, forces_of};

use rb_num::NumFault;
use rb_spatial::{Force, apply_dual, sum_forces};
use rb_tree::Robot;
use rb_work::{Capitals, Name, NameKind, RowFault, Work, named};

// What the joint of body j bears, seen from its parent, is added.
#[tactic(auto, unfolding(crate::specs::Forces::join_child))]
fn joined(j: u32, sum: &Force, work: &Work) -> Result<Force, NumFault>
    requires room { j ≤ work.now.bodies }
    ensures exact { result ≡ join_child work.now j sum.now }
    ensures size { IfErr result (λ e. e ≡ NumFault.Size) }
{
    let carried = apply_dual(work.X(j), work.f(j))?;
    sum_forces(sum, &carried)
}

// What the joint of a body bears, with its children's.
#[tactic(auto, unfolding(crate::specs::Forces::add_child), using(rb_sweep::proofs::SweepSteps::sweeps_down))]
fn force_at(robot: &Robot, i: u32, work: &Work) -> Result<Force, NumFault>
    requires room { work.now.bodies ≡ length robot.now.bodies }
    requires there { HasBody robot.now i }
    ensures exact { result ≡ sweep (add_child robot.now.bodies work.now i) (downward (i + 1) (length robot.now.bodies + 1)) (b_at work.now i) }
    ensures size { IfErr result (λ e. e ≡ NumFault.Size) }
{
    let end = robot.bodies() + 1;
    let mut sum = *work.b(i);
    for j in (i + 1..end).rev() {
        if robot.parent(j) == i {
            sum = joined(j, &sum, work)?;
        }
    }
    Ok(sum)
}

// The name of one body.
#[tactic(auto, unfolding(crate::specs::Forces::f_rule, crate::specs::Steps::force_step))]
fn body_force(robot: &Robot, i: u32, work: &mut Work) -> Result<(), RowFault>
    requires room { work.old.bodies ≡ length robot.now.bodies }
    requires there { HasBody robot.now i }
    ensures step { Answers result (force_step robot.now i work.old) work.new }
    ensures others { work.new ≡ record work.old { f = work.new.f } }
{
    let f = named(force_at(robot, i, work), Name::one(NameKind::f, i))?;
    work.set_f(i, f);
    Ok(())
}

// The sweep over the bodies.
#[tactic(auto, using(rb_sweep::proofs::SweepSteps::sweeps_down))]
pub(crate) fn sweep_forces(robot: &Robot, work: &mut Work) -> Result<(), RowFault>
    requires room { work.old.bodies ≡ length robot.now.bodies }
    ensures exact { Answers result (forces_of robot.now work.old) work.new }
    ensures others { work.new ≡ record work.old { f = work.new.f } }
{
    let end = robot.bodies() + 1;
    for i in (1..end).rev() {
        body_force(robot, i, work)?;
    }
    Ok(())
}
