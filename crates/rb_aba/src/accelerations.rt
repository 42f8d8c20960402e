//! The accelerations of the joints and of the bodies, from the root on.

ghost use Rattle.std.specs.Prelude.{◌≡◌, ◌+◌, ◌≤◌, length, false, IfErr};
ghost use Rattle.rb_sweep.specs.Sweep.{Answers};
ghost use Rattle.rb_work.specs.View.{columns_of as columns_in};
ghost use Rattle.rb_tree.specs.Columns.{column_count, has_mimic};
ghost use Rattle.rb_tree.specs.Robot.{HasBody};
ghost use Rattle.rb_aba.specs.Articulated.{HasJointColumn};
ghost use Rattle.rb_aba.specs.Accelerations.{carried_to};
ghost use Rattle.rb_aba.specs.Steps.{moving, rate_by, rate_step, rates_of, down_step, downs_of};

use crate::articulated::column_number;
use crate::rules::{less_power, motion_and};
use rb_num::NumFault;
use rb_rnea::against_gravity;
use rb_spatial::{Motion, apply, sum_motions};
use rb_tree::{Robot, State};
use rb_work::{Capitals, Name, NameKind, RowFault, Work, named};

// A column moves its body along the axis: its acceleration, and the body's.
#[tactic(auto, unfolding(crate::specs::Steps::rate_by))]
fn rate_gives(c: u32, axis: &Motion, y: &mut Motion, work: &mut Work) -> Result<(), RowFault>
    requires from { 1 ≤ c }
    requires to { c ≤ columns_in work.old }
    ensures step { Answers result (rate_by c axis.now (moving work.old y.old)) (moving work.new y.new) }
    ensures others { work.new ≡ record work.old { x = work.new.x } }
{
    let left = named(
        less_power(work.u(c), y, work.U(c)),
        Name::one(NameKind::x, c),
    )?;
    let x = named(left.div(work.D(c)), Name::one(NameKind::x, c))?;
    let next = named(motion_and(y, x, axis), Name::one(NameKind::x, c))?;
    *y = next;
    work.set_x(c, x);
    Ok(())
}

// One column of a body.
fn rate_at(robot: &Robot, i: u32, k: usize, y: &mut Motion, work: &mut Work) -> Result<(), RowFault>
    requires lead { has_mimic robot.now.bodies ≡ false }
    requires columns { columns_in work.old ≡ column_count robot.now.bodies }
    requires column { HasJointColumn robot.now i k }
    ensures step { Answers result (rate_step robot.now i k (moving work.old y.old)) (moving work.new y.new) }
    ensures others { work.new ≡ record work.old { x = work.new.x } }
{
    let c = column_number(robot, i, k);
    let axis = robot.joint(i).column(k);
    rate_gives(c, &axis, y, work)
}

// The columns of a body add their accelerations.
#[tactic(auto, using(rb_sweep::proofs::SweepSteps::sweeps))]
fn rates_give(robot: &Robot, i: u32, y: &mut Motion, work: &mut Work) -> Result<(), RowFault>
    requires lead { has_mimic robot.now.bodies ≡ false }
    requires room { work.old.bodies ≡ length robot.now.bodies }
    requires columns { columns_in work.old ≡ column_count robot.now.bodies }
    requires there { HasBody robot.now i }
    ensures step { Answers result (rates_of robot.now i (moving work.old y.old)) (moving work.new y.new) }
    ensures others { work.new ≡ record work.old { x = work.new.x } }
{
    let count = robot.joint(i).nv();
    for k in 0..count {
        rate_at(robot, i, k, y, work)?;
    }
    Ok(())
}

// The acceleration of a body without its joint's own.
#[tactic(auto, unfolding(crate::specs::Accelerations::carried_to))]
fn carried(robot: &Robot, i: u32, work: &Work) -> Result<Motion, NumFault>
    requires room { work.now.bodies ≡ length robot.now.bodies }
    requires there { HasBody robot.now i }
    ensures exact { result ≡ carried_to robot.now.bodies i work.now }
    ensures size { IfErr result (λ e. e ≡ NumFault.Size) }
{
    let moved = apply(work.X(i), work.a(robot.parent(i)))?;
    sum_motions(&moved, work.c(i))
}

// The names of one body.
#[tactic(auto, unfolding(crate::specs::Steps::down_step))]
fn body_down(robot: &Robot, i: u32, work: &mut Work) -> Result<(), RowFault>
    requires lead { has_mimic robot.now.bodies ≡ false }
    requires room { work.old.bodies ≡ length robot.now.bodies }
    requires columns { columns_in work.old ≡ column_count robot.now.bodies }
    requires there { HasBody robot.now i }
    ensures step { Answers result (down_step robot.now i work.old) work.new }
    ensures others { work.new ≡ record work.old { x = work.new.x; a = work.new.a } }
{
    let mut y = named(carried(robot, i, work), Name::one(NameKind::a, i))?;
    rates_give(robot, i, &mut y, work)?;
    work.set_a(i, y);
    Ok(())
}

// The sweep over the bodies.
#[tactic(auto, using(rb_sweep::proofs::SweepSteps::sweeps))]
pub(crate) fn sweep_down(robot: &Robot, state: &State, work: &mut Work) -> Result<(), RowFault>
    requires lead { has_mimic robot.now.bodies ≡ false }
    requires room { work.old.bodies ≡ length robot.now.bodies }
    requires columns { columns_in work.old ≡ column_count robot.now.bodies }
    ensures exact { Answers result (downs_of robot.now state.now work.old) work.new }
    ensures others { work.new ≡ record work.old { x = work.new.x; a = work.new.a } }
{
    work.set_a(0, against_gravity(state));
    let end = robot.bodies() + 1;
    for i in 1..end {
        body_down(robot, i, work)?;
    }
    Ok(())
}
