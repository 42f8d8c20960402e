//! What the joints bear along their columns, and the torques of the columns.

ghost use Rattle.std.specs.Prelude.{◌≡◌, ◌+◌, ◌-◌, ◌<◌, length, replicate, IfErr};
ghost use Rattle.rb_num.specs.Interval.{zero_interval};
ghost use Rattle.rb_sweep.specs.Sweep.{Answers, sweep, upward};
ghost use Rattle.rb_work.specs.View.{t_at};
ghost use Rattle.rb_tree.specs.Columns.{column_count, first_column, body_of_column};
ghost use Rattle.rb_tree.specs.Robot.{HasBody, HasColumn};
ghost use Rattle.rb_tree.specs.State.{at_place};
ghost use Rattle.rb_rnea.specs.Rates.{joint_columns};
ghost use Rattle.rb_rnea.specs.Torques.{add_power, add_follower};
ghost use Rattle.rb_rnea.specs.Steps.{power_step, powers_of, torque_step, torques_of};

use rb_num::{Iv, NumFault, dot};
use rb_tree::Robot;
use rb_work::{Capitals, Name, NameKind, RowFault, Work, named};

// What the joint of a body bears along each of its columns.
#[tactic(auto, unfolding(crate::specs::Torques::add_power), using(rb_sweep::proofs::SweepSteps::sweeps))]
fn powers_at(robot: &Robot, i: u32, work: &Work) -> Result<[Iv; 6], NumFault>
    requires room { work.now.bodies ≡ length robot.now.bodies }
    requires there { HasBody robot.now i }
    ensures exact { result ≡ sweep (add_power robot.now.bodies work.now i) (upward 0 (joint_columns robot.now.bodies i)) (replicate 6 zero_interval) }
    ensures size { IfErr result (λ e. e ≡ NumFault.Size) }
{
    let joint = robot.joint(i);
    let force = work.f(i);
    let mut powers = [Iv::ZERO; 6];
    let end = joint.nv();
    for k in 0..end {
        powers[k] = joint.power(k, force)?;
    }
    Ok(powers)
}

// The torque of a column of body i, its column k from 0.
#[tactic(auto, unfolding(crate::specs::Torques::add_follower), using(rb_sweep::proofs::SweepSteps::sweeps))]
fn torque_at(robot: &Robot, i: u32, k: usize, work: &Work) -> Result<Iv, NumFault>
    requires room { work.now.bodies ≡ length robot.now.bodies }
    requires there { HasBody robot.now i }
    requires column { k < 6 }
    ensures exact { result ≡ sweep (add_follower robot.now.bodies work.now i k) (upward 1 (length robot.now.bodies + 1)) (at_place (t_at work.now i) k) }
    ensures size { IfErr result (λ e. e ≡ NumFault.Size) }
{
    let mut sum = work.t(i)[k];
    let end = robot.bodies() + 1;
    for j in 1..end {
        sum = with_follower(robot, i, k, j, sum, work)?;
    }
    Ok(sum)
}

// One more body: its joint may follow that of body i.
#[tactic(auto, unfolding(crate::specs::Torques::add_follower))]
fn with_follower(
    robot: &Robot,
    i: u32,
    k: usize,
    j: u32,
    sum: Iv,
    work: &Work,
) -> Result<Iv, NumFault>
    requires room { work.now.bodies ≡ length robot.now.bodies }
    requires there { HasBody robot.now j }
    requires column { k < 6 }
    ensures exact { result ≡ add_follower robot.now.bodies work.now i k j sum }
    ensures size { IfErr result (λ e. e ≡ NumFault.Size) }
{
    match robot.mimic_of(j) {
        None => Ok(sum),
        Some(mimic) => {
            if mimic.master == i {
                let x = dot(&[(mimic.multiplier, work.t(j)[k])])?;
                sum.add(x)
            } else {
                Ok(sum)
            }
        }
    }
}

// The name of one body.
#[tactic(auto, unfolding(crate::specs::Torques::t_rule, crate::specs::Steps::power_step))]
fn body_powers(robot: &Robot, i: u32, work: &mut Work) -> Result<(), RowFault>
    requires room { work.old.bodies ≡ length robot.now.bodies }
    requires there { HasBody robot.now i }
    ensures step { Answers result (power_step robot.now i work.old) work.new }
    ensures others { work.new ≡ record work.old { t = work.new.t } }
{
    let t = named(powers_at(robot, i, work), Name::one(NameKind::t, i))?;
    work.set_t(i, t);
    Ok(())
}

// The sweep over the bodies.
#[tactic(auto, using(rb_sweep::proofs::SweepSteps::sweeps))]
pub(crate) fn sweep_powers(robot: &Robot, work: &mut Work) -> Result<(), RowFault>
    requires room { work.old.bodies ≡ length robot.now.bodies }
    ensures exact { Answers result (powers_of robot.now work.old) work.new }
    ensures others { work.new ≡ record work.old { t = work.new.t } }
{
    let end = robot.bodies() + 1;
    for i in 1..end {
        body_powers(robot, i, work)?;
    }
    Ok(())
}

// The name of one column.
#[tactic(auto, unfolding(crate::specs::Torques::T_rule, crate::specs::Steps::torque_step))]
fn column_torque(robot: &Robot, c: u32, work: &mut Work) -> Result<(), RowFault>
    requires room { work.old.bodies ≡ length robot.now.bodies }
    requires columns { length work.old.up ≡ column_count robot.now.bodies }
    requires there { HasColumn robot.now c }
    ensures step { Answers result (torque_step robot.now c work.old) work.new }
    ensures others { work.new ≡ record work.old { T = work.new.T } }
{
    let i = robot.column_body(c);
    let k = (c - robot.first_column(i)) as usize;
    let torque = named(torque_at(robot, i, k, work), Name::one(NameKind::T, c))?;
    work.set_T(c, torque);
    Ok(())
}

// The sweep over the columns.
#[tactic(auto, using(rb_sweep::proofs::SweepSteps::sweeps))]
pub(crate) fn sweep_torques(robot: &Robot, work: &mut Work) -> Result<(), RowFault>
    requires room { work.old.bodies ≡ length robot.now.bodies }
    requires columns { length work.old.up ≡ column_count robot.now.bodies }
    ensures exact { Answers result (torques_of robot.now work.old) work.new }
    ensures others { work.new ≡ record work.old { T = work.new.T } }
{
    let end = robot.nv() + 1;
    for c in 1..end {
        column_torque(robot, c, work)?;
    }
    Ok(())
}
