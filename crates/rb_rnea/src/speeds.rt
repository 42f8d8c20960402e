//! The speeds of the joints and the velocities of the bodies, from the root on.

ghost use Rattle.std.specs.Prelude.{◌≡◌, ◌+◌, length, Ok, IfErr};
ghost use Rattle.rb_sweep.specs.Sweep.{Answers};
ghost use Rattle.rb_work.specs.View.{s_at};
ghost use Rattle.rb_work.specs.Zeros.{zero_motion};
ghost use Rattle.rb_tree.specs.Robot.{HasBody};
ghost use Rattle.rb_tree.specs.State.{Fits};
ghost use Rattle.rb_rnea.specs.Rates.{motion_of};
ghost use Rattle.rb_rnea.specs.Speeds.{velocity_by};
ghost use Rattle.rb_rnea.specs.Steps.{speed_step, speeds_of};

use crate::rates::{motion_at, rates_at};
use rb_num::{Iv, NumFault};
use rb_spatial::{Motion, Vec3, apply, sum_motions};
use rb_tree::{Robot, State};
use rb_work::{Capitals, Name, NameKind, RowFault, Work, named};

// How the world moves.
#[tactic(auto, unfolding(rb_work::specs::Zeros::zero_motion))]
fn still() -> Motion
    ensures { result ≡ zero_motion }
{
    let nothing = Vec3::new(Iv::ZERO, Iv::ZERO, Iv::ZERO);
    Motion {
        lin: nothing,
        ang: nothing,
    }
}

// The velocity of a body, from its parent's and the motion over its joint.
#[tactic(auto, unfolding(crate::specs::Speeds::velocity_by))]
fn velocity_at(robot: &Robot, i: u32, own: &Motion, work: &Work) -> Result<Motion, NumFault>
    requires room { work.now.bodies ≡ length robot.now.bodies }
    requires there { HasBody robot.now i }
    requires own { motion_of robot.now.bodies i (s_at work.now i) ≡ Ok own.now }
    ensures exact { result ≡ velocity_by robot.now.bodies i work.now }
    ensures size { IfErr result (λ e. e ≡ NumFault.Size) }
{
    let carried = apply(work.X(i), work.v(robot.parent(i)))?;
    sum_motions(&carried, own)
}

// The names of one body. The speeds of a joint are refused where its motion is.
#[tactic(auto, unfolding(crate::specs::Speeds::checked_rates, crate::specs::Speeds::s_rule, crate::specs::Speeds::v_rule, crate::specs::Steps::speed_step))]
fn body_speeds(robot: &Robot, state: &State, i: u32, work: &mut Work) -> Result<(), RowFault>
    requires fits { Fits robot.now state.now }
    requires room { work.old.bodies ≡ length robot.now.bodies }
    requires there { HasBody robot.now i }
    ensures step { Answers result (speed_step robot.now state.now i work.old) work.new }
    ensures others { work.new ≡ record work.old { s = work.new.s; v = work.new.v } }
{
    let _sizes = work.bodies();
    let s = named(
        rates_at(robot, state.speeds(), i),
        Name::one(NameKind::s, i),
    )?;
    let own = named(motion_at(robot, i, &s), Name::one(NameKind::s, i))?;
    work.set_s(i, s);
    let v = named(velocity_at(robot, i, &own, work), Name::one(NameKind::v, i))?;
    work.set_v(i, v);
    Ok(())
}

/// The speeds of the joints and the velocities of the bodies of a row, from the root on: the values `s v` of a work that holds the places. The first
/// name that is refused bears `Size`.
#[tactic(auto, using(rb_sweep::proofs::SweepSteps::sweeps))]
pub fn sweep_speeds(robot: &Robot, state: &State, work: &mut Work) -> Result<(), RowFault>
    requires fits { Fits robot.now state.now }
    requires room { work.old.bodies ≡ length robot.now.bodies }
    ensures exact { Answers result (speeds_of robot.now state.now work.old) work.new }
    ensures others { work.new ≡ record work.old { s = work.new.s; v = work.new.v } }
{
    work.set_v(0, still());
    let end = robot.bodies() + 1;
    for i in 1..end {
        body_speeds(robot, state, i, work)?;
    }
    Ok(())
}
