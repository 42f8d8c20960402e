//! What the mass table has to give: the torque of each column less its bias.

ghost use Rattle.std.specs.Prelude.{◌≡◌, ◌≤◌, length, OnOk, IfErr};
ghost use Rattle.rb_sweep.specs.Sweep.{Answers};
ghost use Rattle.rb_tree.specs.Columns.{column_count};
ghost use Rattle.rb_tree.specs.State.{Fits};
ghost use Rattle.rb_tree.specs.Places.{IsFor};
ghost use Rattle.rb_contact.specs.Driving.{driving_step, driven_of, AreDriving, IsRightSide, IsDrivingRefused};

use rb_tree::{Robot, State};
use rb_work::{Capitals, Name, NameKind, RowFault, Work, named};

// The value of one column, which is the right side there too.
#[tactic(auto, unfolding(crate::specs::Driving::k_rule, crate::specs::Driving::driving_step))]
fn drive_at(state: &State, c: u32, work: &mut Work) -> Result<(), RowFault>
    requires from { 1 ≤ c }
    requires columns { c ≤ length work.old.up }
    requires torques { c ≤ length state.now.tau }
    ensures step { Answers result (driving_step state.now c work.old) work.new }
    ensures others { work.new ≡ record work.old { k = work.new.k; w = work.new.w } }
{
    let torque = state.tau(c as usize - 1);
    let driving = named(torque.sub(work.T(c)), Name::one(NameKind::k, c))?;
    work.set_k(c, driving);
    work.set_w(c, driving);
    Ok(())
}

// The sweep over the columns.
#[tactic(auto, using(rb_sweep::proofs::SweepSteps::sweeps))]
fn sweep_driving(robot: &Robot, state: &State, work: &mut Work) -> Result<(), RowFault>
    requires torques { length state.now.tau ≡ column_count robot.now.bodies }
    requires columns { length work.old.up ≡ column_count robot.now.bodies }
    ensures exact { Answers result (driven_of robot.now state.now work.old) work.new }
    ensures others { work.new ≡ record work.old { k = work.new.k; w = work.new.w } }
{
    let end = robot.nv() + 1;
    for c in 1..end {
        drive_at(state, c, work)?;
    }
    Ok(())
}

// The values of the columns, which are the right side too.
pub(crate) fn drive(robot: &Robot, state: &State, work: &mut Work) -> Result<(), RowFault>
    requires fits { Fits robot.now state.now }
    requires room { IsFor robot.now work.old }
    ensures values { OnOk result (AreDriving robot.now state.now work.new) }
    ensures right { OnOk result (IsRightSide robot.now work.new) }
    ensures refused { IfErr result (IsDrivingRefused robot.now state.now work.old) }
    ensures others { work.new ≡ record work.old { k = work.new.k; w = work.new.w } }
{
    let _sizes = work.bodies();
    sweep_driving(robot, state, work)
}
