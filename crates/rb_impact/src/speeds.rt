//! The speeds of the columns after the impact.

ghost use Rattle.std.specs.Prelude.{◌≡◌, ◌≤◌, length, OnOk, IfErr};
ghost use Rattle.rb_sweep.specs.Sweep.{Answers};
ghost use Rattle.rb_tree.specs.Columns.{column_count};
ghost use Rattle.rb_tree.specs.State.{Fits};
ghost use Rattle.rb_tree.specs.Places.{IsFor};
ghost use Rattle.rb_impact.specs.Speeds.{speed_step, sped_of, AreSpeeds, IsSpeedRefused};

use rb_tree::{Robot, State};
use rb_work::{Name, NameKind, RowFault, Work, named};

// The speed of one column.
#[tactic(auto, unfolding(crate::specs::Speeds::y_rule, crate::specs::Speeds::speed_step))]
fn speed_at(state: &State, c: u32, work: &mut Work) -> Result<(), RowFault>
    requires from { 1 ≤ c }
    requires columns { c ≤ length work.old.up }
    requires speeds { c ≤ length state.now.v }
    ensures step { Answers result (speed_step state.now c work.old) work.new }
    ensures others { work.new ≡ record work.old { y = work.new.y } }
{
    let before = state.v(c as usize - 1);
    let after = named(before.add(work.x(c)), Name::one(NameKind::y, c))?;
    work.set_y(c, after);
    Ok(())
}

// The columns from the first on.
#[tactic(auto, using(rb_sweep::proofs::SweepSteps::sweeps))]
fn sweep_speeds(robot: &Robot, state: &State, work: &mut Work) -> Result<(), RowFault>
    requires speeds { length state.now.v ≡ column_count robot.now.bodies }
    requires columns { length work.old.up ≡ column_count robot.now.bodies }
    ensures exact { Answers result (sped_of robot.now state.now work.old) work.new }
    ensures others { work.new ≡ record work.old { y = work.new.y } }
{
    let end = robot.nv() + 1;
    for c in 1..end {
        speed_at(state, c, work)?;
    }
    Ok(())
}

// The speeds before, with their changes.
pub(crate) fn speeds_after(robot: &Robot, state: &State, work: &mut Work) -> Result<(), RowFault>
    requires fits { Fits robot.now state.now }
    requires room { IsFor robot.now work.old }
    ensures values { OnOk result (AreSpeeds robot.now state.now work.new) }
    ensures refused { IfErr result (IsSpeedRefused robot.now state.now work.old) }
    ensures others { work.new ≡ record work.old { y = work.new.y } }
{
    let _sizes = work.bodies();
    sweep_speeds(robot, state, work)
}
