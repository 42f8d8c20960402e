//! The entries of pairs of joint columns, along the paths to the root.

ghost use Rattle.std.specs.Prelude.{◌≡◌, ◌+◌, ◌≤◌, length, IfErr};
ghost use Rattle.rb_sweep.specs.Sweep.{Answers};
ghost use Rattle.rb_tree.specs.Columns.{full_count, first_full};
ghost use Rattle.rb_tree.specs.Robot.{HasBody};
ghost use Rattle.rb_mass.specs.Entries.{HasJointColumn, leave};
ghost use Rattle.rb_mass.specs.Steps.{entry_step, entries_on, goes_on, way_step, way_from, column_walk, column_step, joint_step, entries_of};

use crate::columns::{
    JointColumn, full_number, joint_columns, met_columns, motion_along, power_along,
};
use rb_num::NumFault;
use rb_spatial::{Force, apply_dual, times};
use rb_tree::Robot;
use rb_work::{Capitals, Name, NameKind, RowFault, Work, named};

// The entry of full column f and a column at or above it, from a force seen there.
#[tactic(auto, unfolding(crate::specs::Steps::entry_step))]
fn put_entry(
    robot: &Robot,
    f: u32,
    at: JointColumn,
    force: &Force,
    work: &mut Work,
) -> Result<(), NumFault>
    requires room { work.old.full ≡ full_count robot.now.bodies }
    requires there { HasJointColumn robot.now at.body at.k }
    requires full { f ≤ full_count robot.now.bodies }
    requires above { first_full robot.now.bodies at.body + at.k ≤ f }
    ensures step { Answers result (entry_step robot.now.bodies f at.body force.now at.k work.old) work.new }
    ensures others { work.new ≡ record work.old { H = work.new.H } }
{
    let entry = power_along(robot, at, force)?;
    work.set_H(f, full_number(robot, at), entry);
    Ok(())
}

// The entries of a joint column and those of body a that it meets.
#[tactic(auto, using(rb_sweep::proofs::SweepSteps::sweeps, crate::proofs::Ways::full_rises))]
fn put_entries(
    robot: &Robot,
    of: JointColumn,
    a: u32,
    force: &Force,
    work: &mut Work,
) -> Result<(), NumFault>
    requires room { work.old.full ≡ full_count robot.now.bodies }
    requires there { HasJointColumn robot.now of.body of.k }
    requires body { HasBody robot.now a }
    requires upward { a ≤ of.body }
    ensures step { Answers result (entries_on robot.now.bodies of.body of.k a force.now work.old) work.new }
    ensures others { work.new ≡ record work.old { H = work.new.H } }
{
    let f = full_number(robot, of);
    let end = met_columns(robot, of, a);
    for l in 0..end {
        put_entry(robot, f, JointColumn { body: a, k: l }, force, work)?;
    }
    Ok(())
}

// A force on body a, seen from its parent if that is a body.
#[tactic(auto, unfolding(crate::specs::Entries::leave))]
fn seen_above(robot: &Robot, a: u32, force: Force, work: &Work) -> Result<Force, NumFault>
    requires room { work.now.bodies ≡ length robot.now.bodies }
    requires body { HasBody robot.now a }
    ensures exact { result ≡ leave robot.now.bodies work.now a force }
    ensures size { IfErr result (λ e. e ≡ NumFault.Size) }
{
    if robot.parent(a) == 0 {
        Ok(force)
    } else {
        apply_dual(work.X(a), &force)
    }
}

// At one body on the path: the entries there, and the force as its parent sees it.
#[tactic(auto, unfolding(crate::specs::Steps::way_step))]
fn at_body(
    robot: &Robot,
    of: JointColumn,
    a: u32,
    force: Force,
    work: &mut Work,
) -> Result<Force, NumFault>
    requires bodies { work.old.bodies ≡ length robot.now.bodies }
    requires full { work.old.full ≡ full_count robot.now.bodies }
    requires there { HasJointColumn robot.now of.body of.k }
    requires body { HasBody robot.now a }
    requires upward { a ≤ of.body }
    ensures step { way_step robot.now.bodies of.body of.k a (record { force = force; work = work.old }) ≡ goes_on result work.new }
    ensures others { work.new ≡ record work.old { H = work.new.H } }
{
    put_entries(robot, of, a, &force, work)?;
    seen_above(robot, a, force, work)
}

// The entries of a joint column along the path to the root, from a force on its body.
#[tactic(auto, using(crate::proofs::Ways::body_paths))]
fn on_the_way(robot: &Robot, of: JointColumn, start: Force, work: &mut Work) -> Result<(), NumFault>
    requires bodies { work.old.bodies ≡ length robot.now.bodies }
    requires full { work.old.full ≡ full_count robot.now.bodies }
    requires there { HasJointColumn robot.now of.body of.k }
    ensures step { Answers result (way_from robot.now.bodies of.body of.k work.old start) work.new }
    ensures others { work.new ≡ record work.old { H = work.new.H } }
{
    let _tree = robot.bodies();
    let mut force = start;
    let mut a = of.body;
    while a != 0 {
        force = at_body(robot, of, a, force, work)?;
        a = robot.parent(a);
    }
    Ok(())
}

// From the force that moves the composite body along the column.
#[tactic(auto, unfolding(crate::specs::Steps::column_walk))]
fn put_column(robot: &Robot, of: JointColumn, work: &mut Work) -> Result<(), NumFault>
    requires bodies { work.old.bodies ≡ length robot.now.bodies }
    requires full { work.old.full ≡ full_count robot.now.bodies }
    requires there { HasJointColumn robot.now of.body of.k }
    ensures step { Answers result (column_walk robot.now.bodies of.body of.k work.old) work.new }
    ensures others { work.new ≡ record work.old { H = work.new.H } }
{
    let force = times(work.I(of.body), &motion_along(robot, of))?;
    on_the_way(robot, of, force, work)
}

// The names of one joint column.
#[tactic(auto, unfolding(crate::specs::Steps::column_step))]
fn column_entries(robot: &Robot, of: JointColumn, work: &mut Work) -> Result<(), RowFault>
    requires bodies { work.old.bodies ≡ length robot.now.bodies }
    requires full { work.old.full ≡ full_count robot.now.bodies }
    requires there { HasJointColumn robot.now of.body of.k }
    ensures step { Answers result (column_step robot.now of.body of.k work.old) work.new }
    ensures others { work.new ≡ record work.old { H = work.new.H } }
{
    named(put_column(robot, of, work), Name::one(NameKind::H, of.body))
}

// The names of one body.
#[tactic(auto, unfolding(crate::specs::Steps::joint_step), using(rb_sweep::proofs::SweepSteps::sweeps))]
fn joint_entries(robot: &Robot, i: u32, work: &mut Work) -> Result<(), RowFault>
    requires bodies { work.old.bodies ≡ length robot.now.bodies }
    requires full { work.old.full ≡ full_count robot.now.bodies }
    requires there { HasBody robot.now i }
    ensures step { Answers result (joint_step robot.now i work.old) work.new }
    ensures others { work.new ≡ record work.old { H = work.new.H } }
{
    let end = joint_columns(robot, i);
    for k in 0..end {
        column_entries(robot, JointColumn { body: i, k }, work)?;
    }
    Ok(())
}

// The sweep over the bodies.
#[tactic(auto, using(rb_sweep::proofs::SweepSteps::sweeps))]
pub(crate) fn sweep_entries(robot: &Robot, work: &mut Work) -> Result<(), RowFault>
    requires bodies { work.old.bodies ≡ length robot.now.bodies }
    requires full { work.old.full ≡ full_count robot.now.bodies }
    ensures exact { Answers result (entries_of robot.now work.old) work.new }
    ensures others { work.new ≡ record work.old { H = work.new.H } }
{
    let end = robot.bodies() + 1;
    for i in 1..end {
        joint_entries(robot, i, work)?;
    }
    Ok(())
}
