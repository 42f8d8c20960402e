//! The entries that forces leave on the way to the root.

ghost use Rattle.std.specs.Prelude.{◌≡◌, ◌≤◌, ◌<◌, ◌+◌, IfErr, length};
ghost use Rattle.rb_sweep.specs.Sweep.{Answers};
ghost use Rattle.rb_flat.specs.Contact.{HasRow};
ghost use Rattle.rb_tree.specs.Columns.{full_at};
ghost use Rattle.rb_tree.specs.Robot.{HasBody};
ghost use Rattle.rb_constraint.specs.Constraints.{constraints_of};
ghost use Rattle.rb_constraint.specs.Rows.{leave, start_of, entry_at_column, entries_at_body, at_body as at_body_of, way_from as way_from_of, ways_by};

use crate::constraints::Constraints;
use rb_num::{Iv, NumFault};
use rb_spatial::{Force, apply_dual};
use rb_tree::{MAX_COLUMNS, Robot};
use rb_work::{Capitals, Work};

// One for each column and 0, and some behind for the columns of a joint.
const PLACES: usize = MAX_COLUMNS as usize + 7;

/// A force on the way to the root, and the entries that it has left, by the columns of all joints from 1.
#[derive(Clone, Copy)]
pub(crate) struct Way {
    pub force: Force,
    pub entries: [Iv; PLACES],
}

/// The ways of both forces of a row.
#[derive(Clone, Copy)]
pub(crate) struct Ways {
    pub first: Way,
    pub second: Way,
}

// The entry of column k of body a.
#[tactic(auto, unfolding(crate::specs::Rows::entry_at_column))]
fn put_entry(robot: &Robot, a: u32, k: usize, way: &mut Way) -> Result<(), NumFault>
    requires there { HasBody robot.now a }
    requires column { k < full_at robot.now.bodies a }
    ensures step { Answers result (entry_at_column robot.now.bodies a k way.old) way.new }
{
    let entry = robot.joint(a).power(k, &way.force)?;
    let _columns = robot.full();
    way.entries[robot.first_full(a) as usize + k] = entry;
    Ok(())
}

// How many columns the joint of body a has.
#[tactic(auto, using(crate::proofs::Upward::full_is))]
fn joint_columns(robot: &Robot, a: u32) -> usize
    requires { HasBody robot.now a }
    ensures { result ≡ full_at robot.now.bodies a }
{
    robot.joint(a).nv()
}

// Those of body a.
#[tactic(auto, using(rb_sweep::proofs::SweepSteps::sweeps))]
fn put_entries(robot: &Robot, a: u32, way: &mut Way) -> Result<(), NumFault>
    requires there { HasBody robot.now a }
    ensures step { Answers result (entries_at_body robot.now.bodies a way.old) way.new }
{
    let end = joint_columns(robot, a);
    for k in 0..end {
        put_entry(robot, a, k, way)?;
    }
    Ok(())
}

// A force on body a, seen from its parent if that is a body.
#[tactic(auto, unfolding(crate::specs::Rows::leave))]
fn seen_above(robot: &Robot, a: u32, force: Force, work: &Work) -> Result<Force, NumFault>
    requires room { work.now.bodies ≡ length robot.now.bodies }
    requires there { HasBody robot.now a }
    ensures exact { result ≡ leave robot.now.bodies work.now a force }
    ensures size { IfErr result (λ e. e ≡ NumFault.Size) }
{
    if robot.parent(a) == 0 {
        Ok(force)
    } else {
        apply_dual(work.X(a), &force)
    }
}

// At one body on the way: its entries, and the force as its parent sees it.
#[tactic(auto, unfolding(crate::specs::Rows::at_body))]
fn at_body(robot: &Robot, a: u32, work: &Work, way: &mut Way) -> Result<(), NumFault>
    requires room { work.now.bodies ≡ length robot.now.bodies }
    requires there { HasBody robot.now a }
    ensures step { Answers result (at_body_of robot.now.bodies work.now a way.old) way.new }
{
    put_entries(robot, a, way)?;
    way.force = seen_above(robot, a, way.force, work)?;
    Ok(())
}

fn start(force: &Force) -> Way
    ensures { result ≡ start_of force.now }
{
    Way {
        force: *force,
        entries: [Iv::ZERO; PLACES],
    }
}

// From body i to the root.
#[tactic(auto, unfolding(crate::specs::Rows::way_from), using(crate::proofs::Upward::body_paths))]
fn way_from(robot: &Robot, i: u32, force: &Force, work: &Work) -> Result<Way, NumFault>
    requires room { work.now.bodies ≡ length robot.now.bodies }
    requires there { i ≤ length robot.now.bodies }
    ensures exact { result ≡ way_from_of robot.now.bodies work.now i force.now }
{
    let _tree = robot.bodies();
    let mut way = start(force);
    let mut a = i;
    while a != 0 {
        at_body(robot, a, work, &mut way)?;
        a = robot.parent(a);
    }
    Ok(way)
}

/// Those of the forces of row `r` of a work.
#[tactic(auto, unfolding(crate::specs::Rows::ways_by))]
pub(crate) fn ways_at(
    robot: &Robot,
    cons: &Constraints,
    r: u32,
    work: &Work,
) -> Result<Ways, NumFault>
    requires room { work.now.bodies ≡ length robot.now.bodies }
    requires there { HasRow (constraints_of cons.now) r }
    requires row { r ≤ work.now.rows }
    requires first_body { ((constraints_of cons.now).row r).first ≤ length robot.now.bodies }
    requires second_body { ((constraints_of cons.now).row r).second ≤ length robot.now.bodies }
    ensures exact { result ≡ ways_by robot.now.bodies (constraints_of cons.now) r work.now }
{
    let row = cons.row(r);
    let [on_first, on_second] = work.K(r);
    let first = way_from(robot, row.first, on_first, work)?;
    let second = way_from(robot, row.second, on_second, work)?;
    Ok(Ways { first, second })
}
