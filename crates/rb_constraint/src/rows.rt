//! The rows of constraints over a work: the turns of the bodies, the forces of the rows, and the table of rows.

ghost use Rattle.std.specs.Prelude.{◌≡◌, ◌≤◌, ◌<◌, ◌+◌, ◌-◌, OnOk, IfErr, length};
ghost use Rattle.rb_num.specs.Interval.{zero_interval};
ghost use Rattle.rb_sweep.specs.Sweep.{Answers, sweep, upward};
ghost use Rattle.rb_num.specs.Arith.{intervals};
ghost use Rattle.rb_frac.specs.Tables.{row as row_in};
ghost use Rattle.rb_jacobian.specs.Rules.{row_vector};
ghost use Rattle.rb_flat.specs.Contact.{HasRow, RowsFit};
ghost use Rattle.rb_flat.specs.Dynamics.{follows};
ghost use Rattle.rb_work.specs.View.{O_at};
ghost use Rattle.rb_tree.specs.declared.sizes.TheConstants.{MAX_COLUMNS};
ghost use Rattle.rb_tree.specs.Columns.{column_count};
ghost use Rattle.rb_tree.specs.Numbers.{mimic_at};
ghost use Rattle.rb_tree.specs.Shape.{master_of, shape_of};
ghost use Rattle.rb_tree.specs.Robot.{HasBody};
ghost use Rattle.rb_tree.specs.Places.{IsFor};
ghost use Rattle.rb_constraint.specs.Constraints.{constraints_of, flat_row};
ghost use Rattle.rb_constraint.specs.Rows.{no_turn, turn_by, force_by, forces_by, is_led as is_led_of, multiplier_at, add_entry, add_joint, column_by, AreRows, IsRowRefused};
ghost use Rattle.rb_constraint.specs.Encloses.{EnclosesRows};
ghost use Rattle.rb_constraint.specs.Steps.{turn_step, turns_of, entry_step, put_of, entries_step, row_step, lines_of, fills_of};

use crate::constraints::{Constraints, Row};
use crate::ways::{Ways, ways_at};
use rb_num::{Iv, NumFault, dot};
use rb_spatial::{Force, Mat3, Vec3, cross3, product};
use rb_tree::Robot;
use rb_work::{Capitals, Name, NameKind, RowFault, Work, named};

// ---- turns

// The world is not turned.
fn unturned() -> Mat3
    ensures { result ≡ no_turn }
{
    Mat3::new(
        Vec3::new(Iv::ONE, Iv::ZERO, Iv::ZERO),
        Vec3::new(Iv::ZERO, Iv::ONE, Iv::ZERO),
        Vec3::new(Iv::ZERO, Iv::ZERO, Iv::ONE),
    )
}

// The turn of a body, from its parent's.
#[tactic(auto, unfolding(crate::specs::Rows::turn_by))]
fn turn_at(robot: &Robot, i: u32, work: &Work) -> Result<Mat3, NumFault>
    requires room { work.now.bodies ≡ length robot.now.bodies }
    requires there { HasBody robot.now i }
    ensures exact { result ≡ turn_by robot.now.bodies i work.now }
    ensures size { IfErr result (λ e. e ≡ NumFault.Size) }
{
    product(work.O(robot.parent(i)), &work.X(i).e.transpose())
}

// The name of one body.
#[tactic(auto, unfolding(crate::specs::Rows::O_rule, crate::specs::Steps::turn_step))]
fn body_turn(robot: &Robot, i: u32, work: &mut Work) -> Result<(), RowFault>
    requires room { work.old.bodies ≡ length robot.now.bodies }
    requires there { HasBody robot.now i }
    ensures step { Answers result (turn_step robot.now i work.old) work.new }
    ensures others { work.new ≡ record work.old { O = work.new.O } }
{
    let turn = named(turn_at(robot, i, work), Name::one(NameKind::O, i))?;
    work.set_O(i, turn);
    Ok(())
}

// The sweep over the bodies.
#[tactic(auto, using(rb_sweep::proofs::SweepSteps::sweeps))]
fn sweep_turns(robot: &Robot, work: &mut Work) -> Result<(), RowFault>
    requires room { work.old.bodies ≡ length robot.now.bodies }
    ensures exact { Answers result (turns_of robot.now work.old) work.new }
    ensures others { work.new ≡ record work.old { O = work.new.O } }
{
    work.set_O(0, unturned());
    let end = robot.bodies() + 1;
    for i in 1..end {
        body_turn(robot, i, work)?;
    }
    Ok(())
}

// ---- forces

// A force of one along a direction at a point, or a moment of one about it.
#[tactic(auto, unfolding(rb_jacobian::specs::Rules::row_vector))]
fn unit_force(turns: bool, direction: Vec3, point: &Vec3) -> Result<Force, NumFault>
    ensures exact { result ≡ row_vector intervals turns direction point.now }
    ensures size { IfErr result (λ e. e ≡ NumFault.Size) }
{
    if turns {
        let lin = Vec3::new(Iv::ZERO, Iv::ZERO, Iv::ZERO);
        return Ok(Force {
            lin,
            ang: direction,
        });
    }
    let ang = cross3(point, &direction)?;
    Ok(Force {
        lin: direction,
        ang,
    })
}

// That of a row on one of its bodies.
#[tactic(auto, unfolding(crate::specs::Rows::force_by))]
fn force_at(row: &Row, body: u32, point: &Vec3, work: &Work) -> Result<Force, NumFault>
    requires room { body ≤ work.now.bodies }
    requires axis { row.now.axis < 3 }
    ensures exact { result ≡ force_by (flat_row row.now) work.now body point.now }
    ensures size { IfErr result (λ e. e ≡ NumFault.Size) }
{
    unit_force(row.turns, work.O(body).row(row.axis), point)
}

// Those of a row on both.
#[tactic(auto, unfolding(crate::specs::Rows::forces_by))]
fn forces_at(cons: &Constraints, r: u32, work: &Work) -> Result<[Force; 2], NumFault>
    requires there { HasRow (constraints_of cons.now) r }
    requires first { ((constraints_of cons.now).row r).first ≤ work.now.bodies }
    requires second { ((constraints_of cons.now).row r).second ≤ work.now.bodies }
    ensures exact { result ≡ forces_by (constraints_of cons.now) r work.now }
    ensures size { IfErr result (λ e. e ≡ NumFault.Size) }
{
    let row = cons.row(r);
    let first = force_at(row, row.first, &row.first_point, work)?;
    let second = force_at(row, row.second, &row.second_point, work)?;
    Ok([first, second])
}

// ---- the table

// Whether the joint of body j follows that of body i.
fn follows_joint(robot: &Robot, j: u32, i: u32) -> bool
    requires { HasBody robot.now j }
    ensures { result ≡ follows (master_of (mimic_at robot.now.bodies j)) i }
{
    match robot.mimic_of(j) {
        None => false,
        Some(mimic) => mimic.master == i,
    }
}

// Whether some joint follows that of body i.
#[tactic(auto, using(crate::proofs::Upward::any_upward))]
fn is_led(robot: &Robot, i: u32) -> bool
    ensures { result ≡ is_led_of robot.now.bodies i }
{
    let end = robot.bodies() + 1;
    for j in 1..end {
        if follows_joint(robot, j, i) {
            return true;
        }
    }
    false
}

// By how much the joint of body j follows another, or one.
fn multiplier(robot: &Robot, j: u32) -> Iv
    requires { HasBody robot.now j }
    ensures { result ≡ multiplier_at robot.now.bodies j }
{
    match robot.mimic_of(j) {
        None => Iv::ONE,
        Some(mimic) => mimic.multiplier,
    }
}

// A column of body i, its column k from 0, and whether joints follow that of the body.
#[derive(Clone, Copy)]
struct Column {
    i: u32,
    k: usize,
    led: bool,
}

// The entry of a joint column of body j is added.
#[tactic(auto, unfolding(crate::specs::Rows::add_entry, crate::specs::Rows::weighed))]
fn with_entry(
    robot: &Robot,
    ways: &Ways,
    of: Column,
    j: u32,
    f: usize,
    sum: Iv,
) -> Result<Iv, NumFault>
    requires there { HasBody robot.now j }
    requires full { f < MAX_COLUMNS + 7 }
    requires led { of.led ≡ is_led_of robot.now.bodies of.i }
    ensures exact { result ≡ add_entry robot.now.bodies ways.now of.i j f sum }
    ensures size { IfErr result (λ e. e ≡ NumFault.Size) }
{
    let entry = ways.first.entries[f].sub(ways.second.entries[f])?;
    if of.led {
        sum.add(dot(&[(multiplier(robot, j), entry)])?)
    } else {
        sum.add(entry)
    }
}

// One more body: its joint may be that of the column, or follow it.
#[tactic(auto, unfolding(crate::specs::Rows::add_joint))]
fn with_joint(robot: &Robot, ways: &Ways, of: Column, j: u32, sum: Iv) -> Result<Iv, NumFault>
    requires there { HasBody robot.now j }
    requires column { of.k < 6 }
    requires led { of.led ≡ is_led_of robot.now.bodies of.i }
    ensures exact { result ≡ add_joint robot.now.bodies ways.now of.i of.k j sum }
    ensures size { IfErr result (λ e. e ≡ NumFault.Size) }
{
    if j == of.i || follows_joint(robot, j, of.i) {
        let _columns = robot.full();
        let f = robot.first_full(j) as usize + of.k;
        with_entry(robot, ways, of, j, f, sum)
    } else {
        Ok(sum)
    }
}

// The sum over the joint columns that are a column or follow it.
#[tactic(auto, using(rb_sweep::proofs::SweepSteps::sweeps))]
fn summed(robot: &Robot, ways: &Ways, of: Column) -> Result<Iv, NumFault>
    requires column { of.k < 6 }
    requires led { of.led ≡ is_led_of robot.now.bodies of.i }
    ensures exact { result ≡ sweep (add_joint robot.now.bodies ways.now of.i of.k) (upward 1 (length robot.now.bodies + 1)) zero_interval }
    ensures size { IfErr result (λ e. e ≡ NumFault.Size) }
{
    let mut sum = Iv::ZERO;
    let end = robot.bodies() + 1;
    for j in 1..end {
        sum = with_joint(robot, ways, of, j, sum)?;
    }
    Ok(sum)
}

// The entry of a row at column c, or zero at 0.
#[tactic(auto, unfolding(crate::specs::Rows::column_by))]
fn column_at(robot: &Robot, ways: &Ways, c: u32) -> Result<Iv, NumFault>
    requires there { c ≤ column_count robot.now.bodies }
    ensures exact { result ≡ column_by robot.now.bodies ways.now c }
    ensures size { IfErr result (λ e. e ≡ NumFault.Size) }
{
    if c == 0 {
        return Ok(Iv::ZERO);
    }
    let i = robot.column_body(c);
    let k = (c - robot.first_column(i)) as usize;
    let led = is_led(robot, i);
    summed(robot, ways, Column { i, k, led })
}

// Puts the entry of row r at column c.
#[tactic(auto, unfolding(crate::specs::Steps::entry_step))]
fn put_column(robot: &Robot, ways: &Ways, r: u32, c: u32, work: &mut Work) -> Result<(), RowFault>
    requires there { c ≤ column_count robot.now.bodies }
    requires row { r ≤ work.old.rows }
    requires columns { length work.old.up ≡ column_count robot.now.bodies }
    ensures step { Answers result (entry_step robot.now ways.now r c work.old) work.new }
    ensures others { work.new ≡ record work.old { J = work.new.J } }
{
    let entry = named(column_at(robot, ways, c), Name::one(NameKind::J, r))?;
    work.set_J(r, c, entry);
    Ok(())
}

// Puts those at all columns.
#[tactic(auto, using(rb_sweep::proofs::SweepSteps::sweeps))]
fn put_columns(robot: &Robot, ways: &Ways, r: u32, work: &mut Work) -> Result<(), RowFault>
    requires row { r ≤ work.old.rows }
    requires columns { length work.old.up ≡ column_count robot.now.bodies }
    ensures step { Answers result (put_of robot.now ways.now r work.old) work.new }
    ensures others { work.new ≡ record work.old { J = work.new.J } }
{
    let end = robot.nv() + 1;
    for c in 0..end {
        put_column(robot, ways, r, c, work)?;
    }
    Ok(())
}

// ---- rows

// The entries of row r, whose forces the work holds.
#[tactic(auto, unfolding(crate::specs::Steps::entries_step))]
fn row_entries(robot: &Robot, cons: &Constraints, r: u32, work: &mut Work) -> Result<(), RowFault>
    requires there { HasRow (constraints_of cons.now) r }
    requires row { r ≤ work.old.rows }
    requires bodies { work.old.bodies ≡ length robot.now.bodies }
    requires columns { length work.old.up ≡ column_count robot.now.bodies }
    requires fit { RowsFit (shape_of robot.now) (constraints_of cons.now) }
    ensures step { Answers result (entries_step robot.now (constraints_of cons.now) r work.old) work.new }
    ensures others { work.new ≡ record work.old { J = work.new.J } }
{
    match ways_at(robot, cons, r, work) {
        Ok(ways) => put_columns(robot, &ways, r, work),
        Err(_) => Err(RowFault::Size {
            name: Name::one(NameKind::J, r),
        }),
    }
}

// The names of row r.
#[tactic(auto, unfolding(crate::specs::Rows::K_rule, crate::specs::Steps::row_step))]
fn put_row(robot: &Robot, cons: &Constraints, r: u32, work: &mut Work) -> Result<(), RowFault>
    requires there { HasRow (constraints_of cons.now) r }
    requires row { r ≤ work.old.rows }
    requires bodies { work.old.bodies ≡ length robot.now.bodies }
    requires columns { length work.old.up ≡ column_count robot.now.bodies }
    requires fit { RowsFit (shape_of robot.now) (constraints_of cons.now) }
    ensures step { Answers result (row_step robot.now (constraints_of cons.now) r work.old) work.new }
    ensures others { work.new ≡ record work.old { K = work.new.K; J = work.new.J } }
{
    let forces = named(forces_at(cons, r, work), Name::one(NameKind::K, r))?;
    work.set_K(r, forces);
    row_entries(robot, cons, r, work)
}

// The sweep over the rows.
#[tactic(auto, using(rb_sweep::proofs::SweepSteps::sweeps))]
fn sweep_rows(robot: &Robot, cons: &Constraints, work: &mut Work) -> Result<(), RowFault>
    requires rows { (constraints_of cons.now).rows ≤ work.old.rows }
    requires bodies { work.old.bodies ≡ length robot.now.bodies }
    requires columns { length work.old.up ≡ column_count robot.now.bodies }
    requires fit { RowsFit (shape_of robot.now) (constraints_of cons.now) }
    ensures exact { Answers result (lines_of robot.now (constraints_of cons.now) work.old) work.new }
    ensures others { work.new ≡ record work.old { K = work.new.K; J = work.new.J } }
{
    let end = cons.rows() + 1;
    for r in 1..end {
        put_row(robot, cons, r, work)?;
    }
    Ok(())
}

// One after the other.
fn fills(robot: &Robot, cons: &Constraints, work: &mut Work) -> Result<(), RowFault>
    requires room { IsFor robot.now work.old }
    requires rows { (constraints_of cons.now).rows ≤ work.old.rows }
    requires fit { RowsFit (shape_of robot.now) (constraints_of cons.now) }
    ensures exact { Answers result (fills_of robot.now (constraints_of cons.now) work.old) work.new }
    ensures others { work.new ≡ record work.old { O = work.new.O; K = work.new.K; J = work.new.J } }
{
    sweep_turns(robot, work)?;
    sweep_rows(robot, cons, work)
}

/// The turns of the bodies, the forces of one that each row of constraints puts on its two bodies, and the table of rows: the values `O K J` of a work
/// that holds the places of the bodies.
///
/// A refusal is that of the first name that is refused, in this order: `O` body by body, then of each row `K` and `J`. Each bears `Size`
/// (Featherstone, Rigid Body Dynamics Algorithms, chapter 8).
pub fn fill_rows(robot: &Robot, cons: &Constraints, work: &mut Work) -> Result<(), RowFault>
    requires room { IsFor robot.now work.old }
    requires rows { (constraints_of cons.now).rows ≤ work.old.rows }
    requires fit { RowsFit (shape_of robot.now) (constraints_of cons.now) }

    // each value that the work holds is what its rule gives from the values that the work holds
    ensures values { OnOk result (AreRows robot.now (constraints_of cons.now) work.new) }

    // there are values with the places of the work, in which each name before one is what its rule gives, and the rule of that one refuses so
    ensures refused { IfErr result (IsRowRefused robot.now (constraints_of cons.now) work.old) }

    // the turns, the row vectors and the table of rows of each choice with these places lie in the values
    ensures encloses { OnOk result (EnclosesRows robot.now (constraints_of cons.now) work.new) }

    // all else is as it was
    ensures others { work.new ≡ record work.old { O = work.new.O; K = work.new.K; J = work.new.J } }
{
    let _tree = robot.bodies();
    let _sizes = work.bodies();
    fills(robot, cons, work)
}
