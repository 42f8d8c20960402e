//! What rows of constraints accelerate by, without accelerations of the joints.

ghost use Rattle.std.specs.Prelude.{◌≡◌, ◌≤◌, ◌<◌, ◌+◌, OnOk, IfErr, length};
ghost use Rattle.rb_sweep.specs.Sweep.{Answers};
ghost use Rattle.rb_frac.specs.Tables.{row as row_in};
ghost use Rattle.rb_flat.specs.Contact.{HasRow, RowsFit};
ghost use Rattle.rb_work.specs.View.{O_at, v_at, a_at};
ghost use Rattle.rb_tree.specs.Shape.{shape_of};
ghost use Rattle.rb_tree.specs.Places.{IsFor};
ghost use Rattle.rb_constraint.specs.Constraints.{constraints_of, flat_row};
ghost use Rattle.rb_constraint.specs.Bias.{along as along_of, bias_by, difference_by, AreBias, IsBiasRefused};
ghost use Rattle.rb_constraint.specs.Encloses.{EnclosesBias};
ghost use Rattle.rb_constraint.specs.Steps.{bias_step, bias_of};

use crate::constraints::{Constraints, Row};
use rb_num::{Iv, NumFault, dot};
use rb_spatial::{Force, Motion, Vec3, cross3, plus_cross, power};
use rb_tree::Robot;
use rb_work::{Capitals, Name, NameKind, RowFault, Work, named};

// How a point of a body accelerates along a direction, by the force of one along it at the point.
#[tactic(auto, unfolding(crate::specs::Bias::along))]
fn along(
    direction: &Vec3,
    force: &Force,
    point: &Vec3,
    v: &Motion,
    a: &Motion,
) -> Result<Iv, NumFault>
    ensures exact { result ≡ along_of direction.now force.now point.now v.now a.now }
    ensures size { IfErr result (λ e. e ≡ NumFault.Size) }
{
    let speed = plus_cross(&v.lin, &v.ang, point)?;
    let own = cross3(&v.ang, &speed)?;
    let (f, n) = (&force.lin, &force.ang);
    dot(&[
        (f.x(), a.lin.x()),
        (f.y(), a.lin.y()),
        (f.z(), a.lin.z()),
        (n.x(), a.ang.x()),
        (n.y(), a.ang.y()),
        (n.z(), a.ang.z()),
        (direction.x(), own.x()),
        (direction.y(), own.y()),
        (direction.z(), own.z()),
    ])
}

// Of a row at one of its bodies.
#[tactic(auto, unfolding(crate::specs::Bias::bias_by))]
fn bias_at(row: &Row, i: u32, point: &Vec3, force: &Force, work: &Work) -> Result<Iv, NumFault>
    requires room { i ≤ work.now.bodies }
    requires axis { row.now.axis < 3 }
    ensures exact { result ≡ bias_by (flat_row row.now) work.now i point.now force.now }
    ensures size { IfErr result (λ e. e ≡ NumFault.Size) }
{
    if row.turns {
        return power(work.a(i), force);
    }
    let direction = work.O(i).row(row.axis);
    along(&direction, force, point, work.v(i), work.a(i))
}

// Between its bodies.
#[tactic(auto, unfolding(crate::specs::Bias::difference_by))]
fn difference_at(cons: &Constraints, r: u32, work: &Work) -> Result<Iv, NumFault>
    requires there { HasRow (constraints_of cons.now) r }
    requires row { r ≤ work.now.rows }
    requires first_body { ((constraints_of cons.now).row r).first ≤ work.now.bodies }
    requires second_body { ((constraints_of cons.now).row r).second ≤ work.now.bodies }
    ensures exact { result ≡ difference_by (constraints_of cons.now) r work.now }
    ensures size { IfErr result (λ e. e ≡ NumFault.Size) }
{
    let row = cons.row(r);
    let [on_first, on_second] = work.K(r);
    let first = bias_at(row, row.first, &row.first_point, on_first, work)?;
    let second = bias_at(row, row.second, &row.second_point, on_second, work)?;
    first.sub(second)
}

// The name of row r.
#[tactic(auto, unfolding(crate::specs::Bias::g_rule, crate::specs::Steps::bias_step))]
fn put_bias(cons: &Constraints, r: u32, work: &mut Work) -> Result<(), RowFault>
    requires there { HasRow (constraints_of cons.now) r }
    requires row { r ≤ work.old.rows }
    requires first_body { ((constraints_of cons.now).row r).first ≤ work.old.bodies }
    requires second_body { ((constraints_of cons.now).row r).second ≤ work.old.bodies }
    ensures step { Answers result (bias_step (constraints_of cons.now) r work.old) work.new }
    ensures others { work.new ≡ record work.old { g = work.new.g } }
{
    let bias = named(difference_at(cons, r, work), Name::one(NameKind::g, r))?;
    work.set_g(r, bias);
    Ok(())
}

// The sweep over the rows.
#[tactic(auto, using(rb_sweep::proofs::SweepSteps::sweeps))]
fn sweep_bias(robot: &Robot, cons: &Constraints, work: &mut Work) -> Result<(), RowFault>
    requires bodies { work.old.bodies ≡ length robot.now.bodies }
    requires rows { (constraints_of cons.now).rows ≤ work.old.rows }
    requires fit { RowsFit (shape_of robot.now) (constraints_of cons.now) }
    ensures exact { Answers result (bias_of (constraints_of cons.now) work.old) work.new }
    ensures others { work.new ≡ record work.old { g = work.new.g } }
{
    let end = cons.rows() + 1;
    for r in 1..end {
        put_bias(cons, r, work)?;
    }
    Ok(())
}

/// How each row of constraints accelerates at the motions of the bodies: the values `g` of a work that holds their velocities `v` and accelerations `a`,
/// and the turns and forces `O K` of the rows. Where `a` are the accelerations without those of the joints, this is the bias of the rows.
///
/// A refusal is that of the first row that is refused, and bears `Size` (Featherstone, Rigid Body Dynamics Algorithms, chapter 8).
pub fn fill_bias(robot: &Robot, cons: &Constraints, work: &mut Work) -> Result<(), RowFault>
    requires room { IsFor robot.now work.old }
    requires rows { (constraints_of cons.now).rows ≤ work.old.rows }
    requires fit { RowsFit (shape_of robot.now) (constraints_of cons.now) }

    // each value that the work holds is what its rule gives from the values that the work holds
    ensures values { OnOk result (AreBias (constraints_of cons.now) work.new) }

    // there are values with what the work held, in which each name before one is what its rule gives, and the rule of that one refuses so
    ensures refused { IfErr result (IsBiasRefused robot.now (constraints_of cons.now) work.old) }

    // the bias of each row lies in the values, for all motions, turns and row vectors that the work encloses
    ensures encloses { OnOk result (EnclosesBias robot.now (constraints_of cons.now) work.new) }

    // all else is as it was
    ensures others { work.new ≡ record work.old { g = work.new.g } }
{
    let _tree = robot.bodies();
    let _sizes = work.bodies();
    sweep_bias(robot, cons, work)
}
