//! Articulated inertias and biases, from the leaves to the root.

ghost use Rattle.std.specs.Prelude.{◌≡◌, ◌+◌, ◌<◌, ◌≤◌, length, false, IfErr};
ghost use Rattle.rb_num.specs.Arith.{intervals};
ghost use Rattle.rb_spatial.specs.Inertias.{table};
ghost use Rattle.rb_sweep.specs.Sweep.{Answers, sweep, downward};
ghost use Rattle.rb_flat.specs.Joint.{column_count as column_count_of};
ghost use Rattle.rb_joint.specs.Any.{kind_of, any_column};
ghost use Rattle.rb_work.specs.View.{columns_of as columns_in};
ghost use Rattle.rb_tree.specs.Columns.{column_count, has_mimic};
ghost use Rattle.rb_tree.specs.Numbers.{inertia_at as own_inertia_at};
ghost use Rattle.rb_tree.specs.Robot.{HasBody};
ghost use Rattle.rb_tree.specs.State.{Fits};
ghost use Rattle.rb_rnea.specs.Rates.{joint_columns};
ghost use Rattle.rb_aba.specs.Articulated.{HasJointColumn, column_of, join_inertia, join_bias, add_inertia, add_bias, own_bias as own_bias_of, bias_by, handed_with};
ghost use Rattle.rb_aba.specs.Steps.{giving, giving_in, column_by, columns_of, first_step, handed_by, up_step, ups_of};

use crate::rules::{give_way, less_along, power_along};
use rb_joint::AnyJoint;
use rb_num::{Iv, NumFault};
use rb_rnea::moved_along;
use rb_spatial::{
    Force, Inertia6, Motion, apply_dual, carry, cross_dual, sum, sum_forces, table, times,
    times_body,
};
use rb_tree::{Robot, State};
use rb_work::{Capitals, Name, NameKind, RowFault, Work, named, pivot};

// ---- children

// What body j is once its columns have given way, seen from its parent, is added.
#[tactic(auto, unfolding(crate::specs::Articulated::join_inertia))]
fn joined_inertia(j: u32, total: &Inertia6, work: &Work) -> Result<Inertia6, NumFault>
    requires room { j ≤ work.now.bodies }
    ensures exact { result ≡ join_inertia work.now j total.now }
    ensures size { IfErr result (λ e. e ≡ NumFault.Size) }
{
    let carried = carry(work.X(j), work.Ia(j))?;
    sum(total, &carried)
}

#[tactic(auto, unfolding(crate::specs::Articulated::join_bias))]
fn joined_bias(j: u32, total: &Force, work: &Work) -> Result<Force, NumFault>
    requires room { j ≤ work.now.bodies }
    ensures exact { result ≡ join_bias work.now j total.now }
    ensures size { IfErr result (λ e. e ≡ NumFault.Size) }
{
    let carried = apply_dual(work.X(j), work.pa(j))?;
    sum_forces(total, &carried)
}

// The inertia of a body, with its children's.
#[tactic(auto, using(rb_sweep::proofs::SweepSteps::sweeps_down, crate::proofs::Named::children))]
fn inertia_at(robot: &Robot, i: u32, work: &Work) -> Result<Inertia6, NumFault>
    requires room { work.now.bodies ≡ length robot.now.bodies }
    requires there { HasBody robot.now i }
    ensures exact { result ≡ sweep (add_inertia robot.now.bodies work.now i) (downward (i + 1) (length robot.now.bodies + 1)) (table intervals (own_inertia_at robot.now.bodies i)) }
    ensures size { IfErr result (λ e. e ≡ NumFault.Size) }
{
    let end = robot.bodies() + 1;
    let mut total = table(robot.inertia(i));
    for j in (i + 1..end).rev() {
        if robot.parent(j) == i {
            total = joined_inertia(j, &total, work)?;
        }
    }
    Ok(total)
}

// The bias of a body without its children's.
#[tactic(auto, unfolding(crate::specs::Articulated::own_bias))]
fn own_bias(robot: &Robot, i: u32, work: &Work) -> Result<Force, NumFault>
    requires room { work.now.bodies ≡ length robot.now.bodies }
    requires there { HasBody robot.now i }
    ensures exact { result ≡ own_bias_of robot.now.bodies i work.now }
    ensures size { IfErr result (λ e. e ≡ NumFault.Size) }
{
    let v = work.v(i);
    let momentum = times_body(robot.inertia(i), v)?;
    cross_dual(v, &momentum)
}

// The bias of a body, with its children's.
#[tactic(auto, unfolding(crate::specs::Articulated::add_bias), using(rb_sweep::proofs::SweepSteps::sweeps_down))]
fn bias_from(robot: &Robot, i: u32, own: Force, work: &Work) -> Result<Force, NumFault>
    requires room { work.now.bodies ≡ length robot.now.bodies }
    requires there { HasBody robot.now i }
    ensures exact { result ≡ sweep (add_bias robot.now.bodies work.now i) (downward (i + 1) (length robot.now.bodies + 1)) own }
    ensures size { IfErr result (λ e. e ≡ NumFault.Size) }
{
    let end = robot.bodies() + 1;
    let mut total = own;
    for j in (i + 1..end).rev() {
        if robot.parent(j) == i {
            total = joined_bias(j, &total, work)?;
        }
    }
    Ok(total)
}

// ---- columns

/// The number of column k of the joint of body i among the columns of the robot.
pub(crate) fn column_number(robot: &Robot, i: u32, k: usize) -> u32
    requires lead { has_mimic robot.now.bodies ≡ false }
    requires column { HasJointColumn robot.now i k }
    ensures exact { result ≡ column_of robot.now.bodies i k }
    ensures from { 1 ≤ result }
    ensures to { result ≤ column_count robot.now.bodies }
{
    let _columns = robot.nv();
    robot.first_column(i) + k as u32
}

// A column gives way: what its values are, and what is left of the inertia and the bias.
#[tactic(auto, unfolding(crate::specs::Steps::column_by))]
fn column_gives(
    joint: &AnyJoint,
    k: usize,
    c: u32,
    axis: &Motion,
    torque: Iv,
    rest: &mut (Inertia6, Force),
    work: &mut Work,
) -> Result<(), RowFault>
    requires column { k < column_count_of (kind_of joint.now) }
    requires axis { axis.now ≡ any_column joint.now k }
    requires from { 1 ≤ c }
    requires to { c ≤ columns_in work.old }
    ensures step { Answers result (column_by c axis.now torque (giving work.old rest.old)) (giving work.new rest.new) }
    ensures others { work.new ≡ record work.old { U = work.new.U; packed = work.new.packed; u = work.new.u } }
{
    let force = named(times(&rest.0, axis), Name::one(NameKind::U, c))?;
    let along = named(
        power_along(joint, k, axis, &force),
        Name::one(NameKind::D, c),
    )?;
    let divisor = pivot(along, Name::one(NameKind::D, c))?;
    let left = named(
        less_along(torque, joint, k, axis, &rest.1),
        Name::one(NameKind::u, c),
    )?;
    named(
        give_way(&force, divisor, left, rest),
        Name::one(NameKind::u, c),
    )?;
    work.set_U(c, force);
    work.set_D(c, divisor);
    work.set_u(c, left);
    Ok(())
}

// The columns of a body give way, from the last on.
#[tactic(auto, using(rb_sweep::proofs::SweepSteps::sweeps_down))]
fn columns_give(
    robot: &Robot,
    state: &State,
    i: u32,
    rest: &mut (Inertia6, Force),
    work: &mut Work,
) -> Result<(), RowFault>
    requires lead { has_mimic robot.now.bodies ≡ false }
    requires fits { Fits robot.now state.now }
    requires room { work.old.bodies ≡ length robot.now.bodies }
    requires columns { columns_in work.old ≡ column_count robot.now.bodies }
    requires there { HasBody robot.now i }
    ensures step { Answers result (columns_of robot.now state.now i (giving work.old rest.old)) (giving work.new rest.new) }
    ensures others { work.new ≡ record work.old { U = work.new.U; packed = work.new.packed; u = work.new.u } }
{
    let joint = robot.joint(i);
    let count = joint.nv();
    for k in (0..count).rev() {
        let c = column_number(robot, i, k);
        let axis = joint.column(k);
        let torque = state.tau(c as usize - 1);
        column_gives(joint, k, c, &axis, torque, rest, work)?;
    }
    Ok(())
}

// ---- bodies

// The bias of a body, with its children's.
#[tactic(auto, unfolding(crate::specs::Articulated::bias_by))]
fn bias_at(robot: &Robot, i: u32, work: &Work) -> Result<Force, NumFault>
    requires room { work.now.bodies ≡ length robot.now.bodies }
    requires there { HasBody robot.now i }
    ensures exact { result ≡ bias_by robot.now.bodies i work.now }
    ensures size { IfErr result (λ e. e ≡ NumFault.Size) }
{
    let own = own_bias(robot, i, work)?;
    bias_from(robot, i, own, work)
}

// A body with all that it bears, before its own columns give way.
#[tactic(auto, unfolding(rb_rnea::specs::Accelerations::c_rule, crate::specs::Articulated::IA_rule, crate::specs::Articulated::p_rule, crate::specs::Steps::first_step))]
fn first_values(robot: &Robot, i: u32, work: &mut Work) -> Result<(Inertia6, Force), RowFault>
    requires room { work.old.bodies ≡ length robot.now.bodies }
    requires there { HasBody robot.now i }
    ensures step { first_step robot.now i work.old ≡ giving_in work.new result }
    ensures others { work.new ≡ record work.old { c = work.new.c } }
{
    let c = named(moved_along(robot, i, work), Name::one(NameKind::c, i))?;
    work.set_c(i, c);
    let inertia = named(inertia_at(robot, i, work), Name::one(NameKind::IA, i))?;
    let bias = named(bias_at(robot, i, work), Name::one(NameKind::p, i))?;
    Ok((inertia, bias))
}

// What the parent gets.
#[tactic(auto, unfolding(crate::specs::Articulated::handed_with))]
fn handed(rest: &(Inertia6, Force), c: &Motion) -> Result<Force, NumFault>
    ensures exact { result ≡ handed_with rest.now c.now }
    ensures size { IfErr result (λ e. e ≡ NumFault.Size) }
{
    let turned = times(&rest.0, c)?;
    sum_forces(&rest.1, &turned)
}

// What is left of a body once all its columns have given way.
#[tactic(auto, unfolding(crate::specs::Steps::handed_by))]
fn hand_over(i: u32, rest: &(Inertia6, Force), work: &mut Work) -> Result<(), RowFault>
    requires room { i ≤ work.old.bodies }
    ensures step { Answers result (handed_by i (giving work.old rest.now)) work.new }
    ensures others { work.new ≡ record work.old { IA = work.new.IA; p = work.new.p; Ia = work.new.Ia; pa = work.new.pa } }
{
    let pa = named(handed(rest, work.c(i)), Name::one(NameKind::pa, i))?;
    work.set_IA(i, rest.0);
    work.set_p(i, rest.1);
    work.set_Ia(i, rest.0);
    work.set_pa(i, pa);
    Ok(())
}

// The names of one body.
#[tactic(auto, unfolding(crate::specs::Steps::up_step))]
fn body_up(robot: &Robot, state: &State, i: u32, work: &mut Work) -> Result<(), RowFault>
    requires lead { has_mimic robot.now.bodies ≡ false }
    requires fits { Fits robot.now state.now }
    requires room { work.old.bodies ≡ length robot.now.bodies }
    requires columns { columns_in work.old ≡ column_count robot.now.bodies }
    requires there { HasBody robot.now i }
    ensures step { Answers result (up_step robot.now state.now i work.old) work.new }
    ensures others { work.new ≡ record work.old { c = work.new.c; IA = work.new.IA; p = work.new.p; U = work.new.U; packed = work.new.packed; u = work.new.u; Ia = work.new.Ia; pa = work.new.pa } }
{
    let mut rest = first_values(robot, i, work)?;
    columns_give(robot, state, i, &mut rest, work)?;
    hand_over(i, &rest, work)
}

// The sweep over the bodies.
#[tactic(auto, using(rb_sweep::proofs::SweepSteps::sweeps_down))]
pub(crate) fn sweep_up(robot: &Robot, state: &State, work: &mut Work) -> Result<(), RowFault>
    requires lead { has_mimic robot.now.bodies ≡ false }
    requires fits { Fits robot.now state.now }
    requires room { work.old.bodies ≡ length robot.now.bodies }
    requires columns { columns_in work.old ≡ column_count robot.now.bodies }
    ensures exact { Answers result (ups_of robot.now state.now work.old) work.new }
    ensures others { work.new ≡ record work.old { c = work.new.c; IA = work.new.IA; p = work.new.p; U = work.new.U; packed = work.new.packed; u = work.new.u; Ia = work.new.Ia; pa = work.new.pa } }
{
    let end = robot.bodies() + 1;
    for i in (1..end).rev() {
        body_up(robot, state, i, work)?;
    }
    Ok(())
}
