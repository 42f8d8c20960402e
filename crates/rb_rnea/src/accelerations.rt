//! The accelerations of the bodies and the forces that they need, from the root on.

ghost use Rattle.std.specs.Prelude.{◌≡◌, ◌↔◌, ◌+◌, length, IsTrue, IfErr};
ghost use Rattle.rb_sweep.specs.Sweep.{Answers};
ghost use Rattle.rb_num.specs.Interval.{zero_interval};
ghost use Rattle.rb_work.specs.Zeros.{zero_vector, zero_force};
ghost use Rattle.rb_tree.specs.Columns.{column_count};
ghost use Rattle.rb_tree.specs.Robot.{HasBody};
ghost use Rattle.rb_rnea.specs.Accelerations.{world_acceleration, turning_by, acceleration_by, massless, need_by};
ghost use Rattle.rb_rnea.specs.Steps.{acceleration_step, accelerations_of};

use crate::rates::motion_by;
use rb_num::{Iv, NumFault};
use rb_spatial::{
    BodyInertia, Force, Motion, Vec3, apply, cross_dual, sum_forces, sum_motions, times_body,
};
use rb_tree::{Robot, State};
use rb_work::{Capitals, Name, NameKind, RowFault, Work, named};

/// How the world accelerates in a row: against gravity, so that a body at rest needs what bears its weight.
pub fn against_gravity(state: &State) -> Motion
    ensures { result ≡ world_acceleration state.now }
{
    let g = state.gravity();
    Motion {
        lin: Vec3::new(g.x().neg(), g.y().neg(), g.z().neg()),
        ang: Vec3::new(Iv::ZERO, Iv::ZERO, Iv::ZERO),
    }
}

/// How the motion over the joint of a body changes as it moves along with the body, from the values `s` and `v` of a work: the value of `c[i]`. It is
/// refused with `Size`.
#[tactic(auto, unfolding(crate::specs::Accelerations::turning_by, crate::specs::Rates::motion_of))]
pub fn moved_along(robot: &Robot, i: u32, work: &Work) -> Result<Motion, NumFault>
    requires room { work.now.bodies ≡ length robot.now.bodies }
    requires there { HasBody robot.now i }
    ensures exact { result ≡ turning_by robot.now.bodies i work.now }
    ensures size { IfErr result (λ e. e ≡ NumFault.Size) }
{
    let joint = robot.joint(i);
    joint.turning(work.v(i), &work.s(i)[..joint.nv()])
}

// The acceleration of a body, from its parent's.
#[tactic(auto, unfolding(crate::specs::Accelerations::acceleration_by))]
fn acceleration_at(
    robot: &Robot,
    accelerations: &[Iv],
    i: u32,
    work: &Work,
) -> Result<Motion, NumFault>
    requires long { length accelerations.now ≡ column_count robot.now.bodies }
    requires room { work.now.bodies ≡ length robot.now.bodies }
    requires there { HasBody robot.now i }
    ensures exact { result ≡ acceleration_by robot.now.bodies accelerations.now i work.now }
    ensures size { IfErr result (λ e. e ≡ NumFault.Size) }
{
    let own = motion_by(robot, accelerations, i)?;
    let carried = apply(work.X(i), work.a(robot.parent(i)))?;
    let both = sum_motions(&carried, &own)?;
    sum_motions(&both, work.c(i))
}

fn is_zero(v: Iv) -> bool
    ensures { IsTrue result ↔ (v ≡ zero_interval) }
{
    v.lo() == 0 && v.hi() == 0
}

fn is_nothing(v: &Vec3) -> bool
    ensures { IsTrue result ↔ (v.now ≡ zero_vector) }
{
    is_zero(v.x()) && is_zero(v.y()) && is_zero(v.z())
}

// Whether a body has neither mass nor inertia.
fn is_massless(inertia: &BodyInertia) -> bool
    ensures { IsTrue result ↔ (inertia.now ≡ massless) }
{
    let six = inertia.rotational();
    is_zero(inertia.mass)
        && is_nothing(&inertia.first)
        && is_nothing(&Vec3::new(six.xx, six.xy, six.xz))
        && is_nothing(&Vec3::new(six.yy, six.yz, six.zz))
}

// No force.
#[tactic(auto, unfolding(rb_work::specs::Zeros::zero_force))]
fn no_force() -> Force
    ensures { result ≡ zero_force }
{
    let nothing = Vec3::new(Iv::ZERO, Iv::ZERO, Iv::ZERO);
    Force {
        lin: nothing,
        ang: nothing,
    }
}

// What moves a body.
#[tactic(auto, using(crate::proofs::Massless::needs_none), unfolding(crate::specs::Accelerations::need_by))]
fn need_at(robot: &Robot, i: u32, work: &Work) -> Result<Force, NumFault>
    requires room { work.now.bodies ≡ length robot.now.bodies }
    requires there { HasBody robot.now i }
    ensures exact { result ≡ need_by robot.now.bodies i work.now }
    ensures size { IfErr result (λ e. e ≡ NumFault.Size) }
{
    let inertia = robot.inertia(i);
    if is_massless(inertia) {
        return Ok(no_force());
    }
    let v = work.v(i);
    let force = times_body(inertia, work.a(i))?;
    let momentum = times_body(inertia, v)?;
    let turned = cross_dual(v, &momentum)?;
    sum_forces(&force, &turned)
}

// The names of one body.
#[tactic(auto, unfolding(crate::specs::Accelerations::c_rule, crate::specs::Accelerations::a_rule, crate::specs::Accelerations::b_rule, crate::specs::Steps::acceleration_step))]
fn body_accelerations(
    robot: &Robot,
    state: &State,
    accelerations: &[Iv],
    i: u32,
    work: &mut Work,
) -> Result<(), RowFault>
    requires long { length accelerations.now ≡ column_count robot.now.bodies }
    requires room { work.old.bodies ≡ length robot.now.bodies }
    requires there { HasBody robot.now i }
    ensures step { Answers result (acceleration_step robot.now (record state.now { a = accelerations.now }) i work.old) work.new }
    ensures others { work.new ≡ record work.old { c = work.new.c; a = work.new.a; b = work.new.b } }
{
    let c = named(moved_along(robot, i, work), Name::one(NameKind::c, i))?;
    work.set_c(i, c);
    let a = named(
        acceleration_at(robot, accelerations, i, work),
        Name::one(NameKind::a, i),
    )?;
    work.set_a(i, a);
    let b = named(need_at(robot, i, work), Name::one(NameKind::b, i))?;
    work.set_b(i, b);
    Ok(())
}

// The sweep over the bodies.
#[tactic(auto, using(rb_sweep::proofs::SweepSteps::sweeps))]
pub(crate) fn sweep_accelerations(
    robot: &Robot,
    state: &State,
    accelerations: &[Iv],
    work: &mut Work,
) -> Result<(), RowFault>
    requires long { length accelerations.now ≡ column_count robot.now.bodies }
    requires room { work.old.bodies ≡ length robot.now.bodies }
    ensures exact { Answers result (accelerations_of robot.now (record state.now { a = accelerations.now }) work.old) work.new }
    ensures others { work.new ≡ record work.old { c = work.new.c; a = work.new.a; b = work.new.b } }
{
    work.set_a(0, against_gravity(state));
    let end = robot.bodies() + 1;
    for i in 1..end {
        body_accelerations(robot, state, accelerations, i, work)?;
    }
    Ok(())
}
