//! The rules of the algorithm that are not among those of motions, forces and inertias.

ghost use Rattle.std.specs.Prelude.{◌≡◌, ◌↔◌, ◌<◌, [], ◌∷◌, IsTrue, IfErr};
ghost use Rattle.rb_num.specs.Interval.{zero_interval, one_interval};
ghost use Rattle.rb_num.specs.Dot.{iv_dot};
ghost use Rattle.rb_num.specs.Arith.{intervals, interval_field};
ghost use Rattle.rb_flat.specs.Joint.{column_count};
ghost use Rattle.rb_joint.specs.Any.{kind_of, any_column};
ghost use Rattle.rb_spatial.specs.Motions.{power as power_of};
ghost use Rattle.rb_sweep.specs.Sweep.{Answers};
ghost use Rattle.rb_articulated.specs.Rules.{vector_and as vector_and_of, and_multiple, less_power as less_power_of, vector_over as vector_over_of, over as over_of};
ghost use Rattle.rb_aba.specs.Articulated.{give_way as give_way_of};

use rb_joint::AnyJoint;
use rb_num::{Iv, NumFault};
use rb_spatial::{Force, Inertia6, Motion, Vec3, less_outer, power};

// Whether it is zero alone.
#[inline(always)]
fn is_zero(v: Iv) -> bool
    ensures { IsTrue result ↔ (v ≡ zero_interval) }
{
    v.lo() == 0 && v.hi() == 0
}

// a + b k: nothing is added where b is zero, as most parts of an axis are.
#[inline(always)]
fn plus_part(a: Iv, b: Iv, k: Iv) -> Result<Iv, NumFault>
    ensures exact { result ≡ iv_dot ((a, one_interval) ∷ (b, k) ∷ []) }
    ensures size { IfErr result (λ e. e ≡ NumFault.Size) }
{
    if is_zero(b) && a.narrow().is_some() {
        Ok(a)
    } else {
        a.plus_product(b, k)
    }
}

// a + k b
#[tactic(auto, unfolding(rb_articulated::specs::Rules::vector_and))]
fn vector_and(a: &Vec3, k: Iv, b: &Vec3) -> Result<Vec3, NumFault>
    ensures exact { result ≡ vector_and_of intervals a.now k b.now }
    ensures size { IfErr result (λ e. e ≡ NumFault.Size) }
{
    let x = plus_part(a.x(), b.x(), k)?;
    let y = plus_part(a.y(), b.y(), k)?;
    let z = plus_part(a.z(), b.z(), k)?;
    Ok(Vec3::new(x, y, z))
}

// A motion and a multiple of another.
#[tactic(auto, unfolding(rb_articulated::specs::Rules::and_multiple))]
pub(crate) fn motion_and(a: &Motion, k: Iv, b: &Motion) -> Result<Motion, NumFault>
    ensures exact { result ≡ and_multiple intervals a.now k b.now }
    ensures size { IfErr result (λ e. e ≡ NumFault.Size) }
{
    let lin = vector_and(&a.lin, k, &b.lin)?;
    let ang = vector_and(&a.ang, k, &b.ang)?;
    Ok(Motion { lin, ang })
}

// A force and a multiple of another.
#[tactic(auto, unfolding(rb_articulated::specs::Rules::and_multiple))]
fn force_and(a: &Force, k: Iv, b: &Force) -> Result<Force, NumFault>
    ensures exact { result ≡ and_multiple intervals a.now k b.now }
    ensures size { IfErr result (λ e. e ≡ NumFault.Size) }
{
    let lin = vector_and(&a.lin, k, &b.lin)?;
    let ang = vector_and(&a.ang, k, &b.ang)?;
    Ok(Force { lin, ang })
}

// The power of a force at a column of a joint, without the products of its zeros.
#[inline(always)]
pub(crate) fn power_along(
    joint: &AnyJoint,
    k: usize,
    axis: &Motion,
    f: &Force,
) -> Result<Iv, NumFault>
    requires column { k < column_count (kind_of joint.now) }
    requires axis { axis.now ≡ any_column joint.now k }
    ensures exact { result ≡ power_of intervals axis.now f.now }
    ensures size { IfErr result (λ e. e ≡ NumFault.Size) }
{
    let _ = axis;
    joint.power(k, f)
}

// A number less the power of a force at a column of a joint.
#[tactic(auto, unfolding(rb_articulated::specs::Rules::less_power))]
pub(crate) fn less_along(
    x: Iv,
    joint: &AnyJoint,
    k: usize,
    axis: &Motion,
    f: &Force,
) -> Result<Iv, NumFault>
    requires column { k < column_count (kind_of joint.now) }
    requires axis { axis.now ≡ any_column joint.now k }
    ensures exact { result ≡ less_power_of intervals x axis.now f.now }
    ensures size { IfErr result (λ e. e ≡ NumFault.Size) }
{
    let y = power_along(joint, k, axis, f)?;
    x.sub(y)
}

// A number less the power of a force at a motion.
#[tactic(auto, unfolding(rb_articulated::specs::Rules::less_power))]
pub(crate) fn less_power(x: Iv, m: &Motion, f: &Force) -> Result<Iv, NumFault>
    ensures exact { result ≡ less_power_of intervals x m.now f.now }
    ensures size { IfErr result (λ e. e ≡ NumFault.Size) }
{
    let y = power(m, f)?;
    x.sub(y)
}

#[tactic(auto, unfolding(rb_articulated::specs::Rules::vector_over))]
fn vector_over(a: &Vec3, d: Iv) -> Result<Vec3, NumFault>
    ensures exact { result ≡ vector_over_of interval_field a.now d }
{
    let x = a.x().div(d)?;
    let y = a.y().div(d)?;
    let z = a.z().div(d)?;
    Ok(Vec3::new(x, y, z))
}

// A force divided by a number.
#[tactic(auto, unfolding(rb_articulated::specs::Rules::over))]
fn over(f: &Force, d: Iv) -> Result<Force, NumFault>
    ensures exact { result ≡ over_of interval_field f.now d }
{
    let lin = vector_over(&f.lin, d)?;
    let ang = vector_over(&f.ang, d)?;
    Ok(Force { lin, ang })
}

// What a column with the force U, the pivot D and the remaining torque u leaves of an inertia and a bias.
#[tactic(auto, unfolding(crate::specs::Articulated::give_way))]
pub(crate) fn give_way(
    force: &Force,
    pivot: Iv,
    left: Iv,
    rest: &mut (Inertia6, Force),
) -> Result<(), NumFault>
    ensures exact { Answers result (give_way_of force.now pivot left rest.old) rest.new }
{
    let share = over(force, pivot)?;
    rest.0 = less_outer(&rest.0, force, &share)?;
    rest.1 = force_and(&rest.1, left, &share)?;
    Ok(())
}
