ghost use Rattle.std.specs.Prelude.{◌≡◌, ◌<◌, [], ◌∷◌, length, Ok, IfOk, IfErr, IfSome};
ghost use Rattle.rb_num.specs.Interval.{one_interval};
ghost use Rattle.rb_num.specs.Arith.{intervals, signs_of};
ghost use Rattle.rb_num.specs.Dot.{iv_dot};
ghost use Rattle.rb_frac.specs.Tables.{component, nothing as nothing_of};
ghost use Rattle.rb_spatial.specs.Motions.{pairs, two, power, multiple as multiple_of};
ghost use Rattle.rb_joint.specs.Models.{entry_at, planar_column, free_column};
ghost use Rattle.rb_joint.specs.Columns.{along_axes as along_axes_of, motion_around as motion_around_of, motion_along as motion_along_of, motion_level as motion_level_of};

use crate::any::AnyJoint;
use crate::exact::{part_times, times_one, times_part};
use crate::level::{lone_part, part_along};
use crate::model::JointModel;
use rb_num::{Iv, NumFault, dot};
use rb_spatial::{Force, Motion, Vec3, near_dot};

pub(crate) fn nothing() -> Vec3
    ensures { result ≡ nothing_of (signs_of intervals) }
{
    Vec3::new(Iv::ZERO, Iv::ZERO, Iv::ZERO)
}

// Numbers along the three axes, as sums of one product each.
#[tactic(auto, unfolding(crate::specs::Columns::along_axes))]
fn along_axes(x: Iv, y: Iv, z: Iv) -> Result<Vec3, NumFault>
    ensures exact { result ≡ along_axes_of x y z }
    ensures size { IfErr result (λ e. e ≡ NumFault.Size) }
{
    let x = times_one(&x)?;
    let y = times_one(&y)?;
    let z = times_one(&z)?;
    Ok(Vec3::new(x, y, z))
}

// An axis, each part times the rate.
#[inline(always)]
#[tactic(auto, unfolding(rb_spatial::specs::Motions::multiple))]
pub(crate) fn rated(rate: &Iv, axis: &Vec3) -> Result<Vec3, NumFault>
    ensures exact { result ≡ multiple_of intervals rate.now axis.now }
    ensures size { IfErr result (λ e. e ≡ NumFault.Size) }
{
    let x = times_part(rate, &axis.x())?;
    let y = times_part(rate, &axis.y())?;
    let z = times_part(rate, &axis.z())?;
    Ok(Vec3::new(x, y, z))
}

// Of a joint that turns about an axis: the angular part alone takes products.
#[tactic(auto, unfolding(crate::specs::Columns::motion_around))]
fn motion_around(axis: &Vec3, rates: &[Iv]) -> Result<Motion, NumFault>
    requires { length rates.now ≡ 1 }
    ensures exact { result ≡ motion_around_of axis.now (entry_at rates.now 0) }
    ensures size { IfErr result (λ e. e ≡ NumFault.Size) }
{
    let ang = rated(&rates[0], axis)?;
    Ok(Motion {
        lin: nothing(),
        ang,
    })
}

#[tactic(auto, unfolding(crate::specs::Columns::motion_along))]
fn motion_along(axis: &Vec3, rates: &[Iv]) -> Result<Motion, NumFault>
    requires { length rates.now ≡ 1 }
    ensures exact { result ≡ motion_along_of axis.now (entry_at rates.now 0) }
    ensures size { IfErr result (λ e. e ≡ NumFault.Size) }
{
    let lin = rated(&rates[0], axis)?;
    Ok(Motion {
        lin,
        ang: nothing(),
    })
}

#[tactic(auto, unfolding(crate::specs::Columns::motion_level))]
fn motion_level(rates: &[Iv]) -> Result<Motion, NumFault>
    requires { length rates.now ≡ 3 }
    ensures exact { result ≡ motion_level_of (entry_at rates.now 0) (entry_at rates.now 1) (entry_at rates.now 2) }
    ensures size { IfErr result (λ e. e ≡ NumFault.Size) }
{
    let x = times_one(&rates[0])?;
    let y = times_one(&rates[1])?;
    let turn = times_one(&rates[2])?;
    Ok(Motion {
        lin: Vec3::new(x, y, Iv::ZERO),
        ang: Vec3::new(Iv::ZERO, Iv::ZERO, turn),
    })
}

fn motion_free(rates: &[Iv]) -> Result<Motion, NumFault>
    requires { length rates.now ≡ 6 }
    ensures exact { result ≡ two intervals (along_axes_of (entry_at rates.now 0) (entry_at rates.now 1) (entry_at rates.now 2)) (along_axes_of (entry_at rates.now 3) (entry_at rates.now 4) (entry_at rates.now 5)) }
    ensures size { IfErr result (λ e. e ≡ NumFault.Size) }
{
    let lin = along_axes(rates[0], rates[1], rates[2])?;
    let ang = along_axes(rates[3], rates[4], rates[5])?;
    Ok(Motion { lin, ang })
}

#[inline(always)]
fn near_product(u: &Vec3, w: &Vec3) -> Option<Iv>
    ensures { IfSome result (λ v. iv_dot (pairs u.now w.now) ≡ Ok v) }
{
    let product = near_dot(&u.narrow()?, &w.narrow()?)?;
    Some(product.wide())
}

#[cold]
#[inline(never)]
fn far_product(u: &Vec3, w: &Vec3) -> Result<Iv, NumFault>
    ensures exact { result ≡ iv_dot (pairs u.now w.now) }
    ensures size { IfErr result (λ e. e ≡ NumFault.Size) }
{
    dot(&[(u.x(), w.x()), (u.y(), w.y()), (u.z(), w.z())])
}

// The product of two vectors.
fn full_product(u: &Vec3, w: &Vec3) -> Result<Iv, NumFault>
    ensures exact { result ≡ iv_dot (pairs u.now w.now) }
    ensures size { IfErr result (λ e. e ≡ NumFault.Size) }
{
    match near_product(u, w) {
        Some(x) => Ok(x),
        None => far_product(u, w),
    }
}

// The product of an axis and a vector.
#[inline(always)]
fn axis_product(axis: &Vec3, v: &Vec3) -> Result<Iv, NumFault>
    ensures exact { result ≡ iv_dot (pairs axis.now v.now) }
    ensures size { IfErr result (λ e. e ≡ NumFault.Size) }
{
    match lone_part(axis) {
        Some((k, part)) => part_times(&part, &part_along(k, v)),
        None => full_product(axis, v),
    }
}

// The part of a force along axis `k`.
fn part(k: usize, v: &Vec3) -> Result<Iv, NumFault>
    requires { k < 3 }
    ensures exact { result ≡ iv_dot ((one_interval, component v.now k) ∷ []) }
    ensures size { IfErr result (λ e. e ≡ NumFault.Size) }
{
    part_times(&Iv::ONE, &v.component(k))
}

// The power of the force at column `k` of a planar joint.
fn planar_part(k: usize, f: &Force) -> Result<Iv, NumFault>
    requires { k < 3 }
    ensures exact { result ≡ power intervals (planar_column k) f.now }
    ensures size { IfErr result (λ e. e ≡ NumFault.Size) }
{
    if k < 2 {
        part(k, &f.lin)
    } else {
        part(2, &f.ang)
    }
}

fn free_part(k: usize, f: &Force) -> Result<Iv, NumFault>
    requires { k < 6 }
    ensures exact { result ≡ power intervals (free_column k) f.now }
    ensures size { IfErr result (λ e. e ≡ NumFault.Size) }
{
    if k < 3 {
        part(k, &f.lin)
    } else {
        part(k - 3, &f.ang)
    }
}

impl AnyJoint {
    ghost use Rattle.rb_flat.specs.Joint.{column_count};
    ghost use Rattle.rb_joint.specs.Any.{kind_of};
    ghost use Rattle.rb_joint.specs.Columns.{joint_motion, joint_power, EnclosesMotion, EnclosesColumnPower};

    /// The motion over the joint: its columns, each times its rate, part by part one sum of products.
    /// It encloses that of the joint relation for each choice. It is refused with `Size` exactly where
    /// one of these sums is. A joint without columns gives no motion.
    pub fn motion(&self, rates: &[Iv]) -> Result<Motion, NumFault>
        requires { length rates.now ≡ column_count (kind_of self.now) }
        ensures exact { result ≡ joint_motion self.now rates.now }
        ensures encloses { IfOk result (EnclosesMotion self.now rates.now) }
        ensures size { IfErr result (λ e. e ≡ NumFault.Size) }
    {
        self.motion_of(rates)
    }

    // Without the products of zeros.
    #[inline(always)]
    fn motion_of(&self, rates: &[Iv]) -> Result<Motion, NumFault>
        requires { length rates.now ≡ column_count (kind_of self.now) }
        ensures exact { result ≡ joint_motion self.now rates.now }
        ensures size { IfErr result (λ e. e ≡ NumFault.Size) }
    {
        match self {
            AnyJoint::Fixed(_) => Ok(Motion {
                lin: nothing(),
                ang: nothing(),
            }),
            AnyJoint::Revolute(joint) => motion_around(&joint.column(0).ang, rates),
            AnyJoint::Continuous(joint) => motion_around(&joint.column(0).ang, rates),
            AnyJoint::Prismatic(joint) => motion_along(&joint.column(0).lin, rates),
            AnyJoint::Planar(_) => motion_level(rates),
            AnyJoint::Free(_) => motion_free(rates),
        }
    }

    /// The power of the force at column `k`, from 0, one sum of products. It encloses that of the joint
    /// relation for each choice. It is refused with `Size` exactly where the sum is.
    pub fn power(&self, k: usize, f: &Force) -> Result<Iv, NumFault>
        requires { k < column_count (kind_of self.now) }
        ensures exact { result ≡ joint_power self.now k f.now }
        ensures encloses { IfOk result (EnclosesColumnPower self.now k f.now) }
        ensures size { IfErr result (λ e. e ≡ NumFault.Size) }
    {
        self.power_of(k, f)
    }

    // Without the products of zeros.
    #[inline(always)]
    fn power_of(&self, k: usize, f: &Force) -> Result<Iv, NumFault>
        requires { k < column_count (kind_of self.now) }
        ensures exact { result ≡ joint_power self.now k f.now }
        ensures size { IfErr result (λ e. e ≡ NumFault.Size) }
    {
        match self {
            AnyJoint::Fixed(_) => Ok(Iv::ZERO),
            AnyJoint::Revolute(joint) => axis_product(&joint.column(0).ang, &f.ang),
            AnyJoint::Continuous(joint) => axis_product(&joint.column(0).ang, &f.ang),
            AnyJoint::Prismatic(joint) => axis_product(&joint.column(0).lin, &f.lin),
            AnyJoint::Planar(_) => planar_part(k, f),
            AnyJoint::Free(_) => free_part(k, f),
        }
    }
}
