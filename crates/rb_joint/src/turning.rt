//! How the motion over a joint changes as it moves along with the body.
ghost use Rattle.std.specs.Prelude.{◌≡◌, length, IfOk, IfErr};
ghost use Rattle.rb_num.specs.Arith.{intervals};
ghost use Rattle.rb_spatial.specs.Motions.{two, cross3 as cross3_of};
ghost use Rattle.rb_joint.specs.Level.{lone, crossed};
ghost use Rattle.rb_joint.specs.Models.{entry_at};
ghost use Rattle.rb_joint.specs.Columns.{turning_around as turning_around_of, turning_along as turning_along_of};

use crate::any::AnyJoint;
use crate::columns::{nothing, rated};
use crate::exact::some_product;
use crate::level::{Coordinate, lone_part};
use crate::model::JointModel;
use rb_num::{Iv, NumFault};
use rb_spatial::{Motion, Vec3, cross, cross3};

#[inline(always)]
fn cross_x(u: &Vec3, p: &Iv) -> Result<Vec3, NumFault>
    ensures exact { result ≡ crossed Coordinate.X u.now p.now }
    ensures size { IfErr result (λ e. e ≡ NumFault.Size) }
{
    let y = some_product(&u.z(), p)?;
    let z = some_product(&u.y().neg(), p)?;
    Ok(Vec3::new(Iv::ZERO, y, z))
}

#[inline(always)]
fn cross_y(u: &Vec3, p: &Iv) -> Result<Vec3, NumFault>
    ensures exact { result ≡ crossed Coordinate.Y u.now p.now }
    ensures size { IfErr result (λ e. e ≡ NumFault.Size) }
{
    let x = some_product(&u.z().neg(), p)?;
    let z = some_product(&u.x(), p)?;
    Ok(Vec3::new(x, Iv::ZERO, z))
}

#[inline(always)]
fn cross_z(u: &Vec3, p: &Iv) -> Result<Vec3, NumFault>
    ensures exact { result ≡ crossed Coordinate.Z u.now p.now }
    ensures size { IfErr result (λ e. e ≡ NumFault.Size) }
{
    let x = some_product(&u.y(), p)?;
    let y = some_product(&u.x().neg(), p)?;
    Ok(Vec3::new(x, y, Iv::ZERO))
}

// The cross product with a vector along a coordinate axis.
#[inline(always)]
fn cross_lone(u: &Vec3, k: Coordinate, p: &Iv) -> Result<Vec3, NumFault>
    ensures exact { result ≡ cross3_of intervals u.now (lone k p.now) }
    ensures size { IfErr result (λ e. e ≡ NumFault.Size) }
{
    match k {
        Coordinate::X => cross_x(u, p),
        Coordinate::Y => cross_y(u, p),
        Coordinate::Z => cross_z(u, p),
    }
}

// The cross product with a vector that mostly is along a coordinate axis.
#[inline(always)]
fn cross_mostly_lone(u: &Vec3, w: &Vec3) -> Result<Vec3, NumFault>
    ensures exact { result ≡ cross3_of intervals u.now w.now }
    ensures size { IfErr result (λ e. e ≡ NumFault.Size) }
{
    match lone_part(w) {
        Some((k, p)) => cross_lone(u, k, &p),
        None => cross3(u, w),
    }
}

#[tactic(auto, unfolding(crate::specs::Columns::turning_around))]
fn turning_around(v: &Motion, axis: &Vec3, rates: &[Iv]) -> Result<Motion, NumFault>
    requires { length rates.now ≡ 1 }
    ensures exact { result ≡ turning_around_of v.now axis.now (entry_at rates.now 0) }
    ensures size { IfErr result (λ e. e ≡ NumFault.Size) }
{
    let w = rated(&rates[0], axis)?;
    let lin = cross_mostly_lone(&v.lin, &w)?;
    let ang = cross_mostly_lone(&v.ang, &w)?;
    Ok(Motion { lin, ang })
}

#[tactic(auto, unfolding(crate::specs::Columns::turning_along))]
fn turning_along(v: &Motion, axis: &Vec3, rates: &[Iv]) -> Result<Motion, NumFault>
    requires { length rates.now ≡ 1 }
    ensures exact { result ≡ turning_along_of v.now axis.now (entry_at rates.now 0) }
    ensures size { IfErr result (λ e. e ≡ NumFault.Size) }
{
    let u = rated(&rates[0], axis)?;
    let lin = cross_mostly_lone(&v.ang, &u)?;
    Ok(Motion {
        lin,
        ang: nothing(),
    })
}

impl AnyJoint {
    ghost use Rattle.rb_flat.specs.Joint.{column_count};
    ghost use Rattle.rb_joint.specs.Any.{kind_of};
    ghost use Rattle.rb_joint.specs.Columns.{joint_turning, EnclosesTurning};

    /// How the motion over the joint changes as it moves along with the motion `v`: the product of `v` and it. It encloses that of the joint
    /// relation for each choice. It is refused with `Size` exactly where the motion is, or one of the product's sums.
    pub fn turning(&self, v: &Motion, rates: &[Iv]) -> Result<Motion, NumFault>
        requires { length rates.now ≡ column_count (kind_of self.now) }
        ensures exact { result ≡ joint_turning self.now v.now rates.now }
        ensures encloses { IfOk result (EnclosesTurning self.now v.now rates.now) }
        ensures size { IfErr result (λ e. e ≡ NumFault.Size) }
    {
        self.turning_of(v, rates)
    }

    // Without the products of zeros, where the joint has one column or none.
    #[inline(always)]
    fn turning_of(&self, v: &Motion, rates: &[Iv]) -> Result<Motion, NumFault>
        requires { length rates.now ≡ column_count (kind_of self.now) }
        ensures exact { result ≡ joint_turning self.now v.now rates.now }
        ensures size { IfErr result (λ e. e ≡ NumFault.Size) }
    {
        match self {
            AnyJoint::Fixed(_) => Ok(Motion {
                lin: nothing(),
                ang: nothing(),
            }),
            AnyJoint::Revolute(joint) => turning_around(v, &joint.column(0).ang, rates),
            AnyJoint::Continuous(joint) => turning_around(v, &joint.column(0).ang, rates),
            AnyJoint::Prismatic(joint) => turning_along(v, &joint.column(0).lin, rates),
            _ => self.any_turning(v, rates),
        }
    }

    // With the products of zeros.
    #[inline(never)]
    fn any_turning(&self, v: &Motion, rates: &[Iv]) -> Result<Motion, NumFault>
        requires { length rates.now ≡ column_count (kind_of self.now) }
        ensures exact { result ≡ joint_turning self.now v.now rates.now }
        ensures size { IfErr result (λ e. e ≡ NumFault.Size) }
    {
        let own = self.motion(rates)?;
        cross(v, &own)
    }
}
