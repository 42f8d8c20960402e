ghost use Rattle.std.specs.Prelude.{◌≡◌, Ok, IfOk, IfErr, IfSome};
ghost use Rattle.rb_num.specs.Arith.{intervals};
ghost use Rattle.rb_spatial.specs.Motions.{EnclosesCross3, EnclosesCrossTwice, EnclosesPlusCross, EnclosesMultiple, EnclosesSumVector, EnclosesMul};
ghost use Rattle.rb_spatial.specs.Motions.{EnclosesApply, EnclosesApplyDual, EnclosesCross, EnclosesCrossDual, EnclosesPower, EnclosesSumSpatial};
ghost use Rattle.rb_spatial.specs.Motions.{cross3 as cross3_of, cross_twice as cross_twice_of, plus_cross as plus_cross_of, multiple as multiple_of, sum_vector as sum_vector_of, mul as mul_of};
ghost use Rattle.rb_spatial.specs.Motions.{apply as apply_of, apply_dual as apply_dual_of, cross as cross_of, cross_dual as cross_dual_of, power as power_of, sum_spatial as sum_spatial_of};

use crate::narrow::{NarrowMat3, NarrowVec3};
use crate::near::{near_dot, near_dots, near_four, near_one, near_plus_two, near_two};
use crate::vectors::{Mat3, Vec3};
use rb_num::{Iv, NumFault, dot};
use std::marker::Model;

/// A speed or an acceleration: linear part first.
#[derive(Clone, Copy, Debug, PartialEq, Eq)]
pub struct Motion {
    pub lin: Vec3,
    pub ang: Vec3,
}

impl Model for Motion {
    ghost use Rattle.rb_num.specs.Interval.{Interval};
    ghost use Rattle.rb_frac.specs.Spatial as S;

    ghost Value = { S.Motion Interval };

    ghost view = { λ a. record { lin = a.lin; ang = a.ang } };

    ghost inverse = { λ v. record { lin = v.lin; ang = v.ang } };
}

/// A force and a moment.
#[derive(Clone, Copy, Debug, PartialEq, Eq)]
pub struct Force {
    pub lin: Vec3,
    pub ang: Vec3,
}

impl Model for Force {
    ghost use Rattle.rb_num.specs.Interval.{Interval};
    ghost use Rattle.rb_frac.specs.Spatial as S;

    ghost Value = { S.Force Interval };

    ghost view = { λ a. record { lin = a.lin; ang = a.ang } };

    ghost inverse = { λ v. record { lin = v.lin; ang = v.ang } };
}

/// A frame: its rotation and its origin, in the frame that it stands in.
#[derive(Clone, Copy, Debug, PartialEq, Eq)]
pub struct Frame {
    pub rot: Mat3,
    pub at: Vec3,
}

impl Model for Frame {
    ghost use Rattle.rb_num.specs.Interval.{Interval};
    ghost use Rattle.rb_frac.specs.Spatial as S;

    ghost Value = { S.Frame Interval };

    ghost view = { λ a. record { rot = a.rot; at = a.at } };

    ghost inverse = { λ v. record { rot = v.rot; at = v.at } };
}

/// Where a body stands to its parent: `e` turns the parent's vectors into the body's, and `r` is
/// the body's origin in the parent.
#[derive(Clone, Copy, Debug, PartialEq, Eq)]
pub struct Place {
    pub e: Mat3,
    pub r: Vec3,
}

impl Model for Place {
    ghost use Rattle.rb_num.specs.Interval.{Interval};
    ghost use Rattle.rb_frac.specs.Spatial as S;

    ghost Value = { S.Place Interval };

    ghost view = { λ a. record { e = a.e; r = a.r } };

    ghost inverse = { λ v. record { e = v.e; r = v.r } };
}

/// The cross product `u x w`. It is refused with `Size` exactly where one of its sums of products
/// is.
#[tactic(auto, using(crate::proofs::Enclosure::cross3_encloses))]
pub fn cross3(u: &Vec3, w: &Vec3) -> Result<Vec3, NumFault>
    ensures exact { result ≡ cross3_of intervals u.now w.now }
    ensures encloses { IfOk result (EnclosesCross3 u.now w.now) }
    ensures size { IfErr result (λ e. e ≡ NumFault.Size) }
{
    match near_cross3(u, w) {
        Some(product) => Ok(product),
        None => far_cross3(u, w),
    }
}

#[inline(always)]
#[tactic(auto, unfolding(crate::specs::Motions::cross3))]
fn narrow_cross3(u: &NarrowVec3, w: &NarrowVec3) -> Option<NarrowVec3>
    ensures { IfSome result (λ v. cross3_of intervals u.now w.now ≡ Ok v) }
{
    let x = near_two(u.y, w.z, u.z, w.y)?;
    let y = near_two(u.z, w.x, u.x, w.z)?;
    let z = near_two(u.x, w.y, u.y, w.x)?;
    Some(NarrowVec3 { x, y, z })
}

#[inline(always)]
fn near_cross3(u: &Vec3, w: &Vec3) -> Option<Vec3>
    ensures { IfSome result (λ v. cross3_of intervals u.now w.now ≡ Ok v) }
{
    let product = narrow_cross3(&u.narrow()?, &w.narrow()?)?;
    Some(product.wide())
}

#[cold]
#[inline(never)]
#[tactic(auto, unfolding(crate::specs::Motions::cross3))]
fn far_cross3(u: &Vec3, w: &Vec3) -> Result<Vec3, NumFault>
    ensures exact { result ≡ cross3_of intervals u.now w.now }
    ensures size { IfErr result (λ e. e ≡ NumFault.Size) }
{
    let x = dot(&[(u.y(), w.z()), (u.z().neg(), w.y())])?;
    let y = dot(&[(u.z(), w.x()), (u.x().neg(), w.z())])?;
    let z = dot(&[(u.x(), w.y()), (u.y().neg(), w.x())])?;
    Ok(Vec3::new(x, y, z))
}

/// `u x w + s x t`, one sum of four products for each part. It is refused with `Size` exactly where
/// one of these is.
#[tactic(auto, using(crate::proofs::Enclosure::cross_twice_encloses))]
pub fn cross_twice(u: &Vec3, w: &Vec3, s: &Vec3, t: &Vec3) -> Result<Vec3, NumFault>
    ensures exact { result ≡ cross_twice_of intervals u.now w.now s.now t.now }
    ensures encloses { IfOk result (EnclosesCrossTwice u.now w.now s.now t.now) }
    ensures size { IfErr result (λ e. e ≡ NumFault.Size) }
{
    match near_cross_twice(u, w, s, t) {
        Some(sum) => Ok(sum),
        None => far_cross_twice(u, w, s, t),
    }
}

#[inline(always)]
#[tactic(auto, unfolding(crate::specs::Motions::cross_twice))]
fn narrow_cross_twice(
    u: &NarrowVec3,
    w: &NarrowVec3,
    s: &NarrowVec3,
    t: &NarrowVec3,
) -> Option<NarrowVec3>
    ensures { IfSome result (λ v. cross_twice_of intervals u.now w.now s.now t.now ≡ Ok v) }
{
    let x = near_four(u.y, w.z, u.z, w.y, s.y, t.z, s.z, t.y)?;
    let y = near_four(u.z, w.x, u.x, w.z, s.z, t.x, s.x, t.z)?;
    let z = near_four(u.x, w.y, u.y, w.x, s.x, t.y, s.y, t.x)?;
    Some(NarrowVec3 { x, y, z })
}

#[inline(always)]
fn near_cross_twice(u: &Vec3, w: &Vec3, s: &Vec3, t: &Vec3) -> Option<Vec3>
    ensures { IfSome result (λ v. cross_twice_of intervals u.now w.now s.now t.now ≡ Ok v) }
{
    let sum = narrow_cross_twice(&u.narrow()?, &w.narrow()?, &s.narrow()?, &t.narrow()?)?;
    Some(sum.wide())
}

#[cold]
#[inline(never)]
#[tactic(auto, unfolding(crate::specs::Motions::cross_twice))]
fn far_cross_twice(u: &Vec3, w: &Vec3, s: &Vec3, t: &Vec3) -> Result<Vec3, NumFault>
    ensures exact { result ≡ cross_twice_of intervals u.now w.now s.now t.now }
    ensures size { IfErr result (λ e. e ≡ NumFault.Size) }
{
    let x = dot(&[
        (u.y(), w.z()),
        (u.z().neg(), w.y()),
        (s.y(), t.z()),
        (s.z().neg(), t.y()),
    ])?;
    let y = dot(&[
        (u.z(), w.x()),
        (u.x().neg(), w.z()),
        (s.z(), t.x()),
        (s.x().neg(), t.z()),
    ])?;
    let z = dot(&[
        (u.x(), w.y()),
        (u.y().neg(), w.x()),
        (s.x(), t.y()),
        (s.y().neg(), t.x()),
    ])?;
    Ok(Vec3::new(x, y, z))
}

/// `n + u x w`, one sum of three products for each part. It is refused with `Size` exactly where one
/// of these is.
#[tactic(auto, using(crate::proofs::Enclosure::plus_cross_encloses))]
pub fn plus_cross(n: &Vec3, u: &Vec3, w: &Vec3) -> Result<Vec3, NumFault>
    ensures exact { result ≡ plus_cross_of intervals n.now u.now w.now }
    ensures encloses { IfOk result (EnclosesPlusCross n.now u.now w.now) }
    ensures size { IfErr result (λ e. e ≡ NumFault.Size) }
{
    match near_plus_cross(n, u, w) {
        Some(sum) => Ok(sum),
        None => far_plus_cross(n, u, w),
    }
}

#[inline(always)]
#[tactic(auto, unfolding(crate::specs::Motions::plus_cross))]
fn narrow_plus_cross(n: &NarrowVec3, u: &NarrowVec3, w: &NarrowVec3) -> Option<NarrowVec3>
    ensures { IfSome result (λ v. plus_cross_of intervals n.now u.now w.now ≡ Ok v) }
{
    let x = near_plus_two(n.x, u.y, w.z, u.z, w.y)?;
    let y = near_plus_two(n.y, u.z, w.x, u.x, w.z)?;
    let z = near_plus_two(n.z, u.x, w.y, u.y, w.x)?;
    Some(NarrowVec3 { x, y, z })
}

#[inline(always)]
fn near_plus_cross(n: &Vec3, u: &Vec3, w: &Vec3) -> Option<Vec3>
    ensures { IfSome result (λ v. plus_cross_of intervals n.now u.now w.now ≡ Ok v) }
{
    let sum = narrow_plus_cross(&n.narrow()?, &u.narrow()?, &w.narrow()?)?;
    Some(sum.wide())
}

#[cold]
#[inline(never)]
#[tactic(auto, unfolding(crate::specs::Motions::plus_cross))]
fn far_plus_cross(n: &Vec3, u: &Vec3, w: &Vec3) -> Result<Vec3, NumFault>
    ensures exact { result ≡ plus_cross_of intervals n.now u.now w.now }
    ensures size { IfErr result (λ e. e ≡ NumFault.Size) }
{
    let x = dot(&[(n.x(), Iv::ONE), (u.y(), w.z()), (u.z().neg(), w.y())])?;
    let y = dot(&[(n.y(), Iv::ONE), (u.z(), w.x()), (u.x().neg(), w.z())])?;
    let z = dot(&[(n.z(), Iv::ONE), (u.x(), w.y()), (u.y().neg(), w.x())])?;
    Ok(Vec3::new(x, y, z))
}

/// The multiple `k v`, a product for each part. It is refused with `Size` exactly where one of these
/// is.
#[tactic(auto, using(crate::proofs::Enclosure::multiple_encloses))]
pub fn multiple(k: Iv, v: &Vec3) -> Result<Vec3, NumFault>
    ensures exact { result ≡ multiple_of intervals k v.now }
    ensures encloses { IfOk result (EnclosesMultiple k v.now) }
    ensures size { IfErr result (λ e. e ≡ NumFault.Size) }
{
    match near_multiple(&k, v) {
        Some(product) => Ok(product),
        None => far_multiple(k, v),
    }
}

#[inline(always)]
#[tactic(auto, unfolding(crate::specs::Motions::multiple))]
fn near_multiple(k: &Iv, v: &Vec3) -> Option<Vec3>
    ensures { IfSome result (λ w. multiple_of intervals k.now v.now ≡ Ok w) }
{
    let (k, v) = (k.narrow()?, v.narrow()?);
    let x = near_one(k, v.x)?;
    let y = near_one(k, v.y)?;
    let z = near_one(k, v.z)?;
    Some(Vec3::new(x.wide(), y.wide(), z.wide()))
}

#[cold]
#[inline(never)]
#[tactic(auto, unfolding(crate::specs::Motions::multiple))]
fn far_multiple(k: Iv, v: &Vec3) -> Result<Vec3, NumFault>
    ensures exact { result ≡ multiple_of intervals k v.now }
    ensures size { IfErr result (λ e. e ≡ NumFault.Size) }
{
    let x = dot(&[(k, v.x())])?;
    let y = dot(&[(k, v.y())])?;
    let z = dot(&[(k, v.z())])?;
    Ok(Vec3::new(x, y, z))
}

/// The sum, part by part. It is refused with `Size` exactly where a part is.
#[tactic(auto, unfolding(crate::specs::Motions::sum_vector))]
pub fn sum_vector(u: &Vec3, w: &Vec3) -> Result<Vec3, NumFault>
    ensures exact { result ≡ sum_vector_of intervals u.now w.now }
    ensures encloses { IfOk result (EnclosesSumVector u.now w.now) }
    ensures size { IfErr result (λ e. e ≡ NumFault.Size) }
{
    let x = u.x().add(w.x())?;
    let y = u.y().add(w.y())?;
    let z = u.z().add(w.z())?;
    Ok(Vec3::new(x, y, z))
}

/// The table times the vector, a sum of three products for each part. It is refused with `Size`
/// exactly where one of these is.
#[tactic(auto, using(crate::proofs::Enclosure::mul_encloses))]
pub fn mul(t: &Mat3, v: &Vec3) -> Result<Vec3, NumFault>
    ensures exact { result ≡ mul_of intervals t.now v.now }
    ensures encloses { IfOk result (EnclosesMul t.now v.now) }
    ensures size { IfErr result (λ e. e ≡ NumFault.Size) }
{
    match near_mul(t, v) {
        Some(product) => Ok(product),
        None => far_mul(t, v),
    }
}

#[inline(always)]
#[tactic(auto, unfolding(crate::specs::Motions::mul))]
fn narrow_mul(t: &NarrowMat3, v: &NarrowVec3) -> Option<NarrowVec3>
    ensures { IfSome result (λ w. mul_of intervals t.now v.now ≡ Ok w) }
{
    let x = near_dot(&t.x, v)?;
    let y = near_dot(&t.y, v)?;
    let z = near_dot(&t.z, v)?;
    Some(NarrowVec3 { x, y, z })
}

#[inline(always)]
fn near_mul(t: &Mat3, v: &Vec3) -> Option<Vec3>
    ensures { IfSome result (λ w. mul_of intervals t.now v.now ≡ Ok w) }
{
    let product = narrow_mul(&t.narrow()?, &v.narrow()?)?;
    Some(product.wide())
}

#[cold]
#[inline(never)]
#[tactic(auto, unfolding(crate::specs::Motions::mul))]
fn far_mul(t: &Mat3, v: &Vec3) -> Result<Vec3, NumFault>
    ensures exact { result ≡ mul_of intervals t.now v.now }
    ensures size { IfErr result (λ e. e ≡ NumFault.Size) }
{
    let (r, s, t) = (t.x(), t.y(), t.z());
    let x = dot(&[(r.x(), v.x()), (r.y(), v.y()), (r.z(), v.z())])?;
    let y = dot(&[(s.x(), v.x()), (s.y(), v.y()), (s.z(), v.z())])?;
    let z = dot(&[(t.x(), v.x()), (t.y(), v.y()), (t.z(), v.z())])?;
    Ok(Vec3::new(x, y, z))
}

/// The parent's motion as the body's: `(e (lin + ang x r), e ang)`. It is refused with `Size`
/// exactly where one of its sums of products is.
#[tactic(auto, using(crate::proofs::Enclosure::apply_encloses))]
pub fn apply(x: &Place, m: &Motion) -> Result<Motion, NumFault>
    ensures exact { result ≡ apply_of intervals x.now m.now }
    ensures encloses { IfOk result (EnclosesApply x.now m.now) }
    ensures size { IfErr result (λ e. e ≡ NumFault.Size) }
{
    match near_apply(x, m) {
        Some(moved) => Ok(moved),
        None => far_apply(x, m),
    }
}

#[inline(always)]
#[tactic(auto, unfolding(crate::specs::Motions::apply))]
fn near_apply(x: &Place, m: &Motion) -> Option<Motion>
    ensures { IfSome result (λ v. apply_of intervals x.now m.now ≡ Ok v) }
{
    let (e, r) = (x.e.narrow()?, x.r.narrow()?);
    let (u, w) = (m.lin.narrow()?, m.ang.narrow()?);
    let t = narrow_plus_cross(&u, &w, &r)?;
    let lin = narrow_mul(&e, &t)?;
    let ang = narrow_mul(&e, &w)?;
    Some(Motion {
        lin: lin.wide(),
        ang: ang.wide(),
    })
}

#[cold]
#[inline(never)]
#[tactic(auto, unfolding(crate::specs::Motions::apply))]
fn far_apply(x: &Place, m: &Motion) -> Result<Motion, NumFault>
    ensures exact { result ≡ apply_of intervals x.now m.now }
    ensures size { IfErr result (λ e. e ≡ NumFault.Size) }
{
    let t = plus_cross(&m.lin, &m.ang, &x.r)?;
    let lin = mul(&x.e, &t)?;
    let ang = mul(&x.e, &m.ang)?;
    Ok(Motion { lin, ang })
}

/// The body's force as the parent's: `(e^T lin, e^T ang + r x e^T lin)`. It is refused with `Size`
/// exactly where one of its sums of products is.
#[tactic(auto, using(crate::proofs::Enclosure::apply_dual_encloses))]
pub fn apply_dual(x: &Place, f: &Force) -> Result<Force, NumFault>
    ensures exact { result ≡ apply_dual_of intervals x.now f.now }
    ensures encloses { IfOk result (EnclosesApplyDual x.now f.now) }
    ensures size { IfErr result (λ e. e ≡ NumFault.Size) }
{
    match near_apply_dual(x, f) {
        Some(moved) => Ok(moved),
        None => far_apply_dual(x, f),
    }
}

#[inline(always)]
#[tactic(auto, unfolding(crate::specs::Motions::apply_dual))]
fn near_apply_dual(x: &Place, f: &Force) -> Option<Force>
    ensures { IfSome result (λ v. apply_dual_of intervals x.now f.now ≡ Ok v) }
{
    let (turn, r) = (x.e.narrow()?.transpose(), x.r.narrow()?);
    let lin = narrow_mul(&turn, &f.lin.narrow()?)?;
    let n = narrow_mul(&turn, &f.ang.narrow()?)?;
    let ang = narrow_plus_cross(&n, &r, &lin)?;
    Some(Force {
        lin: lin.wide(),
        ang: ang.wide(),
    })
}

#[cold]
#[inline(never)]
#[tactic(auto, unfolding(crate::specs::Motions::apply_dual))]
fn far_apply_dual(x: &Place, f: &Force) -> Result<Force, NumFault>
    ensures exact { result ≡ apply_dual_of intervals x.now f.now }
    ensures size { IfErr result (λ e. e ≡ NumFault.Size) }
{
    let turn = x.e.transpose();
    let lin = mul(&turn, &f.lin)?;
    let n = mul(&turn, &f.ang)?;
    let ang = plus_cross(&n, &x.r, &lin)?;
    Ok(Force { lin, ang })
}

/// The product of two motions, which is how `b` changes as it moves along with `a`:
/// `(a.ang x b.lin + a.lin x b.ang, a.ang x b.ang)`. It is refused with `Size` exactly where one of
/// its sums of products is.
#[tactic(auto, using(crate::proofs::Enclosure::cross_encloses))]
pub fn cross(a: &Motion, b: &Motion) -> Result<Motion, NumFault>
    ensures exact { result ≡ cross_of intervals a.now b.now }
    ensures encloses { IfOk result (EnclosesCross a.now b.now) }
    ensures size { IfErr result (λ e. e ≡ NumFault.Size) }
{
    match near_cross(a, b) {
        Some(product) => Ok(product),
        None => far_cross(a, b),
    }
}

#[inline(always)]
#[tactic(auto, unfolding(crate::specs::Motions::cross))]
fn near_cross(a: &Motion, b: &Motion) -> Option<Motion>
    ensures { IfSome result (λ v. cross_of intervals a.now b.now ≡ Ok v) }
{
    let (s, t) = (a.lin.narrow()?, a.ang.narrow()?);
    let (u, w) = (b.lin.narrow()?, b.ang.narrow()?);
    let lin = narrow_cross_twice(&t, &u, &s, &w)?;
    let ang = narrow_cross3(&t, &w)?;
    Some(Motion {
        lin: lin.wide(),
        ang: ang.wide(),
    })
}

#[cold]
#[inline(never)]
#[tactic(auto, unfolding(crate::specs::Motions::cross))]
fn far_cross(a: &Motion, b: &Motion) -> Result<Motion, NumFault>
    ensures exact { result ≡ cross_of intervals a.now b.now }
    ensures size { IfErr result (λ e. e ≡ NumFault.Size) }
{
    let lin = cross_twice(&a.ang, &b.lin, &a.lin, &b.ang)?;
    let ang = cross3(&a.ang, &b.ang)?;
    Ok(Motion { lin, ang })
}

/// The product of a motion and a force, which is how `f` changes as it moves along with `a`:
/// `(a.ang x f.lin, a.ang x f.ang + a.lin x f.lin)`. It is refused with `Size` exactly where one of
/// its sums of products is.
#[tactic(auto, using(crate::proofs::Enclosure::cross_dual_encloses))]
pub fn cross_dual(a: &Motion, f: &Force) -> Result<Force, NumFault>
    ensures exact { result ≡ cross_dual_of intervals a.now f.now }
    ensures encloses { IfOk result (EnclosesCrossDual a.now f.now) }
    ensures size { IfErr result (λ e. e ≡ NumFault.Size) }
{
    match near_cross_dual(a, f) {
        Some(product) => Ok(product),
        None => far_cross_dual(a, f),
    }
}

#[inline(always)]
#[tactic(auto, unfolding(crate::specs::Motions::cross_dual))]
fn near_cross_dual(a: &Motion, f: &Force) -> Option<Force>
    ensures { IfSome result (λ v. cross_dual_of intervals a.now f.now ≡ Ok v) }
{
    let (s, t) = (a.lin.narrow()?, a.ang.narrow()?);
    let (u, w) = (f.lin.narrow()?, f.ang.narrow()?);
    let lin = narrow_cross3(&t, &u)?;
    let ang = narrow_cross_twice(&t, &w, &s, &u)?;
    Some(Force {
        lin: lin.wide(),
        ang: ang.wide(),
    })
}

#[cold]
#[inline(never)]
#[tactic(auto, unfolding(crate::specs::Motions::cross_dual))]
fn far_cross_dual(a: &Motion, f: &Force) -> Result<Force, NumFault>
    ensures exact { result ≡ cross_dual_of intervals a.now f.now }
    ensures size { IfErr result (λ e. e ≡ NumFault.Size) }
{
    let lin = cross3(&a.ang, &f.lin)?;
    let ang = cross_twice(&a.ang, &f.ang, &a.lin, &f.lin)?;
    Ok(Force { lin, ang })
}

/// The power of the force at the motion, one sum of six products. It is refused with `Size` exactly
/// where that is.
#[tactic(auto, using(crate::proofs::Enclosure::power_encloses))]
pub fn power(m: &Motion, f: &Force) -> Result<Iv, NumFault>
    ensures exact { result ≡ power_of intervals m.now f.now }
    ensures encloses { IfOk result (EnclosesPower m.now f.now) }
    ensures size { IfErr result (λ e. e ≡ NumFault.Size) }
{
    match near_power(m, f) {
        Some(power) => Ok(power),
        None => far_power(m, f),
    }
}

#[inline(always)]
#[tactic(auto, unfolding(crate::specs::Motions::power))]
fn near_power(m: &Motion, f: &Force) -> Option<Iv>
    ensures { IfSome result (λ v. power_of intervals m.now f.now ≡ Ok v) }
{
    let (u, w) = (m.lin.narrow()?, m.ang.narrow()?);
    let (p, q) = (f.lin.narrow()?, f.ang.narrow()?);
    let power = near_dots(&u, &p, &w, &q)?;
    Some(power.wide())
}

#[cold]
#[inline(never)]
#[tactic(auto, unfolding(crate::specs::Motions::power))]
fn far_power(m: &Motion, f: &Force) -> Result<Iv, NumFault>
    ensures exact { result ≡ power_of intervals m.now f.now }
    ensures size { IfErr result (λ e. e ≡ NumFault.Size) }
{
    dot(&[
        (m.lin.x(), f.lin.x()),
        (m.lin.y(), f.lin.y()),
        (m.lin.z(), f.lin.z()),
        (m.ang.x(), f.ang.x()),
        (m.ang.y(), f.ang.y()),
        (m.ang.z(), f.ang.z()),
    ])
}

/// The sum of two motions, part by part. It is refused with `Size` exactly where a part is.
#[tactic(auto, unfolding(crate::specs::Motions::sum_spatial))]
pub fn sum_motions(a: &Motion, b: &Motion) -> Result<Motion, NumFault>
    ensures exact { result ≡ sum_spatial_of intervals a.now b.now }
    ensures encloses { IfOk result (EnclosesSumSpatial a.now b.now) }
    ensures size { IfErr result (λ e. e ≡ NumFault.Size) }
{
    let lin = sum_vector(&a.lin, &b.lin)?;
    let ang = sum_vector(&a.ang, &b.ang)?;
    Ok(Motion { lin, ang })
}

/// The sum of two forces, part by part. It is refused with `Size` exactly where a part is.
#[tactic(auto, unfolding(crate::specs::Motions::sum_spatial))]
pub fn sum_forces(f: &Force, g: &Force) -> Result<Force, NumFault>
    ensures exact { result ≡ sum_spatial_of intervals f.now g.now }
    ensures encloses { IfOk result (EnclosesSumSpatial f.now g.now) }
    ensures size { IfErr result (λ e. e ≡ NumFault.Size) }
{
    let lin = sum_vector(&f.lin, &g.lin)?;
    let ang = sum_vector(&f.ang, &g.ang)?;
    Ok(Force { lin, ang })
}
