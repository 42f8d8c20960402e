ghost use Rattle.std.specs.Prelude.{◌≡◌, Ok, IfOk, IfErr, IfSome};
ghost use Rattle.rb_num.specs.Arith.{intervals};
ghost use Rattle.rb_num.specs.Dot.{iv_dot};
ghost use Rattle.rb_spatial.specs.Carrying.{EnclosesProduct, EnclosesUpperProduct, EnclosesCarry};
ghost use Rattle.rb_spatial.specs.Motions.{pairs};
ghost use Rattle.rb_spatial.specs.Carrying.{less_pairs};
ghost use Rattle.rb_spatial.specs.Carrying.{row_mul as row_mul_of, product as product_of, upper_product as upper_product_of};
ghost use Rattle.rb_spatial.specs.Carrying.{less_row as less_row_of, less_product as less_product_of};
ghost use Rattle.rb_spatial.specs.Carrying.{corrected as corrected_of, correct as correct_of};
ghost use Rattle.rb_spatial.specs.Carrying.{turn_symmetric as turn_symmetric_of, turn_table as turn_table_of, carry as carry_of};

use crate::inertias::Inertia6;
use crate::motions::Place;
use crate::narrow::{NarrowMat3, NarrowSym3, NarrowVec3};
use crate::near::{near_corrected, near_dot, near_less_dot};
use crate::vectors::{Mat3, Sym3, Vec3};
use rb_num::{Iv, NumFault, dot};

#[inline(always)]
fn dot_three(u: &Vec3, w: &Vec3) -> Result<Iv, NumFault>
    ensures exact { result ≡ iv_dot (pairs u.now w.now) }
    ensures size { IfErr result (λ e. e ≡ NumFault.Size) }
{
    dot(&[(u.x(), w.x()), (u.y(), w.y()), (u.z(), w.z())])
}

// The vector, as a row, times the table of these columns.
#[tactic(auto, unfolding(crate::specs::Carrying::row_mul))]
fn row_mul(v: &Vec3, columns: &Mat3) -> Result<Vec3, NumFault>
    ensures exact { result ≡ row_mul_of intervals v.now columns.now }
    ensures size { IfErr result (λ e. e ≡ NumFault.Size) }
{
    let x = dot_three(v, &columns.x())?;
    let y = dot_three(v, &columns.y())?;
    let z = dot_three(v, &columns.z())?;
    Ok(Vec3::new(x, y, z))
}

/// The product of two tables, a sum of three products for each entry. It is refused with `Size`
/// exactly where one of these is.
#[tactic(auto, using(crate::proofs::Enclosure::product_encloses))]
pub fn product(s: &Mat3, t: &Mat3) -> Result<Mat3, NumFault>
    ensures exact { result ≡ product_of intervals s.now t.now }
    ensures encloses { IfOk result (EnclosesProduct s.now t.now) }
    ensures size { IfErr result (λ e. e ≡ NumFault.Size) }
{
    match near_product(s, t) {
        Some(product) => Ok(product),
        None => far_product(s, t),
    }
}

#[inline(always)]
#[tactic(auto, unfolding(crate::specs::Carrying::row_mul))]
fn near_row_mul(v: &NarrowVec3, columns: &NarrowMat3) -> Option<NarrowVec3>
    ensures { IfSome result (λ w. row_mul_of intervals v.now columns.now ≡ Ok w) }
{
    let x = near_dot(v, &columns.x)?;
    let y = near_dot(v, &columns.y)?;
    let z = near_dot(v, &columns.z)?;
    Some(NarrowVec3 { x, y, z })
}

#[inline(always)]
#[tactic(auto, unfolding(crate::specs::Carrying::product))]
fn narrow_product(s: &NarrowMat3, t: &NarrowMat3) -> Option<NarrowMat3>
    ensures { IfSome result (λ p. product_of intervals s.now t.now ≡ Ok p) }
{
    let columns = t.transpose();
    let x = near_row_mul(&s.x, &columns)?;
    let y = near_row_mul(&s.y, &columns)?;
    let z = near_row_mul(&s.z, &columns)?;
    Some(NarrowMat3 { x, y, z })
}

#[inline(always)]
fn near_product(s: &Mat3, t: &Mat3) -> Option<Mat3>
    ensures { IfSome result (λ p. product_of intervals s.now t.now ≡ Ok p) }
{
    let product = narrow_product(&s.narrow()?, &t.narrow()?)?;
    Some(product.wide())
}

#[cold]
#[inline(never)]
#[tactic(auto, unfolding(crate::specs::Carrying::product))]
fn far_product(s: &Mat3, t: &Mat3) -> Result<Mat3, NumFault>
    ensures exact { result ≡ product_of intervals s.now t.now }
    ensures size { IfErr result (λ e. e ≡ NumFault.Size) }
{
    let columns = t.transpose();
    let x = row_mul(&s.x(), &columns)?;
    let y = row_mul(&s.y(), &columns)?;
    let z = row_mul(&s.z(), &columns)?;
    Ok(Mat3::new(x, y, z))
}

/// The entries on and above the diagonal of a product that is symmetric, from the columns of its
/// second factor, each a sum of three products. It is refused with `Size` exactly where one of these
/// is.
#[tactic(auto, using(crate::proofs::Enclosure::upper_product_encloses))]
pub fn upper_product(s: &Mat3, columns: &Mat3) -> Result<Sym3, NumFault>
    ensures exact { result ≡ upper_product_of intervals s.now columns.now }
    ensures encloses { IfOk result (EnclosesUpperProduct s.now columns.now) }
    ensures size { IfErr result (λ e. e ≡ NumFault.Size) }
{
    match near_upper_product(s, columns) {
        Some(product) => Ok(product),
        None => far_upper_product(s, columns),
    }
}

#[inline(always)]
#[tactic(auto, unfolding(crate::specs::Carrying::upper_product))]
fn narrow_upper_product(s: &NarrowMat3, columns: &NarrowMat3) -> Option<NarrowSym3>
    ensures { IfSome result (λ p. upper_product_of intervals s.now columns.now ≡ Ok p) }
{
    Some(NarrowSym3 {
        xx: near_dot(&s.x, &columns.x)?,
        xy: near_dot(&s.x, &columns.y)?,
        xz: near_dot(&s.x, &columns.z)?,
        yy: near_dot(&s.y, &columns.y)?,
        yz: near_dot(&s.y, &columns.z)?,
        zz: near_dot(&s.z, &columns.z)?,
    })
}

#[inline(always)]
fn near_upper_product(s: &Mat3, columns: &Mat3) -> Option<Sym3>
    ensures { IfSome result (λ p. upper_product_of intervals s.now columns.now ≡ Ok p) }
{
    let product = narrow_upper_product(&s.narrow()?, &columns.narrow()?)?;
    Some(product.wide())
}

#[cold]
#[inline(never)]
#[tactic(auto, unfolding(crate::specs::Carrying::upper_product))]
fn far_upper_product(s: &Mat3, columns: &Mat3) -> Result<Sym3, NumFault>
    ensures exact { result ≡ upper_product_of intervals s.now columns.now }
    ensures size { IfErr result (λ e. e ≡ NumFault.Size) }
{
    let xx = dot_three(&s.x(), &columns.x())?;
    let xy = dot_three(&s.x(), &columns.y())?;
    let xz = dot_three(&s.x(), &columns.z())?;
    let yy = dot_three(&s.y(), &columns.y())?;
    let yz = dot_three(&s.y(), &columns.z())?;
    let zz = dot_three(&s.z(), &columns.z())?;
    Ok(Sym3 {
        xx,
        xy,
        xz,
        yy,
        yz,
        zz,
    })
}

// b - v w
#[inline(always)]
fn less_dot(b: Iv, v: &Vec3, w: &Vec3) -> Result<Iv, NumFault>
    ensures exact { result ≡ iv_dot (less_pairs intervals b v.now w.now) }
    ensures size { IfErr result (λ e. e ≡ NumFault.Size) }
{
    dot(&[
        (b, Iv::ONE),
        (v.x().neg(), w.x()),
        (v.y().neg(), w.y()),
        (v.z().neg(), w.z()),
    ])
}

// b - v t, where v is a row and t has these columns.
#[tactic(auto, unfolding(crate::specs::Carrying::less_row))]
fn less_row(b: &Vec3, v: &Vec3, columns: &Mat3) -> Result<Vec3, NumFault>
    ensures exact { result ≡ less_row_of intervals b.now v.now columns.now }
    ensures size { IfErr result (λ e. e ≡ NumFault.Size) }
{
    let x = less_dot(b.x(), v, &columns.x())?;
    let y = less_dot(b.y(), v, &columns.y())?;
    let z = less_dot(b.z(), v, &columns.z())?;
    Ok(Vec3::new(x, y, z))
}

#[inline(always)]
#[tactic(auto, unfolding(crate::specs::Carrying::less_row))]
fn near_less_row(b: &NarrowVec3, v: &NarrowVec3, columns: &NarrowMat3) -> Option<NarrowVec3>
    ensures { IfSome result (λ w. less_row_of intervals b.now v.now columns.now ≡ Ok w) }
{
    let x = near_less_dot(b.x, v, &columns.x)?;
    let y = near_less_dot(b.y, v, &columns.y)?;
    let z = near_less_dot(b.z, v, &columns.z)?;
    Some(NarrowVec3 { x, y, z })
}

#[inline(always)]
#[tactic(auto, unfolding(crate::specs::Carrying::less_product))]
fn near_less_product(b: &NarrowMat3, a: &NarrowMat3, r: &NarrowMat3) -> Option<NarrowMat3>
    ensures { IfSome result (λ p. less_product_of intervals b.now a.now r.now ≡ Ok p) }
{
    let columns = r.transpose();
    let x = near_less_row(&b.x, &a.x, &columns)?;
    let y = near_less_row(&b.y, &a.y, &columns)?;
    let z = near_less_row(&b.z, &a.z, &columns)?;
    Some(NarrowMat3 { x, y, z })
}

// b - a r
#[tactic(auto, unfolding(crate::specs::Carrying::less_product))]
fn less_product(b: &Mat3, a: &Mat3, r: &Mat3) -> Result<Mat3, NumFault>
    ensures exact { result ≡ less_product_of intervals b.now a.now r.now }
    ensures size { IfErr result (λ e. e ≡ NumFault.Size) }
{
    let columns = r.transpose();
    let x = less_row(&b.x(), &a.x(), &columns)?;
    let y = less_row(&b.y(), &a.y(), &columns)?;
    let z = less_row(&b.z(), &a.z(), &columns)?;
    Ok(Mat3::new(x, y, z))
}

// c + u p - w q
#[inline(always)]
fn corrected(c: Iv, u: &Vec3, p: &Vec3, w: &Vec3, q: &Vec3) -> Result<Iv, NumFault>
    ensures exact { result ≡ corrected_of intervals c u.now p.now w.now q.now }
    ensures size { IfErr result (λ e. e ≡ NumFault.Size) }
{
    dot(&[
        (c, Iv::ONE),
        (u.x(), p.x()),
        (u.y(), p.y()),
        (u.z(), p.z()),
        (w.x().neg(), q.x()),
        (w.y().neg(), q.y()),
        (w.z().neg(), q.z()),
    ])
}

#[inline(always)]
#[tactic(auto, unfolding(crate::specs::Carrying::correct))]
fn near_correct(
    c: &NarrowSym3,
    r: &NarrowMat3,
    b: &NarrowMat3,
    b1: &NarrowMat3,
    columns: &NarrowMat3,
) -> Option<NarrowSym3>
    ensures { IfSome result (λ s. correct_of intervals c.now r.now b.now b1.now columns.now ≡ Ok s) }
{
    let xx = near_corrected(c.xx, &r.x, &b.x, &b1.x, &columns.x)?;
    let xy = near_corrected(c.xy, &r.x, &b.y, &b1.x, &columns.y)?;
    let xz = near_corrected(c.xz, &r.x, &b.z, &b1.x, &columns.z)?;
    let yy = near_corrected(c.yy, &r.y, &b.y, &b1.y, &columns.y)?;
    let yz = near_corrected(c.yz, &r.y, &b.z, &b1.y, &columns.z)?;
    let zz = near_corrected(c.zz, &r.z, &b.z, &b1.z, &columns.z)?;
    Some(NarrowSym3 {
        xx,
        xy,
        xz,
        yy,
        yz,
        zz,
    })
}

// c + r B - B1^T r on and above the diagonal: `b`, `b1` and `columns` have the columns of B, B1
// and `r`.
#[tactic(auto, unfolding(crate::specs::Carrying::correct))]
fn correct(c: &Sym3, r: &Mat3, b: &Mat3, b1: &Mat3, columns: &Mat3) -> Result<Sym3, NumFault>
    ensures exact { result ≡ correct_of intervals c.now r.now b.now b1.now columns.now }
    ensures size { IfErr result (λ e. e ≡ NumFault.Size) }
{
    let xx = corrected(c.xx, &r.x(), &b.x(), &b1.x(), &columns.x())?;
    let xy = corrected(c.xy, &r.x(), &b.y(), &b1.x(), &columns.y())?;
    let xz = corrected(c.xz, &r.x(), &b.z(), &b1.x(), &columns.z())?;
    let yy = corrected(c.yy, &r.y(), &b.y(), &b1.y(), &columns.y())?;
    let yz = corrected(c.yz, &r.y(), &b.z(), &b1.y(), &columns.z())?;
    let zz = corrected(c.zz, &r.z(), &b.z(), &b1.z(), &columns.z())?;
    Ok(Sym3 {
        xx,
        xy,
        xz,
        yy,
        yz,
        zz,
    })
}

// e^T (a e) for a symmetric a.
#[tactic(auto, unfolding(crate::specs::Carrying::turn_symmetric))]
fn turn_symmetric(e: &Mat3, a: &Sym3) -> Result<Sym3, NumFault>
    ensures exact { result ≡ turn_symmetric_of intervals e.now a.now }
    ensures size { IfErr result (λ e. e ≡ NumFault.Size) }
{
    let p = product(&a.full(), e)?;
    upper_product(&e.transpose(), &p.transpose())
}

#[inline(always)]
#[tactic(auto, unfolding(crate::specs::Carrying::turn_symmetric))]
fn near_turn_symmetric(e: &NarrowMat3, a: &NarrowSym3) -> Option<NarrowSym3>
    ensures { IfSome result (λ s. turn_symmetric_of intervals e.now a.now ≡ Ok s) }
{
    let p = narrow_product(&a.full(), e)?;
    narrow_upper_product(&e.transpose(), &p.transpose())
}

// e^T (b e)
#[tactic(auto, unfolding(crate::specs::Carrying::turn_table))]
fn turn_table(e: &Mat3, b: &Mat3) -> Result<Mat3, NumFault>
    ensures exact { result ≡ turn_table_of intervals e.now b.now }
    ensures size { IfErr result (λ e. e ≡ NumFault.Size) }
{
    let p = product(b, e)?;
    product(&e.transpose(), &p)
}

#[inline(always)]
#[tactic(auto, unfolding(crate::specs::Carrying::turn_table))]
fn near_turn_table(e: &NarrowMat3, b: &NarrowMat3) -> Option<NarrowMat3>
    ensures { IfSome result (λ p. turn_table_of intervals e.now b.now ≡ Ok p) }
{
    let p = narrow_product(b, e)?;
    narrow_product(&e.transpose(), &p)
}

/// The body's inertia in the parent: the table that takes a motion of the parent to the force
/// that the inertia needs there.
///
/// With the blocks turned to `a1 = e^T (a e)`, `b1 = e^T (b e)` and `c1 = e^T (c e)`, it has the
/// blocks `a1`, `b1 - a1 rx` and `c1 + rx (b1 - a1 rx) - b1^T rx`, where `rx` is the table of the
/// cross product with `r`. It is refused with `Size` exactly where one of its sums is.
#[tactic(auto, using(crate::proofs::Enclosure::carry_encloses))]
pub fn carry(x: &Place, i: &Inertia6) -> Result<Inertia6, NumFault>
    ensures exact { result ≡ carry_of intervals x.now i.now }
    ensures encloses { IfOk result (EnclosesCarry x.now i.now) }
    ensures size { IfErr result (λ e. e ≡ NumFault.Size) }
{
    match near_carry(x, i) {
        Some(carried) => Ok(carried),
        None => far_carry(x, i),
    }
}

#[inline(always)]
#[tactic(auto, unfolding(crate::specs::Carrying::carry))]
fn near_carry(x: &Place, i: &Inertia6) -> Option<Inertia6>
    ensures { IfSome result (λ c. carry_of intervals x.now i.now ≡ Ok c) }
{
    let e = x.e.narrow()?;
    let a = near_turn_symmetric(&e, &i.a.narrow()?)?;
    let b1 = near_turn_table(&e, &i.b.narrow()?)?;
    let c1 = near_turn_symmetric(&e, &i.c.narrow()?)?;
    let r = x.r.cross_table().narrow()?;
    let b = near_less_product(&b1, &a.full(), &r)?;
    let c = near_correct(&c1, &r, &b.transpose(), &b1.transpose(), &r.transpose())?;
    Some(Inertia6 {
        a: a.wide(),
        b: b.wide(),
        c: c.wide(),
    })
}

#[cold]
#[inline(never)]
#[tactic(auto, unfolding(crate::specs::Carrying::carry))]
fn far_carry(x: &Place, i: &Inertia6) -> Result<Inertia6, NumFault>
    ensures exact { result ≡ carry_of intervals x.now i.now }
    ensures size { IfErr result (λ e. e ≡ NumFault.Size) }
{
    let a = turn_symmetric(&x.e, &i.a)?;
    let b1 = turn_table(&x.e, &i.b)?;
    let c1 = turn_symmetric(&x.e, &i.c)?;
    let r = x.r.cross_table();
    let b = less_product(&b1, &a.full(), &r)?;
    let c = correct(&c1, &r, &b.transpose(), &b1.transpose(), &r.transpose())?;
    Ok(Inertia6 { a, b, c })
}
