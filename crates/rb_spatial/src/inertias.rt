ghost use Rattle.std.specs.Prelude.{◌≡◌, ◌<◌, Ok, IfOk, IfErr, IfSome};
ghost use Rattle.rb_num.specs.Arith.{intervals};
ghost use Rattle.rb_num.specs.Dot.{iv_dot};
ghost use Rattle.rb_frac.specs.Spatial.{entry as entry_of};
ghost use Rattle.rb_spatial.specs.Vectors.{symmetric_of};
ghost use Rattle.rb_spatial.specs.Inertias.{EnclosesEntry, EnclosesTable, EnclosesTimes, EnclosesTimesBody, EnclosesSum, EnclosesLessOuter};
ghost use Rattle.rb_spatial.specs.Motions.{six_pairs};
ghost use Rattle.rb_spatial.specs.Inertias.{body_force, body_moment};
ghost use Rattle.rb_spatial.specs.Inertias.{mul_both as mul_both_of, table as table_of_body, times as times_of};
ghost use Rattle.rb_spatial.specs.Inertias.{sum_table as sum_table_of, sum_symmetric as sum_symmetric_of, sum as sum_of};
ghost use Rattle.rb_spatial.specs.Inertias.{less as less_of, less_vector as less_vector_of, less_table as less_table_of, less_symmetric as less_symmetric_of, less_outer as less_outer_of};

use crate::motions::{Force, Motion, sum_vector};
use crate::narrow::{NarrowMat3, NarrowSym3, NarrowVec3};
use crate::near::{near_dots, near_less, near_three, near_three_back, near_turn, near_turn_back};
use crate::vectors::{Mat3, Sym3, Vec3};
use rb_num::{Iv, Narrow, NumFault, dot};
use std::marker::Model;

/// A body: its mass, its first moment (mass times centre), and its rotational inertia about the
/// origin in the order xx, xy, xz, yy, yz, zz.
#[derive(Clone, Copy, Debug, PartialEq, Eq)]
pub struct BodyInertia {
    pub mass: Iv,
    pub first: Vec3,
    pub six: [Iv; 6],
}

impl Model for BodyInertia {
    ghost use Rattle.std.specs.Prelude.{◌≡◌, List, length};
    ghost use Rattle.std.proofs.Common.{ap};
    ghost use Rattle.rb_num.specs.Interval.{Interval};
    ghost use Rattle.rb_frac.specs.Spatial as S;
    ghost use Rattle.rb_spatial.specs.Vectors.{symmetric_of, six_of, six_of-symmetric_of};

    ghost Value = { S.BodyInertia Interval };

    ghost view = { λ a. record { mass = a.mass; first = a.first; six = symmetric_of a.six } };

    ghost invariant = { λ a. length a.six ≡ 6 };

    ghost inverse = { λ v. record { mass = v.mass; first = v.first; six = six_of v.six } };

    ghost inverse_ok = { λ a h. ap (λ (l : List Interval). record { mass = a.mass; first = a.first; six = l }) (six_of-symmetric_of a.six h) };
}

impl BodyInertia {
    pub fn new(mass: Iv, first: Vec3, six: [Iv; 6]) -> BodyInertia
        ensures { result ≡ record { mass = mass; first = first; six = symmetric_of six } }
    {
        BodyInertia { mass, first, six }
    }

    /// The rotational inertia about the origin, as a table.
    pub fn rotational(&self) -> Sym3
        ensures { result ≡ self.now.six }
    {
        Sym3 {
            xx: self.six[0],
            xy: self.six[1],
            xz: self.six[2],
            yy: self.six[3],
            yz: self.six[4],
            zz: self.six[5],
        }
    }
}

/// A symmetric table of six rows, from motions to forces: `a` beside `b`, and under them the
/// transpose of `b` beside `c`.
#[derive(Clone, Copy, Debug, PartialEq, Eq)]
pub struct Inertia6 {
    pub a: Sym3,
    pub b: Mat3,
    pub c: Sym3,
}

impl Model for Inertia6 {
    ghost use Rattle.rb_num.specs.Interval.{Interval};
    ghost use Rattle.rb_frac.specs.Spatial.{Inertia};

    ghost Value = { Inertia Interval };

    ghost view = { λ i. record { a = i.a; b = i.b; c = i.c } };

    ghost inverse = { λ i. record { a = i.a; b = i.b; c = i.c } };
}

impl Inertia6 {
    /// The entry in row `r` and column `c`, from 0.
    #[tactic(auto, unfolding(rb_frac::specs::Spatial::entry))]
    pub fn get(&self, r: usize, c: usize) -> Iv
        requires row { r < 6 }
        requires column { c < 6 }
        ensures exact { result ≡ entry_of self.now r c }
        ensures encloses { EnclosesEntry r c self.now result }
    {
        let row = match (r < 3, c < 3) {
            (true, true) => self.a.full().row(r),
            (true, false) => self.b.row(r),
            (false, true) => self.b.transpose().row(r - 3),
            (false, false) => self.c.full().row(r - 3),
        };
        if c < 3 {
            row.component(c)
        } else {
            row.component(c - 3)
        }
    }
}

/// The table of a body: the mass times the identity, minus the table of the cross product with
/// the first moment, and the rotational inertia.
#[tactic(auto, unfolding(crate::specs::Inertias::table))]
pub fn table(i: &BodyInertia) -> Inertia6
    ensures exact { result ≡ table_of_body intervals i.now }
    ensures encloses { EnclosesTable i.now result }
{
    Inertia6 {
        a: Sym3 {
            xx: i.mass,
            xy: Iv::ZERO,
            xz: Iv::ZERO,
            yy: i.mass,
            yz: Iv::ZERO,
            zz: i.mass,
        },
        b: i.first.cross_table().transpose(),
        c: i.rotational(),
    }
}

#[inline(always)]
fn dot_six(u: &Vec3, p: &Vec3, w: &Vec3, q: &Vec3) -> Result<Iv, NumFault>
    ensures exact { result ≡ iv_dot (six_pairs u.now p.now w.now q.now) }
    ensures size { IfErr result (λ e. e ≡ NumFault.Size) }
{
    dot(&[
        (u.x(), p.x()),
        (u.y(), p.y()),
        (u.z(), p.z()),
        (w.x(), q.x()),
        (w.y(), q.y()),
        (w.z(), q.z()),
    ])
}

#[tactic(auto, unfolding(crate::specs::Inertias::mul_both))]
fn mul_both(s: &Mat3, t: &Mat3, u: &Vec3, w: &Vec3) -> Result<Vec3, NumFault>
    ensures exact { result ≡ mul_both_of intervals s.now t.now u.now w.now }
    ensures size { IfErr result (λ e. e ≡ NumFault.Size) }
{
    let x = dot_six(&s.x(), u, &t.x(), w)?;
    let y = dot_six(&s.y(), u, &t.y(), w)?;
    let z = dot_six(&s.z(), u, &t.z(), w)?;
    Ok(Vec3::new(x, y, z))
}

/// The force of the motion: the table times the vector, a sum of six products for each part. It is
/// refused with `Size` exactly where one of these is.
#[tactic(auto, using(crate::proofs::Enclosure::times_encloses))]
pub fn times(i: &Inertia6, m: &Motion) -> Result<Force, NumFault>
    ensures exact { result ≡ times_of intervals i.now m.now }
    ensures encloses { IfOk result (EnclosesTimes i.now m.now) }
    ensures size { IfErr result (λ e. e ≡ NumFault.Size) }
{
    match near_times(i, m) {
        Some(force) => Ok(force),
        None => far_times(i, m),
    }
}

#[inline(always)]
#[tactic(auto, unfolding(crate::specs::Inertias::times, crate::specs::Inertias::mul_both))]
fn near_times(i: &Inertia6, m: &Motion) -> Option<Force>
    ensures { IfSome result (λ f. times_of intervals i.now m.now ≡ Ok f) }
{
    let (a, b, c) = (i.a.narrow()?.full(), i.b.narrow()?, i.c.narrow()?.full());
    let (u, w) = (m.lin.narrow()?, m.ang.narrow()?);
    let side = b.transpose();
    let x = near_dots(&a.x, &u, &b.x, &w)?;
    let y = near_dots(&a.y, &u, &b.y, &w)?;
    let z = near_dots(&a.z, &u, &b.z, &w)?;
    let lin = Vec3::new(x.wide(), y.wide(), z.wide());
    let x = near_dots(&side.x, &u, &c.x, &w)?;
    let y = near_dots(&side.y, &u, &c.y, &w)?;
    let z = near_dots(&side.z, &u, &c.z, &w)?;
    let ang = Vec3::new(x.wide(), y.wide(), z.wide());
    Some(Force { lin, ang })
}

#[cold]
#[inline(never)]
#[tactic(auto, unfolding(crate::specs::Inertias::times))]
fn far_times(i: &Inertia6, m: &Motion) -> Result<Force, NumFault>
    ensures exact { result ≡ times_of intervals i.now m.now }
    ensures size { IfErr result (λ e. e ≡ NumFault.Size) }
{
    let lin = mul_both(&i.a.full(), &i.b, &m.lin, &m.ang)?;
    let ang = mul_both(&i.b.transpose(), &i.c.full(), &m.lin, &m.ang)?;
    Ok(Force { lin, ang })
}

/// The force of a body's inertia at a motion, as `times` of its table has it: without the products
/// of the zeros there, a sum of three products for each linear part and of five for each angular one.
#[tactic(auto, using(crate::proofs::Enclosure::times_body_encloses))]
pub fn times_body(i: &BodyInertia, m: &Motion) -> Result<Force, NumFault>
    ensures exact { result ≡ times_of intervals (table_of_body intervals i.now) m.now }
    ensures encloses { IfOk result (EnclosesTimesBody i.now m.now) }
    ensures size { IfErr result (λ e. e ≡ NumFault.Size) }
{
    match near_times_body(i, m) {
        Some(force) => Ok(force),
        None => far_times_body(i, m),
    }
}

#[inline(always)]
#[tactic(auto, unfolding(crate::specs::Inertias::body_force))]
fn near_body_force(i: &BodyInertia, m: &Motion) -> Option<Vec3>
    ensures { IfSome result (λ f. body_force intervals i.now m.now ≡ Ok f) }
{
    let (mass, h) = (i.mass.narrow()?, i.first.narrow()?);
    let (u, w) = (m.lin.narrow()?, m.ang.narrow()?);
    let x = near_three(mass, u.x, h.z, w.y, h.y, w.z)?;
    let y = near_three_back(mass, u.y, h.z, w.x, h.x, w.z)?;
    let z = near_three(mass, u.z, h.y, w.x, h.x, w.y)?;
    Some(Vec3::new(x.wide(), y.wide(), z.wide()))
}

#[inline(always)]
#[tactic(auto, unfolding(crate::specs::Inertias::body_moment))]
fn near_body_moment(i: &BodyInertia, m: &Motion) -> Option<Vec3>
    ensures { IfSome result (λ n. body_moment intervals i.now m.now ≡ Ok n) }
{
    let (h, six) = (i.first.narrow()?, i.rotational().narrow()?.full());
    let (u, w) = (m.lin.narrow()?, m.ang.narrow()?);
    let x = near_turn_back(h.z, u.y, h.y, u.z, &six.x, &w)?;
    let y = near_turn(h.z, u.x, h.x, u.z, &six.y, &w)?;
    let z = near_turn_back(h.y, u.x, h.x, u.y, &six.z, &w)?;
    Some(Vec3::new(x.wide(), y.wide(), z.wide()))
}

#[inline(always)]
fn near_times_body(i: &BodyInertia, m: &Motion) -> Option<Force>
    ensures { IfSome result (λ f. times_of intervals (table_of_body intervals i.now) m.now ≡ Ok f) }
{
    let lin = near_body_force(i, m)?;
    let ang = near_body_moment(i, m)?;
    Some(Force { lin, ang })
}

#[cold]
#[inline(never)]
fn far_times_body(i: &BodyInertia, m: &Motion) -> Result<Force, NumFault>
    ensures exact { result ≡ times_of intervals (table_of_body intervals i.now) m.now }
    ensures size { IfErr result (λ e. e ≡ NumFault.Size) }
{
    times(&table(i), m)
}

#[tactic(auto, unfolding(crate::specs::Inertias::sum_table))]
fn sum_table(s: &Mat3, t: &Mat3) -> Result<Mat3, NumFault>
    ensures exact { result ≡ sum_table_of intervals s.now t.now }
    ensures size { IfErr result (λ e. e ≡ NumFault.Size) }
{
    let x = sum_vector(&s.x(), &t.x())?;
    let y = sum_vector(&s.y(), &t.y())?;
    let z = sum_vector(&s.z(), &t.z())?;
    Ok(Mat3::new(x, y, z))
}

#[tactic(auto, unfolding(crate::specs::Inertias::sum_symmetric))]
fn sum_symmetric(s: &Sym3, t: &Sym3) -> Result<Sym3, NumFault>
    ensures exact { result ≡ sum_symmetric_of intervals s.now t.now }
    ensures size { IfErr result (λ e. e ≡ NumFault.Size) }
{
    let xx = s.xx.add(t.xx)?;
    let xy = s.xy.add(t.xy)?;
    let xz = s.xz.add(t.xz)?;
    let yy = s.yy.add(t.yy)?;
    let yz = s.yz.add(t.yz)?;
    let zz = s.zz.add(t.zz)?;
    Ok(Sym3 {
        xx,
        xy,
        xz,
        yy,
        yz,
        zz,
    })
}

/// The sum, entry by entry. It is refused with `Size` exactly where one of the entries is.
#[tactic(auto, unfolding(crate::specs::Inertias::sum))]
pub fn sum(a: &Inertia6, b: &Inertia6) -> Result<Inertia6, NumFault>
    ensures exact { result ≡ sum_of intervals a.now b.now }
    ensures encloses { IfOk result (EnclosesSum a.now b.now) }
    ensures size { IfErr result (λ e. e ≡ NumFault.Size) }
{
    let top = sum_symmetric(&a.a, &b.a)?;
    let side = sum_table(&a.b, &b.b)?;
    let end = sum_symmetric(&a.c, &b.c)?;
    Ok(Inertia6 {
        a: top,
        b: side,
        c: end,
    })
}

// i - u w
#[inline(always)]
fn less(i: Iv, u: Iv, w: Iv) -> Result<Iv, NumFault>
    ensures exact { result ≡ less_of intervals i u w }
    ensures size { IfErr result (λ e. e ≡ NumFault.Size) }
{
    dot(&[(i, Iv::ONE), (u.neg(), w)])
}

#[tactic(auto, unfolding(crate::specs::Inertias::less_vector))]
fn less_vector(i: &Vec3, u: Iv, w: &Vec3) -> Result<Vec3, NumFault>
    ensures exact { result ≡ less_vector_of intervals i.now u w.now }
    ensures size { IfErr result (λ e. e ≡ NumFault.Size) }
{
    let x = less(i.x(), u, w.x())?;
    let y = less(i.y(), u, w.y())?;
    let z = less(i.z(), u, w.z())?;
    Ok(Vec3::new(x, y, z))
}

#[tactic(auto, unfolding(crate::specs::Inertias::less_table))]
fn less_table(i: &Mat3, u: &Vec3, w: &Vec3) -> Result<Mat3, NumFault>
    ensures exact { result ≡ less_table_of intervals i.now u.now w.now }
    ensures size { IfErr result (λ e. e ≡ NumFault.Size) }
{
    let x = less_vector(&i.x(), u.x(), w)?;
    let y = less_vector(&i.y(), u.y(), w)?;
    let z = less_vector(&i.z(), u.z(), w)?;
    Ok(Mat3::new(x, y, z))
}

#[tactic(auto, unfolding(crate::specs::Inertias::less_symmetric))]
fn less_symmetric(i: &Sym3, u: &Vec3, w: &Vec3) -> Result<Sym3, NumFault>
    ensures exact { result ≡ less_symmetric_of intervals i.now u.now w.now }
    ensures size { IfErr result (λ e. e ≡ NumFault.Size) }
{
    let xx = less(i.xx, u.x(), w.x())?;
    let xy = less(i.xy, u.x(), w.y())?;
    let xz = less(i.xz, u.x(), w.z())?;
    let yy = less(i.yy, u.y(), w.y())?;
    let yz = less(i.yz, u.y(), w.z())?;
    let zz = less(i.zz, u.z(), w.z())?;
    Ok(Sym3 {
        xx,
        xy,
        xz,
        yy,
        yz,
        zz,
    })
}

#[inline(always)]
#[tactic(auto, unfolding(crate::specs::Inertias::less_vector))]
fn near_less_vector(i: &NarrowVec3, u: Narrow, w: &NarrowVec3) -> Option<NarrowVec3>
    ensures { IfSome result (λ v. less_vector_of intervals i.now u w.now ≡ Ok v) }
{
    let x = near_less(i.x, u, w.x)?;
    let y = near_less(i.y, u, w.y)?;
    let z = near_less(i.z, u, w.z)?;
    Some(NarrowVec3 { x, y, z })
}

#[inline(always)]
#[tactic(auto, unfolding(crate::specs::Inertias::less_table))]
fn near_less_table(i: &NarrowMat3, u: &NarrowVec3, w: &NarrowVec3) -> Option<NarrowMat3>
    ensures { IfSome result (λ t. less_table_of intervals i.now u.now w.now ≡ Ok t) }
{
    let x = near_less_vector(&i.x, u.x, w)?;
    let y = near_less_vector(&i.y, u.y, w)?;
    let z = near_less_vector(&i.z, u.z, w)?;
    Some(NarrowMat3 { x, y, z })
}

#[inline(always)]
#[tactic(auto, unfolding(crate::specs::Inertias::less_symmetric))]
fn near_less_symmetric(i: &NarrowSym3, u: &NarrowVec3, w: &NarrowVec3) -> Option<NarrowSym3>
    ensures { IfSome result (λ s. less_symmetric_of intervals i.now u.now w.now ≡ Ok s) }
{
    let xx = near_less(i.xx, u.x, w.x)?;
    let xy = near_less(i.xy, u.x, w.y)?;
    let xz = near_less(i.xz, u.x, w.z)?;
    let yy = near_less(i.yy, u.y, w.y)?;
    let yz = near_less(i.yz, u.y, w.z)?;
    let zz = near_less(i.zz, u.z, w.z)?;
    Some(NarrowSym3 {
        xx,
        xy,
        xz,
        yy,
        yz,
        zz,
    })
}

#[inline(always)]
#[tactic(auto, unfolding(crate::specs::Inertias::less_outer))]
fn near_less_outer(i: &Inertia6, u: &Force, w: &Force) -> Option<Inertia6>
    ensures { IfSome result (λ r. less_outer_of intervals i.now u.now w.now ≡ Ok r) }
{
    let (u, n) = (u.lin.narrow()?, u.ang.narrow()?);
    let (w, m) = (w.lin.narrow()?, w.ang.narrow()?);
    let a = near_less_symmetric(&i.a.narrow()?, &u, &w)?;
    let b = near_less_table(&i.b.narrow()?, &u, &m)?;
    let c = near_less_symmetric(&i.c.narrow()?, &n, &m)?;
    Some(Inertia6 {
        a: a.wide(),
        b: b.wide(),
        c: c.wide(),
    })
}

#[cold]
#[inline(never)]
#[tactic(auto, unfolding(crate::specs::Inertias::less_outer))]
fn far_less_outer(i: &Inertia6, u: &Force, w: &Force) -> Result<Inertia6, NumFault>
    ensures exact { result ≡ less_outer_of intervals i.now u.now w.now }
    ensures size { IfErr result (λ e. e ≡ NumFault.Size) }
{
    let a = less_symmetric(&i.a, &u.lin, &w.lin)?;
    let b = less_table(&i.b, &u.lin, &w.ang)?;
    let c = less_symmetric(&i.c, &u.ang, &w.ang)?;
    Ok(Inertia6 { a, b, c })
}

/// The table less the outer product of `u` and `w`, of which the entries on and above the
/// diagonal are taken. It is refused with `Size` exactly where one of these is.
#[tactic(auto, using(crate::proofs::Enclosure::less_outer_encloses))]
pub fn less_outer(i: &Inertia6, u: &Force, w: &Force) -> Result<Inertia6, NumFault>
    ensures exact { result ≡ less_outer_of intervals i.now u.now w.now }
    ensures encloses { IfOk result (EnclosesLessOuter i.now u.now w.now) }
    ensures size { IfErr result (λ e. e ≡ NumFault.Size) }
{
    match near_less_outer(i, u, w) {
        Some(rest) => Ok(rest),
        None => far_less_outer(i, u, w),
    }
}
