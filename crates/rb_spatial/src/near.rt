//! Sums of products where all intervals are narrow. `None` says no more than that `dot` has to find the sum.
ghost use Rattle.std.specs.Prelude.{◌≡◌, [], ◌∷◌, Ok, IfSome};
ghost use Rattle.rb_num.specs.Interval.{negative_of, one_interval};
ghost use Rattle.rb_num.specs.Dot.{iv_dot};
ghost use Rattle.rb_num.specs.Arith.{intervals};
ghost use Rattle.rb_spatial.specs.Motions.{pairs, six_pairs};
ghost use Rattle.rb_spatial.specs.Inertias.{less};
ghost use Rattle.rb_spatial.specs.Carrying.{less_pairs, corrected};

use crate::narrow::NarrowVec3;
use rb_num::{Narrow, Sums};

/// `p q`, where the product is near: `None` says no more than that `dot` has to find it.
#[inline(always)]
pub fn near_one(p: Narrow, q: Narrow) -> Option<Narrow>
    ensures { IfSome result (λ v. iv_dot ((p, q) ∷ []) ≡ Ok v) }
{
    Sums::none().with(p, q).sum()
}

/// `p q - r s`
#[inline(always)]
pub(crate) fn near_two(p: Narrow, q: Narrow, r: Narrow, s: Narrow) -> Option<Narrow>
    ensures { IfSome result (λ v. iv_dot ((p, q) ∷ (negative_of r, s) ∷ []) ≡ Ok v) }
{
    Sums::none().less(r, s).with(p, q).sum()
}

/// `p q - r s + t u - v w`
#[inline(always)]
pub(crate) fn near_four(
    p: Narrow,
    q: Narrow,
    r: Narrow,
    s: Narrow,
    t: Narrow,
    u: Narrow,
    v: Narrow,
    w: Narrow,
) -> Option<Narrow>
    ensures { IfSome result (λ x. iv_dot ((p, q) ∷ (negative_of r, s) ∷ (t, u) ∷ (negative_of v, w) ∷ []) ≡ Ok x) }
{
    Sums::none()
        .less(v, w)
        .with(t, u)
        .less(r, s)
        .with(p, q)
        .sum()
}

/// `u w`, where the sum is near: `None` says no more than that `dot` has to find it.
#[inline(always)]
pub fn near_dot(u: &NarrowVec3, w: &NarrowVec3) -> Option<Narrow>
    ensures { IfSome result (λ v. iv_dot (pairs u.now w.now) ≡ Ok v) }
{
    Sums::none()
        .with(u.z, w.z)
        .with(u.y, w.y)
        .with(u.x, w.x)
        .sum()
}

/// `u p + w q`
#[inline(always)]
pub(crate) fn near_dots(
    u: &NarrowVec3,
    p: &NarrowVec3,
    w: &NarrowVec3,
    q: &NarrowVec3,
) -> Option<Narrow>
    ensures { IfSome result (λ v. iv_dot (six_pairs u.now p.now w.now q.now) ≡ Ok v) }
{
    Sums::none()
        .with(w.z, q.z)
        .with(w.y, q.y)
        .with(w.x, q.x)
        .with(u.z, p.z)
        .with(u.y, p.y)
        .with(u.x, p.x)
        .sum()
}

/// `m l + p q - r s`
#[inline(always)]
pub(crate) fn near_three(
    m: Narrow,
    l: Narrow,
    p: Narrow,
    q: Narrow,
    r: Narrow,
    s: Narrow,
) -> Option<Narrow>
    ensures { IfSome result (λ v. iv_dot ((m, l) ∷ (p, q) ∷ (negative_of r, s) ∷ []) ≡ Ok v) }
{
    Sums::none().less(r, s).with(p, q).with(m, l).sum()
}

/// `n + p q - r s`
#[inline(always)]
pub(crate) fn near_plus_two(n: Narrow, p: Narrow, q: Narrow, r: Narrow, s: Narrow) -> Option<Narrow>
    ensures { IfSome result (λ v. iv_dot ((n, one_interval) ∷ (p, q) ∷ (negative_of r, s) ∷ []) ≡ Ok v) }
{
    Sums::none().less(r, s).with(p, q).plus(n).sum()
}

/// `m l - p q + r s`
#[inline(always)]
pub(crate) fn near_three_back(
    m: Narrow,
    l: Narrow,
    p: Narrow,
    q: Narrow,
    r: Narrow,
    s: Narrow,
) -> Option<Narrow>
    ensures { IfSome result (λ v. iv_dot ((m, l) ∷ (negative_of p, q) ∷ (r, s) ∷ []) ≡ Ok v) }
{
    Sums::none().with(r, s).less(p, q).with(m, l).sum()
}

/// `p q - r s + c w`
#[inline(always)]
pub(crate) fn near_turn(
    p: Narrow,
    q: Narrow,
    r: Narrow,
    s: Narrow,
    c: &NarrowVec3,
    w: &NarrowVec3,
) -> Option<Narrow>
    ensures { IfSome result (λ v. iv_dot ((p, q) ∷ (negative_of r, s) ∷ pairs c.now w.now) ≡ Ok v) }
{
    Sums::none()
        .with(c.z, w.z)
        .with(c.y, w.y)
        .with(c.x, w.x)
        .less(r, s)
        .with(p, q)
        .sum()
}

/// `- p q + r s + c w`
#[inline(always)]
pub(crate) fn near_turn_back(
    p: Narrow,
    q: Narrow,
    r: Narrow,
    s: Narrow,
    c: &NarrowVec3,
    w: &NarrowVec3,
) -> Option<Narrow>
    ensures { IfSome result (λ v. iv_dot ((negative_of p, q) ∷ (r, s) ∷ pairs c.now w.now) ≡ Ok v) }
{
    Sums::none()
        .with(c.z, w.z)
        .with(c.y, w.y)
        .with(c.x, w.x)
        .with(r, s)
        .less(p, q)
        .sum()
}

/// `i - u w`
#[inline(always)]
pub(crate) fn near_less(i: Narrow, u: Narrow, w: Narrow) -> Option<Narrow>
    ensures { IfSome result (λ v. less intervals i u w ≡ Ok v) }
{
    Sums::none().less(u, w).plus(i).sum()
}

/// `b - v w`
#[inline(always)]
pub(crate) fn near_less_dot(b: Narrow, v: &NarrowVec3, w: &NarrowVec3) -> Option<Narrow>
    ensures { IfSome result (λ r. iv_dot (less_pairs intervals b v.now w.now) ≡ Ok r) }
{
    Sums::none()
        .less(v.z, w.z)
        .less(v.y, w.y)
        .less(v.x, w.x)
        .plus(b)
        .sum()
}

/// `c + u p - w q`
#[inline(always)]
pub(crate) fn near_corrected(
    c: Narrow,
    u: &NarrowVec3,
    p: &NarrowVec3,
    w: &NarrowVec3,
    q: &NarrowVec3,
) -> Option<Narrow>
    ensures { IfSome result (λ v. corrected intervals c u.now p.now w.now q.now ≡ Ok v) }
{
    Sums::none()
        .less(w.z, q.z)
        .less(w.y, q.y)
        .less(w.x, q.x)
        .with(u.z, p.z)
        .with(u.y, p.y)
        .with(u.x, p.x)
        .plus(c)
        .sum()
}
