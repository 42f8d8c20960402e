ghost use Rattle.std.specs.Prelude.{◌≡◌, ℤ, pos, ◌≤ℤ◌, ◌*ℤ◌, ◌≤◌, ◌↔◌, IsTrue, IsSome, IfOk, IfErr, IfSome, OkIff, SomeIff, ◌≢◌, length, [], ◌∷◌, Result, Ok, Err};
ghost use Rattle.rb_num.specs.declared.interval.TheConstants.{MAX_PAIRS};
ghost use Rattle.rb_num.specs.Interval.{Interval, IsInterval, IsWithin, EndsFit, grid, interval, one_interval, sum_of, difference_of, negative_of};
ghost use Rattle.std.specs.Int.{int_min, int_max};
ghost use Rattle.rb_num.specs.Divisor.{IsDivisor};
ghost use Rattle.rb_num.specs.Narrow.{IsNarrow};
ghost use Rattle.rb_num.specs.Refusing.{iv_add, iv_sub, iv_div};
ghost use Rattle.rb_num.specs.Fraction.{EnclosesNegative, EnclosesSum, EnclosesDifference, EnclosesDot, EnclosesHull, EnclosesMeet, IsWithinBoth, EnclosesQuotient};
ghost use Rattle.rb_num.specs.Dot.{ProductsFit, DotFits, least_product, greatest_product, dot_of, iv_dot};
ghost use Rattle.rb_num.specs.Least.{IsLeast, HasSums, HasQuotients, HasBoth};
ghost use Rattle.rb_num.specs.Hull.{hull_of, meet_of, Meet, do_meet};
ghost use Rattle.rb_num.specs.Quotient.{HasZero, floor_quotient as floor_quotient_of, quotient_of, quotients_of, least_of, QuotientFits, IsQuotientFault};

use crate::narrow::{Ends, Narrow};
use crate::sums::Sums;
use std::marker::Model;

/// The grid: `S` units make one. Each end of an interval counts units.
pub const S: i128 = 1_000_000_000_000;

/// The limit, 2^120 units: no end of an interval, and no product on the way to one, is larger in
/// size.
pub const B: i128 = 1_329_227_995_784_915_872_903_807_060_280_344_576;

// No larger number times `S` is within the limit.
const SCALABLE: i128 = B / S;

// An interval is narrow where its ends are at most 2^60 units in size: a product of two such ends is
// never larger than `B`.
const NARROW: i128 = 1 << 60;

/// The greatest number of pairs of a sum of products: so many products of size `B` are summed without
/// loss.
pub const MAX_PAIRS: usize = 64;

/// Why an operation on intervals is refused.
#[derive(Clone, Copy, Debug, PartialEq, Eq)]
pub enum NumFault {
    /// An end, or a product on the way to it, is larger in size than the limit `B`.
    Size,
    /// Zero lies in the divisor.
    Zero,
}

/// An interval: the fractions `x` with `lo <= x * S <= hi`, ends included.
///
/// The ends are in order, and at most `B` in size. Each operation answers an interval in which the
/// results for all fractions in its arguments lie.
#[derive(Clone, Copy, Debug, PartialEq, Eq)]
pub struct Iv {
    lo: i128,
    hi: i128,
}

impl Model for Iv {
    ghost use Rattle.rb_num.specs.Interval.{Interval, IsInterval};

    ghost Value = { Interval };

    ghost view = { λ a. record { lo = a.lo; hi = a.hi } };

    ghost invariant = { λ a. IsInterval a.lo a.hi };

    ghost inverse = { λ v. record { lo = v.lo; hi = v.hi } };
}

#[inline]
fn is_within(z: i128) -> bool
    ensures { IsTrue result ↔ IsWithin z }
{
    -B <= z && z <= B
}

// The interval with these ends, where they are within the limit.
#[inline]
fn checked(lo: i128, hi: i128) -> Result<Iv, NumFault>
    requires { lo ≤ℤ hi }
    ensures exact { OkIff result (EndsFit (interval lo hi)) (interval lo hi) }
    ensures fault { IfErr result (λ e. e ≡ NumFault.Size) }
{
    if -B <= lo && hi <= B {
        Ok(Iv { lo, hi })
    } else {
        Err(NumFault::Size)
    }
}

// The product, where it is within the limit.
fn product(x: i128, y: i128) -> Result<i128, NumFault>
    ensures exact { OkIff result (IsWithin (x *ℤ y)) (x *ℤ y) }
    ensures fault { IfErr result (λ e. e ≡ NumFault.Size) }
{
    match x.checked_mul(y) {
        Some(z) if is_within(z) => Ok(z),
        _ => Err(NumFault::Size),
    }
}

// The end times `S`, where that is within the limit.
#[inline]
fn scaled(end: i128) -> Result<i128, NumFault>
    ensures exact { OkIff result (IsWithin (end *ℤ pos grid)) (end *ℤ pos grid) }
    ensures fault { IfErr result (λ e. e ≡ NumFault.Size) }
{
    if -SCALABLE <= end && end <= SCALABLE {
        Ok(end * S)
    } else {
        Err(NumFault::Size)
    }
}

fn least(a: i128, b: i128, c: i128, d: i128) -> i128
    ensures { result ≡ int_min (int_min a b) (int_min c d) }
{
    a.min(b).min(c.min(d))
}

fn greatest(a: i128, b: i128, c: i128, d: i128) -> i128
    ensures { result ≡ int_max (int_max a b) (int_max c d) }
{
    a.max(b).max(c.max(d))
}

// The least and the greatest product of an end of `a` and an end of `b`.
fn product_ends(a: Iv, b: Iv) -> Result<(i128, i128), NumFault>
    ensures exact { OkIff result (ProductsFit (a, b)) (least_product (a, b), greatest_product (a, b)) }
    ensures fault { IfErr result (λ e. e ≡ NumFault.Size) }
{
    let lo_lo = product(a.lo, b.lo)?;
    let lo_hi = product(a.lo, b.hi)?;
    let hi_lo = product(a.hi, b.lo)?;
    let hi_hi = product(a.hi, b.hi)?;
    Ok((
        least(lo_lo, lo_hi, hi_lo, hi_hi),
        greatest(lo_lo, lo_hi, hi_lo, hi_hi),
    ))
}

// `z / d`, rounded down.
#[tactic(auto, using(crate::proofs::Quotient::floor_within))]
fn floor_quotient(z: i128, d: i128) -> i128
    requires small { IsWithin z }
    requires small_divisor { IsWithin d }
    requires divisor { d ≢ pos 0 }
    ensures value { result ≡ floor_quotient_of z d }
    ensures within { IsWithin result }
{
    if 0 < d {
        z.div_euclid(d)
    } else {
        (-z).div_euclid(-d)
    }
}

// The least quotient of both numbers by both divisors, rounded down: the signs tell which it is.
fn least_quotient(low: i128, high: i128, by_low: i128, by_high: i128) -> i128
    requires small { IsWithin low × IsWithin high × IsWithin by_low × IsWithin by_high }
    requires ordered { low ≤ℤ high }
    requires sign { IsDivisor by_low by_high }
    ensures value { result ≡ least_of floor_quotient_of low high by_low by_high }
    ensures within { IsWithin result }
{
    let end = if 0 < by_low { low } else { high };
    let by = if end < 0 { by_low } else { by_high };
    floor_quotient(end, by)
}

// The quotients of both numbers by both divisors, rounded outwards.
fn quotients(low: i128, high: i128, by_low: i128, by_high: i128) -> Iv
    requires small { IsWithin low × IsWithin high × IsWithin by_low × IsWithin by_high }
    requires ordered { low ≤ℤ high }
    requires sign { IsDivisor by_low by_high }
    ensures { result ≡ quotients_of low high by_low by_high }
{
    let lo = least_quotient(low, high, by_low, by_high);
    let hi = -least_quotient(-high, -low, by_low, by_high);
    Iv { lo, hi }
}

// The same as `dot`, where all intervals are narrow and the sums are near: then no product is tested,
// and nothing is divided.
#[inline(always)]
fn narrow_dot(pairs: &[(Iv, Iv)]) -> Option<Iv>
    requires { length pairs.now ≤ MAX_PAIRS }
    ensures { IfSome result (λ v. iv_dot pairs.now ≡ Ok v) }
{
    let mut sums = Sums::none();
    for k in (0..pairs.len()).rev() {
        sums = sums.with(pairs[k].0.narrow()?, pairs[k].1.narrow()?);
    }
    Some(sums.sum()?.wide())
}

// The same as `dot`, for intervals of any size.
#[cold]
#[inline(never)]
fn wide_dot(pairs: &[(Iv, Iv)]) -> Result<Iv, NumFault>
    requires { length pairs.now ≤ MAX_PAIRS }
    ensures value { OkIff result (DotFits pairs.now) (dot_of pairs.now) }
    ensures fault { IfErr result (λ e. e ≡ NumFault.Size) }
{
    let mut low: i128 = 0;
    let mut high: i128 = 0;
    for pair in pairs {
        let (least, greatest) = product_ends(pair.0, pair.1)?;
        low += least;
        high += greatest;
    }
    Ok(Iv {
        lo: low.div_euclid(S),
        hi: -(-high).div_euclid(S),
    })
}

/// The sum of the products of the pairs, of which there are at most `MAX_PAIRS`.
///
/// With `L` the sum of each pair's least product of ends, and `H` that of the greatest, it is the
/// least interval with `lo * S <= L` and `hi * S >= H`: only the two sums are rounded. It is refused with `Size` exactly where a product of an end of a pair's first interval
/// and an end of its second is larger in size than `B`, and never with `Zero`.
#[inline(always)]
pub fn dot(pairs: &[(Iv, Iv)]) -> Result<Iv, NumFault>
    requires { length pairs.now ≤ MAX_PAIRS }
    ensures exact { result ≡ iv_dot pairs.now }
    ensures value { OkIff result (DotFits pairs.now) (dot_of pairs.now) }
    ensures least { IfOk result (IsLeast (HasSums pairs.now)) }
    ensures encloses { IfOk result (EnclosesDot pairs.now) }
    ensures fault { IfErr result (λ e. e ≡ NumFault.Size) }
{
    match narrow_dot(pairs) {
        Some(sum) => Ok(sum),
        None => wide_dot(pairs),
    }
}

// `a + m b`
#[inline(always)]
fn narrow_plus_product(a: Narrow, m: Narrow, b: Narrow) -> Option<Narrow>
    ensures { IfSome result (λ v. iv_dot ((a, one_interval) ∷ (m, b) ∷ []) ≡ Ok v) }
{
    Sums::none().with(m, b).plus(a).sum()
}

#[inline(always)]
fn near_plus_product(a: Iv, m: Iv, b: Iv) -> Option<Iv>
    ensures { IfSome result (λ v. iv_dot ((a, one_interval) ∷ (m, b) ∷ []) ≡ Ok v) }
{
    let sum = narrow_plus_product(a.narrow()?, m.narrow()?, b.narrow()?)?;
    Some(sum.wide())
}

#[cold]
#[inline(never)]
fn far_plus_product(a: Iv, m: Iv, b: Iv) -> Result<Iv, NumFault>
    ensures exact { result ≡ iv_dot ((a, one_interval) ∷ (m, b) ∷ []) }
    ensures fault { IfErr result (λ e. e ≡ NumFault.Size) }
{
    dot(&[(a, Iv::ONE), (m, b)])
}

impl Iv {
    /// Zero alone.
    pub const ZERO: Iv = Iv { lo: 0, hi: 0 };

    /// One alone.
    pub const ONE: Iv = Iv { lo: S, hi: S };

    /// The interval with these ends, in units.
    #[inline]
    pub fn new(lo: i128, hi: i128) -> Iv
        requires { IsInterval lo hi }
        ensures { result ≡ interval lo hi }
    {
        Iv { lo, hi }
    }

    /// The lower end, in units.
    #[inline]
    pub fn lo(self) -> i128
        ensures value { result ≡ self.lo }
        ensures bounds { IsInterval self.lo self.hi }
    {
        self.lo
    }

    /// The upper end, in units.
    #[inline]
    pub fn hi(self) -> i128
        ensures value { result ≡ self.hi }
        ensures bounds { IsInterval self.lo self.hi }
    {
        self.hi
    }

    /// The same interval, where its ends are at most 2^60 units in size.
    #[inline(always)]
    pub fn narrow(self) -> Option<Narrow>
        ensures { SomeIff result (IsNarrow self.lo self.hi) self }
    {
        if -NARROW <= self.lo && self.hi <= NARROW {
            Some(Narrow(Ends {
                lo: self.lo as i64,
                hi: self.hi as i64,
            }))
        } else {
            None
        }
    }

    /// The negatives. Nothing is rounded.
    #[inline]
    pub fn neg(self) -> Iv
        ensures exact { result ≡ negative_of self }
        ensures encloses { EnclosesNegative self result }
    {
        Iv {
            lo: -self.hi,
            hi: -self.lo,
        }
    }

    /// Whether zero lies in it.
    #[inline]
    pub fn has_zero(self) -> bool
        ensures { IsTrue result ↔ HasZero self }
    {
        self.lo <= 0 && 0 <= self.hi
    }

    /// The least interval in which both lie.
    #[inline]
    pub fn hull(self, other: Iv) -> Iv
        ensures exact { result ≡ hull_of self other }
        ensures least { IsLeast (HasBoth self other) result }
        ensures encloses { EnclosesHull self other result }
    {
        Iv {
            lo: self.lo.min(other.lo),
            hi: self.hi.max(other.hi),
        }
    }

    /// Whether some fraction lies in both.
    #[tactic(auto, using(crate::proofs::Refused::decides_meet), unfolding(crate::specs::Hull::do_meet))]
    #[inline]
    pub fn meets(self, other: Iv) -> bool
        ensures value { result ≡ do_meet self other }
        ensures meet { IsTrue result ↔ Meet self other }
    {
        self.lo <= other.hi && other.lo <= self.hi
    }

    /// The common part: `None` exactly where no fraction lies in both.
    #[inline]
    pub fn meet(self, other: Iv) -> Option<Iv>
        ensures exact { SomeIff result (Meet self other) (meet_of self other) }
        ensures within { IfSome result (IsWithinBoth self other) }
        ensures encloses { EnclosesMeet self other result }
    {
        if self.meets(other) {
            Some(Iv {
                lo: self.lo.max(other.lo),
                hi: self.hi.min(other.hi),
            })
        } else {
            None
        }
    }

    /// The quotients: the least interval in which the four exact quotients of ends lie.
    ///
    /// It is refused with `Zero` exactly where zero lies in `by`, and else with `Size` exactly where
    /// an end of `self` times `S` is larger in size than `B`.
    pub fn div(self, by: Iv) -> Result<Iv, NumFault>
        ensures exact { result ≡ iv_div self by }
        ensures value { OkIff result (QuotientFits self by) (quotient_of self by) }
        ensures least { IfOk result (IsLeast (HasQuotients self by)) }
        ensures encloses { IfOk result (EnclosesQuotient self by) }
        ensures zero { (result ≡ Err NumFault.Zero) ↔ HasZero by }
        ensures fault { IfErr result (IsQuotientFault by) }
    {
        if by.has_zero() {
            return Err(NumFault::Zero);
        }
        let low = scaled(self.lo)?;
        let high = scaled(self.hi)?;
        Ok(quotients(low, high, by.lo, by.hi))
    }

    /// The sums. Nothing is rounded.
    ///
    /// It is refused with `Size` exactly where an end of the sum is larger in size than `B`, and
    /// never with `Zero`.
    #[inline]
    pub fn add(self, other: Iv) -> Result<Iv, NumFault>
        ensures exact { result ≡ iv_add self other }
        ensures value { OkIff result (EndsFit (sum_of self other)) (sum_of self other) }
        ensures encloses { IfOk result (EnclosesSum self other) }
        ensures fault { IfErr result (λ e. e ≡ NumFault.Size) }
    {
        checked(self.lo + other.lo, self.hi + other.hi)
    }

    /// `self + m b`, the sum of two products as `dot` has it, of which one is by one: only the sum is rounded.
    ///
    /// It is refused with `Size` exactly where a product of an end of `m` and one of `b`, or an end of `self` times `S`, is larger in size than `B`, and
    /// never with `Zero`.
    #[inline]
    pub fn plus_product(self, m: Iv, b: Iv) -> Result<Iv, NumFault>
        ensures exact { result ≡ iv_dot ((self, one_interval) ∷ (m, b) ∷ []) }
        ensures fault { IfErr result (λ e. e ≡ NumFault.Size) }
    {
        match near_plus_product(self, m, b) {
            Some(sum) => Ok(sum),
            None => far_plus_product(self, m, b),
        }
    }

    /// The differences. Nothing is rounded.
    ///
    /// It is refused with `Size` exactly where an end of the difference is larger in size than `B`,
    /// and never with `Zero`.
    #[inline]
    pub fn sub(self, other: Iv) -> Result<Iv, NumFault>
        ensures exact { result ≡ iv_sub self other }
        ensures value { OkIff result (EndsFit (difference_of self other)) (difference_of self other) }
        ensures encloses { IfOk result (EnclosesDifference self other) }
        ensures fault { IfErr result (λ e. e ≡ NumFault.Size) }
    {
        checked(self.lo - other.hi, self.hi - other.lo)
    }
}
