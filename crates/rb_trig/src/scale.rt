//! Quotients by the scale of the nested products, by what their steps divide by, and by small numbers.
ghost use Rattle.std.specs.Prelude.{◌≡◌, ◌*◌, ◌/◌, ◌<◌, ◌≤◌, ◌^◌, pos, neg_ℤ, ◌≤ℤ◌, ◌<ℤ◌, IfSome};
ghost use Rattle.rb_num.specs.Interval.{interval};
ghost use Rattle.rb_num.specs.Dot.{floor_of, ceil_of};
ghost use Rattle.rb_trig.specs.Ends.{outward as outward_of};
ghost use Rattle.rb_trig.specs.Sine.{scale};

use crate::ends::outward;
use crate::sine::T;
use rb_num::{Divisor, Iv};

// Ends from 0 up to below 2^60 are divided in 64 bits.
const SHORT: i128 = 1 << 60;

// Division by the scale.
const BY_SCALE: Divisor = Divisor {
    by: T as u64,
    shift: 51,
    reciprocal: 16_615_349_947_311_448_411,
};

// Both ends divided by `T`, the lower rounded down and the upper up.
#[inline]
pub fn outward_by_scale(v: Iv) -> Iv
    ensures { result ≡ outward_of v (pos scale) }
{
    match (BY_SCALE.rounded_down(v.lo()), BY_SCALE.rounded_up(v.hi())) {
        (Some(lo), Some(hi)) => Iv::new(lo, hi),
        _ => outward(v, T),
    }
}

// `x / by`, rounded up.
#[inline]
fn quotient_up(x: u64, by: u64) -> u64
    requires { 0 < by }
    ensures { pos result ≡ ceil_of (pos x) by }
{
    if x == 0 { 0 } else { (x - 1) / by + 1 }
}

// Both ends divided, the lower rounded down and the upper up.
#[inline]
fn short_outward(lo: u64, hi: u64, by: u64) -> Iv
    requires ordered { lo ≤ hi }
    requires small { hi < 2 ^ 60 }
    requires positive { 0 < by }
    ensures { result ≡ outward_of (interval (pos lo) (pos hi)) (pos by) }
{
    Iv::new((lo / by) as i128, quotient_up(hi, by) as i128)
}

// `x / (2^16 * by)`, rounded down, where `reciprocal` is `2^101 / by`.
#[inline]
fn part(x: u128, by: u64, reciprocal: u64) -> u64
    requires small { x < 2 ^ 113 }
    requires low { 2 ^ 37 ≤ by }
    requires high { by < 2 ^ 63 }
    requires reciprocal { reciprocal ≡ 2 ^ 101 / by }
    ensures { result ≡ x / (2 ^ 16 * by) }
{
    let divisor = Divisor {
        by,
        shift: 35,
        reciprocal,
    };
    divisor.quotient(x >> 16)
}

// `u * h / (2^16 * by)`, rounded down.
#[inline]
pub fn part_down(u: u64, h: u64, by: u64, reciprocal: u64) -> u64
    requires first { u ≤ 64 * scale }
    requires second { h ≤ scale }
    requires low { 2 ^ 37 ≤ by }
    requires high { by < 2 ^ 63 }
    requires reciprocal { reciprocal ≡ 2 ^ 101 / by }
    ensures { result ≡ u * h / (2 ^ 16 * by) }
{
    part(u as u128 * h as u128, by, reciprocal)
}

// `u * h / (2^16 * by)`, rounded up.
#[inline]
pub fn part_up(u: u64, h: u64, by: u64, reciprocal: u64) -> u64
    requires first { u ≤ 64 * scale }
    requires second { h ≤ scale }
    requires low { 2 ^ 37 ≤ by }
    requires high { by < 2 ^ 63 }
    requires reciprocal { reciprocal ≡ 2 ^ 101 / by }
    ensures { pos result ≡ ceil_of (pos (u * h)) (2 ^ 16 * by) }
{
    let x = u as u128 * h as u128;
    if x == 0 {
        0
    } else {
        part(x - 1, by, reciprocal) + 1
    }
}

// Both ends divided by `by`, the lower rounded down and the upper up: in 64 bits, where they fit and are
// not negative.
#[inline]
pub fn outward_by_small(v: Iv, by: i128) -> Iv
    requires low { pos 0 <ℤ by }
    requires high { by <ℤ pos (2 ^ 62) }
    ensures { result ≡ outward_of v by }
{
    let (lo, hi) = (v.lo(), v.hi());
    if 0 <= lo && hi < SHORT {
        short_outward(lo as u64, hi as u64, by as u64)
    } else {
        outward(v, by)
    }
}
