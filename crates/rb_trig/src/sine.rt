ghost use Rattle.std.specs.Prelude.{◌≡◌, ℕ, ℤ, Some, codes, pos, ◌-◌, ◌≤◌, ◌^◌, ◌<◌, ◌<ℤ◌, ◌+◌, ◌↔◌, IfOk, IfSome, IsErr};
ghost use Rattle.rb_num.specs.declared.terms.TheConstants.{TERMS};
ghost use Rattle.rb_num.specs.Dot.{ProductsFit};
ghost use Rattle.rb_trig.specs.Short.{ShortNested};
ghost use Rattle.rb_trig.specs.Sine.{scale, divisor as divisor_of, nested as nested_of, step as step_of, square_of, IsSquare, IsAngle, sines, cosines, sin_cos_of, Encloses};

use crate::dividers::divider;
use crate::ends::{clamp, outward, products, squares};
use crate::scale::{outward_by_scale, outward_by_small, part_down, part_up};
use rb_num::{Iv, S, TERMS};
use std::error::Error;
use std::fmt;

/// The largest size of an angle, in units: eight radians.
pub const ANGLE_LIMIT: i128 = 8 * S;

/// The nested products count parts of one in this number.
pub const T: i128 = 10_000_000_000_000_000;

/// An end of the angle is larger in size than `ANGLE_LIMIT`.
#[derive(Clone, Copy, Debug, PartialEq, Eq)]
pub struct AngleRange;

impl fmt::Display for AngleRange {
    ghost output = { λ _. Some (codes "AngleRange") };

    fn fmt<W: fmt::Write>(&self, f: &mut fmt::Formatter<W>) -> fmt::Result {
        f.write_str("AngleRange")
    }
}

impl Error for AngleRange {}

// The series of the sine and that of the cosine.
#[derive(Clone, Copy)]
pub enum Series {
    Sine,
    Cosine,
}

impl Series {
    // What the term before the term `k` is divided by, once it is taken times the square of the
    // angle.
    fn divisor(self, k: u64) -> i128
        requires low { 1 ≤ k }
        requires high { k < 2 ^ 30 }
        ensures { result ≡ pos (divisor_of self k) }
    {
        let twice = 2 * i128::from(k);
        match self {
            Series::Sine => twice * (twice + 1),
            Series::Cosine => (twice - 1) * twice,
        }
    }

    // A step of the nested products in 64 bits, to the term `k`: `None` where an end would be negative.
    #[inline(always)]
    fn turned(self, square: Iv, k: u64, lo: u64, hi: u64) -> Option<(u64, u64)>
        requires square { IsSquare square }
        requires low { 1 ≤ k }
        requires high { k ≤ TERMS }
        requires ordered { lo ≤ hi }
        requires within { hi ≤ scale }
        ensures nested { (terms : ℕ) → k < terms → ShortNested self square terms (k + 1) lo hi → IfSome result (λ ends. ShortNested self square terms k ends.0 ends.1) }
        ensures ordered { IfSome result (λ ends. ends.0 ≤ ends.1) }
        ensures within { IfSome result (λ ends. ends.1 ≤ scale) }
    {
        let (by, reciprocal) = divider(self, k);
        let least = part_down(square.lo() as u64, lo, by, reciprocal);
        let greatest = part_up(square.hi() as u64, hi, by, reciprocal);
        if (T as u64) < greatest {
            None
        } else {
            Some((T as u64 - greatest, T as u64 - least))
        }
    }

    // Where the nested products of `TERMS` terms and those of one more meet, from the last term down: the
    // term, and the ends of both.
    #[inline(always)]
    fn meeting(self, square: Iv) -> Option<(u64, u64, u64)>
        requires square { IsSquare square }
        ensures few { IfSome result (λ met. ShortNested self square TERMS met.0 met.1 met.2) }
        ensures more { IfSome result (λ met. ShortNested self square (TERMS + 1) met.0 met.1 met.2) }
        ensures last { IfSome result (λ met. met.0 ≤ TERMS) }
    {
        let (mut few_lo, mut few_hi) = (T as u64, T as u64);
        let (mut lo, mut hi) = self.turned(square, TERMS, few_lo, few_hi)?;
        for k in (1..TERMS).rev() {
            (few_lo, few_hi) = self.turned(square, k, few_lo, few_hi)?;
            (lo, hi) = self.turned(square, k, lo, hi)?;
            if few_lo == lo && few_hi == hi {
                return Some((k, lo, hi));
            }
        }
        None
    }

    // The nested products from the term `last` down to the first one with a negative end, in 64 bits; and
    // the term before that.
    #[inline(always)]
    fn short_nested(self, square: Iv, terms: u64, last: u64, lo: u64, hi: u64) -> (u64, Iv)
        requires square { IsSquare square }
        requires few { terms ≤ TERMS + 1 }
        requires within { last ≤ terms }
        requires nested { ShortNested self square terms last lo hi }
        ensures some { 1 ≤ result.0 }
        ensures few { result.0 ≤ last }
        ensures value { result.1 ≡ nested_of self square result.0 (terms - result.0) }
    {
        let (mut lo, mut hi) = (lo, hi);
        for k in (1..last).rev() {
            match self.turned(square, k, lo, hi) {
                Some(ends) => (lo, hi) = ends,
                None => return (k + 1, Iv::new(lo as i128, hi as i128)),
            }
        }
        (1, Iv::new(lo as i128, hi as i128))
    }

    // The sum of this many terms, by nested products, of which those from the term `last` on are known; the
    // sine's is without its first factor, the angle. The square of the angle and the result count parts of
    // `T`.
    #[inline(always)]
    fn nested(self, square: Iv, terms: u64, last: u64, lo: u64, hi: u64) -> Iv
        requires square { IsSquare square }
        requires few { terms ≤ TERMS + 1 }
        requires within { last ≤ terms }
        requires nested { ShortNested self square terms last lo hi }
        ensures { result ≡ nested_of self square 1 (terms - 1) }
    {
        let (last, start) = self.short_nested(square, terms, last, lo, hi);
        let mut sum = start;
        for k in (1..last).rev() {
            sum = step(square, sum, self.divisor(k));
        }
        sum
    }

    // The sums of `TERMS` terms and of one more. From where they meet they are one.
    #[inline(always)]
    fn both(self, square: Iv) -> (Iv, Iv)
        requires { IsSquare square }
        ensures few { result.0 ≡ nested_of self square 1 (TERMS - 1) }
        ensures more { result.1 ≡ nested_of self square 1 TERMS }
    {
        match self.meeting(square) {
            Some((last, lo, hi)) => {
                let sum = self.nested(square, TERMS, last, lo, hi);
                (sum, sum)
            }
            None => (
                self.nested(square, TERMS, TERMS, T as u64, T as u64),
                self.nested(square, TERMS + 1, TERMS + 1, T as u64, T as u64),
            ),
        }
    }
}

// One less the product of both, divided: a step of the nested products.
#[inline(never)]
fn step(square: Iv, sum: Iv, divisor: i128) -> Iv
    requires fit { ProductsFit (square, sum) }
    requires low { pos 0 <ℤ divisor }
    requires high { divisor <ℤ pos (2 ^ 62) }
    ensures { result ≡ step_of square sum divisor }
{
    let whole = outward_by_scale(products(square, sum));
    let part = outward_by_small(whole, divisor);
    Iv::new(T - part.hi(), T - part.lo())
}

// The sine's sum of this many terms, by their nested products.
#[inline(always)]
fn sine(angle: Iv, square: Iv, terms: u64, nested: Iv) -> Iv
    requires angle { IsAngle angle }
    requires square { IsSquare square }
    requires nested { nested ≡ nested_of Series.Sine square 1 (terms - 1) }
    ensures { result ≡ sines angle square terms }
{
    outward_by_scale(products(angle, nested))
}

// The cosine's sum of this many terms, by their nested products.
#[inline(always)]
fn cosine(square: Iv, terms: u64, nested: Iv) -> Iv
    requires { nested ≡ nested_of Series.Cosine square 1 (terms - 1) }
    ensures { result ≡ cosines square terms }
{
    outward_by_small(nested, T / S)
}

// The square of the angle, in parts of `T`.
fn square(angle: Iv) -> Iv
    requires { IsAngle angle }
    ensures value { result ≡ square_of angle }
    ensures bounds { IsSquare result }
{
    outward(squares(angle), S * S / T)
}

/// The sines and the cosines of the angles, as two intervals from -1 to 1.
///
/// Each pair of fractions that goes with an angle in it lies in the two intervals: each of them is
/// the hull of the sums of two numbers of terms of its series, next to each other. It is refused
/// exactly where an end of the angle is larger in size than `ANGLE_LIMIT`.
pub fn sin_cos(angle: Iv) -> Result<(Iv, Iv), AngleRange>
    ensures exact { result ≡ sin_cos_of angle }
    ensures range { IsErr result ↔ ¬ IsAngle angle }
    ensures encloses { IfOk result (Encloses angle) }
{
    if angle.lo() < -ANGLE_LIMIT || ANGLE_LIMIT < angle.hi() {
        return Err(AngleRange);
    }
    let square = square(angle);
    let (few, more) = Series::Sine.both(square);
    let sines = sine(angle, square, TERMS, few).hull(sine(angle, square, TERMS + 1, more));
    let (few, more) = Series::Cosine.both(square);
    let cosines = cosine(square, TERMS, few).hull(cosine(square, TERMS + 1, more));
    Ok((clamp(sines), clamp(cosines)))
}
