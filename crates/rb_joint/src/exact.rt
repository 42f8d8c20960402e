//! Products with zero, with one and with minus one, which are not rounded.
ghost use Rattle.std.specs.Prelude.{◌≡◌, ◌↔◌, [], ◌∷◌, Ok, IsTrue, IfSome, IfErr};
ghost use Rattle.rb_num.specs.Interval.{interval, one_interval};
ghost use Rattle.rb_num.specs.Narrow.{IsNarrow};
ghost use Rattle.rb_num.specs.Dot.{iv_dot};
ghost use Rattle.rb_joint.specs.Level.{IsNarrowVector};

use rb_num::{Iv, NumFault, S, dot};
use rb_spatial::{Vec3, near_one};

// Whether its product with one is within the limit.
#[inline(always)]
pub(crate) fn is_narrow(v: &Iv) -> bool
    ensures { IsTrue result ↔ IsNarrow v.now.lo v.now.hi }
{
    v.narrow().is_some()
}

#[inline(always)]
pub(crate) fn is_narrow_vector(v: &Vec3) -> bool
    ensures { IsTrue result ↔ IsNarrowVector v.now }
{
    is_narrow(&v.x()) && is_narrow(&v.y()) && is_narrow(&v.z())
}

// Whether both ends are so many units.
#[inline(always)]
pub(crate) fn is_exactly(v: &Iv, end: i128) -> bool
    ensures { IsTrue result ↔ (v.now ≡ interval end end) }
{
    v.lo() == end && v.hi() == end
}

#[inline(always)]
fn near_product(a: &Iv, b: &Iv) -> Option<Iv>
    ensures { IfSome result (λ v. iv_dot ((a.now, b.now) ∷ []) ≡ Ok v) }
{
    let product = near_one(a.narrow()?, b.narrow()?)?;
    Some(product.wide())
}

#[cold]
#[inline(never)]
fn far_product(a: &Iv, b: &Iv) -> Result<Iv, NumFault>
    ensures exact { result ≡ iv_dot ((a.now, b.now) ∷ []) }
    ensures size { IfErr result (λ e. e ≡ NumFault.Size) }
{
    dot(&[(*a, *b)])
}

// A product of two numbers.
#[inline(always)]
pub(crate) fn some_product(a: &Iv, b: &Iv) -> Result<Iv, NumFault>
    ensures exact { result ≡ iv_dot ((a.now, b.now) ∷ []) }
    ensures size { IfErr result (λ e. e ≡ NumFault.Size) }
{
    match near_product(a, b) {
        Some(x) => Ok(x),
        None => far_product(a, b),
    }
}

// A part of an axis, mostly zero, one or minus one, times a number.
#[inline(always)]
pub(crate) fn part_times(part: &Iv, x: &Iv) -> Result<Iv, NumFault>
    ensures exact { result ≡ iv_dot ((part.now, x.now) ∷ []) }
    ensures size { IfErr result (λ e. e ≡ NumFault.Size) }
{
    if is_exactly(part, 0) {
        Ok(Iv::ZERO)
    } else if is_exactly(part, S) && is_narrow(x) {
        Ok(*x)
    } else if is_exactly(part, -S) && is_narrow(x) {
        Ok(x.neg())
    } else {
        some_product(part, x)
    }
}

// A number times a part of an axis.
#[inline(always)]
pub(crate) fn times_part(x: &Iv, part: &Iv) -> Result<Iv, NumFault>
    ensures exact { result ≡ iv_dot ((x.now, part.now) ∷ []) }
    ensures size { IfErr result (λ e. e ≡ NumFault.Size) }
{
    part_times(part, x)
}

#[inline(always)]
pub(crate) fn times_one(x: &Iv) -> Result<Iv, NumFault>
    ensures exact { result ≡ iv_dot ((x.now, one_interval) ∷ []) }
    ensures size { IfErr result (λ e. e ≡ NumFault.Size) }
{
    if is_narrow(x) {
        Ok(*x)
    } else {
        far_product(x, &Iv::ONE)
    }
}
