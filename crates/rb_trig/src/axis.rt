ghost use Rattle.std.specs.Prelude.{◌≡◌, ◌*◌, ℤ, pos, ◌<ℤ◌, ◌≤ℤ◌, ◌*ℤ◌, IsTrue, ◌↔◌, IfOk, Some, Err};
ghost use Rattle.rb_num.specs.Interval.{IsWithin, interval, limit};
ghost use Rattle.rb_num.specs.Quotient.{HasZero};
ghost use Rattle.rb_trig.specs.Ends.{SquaresFit};
ghost use Rattle.rb_trig.specs.Axis.{floor_root as floor_root_of, ceil_root as ceil_root_of, factor as factor_of, IsLength, AxisFits, squared_length as squared_length_of, unit_scale_of, MakesUnit, fault_text};

use crate::ends::squares;
use rb_num::{B, Iv, S};
use std::error::Error;
use std::fmt;

/// Why an axis has no factor.
#[derive(Clone, Copy, Debug, PartialEq, Eq)]
pub enum AxisFault {
    /// The square of an end is larger than the limit `B`.
    Size,
    /// The axis may be zero.
    ZeroAxis,
}

impl AxisFault {
    /// The fault's name.
    pub fn word(self) -> &'static str
        ensures { result.now ≡ fault_text self }
    {
        match self {
            AxisFault::Size => "Size",
            AxisFault::ZeroAxis => "ZeroAxis",
        }
    }
}

impl fmt::Display for AxisFault {
    ghost output = { λ fault. Some (fault_text fault) };

    fn fmt<W: fmt::Write>(&self, f: &mut fmt::Formatter<W>) -> fmt::Result {
        f.write_str(self.word())
    }
}

impl Error for AxisFault {}

// Whether the square is within the limit.
fn square_fits(end: i128) -> bool
    ensures { IsTrue result ↔ IsWithin (end *ℤ end) }
{
    match end.checked_mul(end) {
        Some(square) => -B <= square && square <= B,
        None => false,
    }
}

// Whether the squares of both ends are within the limit.
fn squares_fit(v: Iv) -> bool
    ensures { IsTrue result ↔ SquaresFit v }
{
    square_fits(v.lo()) && square_fits(v.hi())
}

// Whether the squares of all ends are within the limit.
fn axis_fits(x: Iv, y: Iv, z: Iv) -> bool
    ensures { IsTrue result ↔ AxisFits x y z }
{
    squares_fit(x) && squares_fit(y) && squares_fit(z)
}

// The least and the greatest squared length.
fn squared_length(x: Iv, y: Iv, z: Iv) -> (i128, i128)
    requires { AxisFits x y z }
    ensures value { interval result.0 result.1 ≡ squared_length_of x y z }
    ensures low { pos 0 ≤ℤ result.0 }
    ensures ordered { result.0 ≤ℤ result.1 }
    ensures high { result.1 ≤ℤ pos (3 * limit) }
{
    let (x, y, z) = (squares(x), squares(y), squares(z));
    (x.lo() + y.lo() + z.lo(), x.hi() + y.hi() + z.hi())
}

// The root, rounded down.
fn floor_root(square: i128) -> i128
    requires { pos 0 ≤ℤ square }
    ensures { result ≡ pos (floor_root_of square) }
{
    square.isqrt()
}

// The root, rounded up.
fn ceil_root(square: i128) -> i128
    requires { pos 0 ≤ℤ square }
    ensures { result ≡ pos (ceil_root_of square) }
{
    let root = floor_root(square);
    if root * root < square {
        return root + 1;
    }
    root
}

// One divided by the roots of the least and the greatest squared length.
fn factor(least: i128, greatest: i128) -> Iv
    requires { IsLength (interval least greatest) }
    ensures { result ≡ factor_of (interval least greatest) }
{
    let lo = (S * S).div_euclid(ceil_root(greatest));
    let hi = -(-S * S).div_euclid(floor_root(least));
    Iv::new(lo, hi)
}

/// The factor that makes the axis one unit long: one divided by the root of its squared length.
///
/// It is refused with `Size` exactly where the square of an end is larger than `B`, and else with
/// `ZeroAxis` exactly where the least squared length is 0.
pub fn unit_scale(x: Iv, y: Iv, z: Iv) -> Result<Iv, AxisFault>
    ensures exact { result ≡ unit_scale_of x y z }
    ensures size { (result ≡ Err AxisFault.Size) ↔ ¬ AxisFits x y z }
    ensures zero { (result ≡ Err AxisFault.ZeroAxis) ↔ (AxisFits x y z × HasZero (squared_length_of x y z)) }
    ensures unit { IfOk result (MakesUnit x y z) }
{
    if !axis_fits(x, y, z) {
        return Err(AxisFault::Size);
    }
    let (least, greatest) = squared_length(x, y, z);
    if least == 0 {
        return Err(AxisFault::ZeroAxis);
    }
    Ok(factor(least, greatest))
}
