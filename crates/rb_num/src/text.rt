//! The texts of intervals and of faults.
ghost use Rattle.std.specs.Prelude.{◌≡◌, Some};
ghost use Rattle.std.specs.Fmt.{DisplaysOnOk};
ghost use Rattle.rb_num.specs.Text.{minus_text, end_text, iv_text, fault_text};

use crate::interval::{Iv, NumFault, S};
use std::error::Error;
use std::fmt;

// A minus where the number is negative.
fn minus(number: i128) -> &'static str
    ensures { result.now ≡ minus_text number }
{
    if number < 0 { "-" } else { "" }
}

// Writes an end, in units: a minus where it is negative, the whole part, a point and twelve digits.
fn write_end<W: fmt::Write>(end: i128, f: &mut fmt::Formatter<W>) -> fmt::Result
    ensures { DisplaysOnOk W.write_str_gives f.old result (Some (end_text end)) f.new }
{
    let sign = minus(end);
    let size = end.unsigned_abs();
    let ones = size / S as u128;
    let units = (size % S as u128) as u64;
    write!(f, "{sign}{ones}.{units:012}")
}

/// The lower end, two points and the upper end. Each end is a minus where it is negative, the whole part
/// without leading zeros, a point and twelve digits, so nothing is rounded.
impl fmt::Display for Iv {
    ghost output = { λ v. Some (iv_text v) };

    #[tactic(auto, unfolding(crate::specs::Text::iv_text))]
    fn fmt<W: fmt::Write>(&self, f: &mut fmt::Formatter<W>) -> fmt::Result {
        write_end(self.lo(), f)?;
        f.write_str("..")?;
        write_end(self.hi(), f)
    }
}

impl NumFault {
    /// The fault's name.
    pub fn word(self) -> &'static str
        ensures { result.now ≡ fault_text self }
    {
        match self {
            NumFault::Size => "Size",
            NumFault::Zero => "Zero",
        }
    }
}

impl fmt::Display for NumFault {
    ghost output = { λ fault. Some (fault_text fault) };

    fn fmt<W: fmt::Write>(&self, f: &mut fmt::Formatter<W>) -> fmt::Result {
        f.write_str(self.word())
    }
}

impl Error for NumFault {}
