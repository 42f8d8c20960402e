ghost use Rattle.std.specs.Prelude.{◌≡◌, None, Some, ◌≤◌, ◌*◌, ◌↔◌, IfOk, pos, neg_ℤ, if◌then◌else◌};
ghost use Rattle.std.specs.List.{AllPass};
ghost use Rattle.std.specs.Char.{is_ascii_digit};
ghost use Rattle.rb_num.specs.Interval.{interval, grid};
ghost use Rattle.rb_text.specs.Decimal.{decimal_from, exact_value, decimal_of, lower_of, upper_of};
ghost use Rattle.rb_text.specs.Range.{range_of};
ghost use Rattle.rb_text.specs.Bracket.{bracket_of, bracket_of_number, bracket_of_value, between as between_of, IsBracket, IsNumber, IsLargeNumber, IsBackwards};
ghost use Rattle.rb_text.specs.Print.{fault_text};
ghost use Rattle.rb_text.specs.declared.size.TheConstants.{LARGEST};

use crate::decimal::{Decimal, read_decimal, read_lower, read_upper};
use crate::range::split;
use crate::size::size_of;
use rb_num::Iv;
use std::error::Error;
use std::fmt;

/// Why a text has no bracket.
#[derive(Clone, Copy, Debug, PartialEq, Eq)]
pub enum TextFault {
    /// The text is neither a number nor a range.
    NotNumber,
    /// The size of a number is above `LARGEST`, 10^12.
    TooLarge,
    /// An end of the first number's bracket is above that of the second's.
    Backwards,
}

impl TextFault {
    /// The fault's name.
    pub fn word(self) -> &'static str
        ensures { result.now ≡ fault_text self }
    {
        match self {
            TextFault::NotNumber => "NotNumber",
            TextFault::TooLarge => "TooLarge",
            TextFault::Backwards => "Backwards",
        }
    }
}

impl fmt::Display for TextFault {
    ghost output = { λ fault. Some (fault_text fault) };

    fn fmt<W: fmt::Write>(&self, f: &mut fmt::Formatter<W>) -> fmt::Result {
        f.write_str(self.word())
    }
}

impl Error for TextFault {}

// The interval of the numbers of these sizes.
fn signed(negative: bool, low: u128, high: u128) -> Iv
    requires ordered { low ≤ high }
    requires small { high ≤ LARGEST * grid }
    ensures { result ≡
        (if negative then interval (neg_ℤ (pos high)) (neg_ℤ (pos low)) else interval (pos low) (pos high)) }
{
    let (low, high) = (low as i128, high as i128);
    if negative {
        Iv::new(-high, -low)
    } else {
        Iv::new(low, high)
    }
}

// The least interval of a decimal.
fn bracket(decimal: Decimal<'_>) -> Result<Iv, TextFault>
    requires whole { AllPass is_ascii_digit decimal.whole.now }
    requires part { AllPass is_ascii_digit decimal.part.now }
    requires exponent { AllPass is_ascii_digit decimal.exponent.now }
    ensures { let d = decimal.entry in
        result ≡ bracket_of_value (exact_value (decimal_from d.negative d.whole.now d.part.now d.down d.exponent.now)) }
{
    match size_of(decimal) {
        Some((low, high)) => Ok(signed(decimal.negative, low, high)),
        None => Err(TextFault::TooLarge),
    }
}

// From the lower end of the first to the upper end of the second.
#[tactic(auto, unfolding(crate::specs::Bracket::between))]
fn between(first: Iv, second: Iv) -> Result<Iv, TextFault>
    ensures { result ≡ between_of first second }
{
    if second.lo() < first.lo() || second.hi() < first.hi() {
        Err(TextFault::Backwards)
    } else {
        Ok(Iv::new(first.lo(), second.hi()))
    }
}

// The bracket of a range by the texts before and behind its two points.
fn range(first: &[u8], second: &[u8]) -> Result<Iv, TextFault>
    ensures { result ≡ bracket_of_number (range_of (lower_of first.now) (upper_of second.now)) }
{
    match (read_lower(first), read_upper(second)) {
        (Some(lower), Some(upper)) => between(bracket(lower)?, bracket(upper)?),
        _ => Err(TextFault::NotNumber),
    }
}

// The bracket of a text that is not one number.
fn read_range(text: &[u8]) -> Result<Iv, TextFault>
    requires { decimal_of text.now ≡ None }
    ensures { result ≡ bracket_of text.now }
{
    match split(text) {
        Some((first, second)) => range(first, second),
        None => Err(TextFault::NotNumber),
    }
}

/// The bracket of a number text, in units of one part in 10^12. It takes no memory.
///
/// A number is an optional sign, digits with at most one point and at least one digit, and an
/// optional exponent: `e` or `E`, an optional sign and digits. Its bracket is the least interval that
/// its exact value lies in. A text with `..` in it is split at the first one into two numbers, and
/// its bracket goes from the lower end of the first to the upper end of the second. Spaces and tabs
/// at both ends of the text are passed over.
pub fn read_bracket(text: &[u8]) -> Result<Iv, TextFault>
    ensures exact { result ≡ bracket_of text.now }
    ensures least { IfOk result (IsBracket text.now) }
    ensures not_number { (result ≡ Err TextFault.NotNumber) ↔ (¬ IsNumber text.now) }
    ensures too_large { (result ≡ Err TextFault.TooLarge) ↔ IsLargeNumber text.now }
    ensures backwards { (result ≡ Err TextFault.Backwards) ↔ IsBackwards text.now }
{
    match read_decimal(text) {
        Some(decimal) => bracket(decimal),
        None => read_range(text),
    }
}
