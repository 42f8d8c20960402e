ghost use Rattle.std.specs.Prelude.{◌≡◌, ◌≤◌, ◌<◌, ◌+◌, ◌-◌, ◌*◌, ◌^◌, ◌||◌, ◌++◌, MatchOption, length, take, drop, min, not, ◌==◌};
ghost use Rattle.std.specs.List.{AllPass, list_any};
ghost use Rattle.std.specs.Option.{SomeIff};
ghost use Rattle.std.specs.Char.{is_ascii_digit};
ghost use Rattle.std.specs.Str.Parse.{digits_value, digits_value_after};
ghost use Rattle.rb_num.specs.Interval.{grid};
ghost use Rattle.rb_text.specs.Bracket.{IsRounded};
ghost use Rattle.rb_text.specs.Decimal.{decimal_from, numerator_of, denominator_of};
ghost use Rattle.rb_text.specs.Size.{raised_of, lowered_of};

use crate::decimal::Decimal;
use rb_num::S;

/// How many units of the grid make one.
pub const UNITS: u128 = S as u128;

/// The largest size of a number of a text.
pub const LARGEST: u128 = 1_000_000_000_000;

/// The largest size of a number, in units.
const MOST: u128 = LARGEST * UNITS;

// Nine digits behind a number below this make one that fits 64 bits.
const SHORT: u128 = 1_000_000_000;

/// Past this exponent no digit of a text matters any more.
const FARTHEST: u128 = 1_000_000_000_000_000_000_000_000_000_000;

// Digits before and behind the point.
#[derive(Clone, Copy)]
struct Digits<'a> {
    whole: &'a [u8],
    part: &'a [u8],
}

// How many of a number's last digits stand for less than a unit, or how many zeros behind its last
// digit make units of it.
#[derive(Clone, Copy)]
struct Shift {
    cut: u128,
    zeros: u128,
}

// The exponent that the digits write, or `FARTHEST` where it is above that.
fn exponent_value(digits: &[u8]) -> u128
    requires { AllPass is_ascii_digit digits.now }
    ensures { result ≡ min (digits_value 10 digits.now) FARTHEST }
{
    let mut value: u128 = 0;
    for digit in digits {
        value = value * 10 + u128::from(*digit - b'0');
        if value > FARTHEST {
            return FARTHEST;
        }
    }
    value
}

fn shift_of(part: usize, down: bool, exponent: u128) -> Shift
    requires { exponent ≤ FARTHEST }
    ensures cut { result.cut ≡ lowered_of part down exponent - raised_of down exponent }
    ensures zeros { result.zeros ≡ raised_of down exponent - lowered_of part down exponent }
{
    let (raised, lowered) = if down {
        (12, part as u128 + exponent)
    } else {
        (12 + exponent, part as u128)
    };
    Shift {
        cut: lowered.saturating_sub(raised),
        zeros: raised.saturating_sub(lowered),
    }
}

// The digits without the last `cut` of them, and those.
fn cut_digits<'a>(whole: &'a [u8], part: &'a [u8], cut: u128) -> (Digits<'a>, Digits<'a>)
    ensures kept { let digits = whole.now ++ part.now in
        result.0.whole.now ++ result.0.part.now ≡ take (length digits - cut) digits }
    ensures rest { let digits = whole.now ++ part.now in
        result.1.whole.now ++ result.1.part.now ≡ drop (length digits - cut) digits }
{
    let count = whole.len() as u128 + part.len() as u128;
    let kept = count.saturating_sub(cut);
    let whole_kept = kept.min(whole.len() as u128);
    let part_kept = kept - whole_kept;
    let (whole, whole_rest) = whole.split_at(whole_kept as usize);
    let (part, part_rest) = part.split_at(part_kept as usize);
    (
        Digits { whole, part },
        Digits {
            whole: whole_rest,
            part: part_rest,
        },
    )
}

// The number that at most nine digits write behind those of `start`.
fn short_value_behind(start: u64, digits: &[u8]) -> u64
    requires digits { AllPass is_ascii_digit digits.now }
    requires small { start < 10 ^ 9 }
    requires short { length digits.now ≤ 9 }
    ensures value { result ≡ digits_value_after 10 start digits.now }
    ensures small { result < 10 ^ 18 }
{
    let mut value = start;
    for digit in digits {
        value = value * 10 + u64::from(*digit - b'0');
    }
    value
}

// The number that the digits write behind those of `start`, where it is not above `MOST`.
fn value_behind(start: u128, digits: &[u8]) -> Option<u128>
    requires digits { AllPass is_ascii_digit digits.now }
    requires small { start ≤ LARGEST * grid }
    ensures { let value = digits_value_after 10 start digits.now in SomeIff result (value ≤ LARGEST * grid) value }
{
    if start < SHORT && digits.len() <= 9 {
        return Some(u128::from(short_value_behind(start as u64, digits)));
    }
    let mut value = start;
    for digit in digits {
        value = value * 10 + u128::from(*digit - b'0');
        if value > MOST {
            return None;
        }
    }
    Some(value)
}

// 10 to a power of at most 12.
fn power_of_ten(exponent: u8) -> u64
    requires { exponent ≤ 12 }
    ensures value { result ≡ 10 ^ exponent }
    ensures small { result ≤ grid }
{
    match exponent {
        0 => 1,
        1 => 10,
        2 => 100,
        3 => 1_000,
        4 => 10_000,
        5 => 100_000,
        6 => 1_000_000,
        7 => 10_000_000,
        8 => 100_000_000,
        9 => 1_000_000_000,
        10 => 10_000_000_000,
        11 => 100_000_000_000,
        _ => 1_000_000_000_000,
    }
}

// The number with at most twelve zeros behind its last digit, where it is not above `MOST`.
fn with_few_zeros(number: u128, zeros: u8) -> Option<u128>
    requires small { number ≤ LARGEST * grid }
    requires few { zeros ≤ 12 }
    ensures { SomeIff result (number * 10 ^ zeros ≤ LARGEST * grid) (number * 10 ^ zeros) }
{
    let value = number * u128::from(power_of_ten(zeros));
    if value > MOST { None } else { Some(value) }
}

// The number with zeros behind its last digit, where it is not above `MOST`.
fn with_zeros(number: u128, zeros: u128) -> Option<u128>
    requires { number ≤ LARGEST * grid }
    ensures { SomeIff result (number * 10 ^ zeros ≤ LARGEST * grid) (number * 10 ^ zeros) }
{
    if zeros <= 12 {
        return with_few_zeros(number, zeros as u8);
    }
    if number == 0 {
        return Some(0);
    }
    let mut value = number;
    for _place in 0..zeros {
        value *= 10;
        if value > MOST {
            return None;
        }
    }
    Some(value)
}

// The number that the digits write with zeros behind them, where it is not above `MOST`.
fn units(digits: Digits<'_>, zeros: u128) -> Option<u128>
    requires whole { AllPass is_ascii_digit digits.whole.now }
    requires part { AllPass is_ascii_digit digits.part.now }
    ensures { let value = digits_value 10 (digits.entry.whole.now ++ digits.entry.part.now) * 10 ^ zeros in
        SomeIff result (value ≤ LARGEST * grid) value }
{
    let whole = value_behind(0, digits.whole)?;
    let all = value_behind(whole, digits.part)?;
    with_zeros(all, zeros)
}

fn has_other(digits: &[u8]) -> bool
    ensures { result ≡ list_any (λ digit. not (digit == 48)) digits.now }
{
    digits.iter().any(|digit| *digit != b'0')
}

// Whether a digit is not 0.
fn has_more(digits: Digits<'_>) -> bool
    ensures { let all = digits.entry.whole.now ++ digits.entry.part.now in result ≡ list_any (λ digit. not (digit == 48)) all }
{
    has_other(digits.whole) || has_other(digits.part)
}

/// The size of a number in units of the grid, rounded down and up, where it is not too large.
pub fn size_of(decimal: Decimal<'_>) -> Option<(u128, u128)>
    requires whole { AllPass is_ascii_digit decimal.whole.now }
    requires part { AllPass is_ascii_digit decimal.part.now }
    requires exponent { AllPass is_ascii_digit decimal.exponent.now }
    ensures { let d = decimal.entry in
        let number = decimal_from d.negative d.whole.now d.part.now d.down d.exponent.now in
        MatchOption result (LARGEST * denominator_of number < numerator_of number) (λ r.
        IsRounded (numerator_of number) (denominator_of number) r.0 r.1) }
{
    let exponent = exponent_value(decimal.exponent);
    let shift = shift_of(decimal.part.len(), decimal.down, exponent);
    let (kept, rest) = cut_digits(decimal.whole, decimal.part, shift.cut);
    let low = units(kept, shift.zeros)?;
    let high = if has_more(rest) { low + 1 } else { low };
    if high > MOST { None } else { Some((low, high)) }
}
