ghost use Rattle.std.specs.Prelude.{◌≡◌, ◌<◌, None, Some, MatchOption, length, take_while};
ghost use Rattle.std.specs.List.{list_all};
ghost use Rattle.std.specs.Char.{is_ascii_digit};
ghost use Rattle.rb_text.specs.Decimal.{decimal_from, is_blank as is_blank_of, span_of, sign_of, part_of, scale_of, exponent_of, start_of, decimal_of, lower_of, upper_of};

/// A number: its sign, its digits before and behind the point, and the sign and the digits of its
/// exponent, of which there are none where it has no exponent.
#[derive(Clone, Copy)]
pub struct Decimal<'a> {
    pub negative: bool,
    pub whole: &'a [u8],
    pub part: &'a [u8],
    pub down: bool,
    pub exponent: &'a [u8],
}

// An exponent at the start of a text, and what is behind it.
#[derive(Clone, Copy)]
struct Exponent<'a> {
    down: bool,
    digits: &'a [u8],
    rest: &'a [u8],
}

// A decimal at the start of a text, and what is behind it.
#[derive(Clone, Copy)]
struct Start<'a> {
    decimal: Decimal<'a>,
    rest: &'a [u8],
}

fn is_blank(byte: u8) -> bool
    ensures { result ≡ is_blank_of byte }
{
    byte == b' ' || byte == b'\t'
}

fn blank_len(text: &[u8]) -> usize
    ensures { result ≡ length (take_while is_blank_of text.now) }
{
    text.iter().take_while(|byte| is_blank(**byte)).count()
}

fn digits_len(text: &[u8]) -> usize
    ensures { result ≡ length (take_while is_ascii_digit text.now) }
{
    text.iter().take_while(|byte| byte.is_ascii_digit()).count()
}

fn is_all_blank(text: &[u8]) -> bool
    ensures { result ≡ list_all is_blank_of text.now }
{
    text.iter().all(|byte| is_blank(*byte))
}

// What is behind the blanks at the start.
#[tactic(auto, using(crate::proofs::Spans::spans), unfolding(crate::specs::Decimal::span_of))]
fn behind_blanks(text: &[u8]) -> &[u8]
    ensures { result.now ≡ (span_of is_blank_of text.now).1 }
{
    &text[blank_len(text)..]
}

// The digits at the start, and what is behind them.
#[tactic(auto, using(crate::proofs::Spans::spans), unfolding(crate::specs::Decimal::span_of))]
fn digits(text: &[u8]) -> (&[u8], &[u8])
    ensures first { result.0.now ≡ (span_of is_ascii_digit text.now).0 }
    ensures rest { result.1.now ≡ (span_of is_ascii_digit text.now).1 }
{
    text.split_at(digits_len(text))
}

// Whether a minus is first, and what is behind the sign.
#[tactic(auto, unfolding(crate::specs::Decimal::sign_of))]
fn sign(text: &[u8]) -> (bool, &[u8])
    ensures negative { result.0 ≡ (sign_of text.now).0 }
    ensures rest { result.1.now ≡ (sign_of text.now).1 }
{
    match text {
        [b'-', rest @ ..] => (true, rest),
        [b'+', rest @ ..] => (false, rest),
        _ => (false, text),
    }
}

// The digits behind a point, and what is behind them.
#[tactic(auto, unfolding(crate::specs::Decimal::part_of))]
fn part(text: &[u8]) -> (&[u8], &[u8])
    ensures first { result.0.now ≡ (part_of text.now).0 }
    ensures rest { result.1.now ≡ (part_of text.now).1 }
{
    match text {
        [b'.', rest @ ..] => digits(rest),
        _ => (&[], text),
    }
}

// The sign and the digits behind the letter of the exponent that `text` begins with. Where no digit
// is there, it is no exponent.
#[tactic(auto, unfolding(crate::specs::Decimal::scale_of))]
fn scale<'a>(text: &'a [u8], behind: &'a [u8]) -> Exponent<'a>
    ensures { scale_of text.now behind.now ≡
        record { down = result.down; digits = result.digits.now; rest = result.rest.now } }
{
    let (down, rest) = sign(behind);
    let (digits, rest) = digits(rest);
    if 0 < digits.len() {
        Exponent { down, digits, rest }
    } else {
        Exponent {
            down: false,
            digits: &[],
            rest: text,
        }
    }
}

// The exponent at the start of a text, if there is one.
#[tactic(auto, unfolding(crate::specs::Decimal::exponent_of))]
fn read_exponent(text: &[u8]) -> Exponent<'_>
    ensures { exponent_of text.now ≡
        record { down = result.down; digits = result.digits.now; rest = result.rest.now } }
{
    match text {
        [b'e' | b'E', behind @ ..] => scale(text, behind),
        _ => Exponent {
            down: false,
            digits: &[],
            rest: text,
        },
    }
}

// The decimal at the start of a text.
#[tactic(auto, unfolding(crate::specs::Decimal::start_of))]
fn read_start(text: &[u8]) -> Option<Start<'_>>
    ensures { MatchOption result (start_of text.now ≡ None) (λ s.
        let d = s.decimal in
        start_of text.now ≡ Some (record {
          decimal = decimal_from d.negative d.whole.now d.part.now d.down d.exponent.now;
          rest = s.rest.now;
        })) }
{
    let (negative, rest) = sign(text);
    let (whole, rest) = digits(rest);
    let (part, rest) = part(rest);
    let exponent = read_exponent(rest);
    if 0 < whole.len() + part.len() {
        let decimal = Decimal {
            negative,
            whole,
            part,
            down: exponent.down,
            exponent: exponent.digits,
        };
        Some(Start {
            decimal,
            rest: exponent.rest,
        })
    } else {
        None
    }
}

/// The decimal that a text is, with blanks before and behind it.
#[tactic(auto, unfolding(crate::specs::Decimal::decimal_of))]
pub fn read_decimal(text: &[u8]) -> Option<Decimal<'_>>
    ensures { MatchOption result (decimal_of text.now ≡ None) (λ d.
        decimal_of text.now ≡ Some (decimal_from d.negative d.whole.now d.part.now d.down d.exponent.now)) }
{
    match read_start(behind_blanks(text)) {
        Some(start) if is_all_blank(start.rest) => Some(start.decimal),
        _ => None,
    }
}

/// The decimal that a text is, with blanks before it.
#[tactic(auto, unfolding(crate::specs::Decimal::lower_of))]
pub fn read_lower(text: &[u8]) -> Option<Decimal<'_>>
    ensures { MatchOption result (lower_of text.now ≡ None) (λ d.
        lower_of text.now ≡ Some (decimal_from d.negative d.whole.now d.part.now d.down d.exponent.now)) }
{
    match read_start(behind_blanks(text)) {
        Some(start) if start.rest.is_empty() => Some(start.decimal),
        _ => None,
    }
}

/// The decimal that a text is, with blanks behind it.
#[tactic(auto, unfolding(crate::specs::Decimal::upper_of))]
pub fn read_upper(text: &[u8]) -> Option<Decimal<'_>>
    ensures { MatchOption result (upper_of text.now ≡ None) (λ d.
        upper_of text.now ≡ Some (decimal_from d.negative d.whole.now d.part.now d.down d.exponent.now)) }
{
    match read_start(text) {
        Some(start) if is_all_blank(start.rest) => Some(start.decimal),
        _ => None,
    }
}
