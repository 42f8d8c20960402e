// The values of attributes, and the references in them.
ghost use Rattle.std.specs.Prelude.{◌≡◌, ◌≤◌, [], ◌∷◌, MatchOption, Some, IsSome, IfOk, Err, take_while};
ghost use Rattle.std.specs.Option.{option_map, ok_or, is_some};
ghost use Rattle.std.specs.Char.{encode_utf8};
ghost use Rattle.rb_tags.specs.declared.read.TagKind.TheVariants.{BadMark, Memory};
ghost use Rattle.rb_tags.specs.Bytes.{is_plain_byte, past};
ghost use Rattle.rb_tags.specs.References.{character_of, number_of, entity_of, reference_of, reference_at, value_of};
ghost use Rattle.rb_result.specs.Steps.{Gives};

use crate::bytes::{Class, past_front};
use crate::read::TagKind;
use crate::text::Text;
use std::alloc::{AllocError, Global};

/// The character of a number in digits of a radix.
#[tactic(auto, unfolding(crate::specs::References::character_of))]
fn character(digits: &str, radix: u32) -> Option<char>
    requires lower { 2 ≤ radix }
    requires upper { radix ≤ 36 }
    ensures { option_map encode_utf8 result ≡ character_of radix digits.now }
{
    // `from_str_radix` would pass over it.
    if digits.starts_with('+') {
        return None;
    }
    let number = u32::from_str_radix(digits, radix).ok()?;
    char::from_u32(number)
}

/// The character of a number as it is written between `&#` and `;`.
#[tactic(auto, using(crate::proofs::References::number_other), unfolding(crate::specs::References::number_of, crate::specs::Bytes::after_front))]
fn numbered(number: &str) -> Option<char>
    ensures { option_map encode_utf8 result ≡ number_of number.now }
{
    match past_front("x", number) {
        Some(digits) => character(digits, 16),
        None => character(number, 10),
    }
}

/// The character of a name.
#[tactic(auto, unfolding(crate::specs::References::entity_of))]
fn entity(name: &str) -> Option<char>
    ensures { option_map encode_utf8 result ≡ entity_of name.now }
{
    match name.as_bytes() {
        b"amp" => Some('&'),
        b"lt" => Some('<'),
        b"gt" => Some('>'),
        b"quot" => Some('"'),
        b"apos" => Some('\''),
        _ => None,
    }
}

/// The character of a reference as it is written between `&` and `;`.
#[tactic(auto, using(crate::proofs::References::reference_other), unfolding(crate::specs::References::reference_of, crate::specs::Bytes::after_front))]
fn referred(reference: &str) -> Option<char>
    ensures { option_map encode_utf8 result ≡ reference_of reference.now }
{
    match past_front("#", reference) {
        Some(number) => numbered(number),
        None => entity(reference),
    }
}

/// The character of the reference at the front, from after its `&`, and the text after its `;`.
#[tactic(auto, unfolding(crate::specs::References::reference_at))]
fn reference(text: &str) -> Option<(char, &str)>
    ensures { option_map (λ x. (encode_utf8 x.0, x.1.now)) result ≡ reference_at text.now }
{
    let (reference, rest) = Class::Reference.run(text);
    let rest = past_front(";", rest)?;
    Some((referred(reference)?, rest))
}

/// The text before the first `&`, and the text after it.
fn split_reference(text: &str) -> Option<(&str, &str)>
    ensures { MatchOption result (past is_plain_byte text.now ≡ []) (λ x. (x.0.now ≡ take_while is_plain_byte text.now) × (past is_plain_byte text.now ≡ 38 ∷ x.1.now)) }
{
    text.split_once('&')
}

/// Whether each `&` of a value begins a reference.
fn is_value(text: &str) -> bool
    ensures { result ≡ is_some (value_of text.now) }
{
    let mut rest = text;
    while let Some((_, after)) = split_reference(rest) {
        let Some((_, after)) = reference(after) else {
            return false;
        };
        rest = after;
    }
    true
}

/// What a value says, with its references replaced. Its one refusal is for want of memory.
fn said(alloc: Global, text: &str) -> Result<Text, AllocError>
    requires { IsSome (value_of text.now) }
    ensures { IfOk result (λ said. value_of text.now ≡ Some said) }
{
    let mut said = String::with_capacity(alloc, text.len())?;
    let mut rest = text;
    while let Some((plain, after)) = split_reference(rest) {
        said.push_str(plain)?;
        let (character, after) = reference(after).unwrap();
        said.push(character)?;
        rest = after;
    }
    said.push_str(rest)?;
    Ok(Text::from_string(said))
}

/// What a value says, with its references replaced. Refused as `BadMark` where an `&` begins no reference.
pub fn value(alloc: Global, text: &str) -> Result<Text, TagKind>
    ensures gives { Gives Memory (λ x. x) result (ok_or (value_of text.now) BadMark) }
    ensures memory { result ≡ Err Memory → IsSome (value_of text.now) }
{
    if !is_value(text) {
        return Err(TagKind::BadMark);
    }
    Ok(said(alloc, text)?)
}
