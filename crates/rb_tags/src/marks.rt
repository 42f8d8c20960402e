// Marks, each from after its `<`.
ghost use Rattle.std.specs.Prelude.{◌≡◌, ◌≢◌, [], ◌∷◌, None, IsSome, Err, length, codes};
ghost use Rattle.std.specs.Option.{option_map, option_copied, ok_or};
ghost use Rattle.rb_tags.specs.declared.read.TagKind.TheVariants.{BadMark, Unclosed, Memory};
ghost use Rattle.rb_tags.specs.Bytes.{is_space, is_value_byte, past, quote_byte, after_front, after_first};
ghost use Rattle.rb_tags.specs.Marks.{name_at, opening_at, quoted_at, attr_at, attr_follows, attrs_at, ending_of, start_in, end_in, tag_in, quote_after, ends_tag, closing_at, tag_at, mark_at};
ghost use Rattle.rb_tags.specs.BadMarks.{BeginsTag};
ghost use Rattle.rb_tags.specs.References.{◌>?=◌};
ghost use Rattle.rb_tags.specs.Views.{mark_of};
ghost use Rattle.rb_result.specs.Steps.{Gives};

use crate::bytes::{Class, Quote, past_first, past_front};
use crate::read::TagKind;
use crate::tag::{Attr, AttrList};
use crate::text::Text;
use crate::values::value;
use std::alloc::Global;

/// A start tag as it is read.
#[derive(Drop)]
pub struct StartTag {
    pub name: Text,
    pub attrs: AttrList,
    /// Whether it ends with `/>`.
    pub closes: bool,
}

/// A mark as it is read.
#[derive(Drop)]
pub enum ReadMark<'b> {
    /// An instruction or a comment, which is passed over.
    Passed,
    /// A section of data.
    Data,
    /// A start tag.
    Start(StartTag),
    /// An end tag of this name.
    End(&'b str),
}

/// The name at the front, and the text after it.
#[tactic(auto, unfolding(crate::specs::Marks::name_at))]
fn name(text: &str) -> Option<(&str, &str)>
    ensures { option_map (λ x. (x.0.now, x.1.now)) result ≡ name_at text.now }
{
    let (name, rest) = Class::Name.run(text);
    match name.as_bytes() {
        [] | [b'!' | b'?', ..] => None,
        _ => Some((name, rest)),
    }
}

/// The quote at the front, and the text after it.
#[tactic(auto, unfolding(crate::specs::Marks::opening_at, crate::specs::Bytes::after_front, crate::specs::Bytes::is_quote))]
fn opening(text: &str) -> Option<(Quote, &str)>
    ensures { option_map (λ x. (quote_byte x.0, x.1.now)) result ≡ opening_at text.now }
{
    match past_front("\"", text) {
        Some(rest) => Some((Quote::Double, rest)),
        None => Some((Quote::Single, past_front("'", text)?)),
    }
}

/// The value in quotes at the front, and the text after it.
#[tactic(auto, unfolding(crate::specs::Marks::quoted_at))]
fn quoted(alloc: Global, text: &str) -> Result<(Text, &str), TagKind>
    ensures gives { Gives Memory (λ x. (x.0, x.1.now)) result (ok_or (quoted_at text.now) BadMark) }
    ensures memory { result ≡ Err Memory → IsSome (quoted_at text.now) }
{
    let Some((quote, text)) = opening(text) else {
        return Err(TagKind::BadMark);
    };
    let (inside, rest) = Class::Value(quote).run(text);
    let Some(rest) = past_front(quote.as_str(), rest) else {
        return Err(TagKind::BadMark);
    };
    let value = value(alloc, inside)?;
    Ok((value, rest))
}

/// The attribute at the front, and the text after it.
#[tactic(auto, unfolding(crate::specs::Marks::attr_at))]
fn attribute(alloc: Global, text: &str) -> Result<(Attr, &str), TagKind>
    ensures gives { Gives Memory (λ x. (x.0, x.1.now)) result (ok_or (attr_at text.now) BadMark) }
    ensures memory { result ≡ Err Memory → IsSome (attr_at text.now) }
{
    let Some((name, rest)) = name(text) else {
        return Err(TagKind::BadMark);
    };
    let Some(rest) = past_front("=", Class::Space.past(rest)) else {
        return Err(TagKind::BadMark);
    };
    let (value, rest) = quoted(alloc, Class::Space.past(rest))?;
    let name = Text::copy(alloc, name)?;
    Ok((Attr { name, value }, rest))
}

/// Whether white space and the first byte of a name stand at the front.
#[tactic(auto, unfolding(crate::specs::Marks::attr_follows))]
fn attribute_follows(text: &str) -> bool
    ensures { result ≡ attr_follows text.now }
{
    let (space, rest) = Class::Space.run(text);
    let (name, _) = Class::Name.run(rest);
    !space.is_empty() && !name.is_empty()
}

/// The attributes at the front, each after white space, and the text after them.
fn attributes(alloc: Global, text: &str) -> Result<(AttrList, &str), TagKind>
    ensures { Gives Memory (λ x. (x.0, x.1.now)) result (ok_or (attrs_at (length text.now) text.now) BadMark) }
{
    let mut attrs = Vec::new(alloc);
    let mut rest = text;
    while attribute_follows(rest) {
        let (attr, after) = attribute(alloc, Class::Space.past(rest))?;
        attrs.push(attr)?;
        rest = after;
    }
    Ok((AttrList { attrs }, rest))
}

/// Whether a tag closes itself, from what stands in it behind its attributes.
#[tactic(auto, unfolding(crate::specs::Marks::ending_of))]
fn ending(text: &str) -> Result<bool, TagKind>
    ensures { result ≡ ok_or (ending_of text.now) BadMark }
{
    match text.as_bytes() {
        [] => Ok(false),
        [b'/'] => Ok(true),
        _ => Err(TagKind::BadMark),
    }
}

/// The start tag, from all that stands between its `<` and its `>`.
#[tactic(auto, unfolding(crate::specs::Marks::start_in))]
fn start_in(alloc: Global, inside: &str) -> Result<StartTag, TagKind>
    ensures gives { Gives Memory (λ x. x) result (ok_or (start_in inside.now) BadMark) }
    ensures memory { result ≡ Err Memory → IsSome (name_at inside.now) }
{
    let Some((name, rest)) = name(inside) else {
        return Err(TagKind::BadMark);
    };
    let (attrs, rest) = attributes(alloc, rest)?;
    let closes = ending(Class::Space.past(rest))?;
    let name = Text::copy(alloc, name)?;
    Ok(StartTag {
        name,
        attrs,
        closes,
    })
}

/// The name of the end tag, from all that stands between its `</` and its `>`.
#[tactic(auto, unfolding(crate::specs::Marks::end_in))]
fn end_in(inside: &str) -> Option<&str>
    ensures { option_copied result ≡ end_in inside.now }
{
    let (name, rest) = name(inside)?;
    if Class::Space.past(rest).is_empty() {
        Some(name)
    } else {
        None
    }
}

/// The tag, from all that stands between its `<` and its `>`.
#[tactic(auto, unfolding(crate::specs::Marks::tag_in))]
fn tag_in(alloc: Global, inside: &str) -> Result<ReadMark<'_>, TagKind>
    ensures gives { Gives Memory mark_of result (ok_or (tag_in inside.now) BadMark) }
    ensures memory { result ≡ Err Memory → after_front (codes "/") inside.now ≡ None }
{
    let Some(rest) = past_front("/", inside) else {
        return Ok(ReadMark::Start(start_in(alloc, inside)?));
    };
    match end_in(rest) {
        Some(name) => Ok(ReadMark::End(name)),
        None => Err(TagKind::BadMark),
    }
}

/// The kind of the quoted part that a byte stands in, from that of the byte before it.
#[tactic(auto, unfolding(crate::specs::Bytes::is_quote))]
fn quote_after(quote: Option<u8>, byte: u8) -> Option<u8>
    ensures { result ≡ quote_after quote byte }
{
    match quote {
        None if byte == b'"' || byte == b'\'' => Some(byte),
        None => None,
        Some(open) if byte == open => None,
        Some(open) => Some(open),
    }
}

/// Whether a byte is a `>` outside quoted parts.
fn ends_tag(quote: Option<u8>, byte: u8) -> bool
    ensures { result ≡ ends_tag quote byte }
{
    quote.is_none() && byte == b'>'
}

/// How many bytes stand before the first `>` outside quoted parts.
fn closing(text: &str) -> Option<usize>
    ensures { result ≡ closing_at None text.now }
{
    let bytes = text.as_bytes();
    let mut quote = None;
    for (place, byte) in bytes.iter().enumerate() {
        if ends_tag(quote, *byte) {
            return Some(place);
        }
        quote = quote_after(quote, *byte);
    }
    None
}

/// The tag at the front, from after its `<`, and the text after it.
#[tactic(auto, unfolding(crate::specs::Marks::tag_at))]
fn tag<'b>(alloc: Global, text: &'b str) -> Result<(ReadMark<'b>, &'b str), TagKind>
    ensures memory { result ≡ Err Memory → IsSome (closing_at None text.now) }
    ensures gives { Gives Memory (λ x. (mark_of x.0, x.1.now)) result (tag_at text.now) }
{
    let Some(end) = closing(text) else {
        return Err(TagKind::Unclosed);
    };
    let mark = tag_in(alloc, &text[..end])?;
    Ok((mark, &text[end + 1..]))
}

/// The text after the closing text of a mark.
fn past_closing<'b>(closing: &str, text: &'b str) -> Result<&'b str, TagKind>
    ensures gives { Gives Memory (λ rest. rest.now) result (ok_or (after_first closing.now text.now) Unclosed) }
    ensures takes_no_memory { result ≢ Err Memory }
{
    past_first(closing, text).ok_or(TagKind::Unclosed)
}

/// The mark at the front, from after its `<`, and the text after it. A document type is `Doctype`, a mark whose closing bytes do not come
/// `Unclosed`, and a tag that does not fit `BadMark`.
#[tactic(auto, using(crate::proofs::Closes::not_front), unfolding(crate::specs::Marks::mark_at))]
pub fn mark<'b>(alloc: Global, text: &'b str) -> Result<(ReadMark<'b>, &'b str), TagKind>
    ensures gives { Gives Memory (λ x. (mark_of x.0, x.1.now)) result (mark_at text.now) }
    ensures memory { result ≡ Err Memory → BeginsTag text.now }
{
    if let Some(rest) = past_front("?", text) {
        return Ok((ReadMark::Passed, past_closing("?>", rest)?));
    }
    if let Some(rest) = past_front("!--", text) {
        return Ok((ReadMark::Passed, past_closing("-->", rest)?));
    }
    if let Some(rest) = past_front("![CDATA[", text) {
        return Ok((ReadMark::Data, past_closing("]]>", rest)?));
    }
    if past_front("!DOCTYPE", text).is_some() {
        return Err(TagKind::Doctype);
    }
    tag(alloc, text)
}
