// Elements, their child elements and their attributes.
ghost use Rattle.std.specs.Prelude.{◌≡◌, option_map, option_copied, slice_get};
ghost use Rattle.std.specs.List.{take_while};
ghost use Rattle.rb_tags.specs.Elements.{is_deeper, element_of, is_inside, is_child, elements, child, child_in, attribute, attribute_in, given, as_element};

use crate::tag::Tag;

/// An element of a file: its tag, and the tags inside it in file order.
#[derive(Clone, Copy)]
pub struct ElementRef<'a> {
    pub tag: &'a Tag,
    pub inside: &'a [Tag],
}

/// Whether a tag is directly inside an element of a depth.
#[inline]
#[tactic(auto, unfolding(crate::specs::Elements::is_inside))]
pub fn is_inside(around: u32, tag: &Tag) -> bool
    ensures { result ≡ is_inside around tag.now }
{
    tag.depth > around && tag.depth - 1 == around
}

/// Whether a tag has this name and is directly inside an element of a depth.
#[tactic(auto, unfolding(crate::specs::Elements::is_child))]
pub fn is_child(name: &str, around: u32, tag: &Tag) -> bool
    ensures { result ≡ is_child name.now around tag.now }
{
    tag.depth > around && tag.depth - 1 == around && tag.name.as_str() == name
}

/// Whether a tag is deeper than this.
fn is_deeper(depth: u32, tag: &Tag) -> bool
    ensures { result ≡ is_deeper depth tag.now }
{
    depth < tag.depth
}

/// The tags at the front that are deeper.
fn deeper(depth: u32, tags: &[Tag]) -> &[Tag]
    ensures { result.now ≡ take_while (is_deeper depth) tags.now }
{
    let count = tags.iter().take_while(|tag| is_deeper(depth, tag)).count();
    tags.split_at(count).0
}

/// The first element of this name that is directly inside an element of a depth.
fn first_element<'a>(name: &str, around: u32, tags: &'a [Tag]) -> Option<ElementRef<'a>>
    ensures { option_map as_element result ≡ slice_get (elements name.now around tags.now) 0 }
{
    let mut rest = tags;
    while let [tag, behind @ ..] = rest {
        if is_child(name, around, tag) {
            return Some(ElementRef::new(tag, behind));
        }
        rest = behind;
    }
    None
}

impl<'a> ElementRef<'a> {
    /// The element of a tag that stands before these: inside are those that are deeper, up to the first that is not.
    pub fn new(tag: &'a Tag, behind: &'a [Tag]) -> Self
        ensures { as_element result ≡ element_of tag.now behind.now }
    {
        ElementRef {
            tag,
            inside: deeper(tag.depth, behind),
        }
    }

    /// The first element of this name directly inside.
    #[tactic(auto, unfolding(crate::specs::Elements::child))]
    pub fn child(self, name: &str) -> Option<ElementRef<'a>>
        ensures { option_map as_element result ≡ child name.now (as_element self.entry) }
    {
        first_element(name, self.tag.depth, self.inside)
    }

    /// The value of the first attribute of this name.
    #[tactic(auto, unfolding(crate::specs::Elements::attribute))]
    pub fn attribute(self, key: &str) -> Option<&'a str>
        ensures { option_copied result ≡ attribute key.now (as_element self.entry) }
    {
        let attrs = self.tag.attrs.as_slice();
        let attr = attrs.iter().find(|attr| attr.name.as_str() == key)?;
        Some(attr.value.as_str())
    }

    /// The value of the first attribute of this name, where it is not empty.
    #[tactic(auto, unfolding(crate::specs::Elements::given))]
    pub fn given(self, key: &str) -> Option<&'a str>
        ensures { option_copied result ≡ given key.now (as_element self.entry) }
    {
        match self.attribute(key) {
            Some(text) if !text.is_empty() => Some(text),
            _ => None,
        }
    }
}

/// The child of an element that may be missing.
pub fn child_in<'a>(name: &str, element: Option<ElementRef<'a>>) -> Option<ElementRef<'a>>
    ensures { option_map as_element result ≡ child_in name.now (option_map as_element element.entry) }
{
    match element {
        Some(element) => element.child(name),
        None => None,
    }
}

/// The attribute of an element that may be missing.
pub fn attribute_in<'a>(key: &str, element: Option<ElementRef<'a>>) -> Option<&'a str>
    ensures { option_copied result ≡ attribute_in key.now (option_map as_element element.entry) }
{
    match element {
        Some(element) => element.attribute(key),
        None => None,
    }
}
