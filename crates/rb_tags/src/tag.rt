ghost use Rattle.std.specs.Prelude.{◌≡◌};

use crate::text::Text;
use std::marker::Model;

/// An attribute: its name, and its value with references replaced.
#[derive(Debug, Drop)]
pub struct Attr {
    pub name: Text,
    pub value: Text,
}

/// The attributes of a tag, in file order.
#[derive(Debug, Drop)]
pub struct AttrList {
    pub(crate) attrs: Vec<Attr>,
}

impl Model for AttrList {
    ghost use Rattle.std.specs.Prelude.{List};
    ghost use Rattle.rb_tags.specs.declared.tag.Attr.{Attr};

    ghost Value = { List Attr };

    ghost view = { λ l. l.attrs.items };
}

impl AttrList {
    /// The attributes.
    pub fn as_slice(&self) -> &[Attr]
        ensures { result.now ≡ self.now }
    {
        self.attrs.as_slice()
    }
}

/// A start tag: its name, the place of its `<` in bytes from 0, its depth (the outermost has 1), and its attributes.
#[derive(Debug, Drop)]
pub struct Tag {
    pub name: Text,
    pub place: u64,
    pub depth: u32,
    pub attrs: AttrList,
}

/// The greatest number of start tags of a file.
pub const MAX_TAGS: usize = 262_144;

/// The greatest depth of an element. The outermost has 1.
pub const MAX_DEPTH: usize = 64;

/// The start tags of a file, in file order: at least one and at most `MAX_TAGS`, each with attributes of different names. The first has
/// depth 1, each other more than 1 and at most `MAX_DEPTH`, and at most one more than the tag before it.
#[derive(Debug, Drop)]
pub struct Tags {
    pub(crate) tags: Vec<Tag>,
}

impl Model for Tags {
    ghost use Rattle.std.specs.Prelude.{List};
    ghost use Rattle.rb_tags.specs.declared.tag.Tag.{Tag};
    ghost use Rattle.rb_tags.specs.Kept.{IsTagList};

    ghost Value = { List Tag };

    ghost view = { λ l. l.tags.items };

    ghost invariant = { λ l. IsTagList l.tags.items };
}

impl Tags {
    ghost use Rattle.rb_tags.specs.Kept.{IsTagList};

    /// The tags.
    pub fn as_slice(&self) -> &[Tag]
        ensures tags { result.now ≡ self.now }
        ensures kept { IsTagList self.now }
    {
        self.tags.as_slice()
    }
}
