ghost use Rattle.std.specs.Prelude.{◌≡◌, ◌≤◌, length, Some, IfOk, IfErr, Ok, Err, ◌⊎◌};
ghost use Rattle.std.specs.Str.{IsUtf8};
ghost use Rattle.rb_tags.specs.Tags.{tags_of, tags_of_text, no_memory};
ghost use Rattle.rb_tags.specs.Faults.{kind_word, fault_text};
ghost use Rattle.rb_tags.specs.declared.read.TagKind.TheVariants.{Memory};
ghost use Rattle.rb_result.specs.Steps.{Gives};

use crate::bytes::past_front;
use crate::reader::Reader;
use crate::tag::Tags;
use simdutf8::compat::from_utf8;
use std::alloc::{AllocError, AllocFailed, Global};
use std::error::Error;
use std::fmt;

/// What is wrong with a file of tags.
#[derive(Clone, Copy, Debug, PartialEq, Eq)]
pub enum TagKind {
    /// The file is not UTF-8: at the first byte that fits no sequence.
    NotUtf8,
    /// A mark's closing bytes do not come, at its `<`; or an element is not closed, at the `<` of the innermost one; or there is no element, at the file's length.
    Unclosed,
    /// An end tag is not that of the innermost open element, at its `<`.
    Mismatch,
    /// A document type, at its `<`.
    Doctype,
    /// A start tag deeper than `MAX_DEPTH`, at its `<`. The outermost has depth 1.
    Depth,
    /// Two attributes of one tag have one name, at the tag's `<`.
    Twice,
    /// A mark does not fit or begins a second outermost element, at its `<`; or text other than white space outside the outermost element, at its first byte.
    BadMark,
    /// The start tag after the first `MAX_TAGS`, at its `<`.
    TooMany,
    /// For want of memory.
    Memory,
}

impl TagKind {
    /// Its word.
    pub fn word(self) -> &'static str
        ensures word { result.now ≡ kind_word self }
        ensures short { length result.now ≤ 8 }
    {
        match self {
            TagKind::NotUtf8 => "NotUtf8",
            TagKind::Unclosed => "Unclosed",
            TagKind::Mismatch => "Mismatch",
            TagKind::Doctype => "Doctype",
            TagKind::Depth => "Depth",
            TagKind::Twice => "Twice",
            TagKind::BadMark => "BadMark",
            TagKind::TooMany => "TooMany",
            TagKind::Memory => "Memory",
        }
    }
}

impl fmt::Display for TagKind {
    ghost output = { λ kind. Some (kind_word kind) };

    fn fmt<W: fmt::Write>(&self, f: &mut fmt::Formatter<W>) -> fmt::Result {
        f.write_str(self.word())
    }
}

impl Error for TagKind {}

/// What is wrong, and where: the place in bytes from 0, which is 0 for want of memory.
#[derive(Clone, Copy, Debug, PartialEq, Eq)]
pub struct TagFault {
    pub kind: TagKind,
    pub at: u64,
}

impl fmt::Display for TagFault {
    ghost output = { λ fault. Some (fault_text fault) };

    fn fmt<W: fmt::Write>(&self, f: &mut fmt::Formatter<W>) -> fmt::Result {
        let TagFault { kind, at } = *self;
        write!(f, "{kind} at {at}")
    }
}

impl Error for TagFault {}

/// The fault for want of memory.
pub(crate) const NO_MEMORY: TagFault = TagFault {
    kind: TagKind::Memory,
    at: 0,
};

impl From<AllocError> for TagKind {
    ghost from_gives = { λ _ e. e ≡ Memory };

    fn from(_e: AllocError) -> TagKind {
        TagKind::Memory
    }
}

impl<T: Drop> From<AllocFailed<T>> for TagKind {
    ghost from_gives = { λ _ e. e ≡ Memory };

    fn from(_e: AllocFailed<T>) -> TagKind {
        TagKind::Memory
    }
}

/// The start tags of a file, or its first fault.
pub fn read_tags(alloc: Global, bytes: &[u8]) -> Result<Tags, TagFault>
    ensures ok { IfOk result (λ tags. tags_of bytes.now ≡ Ok tags) }
    ensures err { IfErr result (λ fault. (fault ≡ no_memory) ⊎ (tags_of bytes.now ≡ Err fault)) }
    ensures memory { result ≡ Err no_memory → IsUtf8 bytes.now }
{
    match from_utf8(bytes) {
        Ok(text) => read_text(alloc, text),
        Err(e) => Err(TagFault {
            kind: TagKind::NotUtf8,
            at: e.valid_up_to() as u64,
        }),
    }
}

/// The start tags of a text, or its first fault.
fn read_text(alloc: Global, text: &str) -> Result<Tags, TagFault>
    ensures { Gives no_memory (λ tags. tags) result (tags_of_text text.now) }
{
    let size = text.len();
    let mut reader = Reader::new(alloc);
    let mut left = past_front("\u{feff}", text).unwrap_or(text);
    loop {
        let rest = reader.text((size - left.len()) as u64, left)?;
        let Some(behind) = past_front("<", rest) else {
            return reader.finish(size as u64);
        };
        left = reader.mark(alloc, (size - rest.len()) as u64, behind)?;
    }
}
