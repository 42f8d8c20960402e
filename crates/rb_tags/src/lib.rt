//! Tag lists: the elements of an XML file, in file order.
#![tactic(auto)]

mod bytes;
mod element;
mod laws;
mod marks;
mod names;
mod read;
mod reader;
mod root;
mod tag;
mod text;
mod values;
mod words;

pub use element::{ElementRef, attribute_in, child_in, is_child, is_inside};
pub use laws::tags_by_grammar;
pub use names::Names;
pub use read::{TagFault, TagKind, read_tags};
pub use root::RootKind;
pub use tag::{Attr, AttrList, MAX_DEPTH, MAX_TAGS, Tag, Tags};
pub use text::Text;
pub use words::next_word;
