ghost use Rattle.std.specs.Prelude.{◌≡◌, ◌≢◌, ◌+◌, ◌^◌, ◌<◌, ◌≤◌, length, All, IsTrue, OnOk, Err};
ghost use Rattle.rb_tags.specs.Faults.{placed_kind, no_memory};
ghost use Rattle.rb_tags.specs.Seen.{nothing_seen, with_tag, may_start, started, ended, with_data, marked, marked_at, read_mark, read_text, finished};
ghost use Rattle.rb_tags.specs.Kept.{IsReadTag, IsReading, HasDistinctNames};
ghost use Rattle.rb_tags.specs.declared.tag.TheConstants.{MAX_DEPTH, MAX_TAGS};
ghost use Rattle.rb_tags.specs.Marks.{Mark};
ghost use Rattle.rb_result.specs.Steps.{Gives};
ghost use Rattle.rb_tags.specs.declared.read.TagKind.TheVariants.{Memory};

use crate::bytes::Class;
use crate::marks::{ReadMark, StartTag, mark};
use crate::names::{are_distinct, name_count};
use crate::read::{NO_MEMORY, TagFault, TagKind};
use crate::tag::{MAX_DEPTH, MAX_TAGS, Tag, Tags};
use crate::text::Text;
use std::alloc::Global;

/// An element that is open: its name, and the place of the `<` of its start tag.
#[derive(Drop)]
pub struct OpenElement {
    pub name: Text,
    pub place: u64,
}

/// What was read so far: the start tags, and the open elements, the innermost last.
#[derive(Drop)]
pub struct Reader {
    tags: Vec<Tag>,
    open: Vec<OpenElement>,
    ghost few: { length tags.items ≤ MAX_TAGS },
    ghost nested: { IsReading (length «open».items) tags.items },
    ghost each: { All IsReadTag tags.items },
}

/// A fault of a kind at a place. Want of memory has none.
fn fault(kind: TagKind, place: u64) -> TagFault
    ensures { result ≡ placed_kind kind place }
{
    match kind {
        TagKind::Memory => NO_MEMORY,
        _ => TagFault { kind, at: place },
    }
}

impl Reader {
    ghost use Rattle.rb_tags.specs.Views.{mark_of, seen_of};

    /// Before the first mark.
    pub fn new(alloc: Global) -> Self
        ensures { seen_of result ≡ nothing_seen }
    {
        Reader {
            tags: Vec::new(alloc),
            open: Vec::new(alloc),
        }
    }

    /// Whether a start tag may stand here, whose attributes have different names or not.
    #[tactic(auto, unfolding(crate::specs::Seen::may_start))]
    fn may_start(&self, distinct: bool) -> Result<(), TagKind>
        ensures exact { result ≡ may_start (seen_of self.now) distinct }
        ensures shallow { OnOk result (length (seen_of self.now).open_elements < MAX_DEPTH) }
        ensures room { OnOk result (length (seen_of self.now).tags < MAX_TAGS) }
        ensures nested { OnOk result (length (seen_of self.now).open_elements ≡ 0 → length (seen_of self.now).tags ≡ 0) }
        ensures distinct { OnOk result (IsTrue distinct) }
    {
        let depth = self.open.len();
        if depth == 0 && !self.tags.is_empty() {
            return Err(TagKind::BadMark);
        }
        if !distinct {
            return Err(TagKind::Twice);
        }
        if depth >= MAX_DEPTH {
            return Err(TagKind::Depth);
        }
        if self.tags.len() >= MAX_TAGS {
            return Err(TagKind::TooMany);
        }
        Ok(())
    }

    /// Takes a start tag whose `<` is at a place.
    #[tactic(auto, using(crate::proofs::Distinct::distinct_holds), unfolding(crate::specs::Seen::started))]
    fn start(&mut self, alloc: Global, place: u64, start: StartTag) -> Result<(), TagKind>
        ensures { Gives Memory (λ _. seen_of self.new) result (started (seen_of self.old) place start) }
    {
        let names = name_count(alloc, start.attrs.as_slice())?;
        self.may_start(are_distinct(names, start.attrs.as_slice()))?;
        if start.closes {
            return self.add(place, start);
        }
        let name = Text::copy(alloc, start.name.as_str())?;
        self.add(place, start)?;
        self.open.push(OpenElement { name, place })?;
        Ok(())
    }

    /// Adds the tag of a start tag whose `<` is at a place.
    fn add(&mut self, place: u64, start: StartTag) -> Result<(), TagKind>
        requires shallow { length (seen_of self.old).open_elements < MAX_DEPTH }
        requires room { length (seen_of self.old).tags < MAX_TAGS }
        requires nested { length (seen_of self.old).open_elements ≡ 0 → length (seen_of self.old).tags ≡ 0 }
        requires distinct { HasDistinctNames start.attrs }
        ensures { Gives Memory (λ _. seen_of self.new) result (Ok (with_tag (seen_of self.old) place start)) }
    {
        self.tags.push(Tag {
            name: start.name,
            place,
            depth: self.open.len() as u32 + 1,
            attrs: start.attrs,
        })?;
        Ok(())
    }

    /// Takes an end tag.
    #[tactic(auto, unfolding(crate::specs::Seen::ended))]
    fn end(&mut self, name: &str) -> Result<(), TagKind>
        ensures gives { Gives Memory (λ _. seen_of self.new) result (ended (seen_of self.old) name.now) }
        ensures takes_no_memory { result ≢ Err Memory }
    {
        match self.open.pop() {
            Some(innermost) if innermost.name.as_str() == name => Ok(()),
            _ => Err(TagKind::Mismatch),
        }
    }

    /// Takes a section of data, which stands only inside an element.
    #[tactic(auto, unfolding(crate::specs::Seen::with_data))]
    fn data(&self) -> Result<(), TagKind>
        ensures gives { Gives Memory (λ _. seen_of self.now) result (with_data (seen_of self.now)) }
        ensures takes_no_memory { result ≢ Err Memory }
    {
        if self.open.is_empty() {
            return Err(TagKind::BadMark);
        }
        Ok(())
    }

    /// Takes a mark whose `<` is at a place.
    fn take(&mut self, alloc: Global, place: u64, read: ReadMark<'_>) -> Result<(), TagKind>
        ensures gives { Gives Memory (λ _. seen_of self.new) result (marked (seen_of self.old) place (mark_of read.entry)) }
        ensures memory { result ≡ Err Memory → (start : StartTag) × (mark_of read.entry ≡ Mark.Start start) }
    {
        match read {
            ReadMark::Passed => Ok(()),
            ReadMark::Data => self.data(),
            ReadMark::Start(start) => self.start(alloc, place, start),
            ReadMark::End(name) => self.end(name),
        }
    }

    /// Takes the mark at the front, from after its `<`, which is at a place, and gives the text after it, or the kind of its fault.
    #[tactic(auto, unfolding(crate::specs::Seen::marked_at))]
    fn take_mark<'b>(
        &mut self,
        alloc: Global,
        place: u64,
        text: &'b str,
    ) -> Result<&'b str, TagKind>
        ensures { Gives Memory (λ rest. (seen_of self.new, rest.now)) result (marked_at (seen_of self.old) place text.now) }
    {
        let (read, rest) = mark(alloc, text)?;
        self.take(alloc, place, read)?;
        Ok(rest)
    }

    /// Takes the mark at the front, from after its `<`, which is at a place, and gives the text after it.
    #[tactic(auto, unfolding(crate::specs::Seen::read_mark))]
    pub fn mark<'b>(
        &mut self,
        alloc: Global,
        place: u64,
        text: &'b str,
    ) -> Result<&'b str, TagFault>
        ensures { Gives no_memory (λ rest. (seen_of self.new, rest.now)) result (read_mark (seen_of self.old) place text.now) }
    {
        match self.take_mark(alloc, place, text) {
            Ok(rest) => Ok(rest),
            Err(kind) => Err(fault(kind, place)),
        }
    }

    /// Passes over the text before the next mark, from a place, and gives what is left.
    #[tactic(auto, unfolding(crate::specs::Seen::read_text))]
    pub fn text<'b>(&self, place: u64, text: &'b str) -> Result<&'b str, TagFault>
        requires { place + length text.now < 2 ^ 64 }
        ensures gives { Gives no_memory (λ rest. rest.now) result (read_text (seen_of self.now) place text.now) }
        ensures takes_no_memory { result ≢ Err no_memory }
    {
        let (before, rest) = Class::Text.run(text);
        let (space, other) = Class::Space.run(before);
        if self.open.is_empty() && !other.is_empty() {
            return Err(TagFault {
                kind: TagKind::BadMark,
                at: place + space.len() as u64,
            });
        }
        Ok(rest)
    }

    /// The tags, at the end of a file of a size.
    #[tactic(auto, unfolding(crate::specs::Seen::finished))]
    pub fn finish(self, size: u64) -> Result<Tags, TagFault>
        ensures gives { Gives no_memory (λ tags. tags) result (finished (seen_of self) size) }
        ensures takes_no_memory { result ≢ Err no_memory }
    {
        if let Some(innermost) = self.open.last() {
            return Err(TagFault {
                kind: TagKind::Unclosed,
                at: innermost.place,
            });
        }
        if self.tags.is_empty() {
            return Err(TagFault {
                kind: TagKind::Unclosed,
                at: size,
            });
        }
        Ok(Tags { tags: self.tags })
    }
}
