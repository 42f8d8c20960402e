//! The tags of a file, and its first fault.
use rb_tags::{
    ElementRef, Names, Tag, TagFault, TagKind, attribute_in, child_in, is_child, next_word,
    read_tags,
};
use std::alloc::{AllocError, Global};

const LIFT: &[u8] =
    b"<robot name=\"lift\"><link name=\"base\"/><link name=\"car\"><inertial><mass value=\"2\"/></inertial></link><joint name=\"lift\" type=\"prismatic\"><parent link=\"base\"/><child link=\"car\"/><axis xyz=\"0 0 1\"/></joint></robot>";

const LIFT_TAGS: [(&str, u64, u32); 9] = [
    ("robot", 0, 1),
    ("link", 19, 2),
    ("link", 38, 2),
    ("inertial", 55, 3),
    ("mass", 65, 4),
    ("joint", 100, 2),
    ("parent", 136, 3),
    ("child", 157, 3),
    ("axis", 176, 3),
];

fn is_tag(tag: &Tag, name: &str, place: u64, depth: u32) -> bool {
    tag.name.as_str() == name && tag.place == place && tag.depth == depth
}

fn is_lift(tags: &[Tag]) -> bool {
    for (tag, (name, place, depth)) in tags.iter().zip(LIFT_TAGS.iter()) {
        if !is_tag(tag, name, *place, *depth) {
            return false;
        }
    }
    tags.len() == 9
}

// Whether the second attribute says that a joint slides.
fn slides(tag: &Tag) -> bool {
    let [_, kind] = tag.attrs.as_slice() else {
        return false;
    };
    kind.name.as_str() == "type" && kind.value.as_str() == "prismatic"
}

#[test]
fn lift(rt: HostRuntime) {
    let Ok(tags) = read_tags(rt.alloc(), LIFT) else {
        assert!(rt; false, "the lift is read");
        return;
    };
    let tags = tags.as_slice();
    assert!(rt; is_lift(tags) && matches!(tags.get(5), Some(joint) if slides(joint)));
}

// A file, how many tags it has, and the name, the place and the depth of the last.
const READ: [(&str, usize, &str, u64, u32); 8] = [
    ("\u{feff} \n<a></a>", 1, "a", 5, 1),
    ("<a><!-- <b> --><?p?><![CDATA[<c>]]><d/></a>", 2, "d", 35, 2),
    ("<!-->--><a/>", 1, "a", 8, 1),
    ("<a b='>' c=\"/>\"/>", 1, "a", 0, 1),
    ("<ns:a-b.c_1é/>", 1, "ns:a-b.c_1é", 0, 1),
    ("<a><b><c/></b><d></d></a>", 4, "d", 14, 2),
    ("<a>é<b/>x &foo; > ]]> '</a>", 2, "b", 5, 2),
    ("<a></a><?p?>\n<!-- --> ", 1, "a", 0, 1),
];

// Whether a file has so many tags, of which this is the last.
fn ends_in(alloc: Global, text: &str, count: usize, name: &str, place: u64, depth: u32) -> bool {
    let Ok(tags) = read_tags(alloc, text.as_bytes()) else {
        return false;
    };
    let tags = tags.as_slice();
    tags.len() == count && matches!(tags.last(), Some(tag) if is_tag(tag, name, place, depth))
}

#[test]
fn read(rt: HostRuntime) {
    for (text, count, name, place, depth) in READ.iter() {
        assert!(rt;
            ends_in(rt.alloc(), text, *count, name, *place, *depth),
            "in {text}"
        );
    }
}

// A file of one tag, and the value of its first attribute.
const VALUES: [(&str, &str); 10] = [
    ("<a b=\"'>/=]]>\"/>", "'>/=]]>"),
    ("<a b=' \t\r\n '/>", " \t\r\n "),
    ("<a b='&amp;&lt;&gt;&quot;&apos;'/>", "&<>\"'"),
    ("<a b='1&amp;lt;2'/>", "1&lt;2"),
    ("<a b='&#65;&#x42;&#x6a;&#x4A;'/>", "ABjJ"),
    ("<a b='&#x00000000000000000041;'/>", "A"),
    ("<a b='&#8364;&#x20aC;'/>", "€€"),
    ("<a b='&#1114111;'/>", "\u{10ffff}"),
    ("<a b='é&#233;é'/>", "ééé"),
    ("<a\nb\t=\r\"1\" c='2'>/</a>", "1"),
];

fn has_value(alloc: Global, text: &str, value: &str) -> bool {
    let Ok(tags) = read_tags(alloc, text.as_bytes()) else {
        return false;
    };
    let Some(tag) = tags.as_slice().first() else {
        return false;
    };
    let attrs = tag.attrs.as_slice();
    matches!(attrs.first(), Some(attr) if attr.name.as_str() == "b" && attr.value.as_str() == value)
}

#[test]
fn values(rt: HostRuntime) {
    for (text, value) in VALUES.iter() {
        assert!(rt; has_value(rt.alloc(), text, value), "in {text}");
    }
}

// Values that do not fit.
const BAD_VALUES: [&str; 9] = [
    "<",
    "&amp",
    "&foo;",
    "&AMP;",
    "&#X41;",
    "&#xD800;",
    "&#x110000;",
    "&#x100000041;",
    "&#٣;",
];

// Whether an attribute cannot have this value.
fn is_bad(alloc: Global, value: &str) -> bool {
    let Ok(text) = format!(in alloc; "<a b=\"1{value}\"/>") else {
        return false;
    };
    is_faulted(alloc, text.as_bytes(), TagKind::BadMark, 0)
}

#[test]
fn bad_values(rt: HostRuntime) {
    for value in BAD_VALUES.iter() {
        assert!(rt; is_bad(rt.alloc(), value), "at {value}");
    }
}

// A file that is not UTF-8, and the place of its fault.
const NOT_UTF8: [(&[u8], u64); 6] = [
    (b"<a>\xff</a>", 3),
    (b"<a/>\xe2\x82", 4),
    (b"<a/>\xc0\xaf", 4),
    (b"<a/>\xed\xa0\x80", 4),
    (b"\xef\xbb\xbf<a>\x80", 6),
    (b"</b>\x80", 4),
];

#[test]
fn not_utf8(rt: HostRuntime) {
    for (bytes, at) in NOT_UTF8.iter() {
        assert!(rt;
            is_faulted(rt.alloc(), bytes, TagKind::NotUtf8, *at),
            "at {at}"
        );
    }
}

// A file, and its first fault with the fault's place.
const FAULTS: [(&str, TagKind, u64); 19] = [
    ("", TagKind::Unclosed, 0),
    ("<a><b></b>", TagKind::Unclosed, 0),
    ("<a b=\">", TagKind::Unclosed, 0),
    ("<a></a '>", TagKind::Unclosed, 3),
    ("<![CDATA[ ]]", TagKind::Unclosed, 0),
    ("<!DOCTYPE a><a/>", TagKind::Doctype, 0),
    ("<!doctype a><a/>", TagKind::BadMark, 0),
    ("<>", TagKind::BadMark, 0),
    ("<a b/>", TagKind::BadMark, 0),
    ("<a b='1'c='2'/>", TagKind::BadMark, 0),
    ("<a></a b='1'>", TagKind::BadMark, 3),
    ("<a/><b/>", TagKind::BadMark, 4),
    ("x<a/>", TagKind::BadMark, 0),
    ("\u{feff}\u{feff}<a/>", TagKind::BadMark, 3),
    ("<a><b c='1' d='' c=\"1\"></c></a>", TagKind::Twice, 3),
    ("</a>", TagKind::Mismatch, 0),
    ("<ab></a>", TagKind::Mismatch, 4),
    ("<a></a></a>", TagKind::Mismatch, 7),
    ("<a/><?p", TagKind::Unclosed, 4),
];

#[test]
fn faults(rt: HostRuntime) {
    for (text, kind, at) in FAULTS.iter() {
        assert!(rt;
            is_faulted(rt.alloc(), text.as_bytes(), *kind, *at),
            "in {text}"
        );
    }
}

// What follows 64 open elements, and the first fault there.
const DEEP: [(&str, TagKind, u64); 3] = [
    ("<a/>", TagKind::Depth, 192),
    ("<a b='' b=''>", TagKind::Twice, 192),
    ("</b>", TagKind::Mismatch, 192),
];

// A piece so many times.
fn repeated(alloc: Global, piece: &str, count: usize) -> Result<String, AllocError> {
    let mut text = String::new(alloc);
    for _ in 0..count {
        text.push_str(piece)?;
    }
    Ok(text)
}

// Whether this is the first fault behind 64 open elements.
fn is_deep(alloc: Global, tail: &str, kind: TagKind, at: u64) -> bool {
    let Ok(mut text) = repeated(alloc, "<a>", 64) else {
        return false;
    };
    text.push_str(tail).is_ok() && is_faulted(alloc, text.as_bytes(), kind, at)
}

#[test]
fn depth(rt: HostRuntime) {
    for (tail, kind, at) in DEEP.iter() {
        assert!(rt; is_deep(rt.alloc(), tail, *kind, *at), "in {tail}");
    }
}

// 64 elements, each in the one before.
fn deepest(alloc: Global) -> Result<String, AllocError> {
    let mut text = repeated(alloc, "<a>", 64)?;
    text.push_str(repeated(alloc, "</a>", 64)?.as_str())?;
    Ok(text)
}

#[test]
fn most_depth(rt: HostRuntime) {
    let text = deepest(rt.alloc());
    assert!(rt; matches!(&text, Ok(text) if ends_in(rt.alloc(), text, 64, "a", 189, 64)));
}

// Whether these elements in another are 262,144.
fn is_most(alloc: Global, inside: &str) -> bool {
    let Ok(text) = format!(in alloc; "<a>{inside}</a>") else {
        return false;
    };
    ends_in(alloc, text.as_str(), 262_144, "b", 1_048_571, 2)
}

// Whether the file has too many tags with one more.
fn is_too_many(alloc: Global, inside: &str) -> bool {
    let Ok(text) = format!(in alloc; "<a>{inside}<b/></a>") else {
        return false;
    };
    is_faulted(alloc, text.as_bytes(), TagKind::TooMany, 1_048_575)
}

#[test]
fn many(rt: HostRuntime) {
    let Ok(inside) = repeated(rt.alloc(), "<b/>", 262_143) else {
        assert!(rt; false, "no memory");
        return;
    };
    let inside = inside.as_str();
    assert!(rt; is_most(rt.alloc(), inside) && is_too_many(rt.alloc(), inside));
}

fn is_faulted(alloc: Global, bytes: &[u8], kind: TagKind, at: u64) -> bool {
    match read_tags(alloc, bytes) {
        Ok(_) => false,
        Err(fault) => fault == TagFault { kind, at },
    }
}

// Whether an attribute has this value.
fn says(value: Option<&str>, text: &str) -> bool {
    matches!(value, Some(value) if value == text)
}

fn is_first(first: ElementRef<'_>) -> bool {
    first.inside.len() == 1
        && says(first.attribute("c"), "1")
        && first.given("e").is_none()
        && is_child("b", 1, first.tag)
}

fn has_elements(root: ElementRef<'_>) -> bool {
    let Some(first) = root.child("b") else {
        return false;
    };
    root.inside.len() == 4
        && is_first(first)
        && attribute_in("f", child_in("d", Some(first))).is_none()
        && says(attribute_in("f", child_in("d", Some(root))), " 1\t2\n")
}

fn has_element(tags: &[Tag]) -> bool {
    match tags {
        [root, behind @ ..] => has_elements(ElementRef::new(root, behind)),
        [] => false,
    }
}

#[test]
fn elements(rt: HostRuntime) {
    let text = "<a><b c='1'><d/></b><b c='2' e=''/><d f=' 1\t2\n'/></a>";
    let tags = read_tags(rt.alloc(), text.as_bytes());
    assert!(rt; matches!(&tags, Ok(tags) if has_element(tags.as_slice())));
}

// What stands behind the first word, where it is this.
fn past_word<'b>(text: &'b [u8], word: &[u8]) -> Option<&'b [u8]> {
    match next_word(text) {
        Some((found, rest)) if found == word => Some(rest),
        _ => None,
    }
}

fn has_two_words(text: &[u8]) -> bool {
    let Some(rest) = past_word(text, b"1") else {
        return false;
    };
    matches!(past_word(rest, b"2"), Some(rest) if next_word(rest).is_none())
}

#[test]
fn words(rt: HostRuntime) {
    assert!(rt; has_two_words(b" 1\t2\n"));
}

#[test]
fn names(rt: HostRuntime) {
    let mut names = Names::new(rt.alloc());
    assert!(rt;
        matches!(names.add("a"), Ok(true))
            && matches!(names.add("b"), Ok(true))
            && matches!(names.add("a"), Ok(false))
            && names.number_of("b") == Some(1)
            && names.number_of("c").is_none()
    );
}
