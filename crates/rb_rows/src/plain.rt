// Plain lines: one record without quotes, which is cut at its commas, and takes no memory.
ghost use Rattle.std.specs.Prelude.{◌≡◌, ◌≤◌, ◌<◌, ◌+◌, [], ◌∷◌, length, position, count_by};
ghost use Rattle.std.specs.List.{list_any};
ghost use Rattle.rb_io.specs.declared.lines.TheConstants.{MOST_LINE};
ghost use Rattle.rb_rows.specs.Plain.{is_mark, is_comma, is_plain, parts_of};

use memchr::{memchr_iter, memchr3};

/// Whether a line has a quote, a CR or an LF in it.
#[tactic(auto, using(crate::proofs::PlainLines::mark_found))]
fn has_mark(line: &[u8]) -> bool
    ensures { result ≡ list_any is_mark line.now }
{
    memchr3(b'"', b'\r', b'\n', line).is_some()
}

/// Whether a line is known to be one record, whose fields are what stands between its commas.
pub(crate) fn is_plain(line: &[u8]) -> bool
    ensures { result ≡ is_plain line.now }
{
    match line {
        [] => false,
        [first, ..] => *first != 0xEF && !has_mark(line),
    }
}

#[tactic(auto, using(crate::proofs::PlainLines::commas_counted))]
fn comma_count(line: &[u8]) -> usize
    ensures { result ≡ count_by is_comma line.now }
{
    memchr_iter(b',', line).count()
}

/// How many fields a plain line has.
#[tactic(auto, using(crate::proofs::PlainLines::parts_counted, crate::proofs::PlainLines::commas_few))]
pub(crate) fn field_count(line: &[u8]) -> usize
    requires { length line.now ≤ MOST_LINE }
    ensures count { result ≡ length (parts_of line.now) }
    ensures few { result ≤ MOST_LINE + 1 }
{
    comma_count(line) + 1
}

fn comma(line: &[u8]) -> Option<usize>
    ensures { result ≡ position is_comma line.now }
{
    line.iter().position(|byte| *byte == b',')
}

/// The first field of a plain line, and what is behind its comma; nothing is behind the last field.
pub(crate) fn first_field(line: &[u8]) -> (&[u8], &[u8])
    ensures more { 1 < length (parts_of line.now) → parts_of line.now ≡ result.0.now ∷ parts_of result.1.now }
    ensures last { length (parts_of line.now) ≡ 1 → parts_of line.now ≡ result.0.now ∷ [] }
{
    match comma(line) {
        Some(end) => (&line[..end], &line[end + 1..]),
        None => (line, &[]),
    }
}
