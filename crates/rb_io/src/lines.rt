//! Lines of a text.
ghost use Rattle.std.specs.Prelude.{◌≡◌, ◌⊎◌, ◌≤◌, ◌<◌, [], ◌∷◌, length, position, IfSome, MatchOption};
ghost use Rattle.std.specs.Str.Lines.{strip_carriage_return};
ghost use Rattle.rb_io.specs.Cut.{is_line_feed, line, all_lines, lines_of};

/// The most bytes of a line, without its LF.
pub const MOST_LINE: usize = 65_536;

/// A line of a text, and what is behind it.
#[derive(Clone, Copy, Debug)]
pub struct Cut<'a> {
    /// The line without its end.
    pub content: &'a [u8],
    /// The length of the line in bytes, without its LF and with a CR before that.
    pub size: usize,
    /// What is behind the line.
    pub rest: &'a [u8],
}

fn line_feed(text: &[u8]) -> Option<usize>
    ensures { result ≡ position is_line_feed text.now }
{
    text.iter().position(|byte| *byte == b'\n')
}

fn without_return(line: &[u8]) -> &[u8]
    ensures content { result.now ≡ strip_carriage_return line.now }
    ensures shorter { length result.now ≤ length line.now }
{
    match line {
        [content @ .., b'\r'] => content,
        _ => line,
    }
}

/// The first line, be it empty, and what is behind it. Where nothing is behind an LF, an empty line follows, and none follows where no LF
/// ends the line.
pub fn first_line(text: &[u8]) -> Cut<'_>
    requires { 0 < length text.now }
    ensures all { (all_lines text.now ≡ line result.content.now result.size ∷ all_lines result.rest.now)
        ⊎ ((result.rest.now ≡ []) × (all_lines text.now ≡ line result.content.now result.size ∷ [])) }
    ensures filled { 0 < length result.content.now
        → lines_of text.now ≡ line result.content.now result.size ∷ lines_of result.rest.now }
    ensures empty { result.content.now ≡ [] → lines_of text.now ≡ lines_of result.rest.now }
    ensures within { length result.content.now ≤ result.size }
    ensures shorter { length result.rest.now < length text.now }
{
    match line_feed(text) {
        Some(end) => Cut {
            content: without_return(&text[..end]),
            size: end,
            rest: &text[end + 1..],
        },
        None => Cut {
            content: text,
            size: text.len(),
            rest: &[],
        },
    }
}

/// The first line that is not empty, and what is behind it; none where each line is empty.
pub fn next_line(text: &[u8]) -> Option<Cut<'_>>
    ensures lines { MatchOption result (lines_of text.now ≡ [])
        (λ cut. lines_of text.now ≡ line cut.content.now cut.size ∷ lines_of cut.rest.now) }
    ensures within { IfSome result (λ cut. length cut.content.now ≤ cut.size) }
    ensures shorter { IfSome result (λ cut. length cut.rest.now < length text.now) }
{
    let mut rest = text;
    'lines: while !rest.is_empty() {
        let cut = first_line(rest);
        if !cut.content.is_empty() {
            return Some(cut);
        }
        rest = cut.rest;
    }
    None
}
