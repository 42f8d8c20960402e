// The lines of a file that are left: those that are not empty and no remarks.
ghost use Rattle.std.specs.Prelude.{◌≡◌, ◌≤◌, ◌<◌, ◌+◌, ◌-◌, ◌^◌, ◌∷◌, [], length, IfSome, MatchOption};
ghost use Rattle.rb_constraint.specs.File.{numbered_line, is_kept, lines_from};

use rb_io::first_line;

/// A line with its number, and what is behind it.
#[derive(Clone, Copy, Debug)]
pub(crate) struct Kept<'a> {
    pub number: u64,
    pub content: &'a [u8],
    pub rest: &'a [u8],
}

/// Whether a line is neither empty nor a remark.
fn is_kept(line: &[u8]) -> bool
    ensures { result ≡ is_kept line.now }
{
    match line {
        [] => false,
        [first, ..] => *first != b'#',
    }
}

/// The first line of a text that is left, where the text begins with the line of this number.
pub(crate) fn next_kept(text: &[u8], number: u64) -> Option<Kept<'_>>
    requires room { number + length text.now ≤ 2 ^ 64 - 1 }
    ensures lines { MatchOption result (lines_from number text.now ≡ [])
        (λ kept. lines_from number text.now ≡ numbered_line kept.number kept.content.now ∷ lines_from (kept.number + 1) kept.rest.now) }
    ensures room { IfSome result (λ kept. kept.number + 1 + length kept.rest.now ≤ number + length text.now) }
    ensures shorter { IfSome result (λ kept. length kept.rest.now < length text.now) }
{
    let mut rest = text;
    let mut at = number;
    'lines: while !rest.is_empty() {
        let cut = first_line(rest);
        if is_kept(cut.content) {
            return Some(Kept {
                number: at,
                content: cut.content,
                rest: cut.rest,
            });
        }
        rest = cut.rest;
        at += 1;
    }
    None
}
