// The words of a text.
ghost use Rattle.std.specs.Prelude.{◌≡◌, ◌≤◌, ◌∷◌, [], length, MatchOption};
ghost use Rattle.std.specs.List.{prefix_len, position_or_len};
ghost use Rattle.rb_tags.specs.Bytes.{is_space};
ghost use Rattle.rb_tags.specs.Words.{words};

use crate::bytes::is_space;

/// How many bytes of white space are at the front.
fn space_len(text: &[u8]) -> usize
    ensures value { result ≡ prefix_len is_space text.now }
    ensures within { result ≤ length text.now }
{
    text.iter().take_while(|byte| is_space(**byte)).count()
}

/// How many bytes of no white space are at the front.
fn word_len(text: &[u8]) -> usize
    ensures value { result ≡ position_or_len is_space text.now }
    ensures within { result ≤ length text.now }
{
    text.iter().take_while(|byte| !is_space(**byte)).count()
}

/// The first word of a text, and the text behind it. Words stand between white space: spaces, tabs, CRs and LFs.
pub fn next_word(text: &[u8]) -> Option<(&[u8], &[u8])>
    ensures { MatchOption result (words text.now ≡ []) (λ next. words text.now ≡ next.0.now ∷ words next.1.now) }
{
    let (_, text) = text.split_at(space_len(text));
    let len = word_len(text);
    if len == 0 {
        return None;
    }
    Some(text.split_at(len))
}
