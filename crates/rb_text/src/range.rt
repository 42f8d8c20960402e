ghost use Rattle.std.specs.Prelude.{◌≡◌, None, Some, MatchOption};
ghost use Rattle.rb_text.specs.Range.{split_of};

use memchr::memmem;

/// The texts before and behind the first two points in a row.
pub fn split(text: &[u8]) -> Option<(&[u8], &[u8])>
    ensures { MatchOption result (split_of text.now ≡ None) (λ h.
        split_of text.now ≡ Some (record { first = h.0.now; second = h.1.now })) }
{
    match memmem::find(text, b"..") {
        Some(place) => Some((&text[..place], &text[place + 2..])),
        None => None,
    }
}
