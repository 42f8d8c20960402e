ghost use Rattle.std.specs.Prelude.{◌≡◌, ◌∷◌, [], IfOk};
ghost use Rattle.rb_text.specs.Three.{brackets_of_three, three_of, IsThree};

use crate::bracket::{TextFault, read_bracket};
use rb_num::Iv;
use rb_tags::next_word;

// The brackets of three words.
fn three(first: &[u8], second: &[u8], third: &[u8]) -> Result<[Iv; 3], TextFault>
    ensures { result ≡ brackets_of_three (first.now ∷ second.now ∷ third.now ∷ []) }
{
    let first = read_bracket(first)?;
    let second = read_bracket(second)?;
    let third = read_bracket(third)?;
    Ok([first, second, third])
}

/// The brackets of a list of three numbers, in units of one part in 10^12. It takes no memory.
///
/// The text is three words between white space, and nothing else: it is refused as `NotNumber` where it has fewer or more, and else as
/// `read_bracket` refuses the first word that it refuses.
#[tactic(auto, using(crate::proofs::Threes::three_says), unfolding(crate::specs::Three::three_of))]
pub fn read_three(text: &[u8]) -> Result<[Iv; 3], TextFault>
    ensures exact { result ≡ three_of text.now }
    ensures says { IfOk result (IsThree text.now) }
{
    let Some((first, text)) = next_word(text) else {
        return Err(TextFault::NotNumber);
    };
    let Some((second, text)) = next_word(text) else {
        return Err(TextFault::NotNumber);
    };
    let Some((third, text)) = next_word(text) else {
        return Err(TextFault::NotNumber);
    };
    match next_word(text) {
        Some(_) => Err(TextFault::NotNumber),
        None => three(first, second, third),
    }
}
