//! A text, split into lines and words.

ghost use Rattle.std.specs.Prelude.{◌≡◌, ◌<◌, length, false, [], ◌∷◌, MatchOption, IfSome};
ghost use Rattle.rr_cluster.specs.ScriptWords.{are_three, parts_of, words_of};

use rr_text::bytes::SPACE;
use rr_text::text::cut;

/// The first part of a text that is split at a delimiter, and what follows it.
pub(crate) fn first_part(delimiter: u8, text: &[u8]) -> Option<(&[u8], &[u8])>
    ensures parts { MatchOption result (parts_of delimiter text.now ≡ text.now ∷ [])
        (λ cut. parts_of delimiter text.now ≡ cut.0.now ∷ parts_of delimiter cut.1.now) }
    ensures shorter { IfSome result (λ cut. length cut.1.now < length text.now) }
{
    cut(delimiter, text)
}

/// The first word, and what follows the space after it.
pub fn first_word(words: &[u8]) -> Option<(&[u8], &[u8])>
    ensures words { MatchOption result (words_of words.now ≡ words.now ∷ [])
        (λ cut. words_of words.now ≡ cut.0.now ∷ words_of cut.1.now) }
    ensures shorter { IfSome result (λ cut. length cut.1.now < length words.now) }
{
    first_part(SPACE, words)
}

/// The words of a text, if there are three.
pub(crate) fn three_words(words: &[u8]) -> Option<(&[u8], &[u8], &[u8])>
    ensures { MatchOption result (are_three (words_of words.now) ≡ false)
        (λ three. words_of words.now ≡ three.0.now ∷ three.1.now ∷ three.2.now ∷ []) }
{
    let (first, rest) = first_word(words)?;
    let (second, third) = first_word(rest)?;
    match first_word(third) {
        Some(_) => None,
        None => Some((first, second, third)),
    }
}
