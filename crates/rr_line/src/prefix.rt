//! What precedes the field in the key texts of a point.

ghost use Rattle.std.specs.Prelude.{◌≡◌, [], IfSome};
ghost use Rattle.rr_key.specs.Reading.{rises};
ghost use Rattle.rr_point.specs.Prefix.{tags_view};
ghost use Rattle.rr_line.specs.Prefix.{IsPlain};

use rr_point::Tag;
use rr_text::bytes::BACKSLASH;

/// The text that precedes the fields of a line, if key texts have it verbatim: no name has a
/// backslash, and the keys of the tags rise.
pub(crate) fn key_prefix<'a>(text: &'a [u8], tags: &[Tag<'_>]) -> Option<&'a [u8]>
    ensures same { IfSome result (λ prefix. prefix.now ≡ text.now) }
    ensures plain { IfSome result (λ _. IsPlain text.now (tags_view tags.now)) }
{
    if !text.contains(&BACKSLASH) && rises(tags) {
        Some(text)
    } else {
        None
    }
}

/// Whether the keys rise.
fn rises(tags: &[Tag<'_>]) -> bool
    ensures { result ≡ rises [] (tags_view tags.now) }
{
    // No key is empty, so each is above this one.
    let mut before: &[u8] = b"";
    for tag in tags {
        if before.cmp(tag.key).is_ge() {
            return false;
        }
        before = tag.key;
    }
    true
}
