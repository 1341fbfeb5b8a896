//! The bytes that divide lines, keys, scripts and requests, and texts that occur twice. The bytes
//! are pinned below to their ASCII numbers.

ghost use Rattle.std.specs.Prelude.{◌≡◌, ℕ, List, map, option_map};
ghost use Rattle.rr_text.specs.Bytes.{begins, strip, is_among, has_repeat};

/// Ends a line.
pub const LINE_FEED: u8 = b'\n';

/// Dropped at the end of a line.
pub const RETURN: u8 = b'\r';

/// Separates words, and the parts of a line.
pub const SPACE: u8 = b' ';

/// Separates the measurement, the tags and the fields.
pub const COMMA: u8 = b',';

/// Separates a key from its value.
pub const EQUALS: u8 = b'=';

/// Escapes the special byte after it.
pub const BACKSLASH: u8 = b'\\';

/// Begins a comment.
pub const HASH: u8 = b'#';

/// The sign of a number below zero.
pub const MINUS: u8 = b'-';

const _: () = prove!(LINE_FEED == 10);

const _: () = prove!(RETURN == 13);

const _: () = prove!(SPACE == 32);

const _: () = prove!(COMMA == 44);

const _: () = prove!(EQUALS == 61);

const _: () = prove!(BACKSLASH == 92);

const _: () = prove!(HASH == 35);

const _: () = prove!(MINUS == 45);

/// Whether the text begins with a byte.
pub fn begins(byte: u8, text: &[u8]) -> bool
    ensures { result ≡ begins byte text.now }
{
    matches!(text, [first, ..] if *first == byte)
}

/// The text after a byte, if it begins with that byte.
pub fn strip(byte: u8, text: &[u8]) -> Option<&[u8]>
    ensures { option_map (λ rest. rest.now) result ≡ strip byte text.now }
{
    match text {
        [first, rest @ ..] if *first == byte => Some(rest),
        _ => None,
    }
}

/// An entry that has a key.
pub trait Keyed {
    ghost key_of: { Self → List ℕ };

    /// The entry's key.
    fn key(&self) -> &[u8]
        ensures { result.now ≡ key_of self.now };
}

impl Keyed for (&[u8], &[u8]) {
    ghost key_of = { λ entry. entry.0.now };

    fn key(&self) -> &[u8] {
        self.0
    }
}

/// Whether a key is among the keys of entries.
fn is_among<T: Keyed>(key: &[u8], entries: &[T]) -> bool
    ensures { result ≡ is_among key.now (map T.key_of entries.now) }
{
    for entry in entries {
        if entry.key().cmp(key).is_eq() {
            return true;
        }
    }
    false
}

/// Whether a key occurs twice among entries. They are compared pair by pair, which is cheap for few
/// of them and takes no memory.
pub fn has_repeat<T: Keyed>(entries: &[T]) -> bool
    ensures { result ≡ has_repeat (map T.key_of entries.now) }
{
    let mut left = entries;
    while let [first, others @ ..] = left {
        if is_among(first.key(), others) {
            return true;
        }
        left = others;
    }
    false
}
