//! Where a written name ends, and what may be a name.

ghost use Rattle.std.specs.Prelude.{◌≡◌, ◌≤◌, length, option_map};
ghost use Rattle.memchr.specs.Find.{IsFirstByte};
ghost use Rattle.rr_key.specs.Class.{is_special};
ghost use Rattle.rr_key.specs.Unit.{name_len};
ghost use Rattle.rr_key.specs.Name.{ends_in_backslash, is_bad, is_name};
ghost use Rattle.rr_key.specs.Reading.{name_at};

use crate::class::{Class, is_special};
use memchr::{memchr2, memchr3};
use rr_text::bytes::{BACKSLASH, COMMA, EQUALS, LINE_FEED, SPACE};

/// How many bytes the written name at the beginning of the text takes: up to the first special byte
/// of the class that isn't taken by a backslash, or to the end.
///
/// A backslash before a special byte takes it; any other backslash is a byte of the name. The rule
/// is that of the "InfluxDB line protocol reference". The cost is one pass over the name, and no
/// memory.
pub fn name_len(class: Class, text: &[u8]) -> usize
    ensures value { result ≡ name_len class text.now }
    ensures within { result ≤ length text.now }
{
    let mut from = 0;
    while let Some(at) = find_special(class, &text[from..]) {
        let end = from + at;
        if at == 0 || text[end - 1] != BACKSLASH {
            return end;
        }
        from = end + 1;
    }
    text.len()
}

/// How many bytes are read one by one before the rest is searched: most names are shorter, and
/// starting a search costs more than reading them.
const NEAR: usize = 8;

/// Where the first special byte of the class is.
fn find_special(class: Class, text: &[u8]) -> Option<usize>
    ensures { IsFirstByte (is_special class) text.now result }
{
    let near = text.len().min(NEAR);
    for i in 0..near {
        if is_special(class, text[i]) {
            return Some(i);
        }
    }
    match search_special(class, &text[near..]) {
        Some(at) => Some(near + at),
        None => None,
    }
}

/// Where the first special byte of the class is, by a search of many bytes at once.
fn search_special(class: Class, text: &[u8]) -> Option<usize>
    ensures { IsFirstByte (is_special class) text.now result }
{
    match class {
        Class::Measurement => memchr2(COMMA, SPACE, text),
        Class::Other => memchr3(COMMA, SPACE, EQUALS, text),
    }
}

/// Whether a name can't be one of a key: it has a line feed or ends in a backslash.
pub(crate) fn is_bad(name: &[u8]) -> bool
    ensures { result ≡ is_bad name.now }
{
    name.contains(&LINE_FEED) || ends_in_backslash(name)
}

#[tactic(auto, using(crate::proofs::NameLemmas::ends_in_backslash_at))]
fn ends_in_backslash(name: &[u8]) -> bool
    ensures { result ≡ ends_in_backslash name.now }
{
    match name.last() {
        Some(byte) => *byte == BACKSLASH,
        None => false,
    }
}

/// Whether the bytes may be a name of a key.
fn is_name(name: &[u8]) -> bool
    ensures { result ≡ is_name name.now }
{
    !name.is_empty() && !is_bad(name)
}

/// The written name at the beginning and the bytes after it, if it may be one of a key.
pub(crate) fn split_name(class: Class, text: &[u8]) -> Option<(&[u8], &[u8])>
    ensures { option_map (λ parts. (parts.0.now, parts.1.now)) result ≡ name_at class text.now }
{
    let (name, rest) = text.split_at(name_len(class, text));
    if is_name(name) {
        Some((name, rest))
    } else {
        None
    }
}
