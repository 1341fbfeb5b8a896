//! Keys that occur twice.

ghost use Rattle.std.specs.Prelude.{◌≡◌, ◌≤◌, not, map, length};
ghost use Rattle.rr_text.specs.Bytes.{has_repeat};
ghost use Rattle.rr_text.specs.declared.limits.TheConstants.{MAX_FIELDS};
ghost use Rattle.rr_line.specs.Gathering.{is_below, rise};

use rr_text::bytes::{self, Keyed};
use rr_text::limits::MAX_FIELDS;

/// The most keys that are compared pair by pair. More are sorted.
const FEW: usize = 16;

/// Whether a key occurs twice among entries.
pub(crate) fn has_repeat<T: Keyed>(entries: &[T]) -> bool
    requires { length entries.now ≤ MAX_FIELDS }
    ensures { result ≡ has_repeat (map T.key_of entries.now) }
{
    if entries.len() <= FEW {
        bytes::has_repeat(entries)
    } else {
        has_repeat_among_many(entries)
    }
}

/// Whether a key occurs twice among entries, by sorting the keys. Its array of 4 KiB is filled on
/// each call, so lines with few keys don't come here.
#[inline(never)]
fn has_repeat_among_many<T: Keyed>(entries: &[T]) -> bool
    requires { length entries.now ≤ MAX_FIELDS }
    ensures { result ≡ has_repeat (map T.key_of entries.now) }
{
    let mut keys: [&[u8]; MAX_FIELDS] = [b""; MAX_FIELDS];
    let mut count = 0;
    for entry in entries {
        keys[count] = entry.key();
        count += 1;
    }
    has_repeat_once_sorted(&mut keys[..count])
}

/// Whether a key occurs twice among keys, which it sorts.
fn has_repeat_once_sorted(keys: &mut [&[u8]]) -> bool
    ensures { result ≡ has_repeat (map (λ key. key.now) keys.old) }
{
    keys.sort_unstable();
    !rise(keys)
}

/// Whether each key is above the one before it.
fn rise(keys: &[&[u8]]) -> bool
    ensures { result ≡ rise (map (λ key. key.now) keys.now) }
{
    let mut left = keys;
    while let [first, others @ ..] = left {
        if !is_below(first, others) {
            return false;
        }
        left = others;
    }
    true
}

/// Whether a key is below the first of others, if there is one.
fn is_below(key: &[u8], others: &[&[u8]]) -> bool
    ensures { result ≡ is_below key.now (map (λ other. other.now) others.now) }
{
    match others {
        [next, ..] => key.cmp(next).is_lt(),
        [] => true,
    }
}
