//! The keys of series, and which of them are asked for.

ghost use Rattle.std.specs.Prelude.{◌≡◌, ◌⊎◌, ◌-◌, ◌++◌, filter, length, take, IfErr, IfOk, OnOk, codes};
ghost use Rattle.std.specs.List.{flat_map};
ghost use Rattle.rr_text.specs.Text.{number_at};
ghost use Rattle.rr_web.specs.Query.{parameter_of};
ghost use Rattle.rr_web.specs.Series.{IsNoKey, begins_with, count_at, count_fault_text, count_in, is_past};
ghost use Rattle.rr_web.specs.Series.{line_of, prefix_of};

use crate::query::parameter;
use rr_key::{KeyFault, SeriesKey};
use rr_text::bytes::LINE_FEED;
use rr_text::text::number;
use std::alloc::{AllocError, Global};

/// The most keys that are given if a query doesn't say.
const KEYS: u64 = 1_000;

/// The most keys that may be asked for.
const MAX_KEYS: u64 = 10_000;

const _: () = prove!(KEYS == 1_000);

const _: () = prove!(MAX_KEYS == 10_000);

/// Why a number of keys is refused.
#[derive(Clone, Copy, Debug, PartialEq, Eq)]
pub(crate) enum CountFault {
    /// It isn't a number below 2^64.
    BadNumber,
    /// It isn't from 1 to 10,000.
    BadCount,
}

impl CountFault {
    /// The printed name, and what helps.
    pub(crate) fn text(&self) -> &'static str
        ensures { result.now ≡ count_fault_text self.now }
    {
        match self {
            CountFault::BadNumber => "BadNumber: count must be a number below 2^64",
            CountFault::BadCount => "BadCount: count must be from 1 to 10,000",
        }
    }
}

/// The number of keys that a text gives.
fn count_at(text: &[u8]) -> Result<u64, CountFault>
    ensures { result ≡ count_at (number_at text.now) }
{
    match number(text) {
        Some(count) if count == 0 || count > MAX_KEYS => Err(CountFault::BadCount),
        Some(count) => Ok(count),
        None => Err(CountFault::BadNumber),
    }
}

/// How many keys a query asks for by its `count`: 1,000 if it has none. The cost is linear in the
/// query.
pub(crate) fn count_in(alloc: Global, query: &[u8]) -> Result<Result<u64, CountFault>, AllocError>
    ensures { IfOk result (λ count. count ≡ count_in (parameter_of query.now (codes "count"))) }
{
    match parameter(alloc, query, b"count")? {
        Some(text) => Ok(count_at(&text)),
        None => Ok(Ok(KEYS)),
    }
}

/// Adds the line of a key.
fn push_key(text: &mut Vec<u8>, key: &[u8]) -> Result<(), AllocError>
    ensures { OnOk result (text.new.items ≡ text.old.items ++ line_of key.now) }
{
    text.extend_from_slice(key)?;
    text.push(LINE_FEED)?;
    Ok(())
}

/// Adds a line for each key that begins with a prefix, at most `count`, and returns what is left of
/// the count. The cost is linear in the keys.
pub(crate) fn push_keys(
    text: &mut Vec<u8>,
    keys: &[SeriesKey],
    prefix: &[u8],
    count: u64,
) -> Result<u64, AllocError>
    ensures lines { OnOk result (text.new.items ≡ text.old.items
        ++ flat_map line_of (take count (filter (begins_with prefix.now) keys.now))) }
    ensures left { IfOk result (λ left.
        left ≡ count - length (filter (begins_with prefix.now) keys.now)) }
{
    let mut left = count;
    for key in keys {
        if left > 0 && key.text().starts_with(prefix) {
            push_key(text, key.text())?;
            left -= 1;
        }
    }
    Ok(left)
}

/// The key that a query names as its `after`, if it names one.
pub(crate) fn after_in(alloc: Global, query: &[u8]) -> Result<Option<SeriesKey>, KeyFault>
    ensures found { IfOk result (λ key. key ≡ parameter_of query.now (codes "after")) }
    ensures refused { IfErr result (λ fault. (fault ≡ KeyFault.Memory)
        ⊎ ((fault ≡ KeyFault.BadKey) × IsNoKey (parameter_of query.now (codes "after")))) }
{
    match parameter(alloc, query, b"after") {
        Ok(Some(text)) => match SeriesKey::parse_text(alloc, &text) {
            Ok(key) => Ok(Some(key)),
            Err(fault) => Err(fault),
        },
        Ok(None) => Ok(None),
        Err(_) => Err(KeyFault::Memory),
    }
}

/// The text that a query names as its `prefix`; empty if it names none.
pub(crate) fn prefix_in(alloc: Global, query: &[u8]) -> Result<Vec<u8>, AllocError>
    ensures { IfOk result (λ prefix. prefix.items ≡ prefix_of query.now) }
{
    match parameter(alloc, query, b"prefix")? {
        Some(prefix) => Ok(prefix),
        None => Ok(Vec::new(alloc)),
    }
}

/// Whether a key comes after all those that begin with a prefix.
pub(crate) fn is_past(key: &SeriesKey, prefix: &[u8]) -> bool
    ensures { result ≡ is_past prefix.now key.now }
{
    if key.text().starts_with(prefix) {
        return false;
    }
    key.text().cmp(prefix).is_gt()
}

/// The lines of keys.
pub(crate) fn lines_of(alloc: Global, keys: &[SeriesKey]) -> Result<Vec<u8>, AllocError>
    ensures { IfOk result (λ text. text.items ≡ flat_map line_of keys.now) }
{
    let mut text = Vec::new(alloc);
    for key in keys {
        push_key(&mut text, key.text())?;
    }
    Ok(text)
}
