//! The words of a request, and what each of them means.

ghost use Rattle.std.specs.Prelude.{◌≡◌, ◌≢◌, ◌≤◌, unsigned_abs, option_map, Ok, Err, IfOk, IfErr, IfSome, MatchResult};
ghost use Rattle.rr_fetch.specs.Requests.{key_of};
ghost use Rattle.rr_fetch.specs.Words.{words_of, parts, function_of, resolution_of, second_of};

use crate::fault::RequestFault;
use rr_key::{KeyFault, SeriesKey};
use rr_schema::ConsolidationFunction;
use rr_text::bytes::SPACE;
use rr_text::limits::MAX_SECOND;
use rr_text::text::{cut, integer, number};
use std::alloc::Global;

/// The words of a request, `CF RESOLUTION START END KEY`, split and not yet read. The key is all
/// that follows the fourth space, so its spaces are its own.
#[derive(Clone, Copy)]
pub struct RequestWords<'a> {
    pub(crate) function: &'a [u8],
    pub(crate) resolution: &'a [u8],
    pub(crate) start: &'a [u8],
    pub(crate) end: &'a [u8],
    pub(crate) key: &'a [u8],
}

impl<'a> RequestWords<'a> {
    /// The words of a request that are already split.
    pub fn new(
        function: &'a [u8],
        resolution: &'a [u8],
        start: &'a [u8],
        end: &'a [u8],
        key: &'a [u8],
    ) -> RequestWords<'a>
        ensures { parts result ≡ record {
          function = function.now;
          resolution = resolution.now;
          start = start.now;
          end = end.now;
          key = key.now;
        } }
    {
        RequestWords {
            function,
            resolution,
            start,
            end,
            key,
        }
    }
}

/// Splits a request into its words; `None` if there are fewer than five.
#[tactic(auto, unfolding(crate::specs::Words::words_of))]
pub fn request_words(bytes: &[u8]) -> Option<RequestWords<'_>>
    ensures { option_map parts result ≡ words_of bytes.now }
{
    let (function, rest) = cut(SPACE, bytes)?;
    let (resolution, rest) = cut(SPACE, rest)?;
    let (start, rest) = cut(SPACE, rest)?;
    let (end, key) = cut(SPACE, rest)?;
    Some(RequestWords {
        function,
        resolution,
        start,
        end,
        key,
    })
}

/// The consolidation function with this name in RRDtool.
pub(crate) fn function_of(word: &[u8]) -> Option<ConsolidationFunction>
    ensures { result ≡ function_of word.now }
{
    if word == b"AVERAGE".as_slice() {
        Some(ConsolidationFunction::Average)
    } else if word == b"MIN".as_slice() {
        Some(ConsolidationFunction::Min)
    } else if word == b"MAX".as_slice() {
        Some(ConsolidationFunction::Max)
    } else if word == b"LAST".as_slice() {
        Some(ConsolidationFunction::Last)
    } else {
        None
    }
}

/// A resolution in seconds, from 1 to the last second.
pub(crate) fn resolution_of(word: &[u8]) -> Option<u64>
    ensures { result ≡ resolution_of word.now }
{
    match number(word) {
        Some(seconds) if 1 <= seconds && seconds <= MAX_SECOND => Some(seconds),
        _ => None,
    }
}

/// A start or an end in seconds, up to the last second either side of the epoch.
pub(crate) fn second_of(word: &[u8]) -> Option<i64>
    ensures value { result ≡ second_of word.now }
    ensures second_near { IfSome result (λ second. unsigned_abs second ≤ MAX_SECOND) }
{
    match integer(word) {
        Some(second) if second.unsigned_abs() <= MAX_SECOND => Some(second),
        _ => None,
    }
}

/// The series key of a text, or `BadKey`; `None` if memory ran out.
pub(crate) fn key_of(alloc: Global, text: &[u8]) -> Result<Option<SeriesKey>, RequestFault>
    ensures value { MatchResult result (λ _. key_of text.now ≡ Ok text.now)
        (λ fault. key_of text.now ≡ Err fault) }
    ensures key { IfOk result (λ found. IfSome found (λ key. key ≡ text.now)) }
    ensures memory { IfErr result (λ fault. fault ≢ RequestFault.Memory) }
{
    match SeriesKey::parse_text(alloc, text) {
        Ok(key) => Ok(Some(key)),
        Err(fault) if fault == KeyFault::BadKey => Err(RequestFault::BadKey),
        Err(_) => Ok(None),
    }
}
