//! Desks: a keeper and its readers, on one thread and on several.

ghost use Rattle.std.specs.Prelude.{◌≡◌};

mod beside;
mod changes;
mod opening;
mod prefixes;
mod threads;

use rr_archive::Cells;
use rr_desk::Reader;
use rr_fetch::parse_request;
use rr_key::SeriesKey;
use std::alloc::Global;

/// The request: the averages of three minutes.
const AVERAGES: &[u8] = b"AVERAGE 60 0 180 m v";

/// The answer if nothing is known.
const NOTHING: &[u8] = b"m v,0,U\nm v,60,U\nm v,120,U\n";

/// The answer if 7 was put one minute after the epoch.
const SEVEN: &[u8] = b"m v,0,U\nm v,60,7\nm v,120,U\n";

/// The key `m v`.
fn key(alloc: Global) -> Option<SeriesKey> {
    SeriesKey::parse_text(alloc, b"m v").ok()
}

/// What a reader answers to a request of these words.
fn fetched<A: Cells>(alloc: Global, reader: &mut Reader<A>, words: &[u8]) -> Option<Vec<u8>>
    ensures { reader.new.desk ≡ reader.old.desk }
{
    let request = parse_request(alloc, words, reader.schema()).ok()?;
    reader.fetch(alloc, &request).ok()
}

/// Whether a reader answers the averages with this text.
fn answers<A: Cells>(alloc: Global, reader: &mut Reader<A>, text: &[u8]) -> bool
    ensures { reader.new.desk ≡ reader.old.desk }
{
    match fetched(alloc, reader, AVERAGES) {
        Some(answer) => answer.as_slice() == text,
        None => false,
    }
}
