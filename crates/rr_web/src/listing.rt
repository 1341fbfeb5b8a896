//! The keys of series that a query asks for.

ghost use Rattle.std.specs.Prelude.{◌≡◌, IfOk};
ghost use Rattle.std.specs.FinMap.{entries};
ghost use Rattle.std.specs.List.{flat_map};
ghost use Rattle.rr_desk.specs.ReaderState.{AnswersSeen, cells_seen};
ghost use Rattle.rr_replica.specs.Keys.{keys_after, lent_key};
ghost use Rattle.rr_web.specs.Listing.{IsKeysReply, IsListing, IsSeriesReply, ListsPrefix};
ghost use Rattle.rr_web.specs.Reply.{reply_view};
ghost use Rattle.rr_web.specs.Series.{line_of};

use crate::answers::refusal_reply;
use crate::reply::{Kind, Reply, Status};
use crate::series::{after_in, count_in, is_past, lines_of, prefix_in, push_keys};
use rr_archive::Cells;
use rr_desk::Reader;
use rr_key::{KeyFault, SeriesKey};
use std::alloc::{AllocError, Global};

/// How many keys are searched at a time for those that begin with a prefix.
const PIECE: usize = 1_000;

const _: () = prove!(PIECE == 1_000);

/// The lines of the first keys after one, or of all keys.
fn list_first<A: Cells>(
    alloc: Global,
    reader: &mut Reader<A>,
    after: Option<&SeriesKey>,
    count: u64,
) -> Result<Vec<u8>, AllocError>
    ensures { AnswersSeen reader.old reader.new (IfOk result (λ text. text.items
        ≡ flat_map line_of (keys_after (lent_key after.entry) count
        (entries (cells_seen reader.new))))) }
{
    let keys = reader.keys_after(alloc, after, count as usize)?;
    lines_of(alloc, &keys)
}

/// The lines of the first keys after one, or of all keys, that begin with a prefix. They are
/// searched piece by piece, and the reader takes in what is published meanwhile.
fn list_with_prefix<A: Cells>(
    alloc: Global,
    reader: &mut Reader<A>,
    prefix: &[u8],
    first: Option<SeriesKey>,
    count: u64,
) -> Result<Vec<u8>, AllocError>
    ensures { AnswersSeen reader.old reader.new (IfOk result (λ text.
        ListsPrefix prefix.now first count reader.old reader.new text.items)) }
{
    let mut after = first;
    let mut text = Vec::new(alloc);
    let mut left = count;
    for _ in 0..u64::MAX {
        let mut keys = reader.keys_after(alloc, after.as_ref(), PIECE)?;
        left = push_keys(&mut text, &keys, prefix, left)?;
        let Some(last) = keys.pop() else {
            return Ok(text);
        };
        let is_last = left == 0 || is_past(&last, prefix);
        after = Some(last);
        if is_last {
            return Ok(text);
        }
    }
    // That many keys don't fit in memory.
    Err(AllocError)
}

/// The lines of the first keys after one, or of all keys, that begin with a prefix.
fn list<A: Cells>(
    alloc: Global,
    reader: &mut Reader<A>,
    prefix: &[u8],
    after: Option<SeriesKey>,
    count: u64,
) -> Result<Vec<u8>, AllocError>
    ensures { AnswersSeen reader.old reader.new (IfOk result (λ text.
        IsListing prefix.now after count reader.old reader.new text.items)) }
{
    match prefix {
        [] => list_first(alloc, reader, after.as_ref(), count),
        [_, ..] => list_with_prefix(alloc, reader, prefix, after, count),
    }
}

/// The reply with the keys that begin with the prefix of a query.
fn keys_reply<A: Cells>(
    alloc: Global,
    query: &[u8],
    after: Option<SeriesKey>,
    count: u64,
    reader: &mut Reader<A>,
) -> Result<Reply, AllocError>
    ensures { AnswersSeen reader.old reader.new (IfOk result (λ reply.
        IsKeysReply query.now after count reader.old reader.new (reply_view reply))) }
{
    let prefix = prefix_in(alloc, query)?;
    let text = list(alloc, reader, &prefix, after, count)?;
    Ok(Reply {
        status: Status::Ok,
        kind: Kind::Plain,
        text,
    })
}

/// The reply to a query for keys: a line for each of the first `count` keys that begin with its
/// `prefix`, in the order of their bytes, after the key of its `after` if it names one. They are
/// those of what the reader has seen when the call returns; with a prefix they are searched piece
/// by piece, each piece by what it has seen by then. The first of these refusals to apply is given,
/// with what helps behind its name:
/// `BadNumber` and `BadCount`, for the count; and `BadKey`, for an `after` that isn't a key text.
/// The cost is that of [`Reader::keys_after`] for the keys that are listed; with a prefix, for all
/// after `after` up to the last one that begins with it.
pub(crate) fn series_reply<A: Cells>(
    alloc: Global,
    query: &[u8],
    reader: &mut Reader<A>,
) -> Result<Reply, AllocError>
    ensures { AnswersSeen reader.old reader.new (IfOk result (λ reply.
        IsSeriesReply query.now reader.old reader.new (reply_view reply))) }
{
    let count = match count_in(alloc, query)? {
        Ok(count) => count,
        Err(fault) => return refusal_reply(alloc, fault.text()),
    };
    match after_in(alloc, query) {
        Ok(after) => keys_reply(alloc, query, after, count, reader),
        Err(KeyFault::Memory) => Err(AllocError),
        Err(_) => {
            let text = "BadKey: after must be a key text, its tags in order";
            refusal_reply(alloc, text)
        }
    }
}
