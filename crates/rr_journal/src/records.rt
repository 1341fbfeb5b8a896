//! Reading records from a stream.
ghost use Rattle.std.specs.Prelude.{◌≡◌, ℕ, ◌≤◌, ◌<◌, List, Err, IfErr, IfOk, length};
ghost use Rattle.std.specs.Io.KnownBytes.{Consumes};
ghost use Rattle.rr_io.specs.Counted.{inner_of};
ghost use Rattle.rr_io.specs.Stream.{HasFailed, IsReadOut, KeepsFailures, ReadsSome};
ghost use Rattle.rr_journal.specs.Reading.{stated_len, tail_len, made_of};
ghost use Rattle.rr_journal.specs.Stream.{IsFitting, IsStreamFault, Links, MovesBy, OwnDigest, StepsTo, StopsAfter};
ghost use Rattle.rr_journal.specs.Text.{raw_of};

use crate::cursor::Cursor;
use crate::digest::{DIGEST_LEN, link};
use crate::fault::JournalFault;
use crate::raw::{BESIDES_LEN, HEAD_LEN, MAX_BODY_LEN, RawRecord};
use crate::step::{MAX_UNSYNCED, Step, stop_at};
use rr_io::Counted;
use rr_io::stream::fill;
use std::alloc::Global;
use std::io::Read;

/// The next `len` bytes, or all that are left.
pub(crate) fn bytes_from<R: Read>(
    alloc: Global,
    input: &mut Counted<R>,
    len: usize,
) -> Result<Vec<u8>, JournalFault>
    ensures bound { IfOk result (λ bytes. length bytes.items ≤ len) }
    ensures bytes { IfOk result (λ bytes. Consumes (R.remaining (inner_of input.old))
        (R.remaining (inner_of input.new)) bytes.items) }
    ensures end { IfOk result (λ bytes. length bytes.items < len
        → IsReadOut R.remaining input.new) }
    ensures prefix { ReadsSome R.remaining input.old input.new }
    ensures failures_never_fall { KeepsFailures input.old input.new }
    ensures failed { result ≡ Err JournalFault.ReadFailed → HasFailed input.old input.new }
    ensures faults { IfErr result IsStreamFault }
{
    let mut bytes = vec![in alloc; 0u8; len]?;
    let got = fill(input, &mut bytes)?;
    bytes.truncate(got);
    Ok(bytes)
}

/// Why reading stopped after taking some bytes that are no whole record, judged by how many they
/// are with those that follow; of the latter at most `MAX_UNSYNCED` are read.
fn stopped<R: Read>(
    alloc: Global,
    input: &mut Counted<R>,
    fault: JournalFault,
    taken: usize,
) -> Result<Step, JournalFault>
    requires { taken ≤ MAX_UNSYNCED }
    ensures stop { StopsAfter fault taken (R.remaining (inner_of input.old)) result }
    ensures none { (digest : List ℕ) → Links digest digest result }
    ensures fits { IfOk result IsFitting }
    ensures prefix { ReadsSome R.remaining input.old input.new }
    ensures failures_never_fall { KeepsFailures input.old input.new }
    ensures failed { result ≡ Err JournalFault.ReadFailed → HasFailed input.old input.new }
    ensures faults { IfErr result IsStreamFault }
{
    let mut rest = vec![in alloc; 0u8; MAX_UNSYNCED + 1 - taken]?;
    let more = fill(input, &mut rest)?;
    Ok(Step::Stopped(stop_at(fault, taken + more)))
}

/// The length that the head of a record states.
fn stated_len(head: &[u8; HEAD_LEN]) -> usize
    ensures value { result ≡ stated_len head.now }
    ensures fits { result < 4_294_967_296 }
{
    let [a, b, c, d, _] = *head;
    u32::from_be_bytes([a, b, c, d]) as usize
}

/// The digest of the record that a head and a tail make, if it is the one in the tail.
fn own_digest(
    before: &[u8; DIGEST_LEN],
    head: &[u8; HEAD_LEN],
    tail: &[u8],
) -> Option<[u8; DIGEST_LEN]>
    requires fits { stated_len head.now ≤ MAX_BODY_LEN }
    requires whole { length tail.now ≡ tail_len head.now }
    ensures { OwnDigest before.now head.now tail.now result }
{
    let len = stated_len(head);
    let digest = &tail[len..];
    let own = link(before, head[4], &tail[..len]);
    if digest == own.as_slice() {
        Some(own)
    } else {
        None
    }
}

/// The record that a head and a tail make.
fn record_of(head: &[u8; HEAD_LEN], tail: Vec<u8>) -> RawRecord
    requires whole { length tail.items ≡ tail_len head.now }
    ensures { raw_of result ≡ made_of head.now tail.items }
{
    let mut body = tail;
    body.truncate(stated_len(head));
    RawRecord {
        kind: head[4],
        body,
    }
}

/// Reads the record after the one with `digest`, and sets `digest` to its own.
fn read_after<R: Read>(
    alloc: Global,
    input: &mut Counted<R>,
    digest: &mut [u8; DIGEST_LEN],
) -> Result<Step, JournalFault>
    ensures read { StepsTo digest.old (R.remaining (inner_of input.old))
        (R.remaining (inner_of input.new)) result }
    ensures links { Links digest.old digest.new result }
    ensures fits { IfOk result IsFitting }
    ensures prefix { ReadsSome R.remaining input.old input.new }
    ensures failures_never_fall { KeepsFailures input.old input.new }
    ensures failed { result ≡ Err JournalFault.ReadFailed → HasFailed input.old input.new }
    ensures faults { IfErr result IsStreamFault }
{
    let mut head = [0u8; HEAD_LEN];
    let filled = fill(input, &mut head)?;
    if filled < HEAD_LEN {
        return stopped(alloc, input, JournalFault::BadDigest, filled);
    }
    let len = stated_len(&head);
    if len > MAX_BODY_LEN {
        return stopped(alloc, input, JournalFault::TooLong, HEAD_LEN);
    }
    let tail = bytes_from(alloc, input, len + DIGEST_LEN)?;
    let got = tail.len();
    if got < len + DIGEST_LEN {
        return stopped(alloc, input, JournalFault::BadDigest, HEAD_LEN + got);
    }
    let Some(own) = own_digest(digest, &head, tail.as_slice()) else {
        return stopped(alloc, input, JournalFault::BadDigest, HEAD_LEN + got);
    };
    *digest = own;
    Ok(Step::Whole(record_of(&head, tail)))
}

/// Reads the record at `cursor`, and moves `cursor` past it.
///
/// `Step::Stopped` means that no whole record with the digest it should have is there; `cursor`
/// then stays, at the end of what can be read. One record is in memory at a time, of at most
/// [`MAX_RECORD_LEN`](crate::MAX_RECORD_LEN) bytes; one that states more is refused before memory
/// is taken for it. If none is whole, at most [`MAX_UNSYNCED`](crate::MAX_UNSYNCED) bytes and one
/// more are read, to tell a torn tail from damage. Refused as `ReadFailed` or `Memory`; `cursor`
/// then stays too. The cost is linear in the bytes read.
pub fn read_record<R: Read>(
    alloc: Global,
    input: &mut Counted<R>,
    cursor: &mut Cursor,
) -> Result<Step, JournalFault>
    ensures read { StepsTo cursor.old.digest (R.remaining (inner_of input.old))
        (R.remaining (inner_of input.new)) result }
    ensures moves { MovesBy cursor.old cursor.new result }
    ensures fits { IfOk result IsFitting }
    ensures prefix { ReadsSome R.remaining input.old input.new }
    ensures failures_never_fall { KeepsFailures input.old input.new }
    ensures failed { result ≡ Err JournalFault.ReadFailed → HasFailed input.old input.new }
    ensures faults { IfErr result IsStreamFault }
{
    let mut digest = cursor.digest;
    match read_after(alloc, input, &mut digest)? {
        Step::Whole(raw) => {
            let len = (BESIDES_LEN + raw.body.len()) as u64;
            cursor.offset = cursor.offset.saturating_add(len);
            cursor.digest = digest;
            Ok(Step::Whole(raw))
        }
        Step::Stopped(stop) => Ok(Step::Stopped(stop)),
    }
}
