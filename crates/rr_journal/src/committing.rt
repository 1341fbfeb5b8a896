//! Committing records: writing them to a journal and syncing it.
ghost use Rattle.std.specs.Prelude.{◌≡◌, ◌≤◌, ◌↔◌, ◌+◌, length, map, All, IsTrue, OnOk};
ghost use Rattle.std.specs.Io.KnownBytes.{append_known};
ghost use Rattle.std.specs.Option.{SomeIff};
ghost use Rattle.rr_journal.specs.Cursor.{behind_all};
ghost use Rattle.rr_journal.specs.Digest.{link};
ghost use Rattle.rr_journal.specs.Keeping.{Commits};
ghost use Rattle.rr_journal.specs.Witness.{batch_of};
ghost use Rattle.rr_journal.specs.Text.{chain, raw_of, record_text, records_len, records_text};
ghost use Rattle.rr_journal.specs.declared.witness.TheConstants.{WITNESS_LEN};

use crate::cursor::Cursor;
use crate::digest::{DIGEST_LEN, link};
use crate::journal::{Journal, JournalFailed};
use crate::kind::WITNESS;
use crate::raw::{BESIDES_LEN, FIRST, MAX_BODY_LEN, RawRecord};
use crate::step::MAX_UNSYNCED;
use crate::witness::{WITNESS_LEN, witness_of};
use crate::writing::head;
use thiserror::Error;

/// Why records are not committed.
#[derive(Clone, Copy, Debug, PartialEq, Eq, Error)]
pub enum CommitFault {
    /// They could not be written, and what was written of them is discarded. They can be committed
    /// again.
    #[error("the journal could not be written")]
    NotWritten,
    /// A sync failed, or what was written could not be discarded. What the journal holds is known
    /// only up to the last successful sync: it must be opened and read again.
    #[error("the journal could not be synced")]
    NotSynced,
}

/// Appends a record after the one with `digest`, and sets `digest` to its own.
fn append_record<J: Journal>(
    journal: &mut J,
    digest: &mut [u8; DIGEST_LEN],
    kind: u8,
    body: &[u8],
) -> Result<(), JournalFailed>
    requires { length body.now ≤ MAX_BODY_LEN }
    ensures text { OnOk result (J.text journal.new ≡ append_known (J.text journal.old)
        (record_text digest.old (record { kind = kind; body = body.now }))) }
    ensures digest { OnOk result (digest.new ≡ link digest.old kind body.now) }
    ensures synced { J.synced journal.new ≡ J.synced journal.old }
{
    let own = link(digest, kind, body);
    journal.append(&head(kind, body))?;
    journal.append(body)?;
    journal.append(&own)?;
    *digest = own;
    Ok(())
}

/// Appends records after the one with `digest`, and sets `digest` to that of the last.
fn append_all<J: Journal>(
    journal: &mut J,
    digest: &mut [u8; DIGEST_LEN],
    records: &[RawRecord],
) -> Result<(), JournalFailed>
    requires { All (λ r. length r.body.items ≤ MAX_BODY_LEN) records.now }
    ensures text { OnOk result (J.text journal.new ≡ append_known (J.text journal.old)
        (records_text digest.old (map raw_of records.now))) }
    ensures digest { OnOk result (digest.new ≡ chain digest.old (map raw_of records.now)) }
    ensures synced { J.synced journal.new ≡ J.synced journal.old }
{
    for raw in records {
        append_record(journal, digest, raw.kind, raw.body.as_slice())?;
    }
    Ok(())
}

/// Appends a batch: the witness of the offset at which it begins, and then the records.
fn append_batch<J: Journal>(
    journal: &mut J,
    offset: u64,
    digest: &mut [u8; DIGEST_LEN],
    records: &[RawRecord],
) -> Result<(), JournalFailed>
    requires { All (λ r. length r.body.items ≤ MAX_BODY_LEN) records.now }
    ensures text { OnOk result (J.text journal.new ≡ append_known (J.text journal.old)
        (records_text digest.old
        (batch_of (J.key journal.old) offset (map raw_of records.now)))) }
    ensures digest { OnOk result (digest.new
        ≡ chain digest.old (batch_of (J.key journal.old) offset (map raw_of records.now))) }
    ensures synced { J.synced journal.new ≡ J.synced journal.old }
{
    let witness = witness_of(&journal.key(), offset);
    append_record(journal, digest, WITNESS + FIRST, &witness)?;
    append_all(journal, digest, records)
}

/// The size in bytes of a witness and records, if no more than may be written between two syncs.
fn batch_len(records: &[RawRecord]) -> Option<usize>
    ensures { SomeIff result (WITNESS_LEN + records_len (map raw_of records.now)
        ≤ MAX_UNSYNCED) (WITNESS_LEN + records_len (map raw_of records.now)) }
{
    let mut len = WITNESS_LEN;
    for raw in records {
        let own = BESIDES_LEN + raw.body.len();
        if own > MAX_UNSYNCED - len {
            return None;
        }
        len += own;
    }
    Some(len)
}

/// Whether records, with a witness before them, have no more bytes than may be written between two
/// syncs.
pub fn fits_between_syncs(records: &[RawRecord]) -> bool
    ensures { IsTrue result
        ↔ (WITNESS_LEN + records_len (map raw_of records.now) ≤ MAX_UNSYNCED) }
{
    batch_len(records).is_some()
}

/// Appends records to a journal, after a witness, and syncs them, so that what they mean may be
/// acknowledged: they survive a crash, with all before them. `cursor` is the end of the journal, and
/// moves with it. With no records, only the witness is written, which proves that what comes before it
/// was synced.
///
/// With the witness they have at most [`MAX_UNSYNCED`](crate::MAX_UNSYNCED) bytes, as
/// [`fits_between_syncs`] checks, and all that was written before is synced. None of them may be
/// acknowledged after a refusal:
/// `NotWritten` leaves all as it was, so they can be committed again; after `NotSynced` what was
/// synced before still is, and the journal must be opened and read again.
pub fn commit<J: Journal>(
    journal: &mut J,
    cursor: &mut Cursor,
    records: &[RawRecord],
) -> Result<(), CommitFault>
    requires few { WITNESS_LEN + records_len (map raw_of records.now) ≤ MAX_UNSYNCED }
    requires synced { J.text journal.old ≡ J.synced journal.old }
    ensures { Commits (J.synced journal.old) (J.synced journal.new) (J.text journal.new)
        cursor.old cursor.new (batch_of (J.key journal.old) cursor.old.offset
        (map raw_of records.now)) result }
{
    let mut digest = cursor.digest;
    if append_batch(journal, cursor.offset, &mut digest, records).is_err() {
        return match journal.cut_back() {
            Ok(()) => Err(CommitFault::NotWritten),
            Err(_) => Err(CommitFault::NotSynced),
        };
    }
    if journal.sync().is_err() {
        return Err(CommitFault::NotSynced);
    }
    let len = batch_len(records).unwrap_or(MAX_UNSYNCED);
    cursor.digest = digest;
    cursor.offset = cursor.offset.saturating_add(len as u64);
    Ok(())
}
