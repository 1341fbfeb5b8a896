//! Writing records.
ghost use Rattle.std.specs.Prelude.{◌≡◌, ◌≤◌, ◌++◌, length, OnOk, OnErr};
ghost use Rattle.rr_io.specs.Stream.{Writes};
ghost use Rattle.rr_journal.specs.Cursor.{behind};
ghost use Rattle.rr_journal.specs.Digest.{undigested_text, link};
ghost use Rattle.rr_journal.specs.Text.{raw_of, record_text};

use crate::cursor::Cursor;
use crate::digest::{DIGEST_LEN, link};
use crate::raw::{BESIDES_LEN, HEAD_LEN, MAX_BODY_LEN, RawRecord};
use rr_io::Counted;
use rr_io::stream::{WriteFailed, write_all};
use std::io::Write;

/// The bytes of a record before its body.
pub(crate) fn head(kind: u8, body: &[u8]) -> [u8; HEAD_LEN]
    requires { length body.now ≤ MAX_BODY_LEN }
    ensures { result ++ body.now ≡ undigested_text kind body.now }
{
    let [a, b, c, d] = (body.len() as u32).to_be_bytes();
    [a, b, c, d, kind]
}

/// Writes a record after the one with `digest`, and sets `digest` to its own.
fn write_after<W: Write>(
    output: &mut Counted<W>,
    digest: &mut [u8; DIGEST_LEN],
    kind: u8,
    body: &[u8],
) -> Result<(), WriteFailed>
    requires { length body.now ≤ MAX_BODY_LEN }
    ensures writes { Writes W.contents output.old output.new
        (record_text digest.old (record { kind = kind; body = body.now })) result }
    ensures digest { OnOk result (digest.new ≡ link digest.old kind body.now) }
    ensures unchanged { OnErr result (digest.new ≡ digest.old) }
{
    let own = link(digest, kind, body);
    let head = head(kind, body);
    write_all(output, &head)?;
    write_all(output, body)?;
    write_all(output, &own)?;
    *digest = own;
    Ok(())
}

/// Writes a record at `cursor`, and moves `cursor` past it. After a failure, a prefix of the record
/// has been written and `cursor` stays. Checkpoints are written this way, and synced once at their
/// end.
pub fn write_record<W: Write>(
    output: &mut Counted<W>,
    cursor: &mut Cursor,
    raw: &RawRecord,
) -> Result<(), WriteFailed>
    requires { length raw.now.body.items ≤ MAX_BODY_LEN }
    ensures writes { Writes W.contents output.old output.new
        (record_text cursor.old.digest (raw_of raw.now)) result }
    ensures moved { OnOk result (cursor.new ≡ behind cursor.old (raw_of raw.now)) }
    ensures stays { OnErr result (cursor.new ≡ cursor.old) }
{
    write_after(output, &mut cursor.digest, raw.kind, raw.body.as_slice())?;
    cursor.offset = cursor
        .offset
        .saturating_add((BESIDES_LEN + raw.body.len()) as u64);
    Ok(())
}
