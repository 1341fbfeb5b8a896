//! What a snapshot has before its cells.
ghost use Rattle.std.specs.Prelude.{◌≡◌, ◌≤◌, ◌+◌, ◌-◌, IfOk, Err, length};
ghost use Rattle.rr_io.specs.Counted.{inner_of};
ghost use Rattle.rr_io.specs.Stream.{ReadsUpTo};
ghost use Rattle.rr_schema.specs.Added.{IsAddition, older};
ghost use Rattle.rr_schema.specs.SchemaBytes.{schema_bytes};
ghost use Rattle.rr_page.specs.Version.{latest};
ghost use Rattle.rr_snapshot.specs.Snapshot.{head_text};
ghost use Rattle.rr_snapshot.specs.SnapshotReading.{head_at};
ghost use Rattle.rr_snapshot.specs.Stream.{DigestsPiece, StreamGives};

use crate::fault::LoadFault;
use crate::fields::{COUNT_LEN, MAGIC, archives_from, count_from, start_from};
use rr_io::Counted;
use rr_page::{LATEST, Version};
use rr_schema::{Addition, Origin, Schema};
use sha2::Sha256;
use std::alloc::{AllocError, Global};
use std::io::Read;

/// The most cells a snapshot may have.
pub const MAX_SNAPSHOT_CELLS: u32 = 4_294_967_295;

const _: () = prove!(MAX_SNAPSHOT_CELLS == 4_294_967_295);

/// How many bytes come before the cells besides the schema: the magic, the version, the origin and
/// the number of cells.
const BESIDES_LEN: usize = 11;

const _: () = prove!(BESIDES_LEN == 11);

/// What a snapshot says before its cells. Its schema is the reader's, or the reader's before an
/// addition.
#[derive(Clone, Copy, Debug, PartialEq, Eq)]
pub(crate) struct Head {
    /// How the cells are laid out as bytes.
    pub version: Version,
    /// What was added to the schema since.
    pub addition: Addition,
    /// The origin of the replica that was saved.
    pub origin: Origin,
    /// How many cells follow.
    pub count: u32,
}

/// What a snapshot of the latest version has before its cells.
#[tactic(auto, unfolding(crate::specs::Snapshot::head_text))]
pub(crate) fn head_bytes(
    alloc: Global,
    schema: &Schema,
    origin: Origin,
    count: u32,
) -> Result<Vec<u8>, AllocError>
    ensures { IfOk result (λ bytes. bytes.items ≡ head_text latest schema.now origin count) }
{
    let own = schema.bytes(alloc)?;
    let mut bytes = Vec::new(alloc);
    bytes.extend_from_slice(&MAGIC)?;
    bytes.push(LATEST.byte())?;
    bytes.extend_from_slice(&own)?;
    bytes.extend_from_slice(&origin.get().to_be_bytes())?;
    bytes.extend_from_slice(&count.to_be_bytes())?;
    Ok(bytes)
}

/// What the input says before its cells. No memory is taken, and nothing is read after a bad
/// origin.
pub(crate) fn head_from<R: Read>(
    input: &mut Counted<R>,
    schema: &Schema,
    hasher: &mut Sha256,
) -> Result<Head, LoadFault>
    ensures read { StreamGives (λ x. x) result (R.remaining (inner_of input.old))
        (R.remaining (inner_of input.new)) (head_at schema.now) }
    ensures addition { IfOk result (λ head. IsAddition schema.now head.addition) }
    ensures older_has_archives { IfOk result (λ head.
        1 ≤ length (older schema.now head.addition).archives) }
    ensures piece { DigestsPiece (length (schema_bytes schema.now) + BESIDES_LEN) R.remaining
        input.old input.new hasher.old hasher.new result }
    ensures bad_origin { result ≡ Err LoadFault.BadOrigin
        → ReadsUpTo (length (schema_bytes schema.now) + BESIDES_LEN - COUNT_LEN) R.remaining
        input.old input.new }
{
    let (version, number) = start_from(input, schema, hasher)?;
    let (addition, origin) = archives_from(input, version, schema, number, hasher)?;
    let origin = match Origin::new(origin) {
        Ok(origin) => origin,
        Err(_) => return Err(LoadFault::BadOrigin),
    };
    let count = count_from(input, hasher)?;
    Ok(Head {
        version,
        addition,
        origin,
        count,
    })
}
