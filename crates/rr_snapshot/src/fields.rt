//! The fields before the cells of a snapshot, read in three pieces.
ghost use Rattle.std.specs.Prelude.{◌≡◌, ◌≤◌, ◌+◌, ◌*◌, IfOk, length};
ghost use Rattle.std.specs.Int.{w32};
ghost use Rattle.std.specs.List.{find, range_with_len};
ghost use Rattle.std.specs.Option.{option_map};
ghost use Rattle.std.specs.Prelude.{map};
ghost use Rattle.rr_io.specs.Counted.{inner_of};
ghost use Rattle.rr_schema.specs.Added.{IsAddition};
ghost use Rattle.rr_schema.specs.declared.added.Addition.TheVariants.{Archive};
ghost use Rattle.rr_page.specs.Found.{Finds};
ghost use Rattle.rr_page.specs.Reading.{number_at};
ghost use Rattle.rr_snapshot.specs.Stream.{DigestsPiece, StreamGives};
ghost use Rattle.rr_snapshot.specs.SnapshotReading.{IsAdditionTo, IsArchiveCount, as_in_page, may_have_had, start_at, fits_addition, fitting_addition, archives_at};

use crate::fault::LoadFault;
use crate::stream::fill_up_to;
use rr_io::Counted;
use rr_io::stream::fill;
use rr_page::fields::{bytes_at, u8_at, u16_at, u32_at};
use rr_page::{PageFault, Version, version_of};
use rr_schema::{Addition, Schema};
use rr_text::limits::MAX_ARCHIVES;
use sha2::{Digest, Sha256};
use std::io::Read;

/// The bytes that every snapshot begins with.
pub(crate) const MAGIC: [u8; 4] = *b"RRSN";

/// How many bytes these, the version, the step and the number of archives take.
pub(crate) const START_LEN: usize = 10;

/// How many bytes an archive takes.
pub(crate) const ARCHIVE_LEN: usize = 9;

/// How many bytes the origin takes.
pub(crate) const ORIGIN_LEN: usize = 2;

/// How many bytes the number of cells takes.
pub(crate) const COUNT_LEN: usize = 4;

const _: () = prove!(START_LEN == 10);

const _: () = prove!(ARCHIVE_LEN == 9);

const _: () = prove!(ORIGIN_LEN == 2);

const _: () = prove!(COUNT_LEN == 4);

/// Whether a schema may have had this step and this many archives before an addition.
fn may_have_had(schema: &Schema, step: u32, number: u8) -> bool
    ensures { result ≡ may_have_had schema.now step number }
{
    let now = schema.archives().len();
    let number = number as usize;
    step == schema.step() && number != 0 && (number == now || number + 1 == now)
}

/// The version and the number of archives, and what follows them. No memory is taken.
#[tactic(auto, unfolding(crate::specs::SnapshotReading::start_at))]
fn start_of<'a>(schema: &Schema, bytes: &'a [u8]) -> Result<(Version, u8, &'a [u8]), PageFault>
    ensures found { Finds (λ x. ((x.0, x.1), x.2.now)) result (start_at schema.now bytes.now) }
    ensures number { IfOk result (λ x. IsArchiveCount schema.now x.1) }
{
    let (start, rest) = bytes_at(bytes, MAGIC.len())?;
    if start != MAGIC.as_slice() {
        return Err(PageFault::BadMagic);
    }
    let (version, rest) = version_of(rest)?;
    let (step, rest) = u32_at(rest)?;
    let (number, rest) = u8_at(rest)?;
    if !may_have_had(schema, step, number) {
        return Err(PageFault::SchemaDiffers);
    }
    Ok((version, number, rest))
}

/// The version and the number of archives at the start of the remaining input.
pub(crate) fn start_from<R: Read>(
    input: &mut Counted<R>,
    schema: &Schema,
    hasher: &mut Sha256,
) -> Result<(Version, u8), LoadFault>
    ensures read { StreamGives (λ x. (x.0, x.1)) result (R.remaining (inner_of input.old))
        (R.remaining (inner_of input.new)) (λ all. as_in_page (start_at schema.now all)) }
    ensures number { IfOk result (λ x. IsArchiveCount schema.now x.1) }
    ensures piece { DigestsPiece START_LEN R.remaining input.old input.new hasher.old hasher.new
        result }
{
    let mut buffer = [0u8; START_LEN];
    let got = fill(input, &mut buffer)?;
    let (version, number, _) = start_of(schema, &buffer[..got])?;
    hasher.update(&buffer[..got]);
    Ok((version, number))
}

/// Whether these are the bytes of the archives before an addition, and the version has masks for
/// them.
fn fits_addition(version: Version, schema: &Schema, field: &[u8], addition: Addition) -> bool
    requires { IsAddition schema.now addition }
    ensures { result ≡ fits_addition version schema.now field.now addition }
{
    version.had_masks_for(schema, addition) && schema.had_archives(addition, field)
}

/// The number of the archive that was added since these were the bytes of the archives, if one was.
fn fitting_archive(version: Version, schema: &Schema, field: &[u8]) -> Option<u8>
    ensures { option_map Archive result ≡ find (fits_addition version schema.now field.now)
        (map Archive (range_with_len 0 (length schema.now.archives))) }
{
    let count = schema.archives().len() as u8;
    for number in 0..count {
        if fits_addition(version, schema, field, Addition::Archive(number)) {
            return Some(number);
        }
    }
    None
}

/// What was added to the schema since these were the bytes of its archives.
fn fitting_addition(version: Version, schema: &Schema, field: &[u8]) -> Option<Addition>
    ensures { result ≡ fitting_addition version schema.now field.now }
{
    if fits_addition(version, schema, field, Addition::Nothing) {
        return Some(Addition::Nothing);
    }
    fitting_archive(version, schema, field).map(|number: u8| Addition::Archive(number))
}

/// What was added since there were this many archives, the origin, and what follows them. No memory
/// is taken.
#[tactic(auto, unfolding(crate::specs::SnapshotReading::archives_at))]
fn archives_of<'a>(
    version: Version,
    schema: &Schema,
    number: u8,
    bytes: &'a [u8],
) -> Result<(Addition, u16, &'a [u8]), PageFault>
    ensures found { Finds (λ x. ((x.0, x.1), x.2.now)) result
        (archives_at version schema.now number bytes.now) }
    ensures addition { IfOk result (λ x. IsAdditionTo schema.now number x.0) }
{
    let (field, rest) = bytes_at(bytes, ARCHIVE_LEN * number as usize)?;
    let Some(addition) = fitting_addition(version, schema, field) else {
        return Err(PageFault::SchemaDiffers);
    };
    let (origin, rest) = u16_at(rest)?;
    Ok((addition, origin, rest))
}

/// What was added since there were this many archives, and the origin, at the start of the
/// remaining input.
pub(crate) fn archives_from<R: Read>(
    input: &mut Counted<R>,
    version: Version,
    schema: &Schema,
    number: u8,
    hasher: &mut Sha256,
) -> Result<(Addition, u16), LoadFault>
    requires { number ≤ length schema.now.archives }
    ensures read { StreamGives (λ x. (x.0, x.1)) result (R.remaining (inner_of input.old))
        (R.remaining (inner_of input.new))
        (λ all. as_in_page (archives_at version schema.now number all)) }
    ensures addition { IfOk result (λ x. IsAdditionTo schema.now number x.0) }
    ensures piece { DigestsPiece (ARCHIVE_LEN * number + ORIGIN_LEN) R.remaining
        input.old input.new hasher.old hasher.new result }
{
    let _archives = schema.archives(); // their contract says that they are few
    let mut buffer = [0u8; ARCHIVE_LEN * MAX_ARCHIVES + ORIGIN_LEN];
    let len = ARCHIVE_LEN * number as usize + ORIGIN_LEN;
    let got = fill_up_to(input, &mut buffer, 0, len)?;
    let (addition, origin, _) = archives_of(version, schema, number, &buffer[..got])?;
    hasher.update(&buffer[..got]);
    Ok((addition, origin))
}

/// The number of cells at the start of the remaining input.
pub(crate) fn count_from<R: Read>(
    input: &mut Counted<R>,
    hasher: &mut Sha256,
) -> Result<u32, LoadFault>
    ensures read { StreamGives (λ x. x) result (R.remaining (inner_of input.old))
        (R.remaining (inner_of input.new)) (λ all. as_in_page (number_at w32 all)) }
    ensures piece { DigestsPiece COUNT_LEN R.remaining input.old input.new hasher.old hasher.new
        result }
{
    let mut buffer = [0u8; COUNT_LEN];
    let got = fill(input, &mut buffer)?;
    let (count, _) = u32_at(&buffer[..got])?;
    hasher.update(&buffer[..got]);
    Ok(count)
}
