//! The schema that the header of a file names.
ghost use Rattle.std.specs.Prelude.{◌≡◌, ◌≢◌, ◌⊎◌, Contains, IfErr, IfOk, IfSome};
ghost use Rattle.rr_schema.specs.SchemaBytes.{schema_bytes};
ghost use Rattle.rr_journal.specs.declared.fault.JournalFault.TheVariants.{SchemaDiffers};
ghost use Rattle.rr_directory.specs.declared.fault.FileFault.TheVariants.{BadHeader};
ghost use Rattle.rr_directory.specs.declared.name.FileName.{FileName};
ghost use Rattle.rr_directory.specs.Schemas.{IsWholeUnder, own_fault};

use crate::directory::Directory;
use crate::fault::{FileFault, Refusal};
use crate::name::FileName;
use crate::place::header_fault;
use rr_io::Counted;
use rr_io::stream::fill;
use rr_journal::{JournalFault, header_from};
use rr_schema::{ArchiveSpec, Schema, SchemaFault};
use std::alloc::{AllocError, Global};
use std::io::Read;

/// How many bytes of a header come before its schema; the last two are the schema's length.
const BEFORE_LEN: usize = 8;

/// How many bytes an archive has.
const ARCHIVE_LEN: usize = 9;

/// The archive of these bytes; for any other number of bytes, one that no schema has.
fn archive_of(bytes: &[u8]) -> ArchiveSpec {
    let [steps, r0, r1, r2, r3, n0, n1, d0, d1] = bytes else {
        return ArchiveSpec {
            steps: 0,
            rows: 0,
            num: 0,
            den: 0,
        };
    };
    ArchiveSpec {
        steps: u32::from(*steps),
        rows: u32::from_be_bytes([*r0, *r1, *r2, *r3]),
        num: u32::from(u16::from_be_bytes([*n0, *n1])),
        den: u32::from(u16::from_be_bytes([*d0, *d1])),
    }
}

/// The archives of these bytes.
fn archives_of(alloc: Global, bytes: &[u8]) -> Result<Vec<ArchiveSpec>, AllocError> {
    let mut archives = Vec::new(alloc);
    let mut left = bytes;
    while left.len() >= ARCHIVE_LEN {
        let (archive, rest) = left.split_at(ARCHIVE_LEN);
        archives.push(archive_of(archive))?;
        left = rest;
    }
    Ok(archives)
}

/// The schema with these bytes, if there is one.
pub fn schema_of(alloc: Global, bytes: &[u8]) -> Result<Option<Schema>, AllocError>
    ensures { IfOk result (λ found. IfSome found (λ s. bytes.now ≡ schema_bytes s)) }
{
    let [a, b, c, d, _, rest @ ..] = bytes else {
        return Ok(None);
    };
    let step = u32::from_be_bytes([*a, *b, *c, *d]);
    let archives = archives_of(alloc, rest)?;
    match Schema::new(alloc, step, &archives) {
        Ok(schema) if schema.has_bytes(bytes) => Ok(Some(schema)),
        Err(SchemaFault::Memory) => Err(AllocError),
        _ => Ok(None),
    }
}

/// The bytes of the schema that the header at the beginning of an input names, and whether the
/// input has all of them.
fn schema_bytes_from<R: Read>(
    alloc: Global,
    input: &mut Counted<R>,
) -> Result<(Vec<u8>, bool), FileFault>
    ensures { IfErr result (λ fault. fault ≢ BadHeader SchemaDiffers) }
{
    let mut before = [0u8; BEFORE_LEN];
    let begun = fill(input, &mut before)?;
    let [_, _, _, _, _, _, high, low] = before;
    let len = u16::from_be_bytes([high, low]) as usize;
    let mut bytes = vec![in alloc; 0u8; len]?;
    let filled = fill(input, &mut bytes)?;
    bytes.truncate(filled);
    Ok((bytes, begun == BEFORE_LEN && filled == len))
}

/// The bytes of the schema that the header of a file names, and whether the file has all of them.
fn named_bytes<D: Directory>(
    alloc: Global,
    directory: &D,
    name: FileName,
) -> Result<(Vec<u8>, bool), FileFault>
    ensures { IfErr result (λ fault. fault ≢ BadHeader SchemaDiffers) }
{
    let mut input = Counted::new(directory.open(alloc, name)?);
    schema_bytes_from(alloc, &mut input)
}

/// The schema that the header of a file names, if it names one, whatever else the header has.
/// Refused as `ReadFailed` and `Memory`.
pub fn schema_in<D: Directory>(
    alloc: Global,
    directory: &D,
    name: FileName,
) -> Result<Option<Schema>, FileFault> {
    let (bytes, _) = named_bytes(alloc, directory, name)?;
    Ok(schema_of(alloc, &bytes)?)
}

/// A schema under which a header is read that names none.
pub fn any_schema(alloc: Global) -> Result<Schema, AllocError> {
    let archive = ArchiveSpec {
        steps: 1,
        rows: 1,
        num: 0,
        den: 1,
    };
    match Schema::new(alloc, 1, &[archive]) {
        Ok(schema) => Ok(schema),
        Err(_) => Err(AllocError),
    }
}

/// The fault of a header that is read under the schema that it names itself: if that seems to be
/// another one, or none, the header ends too early, or isn't whole.
fn own_fault(fault: JournalFault, has_schema: bool) -> FileFault
    ensures { result ≡ own_fault fault has_schema }
{
    match fault {
        JournalFault::SchemaDiffers if has_schema => FileFault::BadHeader(JournalFault::BadDigest),
        JournalFault::SchemaDiffers => FileFault::BadHeader(JournalFault::Short),
        fault => header_fault(fault),
    }
}

/// The schema that the header of a file names, if the header is whole: so a directory can be read
/// without a configuration, and each of its files by itself.
///
/// Refused like the header under that schema: as `Short`, `BadMagic`, `BadVersion`, `BadDecimals`
/// or `BadDigest`, which any other changed byte is; and as `ReadFailed` and `Memory`.
pub fn own_schema<D: Directory>(
    alloc: Global,
    directory: &D,
    name: FileName,
) -> Result<Schema, FileFault>
    ensures whole { IfOk result (λ s. IfSome (D.bytes directory.now) (λ of. IsWholeUnder s (of name))) }
    ensures own { IfErr result (λ fault. fault ≢ BadHeader SchemaDiffers) }
{
    let (bytes, has_schema) = named_bytes(alloc, directory, name)?;
    let schema = match schema_of(alloc, &bytes)? {
        Some(schema) => schema,
        None => any_schema(alloc)?,
    };
    let mut input = Counted::new(directory.open(alloc, name)?);
    match header_from(alloc, &mut input, &schema) {
        Ok(_) => Ok(schema),
        Err(fault) => Err(own_fault(fault, has_schema)),
    }
}

/// The schema that the first whole header of some files names, if one is whole. Refused as
/// `ReadFailed` and `Memory`.
pub fn first_schema<D: Directory>(
    alloc: Global,
    directory: &D,
    files: &[FileName],
) -> Result<Option<Schema>, FileFault>
    ensures { IfOk result (λ found. IfSome found (λ s. IfSome (D.bytes directory.now) (λ of.
        (name : FileName) × Contains files.now name × IsWholeUnder s (of name)))) }
{
    for name in files {
        match own_schema(alloc, directory, *name) {
            Ok(schema) => return Ok(Some(schema)),
            Err(FileFault::BadHeader(_)) => (),
            Err(fault) => return Err(fault),
        }
    }
    Ok(None)
}

/// The refusal of a file that was read under the schema of another one or of a configuration: if
/// its own header isn't whole, it isn't one of another schema, and is refused as
/// [`own_schema`] says.
pub fn own_refusal<D: Directory>(alloc: Global, directory: &D, refusal: Refusal) -> Refusal
    ensures file { result.file ≡ refusal.file }
    ensures fault { (result.fault ≡ refusal.fault)
        ⊎ ((refusal.fault ≡ BadHeader SchemaDiffers) × (result.fault ≢ BadHeader SchemaDiffers)) }
{
    if refusal.fault != FileFault::BadHeader(JournalFault::SchemaDiffers) {
        return refusal;
    }
    match own_schema(alloc, directory, refusal.file) {
        Ok(_) => refusal,
        Err(fault) => Refusal {
            file: refusal.file,
            fault,
        },
    }
}
