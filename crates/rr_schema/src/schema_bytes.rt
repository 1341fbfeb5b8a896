//! The archives of a schema as bytes.
ghost use Rattle.std.specs.Prelude.{◌≡◌, ◌++◌, ◌↔◌, ◌<◌, [], ◌∷◌, length, option_map, All, IsTrue, OnOk};
ghost use Rattle.std.specs.Int.{w32, to_be_bytes};
ghost use Rattle.std.specs.List.{flat_map};
ghost use Rattle.rr_schema.specs.Added.{without};
ghost use Rattle.rr_schema.specs.Schema.{IsArchive};
ghost use Rattle.rr_schema.specs.SchemaBytes.{archive_bytes, IsAfter};

use crate::archive::ArchiveSpec;
use std::alloc::AllocError;

/// Archives, each of which is within its limits.
#[derive(Clone, Copy)]
pub(crate) struct Archives<'a> {
    pub(crate) items: &'a [ArchiveSpec],
    ghost each: { All IsArchive items.now },
}

/// How many bytes an archive has.
pub(crate) const ARCHIVE_LEN: usize = 9;

/// Adds the bytes of an archive.
#[tactic(auto, unfolding(crate::specs::SchemaBytes::archive_bytes))]
fn push_archive(bytes: &mut Vec<u8>, archive: &ArchiveSpec) -> Result<(), AllocError>
    requires { IsArchive archive.now }
    ensures { OnOk result (bytes.new.items ≡ bytes.old.items ++ archive_bytes archive.now) }
{
    bytes.push(archive.steps as u8)?;
    bytes.extend_from_slice(&archive.rows.to_be_bytes())?;
    bytes.extend_from_slice(&(archive.num as u16).to_be_bytes())?;
    bytes.extend_from_slice(&(archive.den as u16).to_be_bytes())?;
    Ok(())
}

/// Adds the bytes of archives, in order.
pub(crate) fn push_archives(bytes: &mut Vec<u8>, archives: Archives<'_>) -> Result<(), AllocError>
    ensures { OnOk result (bytes.new.items ≡ bytes.old.items
        ++ flat_map archive_bytes archives.entry.items.now) }
{
    for archive in archives.items {
        push_archive(bytes, archive)?;
    }
    Ok(())
}

/// What follows a piece, if the bytes begin with it.
fn after<'a>(piece: &[u8], bytes: &'a [u8]) -> Option<&'a [u8]>
    ensures { IsAfter piece.now bytes.now (option_map (λ rest. rest.now) result) }
{
    bytes.strip_prefix(piece)
}

/// What follows the bytes of an archive, if the bytes begin with them.
#[tactic(auto, unfolding(crate::specs::SchemaBytes::archive_bytes))]
fn after_archive<'a>(archive: &ArchiveSpec, bytes: &'a [u8]) -> Option<&'a [u8]>
    requires { IsArchive archive.now }
    ensures { IsAfter (archive_bytes archive.now) bytes.now
        (option_map (λ rest. rest.now) result) }
{
    let Some(rest) = after(&[archive.steps as u8], bytes) else {
        return None;
    };
    let Some(rest) = after(&archive.rows.to_be_bytes(), rest) else {
        return None;
    };
    let Some(rest) = after(&(archive.num as u16).to_be_bytes(), rest) else {
        return None;
    };
    after(&(archive.den as u16).to_be_bytes(), rest)
}

/// What follows the bytes of archives, in order, if the bytes begin with them.
fn after_archives<'a>(archives: Archives<'_>, bytes: &'a [u8]) -> Option<&'a [u8]>
    ensures { IsAfter (flat_map archive_bytes archives.entry.items.now) bytes.now
        (option_map (λ rest. rest.now) result) }
{
    let mut left = bytes;
    for archive in archives.items {
        let Some(rest) = after_archive(archive, left) else {
            return None;
        };
        left = rest;
    }
    Some(left)
}

/// Whether the bytes are those of archives, in order. No memory is taken.
pub(crate) fn are_archives(archives: Archives<'_>, bytes: &[u8]) -> bool
    ensures { IsTrue result ↔ (bytes.now ≡ flat_map archive_bytes archives.entry.items.now) }
{
    match after_archives(archives, bytes) {
        Some(rest) => rest.is_empty(),
        None => false,
    }
}

/// Whether the bytes are those of archives without the one with this number. No memory is taken.
pub(crate) fn are_archives_without(number: usize, archives: Archives<'_>, bytes: &[u8]) -> bool
    requires { number < length archives.items.now }
    ensures { IsTrue result ↔ (bytes.now
        ≡ flat_map archive_bytes (without number archives.entry.items.now)) }
{
    let prefix = Archives {
        items: &archives.items[..number],
    };
    let (_, others) = archives.items.split_at(number + 1);
    match after_archives(prefix, bytes) {
        Some(rest) => are_archives(Archives { items: others }, rest),
        None => false,
    }
}

/// Whether the bytes are a step, the number of archives and their bytes. No memory is taken.
pub(crate) fn are_of_schema(step: u32, archives: Archives<'_>, bytes: &[u8]) -> bool
    requires { length archives.items.now < 256 }
    ensures { IsTrue result ↔ (bytes.now ≡ to_be_bytes w32 step
        ++ length archives.entry.items.now ∷ flat_map archive_bytes archives.entry.items.now) }
{
    let Some(rest) = after(&step.to_be_bytes(), bytes) else {
        return false;
    };
    match after(&[archives.items.len() as u8], rest) {
        Some(rest) => are_archives(archives, rest),
        None => false,
    }
}
