//! Which archive a schema adds to another.
ghost use Rattle.std.specs.Prelude.{◌≡◌, ◌≢◌, ◌↔◌, ◌+◌, ◌<◌, length, take, IsTrue, IfOk, IfSome, IfNone, ℕ};
ghost use Rattle.rr_schema.specs.Added.{without};

use crate::archive::ArchiveSpec;
use std::alloc::{AllocError, Global};

/// What a schema adds to an older one of the same step.
#[derive(Clone, Copy, Debug, PartialEq, Eq)]
pub enum Addition {
    /// Nothing: the two are the same.
    Nothing,
    /// The archive with this number, from 0. The numbers of those after it were lower by one.
    Archive(u8),
}

/// Whether the others are the archives without the one with this number.
fn are_without(number: usize, archives: &[ArchiveSpec], others: &[ArchiveSpec]) -> bool
    requires { number < length archives.now }
    ensures { IsTrue result ↔ (others.now ≡ without number archives.now) }
{
    if others.len() < number {
        return false;
    }
    let (prefix, rest) = others.split_at(number);
    prefix == &archives[..number] && rest == archives.split_at(number + 1).1
}

/// The archives without the one with this number.
pub(crate) fn archives_without(
    alloc: Global,
    number: usize,
    archives: &[ArchiveSpec],
) -> Result<Vec<ArchiveSpec>, AllocError>
    requires { number < length archives.now }
    ensures { IfOk result (λ others. others.items ≡ without number archives.now) }
{
    let mut others = Vec::with_capacity(alloc, archives.len() - 1)?;
    others.extend_from_slice(&archives[..number])?;
    others.extend_from_slice(&archives[number + 1..])?;
    Ok(others)
}

/// The number of an archive without which the archives equal the others, if there is one.
pub(crate) fn number_of_added(archives: &[ArchiveSpec], others: &[ArchiveSpec]) -> Option<usize>
    ensures in_archives { IfSome result (λ i. i < length archives.now) }
    ensures others { IfSome result (λ i. others.now ≡ without i archives.now) }
    ensures none { IfNone result ((i : ℕ) → i < length archives.now
        → others.now ≢ without i archives.now) }
{
    for number in 0..archives.len() {
        if are_without(number, archives, others) {
            return Some(number);
        }
    }
    None
}
