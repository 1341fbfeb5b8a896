//! The body of a Summary frame.
ghost use Rattle.std.specs.Prelude.{◌≡◌, ◌++◌, ◌≤◌, IfOk, OnOk, Some, map, length};
ghost use Rattle.rr_text.specs.Results.{GivesUnless};
ghost use Rattle.rr_delta.specs.Names.{owned_name};
ghost use Rattle.rr_page.specs.PageReading.{is_after};
ghost use Rattle.rr_gossip.specs.Summary.{entry_text, summary_text, last_name};
ghost use Rattle.rr_gossip.specs.SummaryReading.{entry_at, entries_at, summary_at};

use rr_delta::Name;
use rr_page::fields::{i64_at, u16_at, u64_at};
use rr_page::{PageFault, archive_of, key_of, push_name};
use rr_schema::{Origin, Schema};
use rr_text::limits::MAX_NUMBER;
use std::alloc::{AllocError, Global};

/// How many entries a Summary frame may have.
pub const MAX_ENTRIES: usize = 256;

const _: () = prove!(MAX_ENTRIES == 256);

/// Adds a name and its version.
#[tactic(auto, unfolding(crate::specs::Summary::entry_text))]
fn push_entry(bytes: &mut Vec<u8>, name: &Name) -> Result<(), AllocError>
    ensures { OnOk result (bytes.new.items ≡ bytes.old.items ++ entry_text (owned_name name.now)) }
{
    push_name(bytes, &name.key, name.archive, name.slot, name.origin)?;
    bytes.extend_from_slice(&name.version.to_be_bytes())?;
    Ok(())
}

/// The body of a Summary frame of these names, at most 256. The cost is linear in the bytes.
#[tactic(auto, unfolding(crate::specs::Summary::summary_text))]
pub fn summary_bytes(alloc: Global, names: &[Name]) -> Result<Vec<u8>, AllocError>
    requires { length names.now ≤ MAX_ENTRIES }
    ensures { IfOk result (λ bytes. bytes.items ≡ summary_text (map owned_name names.now)) }
{
    let mut bytes = Vec::new(alloc);
    bytes.extend_from_slice(&(names.len() as u16).to_be_bytes())?;
    for name in names {
        push_entry(&mut bytes, name)?;
    }
    Ok(bytes)
}

/// The name and the version at the beginning of the bytes, and what follows them.
#[tactic(auto, unfolding(crate::specs::SummaryReading::entry_at))]
fn entry_of<'a>(
    alloc: Global,
    bytes: &'a [u8],
    schema: &Schema,
) -> Result<(Name, &'a [u8]), PageFault>
    ensures { GivesUnless PageFault.Memory (λ x. (owned_name x.0, x.1.now)) result
        (entry_at schema.now bytes.now) }
{
    let (key, rest) = key_of(alloc, bytes)?;
    let (archive, rest) = archive_of(rest, schema)?;
    let (slot, rest) = i64_at(rest)?;
    let (origin, rest) = u16_at(rest)?;
    let (version, rest) = u64_at(rest)?;
    let origin = match Origin::new(origin) {
        Ok(origin) => origin,
        Err(_) => return Err(PageFault::BadContribution),
    };
    if version == 0 || version > MAX_NUMBER {
        return Err(PageFault::BadContribution);
    }
    let name = Name {
        key,
        archive,
        slot,
        origin,
        version,
    };
    Ok((name, rest))
}

/// Whether the name of a cell is greater than that of another.
fn follows(before: &Name, name: &Name) -> bool
    ensures { result ≡ is_after (Some (owned_name before.now).0) (owned_name name.now).0 }
{
    let cell_slot = before
        .slot
        .cmp(&name.slot)
        .then(before.origin.cmp(&name.origin));
    before
        .key
        .cmp(&name.key)
        .then(before.archive.cmp(&name.archive).then(cell_slot))
        .is_lt()
}

/// Whether a name may come after those before it.
fn is_next(names: &[Name], name: &Name) -> bool
    ensures { result ≡ is_after (last_name (map owned_name names.now)) (owned_name name.now).0 }
{
    match names.last() {
        None => true,
        Some(before) => follows(before, name),
    }
}

/// Adds `count` names, and returns what follows them.
fn push_entries<'a>(
    alloc: Global,
    names: &mut Vec<Name>,
    count: u16,
    bytes: &'a [u8],
    schema: &Schema,
) -> Result<&'a [u8], PageFault>
    ensures { GivesUnless PageFault.Memory (λ rest. (map owned_name names.new.items, rest.now))
        result
        (entries_at schema.now (map owned_name names.old.items) count bytes.now) }
{
    let mut rest = bytes;
    for _ in 0..count {
        let (name, after) = entry_of(alloc, rest, schema)?;
        if !is_next(names, &name) {
            return Err(PageFault::OutOfOrder);
        }
        names.push(name)?;
        rest = after;
    }
    Ok(rest)
}

/// Adds the 1 to 256 names of the body of a Summary frame to those of the frames before it. All of
/// them strictly ascend.
///
/// Refused if the bytes are no such body; some of its names may then have been added. `Memory` is
/// returned if memory runs out. The cost is linear in the bytes.
#[tactic(auto, unfolding(crate::specs::SummaryReading::summary_at))]
pub fn read_summary(
    alloc: Global,
    names: &mut Vec<Name>,
    body: &[u8],
    schema: &Schema,
) -> Result<(), PageFault>
    ensures { GivesUnless PageFault.Memory (λ _. map owned_name names.new.items) result
        (summary_at schema.now (map owned_name names.old.items) body.now) }
{
    let (count, rest) = u16_at(body)?;
    if count == 0 || count as usize > MAX_ENTRIES {
        return Err(PageFault::TooManyCells);
    }
    let rest = push_entries(alloc, names, count, rest, schema)?;
    if !rest.is_empty() {
        return Err(PageFault::TrailingBytes);
    }
    Ok(())
}
