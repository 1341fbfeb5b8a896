//! The fields of headers and bodies, each read from the beginning of the bytes.
ghost use Rattle.std.specs.Int.{w8, w16, w32, w64};
ghost use Rattle.rr_journal.specs.Fault.{Finds};
ghost use Rattle.rr_journal.specs.Fields.{prefix_at, number_at, cursor_at};

use crate::cursor::Cursor;
use crate::fault::JournalFault;

/// The first `len` bytes, and what follows them.
pub(crate) fn bytes_at(bytes: &[u8], len: usize) -> Result<(&[u8], &[u8]), JournalFault>
    ensures { Finds (λ x. (x.0.now, x.1.now)) result (prefix_at len bytes.now) }
{
    if bytes.len() < len {
        return Err(JournalFault::Short);
    }
    Ok(bytes.split_at(len))
}

/// As many bytes as the array holds, and what follows them.
pub(crate) fn array_at<const N: usize>(bytes: &[u8]) -> Result<([u8; N], &[u8]), JournalFault>
    ensures { Finds (λ x. (x.0, x.1.now)) result (prefix_at N bytes.now) }
{
    match bytes.split_first_chunk() {
        Some((field, rest)) => Ok((*field, rest)),
        None => Err(JournalFault::Short),
    }
}

/// A number of one byte, and what follows it.
pub(crate) fn u8_at(bytes: &[u8]) -> Result<(u8, &[u8]), JournalFault>
    ensures { Finds (λ x. (x.0, x.1.now)) result (number_at w8 bytes.now) }
{
    let (field, rest) = array_at(bytes)?;
    Ok((u8::from_be_bytes(field), rest))
}

/// A number of two bytes, and what follows it.
pub(crate) fn u16_at(bytes: &[u8]) -> Result<(u16, &[u8]), JournalFault>
    ensures { Finds (λ x. (x.0, x.1.now)) result (number_at w16 bytes.now) }
{
    let (field, rest) = array_at(bytes)?;
    Ok((u16::from_be_bytes(field), rest))
}

/// A number of four bytes, and what follows it.
pub(crate) fn u32_at(bytes: &[u8]) -> Result<(u32, &[u8]), JournalFault>
    ensures { Finds (λ x. (x.0, x.1.now)) result (number_at w32 bytes.now) }
{
    let (field, rest) = array_at(bytes)?;
    Ok((u32::from_be_bytes(field), rest))
}

/// A number of eight bytes, and what follows it.
pub(crate) fn u64_at(bytes: &[u8]) -> Result<(u64, &[u8]), JournalFault>
    ensures { Finds (λ x. (x.0, x.1.now)) result (number_at w64 bytes.now) }
{
    let (field, rest) = array_at(bytes)?;
    Ok((u64::from_be_bytes(field), rest))
}

/// A place in a journal, and what follows it.
#[tactic(auto, unfolding(crate::specs::Fields::cursor_at))]
pub(crate) fn cursor_at(bytes: &[u8]) -> Result<(Cursor, &[u8]), JournalFault>
    ensures { Finds (λ x. (x.0, x.1.now)) result (cursor_at bytes.now) }
{
    let (id, rest) = array_at(bytes)?;
    let (offset, rest) = u64_at(rest)?;
    let (digest, rest) = array_at(rest)?;
    Ok((Cursor { id, offset, digest }, rest))
}
