//! Numbers as bytes: seven bits each, lowest first; the highest bit is set in all but the last.
ghost use Rattle.std.specs.Prelude.{◌≡◌, ◌<◌, ◌++◌, IfSome, Ok, OnOk};
ghost use Rattle.rr_codec.specs.Fault.{Finds};
ghost use Rattle.rr_codec.specs.Numbers.{is_bad_high, number_text, number_within, number_at};

use crate::fault::CodecFault;
use std::alloc::AllocError;

/// The most bytes a number of 128 bits has.
const MOST: u32 = 19;

const _: () = prove!(MOST == 19);

/// Adds a number, as [`push_number`] does.
fn push_bytes(bytes: &mut Vec<u8>, number: u128) -> Result<(), AllocError>
    ensures { OnOk result (bytes.new.items ≡ bytes.old.items ++ number_text number) }
{
    let mut rest = number;
    for _ in 1..MOST {
        if rest < 128 {
            bytes.push(rest as u8)?;
            return Ok(());
        }
        bytes.push((rest % 128) as u8 + 128)?;
        rest /= 128;
    }
    bytes.push(rest as u8)?;
    Ok(())
}

/// Adds a number. Most have one byte.
#[inline(always)]
pub(crate) fn push_number(bytes: &mut Vec<u8>, number: u128) -> Result<(), AllocError>
    ensures { OnOk result (bytes.new.items ≡ bytes.old.items ++ number_text number) }
{
    if number < 128 {
        bytes.push(number as u8)?;
        return Ok(());
    }
    push_bytes(bytes, number)
}

/// Whether no number written in its fewest bytes has these bits above its lowest seven: they are
/// all zero, or too many for 128 bits.
fn is_bad_high(high: u128) -> bool
    ensures { result ≡ is_bad_high high }
{
    high == 0 || high >= 1 << 121
}

/// A number of at most `most` bytes, and what follows it.
fn number_within(bytes: &[u8], most: u32) -> Result<(u128, &[u8]), CodecFault>
    ensures { Finds (λ x. (x.0, x.1.now)) result (number_within most bytes.now) }
{
    if most == 0 {
        return Err(CodecFault::BadNumber);
    }
    let Some((byte, rest)) = bytes.split_first() else {
        return Err(CodecFault::Short);
    };
    if *byte < 128 {
        return Ok((u128::from(*byte), rest));
    }
    let (high, rest) = number_within(rest, most - 1)?;
    if is_bad_high(high) {
        return Err(CodecFault::BadNumber);
    }
    Ok((128 * high + u128::from(*byte - 128), rest))
}

/// A number of one byte, and what follows it.
#[inline(always)]
pub(crate) fn byte_at(bytes: &[u8]) -> Option<(u8, &[u8])>
    ensures small { IfSome result (λ x. x.0 < 128) }
    ensures read { IfSome result (λ x. number_at bytes.now ≡ Ok (x.0, x.1.now)) }
{
    match bytes.split_first() {
        Some((byte, rest)) if *byte < 128 => Some((*byte, rest)),
        _ => None,
    }
}

/// A number of two bytes, and what follows it.
#[inline(always)]
fn two_bytes_at(bytes: &[u8]) -> Option<(u16, &[u8])>
    ensures { IfSome result (λ x. number_at bytes.now ≡ Ok (x.0, x.1.now)) }
{
    let (low, rest) = bytes.split_first()?;
    let (high, rest) = rest.split_first()?;
    if *low < 128 || *high >= 128 || *high == 0 {
        return None;
    }
    Some((128 * u16::from(*high) + u16::from(*low - 128), rest))
}

/// A number of 128 bits, and what follows it. Most have one byte or two.
#[inline(always)]
pub(crate) fn number_at(bytes: &[u8]) -> Result<(u128, &[u8]), CodecFault>
    ensures { Finds (λ x. (x.0, x.1.now)) result (number_at bytes.now) }
{
    match byte_at(bytes) {
        Some((byte, rest)) => Ok((u128::from(byte), rest)),
        None => match two_bytes_at(bytes) {
            Some((number, rest)) => Ok((u128::from(number), rest)),
            None => number_within(bytes, MOST),
        },
    }
}
