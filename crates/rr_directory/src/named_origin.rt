//! The names of the origins that a node has taken.
ghost use Rattle.std.specs.Prelude.{◌≡◌, ◌++◌, IfOk, option_to_list};
ghost use Rattle.rr_directory.specs.NamedOrigins.{IsOriginName, five_digits, later_of, origin_in, origin_text};
ghost use Rattle.rr_directory.specs.Start.{IsGreatest};

use crate::name::{after, push_digits};
use rr_schema::Origin;
use rr_text::text::number;
use std::alloc::{AllocError, Global};

/// What the name of an origin begins with.
const ORIGIN: &[u8] = b"origin-";

/// How many digits an origin has in a name.
const ORIGIN_DIGITS: usize = 5;

const _: () = prove!(ORIGIN_DIGITS == 5);

/// The number that a text gives in the digits of an origin.
fn five_digits(text: &[u8]) -> Option<u64>
    ensures { result ≡ five_digits text.now }
{
    if text.len() != ORIGIN_DIGITS {
        return None;
    }
    number(text)
}

/// The name of the empty file which says that an origin is taken.
pub fn origin_name(alloc: Global, origin: Origin) -> Result<Vec<u8>, AllocError>
    ensures { IfOk result (λ bytes. bytes.items ≡ origin_text origin) }
{
    let mut bytes = Vec::from_slice(alloc, ORIGIN)?;
    push_digits(&mut bytes, ORIGIN_DIGITS, u64::from(origin.get()))?;
    Ok(bytes)
}

/// The origin of this number, if there is one.
fn origin_in(number: u64) -> Option<Origin>
    ensures { result ≡ origin_in number }
{
    if number > u64::from(u16::MAX) {
        return None;
    }
    Origin::new(number as u16).ok()
}

/// The origin with this name, if the bytes are the name of one.
pub fn origin_named(bytes: &[u8]) -> Option<Origin>
    ensures { IsOriginName bytes.now result }
{
    let digits = after(ORIGIN, bytes)?;
    origin_in(five_digits(digits)?)
}

/// The greatest of the origins that have names and of the one recorded last, which a directory may
/// have without a name. The cost is linear in the names.
pub fn greatest_origin(named: &[Origin], recorded: Option<Origin>) -> Option<Origin>
    ensures { IsGreatest (option_to_list recorded ++ named.now) result }
{
    let mut greatest = recorded;
    for origin in named {
        greatest = later_of(greatest, *origin);
    }
    greatest
}

/// The greater of two origins, or the only one.
fn later_of(one: Option<Origin>, other: Origin) -> Option<Origin>
    ensures { result ≡ later_of one other }
{
    match one {
        Some(one) => Some(one.max(other)),
        None => Some(other),
    }
}
