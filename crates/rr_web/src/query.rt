//! The parameters of a query.

ghost use Rattle.std.specs.Prelude.{◌≡◌, IfOk, map, option_map};
ghost use Rattle.form_urlencoded.specs.Form.{decode, plus_to_space};
ghost use Rattle.rr_web.specs.Query.{parameter_of};

use form_urlencoded::raw_pairs;
use percent_encoding::percent_decode;
use std::alloc::{AllocError, Global};

/// A byte of a form, with a space for `+`.
fn plus_to_space(byte: u8) -> u8
    ensures { result ≡ plus_to_space byte }
{
    if byte == b'+' { b' ' } else { byte }
}

/// A text of a form with a space for each `+`.
fn spaced(alloc: Global, text: &[u8]) -> Result<Vec<u8>, AllocError>
    ensures { IfOk result (λ spaced. spaced.items ≡ map plus_to_space text.now) }
{
    let mut spaced = Vec::with_capacity(alloc, text.len())?;
    for byte in text {
        spaced.push(plus_to_space(*byte))?;
    }
    Ok(spaced)
}

/// The bytes that a text of a form stands for.
fn decoded(alloc: Global, text: &[u8]) -> Result<Vec<u8>, AllocError>
    ensures { IfOk result (λ bytes. bytes.items ≡ decode text.now) }
{
    let spaced = spaced(alloc, text)?;
    let mut bytes = Vec::new(alloc);
    percent_decode(&spaced).append_to(&mut bytes)?;
    Ok(bytes)
}

/// The value of the first parameter of this name in a query, if there is one: the bytes that it
/// stands for. The cost is linear in the query.
pub(crate) fn parameter(
    alloc: Global,
    query: &[u8],
    name: &[u8],
) -> Result<Option<Vec<u8>>, AllocError>
    ensures { IfOk result (λ value. option_map (λ text. text.items) value
        ≡ parameter_of query.now name.now) }
{
    for (own, value) in raw_pairs(query) {
        if decoded(alloc, own)?.as_slice() == name {
            return Ok(Some(decoded(alloc, value)?));
        }
    }
    Ok(None)
}
