//! How the bytes of a name are written, and which name was written.

ghost use Rattle.std.specs.Prelude.{◌≡◌, ◌++◌, IfOk, OnOk, [], ◌∷◌, ◌<◌, length, IfSome, MatchOption};
ghost use Rattle.std.specs.List.{list_any};
ghost use Rattle.rr_key.specs.Class.{is_special};
ghost use Rattle.rr_key.specs.Unit.{escape, unescape};

use crate::class::{Class, is_special};
use rr_text::bytes::BACKSLASH;
use std::alloc::{AllocError, Global};

/// The name that is written: a backslash before a special byte of the class is dropped, and any
/// other byte stands for itself, even a special byte that no backslash took.
///
/// The rule is that of the "InfluxDB line protocol reference" for comma, equals and space; a
/// backslash before any other byte, even another backslash, stands for itself. The cost is one
/// pass.
pub fn unescape(alloc: Global, class: Class, raw: &[u8]) -> Result<Vec<u8>, AllocError>
    ensures { IfOk result (λ name. name.items ≡ unescape class raw.now) }
{
    if !raw.contains(&BACKSLASH) {
        return Vec::from_slice(alloc, raw);
    }
    let mut name = Vec::with_capacity(alloc, raw.len())?;
    let mut left = raw;
    while let Some((byte, rest)) = first_unit(class, left) {
        name.push(byte)?;
        left = rest;
    }
    Ok(name)
}

/// What the first unit of a written name stands for, and the bytes after it.
pub(crate) fn first_unit(class: Class, raw: &[u8]) -> Option<(u8, &[u8])>
    ensures value { MatchOption result (unescape class raw.now ≡ [])
        (λ unit. unescape class raw.now ≡ unit.0 ∷ unescape class unit.1.now) }
    ensures shorter { IfSome result (λ unit. length unit.1.now < length raw.now) }
{
    match raw {
        [] => None,
        [BACKSLASH, byte, rest @ ..] if is_special(class, *byte) => Some((*byte, rest)),
        [byte, rest @ ..] => Some((*byte, rest)),
    }
}

/// The name as it is written: with a backslash before each special byte of the class.
///
/// [`unescape`] restores the name. The cost is one pass.
pub fn escape(alloc: Global, class: Class, name: &[u8]) -> Result<Vec<u8>, AllocError>
    ensures { IfOk result (λ raw. raw.items ≡ escape class name.now) }
{
    let mut raw = Vec::with_capacity(alloc, name.len())?;
    push_escaped(&mut raw, class, name)?;
    Ok(raw)
}

/// Adds a written name to a text.
pub(crate) fn push_escaped(text: &mut Vec<u8>, class: Class, name: &[u8]) -> Result<(), AllocError>
    ensures { OnOk result (text.new.items ≡ text.old.items ++ escape class name.now) }
{
    if !has_special(class, name) {
        return text.extend_from_slice(name);
    }
    for byte in name {
        push_unit(text, class, *byte)?;
    }
    Ok(())
}

/// Whether a byte of a name is special.
fn has_special(class: Class, name: &[u8]) -> bool
    ensures { result ≡ list_any (is_special class) name.now }
{
    name.iter().any(|byte| is_special(class, *byte))
}

/// Adds one byte of a written name to a text.
fn push_unit(text: &mut Vec<u8>, class: Class, byte: u8) -> Result<(), AllocError>
    ensures { OnOk result (text.new.items ≡ text.old.items ++ escape class (byte ∷ [])) }
{
    if is_special(class, byte) {
        text.push(BACKSLASH)?;
    }
    text.push(byte)?;
    Ok(())
}
