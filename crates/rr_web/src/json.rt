//! JSON texts.

ghost use Rattle.std.specs.Prelude.{◌≡◌, ◌++◌, ◌%◌, OnOk};
ghost use Rattle.std.specs.Char.{digit_char};
ghost use Rattle.std.specs.List.{flat_map};
ghost use Rattle.rr_web.specs.Json.{escaped, quoted};

use rr_text::bytes::BACKSLASH;
use std::alloc::{AllocError, Global};

/// The hexadecimal digit of the lower half of a byte.
fn hex_digit(byte: u8) -> u8
    ensures { result ≡ digit_char (byte % 16) }
{
    let half = byte % 16;
    if half < 10 {
        b'0' + half
    } else {
        b'a' - 10 + half
    }
}

/// Adds a byte as it stands inside quotes.
fn push_escaped(text: &mut Vec<u8>, byte: u8) -> Result<(), AllocError>
    ensures { OnOk result (text.new.items ≡ text.old.items ++ escaped byte) }
{
    if byte == b'"' || byte == BACKSLASH {
        text.push(BACKSLASH)?;
        text.push(byte)?;
    } else if byte < 32 {
        text.extend_from_slice(b"\\u00")?;
        text.push(hex_digit(byte / 16))?;
        text.push(hex_digit(byte))?;
    } else {
        text.push(byte)?;
    }
    Ok(())
}

/// Adds bytes as they stand inside quotes.
fn push_inside(text: &mut Vec<u8>, bytes: &[u8]) -> Result<(), AllocError>
    ensures { OnOk result (text.new.items ≡ text.old.items ++ flat_map escaped bytes.now) }
{
    for byte in bytes {
        push_escaped(text, *byte)?;
    }
    Ok(())
}

/// Adds bytes as a text in quotes, with U+FFFD for what isn't UTF-8.
pub(crate) fn push_quoted(alloc: Global, text: &mut Vec<u8>, bytes: &[u8]) -> Result<(), AllocError>
    ensures { OnOk result (text.new.items ≡ text.old.items ++ quoted bytes.now) }
{
    let shown = String::from_utf8_lossy(alloc, bytes)?;
    text.push(b'"')?;
    push_inside(text, shown.as_bytes())?;
    text.push(b'"')?;
    Ok(())
}
