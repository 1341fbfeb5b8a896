//! The two classes of names, by the bytes that are special in them.

ghost use Rattle.std.specs.Prelude.{◌≡◌};
ghost use Rattle.rr_key.specs.Class.{is_special};

use rr_text::bytes::{COMMA, EQUALS, SPACE};

/// Which bytes of a name are special: each is written with a backslash before it.
#[derive(Clone, Copy, Debug, PartialEq, Eq)]
pub enum Class {
    /// A measurement: comma and space.
    Measurement,
    /// A tag's key, a tag's value or a field's key: comma, space and equals.
    Other,
}

/// Whether the byte is special in names of the class.
pub(crate) fn is_special(class: Class, byte: u8) -> bool
    ensures { result ≡ is_special class byte }
{
    match class {
        Class::Measurement => matches!(byte, COMMA | SPACE),
        Class::Other => matches!(byte, COMMA | SPACE | EQUALS),
    }
}
