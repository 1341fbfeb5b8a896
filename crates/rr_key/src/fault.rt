//! Why names make no key.

ghost use Rattle.std.specs.Prelude.{◌≡◌};

use std::alloc::{AllocError, AllocFailed};
use std::fmt;
use thiserror::Error;

/// Why names make no key, or bytes are not a key text.
#[derive(Clone, Copy, Debug, PartialEq, Eq, Error)]
pub enum KeyFault {
    /// A name is empty.
    EmptyName,
    /// A name has a line feed or ends in a backslash.
    BadName,
    /// Two tags have the same key.
    DuplicateTag,
    /// There are more tags than a key may have.
    TooManyTags,
    /// The key text has more bytes than it may have.
    KeyTooLong,
    /// The bytes are not a key text.
    BadKey,
    /// Memory ran out.
    Memory,
}

impl KeyFault {
    ghost use Rattle.rr_key.specs.Fault.{key_fault_name};

    /// The printed name.
    pub fn name(&self) -> &'static str
        ensures { result.now ≡ key_fault_name self.now }
    {
        match self {
            KeyFault::EmptyName => "EmptyName",
            KeyFault::BadName => "BadName",
            KeyFault::DuplicateTag => "DuplicateTag",
            KeyFault::TooManyTags => "TooManyTags",
            KeyFault::KeyTooLong => "KeyTooLong",
            KeyFault::BadKey => "BadKey",
            KeyFault::Memory => "Memory",
        }
    }

    fn sentence(&self) -> &'static str {
        match self {
            KeyFault::EmptyName => "a name of the key is empty",
            KeyFault::BadName => "a name of the key has a line feed or ends in a backslash",
            KeyFault::DuplicateTag => "two tags of the key have the same name",
            KeyFault::TooManyTags => "the key may have at most 32 tags",
            KeyFault::KeyTooLong => "the key may have at most 1,024 bytes",
            KeyFault::BadKey => "the text is not a series key",
            KeyFault::Memory => "out of memory",
        }
    }
}

impl fmt::Display for KeyFault {
    fn fmt<W: fmt::Write>(&self, f: &mut fmt::Formatter<W>) -> fmt::Result {
        f.write_str(self.sentence())
    }
}

impl From<AllocError> for KeyFault {
    ghost use Rattle.rr_key.specs.declared.fault.KeyFault.TheVariants.{Memory};

    ghost from_gives = { λ _ e. e ≡ Memory };

    fn from(_e: AllocError) -> KeyFault {
        KeyFault::Memory
    }
}

impl<T: Drop> From<AllocFailed<T>> for KeyFault {
    ghost use Rattle.rr_key.specs.declared.fault.KeyFault.TheVariants.{Memory};

    ghost from_gives = { λ _ e. e ≡ Memory };

    fn from(_e: AllocFailed<T>) -> KeyFault {
        KeyFault::Memory
    }
}
