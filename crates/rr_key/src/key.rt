//! A series key, ordered by the bytes of its text.

ghost use Rattle.std.specs.Prelude.{◌≡◌, ◌==◌, ◌↔◌, ◌⊎◌, Err, None, Some, IfOk, IfErr, OnOk};
ghost use Rattle.std.proofs.Common.{rules};
ghost use Rattle.std.specs.Cmp.{partial_order_from_own_ties};
ghost use Rattle.std.specs.Cmp.Rules.{comparing};
ghost use Rattle.std.specs.Cmp.Lexicographic.{slice_cmp, pointwise};
ghost use Rattle.std.specs.Ordering.{nat_cmp, as_partial_cmp};

use crate::fault::KeyFault;
use crate::key_text::is_key_text;
use crate::making::make_text;
use std::alloc::{AllocError, Global};
use std::cmp::Ordering;
use std::marker::Model;
use std::sync::ArcSlice;

/// The key of a series: its text, which has only one spelling.
///
/// Keys are equal if their texts are, and are ordered by the bytes of their texts; both take one
/// pass over the bytes. The text is shared by the copies of a key, which may be in several threads.
#[derive(Debug, Drop)]
pub struct SeriesKey {
    alloc: Global,
    text: Text,
}

/// Where the text of a key is.
#[derive(Debug, Drop)]
enum Text {
    /// In a vector of the key's own, which can be reused for the next key.
    Own(Vec<u8>),
    /// Shared with the copies of the key.
    Shared(ArcSlice<u8>),
}

impl Model for SeriesKey {
    ghost use Rattle.std.specs.Prelude.{List, ℕ};
    ghost use Rattle.rr_key.specs.Series.{IsKeyText};
    ghost use Rattle.rr_key.specs.Text.{bytes_of};

    ghost Value = { List ℕ };

    ghost view = { λ k. bytes_of k.text };

    ghost invariant = { λ k. IsKeyText (bytes_of k.text) };
}

impl PartialEq for SeriesKey {
    ghost eq = { pointwise ◌==◌ };

    ghost laws = { Prim.search (comparing, rules) };

    fn eq(&self, other: &SeriesKey) -> bool {
        self.text() == other.text()
    }
}

impl Eq for SeriesKey {
    ghost laws = { Prim.search (comparing, rules) };
}

impl Ord for SeriesKey {
    ghost cmp = { slice_cmp nat_cmp };

    ghost total = { Prim.search (comparing, rules) };

    ghost matches_partial_cmp = { Prim.search (comparing, rules) };

    ghost matches_eq = { Prim.search (comparing, rules) };

    fn cmp(&self, other: &SeriesKey) -> Ordering {
        self.text().cmp(other.text())
    }
}

impl PartialOrd for SeriesKey {
    ghost partial_cmp = { as_partial_cmp (slice_cmp nat_cmp) };

    ghost laws = { partial_order_from_own_ties (Prim.search (comparing, rules)) (Prim.search (comparing, rules)) };

    fn partial_cmp(&self, other: &SeriesKey) -> Option<Ordering> {
        Some(self.cmp(other))
    }
}

impl SeriesKey {
    ghost use Rattle.rr_text.specs.Results.{GivesUnless};
    ghost use Rattle.rr_key.specs.Series.{IsKeyText};
    ghost use Rattle.rr_key.specs.Making.{names_of, making_fault, key_of};

    /// The key of a measurement, tags in any order and a field, all unescaped.
    ///
    /// Refusals, in this order: `EmptyName`; `BadName`, a name that has a line feed or ends in a
    /// backslash; `DuplicateTag`; `TooManyTags`, more than [`MAX_TAGS`](crate::MAX_TAGS);
    /// `KeyTooLong`, a text of more than [`MAX_KEY_TEXT`](rr_text::limits::MAX_KEY_TEXT) bytes.
    /// `Memory` is returned if memory runs out for the text, so never in place of a refusal. The
    /// cost is that of sorting the tags, measuring the text and writing it; more tags than a key
    /// may have are compared pair by pair.
    pub fn new(
        alloc: Global,
        measurement: &[u8],
        tags: &[(&[u8], &[u8])],
        field: &[u8],
    ) -> Result<SeriesKey, KeyFault>
        ensures made { GivesUnless KeyFault.Memory (λ key. key) result
            (key_of (names_of measurement.now tags.now field.now)) }
        ensures memory { result ≡ Err KeyFault.Memory
            → making_fault (names_of measurement.now tags.now field.now) ≡ None }
        ensures grammar { IfOk result IsKeyText }
    {
        let text = make_text(alloc, measurement, tags, field)?;
        let key = SeriesKey::of_text(alloc, &text)?;
        Ok(key)
    }

    /// The key whose text is these bytes. Other bytes are refused as `BadKey`, before any memory is
    /// taken.
    ///
    /// The cost is one pass over the bytes and a copy of them.
    pub fn parse_text(alloc: Global, bytes: &[u8]) -> Result<SeriesKey, KeyFault>
        ensures found { IfOk result (λ key. key ≡ bytes.now) }
        ensures grammar { OnOk result (IsKeyText bytes.now) }
        ensures refused { (result ≡ Err KeyFault.BadKey) ↔ (¬ IsKeyText bytes.now) }
        ensures faults { IfErr result (λ fault. (fault ≡ KeyFault.BadKey) ⊎ (fault
            ≡ KeyFault.Memory)) }
    {
        if !is_key_text(bytes) {
            return Err(KeyFault::BadKey);
        }
        let key = SeriesKey::of_text(alloc, bytes)?;
        Ok(key)
    }

    /// The key of a text that is known to be a key text, and so isn't read again.
    ///
    /// The cost is a copy of the bytes.
    pub fn of_text(alloc: Global, text: &[u8]) -> Result<SeriesKey, AllocError>
        requires { IsKeyText text.now }
        ensures { IfOk result (λ key. key ≡ text.now) }
    {
        let text = Text::Shared(ArcSlice::from_slice(alloc, text)?);
        Ok(SeriesKey { alloc, text })
    }

    /// The key of a text that is known to be a key text, in the vector that has it. No byte is
    /// copied, and [`into_vec`](SeriesKey::into_vec) returns the vector.
    pub fn from_vec(alloc: Global, text: Vec<u8>) -> SeriesKey
        requires { IsKeyText text.items }
        ensures { result ≡ text.items }
    {
        SeriesKey {
            alloc,
            text: Text::Own(text),
        }
    }

    /// The vector that the key was made from, to be reused for another; an empty one for any other
    /// key.
    pub fn into_vec(self) -> Vec<u8> {
        match self.text {
            Text::Own(text) => text,
            Text::Shared(_) => Vec::new(self.alloc),
        }
    }

    /// The key text.
    pub fn text(&self) -> &[u8]
        ensures value { result.now ≡ self.now }
        ensures grammar { IsKeyText result.now }
    {
        match &self.text {
            Text::Own(text) => text.as_slice(),
            Text::Shared(text) => text.as_slice(),
        }
    }

    /// Another owner of the same text: no byte is copied and no memory is taken. If this key has
    /// its text in a vector of its own, that is copied; copies of the copy share it.
    pub fn copy(&self) -> Result<SeriesKey, AllocError>
        ensures { IfOk result (λ key. key ≡ self.now) }
    {
        match &self.text {
            Text::Own(text) => SeriesKey::of_text(self.alloc, text),
            Text::Shared(text) => Ok(SeriesKey {
                alloc: self.alloc,
                text: Text::Shared(text.clone()?),
            }),
        }
    }
}
