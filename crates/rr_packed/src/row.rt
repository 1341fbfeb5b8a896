//! The entries of a row, however it is held.
ghost use Rattle.std.specs.Prelude.{◌≡◌};
ghost use Rattle.rr_packed.specs.LoneSamples.{entries_of};

use rr_archive::Entry;
use std::slice;

/// The entries of a row: lent, or the one made from its sample.
#[derive(Clone, Copy)]
pub(crate) enum Row<'a> {
    Lent(&'a [Entry]),
    Made(Entry),
}

impl<'a> Row<'a> {
    pub(crate) fn as_slice(&self) -> &[Entry]
        ensures { result.now ≡ entries_of self.now }
    {
        match self {
            Row::Lent(entries) => entries,
            Row::Made(entry) => slice::from_ref(entry),
        }
    }
}
