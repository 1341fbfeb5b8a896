//! The order in which series come.

use rr_replica::Hint;
use std::alloc::Global;

/// For each series, the one that came after it last time: senders mostly keep to one order.
///
/// These are hints, on which no answer depends. A series for which memory is refused has no
/// successor.
#[derive(Drop)]
pub(crate) struct Order {
    after: Vec<Hint>,
    last: Hint,
}

impl Order {
    /// No series has come yet. Takes no memory.
    pub(crate) fn new(alloc: Global) -> Order {
        Order {
            after: Vec::new(alloc),
            last: Hint::none(),
        }
    }

    /// A hint at the series likely to come next.
    pub(crate) fn next(&self) -> Hint {
        self.next_after(self.last)
    }

    /// A hint at the series likely to come after this one.
    pub(crate) fn next_after(&self, hint: Hint) -> Hint {
        match self.after.get(hint.index()) {
            Some(hint) => *hint,
            None => Hint::none(),
        }
    }

    /// Notes the series that came.
    pub(crate) fn note(&mut self, hint: Hint) {
        self.make_place(self.last.index());
        if let Some(after) = self.after.get_mut(self.last.index()) {
            *after = hint;
        }
        self.last = hint;
    }

    /// Makes a place for what comes after the series with this index.
    fn make_place(&mut self, index: usize) {
        let Some(len) = index.checked_add(1) else {
            return;
        };
        for _ in self.after.len()..len {
            if self.after.push(Hint::none()).is_err() {
                return;
            }
        }
    }
}
