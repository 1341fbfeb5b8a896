//! The order in which connections that wait for memory advance.

ghost use Rattle.std.specs.Prelude.{◌≡◌};
ghost use Rattle.std.specs.List.Sorted.{IsPermutation};
ghost use Rattle.rr_reactor.specs.Order.{IsInOrder};

/// A connection that waits for memory: its client's bytes could be read.
#[derive(Clone, Copy, Debug, PartialEq, Eq)]
pub struct Waiter {
    /// Its key.
    pub key: usize,
    /// How many bytes its request needs in all.
    pub needs: usize,
    /// Since when it has waited for its client's bytes, in milliseconds.
    pub since: u64,
}

/// Where a connection stands among those that wait for memory.
#[derive(Clone, Copy, Debug, PartialEq, Eq)]
pub enum Rank {
    /// It is the first of them.
    First,
    /// It isn't, and each of them needs at least this many bytes.
    Behind(usize),
}

/// Sorts those that wait: the one that needs least first, and of equals the one that has waited
/// longest.
pub(crate) fn put_in_order(waiters: &mut [Waiter])
    ensures same { IsPermutation waiters.old waiters.new }
    ensures order { IsInOrder waiters.new }
{
    waiters.sort_unstable_by_key(|waiter| (waiter.needs, waiter.since));
}
