//! The memory promised for answers, before they are made.

ghost use Rattle.std.specs.Prelude.{◌≡◌, ◌+◌, ◌-◌, ◌≤◌, None};
ghost use Rattle.rr_reactor.specs.Limits.{promise};
ghost use Rattle.rr_reactor.specs.Promises.{all_of, promised_by};

use crate::limits::Limits;

/// What is held for connections, and what is promised for answers to them, in bytes.
#[derive(Clone, Copy, Debug, PartialEq, Eq)]
pub struct Promises {
    /// What the reactor held when it last said so.
    pub held: usize,
    /// What is promised for answers that are being made, or that it hadn't taken then.
    pub promised: usize,
    /// The most for which there was no room since then, if that was so.
    pub lacked: Option<usize>,
}

impl Promises {
    /// Nothing is held or promised.
    pub fn new() -> Promises
        ensures { result ≡ record { held = 0; promised = 0; lacked = None } }
    {
        Promises {
            held: 0,
            promised: 0,
            lacked: None,
        }
    }

    /// What is held and promised.
    pub fn all(&self) -> usize
        ensures { result ≡ all_of self.now }
    {
        self.held.saturating_add(self.promised)
    }

    /// Promises memory for an answer that takes at most `size` bytes while it is made, and returns
    /// how many are promised, as [`Limits::promise`] says: with what is held, never more than the
    /// limit.
    pub fn promise(&mut self, limits: &Limits, size: usize) -> Option<usize>
        ensures value { result ≡ promise limits.now (all_of self.old) size }
        ensures noted { self.new ≡ promised_by self.old size result }
        ensures bounded { limits.now.held ≤ usize.MAX
            → self.old.held + self.old.promised ≤ limits.now.held
            → self.new.held + self.new.promised ≤ limits.now.held }
    {
        let promised = limits.promise(self.all(), size);
        match promised {
            Some(bytes) => self.promised = self.promised.saturating_add(bytes),
            None => self.lacked = Some(self.lacked.unwrap_or(0).max(size)),
        }
        promised
    }

    /// Notes that the reactor holds `held` bytes now, and has taken the answers for which `taken`
    /// were promised. Returns the most for which there was no room since it last did.
    pub fn settle(&mut self, held: usize, taken: usize) -> Option<usize>
        ensures lacked { result ≡ self.old.lacked }
        ensures noted { self.new ≡ record {
          held = held;
          promised = self.old.promised - taken;
          lacked = None;
        } }
    {
        self.held = held;
        self.promised = self.promised.saturating_sub(taken);
        self.lacked.take()
    }
}
