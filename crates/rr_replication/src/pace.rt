//! How long to wait before a peer that can't be followed is called again.

ghost use Rattle.std.specs.Prelude.{◌≡◌};
ghost use Rattle.rr_replication.specs.Pace.{failed_at, lag_at, left_at};

/// The longest pause in seconds.
pub const LONGEST_PAUSE: u64 = 64;

const _: () = prove!(LONGEST_PAUSE == 64);

/// Where a node is in the store of a peer, by how many bytes it has read up to there.
#[derive(Clone, Copy, Debug, PartialEq, Eq)]
pub enum Reached {
    /// At an offset of the journal.
    Journal(u64),
    /// At an offset of a checkpoint's records, or before its beginning.
    Checkpoint(u64),
}

impl Reached {
    /// How many bytes of a journal that ends at `end` aren't read yet. While a checkpoint is read,
    /// all of them count, and at least one.
    pub fn lag(&self, end: u64) -> u64
        ensures { result ≡ lag_at self.now end }
    {
        match self {
            Reached::Journal(offset) => end.saturating_sub(*offset),
            Reached::Checkpoint(_) => end.max(1),
        }
    }
}

/// How long to wait before a peer that can't be followed is called again: 1 second, then 2, 4 and
/// so on. What is read again on the way to where following it failed doesn't shorten the pause;
/// what is read beyond that does.
#[derive(Clone, Copy, Debug, PartialEq, Eq)]
pub struct Pace {
    /// The farthest place in the journal at which following failed, and that isn't left behind.
    journal: Option<u64>,
    /// The same in a checkpoint.
    checkpoint: Option<u64>,
    /// The seconds of the next pause.
    pause: u64,
}

/// The farther of a place at which following failed before, and one at which it fails now.
fn failed_at(before: Option<u64>, offset: u64) -> Option<u64>
    ensures { result ≡ failed_at before offset }
{
    match before {
        Some(before) => Some(before.max(offset)),
        None => Some(offset),
    }
}

/// A place at which following failed, unless this one is beyond it.
fn left_at(failed: Option<u64>, offset: u64) -> Option<u64>
    ensures { result ≡ left_at failed offset }
{
    match failed {
        Some(failed) if offset <= failed => Some(failed),
        _ => None,
    }
}

impl Pace {
    ghost use Rattle.rr_replication.specs.Pace.{after_failure, after_reaching, steady};

    /// The pace for a peer that is followed.
    pub fn new() -> Pace
        ensures { result ≡ steady }
    {
        Pace {
            journal: None,
            checkpoint: None,
            pause: 1,
        }
    }

    /// Notes that following failed at a place, if it got anywhere, and returns how many seconds to
    /// wait. The next pause is twice as long, up to [`LONGEST_PAUSE`].
    pub fn fail(&mut self, place: Option<Reached>) -> u64
        ensures pause { result ≡ self.old.pause }
        ensures next { self.new ≡ after_failure self.old place }
    {
        match place {
            Some(Reached::Journal(offset)) => self.journal = failed_at(self.journal, offset),
            Some(Reached::Checkpoint(offset)) => {
                self.checkpoint = failed_at(self.checkpoint, offset);
            }
            None => {}
        }
        let pause = self.pause;
        self.pause = pause.saturating_mul(2).min(LONGEST_PAUSE);
        pause
    }

    /// Notes that a place was reached. The next pause is a second again once no place at which
    /// following failed is left to be passed.
    pub fn reach(&mut self, place: Reached)
        ensures { self.new ≡ after_reaching self.old place }
    {
        match place {
            Reached::Journal(offset) => self.journal = left_at(self.journal, offset),
            Reached::Checkpoint(offset) => self.checkpoint = left_at(self.checkpoint, offset),
        }
        if self.journal.is_none() && self.checkpoint.is_none() {
            self.pause = 1;
        }
    }
}
