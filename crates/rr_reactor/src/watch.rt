//! How long connections may take.

ghost use Rattle.std.specs.Prelude.{◌≡◌};
ghost use Rattle.rr_reactor.specs.Watch.{IsFirstToGo, allowed, candidate, is_late, noted};

use crate::limits::Limits;

/// What a connection waits for.
#[derive(Clone, Copy, Debug, PartialEq, Eq)]
pub enum Stage {
    /// A new request, or more bytes of lines.
    Idle,
    /// The rest of a request's head.
    Head,
    /// The rest of a request's body.
    Upload,
    /// The answer to its item, which is up to this side.
    Answer,
    /// The client, to take what is to be sent.
    Download,
    /// The client, to end after its request was refused.
    Refused,
}

/// What a connection waits for, and since when.
#[derive(Clone, Copy, Debug, PartialEq, Eq)]
pub struct Watch {
    /// What it waits for.
    pub stage: Stage,
    /// Since when it has waited, in milliseconds.
    pub since: u64,
}

/// A connection that may be let go for a new one, and what it waits for.
#[derive(Clone, Copy, Debug, PartialEq, Eq)]
pub struct Candidate {
    /// Its key.
    pub key: usize,
    /// Whether it is silent: nothing of a request was received.
    pub is_idle: bool,
    /// Since when it has waited, in milliseconds.
    pub since: u64,
}

/// Unless idle, a connection that waits for a client's bytes is let go for a new one only after
/// this many milliseconds.
const GRACE: u64 = 1_000;

const _: () = prove!(GRACE == 1_000);

impl Stage {
    /// How long a connection may wait at this stage; none if that is up to this side.
    fn allowed(self, limits: &Limits) -> Option<u64>
        ensures { result ≡ allowed limits.now self }
    {
        match self {
            Stage::Idle => Some(limits.idle),
            Stage::Head | Stage::Refused => Some(limits.head),
            Stage::Upload => Some(limits.upload),
            Stage::Download => Some(limits.download),
            Stage::Answer => None,
        }
    }
}

impl Watch {
    /// The watch of a new connection.
    pub fn new(now: u64) -> Watch
        ensures { result ≡ record { stage = Stage.Idle; since = now } }
    {
        Watch {
            stage: Stage::Idle,
            since: now,
        }
    }

    /// The watch of a connection that is now at `stage`; `has_moved` says whether bytes came or
    /// went since the last call. Bytes give more time only to an idle connection.
    pub fn note(self, stage: Stage, has_moved: bool, now: u64) -> Watch
        ensures { result ≡ noted self stage has_moved now }
    {
        if stage == self.stage && !(has_moved && stage == Stage::Idle) {
            self
        } else {
            Watch { stage, since: now }
        }
    }

    /// Whether the time is up.
    pub fn is_late(self, limits: &Limits, now: u64) -> bool
        ensures { result ≡ is_late limits.now self now }
    {
        match self.stage.allowed(limits) {
            Some(allowed) => now.saturating_sub(self.since) >= allowed,
            None => false,
        }
    }

    /// Whether the connection with this key may be let go for a new one, and how soon: not while it
    /// is answered, nor in the first second of a request.
    pub fn candidate(self, key: usize, now: u64) -> Option<Candidate>
        ensures { result ≡ candidate self key now }
    {
        let is_idle = self.stage == Stage::Idle;
        let waits = matches!(self.stage, Stage::Head | Stage::Upload | Stage::Refused);
        if is_idle || (waits && now.saturating_sub(self.since) >= GRACE) {
            Some(Candidate {
                key,
                is_idle,
                since: self.since,
            })
        } else {
            None
        }
    }
}

/// Which of two connections is let go first: one that is idle, and of equals the one that has
/// waited longer.
pub(crate) fn first_to_go(first: Option<Candidate>, second: Option<Candidate>) -> Option<Candidate>
    ensures { IsFirstToGo first second result }
{
    match (first, second) {
        (Some(a), Some(b)) if b.is_idle && !a.is_idle => Some(b),
        (Some(a), Some(b)) if b.is_idle == a.is_idle && b.since < a.since => Some(b),
        (Some(a), _) => Some(a),
        (None, second) => second,
    }
}
