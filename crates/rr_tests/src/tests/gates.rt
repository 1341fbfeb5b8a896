//! A flag that one gate raises and another waits for.

use rr_desk::Gate;
use std::alloc::{AllocError, Global};
use std::sync::Arc;
use std::sync::atomic::{AtomicBool, Ordering};
use std::thread::sleep;
use std::time::Duration;

/// How often a flag is looked at, with a microsecond between two looks.
const LOOKS: u32 = 100_000;

/// A flag that stays raised.
#[derive(Drop)]
pub(crate) struct Signal {
    clock: HostRuntime,
    is_raised: Arc<AtomicBool>,
}

impl Signal {
    /// A flag that isn't raised.
    pub(crate) fn new(clock: &HostRuntime, alloc: Global) -> Result<Signal, AllocError> {
        Ok(Signal {
            clock: *clock,
            is_raised: Arc::new(alloc, AtomicBool::new(false))?,
        })
    }

    /// The same flag, for another owner.
    pub(crate) fn share(&self) -> Result<Signal, AllocError> {
        Ok(Signal {
            clock: self.clock,
            is_raised: Arc::try_clone(&self.is_raised)?,
        })
    }

    /// Raises it.
    fn raise(&self) {
        self.is_raised.store(true, Ordering::SeqCst);
    }

    /// Waits until it is raised, and returns whether it was in time.
    fn wait(&self) -> bool {
        for _ in 0..LOOKS {
            if self.is_raised.load(Ordering::SeqCst) {
                return true;
            }
            sleep(&self.clock, Duration::from_micros(1));
        }
        false
    }
}

/// A gate that keeps a reader in its copy until a flag is raised, and is shut if that isn't in
/// time.
#[derive(Drop)]
pub(crate) struct WaitsFor {
    pub(crate) signal: Signal,
}

impl Gate for WaitsFor {
    ghost use Rattle.std.specs.Prelude.{None};

    ghost calls = { λ _. None };

    fn before(&mut self) -> bool {
        self.signal.wait()
    }

    fn after(&mut self) {}
}

/// An open gate that raises a flag once an answer is made.
#[derive(Drop)]
pub(crate) struct Raises {
    pub(crate) signal: Signal,
}

impl Gate for Raises {
    ghost use Rattle.std.specs.Prelude.{None};

    ghost calls = { λ _. None };

    fn before(&mut self) -> bool {
        true
    }

    fn after(&mut self) {
        self.signal.raise();
    }
}

/// A gate that says that its reader is in its copy, keeps it there until another says the same, and
/// is shut if that isn't in time.
#[derive(Drop)]
pub(crate) struct Meets {
    pub(crate) own: Signal,
    pub(crate) other: Signal,
}

impl Gate for Meets {
    ghost use Rattle.std.specs.Prelude.{None};

    ghost calls = { λ _. None };

    fn before(&mut self) -> bool {
        self.own.raise();
        self.other.wait()
    }

    fn after(&mut self) {}
}
