//! The flag that ends a node early.

use rr_host::Halt;
use std::alloc::{AllocError, Global};
use std::sync::Arc;
use std::sync::atomic::{AtomicBool, Ordering};

/// A flag that is raised when a node ends early. Every wait over TCP checks it at least once a
/// second: [`Listening`](crate::Listening) then gives no more connections, and a
/// [`Half`](crate::tcp::Half) fails. Nothing is known of its calls.
#[derive(Drop)]
pub struct HaltFlag {
    is_raised: Arc<AtomicBool>,
}

impl HaltFlag {
    /// A flag that isn't raised.
    pub fn new(alloc: Global) -> Result<HaltFlag, AllocError> {
        Ok(HaltFlag {
            is_raised: Arc::new(alloc, AtomicBool::new(false))?,
        })
    }

    /// The same flag, for one more owner.
    pub fn share(&self) -> Result<HaltFlag, AllocError> {
        Ok(HaltFlag {
            is_raised: Arc::try_clone(&self.is_raised)?,
        })
    }

    /// Raises it for all who share it.
    pub fn raise(&self) {
        self.is_raised.store(true, Ordering::SeqCst);
    }

    /// Whether it was raised.
    pub fn is_raised(&self) -> bool {
        self.is_raised.load(Ordering::SeqCst)
    }
}

impl Halt for HaltFlag {
    ghost use Rattle.std.specs.Prelude.{None};

    ghost calls = { λ _. None };

    fn halt(&mut self) {
        self.raise();
    }
}
