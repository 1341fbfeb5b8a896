//! Flags that one thread raises for another.

use std::alloc::{AllocError, Global};
use std::sync::Arc;
use std::sync::atomic::{AtomicBool, Ordering};

/// A flag that one thread raises, and that is taken down by whoever then does what it asks for.
/// Nothing is known of its calls.
///
/// A [`Listening`](crate::Listening) raises one for a connection that brings nothing, which asks
/// for an early snapshot, and one for a peer of another schema, which the operator is to be told
/// of.
#[derive(Drop)]
pub struct Flag {
    is_raised: Arc<AtomicBool>,
}

impl Flag {
    /// A flag that isn't raised.
    pub fn new(alloc: Global) -> Result<Flag, AllocError> {
        Ok(Flag {
            is_raised: Arc::new(alloc, AtomicBool::new(false))?,
        })
    }

    /// The same flag, for one more owner.
    pub fn share(&self) -> Result<Flag, AllocError> {
        Ok(Flag {
            is_raised: Arc::try_clone(&self.is_raised)?,
        })
    }

    /// Raises it.
    pub fn raise(&self) {
        self.is_raised.store(true, Ordering::SeqCst);
    }

    /// Whether it is raised.
    pub fn is_raised(&self) -> bool {
        self.is_raised.load(Ordering::SeqCst)
    }

    /// Takes it down, and says whether it was raised.
    pub fn take(&self) -> bool {
        self.is_raised.swap(false, Ordering::SeqCst)
    }
}
