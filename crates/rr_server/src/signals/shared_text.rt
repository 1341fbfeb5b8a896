//! Texts that one thread writes for others.

use std::alloc::{AllocError, Global};
use std::sync::{Arc, Mutex, Wait};

/// A text that one thread replaces and others read. Nothing is known of its calls.
#[derive(Drop)]
pub struct SharedText {
    alloc: Global,
    text: Arc<Mutex<Vec<u8>>>,
}

impl SharedText {
    /// An empty text.
    pub fn new(alloc: Global) -> Result<SharedText, AllocError> {
        Ok(SharedText {
            alloc,
            text: Arc::new(alloc, Mutex::new(Vec::new(alloc)))?,
        })
    }

    /// The same text, for one more owner.
    pub fn share(&self) -> Result<SharedText, AllocError> {
        Ok(SharedText {
            alloc: self.alloc,
            text: Arc::try_clone(&self.text)?,
        })
    }

    /// Replaces the text.
    pub fn put<R: Wait>(&self, rt: &R, text: Vec<u8>) {
        let shared: &Mutex<Vec<u8>> = &self.text;
        let mut held = shared.lock(rt);
        *held = text;
    }

    /// A copy of the text.
    pub fn read<R: Wait>(&self, rt: &R) -> Result<Vec<u8>, AllocError> {
        let shared: &Mutex<Vec<u8>> = &self.text;
        let held = shared.lock(rt);
        Vec::from_slice(self.alloc, held.as_slice())
    }
}
