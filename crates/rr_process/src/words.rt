//! The words of a process.

use rr_words::{Order, WordsFault, not_text, read_words};
use std::env;
use std::env::Env;
use std::io::ErrorKind;

/// The order given by the process's own words.
pub fn read_order(rt: &(impl AllocGlobal + Env)) -> Result<Order, WordsFault> {
    let alloc = rt.alloc();
    let all = match env::args(rt) {
        Ok(all) => all,
        Err(error) => {
            return Err(match error.kind() {
                ErrorKind::OutOfMemory => WordsFault::Memory,
                _ => not_text(alloc),
            });
        }
    };
    let all: Vec<String> = all.collect(alloc)?;
    let words: Vec<&str> = all.iter().skip(1).map(|word| word.as_str()).collect(alloc)?;
    read_words(alloc, &words)
}
