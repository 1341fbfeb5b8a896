//! The cases of the store: files of input, each with a file of the output expected of it.
//!
//! The program runs in the folder `data/` or in the folder above it. It goes through the folders
//! there, runs each file through the public calls of the libraries, and compares what they answer
//! with the file of the same name that ends in `.out`. The ending of a file says what it is
//! ([`kind::Kind`]). The program prints where the two first differ, and at the end how many cases
//! there are, so that files that aren't found are noticed, and how many growths of their calls were
//! refused ([`growths`]). It ends with status 1 if a case differs.
#![tactic(auto)]

mod archives;
mod case;
mod cells;
mod changes;
mod configs;
mod desks;
mod documents;
mod faults;
mod files;
mod growths;
mod journals;
mod keys;
mod kind;
mod lines;
mod node_configs;
mod operations;
mod pages;
mod printed;
mod repeats;
mod replicas;
mod scripts;
mod series;
mod sessions;
mod settings;
mod sides;
mod stored;
mod words;

use anyhow::Result;
use std::process::ExitCode;

fn main(rt: HostRuntime) -> Result<ExitCode> {
    let mut count = 0usize;
    let mut wrong = 0usize;
    let mut refused = 0u32;
    for folder in &files::folders(&rt)? {
        for input in &files::inputs(&rt, folder)? {
            count = count.saturating_add(1);
            if !case::holds(&rt, input, &mut refused)? {
                wrong = wrong.saturating_add(1);
            }
        }
    }
    println!(rt; "{count} cases, {refused} growths refused")?;
    Ok(ExitCode::from(u8::from(wrong != 0)))
}
