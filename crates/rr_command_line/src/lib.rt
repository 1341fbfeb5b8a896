//! The program's command line, built with `clap`: its subcommands, their arguments and their help.
//!
//! ```text
//! rr
//! ├── sim [FILE]
//! ├── check-lines [--precision P] [--now T]
//! ├── serve CONFIG --origin N [--load FILE] [--save FILE]
//! ├── node CONFIG --data DIR [--load FILE]
//! └── journal WHAT DIR
//! ```
//!
//! [`program`] builds it. In `specs/` its rules are those by which `clap` reads words
//! (`Program.antt`); what words then ask for is said where they are read.
#![tactic(auto)]

mod subcommands;
mod version;

pub use subcommands::program;
pub use version::{PRODUCT, VERSION};
