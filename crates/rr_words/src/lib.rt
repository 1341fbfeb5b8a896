//! The words of the program's command line, as `clap` reads them.
//!
//! ```text
//! none, sim [FILE]                                        Order::Sim
//! check-lines [--precision P] [--now T]                   Order::CheckLines
//! serve CONFIG --origin N [--load FILE] [--save FILE]     Order::Serve
//! node CONFIG --data DIR [--load FILE]                    Order::Node
//! journal check|cells DIR                                 Order::Journal
//! ```
//!
//! [`read_words`] turns words into an [`Order`], or a [`WordsFault`] with the text for whoever
//! wrote them. In `specs/` what words ask for (`Words.antt`) is a function of the words and of the
//! rules by which `clap` reads them ([`rr_command_line`]); [`laws`] says what it makes of words
//! written out.
#![tactic(auto)]

mod fault;
pub mod laws;
mod order;
mod values;
mod words;

pub use fault::WordsFault;
pub use order::{JournalWord, Order};
pub use words::{not_text, read_words};
