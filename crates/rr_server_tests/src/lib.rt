//! Tests of the whole program, and of what a node's process does: its files, its threads and what
//! it serves over TCP.
//!
//! A test of the program hands it a process of its own, whose words, input, ports and time are
//! given, and whose files and threads are the host's. The libraries below it are tested in
//! `rr_tests`.
#![tactic(auto)]

#[cfg(test)]
mod tests;
