//! Tests of the public calls of libraries, of a node and of its desk.
//!
//! What a file of input and a file of output can show is a case of `rr_cases`. Here are tests of
//! what they can't: calls that take or return no text, streams that fail midway, limits whose input
//! would be a long file, what the connections of a node answer, and what a keeper and its readers
//! do, on one thread and on several. Each module has the tests of one library, or of one part of a
//! node. What stands on `rr_server` is tested in `rr_server_tests`.
//!
//! Each answer is compared, since a body that only returns `Memory` meets every contract. Only
//! tests can show that each seat has a thread of its own, that a reader which wasn't told sees what
//! was published before it asked, and that readers answer at the same time.
#![tactic(auto)]

#[cfg(test)]
mod tests;
