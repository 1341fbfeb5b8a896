//! What is made of a request that reads.

use rr_command_line::PRODUCT;
use rr_reactor::{Outcome, no_room_reply};
use rr_web::{Reply, response_of};
use std::alloc::{AllocError, Global};

/// What is made of an item, and how many bytes were promised for it.
#[derive(Drop)]
pub(crate) struct Made {
    pub(crate) outcome: Outcome,
    pub(crate) promised: usize,
}

impl Made {
    /// Nothing: the connection is closed.
    pub(crate) fn nothing() -> Made {
        Made {
            outcome: Outcome::Nothing,
            promised: 0,
        }
    }

    /// A reply. Without memory for it, the connection is closed.
    pub(crate) fn of_reply(
        alloc: Global,
        reply: Result<Reply, AllocError>,
        promised: usize,
    ) -> Made {
        let outcome = match reply {
            Ok(reply) => match response_of(alloc, reply, PRODUCT) {
                Ok(response) => Outcome::Reply(response),
                Err(_) => Outcome::Nothing,
            },
            Err(_) => Outcome::Nothing,
        };
        Made { outcome, promised }
    }

    /// That there is no room: 503.
    pub(crate) fn refused(alloc: Global) -> Made {
        match no_room_reply(alloc) {
            Ok(reply) => Made {
                outcome: Outcome::Reply(reply),
                promised: 0,
            },
            Err(_) => Made::nothing(),
        }
    }
}
