//! Seats over TCP.

use crate::signals::HaltFlag;
use crate::tcp::Listening;
use rr_node::{OpenGate, Seat, Seats, serve_seat};
use rr_packed::PackedArchive;
use std::alloc::Global;
use std::thread::{Threads, for_each_mut};

/// The seats of a node over TCP.
#[derive(Drop)]
pub struct TcpSeats {
    /// Each is a reader with the address it answers on.
    pub seats: Vec<Seat<PackedArchive, Listening, OpenGate>>,
    /// The flag that their connections and the keeper's watch. It is raised when a seat runs out of
    /// memory. Once it is raised, by whatever thread, memory didn't suffice.
    pub halt: HaltFlag,
}

impl Seats for TcpSeats {
    ghost use Rattle.std.specs.Prelude.{None};

    ghost calls = { λ _. None };

    fn serve<T: Threads + Sync>(&mut self, rt: &T, alloc: Global, visits: u64) -> bool {
        if self.seats.is_empty() {
            return true;
        }
        let halt = &self.halt;
        let threads = self.seats.len();
        for_each_mut(
            rt,
            self.seats.as_mut_slice(),
            threads,
            &|_, seat: &mut Seat<PackedArchive, Listening, OpenGate>| {
                if serve_seat(alloc, seat, visits).is_err() {
                    halt.raise();
                }
            },
        );
        !self.halt.is_raised()
    }
}
