//! Bodies that are refused whole.

ghost use Rattle.std.specs.Prelude.{◌≡◌, ◌+◌, ◌-◌, ◌^◌, IfOk, map, min};
ghost use Rattle.rr_web.specs.Bodies.{counted, none};
ghost use Rattle.rr_web.specs.Family.{sample_view};
ghost use Rattle.rr_web.specs.NodeMetrics.{body_samples};

use crate::family::Sample;
use crate::reply::{Reply, Status};
use crate::samples::fault_sample;
use std::alloc::{AllocError, Global};

/// The bodies that were refused whole, none of their lines being read, by why. Counts saturate.
#[derive(Clone, Copy, Debug, PartialEq, Eq)]
pub struct RefusedBodies {
    /// Those with a content coding.
    pub coding: u64,
    /// Those of another precision than the node's.
    pub precision: u64,
    /// Those that came while no origin could be taken.
    pub origin: u64,
}

impl RefusedBodies {
    /// No body.
    pub fn new() -> RefusedBodies
        ensures { result ≡ none }
    {
        RefusedBodies {
            coding: 0,
            precision: 0,
            origin: 0,
        }
    }

    /// Counts the body of a write that got this reply before any line of it was read. One to a path
    /// or by a method that takes no lines isn't counted.
    pub fn count(&mut self, reply: &Reply)
        ensures { self.new ≡ counted reply.now.status self.old }
    {
        match reply.status {
            Status::UnknownCoding => self.coding = self.coding.saturating_add(1),
            Status::BadRequest => self.precision = self.precision.saturating_add(1),
            Status::Busy => self.origin = self.origin.saturating_add(1),
            _ => {}
        }
    }
}

/// A sample for each fault.
pub(crate) fn body_samples(alloc: Global, bodies: RefusedBodies) -> Result<Vec<Sample>, AllocError>
    ensures { IfOk result (λ samples. map sample_view samples.items ≡ body_samples bodies) }
{
    let mut samples = Vec::new(alloc);
    samples.push(fault_sample(alloc, b"ContentCoding", bodies.coding)?)?;
    samples.push(fault_sample(alloc, b"OtherPrecision", bodies.precision)?)?;
    samples.push(fault_sample(alloc, b"NoOrigin", bodies.origin)?)?;
    Ok(samples)
}
