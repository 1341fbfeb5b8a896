//! A connection that brings a request, once.

use rr_base::Counted;
use rr_node::{Visit, Visits};
use std::alloc::Global;
use std::io;
use std::io::Read;

/// The request.
const REQUEST: &[u8] = b"fetch LAST 60 0 120 m v\n";

/// The request as it is read.
#[derive(Drop)]
pub(crate) struct Request {
    given: usize,
}

impl Read for Request {
    ghost use Rattle.std.specs.Prelude.{None};

    ghost remaining = { λ r. None };

    fn read(&mut self, buf: &mut [u8]) -> io::Result<usize> {
        let Some(mut rest) = REQUEST.get(self.given..) else {
            return Ok(0);
        };
        let given = rest.read(buf)?;
        self.given = self.given.saturating_add(given);
        Ok(given)
    }
}

/// Visits, the first of which is the request, and the answer to it. Nothing is known of their
/// calls.
#[derive(Drop)]
pub(crate) struct Asked {
    alloc: Global,
    is_over: bool,
    answer: Option<Vec<u8>>,
}

impl Asked {
    /// Visits whose request is still to come.
    pub(crate) fn new(alloc: Global) -> Asked {
        Asked {
            alloc,
            is_over: false,
            answer: None,
        }
    }

    /// The answer, once the connection is handed back.
    pub(crate) fn into_answer(self) -> Option<Vec<u8>> {
        self.answer
    }
}

impl Visits for Asked {
    ghost use Rattle.std.specs.Prelude.{[], ◌∷◌, None};
    ghost use Rattle.rr_host.specs.Streams.{stream_of};
    ghost use Rattle.rr_host.specs.Visits.{HasCalled, TookBack};

    type Input = Request;

    type Output = Vec<u8>;

    ghost calls = { λ a. None };

    fn next(&mut self) -> Visit<Request, Vec<u8>> {
        if self.is_over {
            return Visit::Over;
        }
        self.is_over = true;
        let request = Request { given: 0 };
        Visit::Stream(Counted::new(request), Counted::new(Vec::new(self.alloc)))
    }

    fn schema_differs(&mut self) {}

    fn take_back(&mut self, input: Counted<Request>, output: Counted<Vec<u8>>)
        ensures { HasCalled None None (TookBack (stream_of (λ _. None) (λ _. None) input output) ∷
            []) }
    {
        drop(input);
        self.answer = Some(output.into_inner());
    }
}
