//! What a refused query is told.

ghost use Rattle.std.specs.Prelude.{◌≡◌, IfOk};
ghost use Rattle.rr_web.specs.Faults.{fault_in, lacks, lacks_second, missing_in, text_of};

use crate::query::parameter;
use rr_fetch::RequestFault;
use std::alloc::{AllocError, Global};

/// Whether a query lacks a parameter.
fn lacks(alloc: Global, query: &[u8], name: &[u8]) -> Result<bool, AllocError>
    ensures { IfOk result (λ is_missing. is_missing ≡ lacks query.now name.now) }
{
    Ok(parameter(alloc, query, name)?.is_none())
}

/// Whether a query lacks a second of its range, which `last` stands for too.
fn lacks_second(alloc: Global, query: &[u8], name: &[u8]) -> Result<bool, AllocError>
    ensures { IfOk result (λ is_missing. is_missing ≡ lacks_second query.now name.now) }
{
    if lacks(alloc, query, b"last")? {
        return lacks(alloc, query, name);
    }
    Ok(false)
}

/// The first parameter that a fetch needs and a query lacks, where it lacks one. With `last` it
/// needs neither `start` nor `end`.
fn missing_in(alloc: Global, query: &[u8]) -> Result<&'static str, AllocError>
    ensures { IfOk result (λ fault. fault.now ≡ missing_in query.now) }
{
    if lacks(alloc, query, b"cf")? {
        return Ok("BadCommand: no parameter cf");
    }
    if lacks(alloc, query, b"resolution")? {
        return Ok("BadCommand: no parameter resolution");
    }
    if lacks_second(alloc, query, b"start")? {
        return Ok("BadCommand: no parameter start");
    }
    if lacks_second(alloc, query, b"end")? {
        return Ok("BadCommand: no parameter end");
    }
    Ok("BadCommand: no parameter key")
}

/// The name of a fault of the parameters of a fetch, and what helps.
fn text_of(fault: RequestFault) -> &'static str
    ensures { result.now ≡ text_of fault }
{
    match fault {
        RequestFault::BadCommand => "BadCommand",
        RequestFault::BadCf => "BadCf: cf must be AVERAGE, MIN, MAX or LAST",
        RequestFault::BadNumber =>
            "BadNumber: resolution, start, end and last must be numbers in their ranges",
        RequestFault::BadKey => "BadKey: key must be a key text, its tags in order",
        RequestFault::EmptyRange => "EmptyRange: start must be before end",
        RequestFault::TooManyRows => "TooManyRows: the range has more than 100,000 rows",
        RequestFault::Memory => "Memory",
    }
}

/// The name of why the fetch that a query asks for is refused, and what helps.
pub(crate) fn fault_in(
    alloc: Global,
    query: &[u8],
    fault: RequestFault,
) -> Result<&'static str, AllocError>
    ensures { IfOk result (λ text. text.now ≡ fault_in query.now fault) }
{
    match fault {
        RequestFault::BadCommand => missing_in(alloc, query),
        other => Ok(text_of(other)),
    }
}
