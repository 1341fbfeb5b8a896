//! A case: a file of input and the file of its expected output.

use crate::files::EXPECTED;
use crate::growths;
use crate::kind::Kind;
use anyhow::{Context, Result};
use rr_archive::{Cells, PlainArchive};
use rr_packed::PackedArchive;
use rr_ring::RingArchive;
use std::rt::Files;
use std::sync::Wait;
use std::{fs, io};

/// Where two texts first differ: the number of the line, and what each has there.
fn difference<'a>(expected: &'a [u8], got: &'a [u8]) -> Option<(usize, &'a [u8], &'a [u8])> {
    let mut number = 0usize;
    let is_end = |byte: &u8| *byte == b'\n';
    for (wanted, found) in expected.split(is_end).zip(got.split(is_end)) {
        number = number.saturating_add(1);
        if wanted != found {
            return Some((number, wanted, found));
        }
    }
    None
}

/// Prints where a file's output over a kind of archive first differs from what is expected of it.
fn report(
    rt: &(impl AllocGlobal + Print),
    file: &str,
    archive: &str,
    expected: &[u8],
    got: &[u8],
) -> io::Result<()> {
    let Some((number, wanted, found)) = difference(expected, got) else {
        return println!(rt;
            "{file} over {archive}: expected {} bytes, got {}",
            expected.len(),
            got.len()
        );
    };
    let wanted = String::from_utf8_lossy(rt.alloc(), wanted)?;
    let found = String::from_utf8_lossy(rt.alloc(), found)?;
    let (wanted, found) = (wanted.as_str(), found.as_str());
    println!(rt; "{file} over {archive}: expected in line {number} '{wanted}', got '{found}'")
}

/// A case: what its input is, its bytes, and the output expected of them.
#[derive(Drop)]
pub(crate) struct Case {
    pub(crate) kind: Kind,
    input: Vec<u8>,
    pub(crate) expected: Vec<u8>,
}

/// The output expected of a file of input, which is named without its ending.
fn expected_of(rt: &(impl Files + AllocGlobal), stem: &str) -> Result<Vec<u8>> {
    let file = format!(in rt.alloc(); "{stem}{EXPECTED}")?;
    fs::read(rt, file.as_str()).context("no expected output")
}

/// The case of a file of input.
fn case_of(rt: &(impl Files + AllocGlobal), file: &str) -> Result<Case> {
    let (stem, ending) = file.rsplit_once('.').context("a file without an ending")?;
    let kind = Kind::of_ending(ending).context("a file with another ending")?;
    let input = fs::read(rt, file).context(file)?;
    let expected = expected_of(rt, stem)?;
    Ok(Case {
        kind,
        input,
        expected,
    })
}

/// The output of a case over a kind of archive, if it isn't the expected one. Counts the growths
/// that are refused.
fn unexpected<A: Cells, R: AllocGlobal + Wait>(
    rt: &R,
    case: &Case,
    refused: &mut u32,
) -> Result<Option<Vec<u8>>> {
    if let Some(text) = growths::text_of(&case.input) {
        return growths::unexpected::<A, R>(rt.alloc(), rt, case, text, refused);
    }
    let got = case.kind.output::<A, R>(rt.alloc(), rt, &case.input)?;
    Ok((got.as_slice() != case.expected.as_slice()).then_some(got))
}

/// Whether a case holds over a kind of archive; if it doesn't, the first difference is printed.
fn holds_over<A: Cells, R: AllocGlobal + Print + Wait>(
    rt: &R,
    case: &Case,
    file: &str,
    archive: &str,
    refused: &mut u32,
) -> Result<bool> {
    match unexpected::<A, R>(rt, case, refused)? {
        Some(got) => {
            report(rt, file, archive, &case.expected, &got)?;
            Ok(false)
        }
        None => Ok(true),
    }
}

/// Whether the case of a file of input holds over each kind of archive. Counts the growths that are
/// refused.
pub(crate) fn holds<R: Files + AllocGlobal + Print + Wait>(
    rt: &R,
    file: &str,
    refused: &mut u32,
) -> Result<bool> {
    let case = case_of(rt, file)?;
    Ok(
        holds_over::<RingArchive, R>(rt, &case, file, "rings", refused)?
            && holds_over::<PackedArchive, R>(rt, &case, file, "packed rows", refused)?
            && holds_over::<PlainArchive, R>(rt, &case, file, "ordered maps", refused)?,
    )
}
