//! What the program says about the files of a directory.
use super::process::{Given, Process};
use rr_fakes::journals::{HEADER, HEADER_101, RECORDS, file};
use rr_process::Ending;
use rr_server::run;
use std::alloc::Global;
use std::fs;
use std::sync::Wait;
use std::test::Fail;

/// What is said about the two files of the journal.
const CHECKED: &str = "journal-00000000000000000000.rrj records 2 cells 6 end
journal-00000000000000000101.rrj records 1 cells 0 torn 20
joined
";

/// The cells of the first file, as a decoder in another language reads them.
const CELLS: &str = "\
cpu value,0,0,1,10,1,100,100,100,0,100,00000000000000000000000000000001
cpu value,0,0,7,500,1,-5,-5,-5,1,-5,00000000000000000000000000000001
cpu value,0,1,1,11,1,101,101,101,60000000000,101,00000000000000000000000000000001
cpu value,0,1,7,503,1,-5,-5,-5,60000000001,-5,00000000000000000000000000000001
cpu value,0,2,1,12,1,102,102,102,120000000000,102,00000000000000000000000000000001
cpu value,0,2,7,506,1,-5,-5,-5,120000000001,-5,00000000000000000000000000000001
";

/// Without the first file.
const MISSING: &str = "journal-00000000000000000101.rrj records 1 cells 0 torn 20
refused journal-00000000000000000101.rrj FileMissing
";

/// Words for a process.
fn given(words: &[u8]) -> Given<'_> {
    Given {
        words,
        input: b"",
        ports: &[],
        moment: None,
    }
}

/// Whether a process printed this, and ended with this status.
fn is_told<R: Wait + Alloc<A = Global>>(
    process: Process<'_, R>,
    ending: &Ending,
    printed: &str,
    status: u8,
) -> bool {
    let (text, _) = process.into_texts();
    text.as_slice() == printed.as_bytes() && ending.status() == status
}

#[test]
fn a_directory_is_read_for_an_operator(rt: HostRuntime) -> Result<(), Fail> {
    let alloc = rt.alloc();
    let first = file(alloc, &HEADER, &RECORDS[..101]).unwrap_or(Vec::new(alloc));
    let second = file(alloc, &HEADER_101, &RECORDS[101..166]).unwrap_or(Vec::new(alloc));
    fs::create_dir(&rt, "data")?;
    fs::write(&rt, "data/lock", b"")?;
    fs::write(&rt, "data/journal-00000000000000000000.rrj", &first)?;
    fs::write(&rt, "data/journal-00000000000000000101.rrj", &second)?;
    let process = Process::new(&rt, given(b"rr journal check data"));
    let ending = run(&process);
    assert!(rt; is_told(process, &ending, CHECKED, 0));
    let process = Process::new(&rt, given(b"rr journal cells data"));
    let ending = run(&process);
    assert!(rt; is_told(process, &ending, CELLS, 0));
    fs::remove_file(&rt, "data/journal-00000000000000000000.rrj")?;
    let process = Process::new(&rt, given(b"rr journal check data"));
    let ending = run(&process);
    assert!(rt; is_told(process, &ending, MISSING, 1));
    Ok(())
}
