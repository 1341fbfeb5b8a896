//! The folders of the cases, and their files of input.

use std::rt::Files;
use std::{fs, io};

/// How the name of a file of expected output ends.
pub(crate) const EXPECTED: &str = ".out";

/// The folder of all cases, if the program doesn't run in it.
const DATA: &str = "data";

/// The paths in a folder, in order, without the files of expected output.
fn paths_in<R: Files + AllocGlobal + Clone + Drop>(
    rt: &R,
    folder: &str,
) -> io::Result<Vec<String>> {
    let mut paths = Vec::new(rt.alloc());
    for entry in fs::read_dir(rt, folder)? {
        let entry = entry?;
        let name = entry.file_name();
        if !name.ends_with(EXPECTED) {
            paths.push(format!(in rt.alloc(); "{folder}/{name}")?)?;
        }
    }
    paths.sort()?;
    Ok(paths)
}

/// The folders that have cases.
pub(crate) fn folders<R: Files + AllocGlobal + Clone + Drop>(rt: &R) -> io::Result<Vec<String>> {
    let top = if fs::exists(rt, DATA)? { DATA } else { "." };
    paths_in(rt, top)
}

/// The files of input in a folder.
pub(crate) fn inputs<R: Files + AllocGlobal + Clone + Drop>(
    rt: &R,
    folder: &str,
) -> io::Result<Vec<String>> {
    paths_in(rt, folder)
}
