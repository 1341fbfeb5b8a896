//! Snapshots in a file.

use super::synced::{DiskCalls, NotedFiles};
use rr_node::{Opening, Shelf};
use rr_server::FileShelf;
use std::fs;
use std::io::Write;
use std::rt::Files;
use std::test::Fail;

/// Writes a text to a shelf's writer, and hands that back to the shelf as whole or not.
fn put_back(
    rt: &(impl AllocGlobal + Files + Eprint),
    file: &str,
    text: &[u8],
    whole: bool,
) -> Option<()> {
    let mut shelf = FileShelf::new(rt, rt.alloc(), Some(file)).ok()?;
    match shelf.open() {
        Opening::Writer(mut output) => {
            let written = output.write_all(text);
            shelf.take_back(output, whole);
            written.ok()
        }
        Opening::Unwanted | Opening::Failed => None,
    }
}

#[test]
fn a_cut_snapshot_leaves_the_last_one(rt: HostRuntime) -> Result<(), Fail> {
    let whole = put_back(&rt, "shelf.snapshot", b"whole", true);
    let cut = put_back(&rt, "shelf.snapshot", b"cu", false);
    let left = fs::read(&rt, "shelf.snapshot")?;
    let beside = fs::read(&rt, "shelf.snapshot.new").is_ok();
    fs::remove_file(&rt, "shelf.snapshot")?;
    assert!(rt; (whole, cut, beside) == (Some(()), Some(()), false));
    assert!(rt; left.as_slice() == b"whole".as_slice());
    Ok(())
}

#[test]
fn a_snapshot_is_on_the_disk_before_it_has_its_name(rt: HostRuntime) -> Result<(), Fail> {
    let calls = DiskCalls::new();
    let files = NotedFiles {
        host: &rt,
        calls: &calls,
    };
    let put = put_back(&files, "synced.snapshot", b"whole", true);
    fs::remove_file(&rt, "synced.snapshot")?;
    // The file, its name, and then the folder.
    assert!(rt; (put, calls.digits()) == (Some(()), 121));
    Ok(())
}
