//! The ring of rows of one archive.

use rr_archive::Entry;
use rr_ring::RingArchive;
use std::mem;
use std::test::Fail;

#[test]
fn a_ring_without_cells_is_small(rt: HostRuntime) -> Result<(), Fail> {
    assert_eq!(rt;
        (mem::size_of::<RingArchive>(), mem::size_of::<Entry>()),
        (56, 96)
    );
    Ok(())
}
