//! What the records of one key begin with.

ghost use Rattle.std.specs.Prelude.{◌≡◌, ◌++◌, ◌∷◌, [], IfOk};
ghost use Rattle.rr_cells.specs.FetchText.{comma, field_text};

use csv::Writer;
use std::alloc::{AllocError, Global};

/// The beginning of each record with this first field: the field, as a writer of `csv` writes it,
/// and the comma that comes before a second one. The cost is linear in its bytes, and the writer has
/// a buffer of 8 KiB.
pub fn prefix_of(alloc: Global, first: &[u8]) -> Result<Vec<u8>, AllocError>
    ensures { IfOk result (λ prefix. prefix.items ≡ field_text first.now ++ comma ∷ []) }
{
    let mut writer = Writer::from_writer(Vec::new(alloc));
    let Ok(()) = writer.write_field(first) else {
        return Err(AllocError);
    };
    let Ok(()) = writer.write_field(b"") else {
        return Err(AllocError);
    };
    match writer.into_inner() {
        Ok(prefix) => Ok(prefix),
        Err(_) => Err(AllocError),
    }
}
