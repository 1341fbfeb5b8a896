//! Where a file begins, and whether it joins the one before it.
ghost use Rattle.std.specs.Prelude.{◌≡◌, IfSome};
ghost use Rattle.std.specs.Result.{result_err};
ghost use Rattle.rr_io.specs.Counted.{inner_of};
ghost use Rattle.rr_directory.specs.Fault.{of_header};
ghost use Rattle.rr_directory.specs.Opening.{Opens};
ghost use Rattle.rr_directory.specs.Reading.{bytes_before, due_place, join_fault, named_place};

use crate::fault::FileFault;
use crate::name::FileName;
use rr_io::Counted;
use rr_journal::{Cursor, JournalFault, header_from, header_len};
use rr_schema::Schema;
use std::alloc::Global;
use std::io::Read;

/// The fault of a header.
pub(crate) fn header_fault(fault: JournalFault) -> FileFault
    ensures { result ≡ of_header fault }
{
    match fault {
        JournalFault::ReadFailed => FileFault::ReadFailed,
        JournalFault::Memory => FileFault::Memory,
        fault => FileFault::BadHeader(fault),
    }
}

/// The place at which a file begins, by its header and its name.
fn named_place(name: FileName, begins: Result<Cursor, JournalFault>) -> Result<Cursor, FileFault>
    ensures { result ≡ named_place name begins }
{
    match begins {
        Ok(begins) if begins.offset != name.offset() => Err(FileFault::Misnamed),
        Ok(begins) => Ok(begins),
        Err(fault) => Err(header_fault(fault)),
    }
}

/// Reads the header of a file, and returns the place at which the file begins.
pub(crate) fn place_from<R: Read>(
    alloc: Global,
    input: &mut Counted<R>,
    schema: &Schema,
    name: FileName,
) -> Result<Cursor, FileFault>
    ensures { IfSome (R.remaining (inner_of input.old)) (λ bytes.
        Opens schema.now name bytes (R.remaining (inner_of input.new)) result) }
{
    let begins = header_from(alloc, input, schema);
    named_place(name, begins)
}

/// Where the journal's next file must begin, if the journal was read up to `reached`.
pub(crate) fn due_place(reached: Option<Cursor>, begins: &Cursor) -> Cursor
    ensures { result ≡ due_place reached begins.now }
{
    match reached {
        Some(place) => place,
        None => Cursor::start(begins.id),
    }
}

/// Whether a file of the journal begins where it is due.
pub(crate) fn check_join(due: &Cursor, begins: &Cursor) -> Result<(), FileFault>
    ensures { result_err result ≡ join_fault due.now begins.now }
{
    if begins.id != due.id {
        return Err(FileFault::OtherJournal);
    }
    if due.offset < begins.offset {
        return Err(FileFault::FileMissing(due.offset));
    }
    if begins.offset < due.offset || begins.digest != due.digest {
        return Err(FileFault::NotChained);
    }
    Ok(())
}

/// How many bytes of a file that begins at one place come before another.
pub(crate) fn bytes_before(schema: &Schema, begins: &Cursor, place: &Cursor) -> u64
    ensures { result ≡ bytes_before schema.now begins.now place.now }
{
    let records = place.offset.saturating_sub(begins.offset);
    (header_len(schema) as u64).saturating_add(records)
}
