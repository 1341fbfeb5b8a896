//! The records of a report, as a writer of `csv` makes them. Over memory, a write fails only if
//! memory runs out.

ghost use Rattle.std.specs.Prelude.{◌≡◌, ◌++◌, ◌∷◌, [], map, IfOk, OnOk};
ghost use Rattle.rr_fetch.specs.Records.{record_text, IsPlain};
ghost use Rattle.rr_text.specs.Refusal.{refusal_text};
ghost use Rattle.rr_process.specs.Writing.{written, IsBetween};

use csv::{Writer, WriterBuilder};
use rr_text::refusal::push_refusal;
use std::alloc::{AllocError, Global};

/// The writer of a report. Its records may differ in length, since a sample has three fields and a
/// refusal one.
pub(crate) fn report_writer(alloc: Global) -> Writer<Vec<u8>>
    ensures between { IsBetween result }
    ensures empty { written result ≡ [] }
{
    WriterBuilder::new()
        .flexible(true)
        .from_writer(Vec::new(alloc))
}

/// Adds a record of these fields.
fn push_fields(report: &mut Writer<Vec<u8>>, fields: &[&[u8]]) -> Result<(), AllocError>
    requires { IsBetween report.old }
    ensures between { OnOk result (IsBetween report.new) }
    ensures pushed { OnOk result (written report.new
        ≡ written report.old ++ record_text (map (λ field. field.now) fields.now)) }
{
    let Ok(()) = report.write_fields(fields) else {
        return Err(AllocError);
    };
    Ok(())
}

/// Adds the record of a sample: its key text, its value and its time.
pub(crate) fn push_sample<'a>(
    report: &mut Writer<Vec<u8>>,
    key: &'a [u8],
    value: &'a [u8],
    time: &'a [u8],
) -> Result<(), AllocError>
    requires { IsBetween report.old }
    ensures between { OnOk result (IsBetween report.new) }
    ensures pushed { OnOk result (written report.new
        ≡ written report.old ++ record_text (key.now ∷ value.now ∷ time.now ∷ [])) }
{
    push_fields(report, &[key, value, time])
}

/// Adds the refusal of the line with this number: a record of one field, in which no byte calls for
/// quotes. The field is written over `field`, whose memory is reused.
pub(crate) fn push_refused(
    report: &mut Writer<Vec<u8>>,
    field: &mut Vec<u8>,
    number: u64,
    name: &str,
) -> Result<(), AllocError>
    requires between { IsBetween report.old }
    requires plain { IsPlain name.now }
    ensures between { OnOk result (IsBetween report.new) }
    ensures pushed { OnOk result (written report.new
        ≡ written report.old ++ refusal_text number name.now) }
{
    field.clear();
    push_refusal(field, number, name)?;
    // The writer ends the record.
    field.pop();
    push_fields(report, &[field.as_slice()])
}

/// The text of a report that is ended.
pub(crate) fn text_of(report: Writer<Vec<u8>>) -> Result<Vec<u8>, AllocError>
    ensures { IfOk result (λ text. text.items ≡ written report) }
{
    match report.into_inner() {
        Ok(text) => Ok(text),
        Err(_) => Err(AllocError),
    }
}
