//! The samples of the numbers of a node.

ghost use Rattle.std.specs.Prelude.{◌≡◌, ◌++◌, IfOk, OnOk, codes, decimal, map, option_map};
ghost use Rattle.rr_web.specs.Family.{label_view, sample_view};
ghost use Rattle.rr_web.specs.NodeMetrics.{answer_samples, archive_sample, archive_samples, info_samples, labelled};
ghost use Rattle.rr_web.specs.NodeMetrics.{origin_labels, refused_sample, refused_samples, samples_of, single};

use crate::family::{Amount, Label, Sample};
use crate::node_metrics::{AnswerCounts, ArchiveRows, RefusedLines};
use itoa::Buffer;
use std::alloc::{AllocError, Global};

/// A number in decimal.
pub(crate) fn decimal(alloc: Global, number: u64) -> Result<Vec<u8>, AllocError>
    ensures { IfOk result (λ text. text.items ≡ decimal number) }
{
    let mut buffer = Buffer::new();
    Vec::from_slice(alloc, buffer.format(number).as_bytes())
}

/// A sample with a label.
fn labelled(
    alloc: Global,
    name: &'static [u8],
    value: Vec<u8>,
    number: u64,
) -> Result<Sample, AllocError>
    ensures { IfOk result (λ sample. sample_view sample ≡ labelled name.now value.items number) }
{
    let mut labels = Vec::new(alloc);
    labels.push(Label { name, value })?;
    Ok(Sample {
        labels,
        amount: Amount::Whole(number),
    })
}

/// One sample with no label.
pub(crate) fn single(alloc: Global, amount: Amount) -> Result<Vec<Sample>, AllocError>
    ensures { IfOk result (λ samples. map sample_view samples.items ≡ single amount) }
{
    let mut samples = Vec::new(alloc);
    samples.push(Sample {
        labels: Vec::new(alloc),
        amount,
    })?;
    Ok(samples)
}

/// The sample of an archive.
fn archive_sample(alloc: Global, archive: &ArchiveRows) -> Result<Sample, AllocError>
    ensures { IfOk result (λ sample. sample_view sample ≡ archive_sample archive.now) }
{
    let seconds = decimal(alloc, archive.seconds)?;
    labelled(alloc, b"resolution", seconds, archive.rows)
}

/// A sample for each archive.
pub(crate) fn archive_samples(
    alloc: Global,
    archives: &[ArchiveRows],
) -> Result<Vec<Sample>, AllocError>
    ensures { IfOk result (λ samples. map sample_view samples.items
        ≡ archive_samples archives.now) }
{
    let mut samples = Vec::new(alloc);
    for archive in archives {
        samples.push(archive_sample(alloc, archive)?)?;
    }
    Ok(samples)
}

/// The sample of a fault.
fn refused_sample(alloc: Global, refused: &RefusedLines) -> Result<Sample, AllocError>
    ensures { IfOk result (λ sample. sample_view sample ≡ refused_sample refused.now) }
{
    let fault = Vec::from_slice(alloc, &refused.fault)?;
    labelled(alloc, b"fault", fault, refused.lines)
}

/// A sample for each fault.
pub(crate) fn refused_samples(
    alloc: Global,
    refused: &[RefusedLines],
) -> Result<Vec<Sample>, AllocError>
    ensures { IfOk result (λ samples. map sample_view samples.items
        ≡ refused_samples refused.now) }
{
    let mut samples = Vec::new(alloc);
    for lines in refused {
        samples.push(refused_sample(alloc, lines)?)?;
    }
    Ok(samples)
}

/// A sample of the bodies that were refused for one reason.
pub(crate) fn fault_sample(alloc: Global, fault: &[u8], number: u64) -> Result<Sample, AllocError>
    ensures { IfOk result (λ sample. sample_view sample
        ≡ labelled (codes "fault") fault.now number) }
{
    labelled(alloc, b"fault", Vec::from_slice(alloc, fault)?, number)
}

/// A sample of the answers of one class.
fn answer_sample(alloc: Global, class: &[u8], number: u64) -> Result<Sample, AllocError>
    ensures { IfOk result (λ sample. sample_view sample
        ≡ labelled (codes "status") class.now number) }
{
    labelled(alloc, b"status", Vec::from_slice(alloc, class)?, number)
}

/// A sample for each class.
pub(crate) fn answer_samples(
    alloc: Global,
    answers: AnswerCounts,
) -> Result<Vec<Sample>, AllocError>
    ensures { IfOk result (λ samples. map sample_view samples.items ≡ answer_samples answers) }
{
    let mut samples = Vec::new(alloc);
    samples.push(answer_sample(alloc, b"2xx", answers.done)?)?;
    samples.push(answer_sample(alloc, b"4xx", answers.refused)?)?;
    samples.push(answer_sample(alloc, b"5xx", answers.failed)?)?;
    Ok(samples)
}

/// A number as an amount, if present.
pub(crate) fn whole(number: Option<u64>) -> Option<Amount>
    ensures { result ≡ option_map Amount.Whole number }
{
    match number {
        Some(number) => Some(Amount::Whole(number)),
        None => None,
    }
}

/// Milliseconds as seconds, if present.
pub(crate) fn seconds(milliseconds: Option<u64>) -> Option<Amount>
    ensures { result ≡ option_map Amount.Thousandths milliseconds }
{
    match milliseconds {
        Some(milliseconds) => Some(Amount::Thousandths(milliseconds)),
        None => None,
    }
}

/// A sample of an amount that may be absent.
pub(crate) fn samples_of(alloc: Global, amount: Option<Amount>) -> Result<Vec<Sample>, AllocError>
    ensures { IfOk result (λ samples. map sample_view samples.items ≡ samples_of amount) }
{
    match amount {
        Some(amount) => single(alloc, amount),
        None => Ok(Vec::new(alloc)),
    }
}

/// Adds the label of the origin under which a node writes, once it is taken.
fn push_origin(
    alloc: Global,
    labels: &mut Vec<Label>,
    origin: Option<u64>,
) -> Result<(), AllocError>
    ensures { OnOk result (map label_view labels.new.items
        ≡ map label_view labels.old.items ++ origin_labels origin) }
{
    if let Some(origin) = origin {
        labels.push(Label {
            name: b"origin",
            value: decimal(alloc, origin)?,
        })?;
    }
    Ok(())
}

/// The sample that says what the program is, and under which origin it writes.
pub(crate) fn info_samples(
    alloc: Global,
    version: &str,
    origin: Option<u64>,
) -> Result<Vec<Sample>, AllocError>
    ensures { IfOk result (λ samples. map sample_view samples.items
        ≡ info_samples version.now origin) }
{
    let mut labels = Vec::new(alloc);
    labels.push(Label {
        name: b"version",
        value: Vec::from_slice(alloc, version.as_bytes())?,
    })?;
    push_origin(alloc, &mut labels, origin)?;
    let mut samples = Vec::new(alloc);
    samples.push(Sample {
        labels,
        amount: Amount::Whole(1),
    })?;
    Ok(samples)
}
