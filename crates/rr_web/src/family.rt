//! Families of numbers, in the text form of Prometheus (exposition format 0.0.4).

ghost use Rattle.std.specs.Prelude.{◌≡◌, ◌++◌, ◌%◌, OnOk, decimal, map};
ghost use Rattle.std.specs.Char.{digit_char};
ghost use Rattle.std.specs.List.{flat_map};
ghost use Rattle.rr_web.specs.Family.{amount_text, family_text, family_view, head_text, help_byte, kind_name};
ghost use Rattle.rr_web.specs.Family.{label_byte, label_text, label_view, labels_text, next_label_text};
ghost use Rattle.rr_web.specs.Family.{sample_text, sample_view, thousandths_text};

use itoa::Buffer;
use rr_text::bytes::{BACKSLASH, COMMA, LINE_FEED, SPACE};
use std::alloc::AllocError;

/// What the numbers of a family are.
#[derive(Clone, Copy, Debug, PartialEq, Eq)]
pub(crate) enum FamilyKind {
    /// They count up from 0 at the start. The name of the family ends in `_total`.
    Counter,
    /// They rise and fall.
    Gauge,
}

/// A number.
#[derive(Clone, Copy, Debug, PartialEq, Eq)]
pub(crate) enum Amount {
    /// A whole number.
    Whole(u64),
    /// Thousandths, written with a decimal point: milliseconds as seconds.
    Thousandths(u64),
}

/// What distinguishes a sample from the others of its family.
#[derive(Debug, Drop)]
pub(crate) struct Label {
    /// The name: letters, digits and `_`, with no digit first.
    pub(crate) name: &'static [u8],
    /// The value: any text.
    pub(crate) value: Vec<u8>,
}

/// A number of a family.
#[derive(Debug, Drop)]
pub(crate) struct Sample {
    /// What distinguishes it from the others; no label if it is the only sample.
    pub(crate) labels: Vec<Label>,
    /// The number.
    pub(crate) amount: Amount,
}

/// Numbers of one meaning.
#[derive(Debug, Drop)]
pub(crate) struct Family {
    /// The name: letters, digits, `_` and `:`, with no digit first.
    pub(crate) name: &'static [u8],
    /// What the numbers are, for people.
    pub(crate) help: &'static [u8],
    /// What they are, for whoever reads them.
    pub(crate) kind: FamilyKind,
    /// The numbers.
    pub(crate) samples: Vec<Sample>,
}

/// The name of a kind.
fn kind_name(kind: FamilyKind) -> &'static [u8]
    ensures { result.now ≡ kind_name kind }
{
    match kind {
        FamilyKind::Counter => b"counter",
        FamilyKind::Gauge => b"gauge",
    }
}

/// Adds a byte of a help text.
fn push_help_byte(text: &mut Vec<u8>, byte: u8) -> Result<(), AllocError>
    ensures { OnOk result (text.new.items ≡ text.old.items ++ help_byte byte) }
{
    match byte {
        BACKSLASH => text.extend_from_slice(b"\\\\"),
        LINE_FEED => text.extend_from_slice(b"\\n"),
        _ => text.extend_from_slice(&[byte]),
    }
}

/// Adds a byte of a label's value.
fn push_label_byte(text: &mut Vec<u8>, byte: u8) -> Result<(), AllocError>
    ensures { OnOk result (text.new.items ≡ text.old.items ++ label_byte byte) }
{
    if byte == b'"' {
        return text.extend_from_slice(b"\\\"");
    }
    push_help_byte(text, byte)
}

/// Adds a help text.
fn push_help(text: &mut Vec<u8>, help: &[u8]) -> Result<(), AllocError>
    ensures { OnOk result (text.new.items ≡ text.old.items ++ flat_map help_byte help.now) }
{
    for byte in help {
        push_help_byte(text, *byte)?;
    }
    Ok(())
}

/// Adds a label's value.
fn push_value(text: &mut Vec<u8>, value: &[u8]) -> Result<(), AllocError>
    ensures { OnOk result (text.new.items ≡ text.old.items ++ flat_map label_byte value.now) }
{
    for byte in value {
        push_label_byte(text, *byte)?;
    }
    Ok(())
}

/// Adds a label.
fn push_label(text: &mut Vec<u8>, label: &Label) -> Result<(), AllocError>
    ensures { OnOk result (text.new.items ≡ text.old.items ++ label_text (label_view label.now)) }
{
    text.extend_from_slice(label.name)?;
    text.extend_from_slice(b"=\"")?;
    push_value(text, &label.value)?;
    text.extend_from_slice(b"\"")
}

/// Adds labels that follow another.
fn push_next_labels(text: &mut Vec<u8>, labels: &[Label]) -> Result<(), AllocError>
    ensures { OnOk result (text.new.items
        ≡ text.old.items ++ flat_map next_label_text (map label_view labels.now)) }
{
    for label in labels {
        text.push(COMMA)?;
        push_label(text, label)?;
    }
    Ok(())
}

/// Adds the labels of a sample.
fn push_labels(text: &mut Vec<u8>, labels: &[Label]) -> Result<(), AllocError>
    ensures { OnOk result (text.new.items
        ≡ text.old.items ++ labels_text (map label_view labels.now)) }
{
    let [first, others @ ..] = labels else {
        return Ok(());
    };
    text.extend_from_slice(b"{")?;
    push_label(text, first)?;
    push_next_labels(text, others)?;
    text.extend_from_slice(b"}")
}

/// Adds a number in decimal.
fn push_whole(text: &mut Vec<u8>, number: u64) -> Result<(), AllocError>
    ensures { OnOk result (text.new.items ≡ text.old.items ++ decimal number) }
{
    let mut buffer = Buffer::new();
    text.extend_from_slice(buffer.format(number).as_bytes())
}

/// The last digit of a number.
fn last_digit(number: u64) -> u8
    ensures { result ≡ digit_char (number % 10) }
{
    b'0' + (number % 10) as u8
}

/// Adds thousandths, with three digits after the point.
fn push_thousandths(text: &mut Vec<u8>, number: u64) -> Result<(), AllocError>
    ensures { OnOk result (text.new.items ≡ text.old.items ++ thousandths_text number) }
{
    push_whole(text, number / 1_000)?;
    text.push(b'.')?;
    text.push(last_digit(number / 100))?;
    text.push(last_digit(number / 10))?;
    text.push(last_digit(number))?;
    Ok(())
}

/// Adds a number.
fn push_amount(text: &mut Vec<u8>, amount: Amount) -> Result<(), AllocError>
    ensures { OnOk result (text.new.items ≡ text.old.items ++ amount_text amount) }
{
    match amount {
        Amount::Whole(number) => push_whole(text, number),
        Amount::Thousandths(number) => push_thousandths(text, number),
    }
}

/// Adds the line of a sample.
fn push_sample(text: &mut Vec<u8>, name: &[u8], sample: &Sample) -> Result<(), AllocError>
    ensures { OnOk result (text.new.items
        ≡ text.old.items ++ sample_text name.now (sample_view sample.now)) }
{
    text.extend_from_slice(name)?;
    push_labels(text, &sample.labels)?;
    text.push(SPACE)?;
    push_amount(text, sample.amount)?;
    text.push(LINE_FEED)?;
    Ok(())
}

/// Adds the lines that say what a family is.
fn push_head(text: &mut Vec<u8>, family: &Family) -> Result<(), AllocError>
    ensures { OnOk result (text.new.items ≡ text.old.items ++ head_text (family_view family.now)) }
{
    text.extend_from_slice(b"# HELP ")?;
    text.extend_from_slice(family.name)?;
    text.push(SPACE)?;
    push_help(text, family.help)?;
    text.extend_from_slice(b"\n# TYPE ")?;
    text.extend_from_slice(family.name)?;
    text.push(SPACE)?;
    text.extend_from_slice(kind_name(family.kind))?;
    text.push(LINE_FEED)?;
    Ok(())
}

/// Adds the lines of samples.
fn push_samples(text: &mut Vec<u8>, name: &[u8], samples: &[Sample]) -> Result<(), AllocError>
    ensures { OnOk result (text.new.items
        ≡ text.old.items ++ flat_map (sample_text name.now) (map sample_view samples.now)) }
{
    for sample in samples {
        push_sample(text, name, sample)?;
    }
    Ok(())
}

/// Adds a family: its help and its kind, then a line for each sample. Backslashes and line feeds
/// are escaped in a help and in the value of a label, and quotes too in a value. The cost is linear
/// in what is added.
pub(crate) fn push_family(text: &mut Vec<u8>, family: &Family) -> Result<(), AllocError>
    ensures { OnOk result (text.new.items
        ≡ text.old.items ++ family_text (family_view family.now)) }
{
    push_head(text, family)?;
    push_samples(text, family.name, &family.samples)
}
