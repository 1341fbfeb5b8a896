//! The names of faults and their sentences. A file has the word for some faults.

use anyhow::{Result, bail};
use rr_base::stream::ReadFault;
use rr_base::{OriginFault, SchemaFault};
use rr_cluster::{CommandFault, RunFault, SyntaxFault};
use rr_feed::FeedFault;
use rr_fetch::{AnswerFault, RequestFault};
use rr_gossip::GossipFault;
use rr_key::KeyFault;
use rr_line::LineFault;
use rr_page::PageFault;
use rr_process::ToolFault;
use rr_replica::{JoinFault, PutFault, WriteFault};
use std::alloc::{AllocError, Global};
use std::fmt::Display;

/// For each of the faults a line with its name and its sentence.
pub(crate) fn answers(alloc: Global, input: &[u8]) -> Result<Vec<u8>> {
    let mut output = String::new(alloc);
    match str::from_utf8(input)? {
        "schema\n" => push_schema(&mut output),
        "read\n" => push_read(&mut output),
        "key\n" => push_key(&mut output),
        "line\n" => push_line(&mut output),
        "page\n" => push_page(&mut output),
        "gossip\n" => push_gossip(&mut output),
        "request\n" => push_request(&mut output),
        "write\n" => push_write(&mut output),
        "command\n" => push_command(&mut output),
        "tool\n" => push_tool(&mut output),
        "others\n" => push_others(&mut output),
        _ => bail!("unknown faults"),
    }?;
    Ok(output.into_bytes())
}

/// Adds the name of a fault and its sentence, as a line.
fn push_sentence<F: Display>(output: &mut String, name: &str, fault: &F) -> Result<(), AllocError> {
    write!(output, "{name}: {fault}\n")
}

fn push_schema(output: &mut String) -> Result<(), AllocError> {
    for fault in &[
        SchemaFault::BadToml,
        SchemaFault::MissingField,
        SchemaFault::WrongKind,
        SchemaFault::BadStep,
        SchemaFault::NoArchive,
        SchemaFault::TooManyArchives,
        SchemaFault::BadSteps,
        SchemaFault::BadRows,
        SchemaFault::BadXff,
        SchemaFault::StepsNotRising,
        SchemaFault::Memory,
    ] {
        push_sentence(output, fault.name(), fault)?;
    }
    Ok(())
}

fn push_read(output: &mut String) -> Result<(), AllocError> {
    for fault in &[
        ReadFault::ReadFailed,
        ReadFault::TooManyReads,
        ReadFault::Memory,
    ] {
        push_sentence(output, fault.name(), fault)?;
    }
    Ok(())
}

fn push_key(output: &mut String) -> Result<(), AllocError> {
    for fault in &[
        KeyFault::EmptyName,
        KeyFault::BadName,
        KeyFault::DuplicateTag,
        KeyFault::TooManyTags,
        KeyFault::KeyTooLong,
        KeyFault::BadKey,
        KeyFault::Memory,
    ] {
        push_sentence(output, fault.name(), fault)?;
    }
    Ok(())
}

fn push_line(output: &mut String) -> Result<(), AllocError> {
    for fault in &[
        LineFault::NoMeasurement,
        LineFault::MissingTagKey,
        LineFault::MissingTagValue,
        LineFault::TooManyTags,
        LineFault::DuplicateTag,
        LineFault::NoFields,
        LineFault::MissingFieldKey,
        LineFault::MissingFieldValue,
        LineFault::BooleanField,
        LineFault::IntegerRange,
        LineFault::UnsignedField,
        LineFault::FloatField,
        LineFault::TextField,
        LineFault::BadField,
        LineFault::TooManyFields,
        LineFault::DuplicateField,
        LineFault::BadTime,
        LineFault::TimeRange,
        LineFault::KeyTooLong,
        LineFault::Memory,
    ] {
        push_sentence(output, fault.name(), fault)?;
    }
    Ok(())
}

fn push_page(output: &mut String) -> Result<(), AllocError> {
    for fault in &[
        PageFault::Short,
        PageFault::BadMagic,
        PageFault::BadVersion,
        PageFault::SchemaDiffers,
        PageFault::TooManyCells,
        PageFault::BadKey,
        PageFault::BadArchive,
        PageFault::BadContribution,
        PageFault::OutOfOrder,
        PageFault::TrailingBytes,
        PageFault::Memory,
    ] {
        push_sentence(output, fault.name(), fault)?;
    }
    Ok(())
}

fn push_gossip(output: &mut String) -> Result<(), AllocError> {
    for fault in &[
        GossipFault::ReadFailed,
        GossipFault::Ended,
        GossipFault::FrameTooLong,
        GossipFault::BadFrame,
        GossipFault::UnexpectedFrame,
        GossipFault::TooManyFrames,
        GossipFault::SchemaDiffers,
        GossipFault::WriteFailed,
        GossipFault::Memory,
        GossipFault::Failed,
    ] {
        push_sentence(output, fault.name(), fault)?;
    }
    Ok(())
}

fn push_request(output: &mut String) -> Result<(), AllocError> {
    for fault in &[
        RequestFault::BadCommand,
        RequestFault::BadCf,
        RequestFault::BadNumber,
        RequestFault::BadKey,
        RequestFault::EmptyRange,
        RequestFault::TooManyRows,
        RequestFault::Memory,
    ] {
        push_sentence(output, fault.name(), fault)?;
    }
    Ok(())
}

fn push_write(output: &mut String) -> Result<(), AllocError> {
    for fault in &[
        WriteFault::AheadOfClock,
        WriteFault::NumbersSpent,
        WriteFault::Memory { put: 2 },
    ] {
        push_sentence(output, fault.name(), fault)?;
    }
    Ok(())
}

fn push_command(output: &mut String) -> Result<(), AllocError> {
    for fault in &[
        CommandFault::Syntax(SyntaxFault::LineTooLong),
        CommandFault::Syntax(SyntaxFault::BadCommand),
        CommandFault::NoSchema,
        CommandFault::SchemaSet,
        CommandFault::BadName,
        CommandFault::NameUsed,
        CommandFault::NoNode,
        CommandFault::NoPage,
        CommandFault::BadNumber,
        CommandFault::OriginUsed,
        CommandFault::Schema(SchemaFault::NoArchive),
        CommandFault::Line(LineFault::NoFields),
        CommandFault::Fetch(RequestFault::BadKey),
    ] {
        push_sentence(output, fault.name(), fault)?;
    }
    Ok(())
}

fn push_tool(output: &mut String) -> Result<(), AllocError> {
    for fault in &[
        ToolFault::ReadFailed,
        ToolFault::WriteFailed,
        ToolFault::TooManyReads,
        ToolFault::Memory,
    ] {
        push_sentence(output, fault.name(), fault)?;
    }
    Ok(())
}

fn push_others(output: &mut String) -> Result<(), AllocError> {
    let joined = JoinFault::Memory { joined: 3 };
    let (origin, number) = (OriginFault::BadOrigin, PutFault::NumbersSpent);
    push_sentence(output, origin.name(), &origin)?;
    push_sentence(output, number.name(), &number)?;
    push_sentence(output, joined.name(), &joined)?;
    let (answer, feed, run) = (AnswerFault::WriteFailed, FeedFault::Ended, RunFault::Memory);
    push_sentence(output, answer.name(), &answer)?;
    push_sentence(output, feed.name(), &feed)?;
    push_sentence(output, run.name(), &run)
}
