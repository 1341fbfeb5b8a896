//! `schema STEP S:R:N/D ..`: sets the schema, once.

ghost use Rattle.std.specs.Prelude.{◌≡◌, ◌<◌, [], ◌∷◌, Some, IfOk, IfSome, MatchOption};
ghost use Rattle.std.specs.Option.{option_map};
ghost use Rattle.rr_schema.specs.Schema.{IsLayout};
ghost use Rattle.rr_cluster.specs.Command.{archive_words, bytes_left};
ghost use Rattle.rr_cluster.specs.Commands.Schema.{layout_of};
ghost use Rattle.rr_cluster.specs.Stop.{Gives};
ghost use Rattle.rr_cluster.specs.Words.{archives_of};

use crate::fault::CommandFault;
use crate::script::words::first_word;
use crate::stop::Stop;
use crate::words::{archive_of, number_u32};
use rr_schema::{ArchiveSpec, Schema};
use std::alloc::{AllocError, Global};

/// The first of the remaining words, if there is one, and the rest.
fn next_word(words: Option<&[u8]>) -> Option<(&[u8], Option<&[u8]>)>
    ensures word { MatchOption result (archive_words words.entry ≡ [])
        (λ next. archive_words words.entry ≡ next.0.now ∷ archive_words next.1) }
    ensures fewer { IfSome result (λ next. bytes_left next.1 < bytes_left words.entry) }
{
    let words = words?;
    match first_word(words) {
        Some((word, after)) => Some((word, Some(after))),
        None => Some((words, None)),
    }
}

/// The archives of the words `S:R:N/D`, or `None` if one of the words is not an archive.
fn archives_of(alloc: Global, words: Option<&[u8]>) -> Result<Option<Vec<ArchiveSpec>>, AllocError>
    ensures { IfOk result (λ found.
        option_map (λ archives. archives.items) found ≡ archives_of (archive_words words.entry)) }
{
    let mut archives = Vec::new(alloc);
    let mut rest = words;
    while let Some((word, after)) = next_word(rest) {
        match archive_of(word) {
            Some(archive) => archives.push(archive)?,
            None => return Ok(None),
        }
        rest = after;
    }
    Ok(Some(archives))
}

/// The schema of the words `STEP S:R:N/D ..`.
#[tactic(auto, unfolding(crate::specs::Commands::Schema::layout_of))]
pub(crate) fn schema_of(alloc: Global, step: &[u8], archives: Option<&[u8]>) -> Result<Schema, Stop>
    ensures value { Gives (λ s. s) result (layout_of step.now (archive_words archives.entry)) }
    ensures layout { IfOk result IsLayout }
{
    let step = number_u32(step).ok_or(CommandFault::BadNumber)?;
    let archives = archives_of(alloc, archives)?.ok_or(CommandFault::BadNumber)?;
    Ok(Schema::new(alloc, step, archives.as_slice())?)
}
