//! The values of arguments.

ghost use Rattle.std.specs.Prelude.{◌≡◌, IfOk, option_map, string_bytes};
ghost use Rattle.clap.specs.Words.{found_of, first_of, rows_of};
ghost use Rattle.rr_words.specs.Words.{journal_word_in, moment_at, origin_in, precision_at};

use crate::order::JournalWord;
use clap::ArgMatches;
use rr_line::Precision;
use rr_schema::Origin;
use rr_text::text::{integer, number};
use std::alloc::{AllocError, Global};

/// The value of an argument, if it is given.
pub(crate) fn value_of<'a>(matches: &ArgMatches<'a>, id: &str) -> Option<&'a str>
    ensures { option_map (λ s. s.now) result ≡ first_of id.now (rows_of (found_of matches.now)) }
{
    matches.get_str(id)
}

/// An owned copy of a text.
pub(crate) fn owned(alloc: Global, text: Option<&str>) -> Result<Option<String>, AllocError>
    ensures { IfOk result (λ o. option_map string_bytes o ≡ option_map (λ s. s.now) text.entry) }
{
    match text {
        None => Ok(None),
        Some(text) => Ok(Some(String::from_str(alloc, text)?)),
    }
}

/// The precision that a text names; nanoseconds if there is none.
pub(crate) fn precision_of(text: Option<&str>) -> Option<Precision>
    ensures { result ≡ precision_at (option_map (λ s. s.now) text.entry) }
{
    match text {
        Some(text) => Precision::named(text),
        None => Some(Precision::Ns),
    }
}

/// The moment that a text writes; 0 if there is none.
pub(crate) fn moment_of(text: Option<&str>) -> Option<i64>
    ensures { result ≡ moment_at (option_map (λ s. s.now) text.entry) }
{
    match text {
        None => Some(0),
        Some(text) => integer(text.as_bytes()),
    }
}

/// What a text asks of a data directory.
pub(crate) fn journal_word_of(text: Option<&str>) -> Option<JournalWord>
    ensures { result ≡ journal_word_in (option_map (λ s. s.now) text.entry) }
{
    match text? {
        "check" => Some(JournalWord::Check),
        "cells" => Some(JournalWord::Cells),
        _ => None,
    }
}

/// The origin that a text writes in digits, if it writes one.
pub(crate) fn origin_of(text: Option<&str>) -> Option<Origin>
    ensures { result ≡ origin_in (option_map (λ s. s.now) text.entry) }
{
    let number = u16::try_from(number(text?.as_bytes())?).ok()?;
    Origin::new(number).ok()
}
