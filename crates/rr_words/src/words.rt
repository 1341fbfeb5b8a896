//! The order that words ask for.

ghost use Rattle.std.specs.Prelude.{◌≡◌, ◌≢◌, Some, None, IfOk, IfErr, MatchResult, map};
ghost use Rattle.clap.specs.Words.{found_of, kind_of, rows_of, subcommand_rows_of};
ghost use Rattle.rr_words.specs.Words.{asked_at, asked_by, asked_of, journal_asked, lines_asked, node_asked, serve_asked};

use crate::fault::WordsFault;
use crate::order::Order;
use crate::values::{journal_word_of, moment_of, origin_of, owned, precision_of, value_of};
use clap::error::ErrorKind;
use clap::{ArgMatches, Command, Error};
use rr_command_line::program;
use std::alloc::Global;

const BAD_PRECISION: &str = "invalid value for '--precision <P>': it must be ns, us, ms or s";

const BAD_NOW: &str = "invalid value for '--now <T>': it must be an integer of 64 bits";

const BAD_ORIGIN: &str = "invalid value for '--origin <N>': it must be from 1 to 65,535";

const BAD_WHAT: &str = "invalid value for '<WHAT>': it must be check or cells";

const NO_FOLDER: &str = "the directory was not provided";

const NO_CONFIG: &str = "the configuration was not provided";

const NOT_TEXT: &str = "invalid UTF-8 was detected in one or more arguments";

const UNKNOWN_COMMAND: &str = "unrecognized subcommand";

/// The fault with the text of a `clap` error.
fn words_fault(alloc: Global, error: &Error) -> WordsFault
    ensures { kind_of error.now ≡ ErrorKind.OutOfMemory → result ≡ WordsFault.Memory }
{
    if error.kind() == ErrorKind::OutOfMemory {
        return WordsFault::Memory;
    }
    match error.to_string(alloc) {
        Ok(text) => WordsFault::Refused(text),
        Err(_) => WordsFault::Memory,
    }
}

/// The refusal of a value, in the form that `clap` uses.
fn value_fault(alloc: Global, command: &mut Command<'_>, message: &str) -> WordsFault {
    match command.error(ErrorKind::InvalidValue, message) {
        Ok(error) => words_fault(alloc, &error),
        Err(_) => WordsFault::Memory,
    }
}

/// What the matches of `check-lines` ask for.
fn lines_order(
    alloc: Global,
    command: &mut Command<'_>,
    matches: &ArgMatches<'_>,
) -> Result<Order, WordsFault>
    ensures { MatchResult result
        (λ order. lines_asked (rows_of (found_of matches.now)) ≡ Some (asked_by order))
        (λ _. lines_asked (rows_of (found_of matches.now)) ≡ None) }
{
    let Some(precision) = precision_of(value_of(matches, "precision")) else {
        return Err(value_fault(alloc, command, BAD_PRECISION));
    };
    let Some(now) = moment_of(value_of(matches, "now")) else {
        return Err(value_fault(alloc, command, BAD_NOW));
    };
    Ok(Order::CheckLines { precision, now })
}

/// What the matches of `serve` ask for.
fn serve_order(
    alloc: Global,
    command: &mut Command<'_>,
    matches: &ArgMatches<'_>,
) -> Result<Order, WordsFault>
    ensures { MatchResult result
        (λ order. serve_asked (rows_of (found_of matches.now)) ≡ Some (asked_by order))
        (λ fault. fault ≢ WordsFault.Memory → serve_asked (rows_of (found_of matches.now)) ≡ None) }
{
    let Some(config) = value_of(matches, "CONFIG") else {
        return Err(value_fault(alloc, command, NO_CONFIG));
    };
    let Some(origin) = origin_of(value_of(matches, "origin")) else {
        return Err(value_fault(alloc, command, BAD_ORIGIN));
    };
    Ok(Order::Serve {
        config: String::from_str(alloc, config)?,
        origin,
        load: owned(alloc, value_of(matches, "load"))?,
        save: owned(alloc, value_of(matches, "save"))?,
    })
}

/// What the matches of `node` ask for.
fn node_order(
    alloc: Global,
    command: &mut Command<'_>,
    matches: &ArgMatches<'_>,
) -> Result<Order, WordsFault>
    ensures { MatchResult result
        (λ order. node_asked (rows_of (found_of matches.now)) ≡ Some (asked_by order))
        (λ fault. fault ≢ WordsFault.Memory → node_asked (rows_of (found_of matches.now)) ≡ None) }
{
    let Some(config) = value_of(matches, "CONFIG") else {
        return Err(value_fault(alloc, command, NO_CONFIG));
    };
    let Some(data) = value_of(matches, "data") else {
        return Err(value_fault(alloc, command, NO_FOLDER));
    };
    Ok(Order::Node {
        config: String::from_str(alloc, config)?,
        data: String::from_str(alloc, data)?,
        load: owned(alloc, value_of(matches, "load"))?,
    })
}

/// What the matches of `journal` ask for.
fn journal_order(
    alloc: Global,
    command: &mut Command<'_>,
    matches: &ArgMatches<'_>,
) -> Result<Order, WordsFault>
    ensures { MatchResult result
        (λ order. journal_asked (rows_of (found_of matches.now)) ≡ Some (asked_by order))
        (λ fault. fault ≢ WordsFault.Memory → journal_asked (rows_of (found_of matches.now))
        ≡ None) }
{
    let Some(what) = journal_word_of(value_of(matches, "WHAT")) else {
        return Err(value_fault(alloc, command, BAD_WHAT));
    };
    let Some(folder) = value_of(matches, "DIR") else {
        return Err(value_fault(alloc, command, NO_FOLDER));
    };
    Ok(Order::Journal {
        what,
        folder: String::from_str(alloc, folder)?,
    })
}

/// What a command line asks for, by its matches.
fn order_of(
    alloc: Global,
    command: &mut Command<'_>,
    matches: &ArgMatches<'_>,
) -> Result<Order, WordsFault>
    ensures { MatchResult result
        (λ order. asked_of (subcommand_rows_of matches.now) ≡ Some (asked_by order))
        (λ fault. fault ≢ WordsFault.Memory → asked_of (subcommand_rows_of matches.now) ≡ None) }
{
    let Some((name, inner)) = matches.subcommand() else {
        return Ok(Order::Sim { file: None });
    };
    match name {
        "sim" => {
            let file = owned(alloc, value_of(inner, "FILE"))?;
            Ok(Order::Sim { file })
        }
        "check-lines" => lines_order(alloc, command, inner),
        "serve" => serve_order(alloc, command, inner),
        "node" => node_order(alloc, command, inner),
        "journal" => journal_order(alloc, command, inner),
        _ => Err(value_fault(alloc, command, UNKNOWN_COMMAND)),
    }
}

/// The refusal of words that aren't text.
pub fn not_text(alloc: Global) -> WordsFault {
    match program(alloc) {
        Ok(mut command) => value_fault(alloc, &mut command, NOT_TEXT),
        Err(_) => WordsFault::Memory,
    }
}

/// The order that the words after the program's name ask for.
///
/// The rules for words are those of `clap`: an option may be written as `--now T` or `--now=T`, and
/// what begins with `-` is a value only in the latter. `--help` is refused with the help text, and
/// `--version` with the version.
pub fn read_words(alloc: Global, words: &[&str]) -> Result<Order, WordsFault>
    ensures asked { IfOk result (λ order.
        asked_at (map (λ word. word.now) words.now) ≡ Some (asked_by order)) }
    ensures refused { IfErr result (λ fault. fault ≢ WordsFault.Memory
        → asked_at (map (λ word. word.now) words.now) ≡ None) }
{
    let mut command = program(alloc)?;
    match command.try_get_matches_from_mut(words) {
        Ok(matches) => order_of(alloc, &mut command, &matches),
        Err(error) => Err(words_fault(alloc, &error)),
    }
}
