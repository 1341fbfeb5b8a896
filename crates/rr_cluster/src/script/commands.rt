//! How each command is read from the words of its line.

ghost use Rattle.std.specs.Prelude.{◌≡◌, Some, option_map};
ghost use Rattle.rr_cluster.specs.Command.{view_of};
ghost use Rattle.rr_cluster.specs.CommandTexts.{command_of, copying_command, schema_command, upgrade_command, node_command, now_command, write_command, page_command, delta_command, deliver_command, bytes_command, save_command, load_command, fetch_command};
ghost use Rattle.rr_cluster.specs.ScriptWords.{words_of};

use crate::script::event::Event;
use crate::script::words::{first_word, three_words};
use rr_fetch::request_words;

/// The command of a line. Every command has at least two words.
pub(crate) fn command_of(line: &[u8]) -> Option<Event<'_>>
    ensures { option_map view_of result ≡ command_of (words_of line.now) }
{
    let (name, words) = first_word(line)?;
    if name == b"schema".as_slice() {
        Some(schema_command(words))
    } else if name == b"upgrade".as_slice() {
        upgrade_command(words)
    } else if name == b"node".as_slice() {
        node_command(words)
    } else if name == b"now".as_slice() {
        now_command(words)
    } else if name == b"write".as_slice() {
        write_command(words)
    } else {
        copying_command(name, words)
    }
}

/// The command with this name and the words after it, if it is one that copies or prints what nodes
/// have.
fn copying_command<'a>(name: &[u8], words: &'a [u8]) -> Option<Event<'a>>
    ensures { option_map view_of result ≡ copying_command name.now (words_of words.now) }
{
    if name == b"page".as_slice() {
        page_command(words)
    } else if name == b"delta".as_slice() {
        delta_command(words)
    } else if name == b"deliver".as_slice() {
        deliver_command(words)
    } else if name == b"bytes".as_slice() {
        bytes_command(words)
    } else if name == b"save".as_slice() {
        save_command(words)
    } else if name == b"load".as_slice() {
        load_command(words)
    } else if name == b"fetch".as_slice() {
        fetch_command(words)
    } else {
        None
    }
}

/// The command of the words after `schema`.
fn schema_command(words: &[u8]) -> Event<'_>
    ensures { Some (view_of result) ≡ schema_command (words_of words.now) }
{
    match first_word(words) {
        Some((step, archives)) => Event::Schema {
            step,
            archives: Some(archives),
        },
        None => Event::Schema {
            step: words,
            archives: None,
        },
    }
}

/// The command of the word after `upgrade`.
fn upgrade_command(words: &[u8]) -> Option<Event<'_>>
    ensures { option_map view_of result ≡ upgrade_command (words_of words.now) }
{
    match first_word(words) {
        Some(_) => None,
        None => Some(Event::Upgrade { archive: words }),
    }
}

/// The command of the words after `node`.
fn node_command(words: &[u8]) -> Option<Event<'_>>
    ensures { option_map view_of result ≡ node_command (words_of words.now) }
{
    let (name, origin) = first_word(words)?;
    match first_word(origin) {
        Some(_) => None,
        None => Some(Event::Node { name, origin }),
    }
}

/// The command of the words after `now`.
fn now_command(words: &[u8]) -> Option<Event<'_>>
    ensures { option_map view_of result ≡ now_command (words_of words.now) }
{
    let Some((time, lead)) = first_word(words) else {
        return Some(Event::Now {
            time: words,
            lead: None,
        });
    };
    match first_word(lead) {
        Some(_) => None,
        None => Some(Event::Now {
            time,
            lead: Some(lead),
        }),
    }
}

/// The command of the words after `write`; the line is all that follows the node.
fn write_command(words: &[u8]) -> Option<Event<'_>>
    ensures { option_map view_of result ≡ write_command (words_of words.now) }
{
    let (node, line) = first_word(words)?;
    Some(Event::Write { node, line })
}

/// The command of the words after `page`.
fn page_command(words: &[u8]) -> Option<Event<'_>>
    ensures { option_map view_of result ≡ page_command (words_of words.now) }
{
    let (name, rest) = first_word(words)?;
    let (node, from, count) = three_words(rest)?;
    Some(Event::Page {
        name,
        node,
        from,
        count,
    })
}

/// The command of the words after `delta`.
fn delta_command(words: &[u8]) -> Option<Event<'_>>
    ensures { option_map view_of result ≡ delta_command (words_of words.now) }
{
    let (name, rest) = first_word(words)?;
    let (giver, rest) = first_word(rest)?;
    let (taker, from, count) = three_words(rest)?;
    Some(Event::Delta {
        name,
        giver,
        taker,
        from,
        count,
    })
}

/// The command of the words after `deliver`.
fn deliver_command(words: &[u8]) -> Option<Event<'_>>
    ensures { option_map view_of result ≡ deliver_command (words_of words.now) }
{
    let (name, node) = first_word(words)?;
    match first_word(node) {
        Some(_) => None,
        None => Some(Event::Deliver { name, node }),
    }
}

/// The command of the word after `bytes`.
fn bytes_command(words: &[u8]) -> Option<Event<'_>>
    ensures { option_map view_of result ≡ bytes_command (words_of words.now) }
{
    match first_word(words) {
        Some(_) => None,
        None => Some(Event::Bytes { name: words }),
    }
}

/// The command of the words after `save`.
fn save_command(words: &[u8]) -> Option<Event<'_>>
    ensures { option_map view_of result ≡ save_command (words_of words.now) }
{
    let (name, node) = first_word(words)?;
    match first_word(node) {
        Some(_) => None,
        None => Some(Event::Save { name, node }),
    }
}

/// The command of the words after `load`.
fn load_command(words: &[u8]) -> Option<Event<'_>>
    ensures { option_map view_of result ≡ load_command (words_of words.now) }
{
    let (name, node, origin) = three_words(words)?;
    Some(Event::Load { name, node, origin })
}

/// The command of the words after `fetch`; the key is all that follows the end.
fn fetch_command(words: &[u8]) -> Option<Event<'_>>
    ensures { option_map view_of result ≡ fetch_command (words_of words.now) }
{
    let (node, rest) = first_word(words)?;
    let request = request_words(rest)?;
    Some(Event::Fetch { node, request })
}
