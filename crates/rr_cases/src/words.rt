//! The words of a call.

use anyhow::{Context, Result};
use rr_base::Origin;
use std::str::FromStr;

/// The words of a call from one of them on, with one space between two.
#[derive(Clone, Copy)]
pub(crate) struct Words<'a> {
    rest: &'a str,
    /// How many growths of the call there are before one is refused, if one is.
    pub(crate) growths: Option<u32>,
}

impl<'a> Words<'a> {
    pub(crate) fn of(rest: &'a str) -> Words<'a> {
        Words {
            rest,
            growths: None,
        }
    }

    /// The words of a call after a first one, which says how many growths there are before one is
    /// refused.
    pub(crate) fn refusing(rest: &'a str) -> Result<Words<'a>> {
        let mut words = Words::of(rest);
        words.growths = Some(words.number()?);
        Ok(words)
    }

    /// The next word; an empty one after the last.
    pub(crate) fn word(&mut self) -> &'a str {
        let (word, rest) = self.rest.split_once(' ').unwrap_or((self.rest, ""));
        self.rest = rest;
        word
    }

    /// The next word as a number.
    pub(crate) fn number<N: FromStr>(&mut self) -> Result<N>
    where
        N::Err: Drop,
    {
        number_of(self.word())
    }

    /// The next word as a number; `None` if it is `-` or there is none left.
    pub(crate) fn limit<N: FromStr>(&mut self) -> Result<Option<N>>
    where
        N::Err: Drop,
    {
        match self.word() {
            "-" | "" => Ok(None),
            word => Ok(Some(number_of(word)?)),
        }
    }

    /// The next word as an origin.
    pub(crate) fn origin(&mut self) -> Result<Origin> {
        Ok(Origin::new(self.number()?)?)
    }

    /// All words that are left.
    pub(crate) fn rest(self) -> &'a str {
        self.rest
    }
}

/// The number that a word is.
pub(crate) fn number_of<N: FromStr>(word: &str) -> Result<N>
where
    N::Err: Drop,
{
    word.parse().ok().context("a word that isn't a number")
}
