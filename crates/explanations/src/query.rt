//! The word of a query that has an error, and what is allowed in its place.

ghost use Rattle.std.specs.Prelude.{◌≡◌, ◌≤◌, ◌<◌, length, IfSome};
ghost use Rattle.explanations.specs.Queries.{IsWordOf};

use crate::place::Place;
use crate::shown::Shown;
use std::fmt;

/// What is allowed at a place of a query.
#[derive(Clone, Copy)]
pub enum Wanted {
    /// One of these words.
    OneOf(&'static str),
    /// This word, or one of this form.
    Form(&'static str),
    /// Nothing: the query has to end.
    Nothing,
}

/// A word with which no query goes on.
#[derive(Clone, Copy)]
pub struct WrongWord<'a> {
    /// The query up to the end of the word.
    pub query: &'a [u8],
    pub word: &'a [u8],
    /// What is allowed in the word's place.
    pub wanted: Wanted,
}

impl<'a> fmt::Display for WrongWord<'a> {
    ghost use Rattle.std.specs.Prelude.{Some};
    ghost use Rattle.explanations.specs.Queries.{wrong_word_text};

    ghost output = { λ word. Some (wrong_word_text word) };

    fn fmt<W: fmt::Write>(&self, f: &mut fmt::Formatter<W>) -> fmt::Result {
        let (query, word) = (Shown(self.query), Shown(self.word));
        match self.wanted {
            Wanted::OneOf(words) => write!(f, "{query}: {word} is none of {words}"),
            Wanted::Form(form) => write!(f, "{query}: {word} isn't {form}"),
            Wanted::Nothing => write!(f, "{query}: nothing may follow before {word}"),
        }
    }
}

/// A query that ends too early.
#[derive(Clone, Copy)]
pub struct MoreWords<'a> {
    pub query: &'a [u8],
    /// What may follow.
    pub wanted: Wanted,
}

impl<'a> fmt::Display for MoreWords<'a> {
    ghost use Rattle.std.specs.Prelude.{Some};
    ghost use Rattle.explanations.specs.Queries.{more_words_text};

    ghost output = { λ more. Some (more_words_text more) };

    fn fmt<W: fmt::Write>(&self, f: &mut fmt::Formatter<W>) -> fmt::Result {
        let query = Shown(self.query);
        match self.wanted {
            Wanted::OneOf(words) => write!(f, "{query}: one of {words} has to follow"),
            Wanted::Form(form) => write!(f, "{query}: {form} has to follow"),
            Wanted::Nothing => write!(f, "{query}: nothing has to follow"),
        }
    }
}

/// The word of this number, from 1, and what is allowed in its place. A query has such a word if it has an error there.
pub(crate) fn wrong_word(query: &[u8], number: u64) -> Option<WrongWord<'_>>
    ensures { IfSome result (IsWordOf query.now) }
{
    let (place, end) = after_words(query, number.saturating_sub(1));
    let (start, stop) = next_word(query, end)?;
    Some(WrongWord {
        query: &query[..stop],
        word: &query[start..stop],
        wanted: place.wanted(),
    })
}

/// What has to follow all words.
pub(crate) fn more_words(query: &[u8]) -> MoreWords<'_>
    ensures { result.query.now ≡ query.now }
{
    let (place, _) = after_words(query, query.len() as u64);
    MoreWords {
        query,
        wanted: place.wanted(),
    }
}

/// The place after that many words, or after all if there are fewer, and where the last of them ends.
fn after_words(query: &[u8], count: u64) -> (Place, usize)
    ensures { result.1 ≤ length query.now }
{
    let mut place = Place::Top;
    let mut end = 0;
    for _ in 0..count {
        let Some((start, stop)) = next_word(query, end) else {
            break;
        };
        place = place.after(&query[start..stop]);
        end = stop;
    }
    (place, end)
}

/// Where the next word begins and ends, from a place on.
fn next_word(query: &[u8], from: usize) -> Option<(usize, usize)>
    requires { from ≤ length query.now }
    ensures ordered { IfSome result (λ word. word.0 < word.1) }
    ensures within { IfSome result (λ word. word.1 ≤ length query.now) }
{
    let blanks = query[from..].iter().position(|byte| *byte != b' ')?;
    let start = from + blanks;
    let letters = query[start..].iter().position(|byte| *byte == b' ');
    let stop = match letters {
        Some(letters) => start + letters,
        None => query.len(),
    };
    Some((start, stop))
}
