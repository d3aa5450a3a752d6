//! The words of a query text: its longest runs of bytes other than blanks.

ghost use Rattle.std.specs.Prelude.{◌≡◌, false, Some, None, if◌then◌else◌};
ghost use Rattle.std.specs.List.{position, position_or_len};
ghost use Rattle.ghcn_fields.specs.Numbers.{after_blanks};
ghost use Rattle.rank_query.specs.Words as words;
ghost use Rattle.rank_query.specs.Words.{is_separator, numbered_words, after};

use std::marker::Model;

/// The byte that separates words.
const BLANK: u8 = b' ';

/// The words of a text that are still to come, each with its number, from 1.
#[derive(Drop)]
pub(crate) struct Words<'a> {
    given: u64,
    text: &'a [u8],
}

impl<'a> Model for Words<'a> {
    ghost use Rattle.std.specs.Prelude.{ℕ, List, ◌+◌, ◌<◌, ◌^◌, length};
    ghost use Rattle.std.specs.List.{enumerate_from};
    ghost use Rattle.rank_query.specs.Meaning.Words.{words_of};

    ghost Value = { List (ℕ × List ℕ) };

    ghost view = { λ w. enumerate_from (w.given + 1) (words_of w.text.now) };

    ghost invariant = { λ w. w.given + length w.text.now < 2 ^ 64 };
}

impl<'a> Words<'a> {
    /// The words of a text with their numbers.
    pub(crate) fn of(text: &'a str) -> Self
        ensures { result ≡ numbered_words text.now }
    {
        Words {
            given: 0,
            text: text.as_bytes(),
        }
    }

    /// Takes the next word if it is this one.
    pub(crate) fn take_if(&mut self, expected: &[u8]) -> bool
        ensures taken { after expected.now self.old ≡ (if result then Some self.new else None) }
        ensures left { result ≡ false → self.new ≡ self.old }
    {
        let mut rest = Words {
            given: self.given,
            text: self.text,
        };
        match rest.next() {
            Some((_, word)) if says(expected, word) => {
                *self = rest;
                true
            }
            _ => false,
        }
    }
}

impl<'a> Iterator for Words<'a> {
    ghost use Rattle.std.specs.Iterator.{YieldsFirstBy, item_count};

    type Item = (u64, &'a [u8]);

    ghost next_gives = { YieldsFirstBy (λ item. (item.0, item.1.now)) (λ rest. rest) };

    ghost remaining = { item_count (λ rest. rest) };

    fn next(&mut self) -> Option<(u64, &'a [u8])> {
        let text = without_blanks(self.text);
        if text.is_empty() {
            return None;
        }
        let (word, rest) = text.split_at(word_len(text));
        self.given += 1;
        self.text = rest;
        Some((self.given, word))
    }
}

/// Whether a word is this one, byte for byte.
#[tactic(auto, unfolding(crate::specs::Words::says))]
pub(crate) fn says(expected: &[u8], word: &[u8]) -> bool
    ensures { result ≡ words.says expected.now word.now }
{
    word == expected
}

fn without_blanks(text: &[u8]) -> &[u8]
    ensures { result.now ≡ after_blanks text.now }
{
    let mut rest = text;
    while let [BLANK, more @ ..] = rest {
        rest = more;
    }
    rest
}

/// How many bytes come before the first blank.
fn word_len(text: &[u8]) -> usize
    ensures { result ≡ position_or_len is_separator text.now }
{
    first_blank(text).unwrap_or(text.len())
}

fn first_blank(text: &[u8]) -> Option<usize>
    ensures { result ≡ position is_separator text.now }
{
    text.iter().position(|byte| *byte == BLANK)
}
