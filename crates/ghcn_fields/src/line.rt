//! The lines of a text. A line feed ends a line, and a carriage return before it belongs to the end.

ghost use Rattle.std.specs.Prelude.{◌≡◌, ◌≤◌, ◌<◌, ◌++◌, ◌∷◌, IfSome, IsNone, Some, true, length};
ghost use Rattle.std.specs.Str.Lines.{strip_carriage_return};
ghost use Rattle.ghcn_fields.specs.Meaning.Bytes as bytes;
ghost use Rattle.ghcn_fields.specs.Lines.{numbered_lines, HasNoLineFeed};
ghost use Rattle.ghcn_fields.specs.Lines as feeds;
ghost use Rattle.memchr.specs.Find.{IsFirstByte, is_byte};

use memchr::memchr;
use std::marker::Model;
use std::simd::prelude::*;

/// The columns of a whole line of a daily file.
const DAILY_COLUMNS: usize = 269;

/// The columns of a whole line of the station list.
const LISTED_COLUMNS: usize = 85;

/// The lines of a text that are still to come, each with its number, from 1, and without its end.
#[derive(Drop)]
pub struct Lines<'a> {
    given: u64,
    text: &'a [u8],
}

impl<'a> Model for Lines<'a> {
    ghost use Rattle.std.specs.Prelude.{ℕ, List, ◌+◌, ◌<◌, ◌^◌, length};
    ghost use Rattle.std.specs.List.{enumerate_from};
    ghost use Rattle.ghcn_fields.specs.Meaning.Lines.{lines};

    ghost Value = { List (ℕ × List ℕ) };

    ghost view = { λ l. enumerate_from (l.given + 1) (lines l.text.now) };

    ghost invariant = { λ l. l.given + length l.text.now < 2 ^ 64 };
}

impl<'a> Lines<'a> {
    /// The lines of a text with their numbers.
    pub(crate) fn of(text: &'a [u8]) -> Self
        ensures { result ≡ numbered_lines text.now }
    {
        Lines { given: 0, text }
    }
}

impl<'a> Iterator for Lines<'a> {
    ghost use Rattle.std.specs.Iterator.{YieldsFirstBy, item_count};

    type Item = (u64, &'a [u8]);

    ghost next_gives = { YieldsFirstBy (λ item. (item.0, item.1.now)) (λ rest. rest) };

    ghost remaining = { item_count (λ rest. rest) };

    #[inline(always)]
    fn next(&mut self) -> Option<(u64, &'a [u8])> {
        let text = self.text;
        if text.is_empty() {
            return None;
        }
        self.given += 1;
        match line_feed(text, LISTED_COLUMNS) {
            Some(end) => {
                self.text = &text[end + 1..];
                Some((self.given, without_return(&text[..end])))
            }
            None => {
                self.text = &text[text.len()..];
                Some((self.given, without_return(text)))
            }
        }
    }
}

/// Whether a line is empty or has only blanks.
pub fn is_blank(line: &[u8]) -> bool
    ensures { result ≡ bytes.is_blank line.now }
{
    line.iter().all(|byte| *byte == b' ')
}

/// A line without one carriage return at its end.
pub fn without_return(line: &[u8]) -> &[u8]
    ensures { result.now ≡ strip_carriage_return line.now }
{
    match line {
        [front @ .., b'\r'] => front,
        _ => line,
    }
}

/// What comes before the first line feed of a text, and what follows it.
pub fn split_line(text: &[u8]) -> Option<(&[u8], &[u8])>
    ensures parts { IfSome result (λ parts. text.now ≡ parts.0.now ++ 10 ∷ parts.1.now) }
    ensures first { IfSome result (λ parts. HasNoLineFeed parts.0.now) }
    ensures none { IsNone result → HasNoLineFeed text.now }
{
    let end = line_feed(text, DAILY_COLUMNS)?;
    Some((&text[..end], &text[end + 1..]))
}

/// The place of the first line feed of a text. The place after that many columns, which most lines have, is looked
/// at first.
#[inline(always)]
fn line_feed(text: &[u8], columns: usize) -> Option<usize>
    requires { 16 ≤ columns }
    ensures { IsFirstByte (is_byte 10) text.now result }
{
    if columns < text.len() && ends_after(text, columns) {
        Some(columns)
    } else {
        memchr(b'\n', text)
    }
}

/// Whether the byte after that many columns is a line feed, and each of these is above it. Lanes of sixteen bytes
/// are joined by their least, and the last ones overlap those before.
#[inline(always)]
fn ends_after(text: &[u8], columns: usize) -> bool
    requires some { 16 ≤ columns }
    requires within { columns < length text.now }
    ensures { result ≡ true → IsFirstByte (is_byte 10) text.now (Some columns) }
{
    let mut least = u8x16::from_slice(&text[columns - 16..]);
    for part in 0..columns / 16 {
        least = least.simd_min(u8x16::from_slice(&text[16 * part..]));
    }
    are_above(least) & (text[columns] == b'\n')
}

/// Whether each lane is above a line feed.
#[inline(always)]
fn are_above(lanes: u8x16) -> bool
    requires { length lanes ≡ 16 }
    ensures { result ≡ feeds.are_above lanes }
{
    lanes.simd_gt(u8x16::splat(b'\n')).all()
}
