//! What is said to people: one line.

ghost use Rattle.std.specs.Prelude.{◌≡◌, ◌≤◌};
ghost use Rattle.explanations.specs.Columns.{column_word, columns_in};
ghost use Rattle.explanations.specs.Texts.{found_text};

use crate::query::{MoreWords, WrongWord};
use crate::shown::{Shown, ShownText};
use ghcn_files::StationId;
use std::fmt;

/// What is said to people about an error or a warning: one line, without its line feed.
#[derive(Clone, Copy)]
pub enum Explanation<'a> {
    /// A line of a file, by its number from 1: what it has, and what is asked for.
    Line {
        path: &'a str,
        line: u64,
        found: Found<'a>,
        wanted: &'static str,
    },
    /// A line of a file, by its number from 1, and what is wrong with it.
    At {
        path: &'a str,
        line: u64,
        says: &'static str,
    },
    /// A file or a query, and what is wrong with it.
    Of {
        name: &'a str,
        says: &'static str,
    },
    /// A file that the system doesn't open or read, for its reason.
    NoAccess {
        path: &'a str,
        reason: &'a str,
    },
    /// A station, and what is wrong with it.
    Station {
        id: StationId,
        says: &'static str,
    },
    /// A word with which no query goes on.
    Word(WrongWord<'a>),
    /// A query that ends too early.
    End(MoreWords<'a>),
    /// What is wrong, or what a warning means.
    Plain(&'static str),
}

impl<'a> fmt::Display for Explanation<'a> {
    ghost use Rattle.explanations.specs.Texts.{explanation_text};

    ghost output = { explanation_text };

    fn fmt<W: fmt::Write>(&self, f: &mut fmt::Formatter<W>) -> fmt::Result {
        match self {
            Explanation::Line {
                path,
                line,
                found,
                wanted,
            } => write!(f, "{}:{line}: {found}; {wanted}", ShownText(path)),
            Explanation::At { path, line, says } => {
                write!(f, "{}:{line}: {says}", ShownText(path))
            }
            Explanation::Of { name, says } => write!(f, "{}: {says}", ShownText(name)),
            Explanation::NoAccess { path, reason } => write!(f, "{}: {reason}", ShownText(path)),
            Explanation::Station { id, says } => write!(f, "{}: {says}", Shown(&id.0)),
            Explanation::Word(word) => write!(f, "{word}"),
            Explanation::End(more) => write!(f, "{more}"),
            Explanation::Plain(says) => f.write_str(says),
        }
    }
}

/// What a line has in place of what is asked for.
#[derive(Clone, Copy)]
pub enum Found<'a> {
    /// What it has isn't known, but the kind of the error is.
    Kind(&'static str),
    /// That many columns in all.
    Columns(u64),
    /// These bytes in the columns from the first to the last, counted from 1.
    At {
        first: u64,
        last: u64,
        bytes: &'a [u8],
    },
}

impl<'a> fmt::Display for Found<'a> {
    ghost use Rattle.std.specs.Prelude.{Some};
    ghost use Rattle.explanations.specs.Texts.{found_text};

    ghost output = { λ found. Some (found_text found) };

    fn fmt<W: fmt::Write>(&self, f: &mut fmt::Formatter<W>) -> fmt::Result {
        match self {
            Found::Kind(kind) => f.write_str(kind),
            Found::Columns(count) => write!(f, "{count} {}", column_word(*count)),
            Found::At { first, last, bytes } => {
                write!(f, "columns {first} to {last}: '{}'", Shown(bytes))
            }
        }
    }
}

/// The word for this many columns.
fn column_word(count: u64) -> &'static str
    ensures { result.now ≡ column_word count }
{
    if count == 1 { "column" } else { "columns" }
}

/// The columns of a line from the first to the last, counted from 1, as far as the line has them.
pub(crate) fn columns(line: &[u8], first: u64, last: u64) -> Found<'_>
    requires one { 1 ≤ first }
    requires ordered { first ≤ last }
    ensures { found_text result ≡ columns_in line.now first last }
{
    let rest = &line[(first as usize - 1).min(line.len())..];
    let width = (last - first) as usize + 1;
    Found::At {
        first,
        last,
        bytes: &rest[..width.min(rest.len())],
    }
}
