//! Why a query text is refused.

use std::fmt;
use thiserror::Error;

/// The first error of a query text, read word by word from the left. Words are numbered from 1.
#[derive(Clone, Copy, Debug, PartialEq, Eq, Error)]
pub enum QueryFault {
    /// It has more than 256 bytes.
    QueryTooLong,
    /// The word of this number isn't one that the grammar has there.
    UnexpectedWord(u64),
    /// A word is needed and there is none.
    QueryEnds,
    /// The word of this number is a number, and out of its limits.
    OutOfLimits(u64),
    /// The word of this number isn't a date where the grammar has one: that of a day of the years 1
    /// to 9999, or `D..D`, two days of a leap year, of which each D is `MM-DD`.
    BadDate(u64),
    /// The word of this number can't be that edge of a box.
    BadBox(u64),
    /// The period's second day is before its first.
    EmptyPeriod,
}

impl fmt::Display for QueryFault {
    ghost use Rattle.std.specs.Prelude.{Some};
    ghost use Rattle.rank_query.specs.FaultTexts.{query_fault_text};

    ghost output = { λ fault. Some (query_fault_text fault) };

    fn fmt<W: fmt::Write>(&self, f: &mut fmt::Formatter<W>) -> fmt::Result {
        match self {
            QueryFault::QueryTooLong => f.write_str("refused 7 QueryTooLong"),
            QueryFault::UnexpectedWord(word) => write!(f, "refused 8 UnexpectedWord {word}"),
            QueryFault::QueryEnds => f.write_str("refused 9 QueryEnds"),
            QueryFault::OutOfLimits(word) => write!(f, "refused 10 OutOfLimits {word}"),
            QueryFault::BadDate(word) => write!(f, "refused 11 BadDate {word}"),
            QueryFault::BadBox(word) => write!(f, "refused 12 BadBox {word}"),
            QueryFault::EmptyPeriod => f.write_str("refused 13 EmptyPeriod"),
        }
    }
}
