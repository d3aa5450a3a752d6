//! Why an input is refused.

use ghcn_fields::Memory;
use ghcn_files::{StationWhy, StationsFault};
use ghcn_series::{DailyWhy, DataFault};
use rank_query::QueryFault;
use std::fmt;
use thiserror::Error;

/// The first error of an input, in the order: the number of workers, the guess, the query, the
/// stations, the daily files.
///
/// The errors of the query, the stations and the daily files are those of `QueryFault`,
/// `StationsFault` and `DataFault`. Words, lines and files count from 1.
#[derive(Clone, Copy, Debug, PartialEq, Eq, Error)]
pub enum Fault {
    StationLine { line: u64, why: StationWhy },
    TooManyStations,
    /// Memory was really refused. It can come at any allocation, so it has no place in the order.
    Memory(Memory),
    DailyLine { file: u64, line: u64, why: DailyWhy },
    TooManyFiles,
    QueryTooLong,
    UnexpectedWord(u64),
    QueryEnds,
    OutOfLimits(u64),
    BadDate(u64),
    BadBox(u64),
    EmptyPeriod,
    /// There aren't 1 to 64 workers.
    BadWorkers,
    /// The guess isn't from -2^31 to 2^31.
    BadGuess,
}

impl fmt::Display for Fault {
    ghost use Rattle.std.specs.Prelude.{Some};
    ghost use Rattle.rank_input.specs.FaultTexts.{fault_text};

    ghost output = { λ fault. Some (fault_text fault) };

    fn fmt<W: fmt::Write>(&self, f: &mut fmt::Formatter<W>) -> fmt::Result {
        match self {
            Fault::StationLine { line, why } => {
                write!(f, "refused 1 StationLine line {line} {why}")
            }
            Fault::TooManyStations => f.write_str("refused 2 TooManyStations"),
            Fault::Memory(memory) => write!(f, "{memory}"),
            Fault::DailyLine { file, line, why } => {
                write!(f, "refused 5 DailyLine file {file} line {line} {why}")
            }
            Fault::TooManyFiles => f.write_str("refused 6 TooManyFiles"),
            Fault::QueryTooLong => f.write_str("refused 7 QueryTooLong"),
            Fault::UnexpectedWord(word) => write!(f, "refused 8 UnexpectedWord {word}"),
            Fault::QueryEnds => f.write_str("refused 9 QueryEnds"),
            Fault::OutOfLimits(word) => write!(f, "refused 10 OutOfLimits {word}"),
            Fault::BadDate(word) => write!(f, "refused 11 BadDate {word}"),
            Fault::BadBox(word) => write!(f, "refused 12 BadBox {word}"),
            Fault::EmptyPeriod => f.write_str("refused 13 EmptyPeriod"),
            Fault::BadWorkers => f.write_str("refused 18 BadWorkers"),
            Fault::BadGuess => f.write_str("refused 19 BadGuess"),
        }
    }
}

impl From<Memory> for Fault {
    ghost use Rattle.std.specs.Prelude.{◌≡◌};
    ghost use Rattle.rank_input.specs.declared.fault.Fault.TheVariants as faults;

    ghost from_gives = { λ memory fault. fault ≡ faults.Memory memory };

    fn from(memory: Memory) -> Self {
        Fault::Memory(memory)
    }
}

impl From<QueryFault> for Fault {
    ghost use Rattle.std.specs.Prelude.{◌≡◌};
    ghost use Rattle.rank_input.specs.Input.{of_query};

    ghost from_gives = { λ cause fault. fault ≡ of_query cause };

    fn from(cause: QueryFault) -> Self {
        match cause {
            QueryFault::QueryTooLong => Fault::QueryTooLong,
            QueryFault::UnexpectedWord(at) => Fault::UnexpectedWord(at),
            QueryFault::QueryEnds => Fault::QueryEnds,
            QueryFault::OutOfLimits(at) => Fault::OutOfLimits(at),
            QueryFault::BadDate(at) => Fault::BadDate(at),
            QueryFault::BadBox(at) => Fault::BadBox(at),
            QueryFault::EmptyPeriod => Fault::EmptyPeriod,
        }
    }
}

impl From<StationsFault> for Fault {
    ghost use Rattle.std.specs.Prelude.{◌≡◌};
    ghost use Rattle.rank_input.specs.Input.{of_stations};

    ghost from_gives = { λ cause fault. fault ≡ of_stations cause };

    fn from(cause: StationsFault) -> Self {
        match cause {
            StationsFault::StationLine { line, why } => Fault::StationLine { line, why },
            StationsFault::TooManyStations => Fault::TooManyStations,
            StationsFault::Memory(memory) => Fault::Memory(memory),
        }
    }
}

impl From<DataFault> for Fault {
    ghost use Rattle.std.specs.Prelude.{◌≡◌};
    ghost use Rattle.rank_input.specs.Input.{of_data};

    ghost from_gives = { λ cause fault. fault ≡ of_data cause };

    fn from(cause: DataFault) -> Self {
        match cause {
            DataFault::TooManyFiles => Fault::TooManyFiles,
            DataFault::DailyLine { file, line, why } => Fault::DailyLine { file, line, why },
            DataFault::Memory(memory) => Fault::Memory(memory),
        }
    }
}
