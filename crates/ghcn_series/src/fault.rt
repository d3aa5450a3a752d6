//! Why daily files are refused.

use ghcn_fields::Memory;
use ghcn_files::LineWhy;
use std::fmt;
use thiserror::Error;

/// Why a line of a daily file is refused.
#[derive(Clone, Copy, Debug, PartialEq, Eq, Error)]
pub enum DailyWhy {
    /// The line fails a test by itself.
    Line(LineWhy),
    /// An earlier line has the same listed ID, element, year and month.
    DuplicateMonth,
}

impl fmt::Display for DailyWhy {
    ghost use Rattle.std.specs.Prelude.{Some};
    ghost use Rattle.ghcn_series.specs.FaultTexts.{daily_why_text};

    ghost output = { λ why. Some (daily_why_text why) };

    fn fmt<W: fmt::Write>(&self, f: &mut fmt::Formatter<W>) -> fmt::Result {
        match self {
            DailyWhy::Line(why) => write!(f, "{why}"),
            DailyWhy::DuplicateMonth => f.write_str("DuplicateMonth"),
        }
    }
}

/// Why the daily files are refused: too many files come first, and then the first line with an
/// error decides, by file and line.
#[derive(Clone, Copy, Debug, PartialEq, Eq, Error)]
pub enum DataFault {
    /// There are more than 2^20 files.
    TooManyFiles,
    /// The error of the first line with one; files and lines count from 1.
    DailyLine { file: u64, line: u64, why: DailyWhy },
    /// Out of memory. It can come at any allocation, so it has no place in the order.
    Memory(#[from] Memory),
}

impl fmt::Display for DataFault {
    ghost use Rattle.std.specs.Prelude.{Some};
    ghost use Rattle.ghcn_series.specs.FaultTexts.{data_fault_text};

    ghost output = { λ fault. Some (data_fault_text fault) };

    fn fmt<W: fmt::Write>(&self, f: &mut fmt::Formatter<W>) -> fmt::Result {
        match self {
            DataFault::TooManyFiles => f.write_str("refused 6 TooManyFiles"),
            DataFault::DailyLine { file, line, why } => {
                write!(f, "refused 5 DailyLine file {file} line {line} {why}")
            }
            DataFault::Memory(memory) => write!(f, "{memory}"),
        }
    }
}
