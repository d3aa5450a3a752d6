//! Why reports are refused.

use ghcn_fields::Memory;
use std::fmt;
use thiserror::Error;

/// The first error of files of reports. Files and lines are counted from 1.
///
/// First all files have to have the format of reports, in their order. Then the station of each row has to be in the
/// station list, if there is one.
#[derive(Clone, Copy, Debug, PartialEq, Eq, Error)]
pub enum TableFault {
    /// No reports go on with this line, or the file ends before it.
    BadReport { file: u64, line: u64 },
    /// The station of the row on this line isn't listed.
    NotListed { file: u64, line: u64 },
    /// Out of memory. It can come at any allocation, so it has no place in the order.
    Memory(Memory),
}

impl fmt::Display for TableFault {
    ghost use Rattle.std.specs.Prelude.{Some};
    ghost use Rattle.rank_table.specs.FaultTexts.{table_fault_text};

    ghost output = { λ fault. Some (table_fault_text fault) };

    fn fmt<W: fmt::Write>(&self, f: &mut fmt::Formatter<W>) -> fmt::Result {
        match self {
            TableFault::BadReport { file, line } => {
                write!(f, "refused file {file} line {line} BadReport")
            }
            TableFault::NotListed { file, line } => {
                write!(f, "refused file {file} line {line} NotListed")
            }
            TableFault::Memory(memory) => write!(f, "{memory}"),
        }
    }
}

impl From<Memory> for TableFault {
    ghost use Rattle.std.specs.Prelude.{◌≡◌};
    ghost use Rattle.rank_table.specs.declared.fault.TableFault.TheVariants as faults;

    ghost from_gives = { λ memory fault. fault ≡ faults.Memory memory };

    fn from(memory: Memory) -> Self {
        TableFault::Memory(memory)
    }
}
