//! Why parts are refused.

use ghcn_fields::Memory;
use ghcn_files::StationId;
use std::fmt;
use thiserror::Error;

/// The first error of parts, in their order, and then of all their lines together.
///
/// Parts and lines are counted from 1. The report and the certificate of a part first have to have their
/// formats. Then what they show without data is tested, in the order of the reasons below.
#[derive(Clone, Copy, Debug, PartialEq, Eq, Error)]
pub enum MergeFault {
    /// The line of the report doesn't match the format there.
    BadReport { part: u64, line: u64 },
    /// The line of the certificate doesn't match the format there.
    BadCertificate { part: u64, line: u64 },
    /// The report or the certificate has another query than the one that the caller passes.
    OtherQuery { part: u64 },
    /// The row before this line of the report doesn't precede it.
    OutOfOrder { part: u64, line: u64 },
    /// The k-th score of the certificate isn't that of the report's rows.
    OtherFloor { part: u64 },
    /// The ID on this line of the certificate isn't above the ID of the line before.
    NotRising { part: u64, line: u64 },
    /// The row on this line of the report doesn't belong to a series that was scanned.
    NotScanned { part: u64, line: u64 },
    /// The count on this line of the certificate isn't the number of the report's rows of its station.
    NotCounted { part: u64, line: u64 },
    /// The first station by ID that has two lines, in the certificates of two parts.
    Twice { id: StationId },
    /// Out of memory. It can come at any allocation, so it has no place in the order.
    Memory(Memory),
}

impl fmt::Display for MergeFault {
    ghost use Rattle.std.specs.Prelude.{Some};
    ghost use Rattle.rank_merge.specs.FaultTexts.{merge_fault_text};

    ghost output = { λ fault. Some (merge_fault_text fault) };

    fn fmt<W: fmt::Write>(&self, f: &mut fmt::Formatter<W>) -> fmt::Result {
        match self {
            MergeFault::BadReport { part, line } => {
                write!(f, "refused part {part} report line {line} BadReport")
            }
            MergeFault::BadCertificate { part, line } => {
                write!(
                    f,
                    "refused part {part} certificate line {line} BadCertificate"
                )
            }
            MergeFault::OtherQuery { part } => write!(f, "refused part {part} OtherQuery"),
            MergeFault::OutOfOrder { part, line } => {
                write!(f, "refused part {part} report line {line} OutOfOrder")
            }
            MergeFault::OtherFloor { part } => write!(f, "refused part {part} OtherFloor"),
            MergeFault::NotRising { part, line } => {
                write!(f, "refused part {part} certificate line {line} NotRising")
            }
            MergeFault::NotScanned { part, line } => {
                write!(f, "refused part {part} report line {line} NotScanned")
            }
            MergeFault::NotCounted { part, line } => {
                write!(f, "refused part {part} certificate line {line} NotCounted")
            }
            MergeFault::Twice { id } => {
                let Ok(id) = str::from_utf8(&id.0) else {
                    return Err(fmt::Error);
                };
                write!(f, "refused twice {id}")
            }
            MergeFault::Memory(memory) => write!(f, "{memory}"),
        }
    }
}

impl From<Memory> for MergeFault {
    ghost use Rattle.std.specs.Prelude.{◌≡◌};
    ghost use Rattle.rank_merge.specs.declared.fault.MergeFault.TheVariants as faults;

    ghost from_gives = { λ memory fault. fault ≡ faults.Memory memory };

    fn from(memory: Memory) -> Self {
        MergeFault::Memory(memory)
    }
}
