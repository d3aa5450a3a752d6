//! Reads the lines of daily files as rows, and adds these.

use crate::counts::{LineCounts, Warnings};
use crate::cutter::{JoinLines, LineReader};
use crate::reader::{Reader, refused};
use crate::{DailyWhy, Data, DataFault};
use ghcn_fields::Memory;
use ghcn_files::{Keep, MonthReader, Stations};
use std::alloc::Global;

/// Reads lines as a `Reader` does by itself, and reads what several lines have in common once.
#[derive(Drop)]
pub struct RowReader {
    months: MonthReader,
    /// What was read so far.
    reader: Reader,
}

impl LineReader for RowReader {
    ghost use Rattle.ghcn_series.specs.Gathered.{HasReadByRows};
    ghost use Rattle.ghcn_series.specs.Kept.{HoldFiles};

    type Done = (Data, Warnings);

    ghost has_read = { HasReadByRows };

    ghost makes = { HoldFiles };

    fn new(alloc: Global, stations: Stations, keep: Keep) -> Result<Self, Memory> {
        Ok(RowReader {
            months: MonthReader::new(),
            reader: Reader::new(alloc, stations, keep)?,
        })
    }

    #[inline(always)]
    fn add(
        &mut self,
        alloc: Global,
        file: u64,
        line: u64,
        bytes: &[u8],
    ) -> Result<bool, DataFault> {
        match self.months.read(bytes, self.reader.keep) {
            Ok(true) => {}
            Ok(false) => return Ok(false),
            Err(why) => return Err(refused(file, line, DailyWhy::Line(why))),
        }
        match self.reader.add_month(alloc, self.months.row()) {
            Ok(true) => Ok(true),
            Ok(false) => Err(refused(file, line, DailyWhy::DuplicateMonth)),
            Err(memory) => Err(DataFault::Memory(memory)),
        }
    }

    fn finish(
        self,
        alloc: Global,
        files: u64,
        counts: &LineCounts,
    ) -> Result<(Data, Warnings), Memory> {
        self.reader.finish(alloc, files, counts)
    }
}

impl JoinLines for RowReader {
    fn join(self, next: Self) -> Result<Option<Self>, Memory> {
        let Some(reader) = self.reader.join(next.reader)? else {
            return Ok(None);
        };
        Ok(Some(RowReader {
            months: self.months,
            reader,
        }))
    }
}
