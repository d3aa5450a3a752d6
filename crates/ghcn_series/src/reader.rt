//! Reads the lines of daily files one after another.

ghost use Rattle.std.specs.Prelude.{◌≡◌, IfOk};
ghost use Rattle.ghcn_files.specs.Elements.{is_kept};
ghost use Rattle.ghcn_files.specs.Listed.{AreListed, place_of};
ghost use Rattle.ghcn_series.specs.Steps.{HasSomeLines, ReadsMonth, HoldsAll, IsForMonth, ForMonth};

use crate::counts::{LineCounts, Warnings};
use crate::cutter::{JoinLines, LineReader};
use crate::gatherings::Gatherings;
use crate::{DailyWhy, Data, DataFault};
use ghcn_fields::Memory;
use ghcn_files::{Keep, MonthRow, StationId, Stations, read_days};
use std::alloc::Global;

/// What was read so far.
#[derive(Drop)]
pub struct Reader {
    /// Of which elements the days are kept.
    pub(crate) keep: Keep,
    stations: Stations,
    /// What was read of each of these stations.
    gathered: Gatherings,
    /// How many months of stations that aren't listed were skipped.
    unlisted: u64,
}

impl LineReader for Reader {
    ghost use Rattle.ghcn_series.specs.Gathered.{HasReadFor};
    ghost use Rattle.ghcn_series.specs.Kept.{HoldFiles};

    /// What is kept of all lines, and what a run warns of.
    type Done = (Data, Warnings);

    ghost has_read = { HasReadFor };

    ghost makes = { HoldFiles };

    fn new(alloc: Global, stations: Stations, keep: Keep) -> Result<Self, Memory> {
        let gathered = Gatherings::new(alloc, &stations)?;
        Ok(Reader {
            keep,
            stations,
            gathered,
            unlisted: 0,
        })
    }

    fn add(
        &mut self,
        alloc: Global,
        file: u64,
        line: u64,
        bytes: &[u8],
    ) -> Result<bool, DataFault> {
        let row = match read_days(bytes, self.keep) {
            Ok(Some(row)) => row,
            Ok(None) => return Ok(false),
            Err(why) => return Err(refused(file, line, DailyWhy::Line(why))),
        };
        match self.add_month(alloc, &row) {
            Ok(true) => Ok(true),
            Ok(false) => Err(refused(file, line, DailyWhy::DuplicateMonth)),
            Err(memory) => Err(DataFault::Memory(memory)),
        }
    }

    fn finish(
        self,
        alloc: Global,
        files: u64,
        counts: &LineCounts,
    ) -> Result<(Data, Warnings), Memory> {
        let data = self.into_data(alloc)?;
        Ok((data, counts.warnings))
    }
}

impl JoinLines for Reader {
    fn join(mut self, next: Self) -> Result<Option<Self>, Memory> {
        let is_joined = self.gathered.join(next.gathered)?;
        if !is_joined {
            return Ok(None);
        }
        self.unlisted = self.unlisted.saturating_add(next.unlisted);
        Ok(Some(self))
    }
}

impl Reader {
    /// The data of all lines that were read.
    fn into_data(self, alloc: Global) -> Result<Data, Memory>
        requires { HasSomeLines self }
        ensures { IfOk result (HoldsAll self) }
    {
        let Reader {
            stations,
            gathered,
            unlisted,
            ..
        } = self;
        let series = gathered.into_series(alloc, &stations)?;
        Ok(Data::of(stations, series, unlisted))
    }

    /// Adds a month, or returns false if its station is listed and has that month already. Its days are read if
    /// they are kept.
    #[inline(always)]
    pub fn add_month(&mut self, alloc: Global, row: &MonthRow) -> Result<bool, Memory>
        requires right { IsForMonth (is_kept self.old.keep row.now.element) row.now }
        requires read { HasSomeLines self.old }
        ensures keep { self.new.keep ≡ self.old.keep }
        ensures stations { self.new.stations ≡ self.old.stations }
        ensures added { IfOk result (λ added. ForMonth (is_kept self.old.keep row.now.element) row.now
            (λ m. ReadsMonth self.old self.new m added)) }
    {
        match self.place(&row.id) {
            Some(place) => self.gathered.add(alloc, place, row, self.keep),
            None => {
                self.unlisted = self.unlisted.saturating_add(1);
                Ok(true)
            }
        }
    }

    /// The place of a station in the list, from 0.
    pub fn place(&self, id: &StationId) -> Option<usize>
        requires { AreListed self.now.stations }
        ensures { result ≡ place_of self.now.stations id.now }
    {
        let last = self.gathered.last();
        match self.stations.at(last as u64) {
            Some(station) if station.id.is_same(id) => Some(last),
            _ => {
                let place = self.stations.place(id)?;
                Some(place as usize)
            }
        }
    }
}

/// The error of a line.
pub(crate) fn refused(file: u64, line: u64, why: DailyWhy) -> DataFault
    ensures { result ≡ DataFault.DailyLine file line why }
{
    DataFault::DailyLine { file, line, why }
}
