//! Counts what is on the lines of daily files.

ghost use Rattle.std.specs.Prelude.{◌≡◌, ◌<◌, [], true, length, IfOk, IfNone, IfSome, OnOk};
ghost use Rattle.ghcn_files.specs.declared.element.Keep.{Keep};
ghost use Rattle.ghcn_files.specs.Elements.{everything};
ghost use Rattle.ghcn_files.specs.Flags.{flagged_values};
ghost use Rattle.ghcn_files.specs.Rows.{IsOfLine};
ghost use Rattle.ghcn_series.specs.LinesRead.{HasReadSome, HaveReadAlike, JoinsLines, ReadOneStation};
ghost use Rattle.ghcn_series.specs.Steps.{IsOfMonth, OfMonth};
ghost use Rattle.ghcn_description.specs.Describing.{HasDescribed, AddsMonth, CountsAt, Finishes};

use crate::counts::sum;
use crate::elements::{count_series, join_counts, join_marks, no_counts, place_of};
use crate::others::{Others, shown_code};
use crate::{Description, ElementCounts};
use ghcn_fields::Memory;
use ghcn_files::{Keep, MonthReader, MonthRow, Stations, flagged_values};
use ghcn_series::{DailyWhy, DataFault, JoinLines, LineCounts, LineReader, Reader};
use std::alloc::Global;

/// What was counted on the lines that were read so far.
#[derive(Drop)]
pub struct Describer {
    /// Notes the months that were read, and keeps no days.
    reader: Reader,
    /// Of each listed station, in their order, of which elements it has a usable day.
    with_days: Vec<[bool; 5]>,
    /// Of the five elements, in their order, all but the series.
    elements: [ElementCounts; 5],
    others: Others,
    /// How many lines of the five elements belong to stations that aren't listed.
    unlisted: u64,
}

/// Reads lines as rows, and counts what is on them. It keeps no values.
#[derive(Drop)]
pub struct RowDescriber {
    months: MonthReader,
    /// What was counted so far.
    describer: Describer,
}

impl LineReader for RowDescriber {
    ghost use Rattle.ghcn_description.specs.Describing.{HasDescribedByRows, MakesDescription};

    type Done = Description;

    ghost has_read = { HasDescribedByRows };

    ghost makes = { MakesDescription };

    fn new(alloc: Global, stations: Stations, _keep: Keep) -> Result<Self, Memory> {
        Ok(RowDescriber {
            months: MonthReader::new(),
            describer: Describer::new(alloc, stations)?,
        })
    }

    #[inline(always)]
    fn add(
        &mut self,
        alloc: Global,
        file: u64,
        line: u64,
        bytes: &[u8],
    ) -> Result<bool, DataFault> {
        match self.months.read(bytes, Keep::everything()) {
            Ok(true) => {}
            Ok(false) => {
                return match self.describer.others.add(shown_code(bytes), 1) {
                    Ok(()) => Ok(false),
                    Err(memory) => Err(DataFault::Memory(memory)),
                };
            }
            Err(why) => return Err(refused(file, line, DailyWhy::Line(why))),
        }
        match self.describer.add_month(alloc, bytes, self.months.row()) {
            Ok(true) => Ok(true),
            Ok(false) => Err(refused(file, line, DailyWhy::DuplicateMonth)),
            Err(memory) => Err(DataFault::Memory(memory)),
        }
    }

    fn finish(
        self,
        _alloc: Global,
        files: u64,
        counts: &LineCounts,
    ) -> Result<Description, Memory> {
        Ok(self.describer.finish(files, counts))
    }
}

impl JoinLines for RowDescriber {
    fn join(self, next: Self) -> Result<Option<Self>, Memory> {
        let Some(describer) = self.describer.join(next.describer)? else {
            return Ok(None);
        };
        Ok(Some(RowDescriber {
            months: self.months,
            describer,
        }))
    }
}

impl Describer {
    /// Nothing read yet.
    fn new(alloc: Global, stations: Stations) -> Result<Self, Memory>
        ensures { IfOk result (λ d. (keep : Keep) → HasDescribed d stations keep []) }
    {
        let count = stations.len() as usize;
        let mut with_days = Vec::with_capacity(alloc, count)?;
        for _ in 0..count {
            with_days.push([false; 5])?;
        }
        Ok(Describer {
            reader: Reader::new(alloc, stations, Keep::nothing())?,
            with_days,
            elements: no_counts(),
            others: Others::new(alloc),
            unlisted: 0,
        })
    }

    /// What was counted on the lines of this one and then on those of the next one. Or nothing, if a listed station has
    /// months in both.
    fn join(self, next: Self) -> Result<Option<Self>, Memory>
        requires { HaveReadAlike HasDescribed self next }
        ensures joined { IfOk result (λ both. IfSome both (JoinsLines HasDescribed self next)) }
        ensures apart { IfOk result (λ both. IfNone both (ReadOneStation HasDescribed self next)) }
    {
        let Some(reader) = self.reader.join(next.reader)? else {
            return Ok(None);
        };
        let mut with_days = self.with_days;
        join_marks(&mut with_days, &next.with_days);
        let mut elements = self.elements;
        join_counts(&mut elements, &next.elements)?;
        let mut others = self.others;
        others.join(&next.others)?;
        Ok(Some(Describer {
            reader,
            with_days,
            elements,
            others,
            unlisted: sum(self.unlisted, next.unlisted)?,
        }))
    }

    /// What that many files hold, of whose lines these are the counts.
    fn finish(self, files: u64, counts: &LineCounts) -> Description
        ensures { Finishes self files counts.now result }
    {
        let mut elements = self.elements;
        count_series(&mut elements, &self.with_days);
        let (others, further) = self.others.finish();
        Description {
            stations: self.with_days.len() as u64,
            files,
            lines: counts.lines,
            elements,
            others,
            further,
            unlisted: self.unlisted,
            blank: counts.blank,
            warnings: counts.warnings,
        }
    }

    /// Adds the month of a line, or returns false if its station is listed and has that month already.
    #[inline(always)]
    fn add_month(&mut self, alloc: Global, line: &[u8], row: &MonthRow) -> Result<bool, Memory>
        requires row { IsOfLine everything line.now row.now }
        requires read { HasReadSome HasDescribed self.old }
        ensures { IfOk result (AddsMonth self.old self.new line.now) }
    {
        let place = self.reader.place(&row.id);
        if !self.reader.add_month(alloc, row)? {
            return Ok(false);
        }
        match place {
            Some(place) => self.count(place, row, flagged_values(line, row))?,
            None => self.unlisted = sum(self.unlisted, 1)?,
        }
        Ok(true)
    }

    /// Counts a month of the station at a place of the list, with that many flagged values.
    fn count(&mut self, place: usize, row: &MonthRow, flagged: u32) -> Result<(), Memory>
        requires place { place < length self.old.with_days.items }
        requires right { IsOfMonth true row.now }
        ensures { OnOk result (OfMonth true row.now
            (λ m. flagged ≡ flagged_values m → CountsAt self.old self.new place m)) }
    {
        let at = place_of(row.element);
        self.with_days[place][at] |= row.word != 0;
        self.elements[at].add(row, flagged)?;
        Ok(())
    }
}

/// The error of a line.
fn refused(file: u64, line: u64, why: DailyWhy) -> DataFault
    ensures { result ≡ DataFault.DailyLine file line why }
{
    DataFault::DailyLine { file, line, why }
}
