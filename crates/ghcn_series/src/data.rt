//! The series of all listed stations, from the bytes of daily files.

ghost use Rattle.std.specs.Prelude.{◌≡◌, ◌<◌, ◌^◌, map, length, slice_get, Some, Ok, Err, IfOk, IfErr};
ghost use Rattle.std.specs.Option.{option_and_then, option_copied};
ghost use Rattle.ghcn_series.specs.Series.{series_of};
ghost use Rattle.ghcn_fields.specs.Refusals.{IsRefusal};
ghost use Rattle.ghcn_series.specs.DailyFaults.{is_memory, IsFirstRefusal};
ghost use Rattle.ghcn_series.specs.Says.{data_of};
ghost use Rattle.ghcn_series.specs.Held.{IsContents, AreByStation, contents_of};

use crate::by_place::SeriesByPlace;
use crate::cutter::Cutter;
use crate::rows::RowReader;
use crate::{DataFault, Series};
use ghcn_fields::Memory;
use ghcn_files::{Element, Keep, StationId, Stations};
use std::alloc::Global;
use std::marker::Model;

/// How many files are read at most.
pub(crate) const MOST_FILES: u64 = 1 << 20;

/// The series of all listed stations, and how many lines of other stations were skipped.
#[derive(Drop)]
pub struct Data {
    stations: Stations,
    series: SeriesByPlace,
    unlisted: u64,
}

impl Model for Data {
    ghost use Rattle.ghcn_series.specs.Series.{Data};
    ghost use Rattle.ghcn_series.specs.Held.{AreByStation, contents_of};

    ghost Value = { Data };

    ghost view = { λ d. contents_of d.stations d.series d.unlisted };

    ghost invariant = { λ d. AreByStation d.stations d.series };
}

impl Data {
    /// Reads daily files, in their order, or returns the first error: too many files come first,
    /// and then the first line with an error, by file and line. A line of a station that isn't
    /// listed is skipped.
    pub fn read(alloc: Global, stations: Stations, files: &[&[u8]]) -> Result<Self, DataFault>
        ensures ok { IfOk result (λ dataset. data_of stations (map (λ f. f.now) files.now) ≡ Ok dataset) }
        ensures err { IfErr result (λ fault.
            IsRefusal is_memory fault (data_of stations (map (λ f. f.now) files.now))) }
        ensures first { IfErr result (λ fault. IsFirstRefusal fault stations (map (λ f. f.now) files.now)) }
        ensures many { 2 ^ 20 < length files.now → result ≡ Err DataFault.TooManyFiles }
    {
        if files.len() as u64 > MOST_FILES {
            return Err(DataFault::TooManyFiles);
        }
        let mut cutter = Cutter::<RowReader>::new(alloc, stations, Keep::everything())?;
        for file in files {
            cutter.piece(file);
            cutter.end_of_file();
        }
        let (dataset, _warnings) = cutter.finish()?;
        Ok(dataset)
    }

    /// These series of the stations, which have one list each.
    pub(crate) fn of(stations: Stations, series: SeriesByPlace, unlisted: u64) -> Self
        requires { AreByStation stations series }
        ensures { result ≡ contents_of stations series unlisted }
    {
        Data {
            stations,
            series,
            unlisted,
        }
    }

    /// Holds the least and the greatest value of each block of 32 days beside its values, 8 bytes
    /// for each block, so that bounds of the series are found without a look at these. No series
    /// changes. If memory runs out, some series have them.
    pub fn hold_extremes(&mut self, alloc: Global) -> Result<(), Memory>
        ensures { self.new ≡ self.old }
    {
        self.series.hold_extremes(alloc)
    }

    /// The listed stations.
    pub fn stations(&self) -> &Stations
        ensures stations { result.now ≡ self.now.stations }
        ensures contents { IsContents self.now }
    {
        &self.stations
    }

    /// The series of a station and an element, if it has a usable day.
    pub fn series(&self, id: &StationId, element: Element) -> Option<&Series>
        ensures { option_copied result ≡ series_of self.now id.now element }
    {
        self.series_at(self.stations.place(id)?, element)
    }

    /// The series of an element and of the station at a place in the list, from 0, if it has a usable
    /// day.
    pub fn series_at(&self, place: u64, element: Element) -> Option<&Series>
        ensures { option_copied result
            ≡ option_and_then (λ s. series_of self.now s.id element) (slice_get self.now.stations place) }
    {
        self.series.at(place, element)
    }

    /// How many lines of the five elements were skipped, since their stations aren't listed.
    pub fn unlisted(&self) -> u64
        ensures { result ≡ self.now.unlisted }
    {
        self.unlisted
    }
}
