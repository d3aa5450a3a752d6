//! The listed stations, in the order of the list.

ghost use Rattle.std.specs.Prelude.{◌≡◌, ◌++◌, length, slice_get, Ok, IfOk, IfErr, IfSome, IfNone};
ghost use Rattle.std.specs.Arc.{arc_value};
ghost use Rattle.std.specs.List.{find};
ghost use Rattle.std.specs.Option.{option_copied};
ghost use Rattle.ghcn_files.specs.Meaning.Listed.{is_station_of};
ghost use Rattle.ghcn_files.specs.Listed.{AreListed, place_of, listed};
ghost use Rattle.ghcn_files.specs.Listed.{is_memory, IsFirstRefusal, ListTogether, StayApart};
ghost use Rattle.ghcn_fields.specs.Refusals.{IsRefusal};

use crate::kept::KeptStations;
use crate::{Station, StationId, StationsFault};
use ghcn_fields::Memory;
use std::alloc::Global;
use std::marker::Model;
use std::sync::Arc;

/// The stations of a list, in its order: at most 2^20, and no ID twice. Several owners, in any threads, can share them.
#[derive(Drop)]
pub struct Stations {
    kept: Arc<KeptStations, Global>,
}

impl Model for Stations {
    ghost use Rattle.std.specs.Prelude.{List};
    ghost use Rattle.std.specs.Arc.{arc_value};
    ghost use Rattle.ghcn_files.specs.declared.station.Station.{Station};

    ghost Value = { List Station };

    ghost view = { λ s. arc_value s.kept };
}

impl Stations {
    /// Reads a station list, whose lines are those of the readme's `ghcnd-stations.txt`. Blank lines
    /// are skipped; the first line with an error decides.
    pub fn read(alloc: Global, text: &[u8]) -> Result<Self, StationsFault>
        ensures ok { IfOk result (λ stations. listed text.now ≡ Ok stations) }
        ensures err { IfErr result (λ fault. IsRefusal is_memory fault (listed text.now)) }
        ensures first { IfErr result (λ fault. IsFirstRefusal fault text.now) }
    {
        let kept = KeptStations::read(alloc, text)?;
        match Self::of_kept(alloc, kept) {
            Ok(stations) => Ok(stations),
            Err(memory) => Err(StationsFault::Memory(memory)),
        }
    }

    /// The stations that are kept.
    pub(crate) fn of_kept(alloc: Global, kept: KeptStations) -> Result<Self, Memory>
        ensures { IfOk result (λ stations. stations ≡ kept) }
    {
        Ok(Stations {
            kept: Arc::new(alloc, kept)?,
        })
    }

    /// The same stations for another owner. Their memory is shared.
    pub fn share(&self) -> Result<Self, Memory>
        ensures { IfOk result (λ other. other ≡ self.now) }
    {
        Ok(Stations {
            kept: Arc::try_clone(&self.kept)?,
        })
    }

    /// The stations of this list, and then those of a next one. Nothing if an ID is in both lists, or if they have more
    /// than 2^20 stations together.
    ///
    /// If a text is cut after a line feed, the lists of its two parts make that of the whole.
    pub fn join(self, alloc: Global, next: Self) -> Result<Option<Self>, Memory>
        ensures joined { IfOk result (λ joined. IfSome joined (λ all. all ≡ self ++ next)) }
        ensures together { IfOk result (λ joined. IfSome joined (λ all. ListTogether self next all)) }
        ensures apart { IfOk result (λ joined. IfNone joined (StayApart self next)) }
    {
        let first = owned(alloc, self.kept)?;
        match first.join(owned(alloc, next.kept)?)? {
            Some(all) => Ok(Some(Self::of_kept(alloc, all)?)),
            None => Ok(None),
        }
    }

    /// How many stations are listed.
    pub fn len(&self) -> u64
        ensures number { result ≡ length self.now }
        ensures listed { AreListed self.now }
    {
        self.kept.len()
    }

    /// The station at a place in the list, from 0.
    pub fn at(&self, place: u64) -> Option<&Station>
        ensures { option_copied result ≡ slice_get self.now place }
    {
        self.kept.at(place)
    }

    /// The station with this ID.
    pub fn get(&self, id: &StationId) -> Option<&Station>
        ensures { option_copied result ≡ find (is_station_of id.now) self.now }
    {
        self.kept.get(id)
    }

    /// The place in the list, from 0, of the station with this ID.
    pub fn place(&self, id: &StationId) -> Option<u64>
        ensures { result ≡ place_of self.now id.now }
    {
        self.kept.place(id)
    }
}

/// Stations for one owner: a copy of them, if they have several.
fn owned(alloc: Global, kept: Arc<KeptStations, Global>) -> Result<KeptStations, Memory>
    ensures { IfOk result (λ own. own ≡ arc_value kept) }
{
    match Arc::try_unwrap(kept) {
        Ok(own) => Ok(own),
        Err(shared) => shared.copy(alloc),
    }
}
