//! How the stations of a list are kept.

ghost use Rattle.std.specs.Prelude.{◌≡◌, ◌++◌, length, slice_get, Ok, IfOk, IfErr, IfSome, IfNone};
ghost use Rattle.std.specs.List.{find};
ghost use Rattle.std.specs.Option.{option_copied};
ghost use Rattle.ghcn_files.specs.Meaning.Listed.{is_station_of};
ghost use Rattle.ghcn_files.specs.Listed.{AreListed, ListLines, place_of, listed};
ghost use Rattle.ghcn_files.specs.Listed.{is_memory, IsFirstRefusal, ListTogether, StayApart};
ghost use Rattle.ghcn_fields.specs.Refusals.{IsRefusal};

use crate::keys::{add_keys, keys_of, place_among, put_in_order};
use crate::listing::Listing;
use crate::reader::StationsReader;
use crate::{Station, StationId, StationsFault};
use ghcn_fields::Memory;
use std::alloc::Global;
use std::marker::Model;

/// The stations of a list, in its order: at most 2^20, and no ID twice.
#[derive(Drop)]
pub(crate) struct KeptStations {
    /// The first of the stations: all of them, unless lists were joined.
    list: Vec<Station>,
    /// Those after them. They stay where they were read, since to copy them costs more than to join their keys.
    rest: Vec<Station>,
    /// The keys of all IDs in their order, each beside its station's place in the list. An ID is searched among them.
    keys: Vec<(u64, u32, u32)>,
}

impl Model for KeptStations {
    ghost use Rattle.std.specs.Prelude.{List, ◌++◌};
    ghost use Rattle.ghcn_files.specs.declared.station.Station.{Station};
    ghost use Rattle.ghcn_files.specs.KeptStations.{AreOrdered};

    ghost Value = { List Station };

    ghost view = { λ s. s.list.items ++ s.rest.items };

    ghost invariant = { λ s. AreOrdered (s.list.items ++ s.rest.items) s.keys.items };
}

/// The most stations that a list may have.
pub(crate) const MOST_STATIONS: usize = 1 << 20;

impl KeptStations {
    /// Reads a station list, whose lines are those of the readme's `ghcnd-stations.txt`. Blank lines
    /// are skipped; the first line with an error decides.
    pub(crate) fn read(alloc: Global, text: &[u8]) -> Result<Self, StationsFault>
        ensures ok { IfOk result (λ stations. listed text.now ≡ Ok stations) }
        ensures err { IfErr result (λ fault. IsRefusal is_memory fault (listed text.now)) }
        ensures first { IfErr result (λ fault. IsFirstRefusal fault text.now) }
    {
        match Self::read_at_once(alloc, text) {
            Ok(Some(stations)) => Ok(stations),
            Ok(None) => Self::read_by_line(alloc, text),
            Err(memory) => Err(StationsFault::Memory(memory)),
        }
    }

    /// Reads a list without an error, or returns nothing if it has one.
    fn read_at_once(alloc: Global, text: &[u8]) -> Result<Option<Self>, Memory>
        ensures { IfOk result (λ read. IfSome read (λ stations. listed text.now ≡ Ok stations)) }
    {
        match StationsReader::new(alloc).with_lines(text)? {
            Some(reader) => Ok(Self::of_reader(alloc, reader)),
            None => Ok(None),
        }
    }

    /// Keeps the stations that a reader took, or returns nothing if two have one ID. The keys of all IDs are put in
    /// order once, after the last line.
    pub(crate) fn of_reader(alloc: Global, reader: StationsReader) -> Option<Self>
        ensures stations { IfSome result (λ stations. stations ≡ reader) }
        ensures listed { IfSome result ListLines }
        ensures repeated { IfNone result (AreListed reader → ⊥) }
    {
        let StationsReader { list, mut keys } = reader;
        if !put_in_order(&mut keys) {
            return None;
        }
        let rest = Vec::new(alloc);
        Some(KeptStations { list, rest, keys })
    }

    /// Reads a list line by line, so that the first error is found.
    fn read_by_line(alloc: Global, text: &[u8]) -> Result<Self, StationsFault>
        ensures ok { IfOk result (λ stations. listed text.now ≡ Ok stations) }
        ensures err { IfErr result (λ fault. IsRefusal is_memory fault (listed text.now)) }
        ensures first { IfErr result (λ fault. IsFirstRefusal fault text.now) }
    {
        let Listing { list, places: _ } = Listing::read(alloc, text)?;
        match Self::of_list(alloc, list) {
            Ok(stations) => Ok(stations),
            Err(memory) => Err(StationsFault::Memory(memory)),
        }
    }

    /// Keeps stations of which no two have one ID.
    fn of_list(alloc: Global, list: Vec<Station>) -> Result<Self, Memory>
        requires { AreListed list.items }
        ensures { IfOk result (λ stations. stations ≡ list.items) }
    {
        let mut keys = keys_of(alloc, &list)?;
        put_in_order(&mut keys);
        let rest = Vec::new(alloc);
        Ok(KeptStations { list, rest, keys })
    }

    /// The stations of a next list after these. Nothing if an ID is in both lists, or if they have more than 2^20
    /// stations together.
    pub(crate) fn join(self, next: Self) -> Result<Option<Self>, Memory>
        ensures joined { IfOk result (λ joined. IfSome joined (λ all. all ≡ self ++ next)) }
        ensures together { IfOk result (λ joined. IfSome joined (λ all. ListTogether self next all)) }
        ensures apart { IfOk result (λ joined. IfNone joined (StayApart self next)) }
    {
        let count = self.len();
        let others = next.len();
        if count + others > MOST_STATIONS as u64 {
            return Ok(None);
        }
        let KeptStations {
            list,
            rest,
            keys: mut both,
        } = self;
        let KeptStations {
            list: next_list,
            rest: next_rest,
            keys: next_keys,
        } = next;
        add_keys(&mut both, &next_keys, count as u32)?;
        if !put_in_order(&mut both) {
            return Ok(None);
        }
        let more = followed_by(rest, next_list)?;
        let rest = followed_by(more, next_rest)?;
        Ok(Some(KeptStations {
            list,
            rest,
            keys: both,
        }))
    }

    /// The same stations, with memory of their own.
    pub(crate) fn copy(&self, alloc: Global) -> Result<Self, Memory>
        ensures { IfOk result (λ other. other ≡ self.now) }
    {
        let mut list = Vec::new(alloc);
        list.extend_from_slice(&self.list)?;
        let mut rest = Vec::new(alloc);
        rest.extend_from_slice(&self.rest)?;
        let mut keys = Vec::new(alloc);
        keys.extend_from_slice(&self.keys)?;
        Ok(KeptStations { list, rest, keys })
    }

    /// How many stations are listed.
    pub(crate) fn len(&self) -> u64
        ensures number { result ≡ length self.now }
        ensures listed { AreListed self.now }
    {
        (self.list.len() + self.rest.len()) as u64
    }

    /// The station at a place in the list, from 0.
    pub(crate) fn at(&self, place: u64) -> Option<&Station>
        ensures { option_copied result ≡ slice_get self.now place }
    {
        let place = place as usize;
        if place < self.list.len() {
            return self.list.get(place);
        }
        self.rest.get(place - self.list.len())
    }

    /// The station with this ID.
    pub(crate) fn get(&self, id: &StationId) -> Option<&Station>
        ensures { option_copied result ≡ find (is_station_of id.now) self.now }
    {
        self.at(self.place(id)?)
    }

    /// The place in the list, from 0, of the station with this ID.
    pub(crate) fn place(&self, id: &StationId) -> Option<u64>
        ensures { result ≡ place_of self.now id.now }
    {
        let place = place_among(&self.list, &self.rest, &self.keys, id)?;
        Some(place as u64)
    }
}

/// Some stations and then others, which stay where they are if there are none before them.
fn followed_by(mut first: Vec<Station>, mut next: Vec<Station>) -> Result<Vec<Station>, Memory>
    ensures { IfOk result (λ all. all.items ≡ first.items ++ next.items) }
{
    if first.is_empty() {
        return Ok(next);
    }
    first.append(&mut next)?;
    Ok(first)
}
