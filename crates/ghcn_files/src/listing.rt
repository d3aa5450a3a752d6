//! A station list that is read line by line, with a map of its IDs. A list with an error is read so, since each
//! line is put to all tests before the next one.

ghost use Rattle.std.specs.Prelude.{◌≡◌, ◌≤◌, ◌<◌, ◌^◌, ◌++◌, ◌∷◌, [], None, IsTrue, length, Ok, IfOk};
ghost use Rattle.std.specs.Prelude.{OnOk, OnErr, IfErr, is_some};
ghost use Rattle.ghcn_files.specs.StationLines.{id_of, is_station, numbers_of, station_of};
ghost use Rattle.ghcn_files.specs.Listed.{place_of, listed, is_memory, IsFirstRefusal};
ghost use Rattle.ghcn_files.specs.KeptStations.{AddsStation, AreKept, IsRefusedFor};
ghost use Rattle.ghcn_fields.specs.Refusals.{IsRefusal};

use crate::kept::MOST_STATIONS;
use crate::keys::key_of_line;
use crate::station::Numbers;
use crate::{Station, StationWhy, StationsFault};
use ghcn_fields::{Memory, is_blank, lines};
use std::alloc::Global;
use std::collections::BTreeMap;
use std::marker::Model;

/// The stations of the lines that were read, and the place of each ID in the list, by the ID's key. An ordered map
/// has no IDs that make its look-ups slow.
#[derive(Drop)]
pub(crate) struct Listing {
    pub(crate) list: Vec<Station>,
    pub(crate) places: BTreeMap<(u64, u32), usize>,
}

impl Model for Listing {
    ghost use Rattle.std.specs.Prelude.{List};
    ghost use Rattle.ghcn_files.specs.declared.station.Station.{Station};
    ghost use Rattle.ghcn_files.specs.KeptStations.{AreKept};

    ghost Value = { List Station };

    ghost view = { λ s. s.list.items };

    ghost invariant = { λ s. AreKept s.list.items s.places.entries };
}

impl Listing {
    /// Reads a station list; the first line with an error decides.
    #[inline(never)]
    pub(crate) fn read(alloc: Global, text: &[u8]) -> Result<Self, StationsFault>
        ensures ok { IfOk result (λ listing. listed text.now ≡ Ok listing) }
        ensures err { IfErr result (λ fault. IsRefusal is_memory fault (listed text.now)) }
        ensures first { IfErr result (λ fault. IsFirstRefusal fault text.now) }
    {
        let mut listing = Listing {
            list: Vec::new(alloc),
            places: BTreeMap::new(alloc),
        };
        for (number, line) in lines(text) {
            if !is_blank(line) {
                listing.add(number, line)?;
            }
        }
        Ok(listing)
    }

    /// Whether a station has the ID of a line.
    fn is_listed(&self, line: &[u8]) -> bool
        requires { 11 ≤ length line.now }
        ensures { result ≡ is_some (place_of self.now (id_of line.now)) }
    {
        self.places.get(&key_of_line(line)).is_some()
    }

    /// Adds the station of a line to those of the lines before it, unless it has an error after them.
    fn add(&mut self, number: u64, line: &[u8]) -> Result<(), StationsFault>
        ensures ok { OnOk result (AddsStation self.old (number, line.now) self.new) }
        ensures err { IfErr result (λ fault. IsRefusedFor fault self.old (number, line.now)) }
    {
        let numbers = match Numbers::of_line(line) {
            Ok(numbers) => numbers,
            Err(why) => return Err(StationsFault::StationLine { line: number, why }),
        };
        if self.is_listed(line) {
            return Err(StationsFault::StationLine {
                line: number,
                why: StationWhy::Duplicate,
            });
        }
        if self.list.len() >= MOST_STATIONS {
            return Err(StationsFault::TooManyStations);
        }
        match self.push(line, numbers) {
            Ok(()) => Ok(()),
            Err(memory) => Err(StationsFault::Memory(memory)),
        }
    }

    /// Puts the station of a line after the others, whose ID none of them has.
    fn push(&mut self, line: &[u8], numbers: Numbers) -> Result<(), Memory>
        requires numbers { numbers ≡ numbers_of line.now }
        requires long { 11 ≤ length line.now }
        requires new { place_of self.old (id_of line.now) ≡ None }
        requires room { length self.old < 2 ^ 20 }
        requires right { IsTrue (is_station (station_of line.now)) }
        ensures { OnOk result (self.new ≡ self.old ++ station_of line.now ∷ []) }
    {
        push_with_place(&mut self.list, &mut self.places, line, numbers)
    }
}

/// Puts the station of a line after the others, whose ID none of them has, and its place beside theirs.
fn push_with_place(
    list: &mut Vec<Station>,
    places: &mut BTreeMap<(u64, u32), usize>,
    line: &[u8],
    numbers: Numbers,
) -> Result<(), Memory>
    requires numbers { numbers ≡ numbers_of line.now }
    requires long { 11 ≤ length line.now }
    requires kept { AreKept list.old.items places.old.entries }
    requires new { place_of list.old.items (id_of line.now) ≡ None }
    requires room { length list.old.items < 2 ^ 20 }
    requires right { IsTrue (is_station (station_of line.now)) }
    ensures kept { AreKept list.new.items places.new.entries }
    ensures ok { OnOk result (list.new.items ≡ list.old.items ++ station_of line.now ∷ []) }
    ensures err { OnErr result (list.new.items ≡ list.old.items) }
{
    let place = list.len();
    list.push(Station::of_numbers(line, numbers))?;
    match places.insert(key_of_line(line), place) {
        Ok(_) => Ok(()),
        Err(_) => {
            list.pop();
            Err(Memory)
        }
    }
}
