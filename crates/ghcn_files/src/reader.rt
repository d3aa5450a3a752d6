//! A station list that is read part by part.

ghost use Rattle.std.specs.Prelude.{◌≡◌, ◌≤◌, ◌<◌, ◌^◌, ◌++◌, ◌∷◌, [], length, IfOk, IfSome, IfNone, OnOk, true, false};
ghost use Rattle.ghcn_files.specs.StationLines.{id_of, numbers_of, station_of};
ghost use Rattle.ghcn_files.specs.Listed.{AreListed, AreRefusedAfter, FollowLines, ListLines};
ghost use Rattle.ghcn_files.specs.KeptStations.{IsAdded, IsRefusedLine, key_with_place};

use crate::kept::{KeptStations, MOST_STATIONS};
use crate::keys::key_of_line;
use crate::station::Numbers;
use crate::{Station, Stations};
use ghcn_fields::{Memory, is_blank, lines};
use std::alloc::Global;
use std::marker::Model;

/// The columns of a line up to the last one that is read.
const READ_COLUMNS: usize = 71;

/// The stations of the lines that were taken so far, in their order. No line had an error by itself.
#[derive(Drop)]
pub struct StationsReader {
    pub(crate) list: Vec<Station>,
    /// The keys of their IDs, in the same order.
    pub(crate) keys: Vec<(u64, u32, u32)>,
}

impl Model for StationsReader {
    ghost use Rattle.std.specs.Prelude.{List};
    ghost use Rattle.ghcn_files.specs.declared.station.Station.{Station};
    ghost use Rattle.ghcn_files.specs.KeptStations.{AreTaken};

    ghost Value = { List Station };

    ghost view = { λ r. r.list.items };

    ghost invariant = { λ r. AreTaken r.list.items r.keys.items };
}

impl StationsReader {
    /// No line was taken yet.
    pub fn new(alloc: Global) -> Self
        ensures { result ≡ [] }
    {
        StationsReader {
            list: Vec::new(alloc),
            keys: Vec::new(alloc),
        }
    }

    /// Takes more lines of a list, after the whole lines that were taken before. Nothing if one of them has an error by
    /// itself, or if there are more than 2^20 stations then.
    pub fn with_lines(self, text: &[u8]) -> Result<Option<Self>, Memory>
        ensures taken { IfOk result (λ read. IfSome read (FollowLines self text.now)) }
        ensures refused { IfOk result (λ read. IfNone read (AreRefusedAfter self text.now)) }
    {
        let StationsReader { mut list, mut keys } = self;
        for (_, line) in lines(text) {
            // A blank line has an error by itself, and is found so.
            if !add(&mut list, &mut keys, line)? && !is_blank(line) {
                return Ok(None);
            }
        }
        Ok(Some(StationsReader { list, keys }))
    }

    /// The listed stations, or nothing if two of them have one ID.
    pub fn finish(self, alloc: Global) -> Result<Option<Stations>, Memory>
        ensures stations { IfOk result (λ read. IfSome read (λ stations. stations ≡ self)) }
        ensures listed { IfOk result (λ read. IfSome read ListLines) }
        ensures repeated { IfOk result (λ read. IfNone read (AreListed self → ⊥)) }
    {
        match KeptStations::of_reader(alloc, self) {
            Some(kept) => Ok(Some(Stations::of_kept(alloc, kept)?)),
            None => Ok(None),
        }
    }
}

/// Adds the station of a line and its key, or returns false if the line has an error by itself or there is no room.
/// If the line has all columns that are read, the compiler knows so, and no place in it is tested again.
#[inline(always)]
fn add(
    list: &mut Vec<Station>,
    keys: &mut Vec<(u64, u32, u32)>,
    line: &[u8],
) -> Result<bool, Memory>
    ensures added { IfOk result (λ added. added ≡ true →
        IsAdded line.now list.old.items keys.old.items list.new.items keys.new.items) }
    ensures refused { IfOk result (λ added. added ≡ false → IsRefusedLine line.now list.old.items) }
    ensures list { IfOk result (λ added. added ≡ false → list.new.items ≡ list.old.items) }
    ensures keys { IfOk result (λ added. added ≡ false → keys.new.items ≡ keys.old.items) }
{
    if line.len() < READ_COLUMNS {
        return add_short(list, keys, line);
    }
    add_line(list, keys, line)
}

/// The same of a line that lacks some of these columns.
#[inline(never)]
fn add_short(
    list: &mut Vec<Station>,
    keys: &mut Vec<(u64, u32, u32)>,
    line: &[u8],
) -> Result<bool, Memory>
    ensures added { IfOk result (λ added. added ≡ true →
        IsAdded line.now list.old.items keys.old.items list.new.items keys.new.items) }
    ensures refused { IfOk result (λ added. added ≡ false → IsRefusedLine line.now list.old.items) }
    ensures list { IfOk result (λ added. added ≡ false → list.new.items ≡ list.old.items) }
    ensures keys { IfOk result (λ added. added ≡ false → keys.new.items ≡ keys.old.items) }
{
    add_line(list, keys, line)
}

/// The same of any line.
#[inline(always)]
fn add_line(
    list: &mut Vec<Station>,
    keys: &mut Vec<(u64, u32, u32)>,
    line: &[u8],
) -> Result<bool, Memory>
    ensures added { IfOk result (λ added. added ≡ true →
        IsAdded line.now list.old.items keys.old.items list.new.items keys.new.items) }
    ensures refused { IfOk result (λ added. added ≡ false → IsRefusedLine line.now list.old.items) }
    ensures list { IfOk result (λ added. added ≡ false → list.new.items ≡ list.old.items) }
    ensures keys { IfOk result (λ added. added ≡ false → keys.new.items ≡ keys.old.items) }
{
    let Ok(numbers) = Numbers::of_line(line) else {
        return Ok(false);
    };
    if list.len() >= MOST_STATIONS {
        return Ok(false);
    }
    push(list, keys, line, numbers)?;
    Ok(true)
}

/// Puts the station of a line after the others, and its key after theirs. It is made once there is room for it, and
/// so in the place in which it is kept.
#[inline(always)]
fn push(
    list: &mut Vec<Station>,
    keys: &mut Vec<(u64, u32, u32)>,
    line: &[u8],
    numbers: Numbers,
) -> Result<(), Memory>
    requires numbers { numbers ≡ numbers_of line.now }
    requires long { 11 ≤ length line.now }
    requires room { length list.old.items < 2 ^ 20 }
    ensures list { OnOk result (list.new.items ≡ list.old.items ++ station_of line.now ∷ []) }
    ensures keys { OnOk result (keys.new.items
        ≡ keys.old.items ++ key_with_place (id_of line.now) (length list.old.items) ∷ []) }
{
    let place = list.len() as u32;
    list.reserve(1)?;
    keys.reserve(1)?;
    list.push_reserved(Station::of_numbers(line, numbers));
    let (front, back) = key_of_line(line);
    keys.push_reserved((front, back, place));
    Ok(())
}
