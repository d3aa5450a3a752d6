//! The keys of stations: their IDs as numbers, each beside its station's place in the list.

ghost use Rattle.std.specs.Prelude.{◌≡◌, ◌≤◌, ◌<◌, ◌+◌, ◌^◌, ◌++◌, ◌∷◌, [], All, IfOk, OnOk, length, map, true, false};
ghost use Rattle.std.specs.List.Sorted.{IsPermutation};
ghost use Rattle.std.specs.Ordering.{is_lt};
ghost use Rattle.ghcn_files.specs.StationLines.{id_of};
ghost use Rattle.ghcn_files.specs.Listed.{place_of};
ghost use Rattle.ghcn_files.specs.KeptStations.{AreEleven, AreOrdered, Rise, id_key, key_cmp, key_of};
ghost use Rattle.ghcn_files.specs.KeptStations.{Differ, key_with_place, keys_from, later};

use crate::{Station, StationId};
use ghcn_fields::Memory;
use std::alloc::Global;

/// The keys of stations, in the order of these.
pub(crate) fn keys_of(alloc: Global, list: &[Station]) -> Result<Vec<(u64, u32, u32)>, Memory>
    requires { length list.now ≤ 2 ^ 20 }
    ensures { IfOk result (λ keys. keys.items ≡ keys_from 0 list.now) }
{
    let mut keys = Vec::with_capacity(alloc, list.len())?;
    for station in list {
        push_key(&mut keys, station)?;
    }
    Ok(keys)
}

/// Puts the key of a station after those of the stations before it.
fn push_key(keys: &mut Vec<(u64, u32, u32)>, station: &Station) -> Result<(), Memory>
    requires { length keys.old.items < 2 ^ 20 }
    ensures { OnOk result (keys.new.items
        ≡ keys.old.items ++ key_with_place station.now.id (length keys.old.items) ∷ []) }
{
    let place = keys.len() as u32;
    let (front, back) = key(&station.id.0);
    keys.push((front, back, place))?;
    Ok(())
}

/// Puts the keys of a next list after those of a list that has that many stations.
pub(crate) fn add_keys(
    keys: &mut Vec<(u64, u32, u32)>,
    next: &[(u64, u32, u32)],
    count: u32,
) -> Result<(), Memory>
    requires { All (λ key. key.2 + count < 2 ^ 32) next.now }
    ensures { OnOk result (keys.new.items ≡ keys.old.items ++ map (later count) next.now) }
{
    keys.reserve(next.len())?;
    for key in next {
        keys.push((key.0, key.1, key.2 + count))?;
    }
    Ok(())
}

/// The place of an ID among stations whose keys are these, in order.
pub(crate) fn place_among(
    _list: &[Station],
    _rest: &[Station],
    keys: &[(u64, u32, u32)],
    id: &StationId,
) -> Option<usize>
    requires { AreOrdered (_list.now ++ _rest.now) keys.now }
    ensures { result ≡ place_of (_list.now ++ _rest.now) id.now }
{
    match keys.binary_search_by_key(&key(&id.0), |key| (key.0, key.1)) {
        Ok(found) => Some(keys[found].2 as usize),
        Err(_) => None,
    }
}

/// Puts keys in the order of their IDs, and returns whether no two have one ID.
pub(crate) fn put_in_order(keys: &mut Vec<(u64, u32, u32)>) -> bool
    ensures same { IsPermutation keys.old.items keys.new.items }
    ensures rise { result ≡ true → Rise keys.new.items }
    ensures fall { result ≡ false → Differ keys.old.items → ⊥ }
{
    if do_rise(keys) {
        return true;
    }
    keys.sort_unstable();
    do_rise(keys)
}

/// Whether each ID comes after that of the key before.
fn do_rise(keys: &[(u64, u32, u32)]) -> bool
    ensures rise { result ≡ true → Rise keys.now }
    ensures fall { result ≡ false → Rise keys.now → ⊥ }
{
    for place in 1..keys.len() {
        if !is_below(keys[place - 1], keys[place]) {
            return false;
        }
    }
    true
}

/// Whether a key's ID comes before another's.
#[inline(always)]
fn is_below(key: (u64, u32, u32), other: (u64, u32, u32)) -> bool
    ensures { result ≡ is_lt (key_cmp (id_key key) (id_key other)) }
{
    (key.0, key.1) < (other.0, other.1)
}

/// The key of the ID that a line begins with, read in the line itself.
#[inline(always)]
pub(crate) fn key_of_line(line: &[u8]) -> (u64, u32)
    requires { 11 ≤ length line.now }
    ensures key { result ≡ key_of (id_of line.now).0 }
    ensures bytes { AreEleven (id_of line.now).0 }
{
    key(line.first_chunk().unwrap())
}

/// The eleven bytes of an ID as the numbers of the first eight and of the last four, which are
/// compared in two steps.
pub(crate) fn key(id: &[u8; 11]) -> (u64, u32)
    ensures key { result ≡ key_of id.now }
    ensures bytes { AreEleven id.now }
{
    let front: [u8; 8] = *id.first_chunk().unwrap();
    let back: [u8; 4] = *id.last_chunk().unwrap();
    (u64::from_be_bytes(front), u32::from_be_bytes(back))
}
