//! Worked examples of station lists that are joined.

use super::lists::{Found, NOWHERE, at, four_of, list_of, many_stations};
use ghcn_files::Stations;
use std::alloc::Global;

/// The stations whose IDs and latitudes have these digits, in this order.
fn stations_of(alloc: Global, digits: &[u8]) -> Option<Stations> {
    let text = list_of(alloc, digits).ok()?;
    Stations::read(alloc, &text).ok()
}

/// What the digits from 1 to 4 find in two lists that are joined, if they can be.
fn found_in_both(alloc: Global, first: &[u8], next: &[u8]) -> Option<Option<[Found; 4]>> {
    let first = stations_of(alloc, first)?;
    let next = stations_of(alloc, next)?;
    match first.join(alloc, next).ok()? {
        Some(both) => Some(Some(four_of(&both))),
        None => Some(None),
    }
}

#[test]
fn two_lists(rt: HostRuntime) {
    let (one, two, three, four) = (100_000, 200_000, 300_000, 400_000);
    let in_turn = [at(0, one), at(1, two), at(2, three), at(3, four)];
    let turned = [at(2, one), at(3, two), at(0, three), at(1, four)];
    let mixed = [at(3, one), at(1, two), at(2, three), at(0, four)];
    let cases: [(&[u8], &[u8], Option<[Found; 4]>); 9] = [
        (b"", b"", Some([NOWHERE; 4])),
        (b"", b"1234", Some(in_turn)),
        (b"1234", b"", Some(in_turn)),
        (b"12", b"34", Some(in_turn)),
        (b"3", b"412", Some(turned)),
        (b"42", b"31", Some(mixed)),
        (b"12", b"23", None),
        (b"12", b"1", None),
        (b"143", b"24", None),
    ];
    for (first, next, expected) in cases {
        let found = found_in_both(rt.alloc(), first, next);
        assert_eq!(rt; found, Some(expected), "at {first:?} and {next:?}");
    }
}

/// What the digits find in three lists that are joined.
fn found_in_three(alloc: Global) -> Option<[Found; 4]> {
    let first = stations_of(alloc, b"4")?;
    let next = stations_of(alloc, b"13")?;
    let both = first.join(alloc, next).ok()??;
    let last = stations_of(alloc, b"2")?;
    let all = both.join(alloc, last).ok()??;
    Some(four_of(&all))
}

#[test]
fn three_lists(rt: HostRuntime) {
    let expected = [
        at(1, 100_000),
        at(3, 200_000),
        at(2, 300_000),
        at(0, 400_000),
    ];
    assert_eq!(rt; found_in_three(rt.alloc()), Some(expected));
}

/// What the digits find in two lists of which the first has another owner, and what they find there.
fn found_by_owners(alloc: Global) -> Option<([Found; 4], [Found; 4])> {
    let first = stations_of(alloc, b"13")?;
    let another = first.share().ok()?;
    let next = stations_of(alloc, b"24")?;
    let both = first.join(alloc, next).ok()??;
    Some((four_of(&both), four_of(&another)))
}

#[test]
fn a_list_with_another_owner(rt: HostRuntime) {
    let both = [
        at(0, 100_000),
        at(2, 200_000),
        at(1, 300_000),
        at(3, 400_000),
    ];
    let another = [at(0, 100_000), NOWHERE, at(1, 300_000), NOWHERE];
    assert_eq!(rt; found_by_owners(rt.alloc()), Some((both, another)));
}

/// How many stations a list of that many has with one more, if it can be joined.
fn count_with_one(alloc: Global, lines: u32) -> Option<Option<u64>> {
    let text = many_stations(alloc, lines).ok()?;
    let first = Stations::read(alloc, &text).ok()?;
    let next = stations_of(alloc, b"1")?;
    match first.join(alloc, next).ok()? {
        Some(both) => Some(Some(both.len())),
        None => Some(None),
    }
}

#[test]
fn as_many_stations_as_two_lists_may_have(rt: HostRuntime) {
    let full = count_with_one(rt.alloc(), 1_048_575);
    assert_eq!(rt; full, Some(Some(1_048_576)));
    assert_eq!(rt; count_with_one(rt.alloc(), 1_048_576), Some(None));
}
