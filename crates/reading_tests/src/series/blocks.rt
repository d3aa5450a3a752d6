//! The blocks of 32 days that a series lends.

use super::{A, counts_in, read};
use crate::lines::line_of;
use ghcn_files::Element;
use ghcn_series::{Block as Near, Data, DataFault, Series};
use std::alloc::Global;

/// A block: its number, its word, and its values by their places.
type Block = (i32, u32, [(usize, i32); 3]);

/// Whether this is what a series lends of a block.
fn is_block(found: Option<(u32, &[i32; 32])>, block: &Block) -> bool {
    let (_, word, values) = block;
    let mut row = [0; 32];
    for (place, value) in values {
        if *place < 32 {
            row[*place] = *value;
        }
    }
    match found {
        Some((found, days)) => found == *word && *days == row,
        None => *word == 0,
    }
}

/// Whether this is what a series lends of a block, with its least and its greatest value.
fn is_block_near(found: Option<Near<'_>>, block: &Block) -> bool {
    let (_, _, [(_, first), (_, second), (_, third)]) = *block;
    match found {
        Some(found) => {
            is_block(Some((found.word(), found.values())), block)
                && found.greatest() == first.max(second).max(third)
                && found.least() == first.min(second).min(third)
        }
        None => is_block(None, block),
    }
}

/// The first block of a table that the series lacks, wherever it is looked for first.
fn first_wrong_block(series: &Series, blocks: &[Block]) -> Option<i32> {
    for (at, block) in blocks.iter().enumerate() {
        let (number, _, _) = *block;
        let near = series.block_near(at, number);
        if !is_block(series.block(number), block) || !is_block_near(near, block) {
            return Some(number);
        }
    }
    None
}

/// The first number of a table from which the next block isn't this one.
fn first_wrong_next(series: &Series, cases: &[(i32, Option<i32>)]) -> Option<i32> {
    for (from, expected) in cases {
        if series.next_block(*from) != *expected {
            return Some(*from);
        }
    }
    None
}

/// The first row of each table that the first station's highest temperatures don't meet.
type Wrong = Option<(Option<i32>, Option<i32>)>;

/// What is wrong by the tables.
fn wrong_in(data: &Data, blocks: &[Block], nexts: &[(i32, Option<i32>)]) -> Wrong {
    match data.series(&A, Element::Tmax) {
        Some(series) => Some((
            first_wrong_block(series, blocks),
            first_wrong_next(series, nexts),
        )),
        None => None,
    }
}

/// What is wrong by the tables before extremes are held, and after that.
fn wrong_blocks(
    alloc: Global,
    files: &[&[u8]],
    blocks: &[Block],
    nexts: &[(i32, Option<i32>)],
) -> Result<(Wrong, Wrong), DataFault> {
    let mut data = read(alloc, files)?;
    let before = wrong_in(&data, blocks, nexts);
    data.hold_extremes(alloc)?;
    Ok((before, wrong_in(&data, blocks, nexts)))
}

/// The blocks that the lines below have, and some that they lack.
const BLOCKS: [Block; 12] = [
    (-22_475, 0, [(0, 0); 3]),
    (-22_474, 1 << 6, [(6, 101), (6, 101), (6, 101)]),
    (-22_473, 1, [(0, 127), (0, 127), (0, 127)]),
    (-2, 0, [(0, 0); 3]),
    (-1, 3 << 30, [(30, -2), (31, -1), (31, -1)]),
    (0, 1, [(0, 7), (0, 7), (0, 7)]),
    (575, 0, [(0, 0); 3]),
    (576, 3 << 11, [(11, 299), (12, 311), (12, 311)]),
    (577, 1 << 10, [(10, 305), (10, 305), (10, 305)]),
    (91_652, 1 << 31, [(31, 120), (31, 120), (31, 120)]),
    (91_653, 1, [(0, 121), (0, 121), (0, 121)]),
    (91_654, 0, [(0, 0); 3]),
];

/// The next block of theirs from some numbers on.
const NEXTS: [(i32, Option<i32>); 10] = [
    (i32::MIN, Some(-22_474)),
    (-22_473, Some(-22_473)),
    (-22_472, Some(-1)),
    (-1, Some(-1)),
    (1, Some(576)),
    (576, Some(576)),
    (577, Some(577)),
    (578, Some(91_652)),
    (91_654, None),
    (i32::MAX, None),
];

#[test]
fn blocks_of_a_series(rt: HostRuntime) {
    let lines: [&[u8]; 6] = [
        &line_of(
            b"ZZA00000001202007TMAX",
            &[(1, b"  311   "), (31, b"  305   ")],
        ),
        &line_of(b"ZZA00000001202006TMAX", &[(30, b"  299   ")]),
        &line_of(b"ZZA00000001197001TMAX", &[(1, b"    7   ")]),
        &line_of(
            b"ZZA00000001196912TMAX",
            &[(30, b"   -2   "), (31, b"   -1   ")],
        ),
        &line_of(
            b"ZZA00000001999912TMAX",
            &[(30, b"  120   "), (31, b"  121   ")],
        ),
        &line_of(
            b"ZZA00000001000101TMAX",
            &[(1, b"  101   "), (27, b"  127   ")],
        ),
    ];
    let found = wrong_blocks(rt.alloc(), &lines, &BLOCKS, &NEXTS);
    assert_eq!(rt; found, Ok((Some((None, None)), Some((None, None)))));
    let ends = (A, Element::Tmax, -719_162, 2_932_896);
    assert_eq!(rt; counts_in(rt.alloc(), &lines), Ok(Some((ends, 2, 0))));
}
