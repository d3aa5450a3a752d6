//! Stations: their IDs, and lists of them.

ghost use Rattle.std.specs.Prelude.{◌<◌};

use crate::random::Random;
use crate::weather::digit;
use ghcn_fields::Memory;
use std::alloc::Global;

/// How the IDs of a list follow one another.
#[derive(Clone, Copy)]
pub(crate) enum Order {
    /// They rise, as NOAA's do.
    Rising,
    /// In no order.
    Mixed,
}

/// A line of a station list, its line feed among it.
const LINE: [u8; 86] =
    *b"ZZZ00000000  00.0000 -000.0000  000.0 NY STATION OF SOME NAME           GSN     72503\n";

/// The ID of a number below a million. IDs rise with their numbers.
pub(crate) fn id_of(number: u32) -> [u8; 11] {
    let front = if number < 300_000 {
        *b"ASN00"
    } else if number < 600_000 {
        *b"GME00"
    } else {
        *b"USC00"
    };
    [
        front[0],
        front[1],
        front[2],
        front[3],
        front[4],
        digit(number / 100_000),
        digit(number / 10_000),
        digit(number / 1000),
        digit(number / 100),
        digit(number / 10),
        digit(number),
    ]
}

/// The number of the station at a place of a list of at most that many.
pub(crate) fn number_at(order: Order, place: u32, count: u32) -> u32 {
    match order {
        Order::Rising => {
            let step = 1_000_000 / count.max(1);
            (place as u64 * step as u64 % 1_000_000) as u32
        }
        // No two places below a million have one number, since neither 2 nor 5 divides the factor.
        Order::Mixed => (place as u64 * 387_421 % 1_000_000) as u32,
    }
}

/// A list of that many stations.
pub(crate) fn station_list(
    alloc: Global,
    random: &mut Random,
    order: Order,
    count: u32,
) -> Result<Vec<u8>, Memory> {
    let mut list = Vec::new(alloc);
    for place in 0..count {
        let line = station_line(number_at(order, place, count), random.next());
        list.extend_from_slice(&line)?;
    }
    Ok(list)
}

/// The line of the station of a number, which lies if some bits say.
fn station_line(number: u32, bits: u64) -> [u8; 86] {
    let mut line = LINE;
    line[..11].copy_from_slice(&id_of(number));
    for place in 0..2_usize {
        line[13 + place] = octal(bits, place);
        line[23 + place] = octal(bits, place + 2);
        line[32 + place] = octal(bits, place + 4);
    }
    for place in 0..4_usize {
        line[16 + place] = octal(bits, place + 6);
        line[26 + place] = octal(bits, place + 10);
    }
    line[53] = b'A' + (bits / 2_199_023_255_552 % 16) as u8;
    line
}

/// The digit at a place of some bits, three bits each.
fn octal(bits: u64, place: usize) -> u8
    requires { place < 20 }
{
    b'0' + (bits >> (3 * place as u32) & 7) as u8
}
