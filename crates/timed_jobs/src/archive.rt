//! Archives: the daily files of stations, made one after another and passed to an intake.

ghost use Rattle.std.specs.Prelude.{◌<◌, OnOk};
ghost use Rattle.rank_input.specs.Takes.{HasTakenSome};

use crate::places::{Order, id_of, number_at};
use crate::random::Random;
use crate::weather::{Weather, front_of};
use ghcn_fields::Memory;
use ghcn_series::LineReader;
use rank_input::Intake;
use std::alloc::Global;

/// How many bytes of a file are passed at once.
const PIECE: usize = 1 << 16;

/// The elements of a line, by the kind of its station: rain alone, temperatures too, or all.
const RAIN: [usize; 1] = [2];

const RAIN_AND_TOTALS: [usize; 2] = [2, 7];

const WARMTH: [usize; 4] = [0, 1, 2, 5];

const ALL: [usize; 7] = [0, 1, 2, 3, 4, 5, 6];

/// Passes the daily files of that many stations, of which one in 64 isn't listed.
pub(crate) fn give_archive<L: LineReader>(
    alloc: Global,
    intake: &mut Intake<L>,
    weather: &mut Weather,
    random: &mut Random,
    stations: u32,
) -> Result<(), Memory>
    requires { HasTakenSome L.has_read intake.old }
    ensures { OnOk result (HasTakenSome L.has_read intake.new) }
{
    let mut file = Vec::new(alloc);
    for place in 0..stations {
        let bits = random.next();
        let unlisted = (bits % 64 / 63) as u32;
        let number = number_at(Order::Rising, place, stations).wrapping_add(unlisted);
        file.clear();
        fill(&mut file, weather, random, number, bits / 64)?;
        give(intake, &file);
    }
    Ok(())
}

/// Passes a daily file by pieces.
pub(crate) fn give<L: LineReader>(intake: &mut Intake<L>, file: &[u8])
    requires { HasTakenSome L.has_read intake.old }
    ensures { HasTakenSome L.has_read intake.new }
{
    let mut left = file;
    while let Some((piece, behind)) = left.split_at_checked(PIECE) {
        intake.piece(piece);
        left = behind;
    }
    intake.piece(left);
    intake.end_of_file();
}

/// Adds the lines of a station of a number below 2^21. Some bits say for how many years, 5 to 68, and
/// of which elements.
pub(crate) fn fill(
    file: &mut Vec<u8>,
    weather: &mut Weather,
    random: &mut Random,
    number: u32,
    bits: u64,
) -> Result<(), Memory> {
    let id = id_of(number);
    let years = 5 + (bits % 64) as u16;
    for year in 2021 - years..2021 {
        for month in 0..12 {
            // A month in 64 is missing.
            if random.next() % 64 != 0 {
                fill_month(file, weather, random, &id, year, month, bits / 64)?;
            }
        }
    }
    Ok(())
}

/// Adds the lines of a month, of elements that some bits choose.
fn fill_month(
    file: &mut Vec<u8>,
    weather: &mut Weather,
    random: &mut Random,
    id: &[u8; 11],
    year: u16,
    month: usize,
    bits: u64,
) -> Result<(), Memory>
    requires { month < 12 }
{
    let elements: &[usize] = match bits % 8 {
        0 => &RAIN,
        1 | 2 => &RAIN_AND_TOTALS,
        3 | 4 => &WARMTH,
        _ => &ALL,
    };
    let front = front_of(id, year, month);
    let mut drawn = random.next();
    for element in elements {
        weather.add_line(file, *element % 8, month, &front, drawn)?;
        drawn = drawn.rotate_right(9);
    }
    Ok(())
}
