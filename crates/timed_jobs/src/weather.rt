//! Lines of daily files as they are drawn: made once, and given their station and month later.

ghost use Rattle.std.specs.Prelude.{◌<◌};

use crate::random::Random;
use ghcn_fields::Memory;
use std::alloc::Global;

/// The bytes of a line, its line feed among them.
pub(crate) const LINE: usize = 270;

/// The bytes before the element: the ID, the year and the month.
pub(crate) const FRONT: usize = 17;

/// The elements of a line: five that are ranked, and three others.
pub(crate) const CODES: [[u8; 4]; 8] = [
    *b"TMAX", *b"TMIN", *b"PRCP", *b"SNOW", *b"SNWD", *b"TOBS", *b"WT01", *b"MDPR",
];

/// How many lines of one element and month are made.
const VARIANTS: usize = 8;

/// Tenths of a degree, by month.
const WARMTH: [i32; 12] = [-20, 10, 70, 140, 200, 250, 280, 270, 210, 140, 60, 0];

/// The days of each month; the 29th of February is always missing.
const DAYS: [usize; 12] = [31, 28, 31, 30, 31, 30, 31, 31, 30, 31, 30, 31];

const MONTHS: [[u8; 2]; 12] = [
    *b"01", *b"02", *b"03", *b"04", *b"05", *b"06", *b"07", *b"08", *b"09", *b"10", *b"11", *b"12",
];

/// A value that is rare, by element: the base of such.
const RARE: [i32; 8] = [330, -150, 600, 250, 700, 300, 1, 500];

/// By how much a rare value differs from its base, at each of 128 steps.
const STEPS: [i32; 8] = [1, -2, 9, 4, 9, 1, 0, 9];

/// Lines of each element and month.
#[derive(Drop)]
pub(crate) struct Weather {
    lines: Vec<[u8; LINE]>,
}

impl Weather {
    pub(crate) fn new(alloc: Global, random: &mut Random) -> Result<Self, Memory> {
        let mut lines = Vec::new(alloc);
        for element in 0..8_usize {
            for month in 0..12_usize {
                for _ in 0..VARIANTS {
                    lines.push(line_of(element, month, random))?;
                }
            }
        }
        Ok(Weather { lines })
    }

    /// Adds a line of an element and a month, from 0, with this front to a file. It is drawn by some bits; one in 16
    /// has a rare value.
    pub(crate) fn add_line(
        &mut self,
        file: &mut Vec<u8>,
        element: usize,
        month: usize,
        front: &[u8; FRONT],
        bits: u64,
    ) -> Result<(), Memory>
        requires element { element < 8 }
        requires month { month < 12 }
    {
        let place = (12 * element + month) * VARIANTS + (bits % 8) as usize;
        let Some(line) = self.lines.get_mut(place) else {
            return Ok(());
        };
        line[..FRONT].copy_from_slice(front);
        if bits / 8 % 16 == 0 {
            let steps = (bits / 128 % 128) as i32;
            let value = RARE[element].wrapping_add(STEPS[element].wrapping_mul(steps));
            return add_with(line, (bits / 16384 % 28) as usize, value, file);
        }
        file.extend_from_slice(line)?;
        Ok(())
    }

    /// Adds such a line whose values rise by one every four days, from eight times a number on. It stays so.
    pub(crate) fn add_rising(
        &mut self,
        file: &mut Vec<u8>,
        element: usize,
        month: usize,
        front: &[u8; FRONT],
        first: u32,
    ) -> Result<(), Memory>
        requires element { element < 8 }
        requires month { month < 12 }
    {
        let Some(line) = self.lines.get_mut((12 * element + month) * VARIANTS) else {
            return Ok(());
        };
        line[..FRONT].copy_from_slice(front);
        for day in 0..31_usize {
            put(line, day, (8 * (first % 12_000) + day as u32 / 4) as i32);
        }
        file.extend_from_slice(line)?;
        Ok(())
    }
}

/// What comes before the element on the lines of a station, a year and a month, from 0.
pub(crate) fn front_of(id: &[u8; 11], year: u16, month: usize) -> [u8; FRONT]
    requires { month < 12 }
{
    let mut front = [b' '; FRONT];
    front[..11].copy_from_slice(id);
    front[11..15].copy_from_slice(&year_text(year));
    front[15] = MONTHS[month][0];
    front[16] = MONTHS[month][1];
    front
}

/// Adds a line to a file, with a value of a day, from 0, that the line has there alone.
fn add_with(line: &mut [u8; LINE], day: usize, value: i32, file: &mut Vec<u8>) -> Result<(), Memory>
    requires { day < 31 }
{
    let from = 21 + 8 * day;
    let mut usual = [b' '; 5];
    usual.copy_from_slice(&line[from..from + 5]);
    put(line, day, value);
    file.extend_from_slice(line)?;
    line[from..from + 5].copy_from_slice(&usual);
    Ok(())
}

/// The four digits of a year.
pub(crate) fn year_text(year: u16) -> [u8; 4] {
    [
        digit(year as u32 / 1000),
        digit(year as u32 / 100),
        digit(year as u32 / 10),
        digit(year as u32),
    ]
}

/// The last digit of a number.
pub(crate) fn digit(number: u32) -> u8 {
    b'0' + (number % 10) as u8
}

/// A line of an element and a month, from 0, without station and year.
fn line_of(element: usize, month: usize, random: &mut Random) -> [u8; LINE]
    requires element { element < 8 }
    requires month { month < 12 }
{
    let mut line = [b' '; LINE];
    line[17..21].copy_from_slice(&CODES[element]);
    line[LINE - 1] = b'\n';
    let days = DAYS[month];
    for day in 0..31_usize {
        let bits = random.next();
        if day >= days || bits % 64 == 0 {
            put(&mut line, day, -9999);
        } else {
            put(&mut line, day, value_of(element, WARMTH[month], bits / 64));
            mark(&mut line, day, bits);
        }
    }
    line
}

/// A usual value of an element, in a month of this warmth.
fn value_of(element: usize, warmth: i32, bits: u64) -> i32
    requires { element < 8 }
{
    let spread = (bits % 128) as i32;
    let chance = bits / 128 % 8;
    match element {
        0 => WARMEST.min(warmth.wrapping_add(spread)),
        1 => WARMEST.min(warmth).wrapping_sub(spread),
        2 => if chance < 5 { 0 } else { spread * spread / 50 },
        3 | 4 => if chance < 7 || warmth > 100 {
            0
        } else {
            spread
        },
        5 => WARMEST.min(warmth),
        _ => 1,
    }
}

/// No usual value is above this one.
const WARMEST: i32 = 400;

/// Puts the value of a day, from 0, into its columns.
pub(crate) fn put(line: &mut [u8; LINE], day: usize, value: i32)
    requires { day < 31 }
{
    let from = 21 + 8 * day;
    line[from..from + 5].copy_from_slice(&field(value));
}

/// Puts the flags of a day, from 0: one in 128 failed a check.
fn mark(line: &mut [u8; LINE], day: usize, bits: u64)
    requires { day < 31 }
{
    let from = 21 + 8 * day;
    if bits / 65536 % 128 == 0 {
        line[from + 6] = b'S';
    }
    line[from + 7] = b'7';
}

/// A number of five columns: blanks, a minus if it is negative, digits.
fn field(value: i32) -> [u8; 5] {
    let size = value.unsigned_abs();
    let mut field = [
        digit(size / 10000),
        digit(size / 1000),
        digit(size / 100),
        digit(size / 10),
        digit(size),
    ];
    let mut front = 0;
    for place in 0..4 {
        if front == place && field[place] == b'0' {
            field[place] = b' ';
            front = place + 1;
        }
    }
    if value < 0 {
        if let Some(sign) = field.get_mut(front.wrapping_sub(1)) {
            *sign = b'-';
        }
    }
    field
}
