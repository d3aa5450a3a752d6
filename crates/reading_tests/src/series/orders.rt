//! The same lines in several orders.

ghost use Rattle.std.specs.Prelude.{◌<◌};

use super::{A, B, read};
use crate::lines::line_of;
use ghcn_fields::Memory;
use ghcn_files::{Element, StationId};
use ghcn_series::{Data, DataFault, Series};
use std::alloc::Global;

/// The lines of two stations and two elements in the months of four years.
const LINES: usize = 192;

/// The digits of a number.
fn digits_of(number: usize) -> [u8; 4] {
    let mut digits = [b'0'; 4];
    let mut left = number;
    for at in 0..4 {
        digits[3 - at] = b'0' + (left % 10) as u8;
        left /= 10;
    }
    digits
}

/// The head of the line at a place: stations and elements change with each line, and months with every fourth.
fn head_at(place: usize) -> [u8; 21]
    requires { place < 192 }
{
    let station = if place % 2 == 0 { b'1' } else { b'2' };
    let element = if place % 4 < 2 { b"TMIN" } else { b"TMAX" };
    let year = digits_of(1969 + place / 48);
    let month = digits_of(1 + place / 4 % 12);
    let mut head = *b"ZZA00000000000000....";
    head[10] = station;
    for at in 0..4 {
        head[11 + at] = year[at];
        head[17 + at] = element[at];
    }
    head[15] = month[2];
    head[16] = month[3];
    head
}

/// The line at a place, whose value of a month's d-th day is 1000 more than d and 31 times the month's place.
fn line_at(place: usize) -> [u8; 269]
    requires { place < 192 }
{
    let mut line = line_of(&head_at(place), &[]);
    for day in 0..31 {
        let value = digits_of(1001 + place / 4 * 31 + day);
        line[21 + 8 * day] = b' ';
        line[22 + 8 * day..26 + 8 * day].copy_from_slice(&value);
    }
    line
}

/// The lines, each that many places after the one before it.
fn lines_by(alloc: Global, step: u8) -> Result<Vec<u8>, Memory> {
    let mut text = Vec::new(alloc);
    for turn in 0..LINES {
        text.extend_from_slice(&line_at(turn * usize::from(step) % LINES))?;
        text.push(b'\n')?;
    }
    Ok(text)
}

/// What they hold.
fn data_by(alloc: Global, step: u8) -> Result<Data, DataFault> {
    let text = lines_by(alloc, step).map_err(DataFault::Memory)?;
    read(alloc, &[&text])
}

/// Whether a series has each day from 1969 to 1972 with its value, as another has.
fn are_same(one: &Series, other: &Series) -> bool {
    let mut others = other.days();
    let mut number = -365;
    for (day, value) in one.days() {
        if others.next() != Some((day, value)) || day.number() != number {
            return false;
        }
        number = number.saturating_add(1);
    }
    others.next().is_none() && number == 1096
}

/// Whether both have the same series of a station and an element.
fn have_same(one: &Data, other: &Data, id: &StationId, element: Element) -> bool {
    match (one.series(id, element), other.series(id, element)) {
        (Some(one), Some(other)) => are_same(one, other),
        _ => false,
    }
}

/// Whether lines by this step hold what they hold in order.
fn holds_the_same(alloc: Global, step: u8) -> Result<[bool; 4], DataFault> {
    let ordered = data_by(alloc, 1)?;
    let data = data_by(alloc, step)?;
    Ok([
        have_same(&ordered, &data, &A, Element::Tmax),
        have_same(&ordered, &data, &A, Element::Tmin),
        have_same(&ordered, &data, &B, Element::Tmax),
        have_same(&ordered, &data, &B, Element::Tmin),
    ])
}

#[test]
fn whole_months_in_any_order(rt: HostRuntime) {
    // In order, backwards, and interleaved.
    for step in [1, 191, 5, 67, 101] {
        let found = holds_the_same(rt.alloc(), step);
        assert_eq!(rt; found, Ok([true; 4]), "by {step}");
    }
}
