//! Stations: what one line of the station list says, as the readme lays it out.
//!
//! ```text
//!   1-11  ID               32-37  elevation, in metres
//!  13-20  latitude         39-40  state
//!  22-30  longitude        42-71  name
//! ```

ghost use Rattle.std.specs.Prelude.{◌≡◌, ◌∷◌, ◌≤◌, ◌+◌, ◌-◌, ◌≤ℤ◌, pos, neg_ℤ, int_le, ◌&&◌, Some, None, length};
ghost use Rattle.std.specs.Prelude.{map, if◌then◌else◌, take, IfOk, OnOk, IfErr};
ghost use Rattle.std.specs.List.{list_all};
ghost use Rattle.std.proofs.Common.{refl, rules};
ghost use Rattle.std.specs.Cmp.{on_po, unsigned_po};
ghost use Rattle.std.specs.Cmp.Rules.{comparing};
ghost use Rattle.std.specs.Cmp.Lexicographic.{lists_agrees, lists_po, slice_cmp, slice_partial_cmp};
ghost use Rattle.std.specs.Ordering.{nat_cmp, on};
ghost use Rattle.ghcn_fields.specs.Meaning.Bytes.{blank_byte};
ghost use Rattle.ghcn_fields.specs.Meaning.Lines as lines;
ghost use Rattle.ghcn_fields.specs.Numbers as numbers;
ghost use Rattle.ghcn_files.specs.Meaning.Ids.{is_visible, same_id};
ghost use Rattle.ghcn_files.specs.Ids.{is_id};
ghost use Rattle.ghcn_files.specs.StationLines.{id_of, line_why, number_within, numbers_of, station_of};
ghost use Rattle.ghcn_files.specs.Meaning.StationLines as stations;

use crate::StationWhy;
use crate::columns::{columns, columns_filled, columns_in};
use crate::keys::key;
use crate::missing::{is_bad, unless_missing};
use ghcn_fields::{Field, eleven_are_visible, four_places_field, tenths_field};
use std::cmp::Ordering;

/// The columns up to the longitude's last: what follows may be left out.
const LEAST_COLUMNS: usize = 30;

/// 90 degrees, in ten-thousandths.
const MOST_NORTH: i32 = 900_000;

/// 180 degrees, in ten-thousandths.
const MOST_EAST: i32 = 1_800_000;

/// The eleven bytes that name a station, of which the first two are its country's code.
#[derive(Clone, Copy, Debug, PartialEq, Eq, Hash)]
pub struct StationId(pub [u8; 11]);

impl Ord for StationId {
    ghost cmp = { on (λ id. id.0) (slice_cmp nat_cmp) };

    ghost total = { Prim.search (comparing, rules) };

    ghost matches_partial_cmp = { λ x y. lists_agrees (λ a b. refl) x.0 y.0 };

    ghost matches_eq = { Prim.search (comparing, rules) };

    /// The order by bytes, by at most two comparisons.
    #[inline]
    fn cmp(&self, other: &Self) -> Ordering {
        let (front, back) = key(&self.0);
        let (other_front, other_back) = key(&other.0);
        front.cmp(&other_front).then(back.cmp(&other_back))
    }
}

impl PartialOrd for StationId {
    ghost partial_cmp = { on (λ id. id.0) (slice_partial_cmp (λ x y. Some (nat_cmp x y))) };

    ghost laws = { on_po (λ id. id.0) (lists_po unsigned_po) };

    #[inline]
    fn partial_cmp(&self, other: &Self) -> Option<Ordering> {
        Some(self.cmp(other))
    }
}

impl StationId {
    /// Whether both have the same eleven bytes, by two comparisons.
    pub fn is_same(&self, other: &Self) -> bool
        ensures { result ≡ same_id self.now other.now }
    {
        let (front, back) = key(&self.0);
        let (other_front, other_back) = key(&other.0);
        front == other_front && back == other_back
    }

    /// The ID that a line begins with, unless one of its bytes doesn't show in print.
    pub(crate) fn of_line(line: &[u8]) -> Option<Self>
        requires { 11 ≤ length line.now }
        ensures { result ≡ (if is_id (lines.columns 1 11 line.now) then Some (id_of line.now) else None) }
    {
        let id = line.first_chunk()?;
        if begins_visibly(line) {
            Some(StationId(*id))
        } else {
            None
        }
    }
}

/// Whether the eleven bytes that a line begins with show in print. They are tested with the five after them.
fn begins_visibly(line: &[u8]) -> bool
    requires { 11 ≤ length line.now }
    ensures { result ≡ list_all is_visible (take 11 line.now) }
{
    match line.first_chunk() {
        Some(front) => eleven_are_visible(front),
        None => are_visible(&line[..11]),
    }
}

/// A line of the station list.
#[derive(Clone, Copy, Debug)]
pub struct Station {
    pub id: StationId,
    /// In ten-thousandths of a degree, from -900000 to 900000.
    pub latitude: i32,
    /// In ten-thousandths of a degree, from -1800000 to 1800000.
    pub longitude: i32,
    /// In tenths of a metre, or nothing if it is missing.
    pub elevation: Option<i32>,
    /// The code of its state, or blanks: two bytes from 32 to 126.
    pub state: [u8; 2],
    /// Its name, filled up with blanks: thirty bytes from 32 to 126.
    pub name: [u8; 30],
}

/// What a line of the station list says in numbers.
#[derive(Clone, Copy)]
pub(crate) struct Numbers {
    latitude: i32,
    longitude: i32,
    elevation: Option<i32>,
}

impl Numbers {
    /// The numbers of a station's line, or the first test that the line fails by itself.
    ///
    /// The readme's line has 85 columns; that a line may end after column 30, and that an elevation
    /// may be blank, is this project's own leniency.
    #[inline(always)]
    pub(crate) fn of_line(line: &[u8]) -> Result<Self, StationWhy>
        ensures right { IfOk result (λ numbers. numbers ≡ numbers_of line.now) }
        ensures ok { OnOk result (line_why line.now ≡ None) }
        ensures err { IfErr result (λ why. line_why line.now ≡ Some why) }
    {
        if line.len() < LEAST_COLUMNS {
            return Err(StationWhy::Short);
        }
        let Some(_) = StationId::of_line(line) else {
            return Err(StationWhy::BadId);
        };
        let Some(latitude) = degrees(MOST_NORTH, &after_blank(columns(line, 13))) else {
            return Err(StationWhy::BadLatitude);
        };
        let Some(longitude) = degrees(MOST_EAST, &columns(line, 22)) else {
            return Err(StationWhy::BadLongitude);
        };
        let elevation = tenths_field(&columns(line, 32));
        if is_bad(elevation) {
            return Err(StationWhy::BadElevation);
        }
        Ok(Numbers {
            latitude,
            longitude,
            elevation: unless_missing(elevation),
        })
    }
}

impl Station {
    /// The station of a line that says these numbers. It is built into its callers, so that the line's bytes are
    /// copied once, to where the station is kept.
    #[inline(always)]
    pub(crate) fn of_numbers(line: &[u8], numbers: Numbers) -> Self
        requires { numbers ≡ numbers_of line.now }
        ensures { result ≡ station_of line.now }
    {
        Station {
            latitude: numbers.latitude,
            longitude: numbers.longitude,
            elevation: numbers.elevation,
            state: printable_columns(line, 39),
            name: printable_columns(line, 42),
            id: StationId(columns(line, 1)),
        }
    }
}

/// Eight columns after a blank.
#[inline(always)]
fn after_blank(columns: [u8; 8]) -> [u8; 9]
    ensures { result ≡ blank_byte ∷ columns }
{
    let [a, b, c, d, e, f, g, h] = columns;
    [b' ', a, b, c, d, e, f, g, h]
}

/// The ten-thousandths of a degree of a field, if it has a number at most a limit away from 0.
#[inline(always)]
fn degrees(limit: i32, field: &[u8; 9]) -> Option<i32>
    requires { pos 0 ≤ℤ limit }
    ensures { result ≡ number_within (neg_ℤ limit) limit (numbers.scaled_field 4 field.now) }
{
    match four_places_field(field) {
        Field::Number(number) if is_within(limit, number) => Some(number),
        _ => None,
    }
}

/// Whether a number is at most a limit away from 0.
fn is_within(limit: i32, number: i32) -> bool
    requires { pos 0 ≤ℤ limit }
    ensures { result ≡ (int_le (neg_ℤ limit) number && int_le number limit) }
{
    -limit <= number && number <= limit
}

/// That many columns of a line from one on, with a question mark for each byte that can't be printed. Those that a line
/// has are read in the line itself.
#[inline(always)]
fn printable_columns<const N: usize>(line: &[u8], from: usize) -> [u8; N]
    requires { 1 ≤ from }
    ensures { result ≡ map stations.printable (lines.columns from (from + N - 1) line.now) }
{
    match columns_in(line, from) {
        Some(found) => printable_text(*found),
        None => printable_text(columns_filled(line, from)),
    }
}

/// A text with a question mark for each byte that can't be printed.
#[inline(always)]
fn printable_text<const N: usize>(text: [u8; N]) -> [u8; N]
    ensures { result ≡ map stations.printable text.entry }
{
    let mut printed = text;
    make_printable(&mut printed);
    printed
}

/// Puts a question mark for each byte that can't be printed.
fn make_printable(text: &mut [u8])
    ensures { text.new ≡ map stations.printable text.old }
{
    for byte in text {
        *byte = printable(*byte);
    }
}

/// The byte, or a question mark if it can't be printed.
fn printable(byte: u8) -> u8
    ensures { result ≡ stations.printable byte }
{
    if byte < b' ' || byte > b'~' {
        return b'?';
    }
    byte
}

/// Whether each byte shows in print, from `!` to `~`.
pub fn are_visible(bytes: &[u8]) -> bool
    ensures { result ≡ list_all is_visible bytes.now }
{
    bytes.iter().all(|byte| byte.is_ascii_graphic())
}
