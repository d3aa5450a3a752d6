//! Counts lines whose codes aren't those of the five elements.

ghost use Rattle.std.specs.Prelude.{◌≡◌, ◌<◌, ◌≤◌, ◌+◌, length, map, [], OnOk};
ghost use Rattle.std.specs.Cmp.Lexicographic.{slice_cmp};
ghost use Rattle.std.specs.Ordering.{nat_cmp};
ghost use Rattle.ghcn_fields.specs.Meaning.Lines.{columns};
ghost use Rattle.ghcn_description.specs.Described.{AreOthers};
ghost use Rattle.ghcn_description.specs.Lines.{shown};
ghost use Rattle.ghcn_description.specs.Steps.{HasCountedSome, CountsCode, JoinsCodes, IsPlaceOf, KeepsMost};

use crate::CodeCount;
use crate::counts::sum;
use ghcn_fields::Memory;
use std::alloc::Global;
use std::cmp::Ordering;

/// How many codes are named at most.
const MOST_CODES: usize = 200;

/// The columns, from 0, of a line's code.
const CODE: usize = 17;

/// The smallest codes that were found, with their numbers of lines.
#[derive(Drop)]
pub(crate) struct Others {
    /// By increasing bytes.
    counts: Vec<CodeCount>,
    /// How many lines have a code after those.
    further: u64,
}

impl Others {
    /// No line yet.
    pub(crate) fn new(alloc: Global) -> Self
        ensures { AreOthers [] result.counts.items result.further }
    {
        Others {
            counts: Vec::new(alloc),
            further: 0,
        }
    }

    /// Adds some lines of a code.
    pub(crate) fn add(&mut self, code: [u8; 4], lines: u64) -> Result<(), Memory>
        requires some { 0 < lines }
        requires counted { HasCountedSome self.old }
        ensures { OnOk result (CountsCode self.old self.new code lines) }
    {
        match self
            .counts
            .binary_search_by(|count| order(&count.code, &code))
        {
            Ok(place) => {
                self.counts[place].lines = sum(self.counts[place].lines, lines)?;
                Ok(())
            }
            Err(place) => self.add_new(place, code, lines),
        }
    }

    /// Adds some lines of a code that isn't among the others, and belongs at a place.
    fn add_new(&mut self, place: usize, code: [u8; 4], lines: u64) -> Result<(), Memory>
        requires some { 0 < lines }
        requires place { IsPlaceOf code self.old.counts.items place }
        ensures { OnOk result (CountsCode self.old self.new code lines) }
    {
        self.counts.insert(place, CodeCount { code, lines })?;
        self.trim()
    }

    /// Counts the lines of the last code as further ones, if more codes are named than may be.
    fn trim(&mut self) -> Result<(), Memory>
        ensures { OnOk result (KeepsMost self.old self.new) }
    {
        if self.counts.len() <= MOST_CODES {
            return Ok(());
        }
        match self.counts.pop() {
            Some(last) => self.pass_over(last.lines),
            None => Ok(()),
        }
    }

    /// Counts that many lines whose code isn't named.
    fn pass_over(&mut self, lines: u64) -> Result<(), Memory>
        ensures further { OnOk result (self.new.further ≡ self.old.further + lines) }
        ensures counts { self.new.counts ≡ self.old.counts }
    {
        self.further = sum(self.further, lines)?;
        Ok(())
    }

    /// Adds what was counted on other lines.
    pub(crate) fn join(&mut self, next: &Others) -> Result<(), Memory>
        requires counted { HasCountedSome self.old }
        requires next { HasCountedSome next.now }
        ensures { OnOk result (JoinsCodes self.old next.now self.new) }
    {
        for count in &next.counts {
            self.add(count.code, count.lines)?;
        }
        self.pass_over(next.further)
    }

    /// The codes with their numbers of lines, and how many lines have a code after those.
    pub(crate) fn finish(self) -> (Vec<CodeCount>, u64)
        ensures counts { result.0 ≡ self.counts }
        ensures further { result.1 ≡ self.further }
    {
        (self.counts, self.further)
    }
}

/// The order of two codes by their bytes: that of the numbers that these write, the first byte as the highest.
fn order(code: &[u8; 4], other: &[u8; 4]) -> Ordering
    ensures { result ≡ slice_cmp nat_cmp code.now other.now }
{
    u32::from_be_bytes(*code).cmp(&u32::from_be_bytes(*other))
}

/// The code of a line of at least 21 columns, with `?` for each byte that can't be seen.
pub(crate) fn shown_code(line: &[u8]) -> [u8; 4]
    requires { 21 ≤ length line.now }
    ensures { result ≡ map shown (columns 18 21 line.now) }
{
    let mut code = [b' '; 4];
    code.copy_from_slice(&line[CODE..CODE + 4]);
    make_visible(&mut code);
    code
}

/// Puts a question mark for each byte that can't be seen.
fn make_visible(text: &mut [u8])
    ensures { text.new ≡ map shown text.old }
{
    for byte in text {
        *byte = visible(*byte);
    }
}

/// The byte, or a question mark if it can't be seen.
fn visible(byte: u8) -> u8
    ensures { result ≡ shown byte }
{
    if byte.is_ascii_graphic() { byte } else { b'?' }
}
