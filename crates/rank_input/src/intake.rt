//! A station list and daily files, taken piece by piece.

ghost use Rattle.std.specs.Prelude.{◌≡◌, ◌+◌, ℕ, List, [], Ok, IfOk, IfErr, IfSome, IfNone};
ghost use Rattle.std.specs.Result.{result_transpose};
ghost use Rattle.ghcn_files.specs.Listed.{listed};
ghost use Rattle.ghcn_series.specs.Says.{in_64_bits};
ghost use Rattle.rank_input.specs.Lists.{IsListText};
ghost use Rattle.rank_input.specs.Takes.{FileInput, file_input};
ghost use Rattle.rank_input.specs.Takes.{HasTaken, HasTakenSome, IsRead, TakesBytes, TakesFileEnd};
ghost use Rattle.rank_input.specs.Takes.{MakesTaken, RefusesTaken};
ghost use Rattle.rank_input.specs.Takes.{WereGivenAlike, JoinsFiles, StayApart};
ghost use Rattle.rank_input.specs.Takes.{AreReadAlike, JoinsReadings, AreApart};

use crate::fault::Fault;
use crate::list::{ListForm, StationList};
use ghcn_fields::Memory;
use ghcn_files::{Keep, Stations};
use ghcn_series::{Cutter, JoinLines, LineReader};
use std::alloc::Global;

/// What was given so far of a station list and daily files, for a reader of lines. It never returns an error while it
/// is given more: the first one is kept, what comes after it is taken and skipped, and the end returns it.
#[derive(Drop)]
pub struct Intake<L> {
    /// How many bytes of daily files came, or 2^64 - 1 if there are more.
    pub bytes: u64,
    /// Cuts the daily files into lines for the listed stations; or the error before these files.
    read: Result<Cutter<L>, Fault>,
}

impl<L: LineReader> Intake<L> {
    /// Takes the whole station list; no byte of a daily file came yet, so `bytes` is 0. The values of a set of elements
    /// are kept. An error of the list is kept, and reported at the end.
    pub fn new(alloc: Global, stations: &[u8], keep: Keep) -> Self
        ensures taken { HasTaken L.has_read result (file_input keep stations.now []) }
        ensures going { HasTakenSome L.has_read result }
    {
        Intake {
            bytes: 0,
            read: open(alloc, stations, keep),
        }
    }

    /// Takes the stations of a list that was read; no byte of a daily file came yet, so `bytes` is 0. The values of a
    /// set of elements are kept.
    pub(crate) fn over(alloc: Global, stations: Stations, keep: Keep) -> Self
        ensures { (text : List ℕ) → listed text ≡ Ok stations → HasTaken L.has_read result (file_input keep text []) }
    {
        Intake {
            bytes: 0,
            read: open_over(alloc, stations, keep),
        }
    }

    /// Takes a station list that was read; no byte of a daily file came yet, so `bytes` is 0. The values of a set of
    /// elements are kept. An error of the list is kept, and reported at the end.
    pub(crate) fn of_list(alloc: Global, list: &StationList, keep: Keep) -> Self
        ensures taken { (text : List ℕ) → IsListText list.now text
            → HasTaken L.has_read result (file_input keep text []) }
        ensures going { HasTakenSome L.has_read result }
    {
        match &list.form {
            ListForm::Text(text) => Self::new(alloc, text, keep),
            ListForm::Stations(stations) => match stations.share() {
                Ok(stations) => Self::over(alloc, stations, keep),
                Err(_) => Self::closed(),
            },
        }
    }

    /// Reads nothing, as if memory had run out, whatever it is given; `bytes` is 0 at first, and counts what it is
    /// given.
    pub(crate) fn closed() -> Self
        ensures taken { (s : FileInput) → HasTaken L.has_read result s }
    {
        Intake {
            bytes: 0,
            read: Err(Fault::Memory(Memory)),
        }
    }

    /// Takes more bytes of the current daily file.
    pub fn piece(&mut self, bytes: &[u8])
        requires { HasTakenSome L.has_read self.old }
        ensures taken { TakesBytes L.has_read self.old self.new bytes.now }
        ensures going { HasTakenSome L.has_read self.new }
    {
        self.bytes = self.bytes.saturating_add(bytes.len() as u64);
        if let Ok(cutter) = &mut self.read {
            cutter.piece(bytes);
        }
    }

    /// Ends the current daily file, even if it is empty.
    pub fn end_of_file(&mut self)
        requires { HasTakenSome L.has_read self.old }
        ensures taken { TakesFileEnd L.has_read self.old self.new }
        ensures going { HasTakenSome L.has_read self.new }
    {
        if let Ok(cutter) = &mut self.read {
            cutter.end_of_file();
        }
    }

    /// What the reader makes of all files that were given, or the first error in the order: stations, number of daily
    /// files, files and lines in order. The current file is ended if it has a byte.
    pub fn finish(self) -> Result<L::Done, Fault>
        requires { HasTakenSome L.has_read self }
        ensures ok { IfOk result (MakesTaken L.has_read L.makes self) }
        ensures err { IfErr result (RefusesTaken L.has_read self) }
    {
        let cutter = self.read?;
        Ok(cutter.finish()?)
    }
}

impl<L: JoinLines> Intake<L> {
    /// One intake in place of two: it was given the station list and the daily files of this one, and then the daily
    /// files of the next one, of which the first goes on with the current file of this one. Or none, if the daily files
    /// of one of the two have an error or are too many, if those of this one end within a line, if a listed station has
    /// months in both, or if the file that goes on has a part that is foreign by itself.
    pub fn join(self, next: Self) -> Option<Self>
        requires { WereGivenAlike L.has_read self next }
        ensures joined { IfSome result (JoinsFiles L.has_read self next) }
        ensures going { IfSome result (HasTakenSome L.has_read) }
        ensures bytes { IfSome result (λ both. both.bytes ≡ in_64_bits (self.bytes + next.bytes)) }
        ensures apart { IfNone result (StayApart L.has_read self next) }
    {
        Some(Intake {
            bytes: self.bytes.saturating_add(next.bytes),
            read: joined(self.read, next.read).transpose()?,
        })
    }
}

/// One cutter in place of two, or none if they stay apart; or the error before the daily files.
fn joined<L: JoinLines>(
    first: Result<Cutter<L>, Fault>,
    next: Result<Cutter<L>, Fault>,
) -> Result<Option<Cutter<L>>, Fault>
    requires { AreReadAlike (IsRead L.has_read) first next }
    ensures joined { IfSome (result_transpose result) (JoinsReadings (IsRead L.has_read) first next) }
    ensures apart { IfNone (result_transpose result) (AreApart L.has_read first next) }
{
    let cutter = first?;
    let other = next?;
    Ok(cutter.join(other)?)
}

/// Cuts daily files into lines for the listed stations.
fn open<L: LineReader>(alloc: Global, stations: &[u8], keep: Keep) -> Result<Cutter<L>, Fault>
    ensures { IsRead L.has_read result (file_input keep stations.now []) }
{
    let stations = Stations::read(alloc, stations)?;
    open_over(alloc, stations, keep)
}

/// Cuts daily files into lines for the stations of a list.
fn open_over<L: LineReader>(
    alloc: Global,
    stations: Stations,
    keep: Keep,
) -> Result<Cutter<L>, Fault>
    ensures { (text : List ℕ) → listed text ≡ Ok stations → IsRead L.has_read result (file_input keep text []) }
{
    Ok(Cutter::<L>::new(alloc, stations, keep)?)
}
