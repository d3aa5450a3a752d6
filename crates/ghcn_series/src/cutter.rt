//! Cuts daily files that come in pieces into lines, for a reader of lines.

ghost use Rattle.std.specs.Prelude.{◌≡◌, [], ◌++◌, ◌^◌, ◌<◌, ◌≤◌, length, List, IfOk, IfErr, IfSome, IfNone, OnOk};
ghost use Rattle.std.specs.Str.Lines.{strip_carriage_return};
ghost use Rattle.ghcn_series.specs.Alike.{BeginAlike};
ghost use Rattle.ghcn_series.specs.Cut as cut;
ghost use Rattle.ghcn_series.specs.Fed.{IsOfMemory, nothing_fed};
ghost use Rattle.ghcn_series.specs.LineKinds.{line_kind};
ghost use Rattle.ghcn_series.specs.LinesRead.{HasReadSome, ReadsText, RefusesText};

use crate::beginning::keep;
use crate::counts::{LineCounts, LineKind, goes_on, lines_if};
use crate::data::MOST_FILES;
use crate::fault::DataFault;
use crate::form::has_form;
use ghcn_fields::{Memory, is_blank, split_line, without_return};
use ghcn_files::{Keep, Stations};
use std::alloc::Global;

/// Reads the lines of daily files one after another, and makes something of them.
pub trait LineReader: Drop {
    ghost use Rattle.std.specs.Prelude.{◌≡◌, ℕ, false, List, [], IfOk, IfErr, OnOk};
    ghost use Rattle.ghcn_fields.specs.Meaning.Bytes.{is_blank};
    ghost use Rattle.ghcn_files.specs.declared.element.Keep.{Keep};
    ghost use Rattle.ghcn_files.specs.declared.station.Station.{Station};
    ghost use Rattle.ghcn_series.specs.DailyFaults.{FileLine};
    ghost use Rattle.ghcn_series.specs.LineKinds.{has_element};
    ghost use Rattle.ghcn_series.specs.LinesRead.{HasReadSome, ReadsLike, RefusesLike, Finishes};

    /// What it makes of the lines of all files.
    type Done: Drop;

    /// A reader of lines for some stations, which keeps the values of some elements, has read lines none of which has
    /// an error.
    ghost has_read: { Self → List Station → Keep → List FileLine → Type 0 };

    /// This is made of daily files none of whose lines has an error, for some stations, if the values of some elements
    /// are kept.
    ghost makes: { List Station → Keep → List (List ℕ) → Self.Done → Type 0 };

    /// Nothing read yet.
    fn new(alloc: Global, stations: Stations, keep: Keep) -> Result<Self, Memory>
        ensures { IfOk result (λ reader. has_read reader stations keep []) };

    /// Adds a line that isn't blank, without its line end, and returns whether it belongs to one of the five elements,
    /// or its error. Files and lines count from 1. Of the bytes after its last column it only matters whether all are
    /// blanks.
    fn add(&mut self, alloc: Global, file: u64, line: u64, bytes: &[u8]) -> Result<bool, DataFault>
        requires some { is_blank bytes.now ≡ false }
        requires read { HasReadSome has_read self.old }
        ensures element { IfOk result (λ of_element. of_element ≡ has_element bytes.now) }
        ensures read { OnOk result (ReadsLike has_read self.old self.new file line bytes.now) }
        ensures fault { IfErr result (RefusesLike has_read self.old file line bytes.now) };

    /// What it makes of all lines that were read: those of that many files, with these counts.
    fn finish(self, alloc: Global, files: u64, counts: &LineCounts) -> Result<Self::Done, Memory>
        requires { HasReadSome has_read self }
        ensures { IfOk result (Finishes has_read makes self files counts.now) };
}

/// A reader of lines that another one can be joined to.
pub trait JoinLines: LineReader {
    ghost use Rattle.std.specs.Prelude.{IfOk, IfSome, IfNone};
    ghost use Rattle.ghcn_series.specs.LinesRead.{HaveReadAlike, JoinsLines, ReadOneStation};

    /// One reader in place of two: it has read the lines of this one, and then those of the next one. Or none, if
    /// a listed station has months in both.
    fn join(self, next: Self) -> Result<Option<Self>, Memory>
        requires { HaveReadAlike Self.has_read self next }
        ensures joined { IfOk result (λ both. IfSome both (JoinsLines Self.has_read self next)) }
        ensures apart { IfOk result (λ both. IfNone both (ReadOneStation Self.has_read self next)) };
}

/// Cuts daily files into lines, in their order, each file in pieces that may end anywhere. The first error is kept,
/// and reported at the end: lines that come after it aren't looked at, but their files are counted.
#[derive(Drop)]
pub struct Cutter<L> {
    alloc: Global,
    reader: L,
    counts: LineCounts,
    /// How many files were ended, or 2^64 - 1 if there are more.
    ended: u64,
    /// Whether the current file has a byte.
    begun: bool,
    /// How many lines of the current file were ended.
    line: u64,
    /// What has come of the line after them, as far as it matters.
    rest: Vec<u8>,
    /// The error of the first line that has one, or out of memory.
    fault: Option<DataFault>,
}

/// What was read of daily files that are all ended.
#[derive(Drop)]
pub(crate) struct Cut<L> {
    pub(crate) reader: L,
    /// How many files there were.
    pub(crate) files: u64,
    pub(crate) counts: LineCounts,
}

impl<L: LineReader> Cutter<L> {
    /// Nothing fed yet. The values of a set of elements are kept; the lines of all five are tested. The only error
    /// is out of memory.
    pub fn new(alloc: Global, stations: Stations, keep: Keep) -> Result<Self, DataFault>
        ensures fed { IfOk result (λ cutter. cut.HasFed L.has_read cutter (nothing_fed keep stations)) }
        ensures going { IfOk result (cut.HasFedSome L.has_read) }
        ensures fault { IfErr result IsOfMemory }
    {
        match L::new(alloc, stations, keep) {
            Ok(reader) => Ok(Cutter {
                alloc,
                reader,
                counts: LineCounts::new(),
                ended: 0,
                begun: false,
                line: 0,
                rest: Vec::new(alloc),
                fault: None,
            }),
            Err(memory) => Err(DataFault::Memory(memory)),
        }
    }

    /// Takes more bytes of the current file.
    pub fn piece(&mut self, bytes: &[u8])
        requires { cut.HasFedSome L.has_read self.old }
        ensures fed { cut.TakesPiece L.has_read self.old self.new bytes.now }
        ensures going { cut.HasFedSome L.has_read self.new }
    {
        if bytes.is_empty() {
            return;
        }
        self.begun = true;
        if self.is_reading() {
            self.fault = self.read(bytes).err();
        }
    }

    /// Ends the current file, even if it is empty.
    pub fn end_of_file(&mut self)
        requires { cut.HasFedSome L.has_read self.old }
        ensures fed { cut.EndsFile L.has_read self.old self.new }
        ensures going { cut.HasFedSome L.has_read self.new }
    {
        if self.is_reading() {
            self.fault = self.read_end().err();
        }
        self.ended = self.ended.saturating_add(1);
        self.begun = false;
    }

    /// What the reader makes of the files that were fed, or their first error: too many files come before the error
    /// of a line. The current file is ended if it has a byte.
    pub fn finish(self) -> Result<L::Done, DataFault>
        requires { cut.HasFedSome L.has_read self }
        ensures ok { IfOk result (cut.MakesFed L.has_read L.makes self) }
        ensures err { IfErr result (cut.RefusesFed L.has_read self) }
    {
        let alloc = self.alloc;
        let all = self.close()?;
        match all.reader.finish(alloc, all.files, &all.counts) {
            Ok(done) => Ok(done),
            Err(memory) => Err(DataFault::Memory(memory)),
        }
    }

    /// What was read of the files that were fed, all of which are ended, or their first error.
    fn close(mut self) -> Result<Cut<L>, DataFault>
        requires { cut.HasFedSome L.has_read self }
        ensures some { IfOk result (λ all. HasReadSome L.has_read all.reader) }
        ensures ok { IfOk result (cut.HoldsFed L.has_read self) }
        ensures err { IfErr result (cut.RefusesFed L.has_read self) }
    {
        if self.begun {
            self.end_of_file();
        }
        if !self.has_few_files() {
            return Err(DataFault::TooManyFiles);
        }
        if let Some(fault) = self.fault {
            return Err(fault);
        }
        Ok(Cut {
            reader: self.reader,
            files: self.ended,
            counts: self.counts,
        })
    }

    /// Whether lines are looked at: there is no error so far.
    fn is_reading(&self) -> bool
        ensures { cut.LooksAtLines self.now result }
    {
        self.fault.is_none() && self.has_few_files()
    }

    /// Whether there are no more files than are read.
    fn has_few_files(&self) -> bool
        ensures { cut.CountsFew self.now result }
    {
        self.ended < MOST_FILES || self.ended == MOST_FILES && !self.begun
    }

    /// Reads more bytes of the current file. The loop over lines is a function of its own: what it holds fits the
    /// processor's registers, as it doesn't if it is built into a caller.
    #[inline(never)]
    fn read(&mut self, bytes: &[u8]) -> Result<(), DataFault>
        requires few { self.old.ended < 2 ^ 20 }
        requires read { HasReadSome L.has_read self.old.reader }
        ensures ended { self.new.ended ≡ self.old.ended }
        ensures begun { self.new.begun ≡ self.old.begun }
        ensures read { OnOk result (cut.ReadsBytes L.has_read self.old self.new bytes.now) }
        ensures fault { IfErr result (cut.RefusesBytes L.has_read self.old bytes.now) }
    {
        let mut left = bytes;
        while let Some((line, behind)) = split_line(left) {
            self.end_line(line)?;
            left = behind;
        }
        self.keep(left)
    }

    /// Reads the current file to its end, which ends its last line too.
    fn read_end(&mut self) -> Result<(), DataFault>
        requires few { 0 < length self.old.rest.items → self.old.ended < 2 ^ 20 }
        requires place { self.old.ended ≤ 2 ^ 20 }
        requires read { HasReadSome L.has_read self.old.reader }
        ensures ended { self.new.ended ≡ self.old.ended }
        ensures begun { self.new.begun ≡ self.old.begun }
        ensures read { OnOk result (cut.ReadsEnd L.has_read self.old self.new) }
        ensures fault { IfErr result (cut.RefusesEnd L.has_read self.old) }
    {
        if !self.rest.is_empty() {
            self.end_line(&[])?;
        }
        match self.counts.end_file(self.ended, self.line) {
            Some(()) => {
                self.line = 0;
                Ok(())
            }
            None => Err(DataFault::Memory(Memory)),
        }
    }

    /// Ends the line of which these are the last bytes. It is built into its callers, which would otherwise clear
    /// the room for its results at each line.
    #[inline(always)]
    fn end_line(&mut self, bytes: &[u8]) -> Result<(), DataFault>
        requires few { self.old.ended < 2 ^ 20 }
        requires read { HasReadSome L.has_read self.old.reader }
        ensures ended { self.new.ended ≡ self.old.ended }
        ensures begun { self.new.begun ≡ self.old.begun }
        ensures added { OnOk result (cut.AddsLine L.has_read self.old self.new bytes.now) }
        ensures fault { IfErr result (cut.RefusesLine L.has_read self.old bytes.now) }
    {
        let line = self.line.checked_add(1).ok_or(DataFault::Memory(Memory))?;
        let file = self.ended + 1;
        let kind = if self.rest.is_empty() {
            read_line(self.alloc, &mut self.reader, file, line, bytes)?
        } else {
            self.keep(bytes)?;
            let kind = read_joined(self.alloc, &mut self.reader, file, line, &self.rest)?;
            self.rest.clear();
            kind
        };
        self.line = line;
        match self.counts.add(kind, self.ended, line) {
            Some(()) => Ok(()),
            None => Err(DataFault::Memory(Memory)),
        }
    }

    /// Keeps what has come of a line that isn't ended, which few are, as far as it matters. It isn't built into its
    /// callers.
    #[inline(never)]
    fn keep(&mut self, bytes: &[u8]) -> Result<(), DataFault>
        ensures kept { OnOk result (BeginAlike (self.old.rest.items ++ bytes.now) self.new.rest.items) }
        ensures reader { self.new.reader ≡ self.old.reader }
        ensures counts { self.new.counts ≡ self.old.counts }
        ensures ended { self.new.ended ≡ self.old.ended }
        ensures begun { self.new.begun ≡ self.old.begun }
        ensures line { self.new.line ≡ self.old.line }
        ensures fault { IfErr result IsOfMemory }
    {
        keep(&mut self.rest, bytes)
    }
}

impl<L: JoinLines> Cutter<L> {
    /// One cutter in place of two: it was fed the files of this one, and then those of the next one, of which the first
    /// goes on with the current file of this one. Or none, if one of the two keeps an error or was fed too many files,
    /// if this one was left within a line, if a listed station has months in both, or if the file that goes on has a
    /// part that is foreign by itself.
    pub fn join(self, next: Self) -> Result<Option<Self>, Memory>
        requires { cut.WereFedAlike L.has_read self next }
        ensures joined { IfOk result (λ both. IfSome both (cut.Joins L.has_read self next)) }
        ensures going { IfOk result (λ both. IfSome both (cut.HasFedSome L.has_read)) }
        ensures apart { IfOk result (λ both. IfNone both (cut.StayApart L.has_read self next)) }
    {
        if !self.goes_on_with(&next) {
            return Ok(None);
        }
        let ends = 0 < next.ended;
        let counts = self.counts.join(next.counts, self.ended, self.line, ends);
        let line = lines_if(!ends, self.line).checked_add(next.line);
        let Some(reader) = self.reader.join(next.reader)? else {
            return Ok(None);
        };
        Ok(Some(Cutter {
            alloc: self.alloc,
            reader,
            counts: counts.ok_or(Memory)?,
            ended: self.ended.saturating_add(next.ended),
            begun: goes_on(self.begun, next.begun, ends),
            line: line.ok_or(Memory)?,
            rest: next.rest,
            fault: None,
        }))
    }

    /// Whether both have looked at their lines, this one is at the end of a line, and no part of its current file, with
    /// which the next one goes on, is foreign by itself.
    fn goes_on_with(&self, next: &Self) -> bool
        ensures { cut.GoOn L.has_read self.now next.now result }
    {
        if !self.is_reading() || !next.is_reading() || !self.rest.is_empty() {
            return false;
        }
        !self.counts.cuts_foreign(&next.counts)
    }
}

/// Reads a line as it is before its line feed, and returns what is on it. A blank line adds nothing.
///
/// What a line takes whose days aren't kept is built into the loop over lines, down to the test of its values: a call
/// would clear room for its result and save registers. Days that are kept, a new head and a line in pieces are calls.
#[inline(always)]
fn read_line<L: LineReader>(
    alloc: Global,
    reader: &mut L,
    file: u64,
    line: u64,
    bytes: &[u8],
) -> Result<LineKind, DataFault>
    requires { HasReadSome L.has_read reader.old }
    ensures kind { IfOk result (λ kind. kind ≡ line_kind (strip_carriage_return bytes.now)) }
    ensures read { OnOk result (ReadsText L.has_read reader.old reader.new file line bytes.now) }
    ensures fault { IfErr result (RefusesText L.has_read reader.old file line bytes.now) }
{
    let bytes = without_return(bytes);
    if is_blank(bytes) {
        return Ok(LineKind::Blank);
    }
    let of_element = reader.add(alloc, file, line, bytes)?;
    Ok(if of_element {
        LineKind::OfElement
    } else if has_form(bytes) {
        LineKind::Other
    } else {
        LineKind::Odd
    })
}

/// The same of a line that came in pieces, which few do. It isn't built into the loop over lines.
#[inline(never)]
fn read_joined<L: LineReader>(
    alloc: Global,
    reader: &mut L,
    file: u64,
    line: u64,
    bytes: &[u8],
) -> Result<LineKind, DataFault>
    requires { HasReadSome L.has_read reader.old }
    ensures kind { IfOk result (λ kind. kind ≡ line_kind (strip_carriage_return bytes.now)) }
    ensures read { OnOk result (ReadsText L.has_read reader.old reader.new file line bytes.now) }
    ensures fault { IfErr result (RefusesText L.has_read reader.old file line bytes.now) }
{
    read_line(alloc, reader, file, line, bytes)
}
