//! Cutters of lines for a reader that is given line by line, compared with readers of whole files.

ghost use Rattle.std.specs.Prelude.{IfOk};
ghost use Rattle.ghcn_series.specs.Cut.{HasFedSome};
ghost use Rattle.ghcn_series.specs.Gathered.{HasReadByRows};

use super::STATIONS;
use ghcn_fields::Memory;
use ghcn_files::{Element, Keep, Stations};
use ghcn_series::{Cutter, DataFault, LineCounts, LineReader, Reader, RowReader, Warnings};
use std::alloc::Global;

/// What a cutter finds: how many files and lines there are, how many of the lines are blank, the foreign files and the odd
/// lines.
#[derive(Clone, Copy)]
pub(super) struct Found {
    pub(super) files: u64,
    pub(super) lines: u64,
    pub(super) blank: u64,
    pub(super) warnings: Warnings,
}

/// Reads lines one by one, and makes of them what its cutter finds.
#[derive(Drop)]
struct Finder {
    reader: Reader,
}

impl LineReader for Finder {
    ghost use Rattle.std.specs.Prelude.{⊤};
    ghost use Rattle.ghcn_series.specs.Gathered.{HasReadFor};

    type Done = Found;

    ghost has_read = { λ finder. HasReadFor finder.reader };

    ghost makes = { λ _ _ _ _. ⊤ };

    fn new(alloc: Global, stations: Stations, keep: Keep) -> Result<Self, Memory> {
        Ok(Finder {
            reader: Reader::new(alloc, stations, keep)?,
        })
    }

    fn add(
        &mut self,
        alloc: Global,
        file: u64,
        line: u64,
        bytes: &[u8],
    ) -> Result<bool, DataFault> {
        let of_element = self.reader.add(alloc, file, line, bytes)?;
        Ok(of_element)
    }

    fn finish(self, _alloc: Global, files: u64, counts: &LineCounts) -> Result<Found, Memory> {
        Ok(Found {
            files,
            lines: counts.lines,
            blank: counts.blank,
            warnings: counts.warnings,
        })
    }
}

/// A cutter of lines for the two stations, which keeps these elements.
fn cutter(alloc: Global, keep: Keep) -> Result<Cutter<Finder>, DataFault>
    ensures { IfOk result (HasFedSome ⟦<Finder as LineReader>⟧.has_read) }
{
    match Stations::read(alloc, STATIONS) {
        Ok(stations) => Cutter::<Finder>::new(alloc, stations, keep),
        Err(_) => Err(DataFault::Memory(Memory)),
    }
}

/// What a cutter finds in these files, each of which comes in halves.
pub(super) fn found_by_lines(
    alloc: Global,
    keep: Keep,
    files: &[&[u8]],
) -> Result<Found, DataFault> {
    let mut cutter = cutter(alloc, keep)?;
    for file in files {
        let (front, behind) = file.split_at(file.len() / 2);
        cutter.piece(front);
        cutter.piece(behind);
        cutter.end_of_file();
    }
    cutter.finish()
}

/// A reader of the two stations' files, which keeps these elements.
fn reader(alloc: Global, keep: Keep) -> Result<Cutter<RowReader>, DataFault>
    ensures { IfOk result (HasFedSome HasReadByRows) }
{
    match Stations::read(alloc, STATIONS) {
        Ok(stations) => Cutter::<RowReader>::new(alloc, stations, keep),
        Err(_) => Err(DataFault::Memory(Memory)),
    }
}

/// The foreign files and odd lines that a reader of whole files finds among these.
fn warnings_by_files(alloc: Global, keep: Keep, files: &[&[u8]]) -> Result<Warnings, DataFault> {
    let mut reader = reader(alloc, keep)?;
    for file in files {
        reader.piece(file);
        reader.end_of_file();
    }
    let (_data, warnings) = reader.finish()?;
    Ok(warnings)
}

/// Those that a cutter finds among these.
fn warnings_by_lines(alloc: Global, keep: Keep, files: &[&[u8]]) -> Result<Warnings, DataFault> {
    Ok(found_by_lines(alloc, keep, files)?.warnings)
}

/// Whether both have the same error, or otherwise find the same foreign files and odd lines, whichever elements they
/// keep.
pub(super) fn are_alike(alloc: Global, files: &[&[u8]]) -> bool {
    let keeps = [
        Keep::everything(),
        Keep::nothing().with(Element::Tmax),
        Keep::nothing().with(Element::Tmin),
        Keep::nothing().with(Element::Prcp).with(Element::Tmin),
        Keep::nothing(),
    ];
    for keep in keeps {
        let by_files = warnings_by_files(alloc, keep, files);
        if warnings_by_lines(alloc, keep, files) != by_files {
            return false;
        }
    }
    true
}

/// The error that a cutter finds in a text after which these bytes and that many files come.
pub(super) fn fault_by_lines(
    alloc: Global,
    text: &[u8],
    behind: &[u8],
    files: u32,
) -> Option<DataFault> {
    match cutter(alloc, Keep::everything()) {
        Ok(mut cutter) => {
            cutter.piece(text);
            cutter.piece(behind);
            with_files(cutter, files).finish().err()
        }
        Err(fault) => Some(fault),
    }
}

/// A cutter with that many files more, all of them empty.
fn with_files(mut cutter: Cutter<Finder>, count: u32) -> Cutter<Finder>
    requires { HasFedSome ⟦<Finder as LineReader>⟧.has_read cutter }
    ensures { HasFedSome ⟦<Finder as LineReader>⟧.has_read result }
{
    for _ in 0..count {
        cutter.end_of_file();
    }
    cutter
}
